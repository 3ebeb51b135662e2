// Whether two slices have the same bytes.
#![tactic(auto)]

ghost use Rattle.std.specs.Prelude.{◌≡◌};
ghost use Rattle.definitions.specs.Lists.{same_bytes};

pub fn same_bytes(s: &[u8], w: &[u8]) -> bool
    ensures { result ≡ same_bytes s.now w.now }
{
    s == w
}
