// The first place of a byte, from any place on. Bytes are passed over in groups, each looked at as a whole, and one by one only near the end of the search.
#![tactic(auto)]

ghost use Rattle.std.specs.Prelude.{◌≡◌, ◌+◌, ◌≤◌, leb, length, drop};
ghost use Rattle.definitions.specs.Parts.{find};

// So many bytes are a group.
const GROUP: usize = 32;

// Whether the byte is in no place of a group. There is no early way out, so the group's bytes are compared at once.
fn none_in_group(s: &[u8], at: usize, b: u8) -> bool
    requires { at + 32 ≤ length s.now }
    ensures { result ≡ leb 32 (find b (drop at s.now)) }
{
    let mut none = true;
    for x in &s[at..at + GROUP] {
        none &= *x != b;
    }
    none
}

// A place up to which the byte does not stand: whole groups are passed over.
fn past_groups(s: &[u8], from: usize, b: u8) -> usize
    ensures { from + find b (drop from s.now) ≡ result + find b (drop result s.now) }
{
    if s.len() < GROUP {
        return from;
    }
    let last = s.len() - GROUP;
    let mut i = from;
    // The last place is the answer, and a `for` in steps would not tell it.
    while i <= last {
        if !none_in_group(s, i, b) {
            return i;
        }
        i += GROUP;
    }
    i
}

// The first place of the byte from a place on, or the end.
pub fn find_from(s: &[u8], from: usize, b: u8) -> usize
    ensures { result ≡ from + find b (drop from s.now) }
{
    let near = past_groups(s, from, b);
    for i in near..s.len() {
        if s[i] == b {
            return i;
        }
    }
    near.max(s.len())
}
