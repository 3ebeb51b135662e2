// Numbers kept within the room there is.
ghost use Rattle.std.specs.Prelude.{◌≡◌};
ghost use Rattle.write_bytes.specs.Clipped.{at_most};

// `n`, or the most if it is beyond that.
pub fn at_most(n: usize, most: usize) -> usize
    ensures { result ≡ at_most n most }
{
    n.min(most)
}
