// The starts of a field at which a pattern's bytes stand, one after the other.
ghost use Rattle.std.specs.Prelude.{◌≡◌, ◌-◌};
ghost use Rattle.match_patterns.specs.Starts.{Fits, standing, first_start};

use crate::bytes::{alike_at, equal_at};
use match_folding::fold_table;

// The first start from `from` on, before `to`, at which the bytes `b` stand in the field; none if it is `to` or more. The table of folded bytes is laid out
// once for the walk.
pub fn next_start(nocase: bool, b: &[u8], f: &[u8], from: usize, to: usize) -> usize
    requires { Fits b.now f.now to }
    ensures { result ≡ first_start (standing nocase b.now f.now) from (to - from) }
{
    let none = from.max(to);
    if nocase {
        let folded = fold_table();
        return (from..to)
            .find(|at| alike_at(&folded, b, f, *at))
            .unwrap_or(none);
    }
    (from..to).find(|at| equal_at(b, f, *at)).unwrap_or(none)
}
