// One placement, such as `(2,3)` or `()`.
ghost use Rattle.std.specs.Prelude.{◌≤◌, take, drop};
ghost use Rattle.definitions.specs.Limits.{max_patterns};
ghost use Rattle.definitions.specs.Answers.{starts_of};
ghost use Rattle.write_bytes.specs.Puts.{Puts};
ghost use Rattle.case_lists.specs.AnswerTexts.{starts_after, starts_text, placement_text};

use definitions::limits::PATTERNS;
use definitions::packets::{Placement, Start};
use match_starts::put_start;
use write_bytes::limits::at_most;
use write_bytes::put;

// The starts after the first of n.
fn put_starts_after(out: &mut [u8], at: usize, starts: [Start; PATTERNS], n: usize) -> usize
    requires { n ≤ max_patterns }
    ensures { Puts out.old at (starts_after (drop 1 (take n starts))) out.new result }
{
    let mut next = at;
    for i in 1..n {
        next = put(out, next, b',');
        next = put_start(out, next, starts[i]);
    }
    next
}

// So many of the starts as there are, at most all.
fn put_starts(out: &mut [u8], at: usize, starts: [Start; PATTERNS], count: usize) -> usize
    ensures { Puts out.old at (starts_text (take count starts)) out.new result }
{
    let n = at_most(count, PATTERNS);
    if n == 0 {
        return at;
    }
    let next = put_start(out, at, starts[0]);
    put_starts_after(out, next, starts, n)
}

// A placement's starts in brackets.
pub fn put_placement(out: &mut [u8], at: usize, h: Placement) -> usize
    ensures { Puts out.old at (placement_text (starts_of h)) out.new result }
{
    let a1 = put(out, at, b'(');
    let a2 = put_starts(out, a1, h.starts, h.count);
    put(out, a2, b')')
}
