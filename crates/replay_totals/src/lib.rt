// What is said of a line, as a number: its text, and how many lines of each kind there were.
#![tactic(auto)]

ghost use Rattle.std.specs.Prelude.{◌≡◌};
ghost use Rattle.write_bytes.specs.Puts.{Puts};
ghost use Rattle.replay_laws.specs.Replays.{outcome_text};
ghost use Rattle.replay_totals.specs.OutcomeNumbers.{outcome_of};
ghost use Rattle.replay_totals.specs.Totals.{no_totals, counted, total_text};

use line_stream::next_number;
use write_bytes::{put, put_decimal, put_word};

// Lines of each kind; the largest number stays.
#[derive(Clone, Copy)]
pub struct Totals {
    pub passes: u64,
    pub holds: u64,
    pub bad: u64,
}

// The number of a bad line; no decision has it. What is said of a line stays the number that a block's answers have, so that these are taken as they are.
pub const BAD: u32 = 131072;

// The number of a pass is the deciding rule's and so much more.
const PASS: u32 = 65536;

// No line yet.
pub fn no_totals() -> Totals
    ensures { result ≡ no_totals }
{
    Totals {
        passes: 0,
        holds: 0,
        bad: 0,
    }
}

// With a line of this number.
pub fn count(t: Totals, n: u32) -> Totals
    ensures { result ≡ counted t (outcome_of n) }
{
    if n == BAD {
        return Totals {
            bad: next_number(t.bad),
            ..t
        };
    }
    if PASS <= n {
        return Totals {
            passes: next_number(t.passes),
            ..t
        };
    }
    Totals {
        holds: next_number(t.holds),
        ..t
    }
}

// What is said of a line of this number: `pass`, `hold` or `bad`, tab, the deciding rule.
pub fn put_outcome(out: &mut [u8], at: usize, n: u32) -> usize
    ensures { Puts out.old at (outcome_text (outcome_of n)) out.new result }
{
    if n == BAD {
        return put_word(out, at, b"bad\t0");
    }
    if PASS <= n {
        let next = put_word(out, at, b"pass\t");
        return put_decimal(out, next, (n - PASS) as u64);
    }
    let next = put_word(out, at, b"hold\t");
    put_decimal(out, next, n as u64)
}

// `total`, tab, passes, tab, holds, tab, bad, LF.
pub fn put_totals(out: &mut [u8], at: usize, t: Totals) -> usize
    ensures { Puts out.old at (total_text t) out.new result }
{
    let a1 = put_word(out, at, b"total\t");
    let a2 = put_decimal(out, a1, t.passes);
    let a3 = put(out, a2, b'\t');
    let a4 = put_decimal(out, a3, t.holds);
    let a5 = put(out, a4, b'\t');
    let a6 = put_decimal(out, a5, t.bad);
    put(out, a6, b'\n')
}
