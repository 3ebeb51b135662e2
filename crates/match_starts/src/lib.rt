// An entry of a placement in the code: what makes one of a number, its order, and its text.
#![tactic(auto)]

ghost use Rattle.std.specs.Prelude.{◌≡◌};
ghost use Rattle.definitions.specs.Starts.{start_at, start_number, start_before, same_start};
ghost use Rattle.write_bytes.specs.Puts.{Puts};
ghost use Rattle.match_starts.specs.StartTexts.{start_text};

use definitions::packets::Start;
use write_bytes::put_decimal;

// The start so many bytes from the field's start.
pub fn start_at(at: usize) -> Start
    ensures { result ≡ start_at at }
{
    Start { at }
}

// A start as the number that answers are compared by.
pub fn start_number(s: Start) -> u64
    ensures { result ≡ start_number s }
{
    s.at as u64
}

// Whether one start comes before another.
#[tactic(auto, unfolding(definitions::specs::Starts::start_before))]
pub fn start_before(a: Start, b: Start) -> bool
    ensures { result ≡ start_before a b }
{
    a.at < b.at
}

// Whether two starts are the same.
#[tactic(auto, unfolding(definitions::specs::Starts::same_start))]
pub fn same_start(a: Start, b: Start) -> bool
    ensures { result ≡ same_start a b }
{
    a == b
}

// The text of a start: its number in decimal.
pub fn put_start(out: &mut [u8], at: usize, s: Start) -> usize
    ensures { Puts out.old at (start_text s) out.new result }
{
    put_decimal(out, at, s.at as u64)
}
