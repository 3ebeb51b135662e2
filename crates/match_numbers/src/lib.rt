// An answer as numbers: refusal number, found or none, count, starts and unused room.
#![tactic(auto)]

ghost use Rattle.std.specs.Prelude.{◌≡◌, ◌++◌, map, ◌+◌, ◌≤◌, length, take, drop};
ghost use Rattle.std.proofs.lemmas.List.Edits.{sets};
ghost use Rattle.definitions.specs.Limits.{max_patterns};
ghost use Rattle.definitions.specs.Starts.{start_number};
ghost use Rattle.definitions.specs.Refusals.{found_number, found_one};
ghost use Rattle.definitions.specs.AnswerNumbers.{answer_numbers};
ghost use Rattle.match_numbers.specs.Numbers.{numbers_of_one};

use definitions::answers::{Answer, Found, Refusal};
use definitions::limits::PATTERNS;
use definitions::packets::Start;
use match_starts::start_number;
use refusal_numbers::number_of;

// Numbers of an answer.
pub const NUMBERS: usize = 3 + PATTERNS;

// 0 where nothing is refused.
fn found_number(f: Result<Found, Refusal>) -> u64
    ensures { result ≡ found_number f }
{
    match f {
        Ok(_) => 0,
        Err(r) => number_of(r),
    }
}

// 1 for a placement.
fn found_one(f: Result<Found, Refusal>) -> u64
    ensures { result ≡ found_one f }
{
    match f {
        Ok(Found::Placed) => 1,
        Ok(Found::Nothing) | Err(_) => 0,
    }
}

// All starts, those not in use too.
fn put_starts(out: &mut [u64], at: usize, starts: [Start; PATTERNS])
    requires { at + max_patterns ≤ length out.old }
    ensures { out.new ≡ sets out.old at (map start_number starts) }
{
    for (j, start) in starts.iter().enumerate() {
        out[at + j] = start_number(*start);
    }
}

// The answer's numbers from `at` on.
pub fn put_answer(out: &mut [u64], at: usize, a: Answer)
    requires { at + numbers_of_one ≤ length out.old }
    ensures { out.new ≡ take at out.old ++ answer_numbers a ++ drop (at + numbers_of_one) out.old }
{
    out[at] = found_number(a.found);
    out[at + 1] = found_one(a.found);
    out[at + 2] = a.placement.count as u64;
    put_starts(out, at + 3, a.placement.starts);
}
