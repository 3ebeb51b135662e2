// The answer to one query: a placement, none, or a refusal.
ghost use Rattle.write_bytes.specs.Puts.{Puts};
ghost use Rattle.case_lists.specs.AnswerTexts.{refused_text, answer_text};

use crate::placement_text::put_placement;
use definitions::answers::{Answer, Found, Refusal};
use refusal_numbers::number_of;
use write_bytes::{put_decimal, put_word};

// A refusal by its number.
pub fn put_refused(out: &mut [u8], at: usize, r: Refusal) -> usize
    ensures { Puts out.old at (refused_text r) out.new result }
{
    let next = put_word(out, at, b"refused ");
    put_decimal(out, next, number_of(r))
}

// An answer: a placement, none, or a refusal.
pub fn put_answer(out: &mut [u8], at: usize, a: Answer) -> usize
    ensures { Puts out.old at (answer_text a) out.new result }
{
    match a.found {
        Ok(Found::Placed) => put_placement(out, at, a.placement),
        Ok(Found::Nothing) => put_word(out, at, b"none"),
        Err(r) => put_refused(out, at, r),
    }
}
