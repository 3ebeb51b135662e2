// What the entries make of an outcome or a refusal.
ghost use Rattle.std.specs.Prelude.{◌≡◌};
ghost use Rattle.definitions.specs.Answers.{refused_answer};
ghost use Rattle.match_answers.specs.Answering.{answer_of};

use definitions::answers::{Answer, Found, Refusal};
use definitions::packets::Placement;
use search_state::chosen::empty;

// The answer that refuses.
pub fn refused(r: Refusal) -> Answer
    ensures { result ≡ refused_answer r }
{
    Answer {
        found: Err(r),
        placement: empty(),
    }
}

// The answer that hands out what a search has found.
pub fn answered(x: Option<Placement>) -> Answer
    ensures { result ≡ answer_of x }
{
    match x {
        Some(placement) => Answer {
            found: Ok(Found::Placed),
            placement,
        },
        None => Answer {
            found: Ok(Found::Nothing),
            placement: empty(),
        },
    }
}
