// What an answer to "first" says of the verdict.
ghost use Rattle.std.specs.Prelude.{◌≡◌};
ghost use Rattle.match_answers.specs.Verdicts.{verdict_of};

use definitions::answers::{Found, Refusal, Verdict};

// The verdict that the answer to "first" comes to.
pub fn verdict_of(f: Result<Found, Refusal>) -> Result<Verdict, Refusal>
    ensures { result ≡ verdict_of f }
{
    f.map(|found| match found {
        Found::Placed => Verdict::Met,
        Found::Nothing => Verdict::NotMet,
    })
}
