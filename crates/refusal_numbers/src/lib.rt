// The documents' number of a refusal.
#![tactic(auto)]

ghost use Rattle.std.specs.Prelude.{◌≡◌};
ghost use Rattle.definitions.specs.Refusals.{number_of};

use definitions::answers::Refusal;

// The number of a refusal.
pub fn number_of(r: Refusal) -> u64
    ensures { result ≡ number_of r }
{
    match r {
        Refusal::TextLength => 1,
        Refusal::TextByte => 2,
        Refusal::Opening => 3,
        Refusal::NeitherOptionNorEnd => 4,
        Refusal::NotListed => 5,
        Refusal::Form => 6,
        Refusal::Limit => 7,
        Refusal::Repeated => 8,
        Refusal::ModifierWithoutPattern => 9,
        Refusal::Unusable => 10,
        Refusal::CountExceeded => 11,
        Refusal::Missing => 12,
        Refusal::IllFormed => 20,
        Refusal::CanonicalLength => 21,
        Refusal::ShortBuffer => 22,
        Refusal::BufferLength => 30,
        Refusal::NotIpv4 => 31,
        Refusal::Lengths => 32,
        Refusal::Fragment => 33,
        Refusal::Transport => 34,
        Refusal::FieldSpan => 35,
        Refusal::EarlierCount => 36,
        Refusal::BookLength => 50,
        Refusal::RuleForm => 51,
        Refusal::RuleOrder => 52,
        Refusal::RuleCount => 53,
    }
}
