// THE NODE GUARD: pass or hold for a packet, by a whole rule book. It knows what the reader and the matcher promise, and nothing of how they do it.
// Packet and decoded buffer have one lifetime, which ends with the call.
#![tactic(auto)]

ghost use Rattle.std.specs.Prelude.{◌≡◌};
ghost use Rattle.definitions.specs.Limits.{document_limits};
ghost use Rattle.definitions.specs.Decisions.{is_on, decides, decided, decision};
ghost use Rattle.definitions.specs.LoadedBooks.{rule_at, rules_in};
ghost use Rattle.definitions.specs.AnswerNumbers.{decision_numbers, decision_in_numbers};

use definitions::answers::BookRefusal;
use definitions::books::{Action, Decision, LoadedRule, Rules, State};
use definitions::limits::RULES;
use definitions::packets::{Direction, FieldMap};
use rule_book::load;

// It stood here before two books were compared, and is still had from here.
pub use rule_book::text_at;

// Whether a rule is on.
pub fn is_on(s: State) -> bool
    ensures { result ≡ is_on s }
{
    s == State::On
}

// Whether a rule is on and has a placement.
fn rule_decides<'a>(
    book: &[u8],
    rule: LoadedRule,
    p: &'a [u8],
    decoded: &'a [u8],
    dir: Direction,
    m: FieldMap,
) -> bool
    ensures { result ≡ decides document_limits p.now decoded.now dir m (rule_at book.now rule) }
{
    if !is_on(rule.state) {
        return false;
    }
    let reading = reader::read(text_at(book, rule.start, rule.len));
    match reading.outcome {
        Ok(()) => {
            let t = reading.table;
            matcher::meets(
                t.protocol, t.flow, t.items, t.count, &t.bytes, p, decoded, dir, m,
            )
        }
        Err(_) => false,
    }
}

// THE DECISION by some rules of a book: rule after rule, up to the one that decides.
pub fn decide_by<'a>(
    book: &[u8],
    rules: Rules,
    p: &'a [u8],
    decoded: &'a [u8],
    dir: Direction,
    m: FieldMap,
) -> Result<Decision, BookRefusal>
    ensures { result ≡ decided document_limits p.now decoded.now dir m (rules_in book.now rules) }
{
    for rule in &rules.list[..rules.count.min(RULES)] {
        if rule_decides(book, *rule, p, decoded, dir, m) {
            return Ok(Decision {
                action: rule.action,
                rule: rule.number,
            });
        }
    }
    Ok(Decision {
        action: Action::Hold,
        rule: 0,
    })
}

// THE DECISION by a book: its refusal, or the first rule that is on and has a placement; hold and 0 if none has.
pub fn decide<'a>(
    book: &[u8],
    p: &'a [u8],
    decoded: &'a [u8],
    dir: Direction,
    m: FieldMap,
) -> Result<Decision, BookRefusal>
    ensures answer { result ≡ decision document_limits p.now decoded.now dir m book.now }
    ensures numbers { decision_numbers result ≡ decision_in_numbers document_limits p.now decoded.now dir m book.now }
{
    let b = load(book);
    b.judgement?;
    decide_by(book, b.rules, p, decoded, dir, m)
}
