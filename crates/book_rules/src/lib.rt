// A line of a rule book: whether it has the form of a rule, and what it says.
#![tactic(auto)]

ghost use Rattle.std.specs.Prelude.{◌≡◌};
ghost use Rattle.book_rules.specs.RuleLines.{parsed_rule_number, parsed_state, parsed_action, parsed_rule};

use definitions::books::{Action, LoadedRule, State};
use definitions::limits::MAX_WORD;
use line_numbers::decimals::parse_decimal;
use line_parts::{contains, is_word, part_after, part_before};

// A rule's number: without leading zeros, and so never 0. None for other bytes.
fn parse_number(s: &[u8]) -> Option<u64>
    ensures { result ≡ parsed_rule_number s.now }
{
    if s.starts_with(b"0") {
        return None;
    }
    parse_decimal(s, MAX_WORD)
}

// The state of its word; none for another.
fn parse_state(s: &[u8]) -> Option<State>
    ensures { result ≡ parsed_state s.now }
{
    if is_word(s, b"on") {
        return Some(State::On);
    }
    if is_word(s, b"off") {
        return Some(State::Off);
    }
    None
}

// The action of its word; none for another.
fn parse_action(s: &[u8]) -> Option<Action>
    ensures { result ≡ parsed_action s.now }
{
    if is_word(s, b"pass") {
        return Some(Action::Pass);
    }
    if is_word(s, b"hold") {
        return Some(Action::Hold);
    }
    None
}

// THE RULE OF A LINE, which is given with its LF: number, tab, state, tab, action, tab, text, LF. Its text is told by its place in the line. None if the line
// has another form.
pub fn parse_rule(l: &[u8]) -> Option<LoadedRule>
    ensures { result ≡ parsed_rule l.now }
{
    let r1 = part_after(l, b'\t');
    let r2 = part_after(r1, b'\t');
    let r3 = part_after(r2, b'\t');
    if !contains(l, b'\n') {
        return None;
    }
    if !contains(r2, b'\t') {
        return None;
    }
    let number = parse_number(part_before(l, b'\t'))?;
    let state = parse_state(part_before(r1, b'\t'))?;
    let action = parse_action(part_before(r2, b'\t'))?;
    Some(LoadedRule {
        number: number as u16,
        state,
        action,
        start: l.len() - r3.len(),
        len: part_before(r3, b'\n').len(),
    })
}
