// THE PUBLIC ENTRIES: the verdict on one packet, and "first" and "next" of its list of placements. They take any table, packet, buffer, direction, map
// and earlier placement; refusals 20 and 30 to 36 come first, in this order. Packet and decoded buffer have one lifetime, which ends with the call, since no
// answer lends anything: it costs a caller nothing.
#![tactic(auto)]

ghost use Rattle.std.specs.Prelude.{◌≡◌, true, List, ℕ};
ghost use Rattle.definitions.specs.Tables.{table_with};
ghost use Rattle.definitions.specs.Answers.{verdict_answer, first_answer, next_answer};
ghost use Rattle.definitions.specs.WellFormed.{well_formed};
ghost use Rattle.definitions.specs.Decisions.{is_met};
ghost use Rattle.matcher.specs.PassedOver.{may_meet};
ghost use Rattle.matcher.specs.Matching.{Matchable};
ghost use Rattle.definitions.specs.AnswerNumbers.{verdict_numbers, answer_numbers, verdict_in_numbers, first_in_numbers, next_in_numbers};

use definitions::answers::{Answer, Refusal, Verdict};
use definitions::limits::ITEMS;
use definitions::packets::{Direction, FieldMap, Placement};
use definitions::table::{Flow, Slot, Table};
use match_answers::answers::refused;
use match_answers::verdicts::verdict_of;
use match_checks::check_input;
use match_items::heads::flow_holds;
use match_placements::{first_in, next_in};
use packet::{packet_header, payload_of};
use table_well_formed::well_formed;

// THE VERDICT: met exactly if some placement meets the table.
pub fn verdict<'a>(
    t: Table,
    p: &'a [u8],
    decoded: &'a [u8],
    dir: Direction,
    m: FieldMap,
) -> Result<Verdict, Refusal>
    ensures answer { result ≡ verdict_answer t p.now decoded.now dir m }
    ensures numbers { verdict_numbers result ≡ verdict_in_numbers t p.now decoded.now dir m }
{
    let formed = well_formed(t.name, t.len, t.items, t.count, &t.bytes, t.used);
    // A match and not `?`, so that an edit can change the refusal and nothing else (must-fail/fields_before_packet).
    match check_input(formed, p, decoded) {
        Err(r) => Err(r), // 20 and 30 to 34 come before 35
        Ok(header) => {
            let payload = payload_of(p, header);
            let a = first_in(
                t.protocol, t.flow, t.items, t.count, &t.bytes, header, payload, decoded, dir, m,
            );
            verdict_of(a.found)
        }
    }
}

// FIRST: the first of the list of placements, or none.
pub fn first<'a>(t: Table, p: &'a [u8], decoded: &'a [u8], dir: Direction, m: FieldMap) -> Answer
    ensures answer { result ≡ first_answer t p.now decoded.now dir m }
    ensures numbers { answer_numbers result ≡ first_in_numbers t p.now decoded.now dir m }
{
    let formed = well_formed(t.name, t.len, t.items, t.count, &t.bytes, t.used);
    match check_input(formed, p, decoded) {
        Err(r) => refused(r),
        Ok(header) => {
            let payload = payload_of(p, header);
            first_in(
                t.protocol, t.flow, t.items, t.count, &t.bytes, header, payload, decoded, dir, m,
            )
        }
    }
}

// NEXT: the least of the list after an earlier placement, or none.
pub fn next<'a>(
    t: Table,
    p: &'a [u8],
    decoded: &'a [u8],
    dir: Direction,
    m: FieldMap,
    held: Placement,
) -> Answer
    ensures answer { result ≡ next_answer t p.now decoded.now dir m held }
    ensures numbers { answer_numbers result ≡ next_in_numbers t p.now decoded.now dir m held }
{
    let formed = well_formed(t.name, t.len, t.items, t.count, &t.bytes, t.used);
    match check_input(formed, p, decoded) {
        Err(r) => refused(r), // 20 and 30 to 34 come before 36
        Ok(header) => {
            let payload = payload_of(p, header);
            next_in(
                t.protocol, t.flow, t.items, t.count, &t.bytes, header, payload, decoded, dir, m,
                held,
            )
        }
    }
}

// For a caller that asks many packets of one table: whether protocol and flow leave it open that the table is met. Where they don't, it is not.
#[tactic(auto, unfolding(crate::specs::PassedOver::may_meet))]
pub fn may_meet(protocol: u8, flow: Flow, p: &[u8], dir: Direction) -> bool
    ensures { result ≡ may_meet protocol flow p.now dir }
{
    p.len() >= 10 && p[9] == protocol && flow_holds(flow, dir)
}

// Whether a verdict is met.
fn is_met(v: Result<Verdict, Refusal>) -> bool
    ensures { result ≡ is_met v }
{
    matches!(v, Ok(Verdict::Met))
}

// For a caller that knows its table to be well formed, as one that was read is, and has its parts at hand: whether the verdict is met, whatever the table's name.
pub fn meets<'a>(
    protocol: u8,
    flow: Flow,
    items: [Slot; ITEMS],
    count: usize,
    bytes: &'a [u8],
    p: &'a [u8],
    decoded: &'a [u8],
    dir: Direction,
    m: FieldMap,
) -> bool
    requires { Matchable items count bytes.now }
    ensures { (name : List ℕ) (len used : ℕ) → well_formed (table_with name len protocol flow bytes.now used items count) ≡ true → result ≡ is_met (verdict_answer (table_with name len protocol flow bytes.now used items count) p.now decoded.now dir m) }
{
    let Ok(header) = packet_header(p, decoded) else {
        return false;
    };
    let payload = payload_of(p, header);
    let a = first_in(
        protocol, flow, items, count, bytes, header, payload, decoded, dir, m,
    );
    is_met(verdict_of(a.found))
}
