// THE NODE GUARD FOR MANY PACKETS: a block of packets by the rules of a judged book. Rules are in the outer loop, so that each text is read once for the whole
// block, and only as long as some packet is not decided.
#![tactic(auto)]

ghost use Rattle.std.specs.Prelude.{◌≡◌, true, List, ℕ, ◌+◌, ◌≤◌, ◌<◌, length};
ghost use Rattle.definitions.specs.Limits.{document_limits};
ghost use Rattle.definitions.specs.Tables.{table_with};
ghost use Rattle.definitions.specs.WellFormed.{well_formed};
ghost use Rattle.definitions.specs.LoadedBooks.{rule_at, rules_in};
ghost use Rattle.definitions.specs.Blocks.{record_length, record_direction, record_of, records_up_to, action_number, block_numbers, block_answered};
ghost use Rattle.matcher.specs.PassedOver.{may_meet};
ghost use Rattle.matcher.specs.Matching.{Matchable};
ghost use Rattle.guard_numbers.specs.OpenNumbers.{open_number};
ghost use Rattle.guard_blocks.specs.Numbering.{meets_record, renumbered, by_rule};

use definitions::books::{Answered, LoadedRule, Rules};
use definitions::limits::{ITEMS, RULES};
use definitions::table::{Flow, Slot, Table};
use guard::is_on;
use guard_numbers::{OPEN, answer_number, any_open, close_all, open_all};
use guard_packets::{
    HEAD, count_records, number_at, record_direction, record_fields, record_length,
};
use rule_book::text_at;

// Whether protocol and flow leave it open that a table meets the packet of the record at the front.
fn may_meet(protocol: u8, flow: Flow, s: &[u8]) -> bool
    requires { record_length s.now ≤ length s.now }
    ensures { result ≡ may_meet protocol flow (record_of s.now).packet (record_direction s.now) }
{
    let end = HEAD + number_at(s, 2);
    matcher::may_meet(protocol, flow, &s[HEAD..end], record_direction(s))
}

// Whether a well-formed table of these parts meets the packet of the record at the front, whatever its name.
fn meets<'a>(
    protocol: u8,
    flow: Flow,
    items: [Slot; ITEMS],
    count: usize,
    bytes: &'a [u8],
    s: &'a [u8],
) -> bool
    requires { Matchable items count bytes.now × (record_length s.now ≤ length s.now) }
    ensures { (name : List ℕ) (len used : ℕ) → well_formed (table_with name len protocol flow bytes.now used items count) ≡ true → result ≡ meets_record (table_with name len protocol flow bytes.now used items count) (record_of s.now) }
{
    let m = record_fields(s);
    let dir = record_direction(s);
    let end = HEAD + number_at(s, 2);
    let to = end + number_at(s, 4);
    matcher::meets(
        protocol,
        flow,
        items,
        count,
        bytes,
        &s[HEAD..end],
        &s[end..to],
        dir,
        m,
    )
}

// Decides by a rule's table the packets that are not decided.
fn decide_table(t: Table, answer: u32, block: &[u8], packets: usize, out: &mut [u32])
    requires { (well_formed t ≡ true) × ((length (records_up_to packets block.now) ≡ packets) × (packets ≤ length out.old)) }
    ensures { out.new ≡ renumbered (meets_record t) answer (records_up_to packets block.now) out.old }
{
    let mut at = 0;
    for i in 0..packets {
        let s = &block[at..];
        let is_open = out[i] == OPEN;
        if is_open {
            if may_meet(t.protocol, t.flow, s) {
                if meets(t.protocol, t.flow, t.items, t.count, &t.bytes, s) {
                    out[i] = answer;
                }
            }
        }
        at += record_length(s);
    }
}

// Decides by a rule the packets that are not decided. No rule's answer is OPEN, so that one that is decided stays so.
fn decide_rule(book: &[u8], rule: LoadedRule, block: &[u8], packets: usize, out: &mut [u32])
    requires { (length (records_up_to packets block.now) ≡ packets) × (packets ≤ length out.old) }
    ensures below { action_number rule.action + rule.number < open_number }
    ensures numbers { out.new ≡ by_rule document_limits (records_up_to packets block.now) (rule_at book.now rule) out.old }
{
    let answer = answer_number(rule.action, rule.number);
    if !is_on(rule.state) {
        return;
    }
    let reading = reader::read(text_at(book, rule.start, rule.len));
    match reading.outcome {
        Ok(()) => decide_table(reading.table, answer, block, packets, out),
        Err(_) => {}
    }
}

// THE DECISIONS for the packets of a block, by some rules of a book: a number for each, as many as there is room for.
pub fn decide_block(book: &[u8], rules: Rules, block: &[u8], out: &mut [u32]) -> Answered
    ensures numbers { out.new ≡ block_numbers document_limits (rules_in book.now rules) block.now out.old }
    ensures answered { result ≡ block_answered block.now (length out.old) }
{
    let answered = count_records(block, out.len());
    let packets = answered.packets;
    open_all(out, packets);
    for rule in &rules.list[..rules.count.min(RULES)] {
        if !any_open(out, packets) {
            break;
        }
        decide_rule(book, *rule, block, packets, out);
    }
    close_all(out, packets);
    answered
}
