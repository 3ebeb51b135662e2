// The answer to a line of decisions, put into a lent buffer.
ghost use Rattle.std.specs.Prelude.{◌≡◌, true, ◌≤◌, length};
ghost use Rattle.definitions.specs.Cases.{pairs};
ghost use Rattle.definitions.specs.Decisions.{decision};
ghost use Rattle.definitions.specs.Limits.{document_limits};
ghost use Rattle.write_bytes.specs.Puts.{Puts};
ghost use Rattle.line_numbers.specs.HexPairs.{is_hex};
ghost use Rattle.decision_lines.specs.DecisionLines.{max_line, action_text, decision_text, decision_answer};
ghost use Rattle.decision_lines.specs.Columns.{columns_text};

use definitions::answers::{BookRefusal, Refusal};
use definitions::books::{Action, Decision};
use line_numbers::hex_pairs::{is_hex_pairs, put_pairs};
use line_packets::packets::{PacketColumns, parse_packet};
use line_parts::{contains, part_after, part_before};
use refusal_numbers::number_of;
use write_bytes::{put, put_decimal, put_word};

// Bytes of a line of decisions, before the LF.
pub const DECISION_BYTES: usize = 262144;

// Bytes that the pairs of a column write at most.
pub const PAIRS: usize = DECISION_BYTES / 2;

// The action's word and a space.
fn put_action(out: &mut [u8], at: usize, a: Action) -> usize
    ensures { Puts out.old at (action_text a) out.new result }
{
    match a {
        Action::Pass => put_word(out, at, b"pass "),
        Action::Hold => put_word(out, at, b"hold "),
    }
}

// A book's refusal with its line.
fn put_unjudged(out: &mut [u8], at: usize, r: Refusal, line: usize) -> usize
    ensures { Puts out.old at (decision_text (Err (record { refusal = r; line = line }))) out.new result }
{
    let a1 = put_word(out, at, b"refused ");
    let a2 = put_decimal(out, a1, number_of(r));
    let a3 = put(out, a2, b' ');
    put_decimal(out, a3, line as u64)
}

// Action and rule, or the book's refusal with its line.
fn put_decision(out: &mut [u8], at: usize, d: Result<Decision, BookRefusal>) -> usize
    ensures { Puts out.old at (decision_text d) out.new result }
{
    match d {
        Ok(d) => {
            let a1 = put_action(out, at, d.action);
            put_decimal(out, a1, d.rule as u64)
        }
        Err(e) => put_unjudged(out, at, e.refusal, e.line),
    }
}

// A line whose columns are of their form; the pairs of packet, decoded buffer and book are written into room that the caller lends.
fn put_formed(
    out: &mut [u8],
    at: usize,
    packet: &[u8],
    decoded: &[u8],
    book: &[u8],
    located: PacketColumns,
    room: &mut [u8; PAIRS],
    more: &mut [u8; PAIRS],
    book_room: &mut [u8; PAIRS],
) -> usize
    requires { (is_hex packet.now ≡ true) × (is_hex decoded.now ≡ true) × (is_hex book.now ≡ true) × (length packet.now ≤ max_line) × (length decoded.now ≤ max_line) × (length book.now ≤ max_line) }
    ensures { Puts out.old at (decision_text (decision document_limits (pairs packet.now) (pairs decoded.now) located.direction located.fields (pairs book.now))) out.new result }
{
    let n = put_pairs(room, 0, packet);
    let d = put_pairs(more, 0, decoded);
    let b = put_pairs(book_room, 0, book);
    let answer = guard::decide(
        &book_room[0..b],
        &room[0..n],
        &more[0..d],
        located.direction,
        located.fields,
    );
    put_decision(out, at, answer)
}

// The five columns of a line; `bad` where one is of another form.
fn put_columns(
    out: &mut [u8],
    at: usize,
    origin: &[u8],
    packet: &[u8],
    fields: &[u8],
    decoded: &[u8],
    book: &[u8],
    room: &mut [u8; PAIRS],
    more: &mut [u8; PAIRS],
    book_room: &mut [u8; PAIRS],
) -> usize
    requires { (length packet.now ≤ max_line) × (length decoded.now ≤ max_line) × (length book.now ≤ max_line) }
    ensures { Puts out.old at (columns_text origin.now packet.now fields.now decoded.now book.now) out.new result }
{
    if !is_hex_pairs(book) {
        return put_word(out, at, b"bad");
    }
    let Some(located) = parse_packet(origin, packet, fields, decoded) else {
        return put_word(out, at, b"bad");
    };
    put_formed(
        out, at, packet, decoded, book, located, room, more, book_room,
    )
}

// THE ANSWER to a line, without its number and the LF. The caller lends room for the bytes of packet, decoded buffer and book.
pub fn answer_decision(
    out: &mut [u8],
    at: usize,
    line: &[u8],
    room: &mut [u8; PAIRS],
    more: &mut [u8; PAIRS],
    book_room: &mut [u8; PAIRS],
) -> usize
    ensures { Puts out.old at (decision_answer line.now) out.new result }
{
    if DECISION_BYTES < line.len() {
        return put_word(out, at, b"bad");
    }
    let r1 = part_after(line, b'\t');
    let r2 = part_after(r1, b'\t');
    let r3 = part_after(r2, b'\t');
    let r4 = part_after(r3, b'\t');
    if !contains(r3, b'\t') {
        return put_word(out, at, b"bad");
    }
    let origin = part_before(line, b'\t');
    let packet = part_before(r1, b'\t');
    let fields = part_before(r2, b'\t');
    let decoded = part_before(r3, b'\t');
    put_columns(
        out, at, origin, packet, fields, decoded, r4, room, more, book_room,
    )
}
