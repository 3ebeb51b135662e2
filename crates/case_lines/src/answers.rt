// The answer to a line of cases, put into a lent buffer.
ghost use Rattle.std.specs.Prelude.{◌≡◌, true, ◌≤◌, length};
ghost use Rattle.definitions.specs.Cases.{pairs};
ghost use Rattle.definitions.specs.Limits.{document_limits};
ghost use Rattle.definitions.specs.Reading.{read as readText};
ghost use Rattle.write_bytes.specs.Puts.{Puts};
ghost use Rattle.line_numbers.specs.HexPairs.{is_hex};
ghost use Rattle.case_lines.specs.CaseLines.{max_line};
ghost use Rattle.case_lines.specs.CaseAnswers.{query_text, unread_text, reading_text, case_answer};
ghost use Rattle.case_lines.specs.Columns.{columns_text};

use case_columns::{Query, parse_query};
use case_lists::answers::put_answer;
use case_lists::lists::put_list;
use definitions::answers::Refusal;
use definitions::table::Table;
use line_numbers::hex_pairs::put_pairs;
use line_packets::packets::{PacketColumns, parse_packet};
use line_parts::{contains, part_after, part_before};
use refusal_numbers::number_of;
use write_bytes::{put, put_decimal, put_word};

// Bytes of a case: of its line, before the LF.
pub const CASE_BYTES: usize = 16384;

// Bytes that the pairs of a column write at most.
pub const PAIRS: usize = CASE_BYTES / 2;

// The answer to a query.
fn put_query<'a>(
    out: &mut [u8],
    at: usize,
    t: Table,
    p: &'a [u8],
    decoded: &'a [u8],
    located: PacketColumns,
    query: Query,
) -> usize
    ensures { Puts out.old at (query_text p.now decoded.now located.direction located.fields t query) out.new result }
{
    let PacketColumns { direction, fields } = located;
    match query {
        Query::All => put_list(out, at, t, p, decoded, direction, fields),
        Query::First => put_answer(out, at, matcher::first(t, p, decoded, direction, fields)),
        Query::Next(placement) => put_answer(
            out,
            at,
            matcher::next(t, p, decoded, direction, fields, placement),
        ),
    }
}

// A text's refusal with its place.
fn put_unread(out: &mut [u8], at: usize, r: Refusal, place: usize) -> usize
    ensures { Puts out.old at (unread_text r place) out.new result }
{
    let a1 = put_word(out, at, b"text ");
    let a2 = put_decimal(out, a1, number_of(r));
    let a3 = put(out, a2, b' ');
    put_decimal(out, a3, place as u64)
}

// A case whose columns are of their form; the pairs of packet and decoded buffer are written into room that the caller lends.
fn put_formed(
    out: &mut [u8],
    at: usize,
    packet: &[u8],
    decoded: &[u8],
    located: PacketColumns,
    query: Query,
    text: &[u8],
    room: &mut [u8; PAIRS],
    more: &mut [u8; PAIRS],
) -> usize
    requires { (is_hex packet.now ≡ true) × (is_hex decoded.now ≡ true) × (length packet.now ≤ max_line) × (length decoded.now ≤ max_line) }
    ensures { Puts out.old at (reading_text (pairs packet.now) (pairs decoded.now) located.direction located.fields (readText document_limits text.now) query) out.new result }
{
    let reading = reader::read(text);
    match reading.outcome {
        Ok(()) => {
            let n = put_pairs(room, 0, packet);
            let d = put_pairs(more, 0, decoded);
            put_query(
                out,
                at,
                reading.table,
                &room[0..n],
                &more[0..d],
                located,
                query,
            )
        }
        Err(e) => put_unread(out, at, e.refusal, e.place),
    }
}

// The six columns of a line; `bad` where one is of another form.
fn put_columns(
    out: &mut [u8],
    at: usize,
    origin: &[u8],
    packet: &[u8],
    fields: &[u8],
    decoded: &[u8],
    query: &[u8],
    text: &[u8],
    room: &mut [u8; PAIRS],
    more: &mut [u8; PAIRS],
) -> usize
    requires { (length packet.now ≤ max_line) × (length decoded.now ≤ max_line) }
    ensures { Puts out.old at (columns_text origin.now packet.now fields.now decoded.now query.now text.now) out.new result }
{
    let Some(query) = parse_query(query) else {
        return put_word(out, at, b"bad");
    };
    let Some(located) = parse_packet(origin, packet, fields, decoded) else {
        return put_word(out, at, b"bad");
    };
    put_formed(out, at, packet, decoded, located, query, text, room, more)
}

// THE ANSWER to a line, without its number and the LF. The caller lends room for the bytes of packet and decoded buffer.
pub fn answer_case(
    out: &mut [u8],
    at: usize,
    line: &[u8],
    room: &mut [u8; PAIRS],
    more: &mut [u8; PAIRS],
) -> usize
    ensures { Puts out.old at (case_answer line.now) out.new result }
{
    if CASE_BYTES < line.len() {
        return put_word(out, at, b"bad");
    }
    let r1 = part_after(line, b'\t');
    let r2 = part_after(r1, b'\t');
    let r3 = part_after(r2, b'\t');
    let r4 = part_after(r3, b'\t');
    let r5 = part_after(r4, b'\t');
    if !contains(r4, b'\t') {
        return put_word(out, at, b"bad");
    }
    let origin = part_before(line, b'\t');
    let packet = part_before(r1, b'\t');
    let fields = part_before(r2, b'\t');
    let decoded = part_before(r3, b'\t');
    let query = part_before(r4, b'\t');
    put_columns(
        out, at, origin, packet, fields, decoded, query, r5, room, more,
    )
}
