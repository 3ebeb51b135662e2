// The 30 bytes of a record before its packet: where that comes from, which fields are present, the lengths, and each field's span.
ghost use Rattle.std.specs.Prelude.{◌≡◌};
ghost use Rattle.write_bytes.specs.Puts.{Puts};
ghost use Rattle.replay_records.specs.RecordBytes.{number_bytes, direction_byte, field_bit, field_bits, span_bytes, fields_bytes, head_bytes};

use definitions::packets::{Direction, FieldMap, Span};
use write_bytes::{put, put_word};

// Two bytes, big end first.
fn put_number(out: &mut [u8], at: usize, n: usize) -> usize
    ensures { Puts out.old at (number_bytes n) out.new result }
{
    let next = put(out, at, (n / 256 % 256) as u8);
    put(out, next, (n % 256) as u8)
}

fn direction_byte(d: Direction) -> u8
    ensures { result ≡ direction_byte d }
{
    match d {
        Direction::Client => 0,
        Direction::Server => 1,
    }
}

// The weight of a field's bit, if it is present.
fn field_bit(f: Option<Span>, weight: u8) -> u8
    ensures { result ≡ field_bit f weight }
{
    match f {
        None => 0,
        Some(_) => weight,
    }
}

fn field_bits(m: FieldMap) -> u8
    ensures { result ≡ field_bits m }
{
    field_bit(m.body, 1)
        + field_bit(m.banner, 2)
        + field_bit(m.file, 4)
        + field_bit(m.uri, 8)
        + field_bit(m.header, 16)
        + field_bit(m.host, 32)
}

// Start and length; zeros where the field is absent.
fn put_span(out: &mut [u8], at: usize, f: Option<Span>) -> usize
    ensures { Puts out.old at (span_bytes f) out.new result }
{
    match f {
        None => put_word(out, at, &[0, 0, 0, 0]),
        Some(s) => {
            let next = put_number(out, at, s.start);
            put_number(out, next, s.len)
        }
    }
}

fn put_fields(out: &mut [u8], at: usize, m: FieldMap) -> usize
    ensures { Puts out.old at (fields_bytes m) out.new result }
{
    let a1 = put_span(out, at, m.body);
    let a2 = put_span(out, a1, m.banner);
    let a3 = put_span(out, a2, m.file);
    let a4 = put_span(out, a3, m.uri);
    let a5 = put_span(out, a4, m.header);
    put_span(out, a5, m.host)
}

// The bytes before the packet, by its length and the decoded buffer's.
pub fn put_head(
    out: &mut [u8],
    at: usize,
    d: Direction,
    m: FieldMap,
    packet: usize,
    decoded: usize,
) -> usize
    ensures { Puts out.old at (head_bytes d m packet decoded) out.new result }
{
    let a1 = put(out, at, direction_byte(d));
    let a2 = put(out, a1, field_bits(m));
    let a3 = put_number(out, a2, packet);
    let a4 = put_number(out, a3, decoded);
    put_fields(out, a4, m)
}
