// The option byte_test: its parts from a cursor on, and the option's value after its name, with the place after its `;`.
#![tactic(auto)]

ghost use Rattle.std.specs.Prelude.{◌≡◌, [], ◌≤◌, ◌<◌, length};
ghost use Rattle.definitions.specs.ByteCounts.{is_byte_count, width_of};
ghost use Rattle.definitions.specs.Forms.{width, byte_comparison, flag_words, flags, byte_form};
ghost use Rattle.read_value.specs.Values.{option_value_of, Plain};
ghost use Rattle.scan_bytes.specs.Capped.{number_cap};
ghost use Rattle.scan_cursors.specs.Reads.{Inside, Reads};
ghost use Rattle.scan_cursors.specs.declared.Cursor.TheVariants.{Parsed};
ghost use Rattle.read_byte_tests.specs.Parts.{number_in, sign_of, operator_next};

use definitions::limits::{MAX_BYTE, MAX_LONG, MAX_WORD};
use definitions::table::{ByteOperator, ByteTest, Item, Width};
use read_value::Value;
use scan_cursors::{Cursor, Scanned, limited};
use scan_pieces::literals::gap_at;
use scan_steps::literals::{next_is, then_closing, then_literal, then_literal_as};
use scan_steps::numbers::{then_number, then_numeral};
use scan_steps::words::{then_comma_word, then_either_word};

// Whether `relative` and `little` stood there.
#[derive(Clone, Copy)]
pub struct Flags {
    pub relative: bool,
    pub little: bool,
}

fn is_byte_count(n: u64) -> bool
    ensures { result ≡ is_byte_count n }
{
    matches!(n, 1 | 2 | 4)
}

fn width_of(n: u64) -> Width
    ensures { result ≡ width_of n }
{
    match n {
        1 => Width::One,
        2 => Width::Two,
        _ => Width::Four,
    }
}

// A number up to a limit, in decimal, or where it may be so in hex: one function for all three of them, which keeps the option's body small.
fn then_part(s: &[u8], c: Cursor, hex: bool, limit: u64) -> Scanned<u64>
    requires { Inside s.now c × (limit < number_cap) }
    ensures { Reads (number_in hex limit) s.now c result.value result.cursor × (result.value ≤ limit) }
{
    if hex {
        then_numeral(s, c, limit)
    } else {
        then_number(s, c, limit)
    }
}

// A byte count; another number is told by its first digit, as one beyond its limit is.
fn then_width(s: &[u8], c: Cursor) -> Scanned<Width>
    requires { Inside s.now c }
    ensures { Reads width s.now c result.value result.cursor }
{
    let n = then_part(s, c, false, MAX_BYTE);
    Scanned {
        value: width_of(n.value),
        cursor: limited(c, is_byte_count(n.value), n.cursor),
    }
}

// The operator whose byte stands there; if none does, it is the last that must.
fn operator_next(s: &[u8], c: Cursor) -> ByteOperator
    ensures { result ≡ operator_next s.now c }
{
    if next_is(s, c, b'>') {
        return ByteOperator::Greater;
    }
    if next_is(s, c, b'<') {
        return ByteOperator::Less;
    }
    if next_is(s, c, b'=') {
        return ByteOperator::Equal;
    }
    ByteOperator::Unequal
}

fn sign_of(o: ByteOperator) -> u8
    ensures { result ≡ sign_of o }
{
    match o {
        ByteOperator::Greater => b'>',
        ByteOperator::Less => b'<',
        ByteOperator::Equal => b'=',
        ByteOperator::Unequal => b'!',
    }
}

// One of `>`, `<`, `=`, `!`.
fn then_byte_operator(s: &[u8], c: Cursor) -> Scanned<ByteOperator>
    requires { Inside s.now c }
    ensures { Reads byte_comparison s.now c result.value result.cursor }
{
    let operator = operator_next(s, c);
    then_literal_as(s, c, sign_of(operator), operator)
}

// `relative` with optional `,little`, or `little`.
fn then_flag_words(s: &[u8], c: Cursor) -> Scanned<Flags>
    requires { Inside s.now c }
    ensures { Reads flag_words s.now c (result.value.relative, result.value.little) result.cursor }
{
    let word = then_either_word(s, c, b"relative", b"little");
    if word.value {
        let little = then_comma_word(s, word.cursor, b"little");
        return Scanned {
            value: Flags {
                relative: true,
                little: little.value,
            },
            cursor: little.cursor,
        };
    }
    Scanned {
        value: Flags {
            relative: false,
            little: true,
        },
        cursor: word.cursor,
    }
}

// Optional `,relative`, and with or without it optional `,little`.
fn then_flags(s: &[u8], c: Cursor) -> Scanned<Flags>
    requires { Inside s.now c }
    ensures { Reads flags s.now c (result.value.relative, result.value.little) result.cursor }
{
    if next_is(s, c, b',') {
        let comma = then_literal(s, c, b',');
        return then_flag_words(s, comma);
    }
    Scanned {
        value: Flags {
            relative: false,
            little: false,
        },
        cursor: c,
    }
}

// The option byte_test.
pub fn byte_option(s: &[u8], at: usize) -> Scanned<Value>
    requires { at ≤ length s.now }
    ensures { Reads byte_form s.now (Parsed at) (option_value_of s.now result.value [] []) result.cursor × Plain result.value }
{
    let c = gap_at(s, at);
    let w = then_width(s, c);
    let c = then_literal(s, w.cursor, b',');
    let o = then_byte_operator(s, c);
    let c = then_literal(s, o.cursor, b',');
    let v = then_part(s, c, true, MAX_LONG);
    let c = then_literal(s, v.cursor, b',');
    let n = then_part(s, c, false, MAX_WORD);
    let f = then_flags(s, n.cursor);
    Scanned {
        value: Value::Test(Item::Byte(ByteTest {
            width: w.value,
            operator: o.value,
            value: v.value as u32,
            offset: n.value as u16,
            relative: f.value.relative,
            little: f.value.little,
        })),
        cursor: then_closing(s, f.cursor),
    }
}
