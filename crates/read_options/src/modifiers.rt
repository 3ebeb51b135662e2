// context, no_case, distance and within.
ghost use Rattle.std.specs.Prelude.{◌≡◌, [], ◌≤◌, length};
ghost use Rattle.definitions.specs.Limits.{max_word};
ghost use Rattle.definitions.specs.Forms.{context_form, no_case_form, signed, distance_form, within_form};
ghost use Rattle.read_value.specs.Values.{option_value_of, Plain};
ghost use Rattle.scan_cursors.specs.Reads.{Reads};
ghost use Rattle.scan_cursors.specs.declared.Cursor.TheVariants.{Parsed};

use crate::commas::{then_comma_reference, then_directed};
use definitions::limits::MAX_WORD;
use definitions::table::{DistanceValue, WithinValue};
use read_value::Value;
use read_words::then_context;
use scan_cursors::Scanned;
use scan_pieces::literals::{closing_at, gap_at};
use scan_steps::literals::{then_closing, then_optional_literal};
use scan_steps::numbers::then_number;

// The option context.
pub fn context_option(s: &[u8], at: usize) -> Scanned<Value>
    requires { at ≤ length s.now }
    ensures { Reads context_form s.now (Parsed at) (option_value_of s.now result.value [] []) result.cursor × Plain result.value }
{
    let c = gap_at(s, at);
    let w = then_context(s, c);
    Scanned {
        value: Value::Context(w.value),
        cursor: then_closing(s, w.cursor),
    }
}

// The option no_case.
pub fn no_case_option(s: &[u8], at: usize) -> Scanned<Value>
    requires { at ≤ length s.now }
    ensures { Reads no_case_form s.now (Parsed at) (option_value_of s.now result.value [] []) result.cursor × Plain result.value }
{
    Scanned {
        value: Value::NoCase,
        cursor: closing_at(s, at),
    }
}

// `-` and a number of at most 16 bits.
fn signed_of(minus: bool, n: u64) -> i32
    requires { n ≤ max_word }
    ensures { result ≡ signed minus n }
{
    let v = n as i32;
    if minus { -v } else { v }
}

// The option distance.
pub fn distance_option(s: &[u8], at: usize) -> Scanned<Value>
    requires { at ≤ length s.now }
    ensures { Reads distance_form s.now (Parsed at) (option_value_of s.now result.value [] []) result.cursor × Plain result.value }
{
    let c = gap_at(s, at);
    let minus = then_optional_literal(s, c, b'-');
    let n = then_number(s, minus.cursor, MAX_WORD);
    let r = then_directed(s, n.cursor);
    Scanned {
        value: Value::Distance(DistanceValue {
            offset: signed_of(minus.value, n.value),
            reference: r.value.reference,
            reverse: r.value.reverse,
        }),
        cursor: then_closing(s, r.cursor),
    }
}

// The option within.
pub fn within_option(s: &[u8], at: usize) -> Scanned<Value>
    requires { at ≤ length s.now }
    ensures { Reads within_form s.now (Parsed at) (option_value_of s.now result.value [] []) result.cursor × Plain result.value }
{
    let c = gap_at(s, at);
    let n = then_number(s, c, MAX_WORD);
    let r = then_comma_reference(s, n.cursor);
    Scanned {
        value: Value::Within(WithinValue {
            number: n.value as u16,
            reference: r.value,
        }),
        cursor: then_closing(s, r.cursor),
    }
}
