// Canonical text of a pattern and its modifiers.
#![tactic(auto)]

ghost use Rattle.std.specs.Prelude.{◌≡◌, nat_abs};
ghost use Rattle.definitions.specs.OptionValues as entry;
ghost use Rattle.definitions.specs.Canonical.{decimalℤ, distance_option, within_option, pattern_options, modifier_text, option_text, options_text};
ghost use Rattle.write_bytes.specs.Puts.{Puts};

use definitions::table::{DistanceValue, Pattern, WithinValue};
use write_bytes::limits::at_most;
use write_bytes::{put, put_decimal, put_if, put_word};
use write_keywords::{context_keyword, put_keyword, reference_keyword};
use write_pattern_bytes::put_bytes;

// How far a number is from 0.
fn magnitude(z: i32) -> u64
    ensures { result ≡ nat_abs z }
{
    z.unsigned_abs() as u64
}

// A signed number: its sign, if it is negative, and its digits.
fn put_signed(out: &mut [u8], at: usize, z: i32) -> usize
    ensures { Puts out.old at (decimalℤ z) out.new result }
{
    let a1 = put_if(out, at, z < 0, b"-");
    put_decimal(out, a1, magnitude(z))
}

// The option distance.
fn put_distance_value(out: &mut [u8], at: usize, d: DistanceValue) -> usize
    ensures { Puts out.old at (modifier_text (entry.Distance d)) out.new result }
{
    let a1 = put_word(out, at, b" --distance ");
    let a2 = put_signed(out, a1, d.offset);
    let a3 = put_keyword(out, a2, reference_keyword(d.reference));
    let a4 = put_if(out, a3, d.reverse, b",reverse");
    put(out, a4, b';')
}

// The option within.
fn put_within_value(out: &mut [u8], at: usize, w: WithinValue) -> usize
    ensures { Puts out.old at (modifier_text (entry.Within w)) out.new result }
{
    let a1 = put_word(out, at, b" --within ");
    let a2 = put_decimal(out, a1, w.number as u64);
    let a3 = put_keyword(out, a2, reference_keyword(w.reference));
    put(out, a3, b';')
}

// The option distance, if given.
fn put_distance(out: &mut [u8], at: usize, d: Option<DistanceValue>) -> usize
    ensures { Puts out.old at (options_text (distance_option d)) out.new result }
{
    match d {
        None => at,
        Some(shift) => put_distance_value(out, at, shift),
    }
}

// The option within, if given.
fn put_within(out: &mut [u8], at: usize, w: Option<WithinValue>) -> usize
    ensures { Puts out.old at (options_text (within_option w)) out.new result }
{
    match w {
        None => at,
        Some(reach) => put_within_value(out, at, reach),
    }
}

// The option pattern, negated or not, its bytes between quotes.
fn put_quoted(out: &mut [u8], at: usize, negated: bool, b: &[u8]) -> usize
    ensures { Puts out.old at (option_text (entry.Pattern negated b.now)) out.new result }
{
    let a1 = put_word(out, at, b" --pattern ");
    let a2 = put_if(out, a1, negated, b"!");
    let a3 = put(out, a2, b'"');
    let a4 = put_bytes(out, a3, b);
    let a5 = put(out, a4, b'"');
    put(out, a5, b';')
}

// A pattern, whose bytes stand at the front of `b`, and after it context, no_case, distance and within.
pub fn put_pattern(out: &mut [u8], at: usize, p: Pattern, b: &[u8]) -> usize
    ensures { Puts out.old at (options_text (pattern_options p b.now)) out.new result }
{
    let n = at_most(p.len, b.len());
    let a1 = put_quoted(out, at, p.negated, &b[..n]);
    let a2 = put_keyword(out, a1, context_keyword(p.context));
    let a3 = put_if(out, a2, p.nocase, b" --no_case;");
    let a4 = put_distance(out, a3, p.distance);
    put_within(out, a4, p.within)
}
