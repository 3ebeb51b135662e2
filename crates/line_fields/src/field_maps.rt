// The map of fields: fields such as `uri:0+12` parted by commas, `-` if there is none.
ghost use Rattle.std.specs.Prelude.{◌≡◌};
ghost use Rattle.definitions.specs.Parts.{parts};
ghost use Rattle.line_fields.specs.FieldMaps.{no_fields, parsed_span, parsed_field, parsed_fields, parsed_map};

use crate::field_names::{field_named, no_fields, with_field};
use definitions::packets::{FieldMap, Span};
use fields::is_present;
use line_numbers::decimals::parse_decimal;
use line_parts::{is_word, part_after, part_before};

// The largest start, and length.
const MAX_SPAN: u64 = 65535;

// The span of a start, `+` and a length: without the `+` there are no digits of a length. None for other bytes, here and below.
fn parse_span(s: &[u8]) -> Option<Span>
    ensures { result ≡ parsed_span s.now }
{
    let start = parse_decimal(part_before(s, b'+'), MAX_SPAN)?;
    let len = parse_decimal(part_after(s, b'+'), MAX_SPAN)?;
    Some(Span {
        start: start as usize,
        len: len as usize,
    })
}

// The map with one field more, of a name, `:` and a span: none that it has already, and not the payload, which is always present.
fn insert_field(m: FieldMap, e: &[u8]) -> Option<FieldMap>
    ensures { result ≡ parsed_field m e.now }
{
    let field = field_named(part_before(e, b':'));
    if is_present(m, field) {
        return None;
    }
    let span = parse_span(part_after(e, b':'))?;
    Some(with_field(m, field, Some(span)))
}

// The fields between the commas, one after the other. By place: `part_before` passes 32 bytes at a time, where `split` tests each.
fn parse_fields(s: &[u8]) -> Option<FieldMap>
    ensures { result ≡ parsed_fields no_fields (parts 44 s.now) }
{
    let mut m = no_fields();
    let mut at = 0;
    while at <= s.len() {
        let e = part_before(&s[at..], b',');
        m = insert_field(m, e)?;
        at += e.len() + 1;
    }
    Some(m)
}

// The map of its fields.
pub fn parse_map(s: &[u8]) -> Option<FieldMap>
    ensures { result ≡ parsed_map s.now }
{
    if is_word(s, b"-") {
        return Some(no_fields());
    }
    parse_fields(s)
}
