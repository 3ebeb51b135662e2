// The fields of a packet: whether one is there, its bytes as the caller's own part of a lent buffer, and refusal 35.
#![tactic(auto)]

pub mod places;

ghost use Rattle.std.specs.Prelude.{◌≡◌};
ghost use Rattle.definitions.specs.Fields.{present, field_of, field_span, fields_check, field_passes};
ghost use Rattle.definitions.specs.AnswerNumbers.{check_numbers, fields_in_numbers};
ghost use Rattle.field_parts.specs.Parts.{PartOf};
ghost use Rattle.fields.specs.Places.{own_buffer};

use crate::places::{part_of_one, passes_one, place_of};
use definitions::answers::Refusal;
use definitions::packets::FieldMap;
use definitions::table::Context;
use field_parts::is_at;

// Whether the field is present.
pub fn is_present(m: FieldMap, c: Context) -> bool
    ensures { result ≡ present m c }
{
    is_at(place_of(0, m, c).span)
}

// THE FIELD ENTRY: the field's bytes, at their own place in the caller's buffer. An absent field, and one past its buffer, is the empty part at
// that buffer's start. Both buffers have one lifetime, so neither can be written while the caller holds the answer.
pub fn field_of<'a>(payload: &'a [u8], decoded: &'a [u8], m: FieldMap, c: Context) -> &'a [u8]
    ensures bytes { result.now ≡ field_of payload.now decoded.now m c }
    ensures part { PartOf (own_buffer payload.entry decoded.entry c) (field_span payload.now decoded.now m c) result }
{
    let place = place_of(payload.len(), m, c);
    part_of_one(payload, decoded, place.buffer, place.span)
}

// Whether a field is present and its span passes its buffer.
fn field_passes(payload: &[u8], decoded: &[u8], m: FieldMap, c: Context) -> bool
    ensures { result ≡ field_passes payload.now decoded.now m c }
{
    let place = place_of(payload.len(), m, c);
    passes_one(payload, decoded, place.buffer, place.span)
}

// Refusal 35, if a present field's span passes its buffer.
pub fn fields_check(payload: &[u8], decoded: &[u8], m: FieldMap) -> Result<(), Refusal>
    ensures answer { result ≡ fields_check payload.now decoded.now m }
    ensures numbers { check_numbers result ≡ fields_in_numbers payload.now decoded.now m }
{
    let mapped = [
        Context::Uri,
        Context::Header,
        Context::Body,
        Context::Banner,
        Context::Host,
        Context::File,
    ];
    if mapped.iter().any(|c| field_passes(payload, decoded, m, *c)) {
        Err(Refusal::FieldSpan)
    } else {
        Ok(())
    }
}
