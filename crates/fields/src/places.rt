// Which buffer a field lies in, and where: the one place that knows it; and what a span shows of the buffer named.
ghost use Rattle.std.specs.Prelude.{◌≡◌, List, ℕ, length};
ghost use Rattle.definitions.specs.Fields.{passes, shown};
ghost use Rattle.field_parts.specs.Parts.{PartOf};
ghost use Rattle.fields.specs.Places.{chosen, field_place};

use definitions::packets::{FieldMap, Span};
use definitions::table::Context;
use field_parts::{part_of, passes_end};

// The buffers that a caller lends.
#[derive(Clone, Copy)]
pub enum Buffer {
    Payload,
    Decoded,
}

// A field's buffer, and its span there.
#[derive(Clone, Copy)]
pub struct Place {
    pub buffer: Buffer,
    pub span: Option<Span>,
}

// The place of a context's field beside a payload of so many bytes.
pub fn place_of(len: usize, m: FieldMap, c: Context) -> Place
    ensures { (payload : List ℕ) → length payload ≡ len → result ≡ field_place payload m c }
{
    let (buffer, span) = match c {
        Context::Packet => (Buffer::Payload, Some(Span { start: 0, len })),
        Context::Uri => (Buffer::Decoded, m.uri),
        Context::Header => (Buffer::Decoded, m.header),
        Context::Body => (Buffer::Payload, m.body),
        Context::Banner => (Buffer::Payload, m.banner),
        Context::Host => (Buffer::Decoded, m.host),
        Context::File => (Buffer::Payload, m.file),
    };
    Place { buffer, span }
}

// The part of the payload or of the decoded buffer that a field's span shows.
pub fn part_of_one<'a>(payload: &'a [u8], decoded: &'a [u8], b: Buffer, f: Option<Span>) -> &'a [u8]
    ensures { PartOf (chosen payload.entry decoded.entry b) (shown f (chosen payload.entry decoded.entry b).now) result }
{
    match b {
        Buffer::Payload => part_of(payload, f),
        Buffer::Decoded => part_of(decoded, f),
    }
}

// Whether a span passes the payload or the decoded buffer.
pub fn passes_one(payload: &[u8], decoded: &[u8], b: Buffer, f: Option<Span>) -> bool
    ensures { result ≡ passes f (chosen payload.now decoded.now b) }
{
    match b {
        Buffer::Payload => passes_end(payload, f),
        Buffer::Decoded => passes_end(decoded, f),
    }
}
