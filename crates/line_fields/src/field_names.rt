// A field by its name, and the map with its span.
ghost use Rattle.std.specs.Prelude.{◌≡◌};
ghost use Rattle.line_fields.specs.FieldMaps.{no_fields, field_named, with_field};

use definitions::packets::{FieldMap, Span};
use definitions::table::Context;
use line_parts::is_word;

// The field of a name; the payload, which no map gives, for a name that is none of the six.
pub fn field_named(s: &[u8]) -> Context
    ensures { result ≡ field_named s.now }
{
    if is_word(s, b"uri") {
        return Context::Uri;
    }
    if is_word(s, b"header") {
        return Context::Header;
    }
    if is_word(s, b"body") {
        return Context::Body;
    }
    if is_word(s, b"banner") {
        return Context::Banner;
    }
    if is_word(s, b"host") {
        return Context::Host;
    }
    if is_word(s, b"file") {
        return Context::File;
    }
    Context::Packet
}

// The map in which every field is absent.
pub fn no_fields() -> FieldMap
    ensures { result ≡ no_fields }
{
    FieldMap {
        uri: None,
        header: None,
        body: None,
        banner: None,
        host: None,
        file: None,
    }
}

// The map with a field's span; the payload is in no map.
pub fn with_field(m: FieldMap, c: Context, f: Option<Span>) -> FieldMap
    ensures { result ≡ with_field m c f }
{
    match c {
        Context::Packet => m,
        Context::Uri => FieldMap { uri: f, ..m },
        Context::Header => FieldMap { header: f, ..m },
        Context::Body => FieldMap { body: f, ..m },
        Context::Banner => FieldMap { banner: f, ..m },
        Context::Host => FieldMap { host: f, ..m },
        Context::File => FieldMap { file: f, ..m },
    }
}
