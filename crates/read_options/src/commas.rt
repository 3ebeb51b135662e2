// What may follow the number of a range, after a comma.
ghost use Rattle.scan_cursors.specs.Reads.{Inside, Reads};
ghost use Rattle.read_options.specs.Parts.{reference, directed};

use definitions::table::Reference;
use read_words::then_reference;
use scan_cursors::{Cursor, Scanned};
use scan_steps::literals::{next_is, then_literal};
use scan_steps::words::then_comma_word;

// A reference, and whether `reverse` follows it.
#[derive(Clone, Copy)]
pub struct Directed {
    pub reference: Reference,
    pub reverse: bool,
}

// Optional `,` and a reference.
pub fn then_comma_reference(s: &[u8], c: Cursor) -> Scanned<Reference>
    requires { Inside s.now c }
    ensures { Reads reference s.now c result.value result.cursor }
{
    if next_is(s, c, b',') {
        let comma = then_literal(s, c, b',');
        return then_reference(s, comma);
    }
    Scanned {
        value: Reference::Match,
        cursor: c,
    }
}

// Optional `,` and a reference, only then optional `,reverse`.
pub fn then_directed(s: &[u8], c: Cursor) -> Scanned<Directed>
    requires { Inside s.now c }
    ensures { Reads directed s.now c (result.value.reference, result.value.reverse) result.cursor }
{
    if next_is(s, c, b',') {
        let comma = then_literal(s, c, b',');
        let r = then_reference(s, comma);
        let m = then_comma_word(s, r.cursor, b"reverse");
        return Scanned {
            value: Directed {
                reference: r.value,
                reverse: m.value,
            },
            cursor: m.cursor,
        };
    }
    Scanned {
        value: Directed {
            reference: Reference::Match,
            reverse: false,
        },
        cursor: c,
    }
}
