// What may follow the number of data_size, after a comma.
ghost use Rattle.scan_cursors.specs.Reads.{Inside, Reads};
ghost use Rattle.read_tests.specs.Parts.{size_field};

use definitions::table::SizeField;
use read_words::then_size_word;
use scan_cursors::{Cursor, Scanned};
use scan_steps::literals::{next_is, then_literal};

// Optional `,` and the field of data_size.
pub fn then_size_field(s: &[u8], c: Cursor) -> Scanned<SizeField>
    requires { Inside s.now c }
    ensures { Reads size_field s.now c result.value result.cursor }
{
    if next_is(s, c, b',') {
        let comma = then_literal(s, c, b',');
        return then_size_word(s, comma);
    }
    Scanned {
        value: SizeField::Payload,
        cursor: c,
    }
}
