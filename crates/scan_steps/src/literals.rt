// Single bytes and spaces from a cursor on.
ghost use Rattle.std.specs.Prelude.{◌≡◌, ◌∷◌, [], true, false};
ghost use Rattle.forms.specs.Pieces.{preceded, opt, literal, literal_as};
ghost use Rattle.definitions.specs.Forms.{spaces};
ghost use Rattle.scan_bytes.specs.Classes.{case_class};
ghost use Rattle.scan_cursors.specs.Reads.{Inside, next_in, Reads, Skips};

use scan_cursors::{Cursor, Scanned};
use scan_pieces::literals::{
    closing_at, literal_at, optional_literal_at, spaces_at, stands, starts,
};

// Whether scanning goes on, with the byte.
pub fn next_is(s: &[u8], c: Cursor, b: u8) -> bool
    ensures { result ≡ next_in ((b, b) ∷ []) s.now c }
{
    match c {
        Cursor::Parsed(at) | Cursor::OutOfRange(_, at) => stands(s, at, b),
        Cursor::Failed(_) => false,
    }
}

// Whether scanning goes on, with the byte of a word in either letter case.
pub fn next_is_letter(s: &[u8], c: Cursor, y: u8) -> bool
    ensures { result ≡ next_in (case_class y) s.now c }
{
    match c {
        Cursor::Parsed(at) | Cursor::OutOfRange(_, at) => starts(s, at, y),
        Cursor::Failed(_) => false,
    }
}

// The byte, which must stand there.
pub fn then_literal(s: &[u8], c: Cursor, b: u8) -> Cursor
    requires { Inside s.now c }
    ensures { Reads (literal b) s.now c b result }
{
    c.join(literal_at(s, c.place(), b))
}

// The byte, which must stand there, and what it stands for.
pub fn then_literal_as<T: Copy>(s: &[u8], c: Cursor, b: u8, value: T) -> Scanned<T>
    requires { Inside s.now c }
    ensures { Reads (literal_as b value) s.now c result.value result.cursor }
{
    Scanned {
        value,
        cursor: then_literal(s, c, b),
    }
}

// Whether the byte stands there, and the cursor after it.
pub fn then_optional_literal(s: &[u8], c: Cursor, b: u8) -> Scanned<bool>
    requires { Inside s.now c }
    ensures { Reads (opt false (literal_as b true)) s.now c result.value result.cursor }
{
    optional_literal_at(s, c.place(), b).after(c)
}

// Any spaces.
pub fn then_spaces(s: &[u8], c: Cursor) -> Cursor
    requires { Inside s.now c }
    ensures { Skips spaces s.now c result }
{
    c.join(Cursor::Parsed(spaces_at(s, c.place())))
}

// Any spaces and `;`: the end of an option.
pub fn then_closing(s: &[u8], c: Cursor) -> Cursor
    requires { Inside s.now c }
    ensures { Skips (preceded spaces (literal 59)) s.now c result }
{
    c.join(closing_at(s, c.place()))
}
