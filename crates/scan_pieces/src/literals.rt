// Single bytes and spaces.
ghost use Rattle.std.specs.Prelude.{◌≡◌, ◌∷◌, [], true, false, ◌≤◌, length, drop};
ghost use Rattle.forms.specs.Scan.{begins};
ghost use Rattle.forms.specs.Pieces.{preceded, opt, literal, literal_as};
ghost use Rattle.definitions.specs.Forms.{spaces, gap};
ghost use Rattle.scan_bytes.specs.Classes.{case_class};
ghost use Rattle.scan_cursors.specs.Reads.{Reads, Skips};
ghost use Rattle.scan_cursors.specs.declared.Cursor.TheVariants.{Parsed};

use crate::runs::run_at;
use scan_bytes::bytes::{Class, in_case};
use scan_bytes::runs::run_of;
use scan_cursors::{Cursor, Scanned};

// Whether the byte stands at the place.
pub fn stands(s: &[u8], at: usize, b: u8) -> bool
    ensures { result ≡ begins ((b, b) ∷ []) (drop at s.now) }
{
    at < s.len() && s[at] == b
}

// Whether the byte of a word stands at the place, in either letter case.
pub fn starts(s: &[u8], at: usize, y: u8) -> bool
    ensures { result ≡ begins (case_class y) (drop at s.now) }
{
    at < s.len() && in_case(y, s[at])
}

// The byte, which must stand at the place.
pub fn literal_at(s: &[u8], at: usize, b: u8) -> Cursor
    requires { at ≤ length s.now }
    ensures { Reads (literal b) s.now (Parsed at) b result }
{
    if stands(s, at, b) {
        Cursor::Parsed(at + 1)
    } else {
        Cursor::Failed(at)
    }
}

// One or more spaces.
pub fn gap_at(s: &[u8], at: usize) -> Cursor
    requires { at ≤ length s.now }
    ensures { Skips gap s.now (Parsed at) result }
{
    run_at(s, at, Class::Space).cursor
}

// Whether the byte stands at the place, and the place after it.
pub fn optional_literal_at(s: &[u8], at: usize, b: u8) -> Scanned<bool>
    requires { at ≤ length s.now }
    ensures { Reads (opt false (literal_as b true)) s.now (Parsed at) result.value result.cursor }
{
    if stands(s, at, b) {
        Scanned {
            value: true,
            cursor: Cursor::Parsed(at + 1),
        }
    } else {
        Scanned {
            value: false,
            cursor: Cursor::Parsed(at),
        }
    }
}

// The place after any spaces.
pub fn spaces_at(s: &[u8], at: usize) -> usize
    requires { at ≤ length s.now }
    ensures { Skips spaces s.now (Parsed at) (Parsed result) }
{
    run_of(s, at, Class::Space)
}

// Any spaces and `;`: the end of an option.
pub fn closing_at(s: &[u8], at: usize) -> Cursor
    requires { at ≤ length s.now }
    ensures { Skips (preceded spaces (literal 59)) s.now (Parsed at) result }
{
    let from = spaces_at(s, at);
    literal_at(s, from, b';')
}
