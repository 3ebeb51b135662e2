// A pattern that lies at no place of a field.
ghost use Rattle.std.specs.Prelude.{◌≡◌, length};
ghost use Rattle.definitions.specs.Lists.{none?};
ghost use Rattle.match_windows.specs.Spans.{Measured, places_of};

use crate::starts::next_start;
use definitions::packets::Match;
use definitions::table::Pattern;
use match_windows::starts::window;

// The pattern with the bytes `b` lies nowhere in its window.
pub fn lies_nowhere(p: Pattern, b: &[u8], last: Option<Match>, f: &[u8]) -> bool
    requires { Measured p last (length f.now) × (length b.now ≡ p.len) }
    ensures { result ≡ none? (places_of p b.now last f.now) }
{
    let w = window(p, last, f.len());
    w.to <= next_start(p.nocase, b, f, w.from, w.to)
}
