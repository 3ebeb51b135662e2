// The parts of a line between delimiters, and whole words.
#![tactic(auto)]

ghost use Rattle.std.specs.Prelude.{◌≡◌};
ghost use Rattle.definitions.specs.Lists.{same_bytes};
ghost use Rattle.definitions.specs.Parts as parts;

use scan_find::find_from;
use scan_same::same_bytes;

// How many bytes stand before the first delimiter.
fn find(s: &[u8], d: u8) -> usize
    ensures { result ≡ parts.find d s.now }
{
    find_from(s, 0, d)
}

// Whether the delimiter stands there.
pub fn contains(s: &[u8], d: u8) -> bool
    ensures { result ≡ parts.contains d s.now }
{
    find(s, d) < s.len()
}

// The bytes before the first delimiter, or all.
pub fn part_before<'a>(s: &'a [u8], d: u8) -> &'a [u8]
    ensures { result.now ≡ parts.part_before d s.now }
{
    let end = find(s, d);
    &s[..end]
}

// The bytes after the first delimiter, or none.
pub fn part_after<'a>(s: &'a [u8], d: u8) -> &'a [u8]
    ensures { result.now ≡ parts.part_after d s.now }
{
    let end = find(s, d);
    if end < s.len() {
        return &s[end + 1..];
    }
    &s[end..]
}

// Whether the bytes are the word.
pub fn is_word(s: &[u8], w: &[u8]) -> bool
    ensures { result ≡ same_bytes s.now w.now }
{
    same_bytes(s, w)
}
