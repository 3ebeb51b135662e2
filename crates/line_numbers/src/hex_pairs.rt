// Bytes as pairs of hex digits of either case, `-` if there are none. Most of a line can be such pairs, so the loops over them have no branch in a turn: the
// compiler then takes many bytes at once.
ghost use Rattle.std.specs.Prelude.{◌≡◌, true, ◌+◌, ◌*◌, ◌/◌, ◌%◌, ◌≤◌, ◌<◌, length, get_or};
ghost use Rattle.forms.specs.Form.{has};
ghost use Rattle.definitions.specs.Cases.{pairs};
ghost use Rattle.definitions.specs.Lists.{all?};
ghost use Rattle.definitions.specs.Numbers.{hex_digits, digit_value};
ghost use Rattle.write_bytes.specs.Puts.{max_counted, Puts};
ghost use Rattle.line_numbers.specs.HexPairs.{is_hex};

use line_parts::is_word;
use scan_bytes::bytes::is_between;
use write_bytes::{COUNTED, put};

// Whether a byte is a hex digit.
fn is_hex_digit(b: u8) -> bool
    ensures { result ≡ has hex_digits b }
{
    is_between(b'0', b'9', b) | is_between(b'A', b'F', b) | is_between(b'a', b'f', b)
}

// Whether all bytes are hex digits. There is no early way out, so many are looked at at once.
fn all_hex(s: &[u8]) -> bool
    ensures { result ≡ all? (has hex_digits) s.now }
{
    s.iter().fold(true, |good, b| good & is_hex_digit(*b))
}

// Whether the bytes are pairs of hex digits, or `-`.
pub fn is_hex_pairs(s: &[u8]) -> bool
    ensures { result ≡ is_hex s.now }
{
    is_word(s, b"-") || !s.is_empty() && all_hex(s) && s.len() % 2 == 0
}

// Two bytes as one number, the first as its low half: the compiler then reads both at once.
fn two_at(s: &[u8], i: usize) -> u16
    requires { i + 1 < length s.now }
    ensures { result ≡ get_or s.now i 0 + get_or s.now (i + 1) 0 * 256 }
{
    (s[i] as u16) + (s[i + 1] as u16) * 256
}

// The byte that two hex digits write: a digit is the last four bits, and nine more for a letter, in both halves of the number at once.
fn pair_byte(two: u16) -> u8
    requires { (has hex_digits (two % 256) ≡ true) × (has hex_digits (two / 256) ≡ true) }
    ensures { result ≡ digit_value (two % 256) * 16 + digit_value (two / 256) }
{
    let last = two % 16 + two / 256 % 16 * 256;
    let letters = two / 64 % 4 + two / 16384 * 256;
    let digits = last + letters * 9;
    (digits % 256 * 16 + digits / 256) as u8
}

// Pairs that have room: no place is looked at before it is written.
fn put_whole(out: &mut [u8], at: usize, s: &[u8]) -> usize
    requires s_value { is_hex s.now ≡ true }
    requires s_in_bounds { (at + length s.now / 2 ≤ length out.old) × (at + length s.now / 2 ≤ max_counted) }
    ensures { Puts out.old at (pairs s.now) out.new result }
{
    let n = s.len() / 2;
    for j in 0..n {
        out[at + j] = pair_byte(two_at(s, 2 * j));
    }
    at + n
}

// Pairs, byte by byte.
fn put_each(out: &mut [u8], at: usize, s: &[u8]) -> usize
    requires { is_hex s.now ≡ true }
    ensures { Puts out.old at (pairs s.now) out.new result }
{
    let mut next = at;
    for j in 0..s.len() / 2 {
        next = put(out, next, pair_byte(two_at(s, 2 * j)));
    }
    next
}

// Puts the bytes that the pairs write. Nearly always they have room.
pub fn put_pairs(out: &mut [u8], at: usize, s: &[u8]) -> usize
    requires { is_hex s.now ≡ true }
    ensures { Puts out.old at (pairs s.now) out.new result }
{
    let n = s.len() / 2;
    if at <= COUNTED && n <= COUNTED - at && at + n <= out.len() {
        return put_whole(out, at, s);
    }
    put_each(out, at, s)
}
