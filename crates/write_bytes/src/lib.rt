// Bytes put one after the other into a lent buffer. A byte past its end is counted and not kept, so one pass both measures and writes.
#![tactic(auto)]

pub mod limits;

ghost use Rattle.std.specs.Prelude.{[], ◌∷◌, ◌+◌, ◌≤◌, length, take, ◌≡◌};
ghost use Rattle.definitions.specs.Canonical.{decimal, text_if};
ghost use Rattle.write_bytes.specs.Puts.{max_counted, counted, Puts};

use crate::limits::at_most;

// So many bytes are counted: no sum wraps, whatever is put.
pub const COUNTED: usize = 4294967295;

// The place after one byte more.
fn next_place(at: usize) -> usize
    ensures { result ≡ counted at }
{
    if at < COUNTED { at + 1 } else { at }
}

// One byte.
pub fn put(out: &mut [u8], at: usize, b: u8) -> usize
    ensures { Puts out.old at (b ∷ []) out.new result }
{
    if at < out.len() {
        out[at] = b;
    }
    next_place(at)
}

// A word that has room.
fn put_whole(out: &mut [u8], at: usize, w: &[u8]) -> usize
    requires { (at + length w.now ≤ length out.old) × (at + length w.now ≤ max_counted) }
    ensures { Puts out.old at w.now out.new result }
{
    let end = at + w.len();
    out[at..end].copy_from_slice(w);
    end
}

// A word, byte by byte.
fn put_each(out: &mut [u8], at: usize, w: &[u8]) -> usize
    ensures { Puts out.old at w.now out.new result }
{
    let mut next = at;
    for b in w {
        next = put(out, next, *b);
    }
    next
}

// A word. Nearly all have room, or lie past the end as a whole, where they are counted only.
pub fn put_word(out: &mut [u8], at: usize, w: &[u8]) -> usize
    ensures { Puts out.old at w.now out.new result }
{
    let room = out.len();
    let n = w.len();
    if at <= COUNTED && n <= COUNTED - at {
        if room <= at {
            return at + n;
        }
        if n <= room - at {
            return put_whole(out, at, w);
        }
    }
    put_each(out, at, w)
}

// The first `n` bytes of a word, or all of it if it has fewer.
pub fn put_front(out: &mut [u8], at: usize, w: &[u8], n: usize) -> usize
    ensures { Puts out.old at (take n w.now) out.new result }
{
    let k = at_most(n, w.len());
    put_word(out, at, &w[..k])
}

// A word, if it is wanted.
pub fn put_if(out: &mut [u8], at: usize, wanted: bool, w: &[u8]) -> usize
    ensures { Puts out.old at (text_if wanted w.now) out.new result }
{
    if wanted {
        return put_word(out, at, w);
    }
    at
}

// A number in decimal, without leading zeros.
pub fn put_decimal(out: &mut [u8], at: usize, n: u64) -> usize
    ensures { Puts out.old at (decimal n) out.new result }
{
    let last = b'0' + (n % 10) as u8;
    if n < 10 {
        return put(out, at, last);
    }
    let next = put_decimal(out, at, n / 10);
    put(out, next, last)
}
