// The window of a pattern. Its start is a signed number, which may be negative; it is compared with lengths before it becomes a place.
ghost use Rattle.std.specs.Prelude.{◌≡◌, ◌+◌, ◌-◌, ◌<◌, min};
ghost use Rattle.std.specs.Int.Signed.{mag};
ghost use Rattle.definitions.specs.Windows as windows;
ghost use Rattle.match_windows.specs.Spans.{size_bound, start_bound, Measured, Spans};
ghost use Rattle.match_windows.specs.Ends.{clip, Begins, ends_to};

use crate::Window;
use definitions::packets::Match;
use definitions::table::{DistanceValue, Pattern, Reference, WithinValue};

fn last_end(last: Option<Match>) -> usize
    ensures { result ≡ windows.last_end last }
{
    last.map_or(0, |m| m.end)
}

// What a range is counted from.
fn base(last: Option<Match>, reference: Reference) -> usize
    ensures { result ≡ windows.base last reference }
{
    match reference {
        Reference::Match => last_end(last),
        Reference::Packet | Reference::Context => 0,
    }
}

fn shifted(last: Option<Match>, len: usize, d: DistanceValue) -> i64
    requires { (windows.last_end last < size_bound) × (len < size_bound) }
    ensures { Begins (windows.shifted last len d) result }
{
    if d.reverse {
        len as i64 - i64::from(d.offset)
    } else {
        base(last, d.reference) as i64 + i64::from(d.offset)
    }
}

fn window_start(
    last: Option<Match>,
    len: usize,
    distance: Option<DistanceValue>,
    within: Option<WithinValue>,
) -> i64
    requires { (windows.last_end last < size_bound) × (len < size_bound) }
    ensures { Begins (windows.window_start last len distance within) result }
{
    match (distance, within) {
        (Some(d), _) => shifted(last, len, d),
        (None, Some(w)) => base(last, w.reference) as i64,
        (None, None) => 0,
    }
}

// A signed number as a place: 0 where it is negative, `most` where it is larger.
fn place(z: i64, most: usize) -> usize
    requires { most < start_bound }
    ensures { result ≡ min (clip z) most }
{
    z.clamp(0, most as i64) as usize
}

// How many starts leave room for n bytes before an end.
fn room(end: usize, n: usize) -> usize
    requires { end < size_bound }
    ensures { result ≡ end + 1 - n }
{
    (end + 1).saturating_sub(n)
}

#[tactic(auto, unfolding(crate::specs::Ends::ends_to))]
fn starts_to(s: i64, within: Option<WithinValue>, len: usize, n: usize) -> usize
    requires { (mag s < start_bound) × (len < size_bound) × (n < size_bound) }
    ensures { result ≡ ends_to s within len n }
{
    let Some(w) = within else {
        return room(len, n);
    };
    let end = s + i64::from(w.number);
    if end < n as i64 {
        return 0;
    }
    room(place(end, len), n)
}

// The starts at which the pattern lies within its window over a field of `len` bytes.
#[tactic(auto, using(crate::proofs::Exact::spans))]
pub fn window(p: Pattern, last: Option<Match>, len: usize) -> Window
    requires { Measured p last len }
    ensures { Spans p last len result }
{
    let s = window_start(last, len, p.distance, p.within);
    Window {
        from: place(s, len + 1),
        to: starts_to(s, p.within, len, p.len),
    }
}
