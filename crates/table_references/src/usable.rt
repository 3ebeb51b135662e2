// Which references of one pattern are usable, after the last positive pattern before it.
ghost use Rattle.std.specs.Prelude.{◌≡◌, ◌+◌};
ghost use Rattle.definitions.specs.declared.packets.Start.{Start};
ghost use Rattle.definitions.specs.Starts.{start_at};
ghost use Rattle.definitions.specs.References.{last_after, last_in, reference_usable, reverse_usable, distance_usable, within_usable, references_alike, usable};

use definitions::packets::Match;
use definitions::table::{Context, DistanceValue, Pattern, Reference, WithinValue};

// The last positive pattern, after `p` that ends at a place: a negated one moves no reference.
pub fn last_ending(last: Option<Match>, p: Pattern, end: usize) -> Option<Match>
    ensures { (s : Start) → end ≡ s.at + p.len → result ≡ last_after last p s }
{
    if p.negated {
        return last;
    }
    Some(Match {
        context: p.context,
        end,
    })
}

// The same where it plays no part at which start `p` lies.
pub fn last_after(last: Option<Match>, p: Pattern) -> Option<Match>
    ensures { result ≡ last_after last p (start_at 0) }
{
    last_ending(last, p, p.len)
}

// The last positive pattern, if there is one, stands in the context.
fn last_in(last: Option<Match>, c: Context) -> bool
    ensures { result ≡ last_in last c }
{
    match last {
        None => true,
        Some(m) => m.context == c,
    }
}

fn reference_usable(last: Option<Match>, c: Context, r: Reference) -> bool
    ensures { result ≡ reference_usable last c r }
{
    match r {
        Reference::Match => last_in(last, c),
        Reference::Packet => c == Context::Packet,
        Reference::Context => true,
    }
}

fn reverse_usable(d: DistanceValue) -> bool
    ensures { result ≡ reverse_usable d }
{
    !d.reverse || (d.reference != Reference::Match && 0 <= d.offset)
}

fn distance_usable(last: Option<Match>, c: Context, distance: Option<DistanceValue>) -> bool
    ensures { result ≡ distance_usable last c distance }
{
    match distance {
        None => true,
        Some(d) => reference_usable(last, c, d.reference) && reverse_usable(d),
    }
}

fn within_usable(last: Option<Match>, c: Context, within: Option<WithinValue>) -> bool
    ensures { result ≡ within_usable last c within }
{
    match within {
        None => true,
        Some(w) => reference_usable(last, c, w.reference),
    }
}

fn references_alike(distance: Option<DistanceValue>, within: Option<WithinValue>) -> bool
    ensures { result ≡ references_alike distance within }
{
    match (distance, within) {
        (Some(d), Some(w)) => d.reference == w.reference,
        _ => true,
    }
}

// The references of `p` after the last positive pattern.
#[tactic(auto, unfolding(definitions::specs::References::usable))]
pub fn is_usable(last: Option<Match>, p: Pattern) -> bool
    ensures { result ≡ usable last p }
{
    distance_usable(last, p.context, p.distance)
        && within_usable(last, p.context, p.within)
        && references_alike(p.distance, p.within)
}
