// The starts that a search has chosen so far: none at first, one more, a placement after the last item, and which starts are worth a try.
ghost use Rattle.std.specs.Prelude.{◌≡◌, ◌&&◌, List, [], ◌∷◌, ◌+◌, ◌<◌};
ghost use Rattle.definitions.specs.declared.packets.Start.{Start};
ghost use Rattle.definitions.specs.Limits.{max_patterns};
ghost use Rattle.definitions.specs.Answers.{placement_of};
ghost use Rattle.definitions.specs.References.{last_after};
ghost use Rattle.definitions.specs.Starts.{same_start};
ghost use Rattle.match_windows.specs.Spans.{size_bound};
ghost use Rattle.search_state.specs.Choosing.{push, answer, start_from};

use definitions::limits::PATTERNS;
use definitions::packets::{Match, Placement, Start};
use definitions::table::Pattern;
use match_starts::{same_start, start_at, start_before};
use table_references::usable::last_ending;

// No start: the placement to begin with, and that of none and of a refusal.
pub fn empty() -> Placement
    ensures { result ≡ placement_of [] }
{
    Placement {
        count: 0,
        starts: [Start { at: 0 }; PATTERNS],
    }
}

// After the last item: the starts chosen are a placement, but for the one to pass itself.
pub fn finish(chosen: Placement, on_bound: bool) -> Option<Placement>
    ensures { (p : List Start) → result ≡ answer chosen on_bound p ([] ∷ []) }
{
    if on_bound { None } else { Some(chosen) }
}

// The starts chosen, with one more.
pub fn with_start(chosen: Placement, s: Start) -> Placement
    requires { chosen.count < max_patterns }
    ensures { result ≡ push chosen s }
{
    let mut next = chosen;
    next.starts[chosen.count] = s;
    next.count += 1;
    next
}

// The first start worth a try, where the placement to pass has `b` here.
pub fn start_from(on_bound: bool, b: Start, from: usize) -> usize
    ensures { result ≡ start_from on_bound b from }
{
    if !on_bound {
        return from;
    }
    if start_before(start_at(from), b) {
        b.at
    } else {
        from
    }
}

// Whether the starts chosen, with `s`, are still those of the placement to pass.
pub fn still_on_bound(on_bound: bool, s: Start, b: Start) -> bool
    ensures { result ≡ (on_bound && same_start b s) }
{
    on_bound && same_start(b, s)
}

// The last positive pattern, after `p` that lies at the start `s`.
pub fn last_after(last: Option<Match>, p: Pattern, s: Start) -> Option<Match>
    requires { s.at + p.len < size_bound }
    ensures { result ≡ last_after last p s }
{
    last_ending(last, p, s.at + p.len)
}
