// The search: one function handles an item, the other tries a pattern's starts and calls the first for the items left.
#![tactic(auto)]

ghost use Rattle.std.specs.Prelude.{◌≡◌, ◌∷◌, ◌+◌, ◌≤◌, ◌<◌, drop};
ghost use Rattle.definitions.specs.Limits.{max_items};
ghost use Rattle.definitions.specs.Placements.{matched, constraints, placements};
ghost use Rattle.fields.specs.Seen.{seen};
ghost use Rattle.search_state.specs.Choosing.{answer};
ghost use Rattle.search_state.specs.Inputs.{items_left};
ghost use Rattle.search_items.specs.Items.{ReadyItems, Trying};

use definitions::packets::{Match, Placement};
use definitions::table::{Item, Pattern};
use fields::{field_of, is_present};
use match_items::negated::negated_holds;
use match_items::test_holds;
use match_patterns::starts::next_start;
use match_starts::start_at;
use match_windows::starts::window;
use search_state::chosen::{finish, last_after, start_from, still_on_bound, with_start};
use search_state::input::SearchInput;

// The first placement of the items from k on, after the starts chosen; where `on_bound`, the first after those to pass. `bytes` are the pattern
// bytes from item k's on, `last` is the last positive pattern before it.
#[cycle(from_item_try_starts)]
pub fn from_item<'a>(
    input: SearchInput,
    k: usize,
    bytes: &[u8],
    payload: &'a [u8],
    decoded: &'a [u8],
    last: Option<Match>,
    chosen: Placement,
    on_bound: bool,
) -> Option<Placement>
    requires { (input.count ≤ max_items) × ReadyItems (items_left input k) bytes.now payload.now decoded.now last chosen }
    ensures { result ≡ answer chosen on_bound (drop chosen.count input.bound) (placements (seen input.header payload.now decoded.now input.map) (constraints (items_left input k) bytes.now) last) }
{
    // The pattern bytes from item i's on begin here.
    let mut from = 0;
    for i in k..input.count {
        let slot = input.items[i];
        let Item::Pattern(p) = slot.item else {
            if !test_holds(
                input.header,
                payload,
                decoded,
                input.map,
                slot.item,
                slot.addresses,
                last,
            ) {
                return None;
            }
            continue;
        };
        let to = from + p.len;
        let own = &bytes[from..to];
        if !p.negated {
            let rest = &bytes[to..];
            return try_starts(
                input, i, p, own, rest, payload, decoded, last, chosen, on_bound,
            );
        }
        // A negated pattern moves no reference.
        if !negated_holds(payload, decoded, input.map, p, own, last) {
            return None;
        }
        from = to;
    }
    finish(chosen, on_bound)
}

// Tries the starts of the pattern p, which is item k and has the bytes `own`, each with the items left, whose pattern bytes are `rest`.
#[cycle(from_item_try_starts)]
fn try_starts<'a>(
    input: SearchInput,
    k: usize,
    p: Pattern,
    own: &[u8],
    rest: &[u8],
    payload: &'a [u8],
    decoded: &'a [u8],
    last: Option<Match>,
    chosen: Placement,
    on_bound: bool,
) -> Option<Placement>
    requires { (k < input.count) × (input.count ≤ max_items) × Trying (items_left input (k + 1)) rest.now p own.now payload.now decoded.now last chosen }
    ensures { result ≡ answer chosen on_bound (drop chosen.count input.bound) (placements (seen input.header payload.now decoded.now input.map) (matched p own.now ∷ constraints (items_left input (k + 1)) rest.now) last) }
{
    if !is_present(input.map, p.context) {
        return None;
    }
    let f = field_of(payload, decoded, input.map, p.context);
    let w = window(p, last, f.len());
    // In a local: an index into the parameter's own array keeps a copy of the whole input at each call.
    let bound = input.bound;
    let b = bound[chosen.count];
    let first = start_from(on_bound, b, w.from);
    // No range: next_start passes many places at once.
    let mut at = next_start(p.nocase, own, f, first, w.to);
    while at < w.to {
        let s = start_at(at);
        let next = last_after(last, p, s);
        let more = with_start(chosen, s);
        let still = still_on_bound(on_bound, s, b);
        let found = from_item(input, k + 1, rest, payload, decoded, next, more, still);
        let is_found = found.is_some();
        if is_found {
            return found;
        }
        at = next_start(p.nocase, own, f, at + 1, w.to);
    }
    None
}
