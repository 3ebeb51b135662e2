// Options that belong to the last pattern, each once: context, no_case, distance and within.
#![tactic(auto)]

ghost use Rattle.std.specs.Prelude.{◌≡◌};
ghost use Rattle.definitions.specs.OptionValues as modifier;
ghost use Rattle.definitions.specs.Refusals.{refuse_if};
ghost use Rattle.read_insert_modifiers.specs.Modifying.{pattern_of, modifier_by, modifier_inserted};

use definitions::answers::Refusal;
use definitions::table::{Context, DistanceValue, Item, Pattern, Slot, WithinValue};
use read_state::{Given, Inserted, PlacedSlot, State, bare_pattern, check_again};

// The pattern in a slot; in any other slot there is none to look at.
fn pattern_of(slot: Slot) -> Pattern
    ensures { result ≡ pattern_of slot.item }
{
    let Item::Pattern(p) = slot.item else {
        return bare_pattern(false, 0);
    };
    p
}

// 9 where no pattern stands before, then 8.
fn check_for(none: bool, again: bool) -> Result<(), Refusal>
    ensures { result ≡ refuse_if none Refusal.ModifierWithoutPattern (refuse_if again Refusal.Repeated (Ok tt)) }
{
    if none {
        return Err(Refusal::ModifierWithoutPattern);
    }
    check_again(again)
}

// A modifier that makes `p` of the last pattern, whose slot is `last`; `again` says that it was given already.
fn insert_modifier(
    st: State,
    last: Slot,
    again: bool,
    p: Pattern,
    given: Given,
) -> Result<Inserted, Refusal>
    ensures { result ≡ modifier_by st last again p given }
{
    check_for(st.patterns == 0, again)?;
    Ok(Inserted {
        state: State { given, ..st },
        put: Some(PlacedSlot {
            place: st.last,
            slot: Slot {
                item: Item::Pattern(p),
                ..last
            },
        }),
    })
}

// The context of the last pattern.
pub fn insert_context(st: State, last: Slot, c: Context) -> Result<Inserted, Refusal>
    ensures { result ≡ modifier_inserted st last (modifier.Context c) }
{
    let p = Pattern {
        context: c,
        ..pattern_of(last)
    };
    let given = Given {
        context: true,
        ..st.given
    };
    insert_modifier(st, last, st.given.context, p, given)
}

// The last pattern ignores letter case.
pub fn insert_nocase(st: State, last: Slot) -> Result<Inserted, Refusal>
    ensures { result ≡ modifier_inserted st last modifier.NoCase }
{
    let p = Pattern {
        nocase: true,
        ..pattern_of(last)
    };
    let given = Given {
        nocase: true,
        ..st.given
    };
    insert_modifier(st, last, st.given.nocase, p, given)
}

// The distance of the last pattern.
pub fn insert_distance(st: State, last: Slot, d: DistanceValue) -> Result<Inserted, Refusal>
    ensures { result ≡ modifier_inserted st last (modifier.Distance d) }
{
    let p = Pattern {
        distance: Some(d),
        ..pattern_of(last)
    };
    let given = Given {
        distance: true,
        ..st.given
    };
    insert_modifier(st, last, st.given.distance, p, given)
}

// How far the last pattern reaches.
pub fn insert_within(st: State, last: Slot, w: WithinValue) -> Result<Inserted, Refusal>
    ensures { result ≡ modifier_inserted st last (modifier.Within w) }
{
    let p = Pattern {
        within: Some(w),
        ..pattern_of(last)
    };
    let given = Given {
        within: true,
        ..st.given
    };
    insert_modifier(st, last, st.given.within, p, given)
}
