// What was read of a text so far: the table's numbers as far as they go, with what the options to come are judged by. The table's items and its pattern bytes
// stand beside the state, where the loop over the options has them, so that an option hands on what it changes and no more.
#![tactic(auto)]

ghost use Rattle.std.specs.Prelude.{◌≡◌, []};
ghost use Rattle.definitions.specs.Refusals.{refuse_if};
ghost use Rattle.definitions.specs.Tables.{bare, no_slot as empty_slot};
ghost use Rattle.read_state.specs.Sound.{without_item};
ghost use Rattle.read_state.specs.State.{state_of};

use definitions::answers::Refusal;
use definitions::limits::PATTERNS;
use definitions::table::{Context, Flow, Item, Pattern, Slot};
use read_value::no_addresses;

// Which options were given that may stand once; of the modifiers, after the last pattern.
#[derive(Clone, Copy)]
pub struct Given {
    pub name: bool,
    pub protocol: bool,
    pub flow: bool,
    pub context: bool,
    pub nocase: bool,
    pub distance: bool,
    pub within: bool,
}

// The table so far, its name told by the place of its first byte; with what the options to come are judged by: how many patterns and tests, the last
// pattern's place among the items, and the first dash of each pattern.
#[derive(Clone, Copy)]
pub struct State {
    pub from: usize,
    pub len: usize,
    pub protocol: u8,
    pub flow: Flow,
    pub used: usize,
    pub count: usize,
    pub given: Given,
    pub patterns: usize,
    pub tests: usize,
    pub last: usize,
    pub dashes: [usize; PATTERNS],
}

// A slot, and the place among the items that it is put at.
#[derive(Clone, Copy)]
pub struct PlacedSlot {
    pub place: usize,
    pub slot: Slot,
}

// The state after a value, and the slot that it makes or changes, if any.
#[derive(Clone, Copy)]
pub struct Inserted {
    pub state: State,
    pub put: Option<PlacedSlot>,
}

// A slot that is not in use.
pub fn no_slot() -> Slot
    ensures { result ≡ empty_slot }
{
    Slot {
        item: Item::Unused,
        addresses: no_addresses(),
    }
}

// An option that makes no item and changes none.
pub fn no_item(state: State) -> Inserted
    ensures { result ≡ without_item state }
{
    Inserted { state, put: None }
}

// Nothing was said.
pub fn fresh() -> State
    ensures { result ≡ state_of 0 [] }
{
    State {
        from: 0,
        len: 0,
        protocol: 0,
        flow: Flow::Any,
        used: 0,
        count: 0,
        given: Given {
            name: false,
            protocol: false,
            flow: false,
            context: false,
            nocase: false,
            distance: false,
            within: false,
        },
        patterns: 0,
        tests: 0,
        last: 0,
        dashes: [0; PATTERNS],
    }
}

// 8, if it was given already.
pub fn check_again(again: bool) -> Result<(), Refusal>
    ensures { result ≡ refuse_if again Refusal.Repeated (Ok tt) }
{
    if again {
        return Err(Refusal::Repeated);
    }
    Ok(())
}

// A pattern of `n` bytes without modifiers.
pub fn bare_pattern(negated: bool, n: usize) -> Pattern
    ensures { result ≡ bare negated n }
{
    Pattern {
        negated,
        len: n,
        context: Context::Packet,
        nocase: false,
        distance: None,
        within: None,
    }
}
