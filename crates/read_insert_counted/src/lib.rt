// Options that are counted: tests and patterns, each an item more.
#![tactic(auto)]

ghost use Rattle.std.specs.Prelude.{◌≡◌};
ghost use Rattle.read_state.specs.Sound.{Sound, with_item};
ghost use Rattle.read_insert_counted.specs.Counting.{test_inserted, addresses_inserted, pattern_inserted};

use definitions::answers::Refusal;
use definitions::limits::{ADDRESSES, PATTERNS, TESTS};
use definitions::table::{Address, AddressTest, Item, Slot};
use read_state::{Given, Inserted, PlacedSlot, State, bare_pattern};

// A test goes after the items so far, with its addresses beside it; 11 where there is no room for one more.
pub fn insert_test(st: State, item: Item, list: [Address; ADDRESSES]) -> Result<Inserted, Refusal>
    requires { Sound st }
    ensures { result ≡ test_inserted st item list }
{
    if TESTS <= st.tests {
        return Err(Refusal::CountExceeded);
    }
    let state = State {
        count: st.count + 1,
        tests: st.tests + 1,
        ..st
    };
    let slot = Slot {
        item,
        addresses: list,
    };
    Ok(item_after(st, state, slot))
}

// A list of more addresses than a test holds was read all the same, and is refused here.
pub fn insert_addresses(
    st: State,
    a: AddressTest,
    list: [Address; ADDRESSES],
) -> Result<Inserted, Refusal>
    requires { Sound st }
    ensures { result ≡ addresses_inserted st a list }
{
    if ADDRESSES < a.count {
        return Err(Refusal::CountExceeded);
    }
    insert_test(st, Item::Address(a), list)
}

// Its bytes are the last of the `used`. No modifier is given after it yet.
pub fn insert_pattern(
    st: State,
    dash: usize,
    negated: bool,
    n: usize,
    list: [Address; ADDRESSES],
    used: usize,
) -> Result<Inserted, Refusal>
    requires { Sound st }
    ensures { result ≡ pattern_inserted st dash negated n list used }
{
    if PATTERNS <= st.patterns {
        return Err(Refusal::CountExceeded);
    }
    let mut dashes = st.dashes;
    dashes[st.patterns] = dash;
    let given = Given {
        context: false,
        nocase: false,
        distance: false,
        within: false,
        ..st.given
    };
    let state = State {
        used,
        count: st.count + 1,
        given,
        patterns: st.patterns + 1,
        last: st.count,
        dashes,
        ..st
    };
    let slot = Slot {
        item: Item::Pattern(bare_pattern(negated, n)),
        addresses: list,
    };
    Ok(item_after(st, state, slot))
}

// The state `next` with one item more, after those that there are in `st`.
fn item_after(st: State, next: State, slot: Slot) -> Inserted
    ensures { result ≡ with_item st next slot }
{
    Inserted {
        state: next,
        put: Some(PlacedSlot {
            place: st.count,
            slot,
        }),
    }
}
