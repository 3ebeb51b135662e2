// One more option's value is inserted into the state, and at the end the whole is judged. The contracts go by the options that were
// said, whatever these were.
#![tactic(auto)]

pub mod checking;
mod once;

ghost use Rattle.std.specs.Prelude.{◌≡◌, List, ℕ, length};
ghost use Rattle.definitions.specs.Limits.{document_limits};
ghost use Rattle.definitions.specs.Reading.{Located, checked_table};
ghost use Rattle.read_state.specs.Sound.{Sound};
ghost use Rattle.read_state.specs.State.{Holds, After, InsertedRight};
ghost use Rattle.read_insert.specs.Inserting.{value_inserted};
ghost use Rattle.read_insert.specs.Checking.{table_in, reading_by};

use crate::checking::judge;
use crate::once::{insert_flow, insert_name, insert_protocol};
use definitions::answers::{Refusal, TextRefusal};
use definitions::limits::{ADDRESSES, ITEMS};
use definitions::table::{Address, Slot};
use read_insert_counted::{insert_addresses, insert_pattern, insert_test};
use read_insert_modifiers::{insert_context, insert_distance, insert_nocase, insert_within};
use read_state::{Inserted, State};
use read_value::Value;

// The value of the option whose first dash stands at `dash`, by its kind; `last` is the last pattern's slot.
fn insert_value(
    st: State,
    last: Slot,
    dash: usize,
    value: Value,
    list: [Address; ADDRESSES],
    used: usize,
) -> Result<Inserted, Refusal>
    requires { Sound st }
    ensures { result ≡ value_inserted st last dash value list used }
{
    match value {
        Value::Name(from, n) => insert_name(st, from, n),
        Value::Protocol(p) => insert_protocol(st, p),
        Value::Flow(f) => insert_flow(st, f),
        Value::Test(item) => insert_test(st, item, list),
        Value::Addresses(a) => insert_addresses(st, a, list),
        Value::Pattern(negated, n) => insert_pattern(st, dash, negated, n, list, used),
        Value::Context(c) => insert_context(st, last, c),
        Value::NoCase => insert_nocase(st, last),
        Value::Distance(d) => insert_distance(st, last, d),
        Value::Within(w) => insert_within(st, last, w),
    }
}

// One option more: 8, 9 or 11 where one is due for it; else the state with it and the slot that it puts among the items. Up to its own pattern bytes
// `used` are in use.
pub fn insert(
    st: State,
    last: Slot,
    dash: usize,
    value: Value,
    list: [Address; ADDRESSES],
    used: usize,
) -> Result<Inserted, Refusal>
    requires { After st last value list used }
    ensures { InsertedRight st last dash value list used result }
{
    insert_value(st, last, dash, value, list, used)
}

// The last `)` of the text was met: 10 by pattern, then 12, or it is accepted.
pub fn finish(len: usize, st: State, items: [Slot; ITEMS]) -> Result<(), TextRefusal>
    requires { Sound st }
    ensures { (s bytes : List ℕ) (located : List Located) → length s ≡ len → Holds s located st bytes items → reading_by result (table_in s st bytes items) ≡ checked_table document_limits.room s located }
{
    judge(len, st, items)
}
