// EQUALITY OF TABLES: field by field, whatever stands in them, unused room too. proofs/Exactly.antt: true exactly for equal tables.
#![tactic(auto)]

ghost use Rattle.std.specs.Prelude.{◌≡◌};
ghost use Rattle.table_equality.specs.SameTables.{same_item, same_slot, same_table};

use definitions::limits::ITEMS;
use definitions::table::{Item, Slot, Table};

// An item without its addresses; no code calls it: it is offered beside the others, as docs/ARCHITECTURE.md says.
pub fn same_item(a: Item, b: Item) -> bool
    ensures { result ≡ same_item a b }
{
    a == b // by its case, and what stands in it
}

// An item with its addresses.
pub fn same_slot(a: Slot, b: Slot) -> bool
    ensures { result ≡ same_slot a b }
{
    a == b // the item, and its addresses
}

// WHETHER TWO TABLES ARE EQUAL: numbers first, then bytes, then slot by slot.
pub fn same_table(t: Table, u: Table) -> bool
    ensures { result ≡ same_table t u }
{
    if t.len != u.len {
        return false;
    }
    if t.protocol != u.protocol {
        return false;
    }
    if t.flow != u.flow {
        return false;
    }
    if t.used != u.used {
        return false;
    }
    if t.count != u.count {
        return false;
    }
    if t.name != u.name {
        return false;
    }
    if t.bytes != u.bytes {
        return false;
    }
    for i in 0..ITEMS {
        if !same_slot(t.items[i], u.items[i]) {
            return false;
        }
    }
    true
}
