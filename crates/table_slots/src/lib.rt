// The slots of a table: those in use hold an item that fits, with its addresses; the others hold nothing.
#![tactic(auto)]

mod addresses;
mod items;

ghost use Rattle.std.specs.Prelude.{◌≡◌};
ghost use Rattle.definitions.specs.Items.{kind_of};
ghost use Rattle.definitions.specs.WellFormed.{address_count, slot_fits, is_unused, slot_unused};

use crate::addresses::{addresses_fit, addresses_unused};
use crate::items::item_fits;
use definitions::table::{Item, Slot};

// How many of a slot's addresses are in use.
fn address_count(it: Item) -> usize
    ensures { result ≡ address_count (kind_of it) }
{
    match it {
        Item::Address(a) => a.count,
        _ => 0,
    }
}

// A slot in use.
#[tactic(auto, using(crate::proofs::ByKind::few_addresses_lem))]
pub fn slot_fits(slot: Slot) -> bool
    ensures { result ≡ slot_fits slot }
{
    if !item_fits(slot.item) {
        return false;
    }
    let n = address_count(slot.item);
    addresses_fit(slot.addresses, n) && addresses_unused(slot.addresses, n)
}

// No item.
fn is_unused(it: Item) -> bool
    ensures { result ≡ is_unused (kind_of it) }
{
    matches!(it, Item::Unused)
}

// A slot that is not in use.
pub fn slot_unused(slot: Slot) -> bool
    ensures { result ≡ slot_unused slot }
{
    is_unused(slot.item) && addresses_unused(slot.addresses, 0)
}
