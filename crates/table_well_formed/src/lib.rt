// Whether a table is one that some text reads as: what refusal 20 goes by. Any numbers may stand in the table.
#![tactic(auto)]

ghost use Rattle.std.specs.Prelude.{◌≡◌, ℕ, ◌≤◌};
ghost use Rattle.definitions.specs.declared.table.Flow.{Flow};
ghost use Rattle.definitions.specs.Limits.{max_byte};
ghost use Rattle.definitions.specs.Tables.{table_with};
ghost use Rattle.definitions.specs.WellFormed.{well_formed};
ghost use Rattle.table_well_formed.specs.ItemsTest.{items_well};

use definitions::limits::{ITEMS, NAME_BYTES};
use definitions::table::Slot;
use table_bytes::{name_fits, room_fits};
use table_items::{ends_well, may_pass, none_passed, past_item};
use table_slots::slot_unused;

// The slots in use, then those after them, then what those passed come to. Nothing called here takes the array: it would be copied at each call.
fn items_fit(items: [Slot; ITEMS], count: usize, used: usize) -> bool
    ensures { result ≡ items_well items count used }
{
    if ITEMS < count {
        return false;
    }
    let mut w = none_passed(used);
    for slot in &items[..count] {
        if !may_pass(w, *slot) {
            return false;
        }
        w = past_item(w, *slot);
    }
    items[count..].iter().all(|slot| slot_unused(*slot)) && ends_well(w, count)
}

// Whether some text, of whatever length, reads as the table of these parts, of whatever flow and protocol: that is a byte by its type.
pub fn well_formed(
    name: [u8; NAME_BYTES],
    len: usize,
    items: [Slot; ITEMS],
    count: usize,
    bytes: &[u8],
    used: usize,
) -> bool
    ensures { (protocol : ℕ) (flow : Flow) → protocol ≤ max_byte → result ≡ well_formed (table_with name len protocol flow bytes.now used items count) }
{
    name_fits(name, len) && items_fit(items, count, used) && room_fits(bytes, used)
}
