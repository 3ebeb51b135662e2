// How many patterns among a table's items, from the first on, have usable references: what refusal 10 goes by.
#![tactic(auto)]

ghost use Rattle.std.specs.Prelude.{◌≡◌, ◌≤◌, take};
ghost use Rattle.definitions.specs.Limits.{max_items};
ghost use Rattle.definitions.specs.Items.{patterns_of};
ghost use Rattle.definitions.specs.References.{usable_run};

use definitions::limits::ITEMS;
use definitions::packets::Match;
use definitions::table::{Item, Slot};
use table_references::usable::{is_usable, last_after};

// How many patterns among the items in use, from the first on, have usable references. Each is judged after the last positive one before it.
pub fn usable_count(items: [Slot; ITEMS], count: usize) -> usize
    requires { count ≤ max_items }
    ensures { result ≡ usable_run None (patterns_of (take count items)) }
{
    let mut usable = 0;
    let mut last: Option<Match> = None;
    for slot in &items[..count] {
        let Item::Pattern(p) = slot.item else {
            continue;
        };
        if !is_usable(last, p) {
            return usable;
        }
        last = last_after(last, p);
        usable += 1;
    }
    usable
}
