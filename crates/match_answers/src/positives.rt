// How many positive patterns a table has: what refusal 36 goes by.
ghost use Rattle.std.specs.Prelude.{◌≡◌, List, ℕ, ◌≤◌, take};
ghost use Rattle.definitions.specs.Limits.{max_items};
ghost use Rattle.definitions.specs.Placements.{constraints, positives};
ghost use Rattle.match_answers.specs.PositivePatterns.{is_positive};

use definitions::limits::ITEMS;
use definitions::table::{Item, Slot};

// Whether an item is a positive pattern.
fn is_positive(slot: &Slot) -> bool
    ensures { result ≡ is_positive slot.now }
{
    matches!(slot.item, Item::Pattern(p) if !p.negated)
}

// The positive patterns among the items in use; their bytes play no part.
pub fn positive_count(items: [Slot; ITEMS], count: usize) -> usize
    requires { count ≤ max_items }
    ensures { (b : List ℕ) → result ≡ positives (constraints (take count items) b) }
{
    items[..count]
        .iter()
        .filter(|slot| is_positive(slot))
        .count()
}
