// One item, by the limits of its kind.
ghost use Rattle.std.specs.Prelude.{◌≡◌};
ghost use Rattle.definitions.specs.WellFormed.{item_fits};

use definitions::table::Item;
use table_limits::{count_fits, field_fits, number_fits, pattern_fits};

// The item that a slot in use holds.
#[tactic(auto, unfolding(definitions::specs::WellFormed::item_fits))]
pub fn item_fits(it: Item) -> bool
    ensures { result ≡ item_fits it }
{
    match it {
        Item::Unused => false,
        Item::Address(a) => count_fits(a.count),
        Item::Number(a) => number_fits(a),
        Item::Field(a) => field_fits(a),
        Item::Pattern(p) => pattern_fits(p),
        Item::SameIp | Item::Ttl(_) | Item::Size(_) | Item::At(_) | Item::Byte(_) => true,
    }
}
