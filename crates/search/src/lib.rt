// The search for placements: the first that meets a table, or the first after another one.
#![tactic(auto)]

ghost use Rattle.std.specs.Prelude.{◌≡◌};
ghost use Rattle.definitions.specs.Lists.{keep};
ghost use Rattle.definitions.specs.Placements.{listed};
ghost use Rattle.fields.specs.Seen.{seen};
ghost use Rattle.search_state.specs.Outcomes.{outcome_of};
ghost use Rattle.search_state.specs.Choosing.{after_if};
ghost use Rattle.search.specs.Searching.{searched_table, Searchable};

use definitions::limits::{ITEMS, PATTERNS};
use definitions::packets::{Direction, FieldMap, PacketHeader, Placement, Start};
use definitions::table::{Flow, Slot};
use match_items::heads::head_holds;
use search_items::from_item;
use search_state::chosen::empty;
use search_state::input::SearchInput;

// THE SEARCH: the first of the list of placements; where `on_bound`, the first after the one with the starts in `bound`.
pub fn find<'a>(
    protocol: u8,
    flow: Flow,
    items: [Slot; ITEMS],
    count: usize,
    bytes: &'a [u8],
    header: PacketHeader,
    payload: &'a [u8],
    decoded: &'a [u8],
    dir: Direction,
    m: FieldMap,
    bound: [Start; PATTERNS],
    on_bound: bool,
) -> Option<Placement>
    requires { Searchable items count bytes.now payload.now decoded.now }
    ensures { result ≡ outcome_of (keep (after_if on_bound bound) (listed (searched_table protocol flow items count bytes.now) (seen header payload.now decoded.now m) dir)) }
{
    if !head_holds(protocol, flow, header, dir) {
        return None;
    }
    let input = SearchInput {
        items,
        count,
        header,
        map: m,
        bound,
    };
    from_item(input, 0, bytes, payload, decoded, None, empty(), on_bound)
}
