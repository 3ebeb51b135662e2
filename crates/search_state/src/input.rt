// What a search is given, the same for every item.
use definitions::limits::{ITEMS, PATTERNS};
use definitions::packets::{FieldMap, PacketHeader, Start};
use definitions::table::Slot;

// A table's items, what is seen of the packet, and the starts of the placement to pass.
#[derive(Clone, Copy)]
pub struct SearchInput {
    pub items: [Slot; ITEMS],
    pub count: usize,
    pub header: PacketHeader,
    pub map: FieldMap,
    pub bound: [Start; PATTERNS],
}
