// The list of placements by a datagram's header fields and payload: its first, and the least after a placement held. Refusals 35 and 36 come first, in this
// order; those before them the caller has tested.
#![tactic(auto)]

ghost use Rattle.std.specs.Prelude.{◌≡◌};
ghost use Rattle.search.specs.Searching.{searched_table, Searchable};
ghost use Rattle.match_placements.specs.Listing.{first_in_list, next_in_list};

use definitions::answers::{Answer, Refusal};
use definitions::limits::{ITEMS, PATTERNS};
use definitions::packets::{Direction, FieldMap, PacketHeader, Placement, Start};
use definitions::table::{Flow, Slot};
use fields::fields_check;
use match_answers::answers::{answered, refused};
use match_answers::positives::positive_count;
use search::find;

// Refusal 35, or the first of the list, or none.
pub fn first_in<'a>(
    protocol: u8,
    flow: Flow,
    items: [Slot; ITEMS],
    count: usize,
    bytes: &'a [u8],
    header: PacketHeader,
    payload: &'a [u8],
    decoded: &'a [u8],
    dir: Direction,
    m: FieldMap,
) -> Answer
    requires { Searchable items count bytes.now payload.now decoded.now }
    ensures { result ≡ first_in_list (searched_table protocol flow items count bytes.now) header payload.now decoded.now dir m }
{
    if let Err(r) = fields_check(payload, decoded, m) {
        return refused(r);
    }
    let nothing_to_pass = [Start { at: 0 }; PATTERNS];
    answered(find(
        protocol,
        flow,
        items,
        count,
        bytes,
        header,
        payload,
        decoded,
        dir,
        m,
        nothing_to_pass,
        false,
    ))
}

// Refusal 35 or 36, or the least of the list after the placement held, or none.
pub fn next_in<'a>(
    protocol: u8,
    flow: Flow,
    items: [Slot; ITEMS],
    count: usize,
    bytes: &'a [u8],
    header: PacketHeader,
    payload: &'a [u8],
    decoded: &'a [u8],
    dir: Direction,
    m: FieldMap,
    held: Placement,
) -> Answer
    requires { Searchable items count bytes.now payload.now decoded.now }
    ensures { result ≡ next_in_list (searched_table protocol flow items count bytes.now) header payload.now decoded.now dir m held }
{
    if let Err(r) = fields_check(payload, decoded, m) {
        return refused(r); // 35 comes before 36
    }
    if held.count != positive_count(items, count) {
        return refused(Refusal::EarlierCount);
    }
    answered(find(
        protocol,
        flow,
        items,
        count,
        bytes,
        header,
        payload,
        decoded,
        dir,
        m,
        held.starts,
        true,
    ))
}
