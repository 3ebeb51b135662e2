// The list of placements: what is due is tested once, and each search is for the least after the placement written last.
ghost use Rattle.definitions.specs.Lists.{keep};
ghost use Rattle.definitions.specs.Fields.{fields_check};
ghost use Rattle.definitions.specs.Placements.{lex_less};
ghost use Rattle.definitions.specs.Answers.{input_check, placements_of};
ghost use Rattle.write_bytes.specs.Puts.{Puts};
ghost use Rattle.search.specs.Searching.{searched_table, Searchable};
ghost use Rattle.match_placements.specs.Listing.{list_in};
ghost use Rattle.case_lists.specs.AnswerTexts.{placements_after, max_after, list_text, check_text};

use crate::answers::put_refused;
use crate::placement_text::put_placement;
use definitions::answers::Found;
use definitions::limits::{ITEMS, PATTERNS};
use definitions::packets::{Direction, FieldMap, PacketHeader, Start};
use definitions::table::{Flow, Slot, Table};
use match_checks::check_input;
use match_placements::first_in;
use packet::payload_of;
use search::find;
use table_well_formed::well_formed;
use write_bytes::{put, put_word};

// So many placements are written after the first.
const AFTER: usize = 999;

// The placements of the list after some starts.
fn put_after<'a>(
    out: &mut [u8],
    at: usize,
    protocol: u8,
    flow: Flow,
    items: [Slot; ITEMS],
    count: usize,
    bytes: &'a [u8],
    header: PacketHeader,
    payload: &'a [u8],
    decoded: &'a [u8],
    dir: Direction,
    m: FieldMap,
    starts: [Start; PATTERNS],
) -> usize
    requires { Searchable items count bytes.now payload.now decoded.now }
    ensures { Puts out.old at (placements_after max_after (keep (lex_less starts) (list_in (searched_table protocol flow items count bytes.now) header payload.now decoded.now dir m))) out.new result }
{
    let mut bound = starts;
    let mut next = at;
    for _ in 0..AFTER {
        let Some(placement) = find(
            protocol, flow, items, count, bytes, header, payload, decoded, dir, m, bound, true,
        ) else {
            return next;
        };
        next = put(out, next, b';');
        next = put_placement(out, next, placement);
        bound = placement.starts;
    }
    let more = find(
        protocol, flow, items, count, bytes, header, payload, decoded, dir, m, bound, true,
    );
    match more {
        Some(_) => put_word(out, next, b";..."),
        None => next,
    }
}

// By a datagram's header fields and payload: refusal 35, or the list.
fn put_seen<'a>(
    out: &mut [u8],
    at: usize,
    protocol: u8,
    flow: Flow,
    items: [Slot; ITEMS],
    count: usize,
    bytes: &'a [u8],
    header: PacketHeader,
    payload: &'a [u8],
    decoded: &'a [u8],
    dir: Direction,
    m: FieldMap,
) -> usize
    requires { Searchable items count bytes.now payload.now decoded.now }
    ensures { Puts out.old at (check_text (fields_check payload.now decoded.now m) (list_text (list_in (searched_table protocol flow items count bytes.now) header payload.now decoded.now dir m))) out.new result }
{
    let a = first_in(
        protocol, flow, items, count, bytes, header, payload, decoded, dir, m,
    );
    match a.found {
        Ok(Found::Placed) => {
            let next = put_placement(out, at, a.placement);
            let starts = a.placement.starts;
            put_after(
                out, next, protocol, flow, items, count, bytes, header, payload, decoded, dir, m,
                starts,
            )
        }
        Ok(Found::Nothing) => put_word(out, at, b"none"),
        Err(r) => put_refused(out, at, r),
    }
}

// The first refusal that is due, or the list.
pub fn put_list<'a>(
    out: &mut [u8],
    at: usize,
    t: Table,
    p: &'a [u8],
    decoded: &'a [u8],
    dir: Direction,
    m: FieldMap,
) -> usize
    ensures { Puts out.old at (check_text (input_check t p.now decoded.now dir m) (list_text (placements_of t p.now decoded.now dir m))) out.new result }
{
    let formed = well_formed(t.name, t.len, t.items, t.count, &t.bytes, t.used);
    match check_input(formed, p, decoded) {
        Err(r) => put_refused(out, at, r),
        Ok(header) => {
            let payload = payload_of(p, header);
            put_seen(
                out, at, t.protocol, t.flow, t.items, t.count, &t.bytes, header, payload, decoded,
                dir, m,
            )
        }
    }
}
