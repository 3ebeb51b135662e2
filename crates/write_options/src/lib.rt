// Canonical text of a table's options, option by option: any table, whatever numbers stand in it.
#![tactic(auto)]

ghost use Rattle.std.specs.Prelude.{◌≡◌, ◌≤◌, take};
ghost use Rattle.definitions.specs.OptionValues.{Name, Protocol};
ghost use Rattle.definitions.specs.Items.{kind_of};
ghost use Rattle.definitions.specs.Canonical.{item_options, slot_options, option_text, options_text};
ghost use Rattle.write_options.specs.Parts.{place_after};
ghost use Rattle.write_bytes.specs.Puts.{Puts};

use definitions::limits::{ITEMS, NAME_BYTES};
use definitions::table::{Item, Slot};
use write_byte_tests::put_byte_test;
use write_bytes::limits::at_most;
use write_bytes::{put, put_decimal, put_front, put_word};
use write_patterns::put_pattern;
use write_tests::{
    put_address_test, put_at_test, put_field_test, put_number_test, put_size_test, put_ttl_test,
};

// The option name: the first `len` bytes of the name, between quotes.
pub fn put_name(out: &mut [u8], at: usize, name: [u8; NAME_BYTES], len: usize) -> usize
    ensures { Puts out.old at (option_text (Name (take len name))) out.new result }
{
    let a1 = put_word(out, at, b" --name \"");
    let a2 = put_front(out, a1, &name, len);
    let a3 = put(out, a2, b'"');
    put(out, a3, b';')
}

// The option protocol, as a number.
pub fn put_protocol(out: &mut [u8], at: usize, p: u8) -> usize
    ensures { Puts out.old at (option_text (Protocol p)) out.new result }
{
    let a1 = put_word(out, at, b" --protocol ");
    let a2 = put_decimal(out, a1, p as u64);
    put(out, a2, b';')
}

// An item's options; `b` are the pattern bytes from its own on.
fn put_slot(out: &mut [u8], at: usize, slot: Slot, b: &[u8]) -> usize
    ensures { Puts out.old at (options_text (item_options (kind_of slot.item) slot b.now)) out.new result }
{
    match slot.item {
        Item::Unused => at,
        Item::Address(a) => put_address_test(out, at, a, slot.addresses),
        Item::SameIp => put_word(out, at, b" --same_ip;"),
        Item::Number(t) => put_number_test(out, at, t),
        Item::Ttl(t) => put_ttl_test(out, at, t),
        Item::Field(t) => put_field_test(out, at, t),
        Item::Size(t) => put_size_test(out, at, t),
        Item::At(t) => put_at_test(out, at, t),
        Item::Byte(t) => put_byte_test(out, at, t),
        Item::Pattern(p) => put_pattern(out, at, p, b),
    }
}

// Where the next item's pattern bytes start.
fn place_after(slot: Slot, from: usize, len: usize) -> usize
    requires { from ≤ len }
    ensures { result ≡ place_after (kind_of slot.item) from len }
{
    match slot.item {
        Item::Pattern(p) => from + at_most(p.len, len - from),
        _ => from,
    }
}

// The options of the first `count` items, whose pattern bytes stand one after the other.
pub fn put_items(
    out: &mut [u8],
    at: usize,
    items: [Slot; ITEMS],
    count: usize,
    bytes: &[u8],
) -> usize
    ensures { Puts out.old at (options_text (slot_options (take count items) bytes.now)) out.new result }
{
    let n = at_most(count, ITEMS);
    let mut next = at;
    let mut from = 0;
    for slot in &items[..n] {
        next = put_slot(out, next, *slot, &bytes[from..]);
        from = place_after(*slot, from, bytes.len());
    }
    next
}
