// Canonical text of the tests, each an option with its value.
#![tactic(auto)]

mod addresses;

ghost use Rattle.std.specs.Prelude.{[], take};
ghost use Rattle.definitions.specs.declared.table.Item.TheVariants as item;
ghost use Rattle.definitions.specs.Canonical.{test_text};
ghost use Rattle.write_bytes.specs.Puts.{Puts};

use crate::addresses::put_bracketed;
use definitions::limits::ADDRESSES;
use definitions::table::{Address, AddressTest, AtTest, FieldTest, NumberTest, SizeTest, TtlTest};
use write_bytes::{put, put_decimal, put_if, put_word};
use write_keywords::{
    header_field_keyword, number_field_keyword, operator_keyword, order_keyword, put_keyword,
    side_keyword, size_field_keyword,
};
use write_values::put_mask;

// The option that tests a side's address against a list, negated or not.
pub fn put_address_test(
    out: &mut [u8],
    at: usize,
    t: AddressTest,
    list: [Address; ADDRESSES],
) -> usize
    ensures { Puts out.old at (test_text (item.Address t) (take t.count list)) out.new result }
{
    let a1 = put_word(out, at, b" --");
    let a2 = put_keyword(out, a1, side_keyword(t.side));
    let a3 = put(out, a2, b' ');
    let a4 = put_if(out, a3, t.negated, b"!");
    let a5 = put_bracketed(out, a4, list, t.count);
    put(out, a5, b';')
}

// The option that tests a number for equality.
pub fn put_number_test(out: &mut [u8], at: usize, t: NumberTest) -> usize
    ensures { Puts out.old at (test_text (item.Number t) []) out.new result }
{
    let a1 = put_word(out, at, b" --");
    let a2 = put_keyword(out, a1, number_field_keyword(t.field));
    let a3 = put(out, a2, b' ');
    let a4 = put_decimal(out, a3, t.number as u64);
    put(out, a4, b';')
}

// The option that compares the time to live.
pub fn put_ttl_test(out: &mut [u8], at: usize, t: TtlTest) -> usize
    ensures { Puts out.old at (test_text (item.Ttl t) []) out.new result }
{
    let a1 = put_word(out, at, b" --ip_ttl ");
    let a2 = put_keyword(out, a1, order_keyword(t.order));
    let a3 = put_decimal(out, a2, t.number as u64);
    put(out, a3, b';')
}

// The option that compares a field of the header, masked or not.
pub fn put_field_test(out: &mut [u8], at: usize, t: FieldTest) -> usize
    ensures { Puts out.old at (test_text (item.Field t) []) out.new result }
{
    let a1 = put_word(out, at, b" --");
    let a2 = put_keyword(out, a1, header_field_keyword(t.field));
    let a3 = put(out, a2, b' ');
    let a4 = put_mask(out, a3, t);
    let a5 = put_keyword(out, a4, operator_keyword(t.operator));
    let a6 = put(out, a5, b' ');
    let a7 = put_decimal(out, a6, t.number as u64);
    put(out, a7, b';')
}

// The option that compares the size of a part of the packet.
pub fn put_size_test(out: &mut [u8], at: usize, t: SizeTest) -> usize
    ensures { Puts out.old at (test_text (item.Size t) []) out.new result }
{
    let a1 = put_word(out, at, b" --data_size ");
    let a2 = put_keyword(out, a1, order_keyword(t.order));
    let a3 = put_decimal(out, a2, t.number as u64);
    let a4 = put_keyword(out, a3, size_field_keyword(t.field));
    put(out, a4, b';')
}

// The option that asks for a byte at a place, counted from the last match if relative.
pub fn put_at_test(out: &mut [u8], at: usize, t: AtTest) -> usize
    ensures { Puts out.old at (test_text (item.At t) []) out.new result }
{
    let a1 = put_word(out, at, b" --data_at ");
    let a2 = put_decimal(out, a1, t.number as u64);
    let a3 = put_if(out, a2, t.relative, b",relative");
    put(out, a3, b';')
}
