// The tests without addresses.
ghost use Rattle.std.specs.Prelude.{[], ◌≤◌, length};
ghost use Rattle.definitions.specs.Limits.{max_word};
ghost use Rattle.definitions.specs.Forms.{same_ip_form, ttl_form, size_form, at_form};
ghost use Rattle.read_tests.specs.Parts.{number_within, field_within};
ghost use Rattle.read_value.specs.Values.{option_value_of, Plain};
ghost use Rattle.scan_cursors.specs.Reads.{Reads};
ghost use Rattle.scan_cursors.specs.declared.Cursor.TheVariants.{Parsed};

use crate::commas::then_size_field;
use definitions::limits::{MAX_BYTE, MAX_WORD};
use definitions::table::{
    AtTest, FieldTest, HeaderField, Item, NumberField, NumberTest, SizeTest, TtlTest,
};
use read_operators::{then_comparison, then_mask, then_order, then_size_order};
use read_value::{Value, number_item};
use scan_cursors::Scanned;
use scan_pieces::literals::{closing_at, gap_at};
use scan_steps::literals::{then_closing, then_spaces};
use scan_steps::numbers::{then_number, then_numeral};
use scan_steps::words::then_comma_word;

// The option same_ip.
pub fn same_ip_option(s: &[u8], at: usize) -> Scanned<Value>
    requires { at ≤ length s.now }
    ensures { Reads same_ip_form s.now (Parsed at) (option_value_of s.now result.value [] []) result.cursor × Plain result.value }
{
    Scanned {
        value: Value::Test(Item::SameIp),
        cursor: closing_at(s, at),
    }
}

// ip_id, src_port, dst_port and ip_tos, whose limit the caller names.
pub fn number_option(s: &[u8], at: usize, field: NumberField, limit: u64) -> Scanned<Value>
    requires { (at ≤ length s.now) × (limit ≤ max_word) }
    ensures { Reads (number_within field limit) s.now (Parsed at) (option_value_of s.now result.value [] []) result.cursor × Plain result.value }
{
    let c = gap_at(s, at);
    let n = then_number(s, c, limit);
    let number = n.value as u16;
    Scanned {
        value: Value::Test(number_item(NumberTest { field, number })),
        cursor: then_closing(s, n.cursor),
    }
}

// The option ip_ttl.
pub fn ttl_option(s: &[u8], at: usize) -> Scanned<Value>
    requires { at ≤ length s.now }
    ensures { Reads ttl_form s.now (Parsed at) (option_value_of s.now result.value [] []) result.cursor × Plain result.value }
{
    let c = gap_at(s, at);
    let o = then_order(s, c);
    let n = then_number(s, o.cursor, MAX_BYTE);
    Scanned {
        value: Value::Test(Item::Ttl(TtlTest {
            order: o.value,
            number: n.value as u8,
        })),
        cursor: then_closing(s, n.cursor),
    }
}

// ip.total_length, ip.id, ip.checksum and ip.ttl, whose limit the caller names.
pub fn field_option(s: &[u8], at: usize, field: HeaderField, limit: u64) -> Scanned<Value>
    requires { (at ≤ length s.now) × (limit ≤ max_word) }
    ensures { Reads (field_within field limit) s.now (Parsed at) (option_value_of s.now result.value [] []) result.cursor × Plain result.value }
{
    let c = gap_at(s, at);
    let m = then_mask(s, c, limit);
    let o = then_comparison(s, m.cursor);
    let c = then_spaces(s, o.cursor);
    let n = then_numeral(s, c, limit);
    Scanned {
        value: Value::Test(Item::Field(FieldTest {
            field,
            mask: m.value as u16,
            operator: o.value,
            number: n.value as u16,
        })),
        cursor: then_closing(s, n.cursor),
    }
}

// The option data_size.
pub fn size_option(s: &[u8], at: usize) -> Scanned<Value>
    requires { at ≤ length s.now }
    ensures { Reads size_form s.now (Parsed at) (option_value_of s.now result.value [] []) result.cursor × Plain result.value }
{
    let c = gap_at(s, at);
    let o = then_size_order(s, c);
    let n = then_number(s, o.cursor, MAX_WORD);
    let f = then_size_field(s, n.cursor);
    Scanned {
        value: Value::Test(Item::Size(SizeTest {
            order: o.value,
            number: n.value as u16,
            field: f.value,
        })),
        cursor: then_closing(s, f.cursor),
    }
}

// The option data_at.
pub fn at_option(s: &[u8], at: usize) -> Scanned<Value>
    requires { at ≤ length s.now }
    ensures { Reads at_form s.now (Parsed at) (option_value_of s.now result.value [] []) result.cursor × Plain result.value }
{
    let c = gap_at(s, at);
    let n = then_number(s, c, MAX_WORD);
    let m = then_comma_word(s, n.cursor, b"relative");
    Scanned {
        value: Value::Test(Item::At(AtTest {
            number: n.value as u16,
            relative: m.value,
        })),
        cursor: then_closing(s, m.cursor),
    }
}
