// Canonical text of byte_test: the value in decimal, `relative` and `little` where they are said.
#![tactic(auto)]

ghost use Rattle.std.specs.Prelude.{[]};
ghost use Rattle.definitions.specs.declared.table.Item.TheVariants as item;
ghost use Rattle.definitions.specs.Canonical.{comparison_text, test_text};
ghost use Rattle.write_bytes.specs.Puts.{Puts};

use definitions::table::ByteTest;
use table_limits::byte_count;
use write_bytes::{put, put_decimal, put_if, put_word};
use write_keywords::{byte_operator_keyword, put_keyword};

// What a byte test compares: byte count, operator and value, each with its comma.
fn put_comparison(out: &mut [u8], at: usize, t: ByteTest) -> usize
    ensures { Puts out.old at (comparison_text t) out.new result }
{
    let a1 = put_decimal(out, at, byte_count(t.width));
    let a2 = put(out, a1, b',');
    let a3 = put_keyword(out, a2, byte_operator_keyword(t.operator));
    let a4 = put(out, a3, b',');
    let a5 = put_decimal(out, a4, t.value as u64);
    put(out, a5, b',')
}

// The option that compares the number of some bytes, the value in decimal.
pub fn put_byte_test(out: &mut [u8], at: usize, t: ByteTest) -> usize
    ensures { Puts out.old at (test_text (item.Byte t) []) out.new result }
{
    let a1 = put_word(out, at, b" --byte_test ");
    let a2 = put_comparison(out, a1, t);
    let a3 = put_decimal(out, a2, t.offset as u64);
    let a4 = put_if(out, a3, t.relative, b",relative");
    let a5 = put_if(out, a4, t.little, b",little");
    put(out, a5, b';')
}
