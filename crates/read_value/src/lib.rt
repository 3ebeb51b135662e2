// What the reader's scanning hands to its inserting, by value: an option's value, and the addresses beside it.
#![tactic(auto)]

ghost use Rattle.std.specs.Prelude.{◌≡◌, replicate};
ghost use Rattle.definitions.specs.Limits.{max_addresses};
ghost use Rattle.definitions.specs.Tables.{no_address};
ghost use Rattle.definitions.specs.Forms.{field_equals};
ghost use Rattle.definitions.specs.IpId.{renewed_item};
ghost use Rattle.definitions.specs.declared.table.HeaderField.TheVariants.{Id};

use definitions::limits::{ADDRESSES, MAX_WORD};
use definitions::table::{
    Address, AddressTest, Context, DistanceValue, FieldTest, Flow, HeaderField, Item, NumberField,
    NumberTest, Operator, WithinValue,
};

// A name is told by its first byte's place in the text and its length, a pattern by its length: its bytes are the last in use.
// The addresses of an address test stand beside the value.
#[derive(Clone, Copy)]
pub enum Value {
    Name(usize, usize),
    Protocol(u8),
    Flow(Flow),
    Test(Item),
    Addresses(AddressTest),
    Pattern(bool, usize),
    Context(Context),
    NoCase,
    Distance(DistanceValue),
    Within(WithinValue),
}

// All bits of a header field of two bytes.
const FULL_MASK: u16 = MAX_WORD as u16;

// The test `ip.id = N`.
fn id_equals(number: u16) -> Item
    ensures { result ≡ Item.Field (field_equals Id number) }
{
    let test = FieldTest {
        field: HeaderField::Id,
        mask: FULL_MASK,
        operator: Operator::Equal,
        number,
    };
    Item::Field(test)
}

// What the option ip_id, src_port, dst_port or ip_tos is read as: the number test, but ip_id as `ip.id = N`.
pub fn number_item(a: NumberTest) -> Item
    ensures { result ≡ renewed_item (Item.Number a) }
{
    match a.field {
        NumberField::IpId => id_equals(a.number),
        _ => Item::Number(a),
    }
}

// The addresses beside a value that has none.
pub fn no_addresses() -> [Address; ADDRESSES]
    ensures { result ≡ replicate max_addresses no_address }
{
    let none = Address {
        number: 0,
        prefix: 0,
    };
    [none; ADDRESSES]
}
