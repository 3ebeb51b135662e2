// The numbers of items and addresses, each within its limit. What a number's type rules out needs no test.
#![tactic(auto)]

ghost use Rattle.std.specs.Prelude.{◌≡◌, leb, nat_abs};
ghost use Rattle.forms.specs.Bytes.{between};
ghost use Rattle.definitions.specs.Limits.{max_word, max_addresses};
ghost use Rattle.definitions.specs.ByteCounts.{byte_count};
ghost use Rattle.definitions.specs.Forms.{max_field};
ghost use Rattle.definitions.specs.WellFormed.{address_fits, address_unused, distance_fits, item_fits};

use definitions::limits::{ADDRESSES, MAX_BYTE, MAX_OFFSET, MAX_PREFIX, MAX_WORD};
use definitions::table::{
    Address, DistanceValue, FieldTest, HeaderField, Item, NumberField, NumberTest, Pattern, Width,
};

// An address test has 1 to 8 addresses.
pub fn count_fits(count: usize) -> bool
    ensures { result ≡ between 1 max_addresses count }
{
    (1..=ADDRESSES).contains(&count)
}

// Whether a number test is within the limit of its field. No text reads as an ip_id.
#[tactic(auto, unfolding(definitions::specs::WellFormed::item_fits))]
pub fn number_fits(a: NumberTest) -> bool
    ensures { result ≡ item_fits (Item.Number a) }
{
    match a.field {
        NumberField::IpId => false,
        NumberField::SourcePort | NumberField::DestinationPort => true,
        NumberField::Tos => a.number as u64 <= MAX_BYTE,
    }
}

// The most that stands in a header field, which is its full mask.
pub fn field_most(field: HeaderField) -> u64
    ensures { result ≡ max_field field }
{
    match field {
        HeaderField::TotalLength | HeaderField::Id | HeaderField::Checksum => MAX_WORD,
        HeaderField::Ttl => MAX_BYTE,
    }
}

// Whether mask and number of a field test are within the limit of its field.
#[tactic(auto, unfolding(definitions::specs::WellFormed::item_fits))]
pub fn field_fits(a: FieldTest) -> bool
    ensures { result ≡ item_fits (Item.Field a) }
{
    let most = field_most(a.field);
    a.mask as u64 <= most && a.number as u64 <= most
}

// How many bytes a byte test reads.
pub fn byte_count(width: Width) -> u64
    ensures { result ≡ byte_count width }
{
    match width {
        Width::One => 1,
        Width::Two => 2,
        Width::Four => 4,
    }
}

const OFFSET_LEAST: i32 = -MAX_OFFSET;

// A distance lies between -65535 and 65535.
fn offset_fits(offset: i32) -> bool
    ensures { result ≡ leb (nat_abs offset) max_word }
{
    OFFSET_LEAST <= offset && offset <= MAX_OFFSET
}

fn distance_fits(distance: Option<DistanceValue>) -> bool
    ensures { result ≡ distance_fits distance }
{
    distance.is_none_or(|d| offset_fits(d.offset))
}

// A pattern has a byte at least, and its distance fits; a within does by its type.
#[tactic(auto, unfolding(definitions::specs::WellFormed::item_fits))]
pub fn pattern_fits(p: Pattern) -> bool
    ensures { result ≡ item_fits (Item.Pattern p) }
{
    p.len != 0 && distance_fits(p.distance)
}

// The number of an address is within its limit by its type.
pub fn address_fits(a: Address) -> bool
    ensures { result ≡ address_fits a }
{
    a.prefix <= MAX_PREFIX
}

// An address that is not in use is zero.
pub fn address_unused(a: Address) -> bool
    ensures { result ≡ address_unused a }
{
    a.number == 0 && a.prefix == 0
}
