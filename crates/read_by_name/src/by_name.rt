// The option that a name stands for, read after that name.
ghost use Rattle.std.specs.Prelude.{ℕ, ◌≤◌, List, ◌≡◌, length};
ghost use Rattle.definitions.specs.Limits.{document_limits};
ghost use Rattle.read_value.specs.Values.{pattern_bytes_of};
ghost use Rattle.read_names.specs.Names.{form_of};
ghost use Rattle.read_by_name.specs.Parsing.{Single, ReadsAlone, Parses};

use crate::lists::{address_option, name_option, pattern_option};
use crate::parsed::ParsedOption;
use definitions::limits::{MAX_BYTE, MAX_WORD};
use definitions::table::{HeaderField, NumberField, Side};
use read_byte_tests::byte_option;
use read_names::options::OptionName;
use read_options::heads::{flow_option, protocol_option};
use read_options::modifiers::{context_option, distance_option, no_case_option, within_option};
use read_tests::tests::{
    at_option, field_option, number_option, same_ip_option, size_option, ttl_option,
};
use read_value::{Value, no_addresses};
use scan_cursors::Scanned;

// The value of an option with nothing beside it, read after its name. Left to the last arm is only within.
fn value_by_name(s: &[u8], at: usize, o: OptionName) -> Scanned<Value>
    requires { (at ≤ length s.now) × Single o }
    ensures { ReadsAlone (form_of o) s.now at result }
{
    match o {
        OptionName::Protocol => protocol_option(s, at),
        OptionName::Flow => flow_option(s, at),
        OptionName::SameIp => same_ip_option(s, at),
        OptionName::IpId => number_option(s, at, NumberField::IpId, MAX_WORD),
        OptionName::SourcePort => number_option(s, at, NumberField::SourcePort, MAX_WORD),
        OptionName::DestinationPort => number_option(s, at, NumberField::DestinationPort, MAX_WORD),
        OptionName::IpTos => number_option(s, at, NumberField::Tos, MAX_BYTE),
        OptionName::IpTtl => ttl_option(s, at),
        OptionName::HeaderTotalLength => field_option(s, at, HeaderField::TotalLength, MAX_WORD),
        OptionName::HeaderId => field_option(s, at, HeaderField::Id, MAX_WORD),
        OptionName::HeaderChecksum => field_option(s, at, HeaderField::Checksum, MAX_WORD),
        OptionName::HeaderTtl => field_option(s, at, HeaderField::Ttl, MAX_BYTE),
        OptionName::DataSize => size_option(s, at),
        OptionName::DataAt => at_option(s, at),
        OptionName::ByteTest => byte_option(s, at),
        OptionName::Context => context_option(s, at),
        OptionName::NoCase => no_case_option(s, at),
        OptionName::Distance => distance_option(s, at),
        _ => within_option(s, at),
    }
}

// An option with nothing beside its value, read after its name.
fn plain_by_name(s: &[u8], at: usize, o: OptionName, used: usize) -> ParsedOption
    requires { (at ≤ length s.now) × Single o }
    ensures { (bytes : List ℕ) → Parses (form_of o) s.now at (pattern_bytes_of bytes used) (pattern_bytes_of bytes result.used) result }
{
    let v = value_by_name(s, at, o);
    ParsedOption {
        value: v.value,
        list: no_addresses(),
        used,
        cursor: v.cursor,
    }
}

// An option read after its name, by the option's form.
pub fn option_by_name(
    s: &[u8],
    at: usize,
    o: OptionName,
    bytes: &mut [u8],
    used: usize,
) -> ParsedOption
    requires { (at ≤ length s.now) × (length s.now ≤ document_limits.text) × (used ≤ at) × (length bytes.old ≡ document_limits.room) }
    ensures { Parses (form_of o) s.now at (pattern_bytes_of bytes.old used) (pattern_bytes_of bytes.new result.used) result }
{
    match o {
        OptionName::Name => name_option(s, at, used),
        OptionName::SourceAddress => address_option(s, at, Side::Source, used),
        OptionName::DestinationAddress => address_option(s, at, Side::Destination, used),
        OptionName::Pattern => pattern_option(s, at, bytes, used),
        _ => plain_by_name(s, at, o, used),
    }
}
