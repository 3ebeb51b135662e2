// Option names: where a name ends, and the option of document 01's table that has it.
#![tactic(auto)]

ghost use Rattle.std.specs.Prelude.{◌≡◌, true, ◌+◌, ◌-◌, ◌≤◌, length, take, drop};
ghost use Rattle.forms.specs.Bytes.{same_word, run};
ghost use Rattle.definitions.specs.Options.{in_name};
ghost use Rattle.read_names.specs.Names.{option_names, no_capitals, option_order, option_named};

use crate::options::OptionName;
use definitions::limits::OPTIONS;
use scan_bytes::bytes::Class;
use scan_bytes::runs::run_of;

pub mod options;

// The table: each option beside its name.
const ROWS: [(&[u8], OptionName); OPTIONS] = [
    (b"name", OptionName::Name),
    (b"protocol", OptionName::Protocol),
    (b"flow", OptionName::Flow),
    (b"src_addr", OptionName::SourceAddress),
    (b"dst_addr", OptionName::DestinationAddress),
    (b"same_ip", OptionName::SameIp),
    (b"ip_id", OptionName::IpId),
    (b"src_port", OptionName::SourcePort),
    (b"dst_port", OptionName::DestinationPort),
    (b"ip_tos", OptionName::IpTos),
    (b"ip_ttl", OptionName::IpTtl),
    (b"ip.total_length", OptionName::HeaderTotalLength),
    (b"ip.id", OptionName::HeaderId),
    (b"ip.checksum", OptionName::HeaderChecksum),
    (b"ip.ttl", OptionName::HeaderTtl),
    (b"data_size", OptionName::DataSize),
    (b"data_at", OptionName::DataAt),
    (b"byte_test", OptionName::ByteTest),
    (b"pattern", OptionName::Pattern),
    (b"context", OptionName::Context),
    (b"no_case", OptionName::NoCase),
    (b"distance", OptionName::Distance),
    (b"within", OptionName::Within),
];

// The place after the longest run of a name's bytes.
pub fn name_end(s: &[u8], at: usize) -> usize
    requires { at ≤ length s.now }
    ensures { result ≡ at + run in_name (drop at s.now) }
{
    run_of(s, at, Class::NameByte)
}

// Whether the bytes are the word, which is written in small letters; the letter case of the bytes is ignored.
fn same_word(x: &[u8], w: &[u8]) -> bool
    requires { no_capitals w.now ≡ true }
    ensures { result ≡ same_word x.now w.now }
{
    x.eq_ignore_ascii_case(w)
}

// The option of the first row of the table whose name stands between two places.
pub fn option_named(s: &[u8], from: usize, to: usize) -> Option<OptionName>
    requires { (from ≤ to) × (to ≤ length s.now) }
    ensures { result ≡ option_named option_order option_names (take (to - from) (drop from s.now)) }
{
    for (name, option) in &ROWS {
        if same_word(&s[from..to], name) {
            return Some(*option);
        }
    }
    None
}
