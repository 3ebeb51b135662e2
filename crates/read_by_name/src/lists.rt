// The options whose values are lists: name, addresses and pattern.
ghost use Rattle.std.specs.Prelude.{◌≡◌, List, ℕ, ◌≤◌, length};
ghost use Rattle.definitions.specs.Limits.{document_limits};
ghost use Rattle.definitions.specs.Forms.{name_form, address_form, pattern_form};
ghost use Rattle.read_value.specs.Values.{pattern_bytes_of};
ghost use Rattle.read_by_name.specs.Parsing.{Parses};

use crate::parsed::ParsedOption;
use definitions::table::{AddressTest, Side};
use read_addresses::addresses::{AddressList, then_addresses};
use read_quoted::patterns::then_pattern;
use read_quoted::quoted_names::then_name;
use read_value::{Value, no_addresses};
use scan_pieces::literals::gap_at;
use scan_steps::literals::{then_closing, then_optional_literal};

// The option name.
pub fn name_option(s: &[u8], at: usize, used: usize) -> ParsedOption
    requires { at ≤ length s.now }
    ensures { (bytes : List ℕ) → Parses name_form s.now at (pattern_bytes_of bytes used) (pattern_bytes_of bytes result.used) result }
{
    let c = gap_at(s, at);
    let n = then_name(s, c);
    ParsedOption {
        value: Value::Name(n.value.start, n.value.len),
        list: no_addresses(),
        used,
        cursor: then_closing(s, n.cursor),
    }
}

// The options src_addr and dst_addr, whose side the caller names.
pub fn address_option(s: &[u8], at: usize, side: Side, used: usize) -> ParsedOption
    requires { at ≤ length s.now }
    ensures { (bytes : List ℕ) → Parses (address_form side) s.now at (pattern_bytes_of bytes used) (pattern_bytes_of bytes result.used) result }
{
    let c = gap_at(s, at);
    let m = then_optional_literal(s, c, b'!');
    let l = then_addresses(s, m.cursor);
    let AddressList { list, count } = l.value;
    ParsedOption {
        value: Value::Addresses(AddressTest {
            side,
            negated: m.value,
            count,
        }),
        list,
        used,
        cursor: then_closing(s, l.cursor),
    }
}

// The option pattern; its bytes are stored after those in use.
pub fn pattern_option(s: &[u8], at: usize, bytes: &mut [u8], used: usize) -> ParsedOption
    requires { (at ≤ length s.now) × (length s.now ≤ document_limits.text) × (used ≤ at) × (length bytes.old ≡ document_limits.room) }
    ensures { Parses pattern_form s.now at (pattern_bytes_of bytes.old used) (pattern_bytes_of bytes.new result.used) result }
{
    let c = gap_at(s, at);
    let m = then_optional_literal(s, c, b'!');
    let p = then_pattern(s, m.cursor, bytes, used);
    ParsedOption {
        value: Value::Pattern(m.value, p.value.len),
        list: no_addresses(),
        used: p.value.used,
        cursor: then_closing(s, p.cursor),
    }
}
