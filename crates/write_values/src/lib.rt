// Values of tests as canonical text has them: an address and a mask. What it leaves out is empty.
#![tactic(auto)]

ghost use Rattle.definitions.specs.Canonical.{octets, address_text};
ghost use Rattle.write_values.specs.Parts.{mask_text};
ghost use Rattle.write_bytes.specs.Puts.{Puts};

use definitions::limits::MAX_PREFIX;
use definitions::table::{Address, FieldTest};
use table_limits::field_most;
use write_bytes::{put, put_decimal, put_word};

// Four numbers with dots between them.
fn put_octets(out: &mut [u8], at: usize, n: u32) -> usize
    ensures { Puts out.old at (octets n) out.new result }
{
    let a1 = put_decimal(out, at, (n / 16777216 % 256) as u64);
    let a2 = put(out, a1, b'.');
    let a3 = put_decimal(out, a2, (n / 65536 % 256) as u64);
    let a4 = put(out, a3, b'.');
    let a5 = put_decimal(out, a4, (n / 256 % 256) as u64);
    let a6 = put(out, a5, b'.');
    put_decimal(out, a6, (n % 256) as u64)
}

// An address in dots, and its prefix after a slash; the prefix /32 is left out.
pub fn put_address(out: &mut [u8], at: usize, a: Address) -> usize
    ensures { Puts out.old at (address_text a) out.new result }
{
    let a1 = put_octets(out, at, a.number);
    if a.prefix == MAX_PREFIX {
        return a1;
    }
    let a2 = put(out, a1, b'/');
    put_decimal(out, a2, a.prefix as u64)
}

// The mask of a field test after `&`; a full mask is left out.
pub fn put_mask(out: &mut [u8], at: usize, t: FieldTest) -> usize
    ensures { Puts out.old at (mask_text t) out.new result }
{
    if t.mask as u64 == field_most(t.field) {
        return at;
    }
    let a1 = put_word(out, at, b"& ");
    let a2 = put_decimal(out, a1, t.mask as u64);
    put(out, a2, b' ')
}
