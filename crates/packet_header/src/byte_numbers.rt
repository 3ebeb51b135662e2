// The number of some bytes of a packet or a field: big end first, as header fields are, or little.
ghost use Rattle.std.specs.Prelude.{◌≡◌, reverse, ◌≤◌, length};
ghost use Rattle.definitions.specs.Packet.{big_endian};
ghost use Rattle.definitions.specs.Tests.{big_end_first};

use crate::big_endian::be_at;

// The number that up to four bytes write, little end first: read from the last byte on.
fn le_all(d: &[u8]) -> u64
    requires { length d.now ≤ 4 }
    ensures { result ≡ big_endian (length d.now) (reverse d.now) 0 }
{
    let mut v = 0;
    for b in d.iter().rev() {
        v = v * 256 + u64::from(*b);
    }
    v
}

// The number that up to four bytes write, big end first or little.
pub fn number_of(d: &[u8], little: bool) -> u64
    requires { length d.now ≤ 4 }
    ensures { result ≡ big_endian (length d.now) (big_end_first little d.now) 0 }
{
    if little {
        le_all(d)
    } else {
        be_at(d, 0, d.len())
    }
}
