// Header fields are read by one function over their width; after the bytes' end stand zeros, as in the definitions.
ghost use Rattle.std.specs.Prelude.{◌≡◌, ◌≤◌, get_or};
ghost use Rattle.definitions.specs.Packet.{big_endian};

fn byte_at(d: &[u8], at: usize) -> u8
    ensures { result ≡ get_or d.now at 0 }
{
    d.get(at).copied().unwrap_or(0)
}

// The number that the n bytes at a place write, big end first.
pub fn be_at(d: &[u8], at: usize, n: usize) -> u64
    requires { (at ≤ 255) × (n ≤ 4) }
    ensures { result ≡ big_endian n d.now at }
{
    let mut v = 0;
    for i in 0..n {
        v = v * 256 + u64::from(byte_at(d, at + i));
    }
    v
}

// The number of one byte at a place.
pub fn be8(d: &[u8], at: usize) -> u8
    requires { at ≤ 255 }
    ensures { result ≡ big_endian 1 d.now at }
{
    byte_at(d, at)
}

// The number of two bytes at a place.
pub fn be16(d: &[u8], at: usize) -> u16
    requires { at ≤ 255 }
    ensures { result ≡ big_endian 2 d.now at }
{
    be_at(d, at, 2) as u16
}

// The number of four bytes at a place.
pub fn be32(d: &[u8], at: usize) -> u32
    requires { at ≤ 255 }
    ensures { result ≡ big_endian 4 d.now at }
{
    be_at(d, at, 4) as u32
}
