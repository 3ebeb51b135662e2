// The IP header: its numbers, and refusals 30 to 33.
ghost use Rattle.std.specs.Prelude.{◌≡◌, ◌||◌, not, ◌≤◌, length, ltb, eqb};
ghost use Rattle.definitions.specs.Limits.{max_packet, max_decoded};
ghost use Rattle.definitions.specs.Packet.{version_of, header_words, header_length, total_length, is_fragment};

use crate::big_endian::{be8, be16};
use definitions::limits::{DECODED_BYTES, PACKET_BYTES};

// The length of the IP header, in bytes.
pub fn header_length(d: &[u8]) -> usize
    ensures { (result ≡ header_length d.now) × (result ≤ 60) }
{
    usize::from(be8(d, 0) % 16) * 4
}

// The length of the datagram, as its header gives it.
pub fn total_length(d: &[u8]) -> usize
    ensures { result ≡ total_length d.now }
{
    usize::from(be16(d, 2))
}

// 30: more bytes are lent than a packet or a decoded buffer may have.
pub fn buffer_too_long(p: &[u8], decoded: &[u8]) -> bool
    ensures { result ≡ (ltb max_packet (length p.now) || ltb max_decoded (length decoded.now)) }
{
    PACKET_BYTES < p.len() || DECODED_BYTES < decoded.len()
}

// 31: fewer bytes than an IP header has, or another version.
pub fn not_ipv4(p: &[u8]) -> bool
    ensures { result ≡ (ltb (length p.now) 20 || not (eqb (version_of p.now) 4)) }
{
    p.len() < 20 || be8(p, 0) / 16 != 4
}

// 32: too few header words, a header longer than the datagram, or a datagram longer than the lent bytes.
pub fn wrong_lengths(p: &[u8]) -> bool
    ensures { result ≡ (ltb (header_words p.now) 5 || (ltb (total_length p.now) (header_length p.now) || ltb (length p.now) (total_length p.now))) }
{
    let total = total_length(p);
    be8(p, 0) % 16 < 5 || total < header_length(p) || p.len() < total
}

// 33: the more-fragments bit is set, or the offset is not 0.
pub fn is_fragment(d: &[u8]) -> bool
    ensures { result ≡ is_fragment d.now }
{
    let word = be16(d, 6);
    let more = word / 8192 % 2;
    let offset = word % 8192;
    more == 1 || offset != 0
}
