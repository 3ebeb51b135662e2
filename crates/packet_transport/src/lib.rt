// What stands after the IP header of a datagram: the transport header's length, ports, and refusal 34.
#![tactic(auto)]

ghost use Rattle.std.specs.Prelude.{◌≡◌, ◌≤◌, length};
ghost use Rattle.definitions.specs.Packet.{protocol_of, after_header, tcp_words, transport_length, port_at, tcp_short, transport_short};

use packet_header::big_endian::{be8, be16};
use packet_header::ip::header_length;
use packet_header::protocols::{ICMP, TCP, UDP, has_ports};

// The datagram's protocol.
pub fn protocol_of(d: &[u8]) -> u8
    ensures { result ≡ protocol_of d.now }
{
    be8(d, 9)
}

// How many bytes stand after the IP header.
fn left_after(d: &[u8]) -> usize
    ensures { result ≡ length (after_header d.now) }
{
    d.len().saturating_sub(header_length(d))
}

// The TCP header's offset field, in words.
#[tactic(auto, using(packet_header::proofs::Widths::be_drop))]
fn tcp_words(d: &[u8]) -> u8
    ensures { (result ≡ tcp_words d.now) × (result ≤ 15) }
{
    be8(d, header_length(d) + 12) / 16
}

// The length of the transport header: TCP's own, 8 bytes for UDP and ICMP, none for other protocols.
pub fn transport_length(d: &[u8]) -> usize
    ensures { (result ≡ transport_length d.now) × (result ≤ 60) }
{
    match protocol_of(d) {
        TCP => usize::from(tcp_words(d)) * 4,
        UDP | ICMP => 8,
        _ => 0,
    }
}

// The port at a place after the IP header; 0 where the protocol has none.
#[tactic(auto, using(packet_header::proofs::Widths::be_drop))]
pub fn port_at(d: &[u8], at: usize) -> u16
    requires { at ≤ 2 }
    ensures { result ≡ port_at d.now at }
{
    if has_ports(protocol_of(d)) {
        be16(d, header_length(d) + at)
    } else {
        0
    }
}

fn tcp_short(d: &[u8]) -> bool
    ensures { result ≡ tcp_short d.now }
{
    let left = left_after(d);
    let words = tcp_words(d);
    left < 20 || words < 5 || left < usize::from(words) * 4
}

// 34: the transport header does not fit into the datagram, or TCP's is too short.
pub fn transport_short(d: &[u8]) -> bool
    ensures { result ≡ transport_short d.now }
{
    match protocol_of(d) {
        TCP => tcp_short(d),
        UDP | ICMP => left_after(d) < 8,
        _ => false,
    }
}
