// One IPv4 packet: refusals 30 to 34 in order, the datagram's header fields by value, and its payload as a part of the packet.
#![tactic(auto)]

ghost use Rattle.std.specs.Prelude.{◌≡◌};
ghost use Rattle.definitions.specs.Packet.{header_of, packet_answer};
ghost use Rattle.definitions.specs.Fields.{shown};
ghost use Rattle.definitions.specs.AnswerNumbers.{packet_numbers, packet_in_numbers};
ghost use Rattle.field_parts.specs.Parts.{PartOf};
ghost use Rattle.packet.specs.Datagram.{datagram_answer, span_between, payload_span, payload_part};

use definitions::answers::Refusal;
use definitions::packets::{PacketHeader, Span};
use field_parts::part_of;
use packet_header::big_endian::{be8, be16, be32};
use packet_header::ip::{
    buffer_too_long, header_length, is_fragment, not_ipv4, total_length, wrong_lengths,
};
use packet_transport::{port_at, protocol_of, transport_length, transport_short};

// The header fields of a datagram.
#[tactic(auto, unfolding(definitions::specs::Packet::header_of))]
fn header_of(d: &[u8]) -> PacketHeader
    ensures { result ≡ header_of d.now }
{
    PacketHeader {
        total: total_length(d),
        payload: header_length(d) + transport_length(d),
        protocol: protocol_of(d),
        tos: be8(d, 1),
        id: be16(d, 4),
        ttl: be8(d, 8),
        checksum: be16(d, 10),
        source: be32(d, 12),
        destination: be32(d, 16),
        sport: port_at(d, 0),
        dport: port_at(d, 2),
    }
}

// Refusals 33 and 34, which look at the datagram alone, or its header fields.
fn datagram_header(d: &[u8]) -> Result<PacketHeader, Refusal>
    ensures { result ≡ datagram_answer d.now }
{
    if is_fragment(d) {
        return Err(Refusal::Fragment);
    }
    if transport_short(d) {
        return Err(Refusal::Transport);
    }
    Ok(header_of(d))
}

// THE PACKET: the header fields of the datagram in a lent packet, or the first due of 30 to 34.
pub fn packet_header(p: &[u8], decoded: &[u8]) -> Result<PacketHeader, Refusal>
    ensures answer { result ≡ packet_answer p.now decoded.now }
    ensures numbers { packet_numbers result ≡ packet_in_numbers p.now decoded.now }
{
    if buffer_too_long(p, decoded) {
        return Err(Refusal::BufferLength);
    }
    if not_ipv4(p) {
        return Err(Refusal::NotIpv4);
    }
    if wrong_lengths(p) {
        return Err(Refusal::Lengths);
    }
    datagram_header(&p[..total_length(p)])
}

// From a start up to an end; no span where the end comes first.
fn span_between(start: usize, end: usize) -> Option<Span>
    ensures { result ≡ span_between start end }
{
    let len = end.checked_sub(start)?;
    Some(Span { start, len })
}

// The payload: the bytes from its start up to the total length, at their own place in the packet; padding is not payload. For header fields that are not
// this packet's: the same numbers' bytes where they lie in the packet, else the empty part at its start.
pub fn payload_of<'a>(p: &'a [u8], f: PacketHeader) -> &'a [u8]
    ensures bytes { result.now ≡ payload_part p.now f }
    ensures part { PartOf p.entry (shown (payload_span f) p.now) result }
{
    part_of(p, span_between(f.payload, f.total))
}
