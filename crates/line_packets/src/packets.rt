// The four columns of a packet: where it comes from, its bytes, the map of its fields, the bytes of its decoded buffer.
ghost use Rattle.std.specs.Prelude.{◌≡◌};
ghost use Rattle.line_packets.specs.Packets.{parsed_packet};

use crate::directions::parse_direction;
use definitions::packets::{Direction, FieldMap};
use line_fields::field_maps::parse_map;
use line_numbers::hex_pairs::is_hex_pairs;

// What the columns say beside the bytes of packet and buffer.
#[derive(Clone, Copy)]
pub struct PacketColumns {
    pub direction: Direction,
    pub fields: FieldMap,
}

// What the four columns say, if each is of its form.
pub fn parse_packet(
    origin: &[u8],
    packet: &[u8],
    fields: &[u8],
    decoded: &[u8],
) -> Option<PacketColumns>
    ensures { result ≡ parsed_packet origin.now packet.now fields.now decoded.now }
{
    let direction = parse_direction(origin)?;
    if !is_hex_pairs(packet) {
        return None;
    }
    let fields = parse_map(fields)?;
    if !is_hex_pairs(decoded) {
        return None;
    }
    Some(PacketColumns { direction, fields })
}
