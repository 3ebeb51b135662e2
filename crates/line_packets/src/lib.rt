// What a line says of a packet: where it comes from, and that and the map of its fields with the bytes of packet and decoded buffer.
#![tactic(auto)]

pub mod directions;
pub mod packets;
