// The records of a block of packets: how long one is, and what it says of its packet.
#![tactic(auto)]

ghost use Rattle.std.specs.Prelude.{◌≡◌, ◌≤◌, ◌+◌, length, leb, if◌then◌else◌};
ghost use Rattle.definitions.specs.Packet.{big_endian};
ghost use Rattle.definitions.specs.Blocks.{record_head, record_length, record_direction, record_field, record_fields, block_answered};

use definitions::books::Answered;
use definitions::packets::{Direction, FieldMap, Span};

// Bytes of a record before its packet.
pub const HEAD: usize = 30;

// The number of two bytes, big end first.
#[tactic(auto, using(crate::proofs::Pairs::pair_is))]
pub fn number_at(s: &[u8], at: usize) -> usize
    requires { at + 2 ≤ length s.now }
    ensures { result ≡ big_endian 2 s.now at }
{
    usize::from(s[at]) * 256 + usize::from(s[at + 1])
}

// Bytes of the record at the front.
pub fn record_length(s: &[u8]) -> usize
    requires { record_head ≤ length s.now }
    ensures { result ≡ record_length s.now }
{
    HEAD + number_at(s, 2) + number_at(s, 4)
}

// Where its packet comes from.
#[tactic(auto, unfolding(definitions::specs::Blocks::record_direction))]
pub fn record_direction(s: &[u8]) -> Direction
    requires { record_head ≤ length s.now }
    ensures { result ≡ record_direction s.now }
{
    if s[0] == 0 {
        Direction::Client
    } else {
        Direction::Server
    }
}

// A field of its map, by the weight of its bit and the place of its numbers.
#[tactic(auto, unfolding(definitions::specs::Blocks::record_field))]
fn record_field(s: &[u8], weight: u8, at: usize) -> Option<Span>
    requires { (1 ≤ weight) × ((record_head ≤ length s.now) × (at + 4 ≤ record_head)) }
    ensures { result ≡ record_field s.now weight at }
{
    if s[1] / weight % 2 == 1 {
        Some(Span {
            start: number_at(s, at),
            len: number_at(s, at + 2),
        })
    } else {
        None
    }
}

// The map of its packet's fields.
#[tactic(auto, unfolding(definitions::specs::Blocks::record_fields))]
pub fn record_fields(s: &[u8]) -> FieldMap
    requires { record_head ≤ length s.now }
    ensures { result ≡ record_fields s.now }
{
    FieldMap {
        body: record_field(s, 1, 6),
        banner: record_field(s, 2, 10),
        file: record_field(s, 4, 14),
        uri: record_field(s, 8, 18),
        header: record_field(s, 16, 22),
        host: record_field(s, 32, 26),
    }
}

// Bytes of the record at the front, if it is whole.
#[tactic(auto, using(crate::proofs::Counts::headless))]
fn whole_record(s: &[u8]) -> Option<usize>
    ensures { result ≡ (if leb (record_length s.now) (length s.now) then Some (record_length s.now) else None) }
{
    if s.len() < HEAD {
        return None;
    }
    let len = record_length(s);
    if len <= s.len() { Some(len) } else { None }
}

// How many whole records there are, up to n of them, and their bytes.
pub fn count_records(block: &[u8], n: usize) -> Answered
    ensures { result ≡ block_answered block.now n }
{
    let mut bytes = 0;
    for packets in 0..n {
        let Some(len) = whole_record(&block[bytes..]) else {
            return Answered { packets, bytes };
        };
        bytes += len;
    }
    Answered { packets: n, bytes }
}
