// A line of a trace as the record of a packet, put into a lent block.
#![tactic(auto)]

pub mod heads;

ghost use Rattle.std.specs.Option.{is_some, unwrap_or};
ghost use Rattle.std.specs.Prelude.{◌≡◌, true};
ghost use Rattle.definitions.specs.Cases.{pairs};
ghost use Rattle.write_bytes.specs.Puts.{Puts};
ghost use Rattle.line_numbers.specs.HexPairs.{is_hex};
ghost use Rattle.replay_laws.specs.Traces.{is_trace_line};
ghost use Rattle.replay_records.specs.RecordBytes.{record_bytes, line_bytes};

use crate::heads::put_head;
use line_numbers::hex_pairs::put_pairs;
use line_packets::packets::{PacketColumns, parse_packet};
use line_parts::{contains, part_after, part_before};

// Bytes of a line before its LF.
pub const TRACE_BYTES: usize = 16384;

// The record of columns that are of their form.
fn put_record(
    out: &mut [u8],
    at: usize,
    packet: &[u8],
    decoded: &[u8],
    located: PacketColumns,
) -> usize
    requires { (is_hex packet.now ≡ true) × (is_hex decoded.now ≡ true) }
    ensures { Puts out.old at (record_bytes (record { packet = pairs packet.entry.now; decoded = pairs decoded.now; direction = located.direction; fields = located.fields })) out.new result }
{
    let a1 = put_head(
        out,
        at,
        located.direction,
        located.fields,
        packet.len() / 2,
        decoded.len() / 2,
    );
    let a2 = put_pairs(out, a1, packet);
    put_pairs(out, a2, decoded)
}

// The record of a line, and the place after it; none if the line is bad, for which nothing is put.
pub fn put_line(out: &mut [u8], at: usize, line: &[u8]) -> Option<usize>
    ensures good { is_some result ≡ is_trace_line line.now }
    ensures put { Puts out.old at (line_bytes line.now) out.new (unwrap_or result at) }
{
    if TRACE_BYTES < line.len() {
        return None;
    }
    let r1 = part_after(line, b'\t');
    let r2 = part_after(r1, b'\t');
    if !contains(r2, b'\t') {
        return None;
    }
    let decoded = part_after(r2, b'\t');
    let packet = part_before(r1, b'\t');
    let located = parse_packet(
        part_before(line, b'\t'),
        packet,
        part_before(r2, b'\t'),
        decoded,
    )?;
    Some(put_record(out, at, packet, decoded, located))
}
