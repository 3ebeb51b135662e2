// Where a packet comes from: `client` or `server`.
ghost use Rattle.std.specs.Prelude.{◌≡◌};
ghost use Rattle.line_packets.specs.Directions.{parsed_direction};

use definitions::packets::Direction;
use line_parts::is_word;

// The direction of its word; none for another.
pub fn parse_direction(s: &[u8]) -> Option<Direction>
    ensures { result ≡ parsed_direction s.now }
{
    if is_word(s, b"client") {
        return Some(Direction::Client);
    }
    if is_word(s, b"server") {
        return Some(Direction::Server);
    }
    None
}
