// A table's protocol and flow.
ghost use Rattle.std.specs.Prelude.{◌≡◌, ◌&&◌, eqb};
ghost use Rattle.definitions.specs.Tests.{flow_holds};

use definitions::packets::{Direction, PacketHeader};
use definitions::table::Flow;

// Flow, if given.
pub fn flow_holds(flow: Flow, dir: Direction) -> bool
    ensures { result ≡ flow_holds flow dir }
{
    match flow {
        Flow::Any => true,
        Flow::FromClient => dir == Direction::Client,
        Flow::FromServer => dir == Direction::Server,
    }
}

// The protocol is equal, and flow if given.
pub fn head_holds(protocol: u8, flow: Flow, f: PacketHeader, dir: Direction) -> bool
    ensures { result ≡ (eqb f.protocol protocol && flow_holds flow dir) }
{
    f.protocol == protocol && flow_holds(flow, dir)
}
