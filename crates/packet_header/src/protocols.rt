// The protocols that have a transport header here, and which of them have ports.
ghost use Rattle.std.specs.Prelude.{◌≡◌};
ghost use Rattle.definitions.specs.Packet.{has_ports};

pub const ICMP: u8 = 1;

pub const TCP: u8 = 6;

pub const UDP: u8 = 17;

// TCP and UDP have ports.
pub fn has_ports(protocol: u8) -> bool
    ensures { result ≡ has_ports protocol }
{
    matches!(protocol, TCP | UDP)
}
