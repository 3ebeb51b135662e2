// What is checked before any field or item is looked at: refusals 20 and 30 to 34, in this order.
#![tactic(auto)]

ghost use Rattle.std.specs.Prelude.{◌≡◌};
ghost use Rattle.match_checks.specs.InputChecks.{input_header};

use definitions::answers::Refusal;
use definitions::packets::PacketHeader;
use packet::packet_header;

// The header fields of the packet's datagram, or the first refusal that is due; `formed` is whether the table is well formed.
pub fn check_input<'a>(
    formed: bool,
    p: &'a [u8],
    decoded: &'a [u8],
) -> Result<PacketHeader, Refusal>
    ensures { result ≡ input_header formed p.now decoded.now }
{
    if !formed {
        return Err(Refusal::IllFormed);
    }
    packet_header(p, decoded)
}
