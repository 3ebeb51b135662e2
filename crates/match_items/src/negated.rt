// Negated patterns.
ghost use Rattle.std.specs.Prelude.{◌≡◌};
ghost use Rattle.definitions.specs.Placements.{unmatched_holds};
ghost use Rattle.definitions.specs.declared.packets.PacketHeader.{PacketHeader};
ghost use Rattle.fields.specs.Seen.{seen};
ghost use Rattle.match_items.specs.Bounds.{Bounded};

use definitions::packets::{FieldMap, Match};
use definitions::table::Pattern;
use fields::{field_of, is_present};
use match_patterns::nowhere::lies_nowhere;

// A negated pattern with the bytes `b` holds if its field is present and it lies nowhere there.
#[tactic(auto, using(crate::proofs::Placing::measured, crate::proofs::Placing::nowhere_absent, crate::proofs::Placing::nowhere_present))]
pub fn negated_holds<'a>(
    payload: &'a [u8],
    decoded: &'a [u8],
    m: FieldMap,
    p: Pattern,
    b: &[u8],
    last: Option<Match>,
) -> bool
    requires { Bounded payload.now decoded.now p b.now last }
    ensures { (f : PacketHeader) → result ≡ unmatched_holds (seen f payload.now decoded.now m) p b.now last }
{
    is_present(m, p.context) && lies_nowhere(p, b, last, field_of(payload, decoded, m, p.context))
}
