// What data_at and byte_test are counted from: the payload's start, or with relative the end of the last positive pattern before, in its field.
#![tactic(auto)]

ghost use Rattle.std.specs.Prelude.{◌≡◌};
ghost use Rattle.definitions.specs.Tests.{at_context, at_start};

use definitions::packets::Match;
use definitions::table::Context;

// The field that data_at and byte_test look into.
pub fn at_context(relative: bool, last: Option<Match>) -> Context
    ensures { result ≡ at_context relative last }
{
    match last {
        Some(m) if relative => m.context,
        _ => Context::Packet,
    }
}

// Where data_at and byte_test count from.
pub fn at_start(relative: bool, last: Option<Match>) -> usize
    ensures { result ≡ at_start relative last }
{
    match last {
        Some(m) if relative => m.end,
        _ => 0,
    }
}
