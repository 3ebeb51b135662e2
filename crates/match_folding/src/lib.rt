// Letter folding by a table: bytes are compared under no_case by their entries.
#![tactic(auto)]

ghost use Rattle.match_folding.specs.Folding.{FoldTable};

use crate::table::FOLDED;

mod table;

// The table. Each call lays it out anew, so whoever compares in a loop asks once and lends what it got.
pub fn fold_table() -> [u8; 256]
    ensures { FoldTable result }
{
    FOLDED
}
