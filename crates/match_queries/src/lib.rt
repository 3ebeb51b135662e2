// A LIST OF QUERIES (document 01's "asks") of one table, packet, decoded buffer, direction and map: the matcher's "first" and "next", called one after the
// other as a caller does, every answer written down as document 01 compares answers. Demand 3 is one claim about the whole list.
#![tactic(auto)]

ghost use Rattle.std.specs.Prelude.{◌≡◌};
ghost use Rattle.definitions.specs.Queries.{query_answer};
ghost use Rattle.match_queries.specs.Runs.{query_of_byte, room, written};

use definitions::answers::{Answer, Query};
use definitions::packets::{Direction, FieldMap, Placement};
use definitions::table::Table;
use match_numbers::{NUMBERS, put_answer};

// A query of the list that is lent, a byte: 0 is "first", any other "next".
fn query_of(b: u8) -> Query
    ensures { result ≡ query_of_byte b }
{
    if b == 0 { Query::First } else { Query::Next }
}

// One query: "first", or "next" after the placement held.
fn answer_to<'a>(
    t: Table,
    p: &'a [u8],
    decoded: &'a [u8],
    dir: Direction,
    m: FieldMap,
    held: Placement,
    query: Query,
) -> Answer
    ensures { result ≡ query_answer t p.now decoded.now dir m held query }
{
    match query {
        Query::First => matcher::first(t, p, decoded, dir, m),
        Query::Next => matcher::next(t, p, decoded, dir, m, held),
    }
}

// Runs the queries. Each "next" is handed the placement of the answer before it, at the start `held`. Where `out` has no room for the numbers of all
// answers, nothing is written and the answer is false.
pub fn run<'a>(
    t: Table,
    p: &'a [u8],
    decoded: &'a [u8],
    dir: Direction,
    m: FieldMap,
    held: Placement,
    queries: &[u8],
    out: &mut [u64],
) -> bool
    ensures value { result ≡ room queries.now out.old }
    ensures out_after { out.new ≡ written t p.now decoded.now dir m held queries.now out.old }
{
    if out.len() / NUMBERS < queries.len() {
        return false;
    }
    let mut h = held;
    for (i, query) in queries.iter().enumerate() {
        let a = answer_to(t, p, decoded, dir, m, h, query_of(*query));
        put_answer(out, i * NUMBERS, a);
        h = a.placement;
    }
    true
}
