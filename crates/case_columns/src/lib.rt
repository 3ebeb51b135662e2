// The column that a line of cases alone has, the query: `all`, `first`, or an earlier placement such as `(2,9)` or `()`.
#![tactic(auto)]

ghost use Rattle.std.specs.Prelude.{◌≡◌};
ghost use Rattle.case_columns.specs.Queries.{is_enclosed, parsed_starts, parsed_next, parsed_query};

use definitions::limits::PATTERNS;
use definitions::packets::{Placement, Start};
use line_numbers::decimals::parse_decimal;
use line_parts::{contains, is_word, part_after, part_before};
use match_starts::start_at;

// What is asked: all placements, the first, or the next one after a placement.
#[derive(Clone, Copy)]
pub enum Query {
    All,
    First,
    Next(Placement),
}

// The largest start.
const MAX_START: u64 = 18446744073709551615;

// Whether `(` is the first byte and `)` the last.
fn is_enclosed(s: &[u8]) -> bool
    ensures { result ≡ is_enclosed s.now }
{
    if !contains(s, b'(') {
        return false;
    }
    if !part_before(s, b'(').is_empty() {
        return false;
    }
    let rest = part_after(s, b'(');
    if !contains(rest, b')') {
        return false;
    }
    part_after(rest, b')').is_empty()
}

// The placement whose starts stand between the commas; none for other bytes, here and below. By place, as line_fields goes through its fields.
fn parse_starts(s: &[u8]) -> Option<Placement>
    ensures { result ≡ parsed_starts s.now }
{
    let mut starts = [Start { at: 0 }; PATTERNS];
    let mut count = 0;
    if s.is_empty() {
        return Some(Placement { count, starts });
    }
    let mut at = 0;
    while at <= s.len() {
        let e = part_before(&s[at..], b',');
        let n = parse_decimal(e, MAX_START)?;
        if PATTERNS <= count {
            return None;
        }
        starts[count] = start_at(n as usize);
        count += 1;
        at += e.len() + 1;
    }
    Some(Placement { count, starts })
}

// The starts between the brackets.
fn parse_next(s: &[u8]) -> Option<Placement>
    ensures { result ≡ parsed_next s.now }
{
    if !is_enclosed(s) {
        return None;
    }
    parse_starts(part_before(part_after(s, b'('), b')'))
}

// The query of a column.
pub fn parse_query(s: &[u8]) -> Option<Query>
    ensures { result ≡ parsed_query s.now }
{
    if is_word(s, b"all") {
        return Some(Query::All);
    }
    if is_word(s, b"first") {
        return Some(Query::First);
    }
    let placement = parse_next(s)?;
    Some(Query::Next(placement))
}
