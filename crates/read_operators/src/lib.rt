// The operators of tests, and the mask, from a cursor on.
#![tactic(auto)]

ghost use Rattle.std.specs.Prelude.{◌≤◌, ◌<◌};
ghost use Rattle.forms.specs.Pieces.{opt, literal_as};
ghost use Rattle.definitions.specs.Forms.{less_or_greater, comparison};
ghost use Rattle.definitions.specs.declared.table.Order.TheVariants.{Equal};
ghost use Rattle.scan_bytes.specs.Capped.{number_cap};
ghost use Rattle.scan_cursors.specs.Reads.{Inside, Reads};
ghost use Rattle.read_operators.specs.Operators.{size_order, masked};

use definitions::table::{Operator, Order};
use scan_cursors::{Cursor, Scanned};
use scan_steps::literals::{next_is, then_literal, then_literal_as, then_spaces};
use scan_steps::numbers::then_numeral;

// Optional `<` or `>`.
pub fn then_order(s: &[u8], c: Cursor) -> Scanned<Order>
    requires { Inside s.now c }
    ensures { Reads (opt Equal less_or_greater) s.now c result.value result.cursor }
{
    if next_is(s, c, b'<') {
        return then_literal_as(s, c, b'<', Order::Less);
    }
    if next_is(s, c, b'>') {
        return then_literal_as(s, c, b'>', Order::Greater);
    }
    Scanned {
        value: Order::Equal,
        cursor: c,
    }
}

// Optional `<`, `>` or `=`.
pub fn then_size_order(s: &[u8], c: Cursor) -> Scanned<Order>
    requires { Inside s.now c }
    ensures { Reads size_order s.now c result.value result.cursor }
{
    if next_is(s, c, b'=') {
        return then_literal_as(s, c, b'=', Order::Equal);
    }
    then_order(s, c)
}

// One operator, or the other with `=`.
fn then_or_equal(s: &[u8], c: Cursor, alone: Operator, equal: Operator) -> Scanned<Operator>
    requires { Inside s.now c }
    ensures { Reads (opt alone (literal_as 61 equal)) s.now c result.value result.cursor }
{
    if next_is(s, c, b'=') {
        return then_literal_as(s, c, b'=', equal);
    }
    Scanned {
        value: alone,
        cursor: c,
    }
}

// One of `= != < > <= >=`.
pub fn then_comparison(s: &[u8], c: Cursor) -> Scanned<Operator>
    requires { Inside s.now c }
    ensures { Reads comparison s.now c result.value result.cursor }
{
    if next_is(s, c, b'=') {
        return then_literal_as(s, c, b'=', Operator::Equal);
    }
    if next_is(s, c, b'!') {
        let not = then_literal(s, c, b'!');
        return then_literal_as(s, not, b'=', Operator::Unequal);
    }
    if next_is(s, c, b'<') {
        let less = then_literal(s, c, b'<');
        return then_or_equal(s, less, Operator::Less, Operator::AtMost);
    }
    let greater = then_literal(s, c, b'>');
    then_or_equal(s, greater, Operator::Greater, Operator::AtLeast)
}

// Optional `&` and a mask up to a limit, which is the full mask.
pub fn then_mask(s: &[u8], c: Cursor, limit: u64) -> Scanned<u64>
    requires { Inside s.now c × (limit < number_cap) }
    ensures { Reads (masked limit) s.now c result.value result.cursor × (result.value ≤ limit) }
{
    if next_is(s, c, b'&') {
        let and = then_literal(s, c, b'&');
        let from = then_spaces(s, and);
        let n = then_numeral(s, from, limit);
        return Scanned {
            cursor: then_spaces(s, n.cursor),
            ..n
        };
    }
    Scanned {
        value: limit,
        cursor: c,
    }
}
