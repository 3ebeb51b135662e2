// What the slots of a table that are passed so far come to, and one slot more: the steps of the test of its items.
#![tactic(auto)]

ghost use Rattle.std.specs.Prelude.{◌≡◌, ◌≤◌};
ghost use Rattle.table_items.specs.Passing.{none_passed, may_follow, may_pass, Passable, past_item, ends_well};

use definitions::limits::{PATTERNS, TESTS};
use definitions::packets::Match;
use definitions::table::{Item, Pattern, Slot};
use table_references::usable::{is_usable, last_after};
use table_slots::slot_fits;

// How many patterns there are, how many of the bytes in use are not theirs, and the last positive pattern.
#[derive(Clone, Copy)]
pub struct Passed {
    pub patterns: usize,
    pub left: usize,
    pub last: Option<Match>,
}

// No slot passed yet.
pub fn none_passed(used: usize) -> Passed
    ensures { result ≡ none_passed used }
{
    Passed {
        patterns: 0,
        left: used,
        last: None,
    }
}

// A pattern with no more bytes than are left, and with usable references. The bytes are counted down, since the lengths may be any numbers and
// their sum too large.
fn may_follow(w: Passed, p: Pattern) -> bool
    ensures { result ≡ may_follow w p }
{
    p.len <= w.left && is_usable(w.last, p)
}

// A slot that holds what it may; a pattern in it may follow those passed.
pub fn may_pass(w: Passed, slot: Slot) -> bool
    ensures { result ≡ may_pass w slot }
{
    slot_fits(slot)
        && match slot.item {
            Item::Pattern(p) => may_follow(w, p),
            _ => true,
        }
}

// One slot more.
pub fn past_item(w: Passed, slot: Slot) -> Passed
    requires { Passable w slot }
    ensures { result ≡ past_item w slot }
{
    let Item::Pattern(p) = slot.item else {
        return w;
    };
    Passed {
        patterns: w.patterns + 1,
        left: w.left - p.len,
        last: last_after(w.last, p),
    }
}

// The end, where so many items are in use: no more than 8 patterns and 16 tests, and no bytes left.
pub fn ends_well(w: Passed, count: usize) -> bool
    requires { w.patterns ≤ count }
    ensures { result ≡ ends_well w count }
{
    w.patterns <= PATTERNS && count - w.patterns <= TESTS && w.left == 0
}
