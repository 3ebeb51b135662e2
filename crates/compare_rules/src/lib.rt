// The lines of the rules of two loaded books, put into a lent buffer. It knows what the reader and the equality of tables promise, and nothing of how they do it.
#![tactic(auto)]

ghost use Rattle.std.specs.Prelude.{◌≡◌, not};
ghost use Rattle.write_bytes.specs.Puts.{Puts};
ghost use Rattle.table_equality.specs.SameTables.{same_table};
ghost use Rattle.compare_laws.specs.Comparisons.{both_line, new_lines, rules_output};
ghost use Rattle.compare_rules.specs.LoadedRules.{read_at, read_from};

use compare_lines::{put_changed, put_new, put_old};
use definitions::books::{LoadedRule, Rules};
use definitions::limits::RULES;
use rule_book::text_at;
use table_equality::same_table;
use write_bytes::limits::at_most;

// Whether the texts of two rules have different tables: both are read, whatever they look like.
fn texts_differ(first: &[u8], a: LoadedRule, second: &[u8], b: LoadedRule) -> bool
    ensures { result ≡ not (same_table (read_at first.now a).table (read_at second.now b).table) }
{
    let x = reader::read(text_at(first, a.start, a.len));
    let y = reader::read(text_at(second, b.start, b.len));
    !same_table(x.table, y.table)
}

// The line of a rule that is in both books.
fn put_both(
    out: &mut [u8],
    at: usize,
    first: &[u8],
    a: LoadedRule,
    second: &[u8],
    b: LoadedRule,
) -> usize
    ensures { Puts out.old at (both_line (read_at first.now a) (read_at second.now b)) out.new result }
{
    let state = a.state != b.state;
    let action = a.action != b.action;
    let table = texts_differ(first, a, second, b);
    put_changed(out, at, a.number, state, action, table)
}

// The lines of rules that are in the second book only: those from a place on.
fn put_news(out: &mut [u8], at: usize, second: &[u8], rules: Rules, from: usize) -> usize
    ensures { Puts out.old at (new_lines (read_from second.now rules from)) out.new result }
{
    let n = at_most(rules.count, RULES);
    let mut next = at;
    for j in from..n {
        next = put_new(out, next, rules.list[j].number);
    }
    next
}

// The lines of two lists of rules, of which the lower number goes first.
pub fn put_rules(
    out: &mut [u8],
    at: usize,
    first: &[u8],
    a: Rules,
    second: &[u8],
    b: Rules,
) -> usize
    ensures { Puts out.old at (rules_output (read_from first.now a 0) (read_from second.now b 0)) out.new result }
{
    let n = at_most(a.count, RULES);
    let m = at_most(b.count, RULES);
    let mut next = at;
    // A merge goes on in one list or in both, so that no `for` says it.
    let mut i = 0;
    let mut j = 0;
    while i < n {
        let x = a.list[i];
        if m <= j {
            next = put_old(out, next, x.number);
            i += 1;
        } else {
            let y = b.list[j];
            if x.number < y.number {
                next = put_old(out, next, x.number);
                i += 1;
            } else if y.number < x.number {
                next = put_new(out, next, y.number);
                j += 1;
            } else {
                next = put_both(out, next, first, x, second, y);
                i += 1;
                j += 1;
            }
        }
    }
    put_news(out, next, second, b, j)
}
