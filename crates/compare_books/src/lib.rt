// WHAT CHANGED BETWEEN TWO RULE BOOKS: the public entry, which takes any bytes.
#![tactic(auto)]

ghost use Rattle.definitions.specs.Limits.{document_limits};
ghost use Rattle.write_bytes.specs.Puts.{Puts};
ghost use Rattle.compare_laws.specs.Comparisons.{compare_output};

use compare_rules::put_rules;
use line_refusals::put_refused_book;
use rule_book::load;

// WHAT CHANGED: the first book's refusal, else the second's, else a line for each rule that is not alike in both, by rising number.
pub fn compare(out: &mut [u8], at: usize, first: &[u8], second: &[u8]) -> usize
    ensures { Puts out.old at (compare_output document_limits first.now second.now) out.new result }
{
    let x = load(first);
    match x.judgement {
        Err(e) => put_refused_book(out, at, b"first\t", e.refusal, e.line),
        Ok(_) => {
            let y = load(second);
            match y.judgement {
                Err(e) => put_refused_book(out, at, b"second\t", e.refusal, e.line),
                Ok(_) => put_rules(out, at, first, x.rules, second, y.rules),
            }
        }
    }
}
