// What the program `book` writes, put into a lent buffer.
#![tactic(auto)]

ghost use Rattle.definitions.specs.Limits.{document_limits};
ghost use Rattle.write_bytes.specs.Puts.{Puts};
ghost use Rattle.book_answers.specs.BookAnswers.{judgement_text, book_output};

use definitions::answers::BookRefusal;
use line_refusals::put_refused;
use rule_book::judge;
use write_bytes::{put, put_decimal, put_word};

// `ok`, tab and the number of rules; or the refusal, tab and the line.
fn put_judgement(out: &mut [u8], at: usize, j: Result<usize, BookRefusal>) -> usize
    ensures { Puts out.old at (judgement_text j) out.new result }
{
    match j {
        Ok(n) => {
            let a1 = put_word(out, at, b"ok\t");
            put_decimal(out, a1, n as u64)
        }
        Err(e) => put_refused(out, at, e.refusal, e.line),
    }
}

// THE ANSWER to a book, with its LF.
pub fn answer_book(out: &mut [u8], at: usize, book: &[u8]) -> usize
    ensures { Puts out.old at (book_output document_limits book.now) out.new result }
{
    let a1 = put_judgement(out, at, judge(book));
    put(out, a1, b'\n')
}
