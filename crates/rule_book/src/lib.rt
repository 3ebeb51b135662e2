// A rule book: judged line by line, and loaded. THE PUBLIC ENTRIES of books: they take any bytes.
#![tactic(auto)]

ghost use Rattle.std.specs.Prelude.{◌≡◌, ◌+◌, ◌≤◌, replicate, take, drop};
ghost use Rattle.definitions.specs.Limits.{document_limits, max_book, max_rules};
ghost use Rattle.definitions.specs.Books.{judge as judgement};
ghost use Rattle.definitions.specs.LoadedBooks.{unused_rule, loaded};
ghost use Rattle.definitions.specs.AnswerNumbers.{judgement_numbers, judgement_in_numbers};
ghost use Rattle.rule_book.specs.Lines.{first_line, checked_line, refused_book, moved_to};

use book_rules::parse_rule;
use definitions::answers::{BookRefusal, Refusal};
use definitions::books::{Action, LoadedBook, LoadedRule, Rules, State};
use definitions::limits::{BOOK_BYTES, RULES};
use line_parts::part_before;

// The first line of what is left of a book, with its LF if it has one.
fn first_line(s: &[u8]) -> &[u8]
    ensures { result.now ≡ first_line s.now }
{
    let n = part_before(s, b'\n').len();
    if n < s.len() { &s[..n + 1] } else { s }
}

// A line after n others, of which the last has the number `last`: 53, 51, 52, the text's own refusal, or its rule.
fn check_line(l: &[u8], n: usize, last: u16) -> Result<LoadedRule, Refusal>
    ensures { result ≡ checked_line document_limits n last l.now }
{
    if RULES <= n {
        return Err(Refusal::RuleCount);
    }
    let rule = parse_rule(l).ok_or(Refusal::RuleForm)?;
    if rule.number <= last {
        return Err(Refusal::RuleOrder);
    }
    match reader::read(&l[rule.start..rule.start + rule.len]).outcome {
        Ok(()) => Ok(rule),
        Err(e) => Err(e.refusal),
    }
}

// A rule by its place in its line, as one by its place in the book.
fn moved_to(at: usize, rule: LoadedRule) -> LoadedRule
    requires { at + rule.start ≤ max_book }
    ensures { result ≡ moved_to at rule }
{
    LoadedRule {
        start: at + rule.start,
        ..rule
    }
}

// Room for rules, none in use.
fn no_rules() -> [LoadedRule; RULES]
    ensures { result ≡ replicate max_rules unused_rule }
{
    [LoadedRule {
        number: 0,
        state: State::Off,
        action: Action::Hold,
        start: 0,
        len: 0,
    }; RULES]
}

// A refused book: no rules.
fn refused_book(r: Refusal, line: usize) -> LoadedBook
    ensures { result ≡ refused_book r line }
{
    LoadedBook {
        judgement: Err(BookRefusal { refusal: r, line }),
        rules: Rules {
            count: 0,
            list: no_rules(),
        },
    }
}

// LOADING: the book is judged, and its rules are kept by where their texts stand.
pub fn load(book: &[u8]) -> LoadedBook
    ensures { result ≡ loaded document_limits book.now }
{
    if BOOK_BYTES < book.len() {
        return refused_book(Refusal::BookLength, 0);
    }
    let mut list = no_rules();
    let mut n = 0;
    let mut last = 0;
    let mut at = 0;
    // A line says where the next begins, and a rule is kept by where its text stands.
    while at < book.len() {
        let l = first_line(&book[at..]);
        match check_line(l, n, last) {
            Ok(rule) => {
                list[n] = moved_to(at, rule);
                last = rule.number;
                n += 1;
                at += l.len();
            }
            Err(r) => return refused_book(r, n + 1),
        }
    }
    LoadedBook {
        judgement: Ok(n),
        rules: Rules { count: n, list },
    }
}

// JUDGING: how many rules the book has, or the first refusal and its line.
pub fn judge(book: &[u8]) -> Result<usize, BookRefusal>
    ensures answer { result ≡ judgement document_limits book.now }
    ensures numbers { judgement_numbers result ≡ judgement_in_numbers document_limits book.now }
{
    load(book).judgement
}

// The bytes at a place of the book, as many of them as there are.
pub fn text_at(book: &[u8], start: usize, len: usize) -> &[u8]
    ensures { result.now ≡ take len (drop start book.now) }
{
    if book.len() < start {
        return &[];
    }
    let rest = &book[start..];
    &rest[..len.min(rest.len())]
}
