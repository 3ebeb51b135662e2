// A span's part of a lent buffer.
#![tactic(auto)]

ghost use Rattle.std.specs.Prelude.{◌≡◌, ◌+◌, ltb};
ghost use Rattle.definitions.specs.Fields.{is_at, passes, shown};
ghost use Rattle.field_parts.specs.Parts.{PartOf};

use definitions::packets::Span;

// Whether a field is present.
pub fn is_at(f: Option<Span>) -> bool
    ensures { result ≡ is_at f }
{
    f.is_some()
}

// Whether `len` bytes from `start` on end after `n`. The sum is not formed, so it can't wrap.
fn beyond(n: usize, start: usize, len: usize) -> bool
    ensures { result ≡ ltb n (start + len) }
{
    n < start || n - start < len
}

// Whether a present span passes its buffer.
pub fn passes_end(b: &[u8], f: Option<Span>) -> bool
    ensures { result ≡ passes f b.now }
{
    f.is_some_and(|span| beyond(b.len(), span.start, span.len))
}

// The span within its buffer that the field entry shows: its own, or none at the buffer's start.
fn shown_span(b: &[u8], f: Option<Span>) -> Span
    ensures { result ≡ shown f b.now }
{
    match f {
        Some(span) if !beyond(b.len(), span.start, span.len) => span,
        _ => Span { start: 0, len: 0 },
    }
}

// The part of the buffer that a span shows, at its own place there.
pub fn part_of<'a>(b: &'a [u8], f: Option<Span>) -> &'a [u8]
    ensures { PartOf b.entry (shown f b.now) result }
{
    let span = shown_span(b, f);
    &b[span.start..span.start + span.len]
}
