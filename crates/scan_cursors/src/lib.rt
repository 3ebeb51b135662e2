// Where scanning stands in a text, and what it read up to there.
#![tactic(auto)]

ghost use Rattle.std.specs.Prelude.{◌≡◌};
ghost use Rattle.scan_cursors.specs.Reads.{place_of, out_of_range_by, joined, limited_by};

// At a place; at the second place, a number beyond its limit having stood at the first; or stopped at a place, for good.
#[derive(Clone, Copy)]
pub enum Cursor {
    Parsed(usize),
    OutOfRange(usize, usize),
    Failed(usize),
}

// What a scanner read, and where scanning stands after it. The value counts only where scanning goes on.
#[derive(Clone, Copy)]
pub struct Scanned<T> {
    pub value: T,
    pub cursor: Cursor,
}

// After a number beyond its limit at the place: where the form stops later, that comes first (6 before 7).
fn out_of_range(place: usize, d: Cursor) -> Cursor
    ensures { result ≡ out_of_range_by place d }
{
    match d {
        Cursor::Parsed(at) | Cursor::OutOfRange(_, at) => Cursor::OutOfRange(place, at),
        Cursor::Failed(_) => d,
    }
}

impl Cursor {
    // The place where scanning stands.
    pub fn place(self) -> usize
        ensures { result ≡ place_of self }
    {
        match self {
            Cursor::Parsed(at) | Cursor::OutOfRange(_, at) | Cursor::Failed(at) => at,
        }
    }

    // The cursor d that a scanner answered from the place of this one, after all that this one went through: once stopped, scanning
    // stays there, and the first number beyond its limit is kept.
    pub fn join(self, d: Cursor) -> Cursor
        ensures { result ≡ joined self d }
    {
        match self {
            Cursor::Parsed(_) => d,
            Cursor::OutOfRange(place, _) => out_of_range(place, d),
            Cursor::Failed(_) => self,
        }
    }
}

impl<T: Copy> Scanned<T> {
    // What was read from the place of c, after all that c went through.
    pub fn after(self, c: Cursor) -> Scanned<T>
        ensures same { result.value ≡ self.value }
        ensures on { result.cursor ≡ joined c self.cursor }
    {
        Scanned {
            cursor: c.join(self.cursor),
            ..self
        }
    }
}

// The cursor d after a value from the cursor c on that keeps its limit or not; one beyond its limit is told by its first byte.
pub fn limited(c: Cursor, kept: bool, d: Cursor) -> Cursor
    ensures { result ≡ limited_by kept (place_of c) d }
{
    match d {
        Cursor::Parsed(end) if !kept => Cursor::OutOfRange(c.place(), end),
        _ => d,
    }
}
