// A rule book and what is decided by it (document 02, T-03).
use crate::answers::BookRefusal;
use crate::limits::RULES;

// A rule that is off is read, and never decides.
#[derive(Clone, Copy, PartialEq, Eq)]
pub enum State {
    On,
    Off,
}

// What happens to a packet.
#[derive(Clone, Copy, PartialEq, Eq)]
pub enum Action {
    Pass,
    Hold,
}

// A rule of a judged book. Its text is not copied: it stands so far into the book, and has so many bytes.
#[derive(Clone, Copy, PartialEq, Eq)]
pub struct LoadedRule {
    pub number: u16,
    pub state: State,
    pub action: Action,
    pub start: usize,
    pub len: usize,
}

// The rules of a judged book; those not in use are off, with every number 0.
#[derive(Clone, Copy, PartialEq, Eq)]
pub struct Rules {
    pub count: usize,
    pub list: [LoadedRule; RULES],
}

// A judged book and its rules: how many they are, or the refusal; a refused book has none.
#[derive(Clone, Copy, PartialEq, Eq)]
pub struct LoadedBook {
    pub judgement: Result<usize, BookRefusal>,
    pub rules: Rules,
}

// What is decided: an action, and the number of the rule that decides, 0 if none does.
#[derive(Clone, Copy, PartialEq, Eq)]
pub struct Decision {
    pub action: Action,
    pub rule: u16,
}

// Packets of a block that are answered, and the bytes that they take.
#[derive(Clone, Copy, PartialEq, Eq)]
pub struct Answered {
    pub packets: usize,
    pub bytes: usize,
}
