// Where a pattern may lie in a field.
#![tactic(auto)]

pub mod starts;

// The starts that a window leaves: from `from` up to but not including `to`.
#[derive(Clone, Copy)]
pub struct Window {
    pub from: usize,
    pub to: usize,
}
