// One step of reading: an option of a text by its name and form, and what it does to the state; the last `)`; or neither where one is due.
#![tactic(auto)]

ghost use Rattle.std.specs.Prelude.{◌≡◌};
ghost use Rattle.read_state.specs.State.{After};
ghost use Rattle.read_steps.specs.Stepping.{Steppable, Steps, InsertsOption, closing_step, Placed, Goes};

use definitions::answers::{Refusal, TextRefusal};
use definitions::table::Slot;
use read_by_name::by_name::option_by_name;
use read_by_name::parsed::ParsedOption;
use read_frame::{dashes_at, ended_by};
use read_insert::insert;
use read_names::{name_end, option_named};
use read_state::{Inserted, State};

// On to a place after an option, with what was inserted for it; or the end of the text.
#[derive(Clone, Copy)]
pub enum Step {
    Next(usize, Inserted),
    Done,
}

// The option was read, and the text goes on at `next`: it is inserted, unless something is due for it.
fn insert_option(
    st: State,
    last: Slot,
    at: usize,
    p: ParsedOption,
    next: usize,
) -> Result<Step, TextRefusal>
    requires { After st last p.value p.list p.used }
    ensures { InsertsOption st last at p next result }
{
    match insert(st, last, at, p.value, p.list, p.used) {
        Ok(inserted) => Ok(Step::Next(next, inserted)),
        Err(refusal) => Err(TextRefusal { refusal, place: at }),
    }
}

// The option whose first dash stands at the place. Its pattern bytes are stored after those in use; `last` is the last pattern's slot.
fn option_step(
    s: &[u8],
    bytes: &mut [u8],
    st: State,
    last: Slot,
    at: usize,
) -> Result<Step, TextRefusal>
    requires { Steppable s.now bytes.old st last at }
    ensures { Steps s.now bytes.old st last at bytes.new result }
{
    let from = at + 2;
    let to = name_end(s, from);
    let Some(option) = option_named(s, from, to) else {
        return Err(TextRefusal {
            refusal: Refusal::NotListed,
            place: at,
        });
    };
    let p = option_by_name(s, to, option, bytes, st.used);
    // A match and not `?`, so that an edit can change the place and nothing else (must-fail/place_is_the_dash).
    match ended_by(p.cursor) {
        Ok(next) => insert_option(st, last, at, p, next),
        Err(e) => Err(e),
    }
}

// The last `)`, an option, or neither where one is due.
pub fn step_at(
    s: &[u8],
    bytes: &mut [u8],
    st: State,
    last: Slot,
    at: usize,
) -> Result<Step, TextRefusal>
    requires { Placed s.now bytes.old st last at }
    ensures { Goes s.now bytes.old st last at bytes.new result }
{
    if s[at] == b')' {
        return closing_step(at + 1, s.len());
    }
    if dashes_at(s, at) {
        return option_step(s, bytes, st, last, at);
    }
    Err(TextRefusal {
        refusal: Refusal::NeitherOptionNorEnd,
        place: at,
    })
}

// After a `)`: the end, or a byte too many.
fn closing_step(after: usize, len: usize) -> Result<Step, TextRefusal>
    ensures { result ≡ closing_step after len }
{
    if after == len {
        Ok(Step::Done)
    } else {
        Err(TextRefusal {
            refusal: Refusal::NeitherOptionNorEnd,
            place: after,
        })
    }
}
