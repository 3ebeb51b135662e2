// The judgement after the last option: 10 by pattern, then 12.
ghost use Rattle.std.specs.Prelude.{◌≡◌, ◌+◌, ◌≤◌, length, take, drop};
ghost use Rattle.definitions.specs.Limits.{document_limits, max_name};
ghost use Rattle.definitions.specs.Lists.{padded};
ghost use Rattle.definitions.specs.Reading.{refused_reading};
ghost use Rattle.read_state.specs.Sound.{Sound};
ghost use Rattle.read_insert.specs.Checking.{outcome_in};

use definitions::answers::{Reading, Refusal, TextRefusal};
use definitions::limits::{ITEMS, NAME_BYTES, PATTERN_BYTES};
use definitions::table::{Flow, Slot, Table};
use read_references::usable_count;
use read_state::{State, no_slot};

// The name of a table: the `n` bytes of `s` from `from` on, with zeros after them.
pub fn name_of(s: &[u8], from: usize, n: usize) -> [u8; NAME_BYTES]
    requires { (n ≤ max_name) × (from + n ≤ length s.now) }
    ensures { result ≡ padded max_name 0 (take n (drop from s.now)) }
{
    let mut name = [0u8; NAME_BYTES];
    name[..n].copy_from_slice(&s[from..from + n]);
    name
}

// A refusal with its place, and the table of a text that says nothing.
pub fn refused(r: Refusal, place: usize) -> Reading
    ensures { result ≡ refused_reading document_limits.room r place }
{
    Reading {
        outcome: Err(TextRefusal { refusal: r, place }),
        table: Table {
            name: [0; NAME_BYTES],
            len: 0,
            protocol: 0,
            flow: Flow::Any,
            bytes: [0; PATTERN_BYTES],
            used: 0,
            items: [no_slot(); ITEMS],
            count: 0,
        },
    }
}

// The state after the last option of the text, with the items beside it.
pub fn judge(len: usize, st: State, items: [Slot; ITEMS]) -> Result<(), TextRefusal>
    requires { Sound st }
    ensures { result ≡ outcome_in len st items }
{
    let usable = usable_count(items, st.count);
    if usable < st.patterns {
        return Err(TextRefusal {
            refusal: Refusal::Unusable,
            place: st.dashes[usable],
        });
    }
    if !st.given.name || !st.given.protocol {
        return Err(TextRefusal {
            refusal: Refusal::Missing,
            place: len,
        });
    }
    Ok(())
}
