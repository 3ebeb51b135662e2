// Reading a text into its table.
#![tactic(auto)]

ghost use Rattle.std.specs.Prelude.{◌≡◌, replicate, Ok};
ghost use Rattle.definitions.specs.Limits.{document_limits, max_items};
ghost use Rattle.definitions.specs.Tables.{no_slot as empty_slot};
ghost use Rattle.definitions.specs.Reading.{read as readText};
ghost use Rattle.definitions.specs.AnswerNumbers.{read_numbers, read_in_numbers};
ghost use Rattle.read_frame.specs.Framing.{Fronts};
ghost use Rattle.reader.specs.Stored.{StoresOptions};

use definitions::answers::{Reading, Refusal, TextRefusal};
use definitions::limits::{ITEMS, PATTERN_BYTES};
use definitions::table::{Slot, Table};
use read_frame::{OPENING_BYTES, front_of};
use read_insert::checking::{name_of, refused};
use read_insert::finish;
use read_state::{State, fresh, no_slot};
use read_steps::{Step, step_at};

// The options after `F-SBID(`, up to the last `)`: the state after them, with their pattern bytes and items in the arrays, which hold none before. After a
// refusal the arrays are of no use.
fn read_options(
    s: &[u8],
    bytes: &mut [u8; PATTERN_BYTES],
    items: &mut [Slot; ITEMS],
) -> Result<State, TextRefusal>
    requires opened { Fronts s.now (Ok tt) }
    requires no_bytes { bytes.old ≡ replicate document_limits.room 0 }
    requires no_items { items.old ≡ replicate max_items empty_slot }
    ensures { StoresOptions s.now bytes.new items.new result }
{
    let mut st = fresh();
    let mut at = OPENING_BYTES;
    // A step says where the text goes on, so no range of places stands before.
    while at < s.len() {
        if s[at] == b' ' {
            at += 1;
            continue;
        }
        match step_at(s, bytes, st, items[st.last], at)? {
            Step::Next(next, inserted) => {
                if let Some(put) = inserted.put {
                    items[put.place] = put.slot;
                }
                st = inserted.state;
                at = next;
            }
            Step::Done => {
                finish(s.len(), st, *items)?;
                return Ok(st);
            }
        }
    }
    Err(TextRefusal {
        refusal: Refusal::NeitherOptionNorEnd,
        place: at,
    })
}

// THE READER: any bytes in, the table or a refusal with its place out.
pub fn read(s: &[u8]) -> Reading
    ensures answer { result ≡ readText document_limits s.now }
    ensures numbers { read_numbers result.outcome ≡ read_in_numbers document_limits s.now }
{
    if let Err(e) = front_of(s) {
        return refused(e.refusal, e.place);
    }
    let mut bytes = [0; PATTERN_BYTES];
    let mut items = [no_slot(); ITEMS];
    // A refusal returns from its arm: a `match` whose value is the reading would clear one more table for each text, and copy it.
    let st = match read_options(s, &mut bytes, &mut items) {
        Ok(st) => st,
        Err(e) => return refused(e.refusal, e.place),
    };
    Reading {
        outcome: Ok(()),
        table: Table {
            name: name_of(s, st.from, st.len),
            len: st.len,
            protocol: st.protocol,
            flow: st.flow,
            bytes,
            used: st.used,
            items,
            count: st.count,
        },
    }
}
