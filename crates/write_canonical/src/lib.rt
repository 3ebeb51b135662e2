// Canonical text of a table, put into a lent buffer: its options between the opening and the end.
#![tactic(auto)]

ghost use Rattle.std.specs.Prelude.{ℕ};
ghost use Rattle.definitions.specs.Tables.{table_with};
ghost use Rattle.definitions.specs.Canonical.{canonical_text};
ghost use Rattle.write_bytes.specs.Puts.{Puts};

use definitions::limits::{ITEMS, NAME_BYTES};
use definitions::table::{Flow, Slot};
use write_bytes::put_word;
use write_keywords::{flow_keyword, put_keyword};
use write_options::{put_items, put_name, put_protocol};

// The canonical text of a table of these parts at the front of the buffer; the answer is its length. How many pattern bytes are in use plays no part.
pub fn put_canonical(
    out: &mut [u8],
    name: [u8; NAME_BYTES],
    len: usize,
    protocol: u8,
    flow: Flow,
    items: [Slot; ITEMS],
    count: usize,
    bytes: &[u8],
) -> usize
    ensures { (used : ℕ) → Puts out.old 0 (canonical_text (table_with name len protocol flow bytes.now used items count)) out.new result }
{
    let a1 = put_word(out, 0, b"F-SBID(");
    let a2 = put_name(out, a1, name, len);
    let a3 = put_protocol(out, a2, protocol);
    let a4 = put_keyword(out, a3, flow_keyword(flow));
    let a5 = put_items(out, a4, items, count, bytes);
    put_word(out, a5, b" )")
}
