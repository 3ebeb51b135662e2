// Shows the writer's answers that no text can bring about: 20, for a table that was edited, and 22, for a buffer that is too short. Each line is the number,
// the bytes written, and the buffer afterwards, which was all dots.
#![tactic(auto)]

ghost use Rattle.std.specs.Prelude.{◌≡◌};
ghost use Rattle.definitions.specs.Refusals.{write_number, write_length};

use definitions::answers::Refusal;
use definitions::limits::{ITEMS, NAME_BYTES, PATTERN_BYTES};
use definitions::table::{
    FieldTest, Flow, HeaderField, Item, NumberField, NumberTest, Operator, Slot, Table,
};
use read_state::no_slot;
use refusal_numbers::number_of;
use write_bytes::{put, put_decimal, put_word};
use writer::write;

// Bytes of a line that is shown.
const SHOWN: usize = 128;

// 0 where nothing is refused.
fn write_number(w: Result<usize, Refusal>) -> u64
    ensures { result ≡ write_number w }
{
    match w {
        Ok(_) => 0,
        Err(r) => number_of(r),
    }
}

// How many bytes are written.
fn write_length(w: Result<usize, Refusal>) -> usize
    ensures { result ≡ write_length w }
{
    w.unwrap_or(0)
}

// The line that is shown: number, bytes written, buffer.
fn put_line(out: &mut [u8], w: Result<usize, Refusal>, buffer: &[u8]) -> usize {
    let a1 = put_decimal(out, 0, write_number(w));
    let a2 = put(out, a1, b'\t');
    let a3 = put_decimal(out, a2, write_length(w) as u64);
    let a4 = put(out, a3, b'\t');
    let a5 = put_word(out, a4, buffer);
    put(out, a5, b'\n')
}

// Shows a line.
fn show(rt: &impl Print, w: Result<usize, Refusal>, buffer: &[u8]) {
    let mut out = [0u8; SHOWN];
    let end = put_line(&mut out, w, buffer);
    if end <= SHOWN {
        let _ = rt.write_all(&out[..end]);
    }
}

// Writes a table into a buffer, and shows what came of it.
fn try_in(rt: &impl Print, t: Table, buffer: &mut [u8]) {
    let w = write(t, buffer);
    show(rt, w, buffer);
}

// Of a table that a text reads as: room for more than its canonical text, for just that, and for a byte less.
fn try_whole(rt: &impl Print, t: Table) {
    let mut roomy = [b'.'; 37];
    try_in(rt, t, &mut roomy);
    let mut exact = [b'.'; 35];
    try_in(rt, t, &mut exact);
    let mut short = [b'.'; 34];
    try_in(rt, t, &mut short);
}

// Of two tables that no text reads as: with a name of no bytes, and with a byte in room that is not used.
fn try_edited(rt: &impl Print, t: Table) {
    let mut buffer = [b'.'; 37];
    try_in(rt, Table { len: 0, ..t }, &mut buffer);
    let mut stale = t;
    stale.bytes[PATTERN_BYTES - 1] = 1;
    try_in(rt, stale, &mut buffer);
}

// The table with one test.
fn with_test(t: Table, item: Item) -> Table {
    let mut tested = Table { count: 1, ..t };
    tested.items[0] = Slot { item, ..no_slot() };
    tested
}

// Of a table with an ip_id, the old kind, and of the table with the field test that ip_id reads as.
fn try_ip_id(rt: &impl Print, t: Table) {
    let mut buffer = [b'.'; 50];
    let old = NumberTest {
        field: NumberField::IpId,
        number: 5,
    };
    try_in(rt, with_test(t, Item::Number(old)), &mut buffer);
    let read = FieldTest {
        field: HeaderField::Id,
        mask: 65535,
        operator: Operator::Equal,
        number: 5,
    };
    try_in(rt, with_test(t, Item::Field(read)), &mut buffer);
}

// The table that the rule with the name `n`, protocol 6 and no items reads as.
fn small_rule() -> Table {
    let mut name = [0u8; NAME_BYTES];
    name[0] = b'n';
    Table {
        name,
        len: 1,
        protocol: 6,
        flow: Flow::Any,
        bytes: [0u8; PATTERN_BYTES],
        used: 0,
        items: [no_slot(); ITEMS],
        count: 0,
    }
}

fn main(rt: HostRuntime) {
    let table = small_rule();
    try_whole(&rt, table);
    try_edited(&rt, table);
    try_ip_id(&rt, table);
}
