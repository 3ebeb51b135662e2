// Lists of addresses: all are counted, and the first are kept, as many as a test can hold.
ghost use Rattle.std.specs.Prelude.{◌≡◌, ◌∷◌, [], set};
ghost use Rattle.definitions.specs.Limits.{max_addresses};
ghost use Rattle.definitions.specs.Lists.{padded};
ghost use Rattle.definitions.specs.Tables.{no_address};
ghost use Rattle.definitions.specs.Forms.{addresses};
ghost use Rattle.scan_cursors.specs.Reads.{Inside};
ghost use Rattle.read_addresses.specs.Listing.{listed_addresses, Lists};

use crate::dotted::then_address;
use definitions::limits::ADDRESSES;
use definitions::table::Address;
use read_value::no_addresses;
use scan_cursors::{Cursor, Scanned};
use scan_steps::literals::{next_is, then_literal};

// The addresses that are kept, and how many there are.
#[derive(Clone, Copy)]
pub struct AddressList {
    pub list: [Address; ADDRESSES],
    pub count: usize,
}

// An address after the `count` that there are, if there is room.
fn keep(list: &mut [Address; ADDRESSES], count: usize, a: Address)
    ensures { list.new ≡ set list.old count a }
{
    if count < ADDRESSES {
        list[count] = a;
    }
}

// One address alone.
fn one_kept(a: Address) -> [Address; ADDRESSES]
    ensures { result ≡ padded max_addresses no_address (a ∷ []) }
{
    let mut list = no_addresses();
    keep(&mut list, 0, a);
    list
}

// One address or more, parted by commas.
fn then_list(s: &[u8], c: Cursor) -> Scanned<AddressList>
    requires { Inside s.now c }
    ensures { Lists listed_addresses s.now c result.value.list result.value.count result.cursor }
{
    let first = then_address(s, c);
    let mut list = one_kept(first.value);
    let mut count = 1;
    let mut here = first.cursor;
    while next_is(s, here, b',') {
        let comma = then_literal(s, here, b',');
        let next = then_address(s, comma);
        keep(&mut list, count, next.value);
        count += 1;
        here = next.cursor;
    }
    Scanned {
        value: AddressList { list, count },
        cursor: here,
    }
}

// One address, or one or more in brackets.
pub fn then_addresses(s: &[u8], c: Cursor) -> Scanned<AddressList>
    requires { Inside s.now c }
    ensures { Lists addresses s.now c result.value.list result.value.count result.cursor }
{
    if next_is(s, c, b'[') {
        let open = then_literal(s, c, b'[');
        let l = then_list(s, open);
        Scanned {
            cursor: then_literal(s, l.cursor, b']'),
            ..l
        }
    } else {
        let only = then_address(s, c);
        Scanned {
            value: AddressList {
                list: one_kept(only.value),
                count: 1,
            },
            cursor: only.cursor,
        }
    }
}
