// What is read of an option after its name.
use definitions::limits::ADDRESSES;
use definitions::table::Address;
use read_value::Value;
use scan_cursors::Cursor;

// An option's value, the addresses beside it, how many pattern bytes are in use after it, and where scanning stands.
#[derive(Clone, Copy)]
pub struct ParsedOption {
    pub value: Value,
    pub list: [Address; ADDRESSES],
    pub used: usize,
    pub cursor: Cursor,
}
