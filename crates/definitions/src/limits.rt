// The limits of documents 01 and 02 that the types and the code go by, each named once. specs/Limits.antt has them for the definitions; `document_limits` ties the two.
ghost use Rattle.std.specs.Prelude.{◌≡◌};
ghost use Rattle.definitions.specs.CodeLimits.{code_limits};

// Bytes of a text, and of a canonical text.
pub const TEXT_BYTES: usize = 4096;

pub const CANONICAL_BYTES: usize = 4096;

// What a table holds: pattern bytes in all, bytes of the name, patterns, tests, items, addresses of one test.
pub const PATTERN_BYTES: usize = 4096;

pub const NAME_BYTES: usize = 64;

pub const PATTERNS: usize = 8;

pub const TESTS: usize = 16;

pub const ITEMS: usize = 24;

pub const ADDRESSES: usize = 8;

// Bytes of a lent packet, and of a lent decoded buffer.
pub const PACKET_BYTES: usize = 2048;

pub const DECODED_BYTES: usize = 4096;

// Bytes of a rule book, and its rules.
pub const BOOK_BYTES: usize = 65536;

pub const RULES: usize = 64;

// Numbers of one byte, of two bytes and of four bytes, a distance either way, and the bits of an address.
pub const MAX_BYTE: u64 = 255;

pub const MAX_WORD: u64 = 65535;

pub const MAX_LONG: u64 = 4294967295;

pub const MAX_OFFSET: i32 = 65535;

pub const MAX_PREFIX: u8 = 32;

// The options of document 01's table, and byte_test.
pub const OPTIONS: usize = 23;

// Every limit that this code goes by, for its callers.
#[derive(Clone, Copy)]
pub struct DocumentLimits {
    pub text: usize,
    pub canonical: usize,
    pub room: usize,
    pub name: usize,
    pub patterns: usize,
    pub tests: usize,
    pub items: usize,
    pub addresses: usize,
    pub packet: usize,
    pub decoded: usize,
    pub book: usize,
    pub rules: usize,
    pub byte: u64,
    pub word: u64,
    pub long: u64,
    pub offset: i32,
    pub prefix: u8,
    pub options: usize,
}

// The limits above are those of the definitions: the one contract that ties each constant to its name in specs/Limits.antt.
pub fn document_limits() -> DocumentLimits
    ensures { result ≡ code_limits }
{
    DocumentLimits {
        text: TEXT_BYTES,
        canonical: CANONICAL_BYTES,
        room: PATTERN_BYTES,
        name: NAME_BYTES,
        patterns: PATTERNS,
        tests: TESTS,
        items: ITEMS,
        addresses: ADDRESSES,
        packet: PACKET_BYTES,
        decoded: DECODED_BYTES,
        book: BOOK_BYTES,
        rules: RULES,
        byte: MAX_BYTE,
        word: MAX_WORD,
        long: MAX_LONG,
        offset: MAX_OFFSET,
        prefix: MAX_PREFIX,
        options: OPTIONS,
    }
}
