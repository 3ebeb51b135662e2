// Bytes and the classes that forms name.
#![tactic(auto, using(std::proofs::lemmas::Bool::Decides::nat_tests), unfolding(forms::specs::Form::has))]

ghost use Rattle.std.specs.Prelude.{◌≡◌};
ghost use Rattle.forms.specs.Form.{has};
ghost use Rattle.forms.specs.Bytes.{between};
ghost use Rattle.definitions.specs.Forms.{plain_bytes};
ghost use Rattle.scan_bytes.specs.Classes.{class_of, case_class};
ghost use Rattle.scan_bytes.specs.declared.bytes.Class.TheVariants.{HexDigit, Quotable, NameByte};

// The classes of bytes that stand in runs.
#[derive(Clone, Copy)]
pub enum Class {
    Space,
    Digit,
    HexDigit,
    Quotable,
    NameByte,
    Printable,
}

// Whether a byte lies from `low` to `high`, both included.
pub fn is_between(low: u8, high: u8, b: u8) -> bool
    ensures { result ≡ between low high b }
{
    low <= b && b <= high
}

// No `matches!` here and below: with it a run of name bytes takes 190 ms for 32 MB, and so 75.
fn is_hex(b: u8) -> bool
    ensures { result ≡ has (class_of HexDigit) b }
{
    is_between(b'0', b'9', b) || is_between(b'A', b'F', b) || is_between(b'a', b'f', b)
}

fn is_quotable(b: u8) -> bool
    ensures { result ≡ has (class_of Quotable) b }
{
    is_between(b' ', b'!', b) || is_between(b'#', b':', b) || is_between(b'<', b'~', b)
}

// Whether the byte stands for itself in a pattern.
pub fn is_plain(b: u8) -> bool
    ensures { result ≡ has plain_bytes b }
{
    is_between(b' ', b'!', b)
        || is_between(b'#', b'9', b)
        || is_between(b'<', b'[', b)
        || is_between(b']', b'{', b)
        || is_between(b'}', b'~', b)
}

// A letter, a digit, `_` or `.`.
fn is_name_byte(b: u8) -> bool
    ensures { result ≡ has (class_of NameByte) b }
{
    is_between(b'A', b'Z', b)
        || is_between(b'a', b'z', b)
        || is_between(b'0', b'9', b)
        || b == b'_'
        || b == b'.'
}

// Whether a byte is of a class.
pub fn in_class(k: Class, b: u8) -> bool
    ensures { result ≡ has (class_of k) b }
{
    match k {
        Class::Space => b == b' ',
        Class::Digit => is_between(b'0', b'9', b),
        Class::HexDigit => is_hex(b),
        Class::Quotable => is_quotable(b),
        Class::NameByte => is_name_byte(b),
        Class::Printable => is_between(b' ', b'~', b),
    }
}

// Whether a byte is the byte `y` of a word, in either letter case.
pub fn in_case(y: u8, b: u8) -> bool
    ensures { result ≡ has (case_class y) b }
{
    b == y || matches!(y, b'a'..=b'z') && b == y - 32
}
