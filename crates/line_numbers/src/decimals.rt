// Decimal numbers up to a limit of 64 bits.
ghost use Rattle.std.specs.Prelude.{◌≤◌, ◌≡◌};
ghost use Rattle.line_numbers.specs.Decimals.{parsed_number};

use scan_bytes::bytes::is_between;

// The number that decimal digits write, if it is at most the limit; none for a larger one, and for other bytes.
pub fn parse_decimal(s: &[u8], limit: u64) -> Option<u64>
    requires { 9 ≤ limit }
    ensures { result ≡ parsed_number limit s.now }
{
    if s.is_empty() {
        return None;
    }
    let mut v: u64 = 0;
    for b in s {
        if !is_between(b'0', b'9', *b) {
            return None;
        }
        let d = (*b - b'0') as u64;
        if (limit - d) / 10 < v {
            return None;
        }
        v = v * 10 + d;
    }
    Some(v)
}
