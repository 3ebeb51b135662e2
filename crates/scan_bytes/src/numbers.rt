// The numbers that digits write, of any count. Beyond every limit they all are one number, so that none wraps.
ghost use Rattle.std.specs.Prelude.{◌≡◌, ◌-◌, ◌≤◌, length, take, drop};
ghost use Rattle.definitions.specs.Numbers.{digit_value, value_of};
ghost use Rattle.scan_bytes.specs.Capped.{capped};

// Ten before `A` and before `a`.
const CAPITAL_ZERO: u8 = 55;

const SMALL_ZERO: u8 = 87;

// What a decimal or hex digit writes.
#[tactic(auto, using(std::proofs::lemmas::Bool::Decides::nat_tests), unfolding(definitions::specs::Numbers::digit_value))]
fn digit_value(b: u8) -> u64
    ensures { result ≡ digit_value b }
{
    let zero = match b {
        ..=b'9' => b'0',
        ..=b'F' => CAPITAL_ZERO,
        _ => SMALL_ZERO,
    };
    b.saturating_sub(zero) as u64
}

// Beyond every limit.
const NUMBER_CAP: u64 = 4294967296;

// The number that the digits from one place to another write, or the one far above.
pub fn value_of(s: &[u8], at: usize, end: usize, base: u64) -> u64
    requires { (at ≤ end) × (end ≤ length s.now) × (1 ≤ base) × (base ≤ 16) }
    ensures { result ≡ capped (value_of base 0 (take (end - at) (drop at s.now))) }
{
    let mut v: u64 = 0;
    for b in &s[at..end] {
        v = (v * base + digit_value(*b)).min(NUMBER_CAP);
    }
    v
}
