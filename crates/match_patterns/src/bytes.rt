// The bytes of a pattern at a place, where they fit: nothing but the bytes is tested.
ghost use Rattle.std.specs.Prelude.{◌≡◌, true, false, ◌+◌, ◌≤◌, length, drop};
ghost use Rattle.definitions.specs.Windows as windows;
ghost use Rattle.match_folding.specs.Folding.{FoldTable};

// Letters A to Z and a to z alike, any other byte equal: their entries are. Every comparison under no_case goes through here.
fn alike(folded: &[u8], x: u8, y: u8) -> bool
    requires { FoldTable folded.now }
    ensures { result ≡ windows.alike true x y }
{
    folded[usize::from(x)] == folded[usize::from(y)]
}

// How many bytes after the first are compared before the others: `==` on more than 64 looks at 64 at once where the first four are equal, and at 32 of them
// again.
const FRONT: usize = 32;

// The bytes `b` stand in the field at the place, each equal. The first byte by itself: most places fail there.
pub fn equal_at(b: &[u8], f: &[u8], at: usize) -> bool
    requires { at + length b.now ≤ length f.now }
    ensures { result ≡ windows.stands_at false b.now (drop at f.now) }
{
    if b.is_empty() {
        return true;
    }
    if b[0] != f[at] {
        return false;
    }
    let rest = &b[1..];
    let few = rest.len().min(FRONT);
    let next = at + 1;
    rest[..few] == f[next..next + few] && rest[few..] == f[next + few..next + rest.len()]
}

// The bytes `b` stand in the field at the place, each alike under no_case. The first byte by itself here too: a walk over places looks its entry up once. The
// others by place, as a `zip` tests at each byte whether either side has ended.
pub fn alike_at(folded: &[u8], b: &[u8], f: &[u8], at: usize) -> bool
    requires { FoldTable folded.now × (at + length b.now ≤ length f.now) }
    ensures { result ≡ windows.stands_at true b.now (drop at f.now) }
{
    if b.is_empty() {
        return true;
    }
    if !alike(folded, b[0], f[at]) {
        return false;
    }
    for i in 1..b.len() {
        if !alike(folded, b[i], f[at + i]) {
            return false;
        }
    }
    true
}
