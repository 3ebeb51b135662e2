// The file that an argument of the program names, read into lent room.
#![tactic(auto)]

ghost use Rattle.std.specs.Prelude.{◌≤◌, IfOk, IfSome, length};

use std::fs::OpenOptions;
use std::io::Read;
use std::rt::{Env, Files};
use std::{io, str};

// Bytes that are read at most: one more than a book may have, so that a longer one is known to be longer.
pub const ROOM: usize = 65537;

// Bytes of an argument: no path that the system takes has as many.
const PATH: usize = 8192;

// Reads until the room is full or the input ends, and counts the bytes. A read that fails is not the end of the input.
pub fn read_into(input: &mut impl Read, room: &mut [u8]) -> io::Result<usize>
    ensures { IfOk result (λ n. n ≤ length room.old) }
{
    let mut done = 0;
    while done < room.len() {
        let n = input.read(&mut room[done..])?;
        if n == 0 {
            break;
        }
        done += n;
    }
    Ok(done)
}

// The same, where it doesn't matter why a read failed: none then.
pub fn read_all(input: &mut impl Read, room: &mut [u8]) -> Option<usize>
    ensures { IfSome result (λ n. n ≤ length room.old) }
{
    read_into(input, room).ok()
}

// Reads the file that the first argument names; none where it can't be read. Nothing says what is read, but the count is within the room. The host itself is
// asked, and no bound of it: the bound `Files` would have the program rest on every call on files.
pub fn read_book(rt: &HostRuntime, room: &mut [u8; ROOM]) -> Option<usize>
    ensures { IfSome result (λ n. n ≤ 65537) }
{
    read_argument(rt, 1, room)
}

// Reads the file that an argument names, the first of them 1, likewise.
pub fn read_argument(rt: &HostRuntime, argument: usize, room: &mut [u8; ROOM]) -> Option<usize>
    ensures { IfSome result (λ n. n ≤ 65537) }
{
    let mut bytes = [0u8; PATH];
    let n = rt.arg(argument, &mut bytes).ok()?;
    let path = str::from_utf8(&bytes[..n]).ok()?;
    let mut how = OpenOptions::new();
    how.read(true);
    let mut file = rt.open_file(&how, path).ok()?;
    read_all(&mut file, room)
}
