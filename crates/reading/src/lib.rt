// Reads an input, from standard input or a file: more than any program has, so that a longer input too is refused by its length.
#![tactic(auto)]

ghost use Rattle.std.specs.Prelude.{◌<◌, ◌≤◌, IfOk, take};
ghost use Rattle.std.specs.Io.KnownBytes.{Consumes, IsAtEnd};

use std::fs::File;
use std::io::{self, Read};
use std::rt::Files;

// The room for an input, which is 4 bytes of fuel and a program, of 4 + 6 * 256 + 16 * 2048 bytes at most.
pub const INPUT: usize = 65536;

// Reads until the room is full or the input ends, and answers how many bytes it put at the start of the room. The input has lost these bytes, and
// has none left where the room is not full.
pub fn read_input<R: Read>(from: &mut R, room: &mut [u8; INPUT]) -> io::Result<usize>
    ensures fits { IfOk result (λ n. n ≤ 65536) }
    ensures bytes { IfOk result (λ n. Consumes (R.remaining from.old) (R.remaining from.new) (take n room.new)) }
    ensures whole { IfOk result (λ n. n < 65536 → IsAtEnd (R.remaining from.new)) }
{
    let mut done = 0;
    for _ in 0..INPUT {
        let n = from.read(&mut room[done..])?;
        if n == 0 {
            break;
        }
        done += n;
    }
    Ok(done)
}

// The same from the file of that name.
pub fn read_file<F: Files>(files: &F, name: &str, room: &mut [u8; INPUT]) -> io::Result<usize>
    ensures { IfOk result (λ n. n ≤ 65536) }
{
    let mut file = File::open(files, name)?;
    read_input(&mut file, room)
}
