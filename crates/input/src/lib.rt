// Reading what a reader gives into lent room.
#![tactic(auto)]

ghost use Rattle.std.specs.Prelude.{◌<◌, ◌≤◌, length, take, IfOk};
ghost use Rattle.std.specs.Io.KnownBytes.{Consumes, IsAtEnd};

use std::io;
use std::io::Read;

// One byte more than a file may have. A longer text has the same sheet, whatever follows (report, proofs/Cut).
pub const LONGEST_INPUT: usize = ranges::LONGEST_FILE + 1;

// Reads until the room is full or the input ends, and answers how many bytes it put at the start of the room.
// A `while`: how far each step goes is what the read before it gave. std's `read_to_end` reads on past the room, and its
// `read_exact` has no answer for an input that is shorter.
pub fn read_full<R: Read>(input: &mut R, room: &mut [u8]) -> io::Result<usize>
    ensures within { IfOk result (λ count. count ≤ length room.new) }
    ensures bytes { IfOk result (λ count. Consumes (R.remaining input.old) (R.remaining input.new) (take count room.new)) }
    ensures end { IfOk result (λ count. count < length room.new → IsAtEnd (R.remaining input.new)) }
{
    let mut count = 0;
    while count < room.len() {
        let more = input.read(&mut room[count..])?;
        if more == 0 {
            return Ok(count);
        }
        count += more;
    }
    Ok(count)
}
