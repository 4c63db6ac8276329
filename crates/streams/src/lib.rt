// Standard input and standard output of a program, with their failures: a read that fails is no end of the input, and a text that cannot be written whole
// is told of on standard error. A call that a signal interrupts counts as failed. No contract can say what is read and written.
#![tactic(auto)]

ghost use Rattle.std.specs.Io.{ReadsAtMost};

use io;
use std::io::Read;

// Reads from a stream, such as standard input, until the buffer is full or the input ends, and answers how many bytes it put at the buffer's head: fewer
// than it holds only where the input ended.
pub fn read<R: Read>(from: &mut R, buf: &mut [u8]) -> std::io::Result<usize>
    ensures { ReadsAtMost result buf.new }
{
    let mut done = 0;
    // kept: a `while`, since a turn goes on by as many bytes as the stream gave
    while done < buf.len() {
        let more = from.read(&mut buf[done..])?;
        if more == 0 {
            break;
        }
        done += more;
    }
    Ok(done)
}

// Writes words to standard error.
pub fn warn(words: &[u8]) {
    io::write_all(2, words);
}

// Says that there is no answer, since a read failed.
pub fn say_unread() {
    warn(
        b"pozsmeteg: the input could not be read to its end, so there is no answer; mend the input and run again\n",
    );
}

// Writes bytes to standard output, and whether it took them all. A caller writes nothing more once it did not: the answer then has no hole, only an end.
pub fn write(bytes: &[u8]) -> bool {
    let whole = io::write_all(1, bytes);
    if !whole {
        warn(
            b"pozsmeteg: the answer could not be written whole; do not use what was written, make room for it and run again\n",
        );
    }
    whole
}
