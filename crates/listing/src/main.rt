// Lists the analysis of the wiring file that it reads from standard input.

#![tactic(auto)]

ghost use Rattle.std.specs.Prelude.{◌<◌, ◌≤◌, length, take, IfOk};
ghost use Rattle.std.specs.Io.KnownBytes.{Consumes, IsAtEnd};

use list::LISTING_ROOM;
use std::io::{self, Read, Write};

// A byte more than the longest accepted file, so that a longer one is refused.
const MOST: usize = 6657;

// Reads the bytes that come next, until the buffer is full or the input ends; gives how many there are.
fn read_full<R: Read>(input: &mut R, buf: &mut [u8]) -> io::Result<usize>
    ensures within { IfOk result (λ n. n ≤ length buf.new) }
    ensures bytes { IfOk result (λ n. Consumes (R.remaining input.old) (R.remaining input.new) (take n buf.new)) }
    ensures end { IfOk result (λ n. n < length buf.new → IsAtEnd (R.remaining input.new)) }
{
    let mut done = 0;
    // No `for`, since a read gives as many bytes as it likes; `read_exact` refuses a short input, and `read_to_end` takes a heap.
    while done < buf.len() {
        let n = input.read(&mut buf[done..])?;
        if n == 0 {
            return Ok(done);
        }
        done += n;
    }
    Ok(done)
}

fn main(rt: HostRuntime) -> io::Result<()> {
    let mut file = [0u8; MOST];
    let read = read_full(&mut rt.reader(), &mut file)?;
    let mut text = [0u8; LISTING_ROOM];
    let length = list::list(&file[..read], &mut text);
    io::writer(&rt).write_all(&text[..length])
}
