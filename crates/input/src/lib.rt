// Reading an input whole, so that its end can be told from a failure.
#![tactic(auto)]

ghost use Rattle.std.specs.Io.{ReadsAtMost};

use std::io::{Error, Read};

// Reads until the buffer is full or the input ends, joining short reads, and returns how many bytes stand at the buffer's start.
// Where a read fails, nothing is given back. No contract can say which bytes the system hands over.
pub fn read_all<R: Read>(input: &mut R, buffer: &mut [u8]) -> Result<usize, Error>
    ensures { ReadsAtMost result buffer.new }
{
    let mut n = 0;
    while n < buffer.len() {
        let more = input.read(&mut buffer[n..])?;
        if more == 0 {
            return Ok(n);
        }
        n += more;
    }
    Ok(n)
}
