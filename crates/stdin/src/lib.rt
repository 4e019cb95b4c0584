// Standard input, read into a lent buffer. What stands there afterwards is the system's: of standard input std says how many bytes a
// read gives and nothing of which. Of a reader whose bytes are known it is said.

#![tactic(auto)]

ghost use Rattle.std.specs.Prelude.{◌<◌, length, take, IfOk};
ghost use Rattle.std.specs.Io.KnownBytes.{Consumes, IsAtEnd};
ghost use Rattle.io.specs.Counts.{IsPrefixLen};
ghost use Rattle.stdin.specs.Counted.{count_of};

use std::io::Read;

// A read failed, when so many bytes stood at the start of the buffer.
#[derive(Clone, Copy)]
pub struct ReadFailed {
    pub count: usize,
}

// Reads standard input, or what else is lent as a reader, until it ends, the buffer is full, or a read fails. Answers with how many
// bytes stand at the start of the buffer.
pub fn read_input<R: Read>(reader: &mut R, buffer: &mut [u8]) -> Result<usize, ReadFailed>
    ensures in_bounds { IsPrefixLen (count_of result) buffer.new }
    ensures bytes { Consumes (R.remaining reader.old) (R.remaining reader.new) (take (count_of result) buffer.new) }
    ensures end { IfOk result (λ count. count < length buffer.new → IsAtEnd (R.remaining reader.new)) }
{
    let mut count = 0;
    while count < buffer.len() {
        match reader.read(&mut buffer[count..]) {
            Ok(0) => break,
            Ok(more) => count += more,
            Err(_) => return Err(ReadFailed { count }),
        }
    }
    Ok(count)
}
