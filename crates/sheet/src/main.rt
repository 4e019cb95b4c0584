// The bench sheet program (docs/SPECIFICATION.md, section 16): it reads a sheet from standard input, runs it, and writes what it
// prints to standard output. If a read fails, it runs and writes nothing. If a write fails, what is not yet written is lost, and the
// program ends with the error. ./sheet reads and writes the streams for it, and tells.

#![tactic(auto)]

use std::io;

// One byte more than a sheet may have, so that a longer one is seen.
const BUFFER_SIZE: usize = parser::MOST_BYTES + 1;

fn main(rt: HostRuntime) -> io::Result<()> {
    let mut buffer = [0; BUFFER_SIZE];
    let Ok(count) = stdin::read_input(&mut rt.stdin(), &mut buffer) else {
        return Ok(());
    };
    let mut out = [0; script::MOST_TEXT];
    let end = script::run_sheet(&buffer[..count], &mut out);
    rt.write_all(&out[..end])
}
