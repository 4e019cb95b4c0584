// The program for older bench sheets (docs/SPECIFICATION.md, 16.8 and 16.9): it reads a sheet from standard input and writes the
// rewritten sheet to standard output, or in a line why there is none. It reads and writes as the sheet program does, and
// ./sheet --upgrade tells for it.

#![tactic(auto)]

use std::io;

// One byte more than a sheet may have, so that a longer one is seen.
const BUFFER_SIZE: usize = parser::MOST_BYTES + 1;

fn main(rt: HostRuntime) -> io::Result<()> {
    let mut buffer = [0; BUFFER_SIZE];
    let Ok(count) = stdin::read_input(&mut rt.stdin(), &mut buffer) else {
        return Ok(());
    };
    let mut out = [0; parser::MOST_BYTES];
    let end = upgrade::upgrade_sheet(&buffer[..count], &mut out);
    rt.write_all(&out[..end])
}
