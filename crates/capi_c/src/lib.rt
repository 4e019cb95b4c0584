// The static library (include/crpm.h): the nine calls of crate capi, exported under their own names for programs that are not Rattle's. A
// crate is built as a library or for C, not as both: crate capi is the library, which other crates call. What is exported is said again in
// the clauses of capi, so that they are proved of what C calls.

#![tactic(auto)]

ghost use Rattle.std.specs.Prelude.{◌≡◌, cond};
ghost use Rattle.model.specs.Layout.{layout_of};
ghost use Rattle.model.specs.Clients.{Clients};
ghost use Rattle.model.specs.Format.{format_outcome};
ghost use Rattle.model.specs.Write.{write_args_of};
ghost use Rattle.model.specs.Replay.{replay_outcome};
ghost use Rattle.model.specs.Reads.{read_status, working_part, checkpoint_part};
ghost use Rattle.model.specs.Same.{same_outcome};
ghost use Rattle.clients.specs.Words.{clients_in};
ghost use Rattle.interface.specs.Interface.{open_returned, write_returned, discard_returned, checkpoint_returned, Returns};

use clients::CLIENT_WORDS;
use interface::SESSION_WORDS;

// Formats an image.
#[unsafe(no_mangle)]
pub extern "C" fn crpm_format(image: &mut [u8], mains: u64, backups: u64, blocks: u64) -> u64
    ensures value { result ≡ (format_outcome (layout_of mains backups blocks) image.old).status }
    ensures image_after { image.new ≡ (format_outcome (layout_of mains backups blocks) image.old).image }
{
    capi::crpm_format(image, mains, backups, blocks)
}

// Opening on a kind of module: the session that it answers, and the number of its operations.
#[unsafe(no_mangle)]
pub extern "C" fn crpm_open(
    image: &[u8],
    mains: u64,
    backups: u64,
    blocks: u64,
    domain: u64,
    session: &mut [u64; SESSION_WORDS],
    clients: &mut [[u64; CLIENT_WORDS]],
    trace: &mut [u64],
    ops: &mut u64,
) -> u64
    ensures { Returns (open_returned (layout_of mains backups blocks) domain image.now (clients_in clients.old) trace.old) result session.new (clients_in clients.new) trace.new ops.new }
{
    capi::crpm_open(
        image, mains, backups, blocks, domain, session, clients, trace, ops,
    )
}

// Write: the session afterwards, and the number of its operations.
#[unsafe(no_mangle)]
pub extern "C" fn crpm_write(
    image: &[u8],
    session: &mut [u64; SESSION_WORDS],
    clients: &mut [[u64; CLIENT_WORDS]],
    client: u64,
    main: u64,
    block: u64,
    offset: u64,
    bytes: &[u8],
    trace: &mut [u64],
    ops: &mut u64,
) -> u64
    ensures { Returns (write_returned image.now session.old (clients_in clients.old) (write_args_of client main block offset bytes.now) trace.old) result session.new (clients_in clients.new) trace.new ops.new }
{
    capi::crpm_write(
        image, session, clients, client, main, block, offset, bytes, trace, ops,
    )
}

// Discard: the number of its operations. The session is only read, since it stays, and no records of clients are lent.
#[unsafe(no_mangle)]
pub extern "C" fn crpm_discard(
    image: &[u8],
    session: &[u64; SESSION_WORDS],
    main: u64,
    trace: &mut [u64],
    ops: &mut u64,
) -> u64
    ensures { (R : Clients) → Returns (discard_returned image.now session.now R main trace.old) result session.now R trace.new ops.new }
{
    capi::crpm_discard(image, session, main, trace, ops)
}

// Checkpoint: the session afterwards, and the number of its operations.
#[unsafe(no_mangle)]
pub extern "C" fn crpm_checkpoint(
    image: &[u8],
    session: &mut [u64; SESSION_WORDS],
    clients: &mut [[u64; CLIENT_WORDS]],
    trace: &mut [u64],
    ops: &mut u64,
) -> u64
    ensures { Returns (checkpoint_returned image.now session.old (clients_in clients.old) trace.old) result session.new (clients_in clients.new) trace.new ops.new }
{
    capi::crpm_checkpoint(image, session, clients, trace, ops)
}

// Replay: the image afterwards, and the number of operations played.
#[unsafe(no_mangle)]
pub extern "C" fn crpm_replay(image: &mut [u8], trace: &[u64], n: u64, played: &mut u64) -> u64
    ensures value { result ≡ (replay_outcome image.old trace.now n).status }
    ensures image_after { image.new ≡ (replay_outcome image.old trace.now n).image }
    ensures played_after { played.new ≡ (replay_outcome image.old trace.now n).played }
{
    capi::crpm_replay(image, trace, n, played)
}

// Working read: where the part of the image starts that holds the block, and its length.
#[unsafe(no_mangle)]
pub extern "C" fn crpm_read_working(
    image: &[u8],
    mains: u64,
    backups: u64,
    blocks: u64,
    main: u64,
    block: u64,
    start: &mut u64,
    size: &mut u64,
) -> u64
    ensures value { result ≡ read_status (layout_of mains backups blocks) image.now main block }
    ensures start_after { start.new ≡ (working_part (layout_of mains backups blocks) image.now main block).start }
    ensures size_after { size.new ≡ (working_part (layout_of mains backups blocks) image.now main block).size }
{
    capi::crpm_read_working(image, mains, backups, blocks, main, block, start, size)
}

// Checkpoint read: where the part of the image starts that holds the block as of the last checkpoint, and its length.
#[unsafe(no_mangle)]
pub extern "C" fn crpm_read_checkpoint(
    image: &[u8],
    mains: u64,
    backups: u64,
    blocks: u64,
    main: u64,
    block: u64,
    start: &mut u64,
    size: &mut u64,
) -> u64
    ensures value { result ≡ read_status (layout_of mains backups blocks) image.now main block }
    ensures start_after { start.new ≡ (checkpoint_part (layout_of mains backups blocks) image.now main block).start }
    ensures size_after { size.new ≡ (checkpoint_part (layout_of mains backups blocks) image.now main block).size }
{
    capi::crpm_read_checkpoint(image, mains, backups, blocks, main, block, start, size)
}

// Whether two images have the same checkpoint: 1 or 0.
#[unsafe(no_mangle)]
pub extern "C" fn crpm_same_checkpoint(
    a: &[u8],
    b: &[u8],
    mains: u64,
    backups: u64,
    blocks: u64,
    same: &mut u64,
) -> u64
    ensures value { result ≡ (same_outcome (layout_of mains backups blocks) a.now b.now).status }
    ensures same_after { same.new ≡ cond (same_outcome (layout_of mains backups blocks) a.now b.now).same 1 0 }
{
    capi::crpm_same_checkpoint(a, b, mains, backups, blocks, same)
}
