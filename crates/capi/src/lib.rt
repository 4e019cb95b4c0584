// The C interface (include/crpm.h): nine calls of the library, exported under their own names. A slice is a pointer and a length; a
// session is a pointer to its words (in C: struct crpm_session), records of clients are words too, three each (struct crpm_client), and
// every number that a call answers with is a pointer to one word, so that no length of theirs can be wrong. Each call returns the number
// of its status. What opening, write, discard and checkpoint return is said in crates/interface/specs/Interface.antt, the rest in model's
// terms.

#![tactic(auto)]

ghost use Rattle.std.specs.Prelude.{◌≡◌, ◌≢◌, cond};
ghost use Rattle.model.specs.Layout.{layout_of};
ghost use Rattle.model.specs.Clients.{Clients};
ghost use Rattle.model.specs.Format.{format_outcome};
ghost use Rattle.model.specs.Write.{write_args_of};
ghost use Rattle.model.specs.Replay.{replay_outcome};
ghost use Rattle.model.specs.Reads.{read_status, working_part, checkpoint_part};
ghost use Rattle.model.specs.Same.{same_outcome};
ghost use Rattle.model.specs.Session.{zero_session};
ghost use Rattle.model.specs.Outcome.{lent, told, Gives};
ghost use Rattle.model.specs.Open.{open_outcome};
ghost use Rattle.clients.specs.Run.{loaded};
ghost use Rattle.clients.specs.Words.{clients_in};
ghost use Rattle.interface.specs.Interface.{open_returned, write_returned, discard_returned, checkpoint_returned, Returns};

use clients::{CLIENT_WORDS, Run};
use interface::{DIRTY_BLOCKS_AT, DIRTY_SEGMENTS_AT, SESSION_WORDS};
use model::{Answer, Layout, Place, Refusal, Session};

// Formats an image.
#[unsafe(no_mangle)]
pub extern "C" fn crpm_format(image: &mut [u8], mains: u64, backups: u64, blocks: u64) -> u64
    ensures value { result ≡ (format_outcome (layout_of mains backups blocks) image.old).status }
    ensures image_after { image.new ≡ (format_outcome (layout_of mains backups blocks) image.old).image }
{
    model::status_code(format::crpm_format(image, Layout::new(mains, backups, blocks)))
}

// The records that stand in words, as a value. It stays a call: inlined in three calls, it takes a kilobyte more of the library's code.
#[inline(never)]
fn run_in(clients: &[[u64; CLIENT_WORDS]]) -> Run
    ensures { result ≡ loaded (clients_in clients.now) }
{
    Run::load(clients)
}

// An opening with the records that stand in words, as crpm's.
fn open_in(
    image: &[u8],
    layout: Layout,
    domain: u64,
    clients: &mut [[u64; CLIENT_WORDS]],
    trace: &mut [u64],
) -> Result<Answer, Refusal>
    ensures { Gives (open_outcome layout domain image.now (lent (clients_in clients.old) trace.old)) trace.old (told zero_session result) trace.new (clients_in clients.new) }
{
    let run = run_in(clients);
    let answer = open::open_run(image, layout, domain, run, trace)?;
    clients::clear(clients);
    Ok(answer)
}

// Opening on a kind of module: the session that it answers, and the number of its operations.
#[unsafe(no_mangle)]
pub extern "C" fn crpm_open(
    image: &[u8],
    mains: u64,
    backups: u64,
    blocks: u64,
    domain: u64,
    session: &mut [u64; SESSION_WORDS],
    clients: &mut [[u64; CLIENT_WORDS]],
    trace: &mut [u64],
    ops: &mut u64,
) -> u64
    ensures { Returns (open_returned (layout_of mains backups blocks) domain image.now (clients_in clients.old) trace.old) result session.new (clients_in clients.new) trace.new ops.new }
{
    let opened = open_in(
        image,
        Layout::new(mains, backups, blocks),
        domain,
        clients,
        trace,
    );
    // a refused opening answers a session of zeros
    let zeros = Session::fresh(Layout::new(0, 0, 0), Session::ADR);
    interface::give_answer(session, ops, zeros, opened)
}

// Write: the session afterwards, and the number of its operations.
#[unsafe(no_mangle)]
pub extern "C" fn crpm_write(
    image: &[u8],
    session: &mut [u64; SESSION_WORDS],
    clients: &mut [[u64; CLIENT_WORDS]],
    client: u64,
    main: u64,
    block: u64,
    offset: u64,
    bytes: &[u8],
    trace: &mut [u64],
    ops: &mut u64,
) -> u64
    ensures { Returns (write_returned image.now session.old (clients_in clients.old) (write_args_of client main block offset bytes.now) trace.old) result session.new (clients_in clients.new) trace.new ops.new }
{
    let run = run_in(clients);
    let place = Place {
        main,
        block,
        offset,
    };
    let view = interface::view_in(session);
    match write::write_parts(image, view, run, client, place, bytes, trace) {
        Ok(written) => {
            session[DIRTY_SEGMENTS_AT] = written.dirty_segments;
            session[DIRTY_BLOCKS_AT + main as usize] = written.word;
            let record = run.record_of(client, written.used);
            clients::put(clients, client as usize, record);
            *ops = written.ops;
            0
        }
        Err(refusal) => {
            *ops = 0;
            u64::from(refusal)
        }
    }
}

// Discard: the number of its operations. The session is only read, since it stays, and no records of clients are lent.
#[unsafe(no_mangle)]
pub extern "C" fn crpm_discard(
    image: &[u8],
    session: &[u64; SESSION_WORDS],
    main: u64,
    trace: &mut [u64],
    ops: &mut u64,
) -> u64
    ensures { (R : Clients) → Returns (discard_returned image.now session.now R main trace.old) result session.now R trace.new ops.new }
{
    let discarded = discard::discard_parts(image, interface::view_in(session), main, trace);
    *ops = discarded.unwrap_or(0);
    model::status_code(discarded)
}

// Checkpoint: the session afterwards, and the number of its operations.
#[unsafe(no_mangle)]
pub extern "C" fn crpm_checkpoint(
    image: &[u8],
    session: &mut [u64; SESSION_WORDS],
    clients: &mut [[u64; CLIENT_WORDS]],
    trace: &mut [u64],
    ops: &mut u64,
) -> u64
    ensures { Returns (checkpoint_returned image.now session.old (clients_in clients.old) trace.old) result session.new (clients_in clients.new) trace.new ops.new }
{
    let view = interface::view_in(session);
    let judged = run_in(clients).judge(view.layout);
    match checkpoint::checkpoint_parts(image, view, judged, trace) {
        Ok(reported) => {
            session[DIRTY_SEGMENTS_AT] = 0;
            clients::clear(clients);
            *ops = reported;
            0
        }
        Err(refusal) => {
            *ops = 0;
            u64::from(refusal)
        }
    }
}

// Replay: the image afterwards, and the number of operations played.
#[unsafe(no_mangle)]
pub extern "C" fn crpm_replay(image: &mut [u8], trace: &[u64], n: u64, played: &mut u64) -> u64
    ensures value { result ≡ (replay_outcome image.old trace.now n).status }
    ensures image_after { image.new ≡ (replay_outcome image.old trace.now n).image }
    ensures played_after { played.new ≡ (replay_outcome image.old trace.now n).played }
{
    let replayed = replay::crpm_replay(image, trace, n);
    *played = replayed.unwrap_or(0);
    model::status_code(replayed)
}

// The number of a read that found a part of this size: 0 where there is one.
fn part_code(image: &[u8], layout: Layout, main: u64, block: u64, size: u64) -> u64
    requires { size ≢ 0 → read_status layout image.now main block ≡ 0 }
    ensures { result ≡ read_status layout image.now main block }
{
    if size != 0 {
        return 0;
    }
    model::status_code(reads::read_status(image, layout, main, block))
}

// Working read: where the part of the image starts that holds the block, and its length.
#[unsafe(no_mangle)]
pub extern "C" fn crpm_read_working(
    image: &[u8],
    mains: u64,
    backups: u64,
    blocks: u64,
    main: u64,
    block: u64,
    start: &mut u64,
    size: &mut u64,
) -> u64
    ensures value { result ≡ read_status (layout_of mains backups blocks) image.now main block }
    ensures start_after { start.new ≡ (working_part (layout_of mains backups blocks) image.now main block).start }
    ensures size_after { size.new ≡ (working_part (layout_of mains backups blocks) image.now main block).size }
{
    let layout = Layout::new(mains, backups, blocks);
    let working = reads::working_part(image, layout, main, block);
    *start = working.start;
    *size = working.size;
    part_code(image, layout, main, block, working.size)
}

// Checkpoint read: where the part of the image starts that holds the block as of the last checkpoint, and its length.
#[unsafe(no_mangle)]
pub extern "C" fn crpm_read_checkpoint(
    image: &[u8],
    mains: u64,
    backups: u64,
    blocks: u64,
    main: u64,
    block: u64,
    start: &mut u64,
    size: &mut u64,
) -> u64
    ensures value { result ≡ read_status (layout_of mains backups blocks) image.now main block }
    ensures start_after { start.new ≡ (checkpoint_part (layout_of mains backups blocks) image.now main block).start }
    ensures size_after { size.new ≡ (checkpoint_part (layout_of mains backups blocks) image.now main block).size }
{
    let layout = Layout::new(mains, backups, blocks);
    let kept = reads::checkpoint_part(image, layout, main, block);
    *start = kept.start;
    *size = kept.size;
    part_code(image, layout, main, block, kept.size)
}

// Whether two images have the same checkpoint: 1 or 0.
#[unsafe(no_mangle)]
pub extern "C" fn crpm_same_checkpoint(
    a: &[u8],
    b: &[u8],
    mains: u64,
    backups: u64,
    blocks: u64,
    same: &mut u64,
) -> u64
    ensures value { result ≡ (same_outcome (layout_of mains backups blocks) a.now b.now).status }
    ensures same_after { same.new ≡ cond (same_outcome (layout_of mains backups blocks) a.now b.now).same 1 0 }
{
    let compared = same::crpm_same_checkpoint(a, b, Layout::new(mains, backups, blocks));
    *same = compared.unwrap_or(false) as u64;
    model::status_code(compared)
}
