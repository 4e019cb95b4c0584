// Two consoles on one module: the stage, console 0, and the gallery, console 1, which share two spares, each with share 1 and limit 2
// (SPECIFICATION 5.7). The calls are made over records that are lent by name, and the orders of each are played. The file `stdout` has the
// expected lines, worked out by hand from the specification:
//
// C1 to C5     the board is opened, the stage writes every level, and a save: levels without saved bytes need no spare
// C6 to C9     the stage takes one spare; the other is set apart for the gallery (15), which takes it; then none is free (9)
// C10, C11     a save frees both, and the gallery takes one again
// C12, C13     power went, with nothing left in the cache. One level in state 2 is restored and keeps its spare until the next save:
//              the free one is set apart for the gallery, so the stage, below its share, hears 15
// C14 to C16   after the save each console takes a spare; the gallery's level has one already, with the same bytes: 5 orders
// C17, C18     power went again. Two levels in state 2 keep both spares: the stage, below its share, hears 9
// C19, C20     after the save it does not
// C21, C22     a console that has no record, and a share above its limit, are refused (13)
//
// C13 and C18 are why the promise of a share begins at the first save after an opening (SPECIFICATION 15.7).

#![tactic(auto)]

ghost use Rattle.std.specs.Prelude.{◌≡◌, [], ◌∷◌, ◌≤◌};
ghost use Rattle.model.specs.declared.Session.{Session};
ghost use Rattle.model.specs.Words.{byte_at};
ghost use Rattle.model.specs.Layout.{layout_of};
ghost use Rattle.model.specs.Session.{adr, zero_session};
ghost use Rattle.model.specs.Clients.{client_of};
ghost use Rattle.model.specs.Outcome.{Gives, lent, told};
ghost use Rattle.model.specs.Open.{open_outcome};
ghost use Rattle.model.specs.Write.{write_args_of, write_outcome};
ghost use Rattle.model.specs.Checkpoint.{checkpoint_outcome};
ghost use Rattle.model.specs.Replay.{replay_outcome};

use model::{Answer, Client, Layout, Place, Refusal, Session};

// The board's sizes: three levels, two spares, one frame each; and the bytes of its image.
const SIZES: Layout = Layout {
    mains: 3,
    backups: 2,
    blocks: 1,
};

const IMAGE: usize = 1792;

// The numbers of the tape: three for each order of the longest call, the first opening.
const TAPE: usize = 327;

// The byte of every write.
const BYTES: [u8; 1] = [0xa1];

// The consoles: the stage and the gallery.
const CONSOLES: usize = 2;

// ---- small parts

// A byte of an image, or 0 past its end.
fn byte_at(image: &[u8], at: usize) -> u8
    ensures { result ≡ byte_at image.now at }
{
    image.get(at).copied().unwrap_or(0)
}

// Where the active line of states stands, by the epoch's first byte.
fn active_line(image: &[u8]) -> usize
    ensures { result ≤ 192 }
{
    if byte_at(image, 0) % 2 == 0 { 128 } else { 192 }
}

// The records of both consoles, which have taken nothing: a share and a limit of the stage, and those of the gallery.
fn records(share: u64, limit: u64) -> [Client; CONSOLES]
    ensures { result ≡ client_of share limit 0 ∷ client_of 1 2 0 ∷ [] }
{
    let stage = Client {
        reserved: share,
        quota: limit,
        used: 0,
    };
    let gallery = Client {
        reserved: 1,
        quota: 2,
        used: 0,
    };
    [stage, gallery]
}

// ---- printed lines: a write that fails is dropped, and the story goes on

// Prints how a call ended, how many orders it reports, and how many spares each console has taken.
fn print_answer(
    rt: &impl Print,
    name: &str,
    ended: Result<Answer, Refusal>,
    clients: [Client; CONSOLES],
) {
    let code = model::status_code(ended);
    let orders = orders_of(ended);
    let [stage, gallery] = clients;
    let _ = print!(rt;
        " {name}={code} orders={orders} taken={},{}",
        stage.used, gallery.used
    );
}

// Prints the states of the three levels on the active line, and the pairs of the two spares.
fn print_board(rt: &impl Print, image: &[u8]) {
    let line = active_line(image);
    let first = byte_at(image, line);
    let second = byte_at(image, line + 1);
    let third = byte_at(image, line + 2);
    let _ = println!(rt;
        " states={first},{second},{third} pairs={},{}",
        byte_at(image, 256),
        byte_at(image, 257)
    );
}

// ---- calls with the records lent, and their orders played

// How many orders a call reports: none where it is refused.
fn orders_of(ended: Result<Answer, Refusal>) -> u64
    ensures { (s : Session) → result ≡ (told s ended).ops }
{
    match ended {
        Ok(answer) => answer.ops,
        Err(_) => 0,
    }
}

// An opening.
fn play_open(
    image: &mut [u8],
    clients: &mut [Client; CONSOLES],
    trace: &mut [u64],
) -> Result<Answer, Refusal>
    ensures gives { Gives (open_outcome (layout_of 3 2 1) adr image.old (lent clients.old trace.old)) trace.old (told zero_session result) trace.new clients.new }
    ensures image_after { (s : Session) → image.new ≡ (replay_outcome image.old trace.new (told s result).ops).image }
{
    let opened = crpm::crpm_open(image, SIZES, Session::ADR, &mut clients[..], trace);
    let _ = replay::crpm_replay(image, trace, orders_of(opened));
    opened
}

// A write of one byte at the start of a level, by a console.
fn play_write(
    image: &mut [u8],
    session: Session,
    clients: &mut [Client; CONSOLES],
    console: u64,
    level: u64,
    trace: &mut [u64],
) -> Result<Answer, Refusal>
    ensures gives { Gives (write_outcome session image.old (write_args_of console level 0 0 (161 ∷ [])) (lent clients.old trace.old)) trace.old (told session result) trace.new clients.new }
    ensures image_after { image.new ≡ (replay_outcome image.old trace.new (told session result).ops).image }
{
    let place = Place {
        main: level,
        block: 0,
        offset: 0,
    };
    let bytes = BYTES;
    let written = crpm::crpm_write(
        image,
        session,
        &mut clients[..],
        console,
        place,
        &bytes,
        trace,
    );
    let _ = replay::crpm_replay(image, trace, orders_of(written));
    written
}

// A save.
fn play_save(
    image: &mut [u8],
    session: Session,
    clients: &mut [Client; CONSOLES],
    trace: &mut [u64],
) -> Result<Answer, Refusal>
    ensures gives { Gives (checkpoint_outcome session image.old (lent clients.old trace.old)) trace.old (told session result) trace.new clients.new }
    ensures image_after { image.new ≡ (replay_outcome image.old trace.new (told session result).ops).image }
{
    let saved = crpm::crpm_checkpoint(image, session, &mut clients[..], trace);
    let _ = replay::crpm_replay(image, trace, orders_of(saved));
    saved
}

// ---- the story

// A call: an opening, a write by a console to a level, or a save.
#[derive(Clone, Copy)]
enum Call {
    Open,
    Write(u64, u64),
    Save,
}

// The calls C1 to C21.
const CALLS: [Call; 21] = [
    Call::Open,
    Call::Write(0, 0),
    Call::Write(0, 1),
    Call::Write(0, 2),
    Call::Save,
    Call::Write(0, 0),
    Call::Write(0, 1),
    Call::Write(1, 1),
    Call::Write(1, 2),
    Call::Save,
    Call::Write(1, 2),
    Call::Open,
    Call::Write(0, 0),
    Call::Save,
    Call::Write(0, 0),
    Call::Write(1, 1),
    Call::Open,
    Call::Write(0, 2),
    Call::Save,
    Call::Write(0, 2),
    Call::Write(2, 0),
];

// Makes a call with the card and the records that the last one left, and plays its orders.
fn play(
    image: &mut [u8],
    session: Session,
    clients: &mut [Client; CONSOLES],
    trace: &mut [u64],
    call: Call,
) -> Result<Answer, Refusal>
    ensures { image.new ≡ (replay_outcome image.old trace.new (told session result).ops).image }
{
    match call {
        Call::Open => play_open(image, clients, trace),
        Call::Write(console, level) => play_write(image, session, clients, console, level, trace),
        Call::Save => play_save(image, session, clients, trace),
    }
}

// Makes a call with the card and the records that the last one left, plays its orders and prints its answer.
fn make(
    rt: &impl Print,
    image: &mut [u8],
    session: Session,
    clients: &mut [Client; CONSOLES],
    trace: &mut [u64],
    call: Call,
) -> Result<Answer, Refusal>
    ensures { image.new ≡ (replay_outcome image.old trace.new (told session result).ops).image }
{
    let ended = play(image, session, clients, trace, call);
    match call {
        Call::Open => print_answer(rt, "open", ended, *clients),
        Call::Write(console, level) => {
            let _ = print!(rt; " console={console} level={level}");
            print_answer(rt, "write", ended, *clients);
        }
        Call::Save => print_answer(rt, "save", ended, *clients),
    }
    ended
}

// The card where a call is refused: an opening answers one of zeros, and the others leave the one that was lent.
fn kept(call: Call, session: Session) -> Session {
    match call {
        Call::Open => Session::fresh(Layout::new(0, 0, 0), Session::ADR),
        Call::Write(_, _) | Call::Save => session,
    }
}

// C1 to C21: each call is lent the records that the last one left. The card afterwards.
fn history(rt: &impl Print, image: &mut [u8], trace: &mut [u64]) -> Session {
    let mut session = Session::fresh(SIZES, Session::ADR);
    let mut clients = records(1, 2);
    for (i, call) in CALLS.iter().enumerate() {
        let _ = print!(rt; "C{}", i + 1);
        let ended = make(rt, image, session, &mut clients, trace, *call);
        print_board(rt, image);
        session = ended.map_or(kept(*call, session), |answer| answer.session);
    }
    session
}

// C22: a save with records of which one has a share above its limit.
fn bad_share(rt: &impl Print, image: &mut [u8], session: Session, trace: &mut [u64]) {
    let mut clients = records(1, 0);
    let saved = play_save(image, session, &mut clients, trace);
    let _ = print!(rt; "C22 share=1 limit=0");
    print_answer(rt, "save", saved, clients);
    print_board(rt, image);
}

fn main(rt: HostRuntime) {
    let mut image = [7u8; IMAGE];
    let mut trace = [0u64; TAPE];
    let _ = format::crpm_format(&mut image, SIZES);
    let session = history(&rt, &mut image, &mut trace);
    bad_share(&rt, &mut image, session, &mut trace);
}
