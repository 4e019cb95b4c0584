// The bench cases P1 to P10 of SPECIFICATION 17, run on the library; R1 to R7, a restart with four levels restored from all spares and
// the first save after it (SPECIFICATION 17.4), which crate `cases` computes (`RestoredStory`); L1 to L7, long writes of 700 bytes
// (SPECIFICATION 17.5), which it has too (`LongStory`) and which are read back here, byte by byte; and D1 to D11, edits that are dropped
// (SPECIFICATION 17.8, `DiscardStory`), with a drop that is cut and an opening after the last save. Each line has what was measured. The
// file `stdout` has the expected lines, worked out by hand from the specification. The cuts of P4, and those of a restart like this one,
// are tried by the second program (rust/, `bench cases` and `restored levels`), over every permitted image, and those of the long writes
// (`long writes`) over every image where there are 256 or fewer, and over samples where there are more.

#![tactic(auto)]

ghost use Rattle.std.specs.Prelude.{◌≤◌};

use model::{Answer, Client, Layout, Place, Refusal, Session};
use std::fmt;

// The history's sizes: two levels, one spare, one frame each.
const SIZES: Layout = Layout {
    mains: 2,
    backups: 1,
    blocks: 1,
};

// The sizes of P10 and of the long writes: one level, one spare, four frames.
const SIZES_LONG: Layout = Layout {
    mains: 1,
    backups: 1,
    blocks: 4,
};

// The sizes of the restart's board.
const SIZES_BOARD: Layout = Layout {
    mains: 6,
    backups: 4,
    blocks: 1,
};

// The bytes of an image of each.
const IMAGE: usize = 1280;

const IMAGE_LONG: usize = 2560;

const IMAGE_BOARD: usize = 3072;

// The numbers of the tape that an opening of the history's image needs, and of the tape that the calls get.
const OPENING: usize = 219;

const TAPE: usize = 1200;

// The bytes that the writes of P1 to P10 and R1 to R7 take theirs from, and the most bytes of a write.
const BYTES: [u8; 8] = [0xa1, 0xb2, 0xc3, 0xd4, 0xe5, 0xf6, 0x07, 0x18];

const MOST_BYTES: usize = 995;

// The two bytes of the writes of D1, D3 and D4.
const EDITS: [[u8; 2]; 4] = [[10, 11], [0, 0], [20, 21], [30, 31]];

// ---- cases and calls

// A case, by its letter and its number.
#[derive(Clone, Copy)]
enum Case {
    P(u64),
    R(u64),
    L(u64),
    D(u64),
}

impl fmt::Display for Case {
    fn fmt<W: fmt::Write>(&self, f: &mut fmt::Formatter<W>) -> fmt::Result {
        match self {
            Case::P(n) => write!(f, "P{n}"),
            Case::R(n) => write!(f, "R{n}"),
            Case::L(n) => write!(f, "L{n}"),
            Case::D(n) => write!(f, "D{n}"),
        }
    }
}

// What a call does: a write to a level, a frame and an offset of so many bytes, a save, or a drop of a level's edits with a tape of so
// many numbers.
#[derive(Clone, Copy)]
enum Action {
    Write(u64, u64, u64, usize),
    Save,
    Discard(u64, usize),
}

// A call of a case.
#[derive(Clone, Copy)]
struct Call(Case, Action);

// The calls of P3 to P9, which are one history, and of P10, which are another.
const P3_TO_P9: [Call; 11] = [
    Call(Case::P(3), Action::Write(0, 0, 6, 4)),
    Call(Case::P(4), Action::Save),
    Call(Case::P(5), Action::Write(0, 0, 0, 8)),
    Call(Case::P(6), Action::Write(0, 0, 8, 8)),
    Call(Case::P(7), Action::Write(1, 0, 0, 8)),
    Call(Case::P(8), Action::Save),
    Call(Case::P(8), Action::Write(1, 0, 8, 8)),
    Call(Case::P(8), Action::Write(0, 0, 16, 8)),
    Call(Case::P(9), Action::Write(1, 0, 255, 1)),
    Call(Case::P(9), Action::Write(1, 0, 256, 1)),
    Call(Case::P(9), Action::Write(1, 0, 0, 0)),
];

const P10: [Call; 5] = [
    Call(Case::P(10), Action::Write(0, 2, 0, 8)),
    Call(Case::P(10), Action::Save),
    Call(Case::P(10), Action::Write(0, 3, 0, 8)),
    Call(Case::P(10), Action::Save),
    Call(Case::P(10), Action::Write(0, 1, 0, 8)),
];

// The calls before the restart; after it those before the save; the save; what follows where it was cut, and where it was not.
const R1: [Call; 10] = [
    Call(Case::R(1), Action::Write(0, 0, 0, 1)),
    Call(Case::R(1), Action::Write(1, 0, 0, 1)),
    Call(Case::R(1), Action::Write(2, 0, 0, 1)),
    Call(Case::R(1), Action::Write(3, 0, 0, 1)),
    Call(Case::R(1), Action::Write(4, 0, 0, 1)),
    Call(Case::R(1), Action::Save),
    Call(Case::R(1), Action::Write(0, 0, 0, 2)),
    Call(Case::R(1), Action::Write(1, 0, 0, 2)),
    Call(Case::R(1), Action::Write(2, 0, 0, 2)),
    Call(Case::R(1), Action::Write(3, 0, 0, 2)),
];

const R3_AND_R4: [Call; 2] = [
    Call(Case::R(3), Action::Write(4, 0, 0, 2)),
    Call(Case::R(4), Action::Write(5, 0, 0, 2)),
];

const R5: [Call; 1] = [Call(Case::R(5), Action::Save)];

const R6_AND_R7: [Call; 2] = [
    Call(Case::R(6), Action::Save),
    Call(Case::R(7), Action::Write(4, 0, 0, 2)),
];

const R7: [Call; 1] = [Call(Case::R(7), Action::Write(4, 0, 0, 2))];

// The long writes: the zeros of L1, as if they had been written; the write of L2 and its save; the write of L4; what follows.
const ZEROS: Call = Call(Case::L(1), Action::Write(0, 0, 0, 1024));

const L2: Call = Call(Case::L(2), Action::Write(0, 0, 30, 700));

const L3: [Call; 1] = [Call(Case::L(3), Action::Save)];

const L4: Call = Call(Case::L(4), Action::Write(0, 1, 30, 700));

const L6: Call = Call(Case::L(6), Action::Write(0, 0, 30, 700));

const L7: Call = Call(Case::L(7), Action::Write(0, 0, 30, 994));

const L5_TO_L7: [Call; 6] = [
    Call(Case::L(5), Action::Save),
    Call(Case::L(6), Action::Write(0, 0, 30, 700)),
    Call(Case::L(7), Action::Write(0, 2, 30, 700)),
    Call(Case::L(7), Action::Write(0, 0, 256, 1)),
    Call(Case::L(7), Action::Write(0, 0, 30, 994)),
    Call(Case::L(7), Action::Write(0, 0, 30, 995)),
];

// The dropped edits: the calls before the drops; the first drop; what follows.
const D1_TO_D4: [Call; 4] = [
    Call(Case::D(1), Action::Write(0, 0, 0, 2)),
    Call(Case::D(2), Action::Save),
    Call(Case::D(3), Action::Write(0, 0, 0, 2)),
    Call(Case::D(4), Action::Write(1, 0, 0, 2)),
];

const D5: [Call; 1] = [Call(Case::D(5), Action::Discard(0, 1200))];

const D6_TO_D10: [Call; 5] = [
    Call(Case::D(6), Action::Discard(1, 1200)),
    Call(Case::D(7), Action::Discard(2, 1200)),
    Call(Case::D(8), Action::Discard(0, 95)),
    Call(Case::D(9), Action::Save),
    Call(Case::D(10), Action::Discard(0, 0)),
];

// ---- small parts

// A byte of an image, or 0 past its end.
fn byte_at(image: &[u8], at: usize) -> u8 {
    image.get(at).copied().unwrap_or(0)
}

// Where the active line of states stands, by the epoch's first byte.
fn active_line(image: &[u8]) -> usize
    ensures { result ≤ 192 }
{
    if byte_at(image, 0) % 2 == 0 { 128 } else { 192 }
}

// Byte i of a case's writes. Of a long write it is 1 to 251, and where those of two cases stand in the same place their bytes differ;
// L1 has zeros, and the edits that are dropped have two bytes of their own.
fn byte_of(case: Case, i: usize) -> u8 {
    match case {
        Case::P(_) | Case::R(_) => BYTES[i % 8],
        Case::L(1) => 0,
        Case::L(n) => ((i % 251 + 60 * ((n % 8 + 1) % 8) as usize) % 251 + 1) as u8,
        Case::D(n) => EDITS[((n % 4 + 3) % 4) as usize][i % 2],
    }
}

// The first n bytes, or all if there are fewer.
fn first_of(bytes: &[u8], n: usize) -> &[u8] {
    &bytes[..n.min(bytes.len())]
}

// ---- what is read back

// Which read.
#[derive(Clone, Copy)]
enum Read {
    Working,
    Saved,
}

impl Read {
    // The bytes of a level's frame.
    fn bytes(self, image: &[u8], layout: Layout, main: u64, block: u64) -> &[u8] {
        match self {
            Read::Working => reads::crpm_read_working(image, layout, main, block),
            Read::Saved => reads::crpm_read_checkpoint(image, layout, main, block),
        }
    }
}

// Where a byte of a frame stands in its level.
fn place_of(block: u64, offset: u64) -> usize {
    (256 * (block % 4) + offset % 256) as usize
}

// A byte of level 0 that stands at a place of it is the one that a call wrote there.
fn is_back(byte: u8, at: usize, call: Call) -> bool {
    let Call(case, Action::Write(_, block, offset, length)) = call else {
        return false;
    };
    let start = place_of(block, offset);
    if at < start {
        return false;
    }
    let i = at - start;
    i < length && byte == byte_of(case, i)
}

// How many bytes of a call's write a read of level 0, which has four frames, gives back.
fn back(image: &[u8], layout: Layout, read: Read, call: Call) -> u64 {
    let mut count = 0u64;
    for block in 0..4 {
        let bytes = read.bytes(image, layout, 0, block);
        for (offset, byte) in bytes.iter().enumerate() {
            if is_back(*byte, place_of(block, offset as u64), call) {
                count = count.saturating_add(1);
            }
        }
    }
    count
}

// ---- printed lines: a write that fails is dropped, and the cases go on

// Prints how a call ended, how many orders it reports, and the card: the levels touched and the marks of levels 0 and 1, a bit
// each. The answer, which has the card that was lent and no orders where the call was refused.
fn print_answer(
    rt: &impl Print,
    name: &str,
    kept: Session,
    ended: Result<Answer, Refusal>,
) -> Answer {
    let code = model::status_code(ended);
    let answer = ended.unwrap_or(Answer {
        session: kept,
        ops: 0,
    });
    let ops = answer.ops;
    let touched = answer.session.dirty_segments;
    let first = answer.session.dirty_blocks[0];
    let second = answer.session.dirty_blocks[1];
    let _ = print!(rt; " {name}={code} orders={ops} touched={touched} marks={first},{second}");
    answer
}

// Prints an order: kind, place, and the word in hexadecimal.
fn print_op(rt: &impl Print, name: &str, op: &[u64]) {
    if let [kind, place, word] = op {
        let _ = print!(rt; " {name}={kind},{place},{word:016x}");
    }
}

// Prints the first and the last of some orders.
fn print_ops(rt: &impl Print, trace: &[u64], ops: u64) {
    let all = trace.len() / trace::OP_NUMBERS;
    let count = all.min(ops as usize);
    if count == 0 {
        return;
    }
    print_op(rt, "first", &trace[..trace::OP_NUMBERS]);
    let last = trace::OP_NUMBERS * (count - 1);
    print_op(rt, "last", &trace[last..last + trace::OP_NUMBERS]);
}

// Prints the length of the saved read of a level's frame 0 and, if it is not 0, where it starts.
fn print_saved(rt: &impl Print, image: &[u8], layout: Layout, main: u64) {
    let start = reads::checkpoint_part(image, layout, main, 0).start;
    let _ = match reads::crpm_read_checkpoint(image, layout, main, 0).len() {
        0 => print!(rt; "0"),
        size => print!(rt; "{size}@{start}"),
    };
}

// Prints the first byte of the epoch, the states of levels 0 and 1 on either line, and the first pair.
fn print_metadata(rt: &impl Print, image: &[u8]) {
    let epoch = byte_at(image, 0);
    let _ = print!(rt; " epoch={epoch}");
    let _ = print!(rt; " at128={},{}", byte_at(image, 128), byte_at(image, 129));
    let _ = print!(rt; " at192={},{}", byte_at(image, 192), byte_at(image, 193));
    let _ = print!(rt; " at256={}", byte_at(image, 256));
}

// Prints how many bytes a read gives back: zeros, and of the long writes those of L2, of L4, of L6 and of the one of L7 that is
// served.
fn print_back(rt: &impl Print, name: &str, image: &[u8], layout: Layout, read: Read) {
    let zeros = back(image, layout, read, ZEROS);
    let l2 = back(image, layout, read, L2);
    let l4 = back(image, layout, read, L4);
    let l6 = back(image, layout, read, L6);
    let l7 = back(image, layout, read, L7);
    let _ = print!(rt; " {name}={zeros},{l2},{l4},{l6},{l7}");
}

// Prints a level: its saved read, and the first two bytes of its working read in hexadecimal.
fn print_level(rt: &impl Print, image: &[u8], layout: Layout, main: u64) {
    let part = reads::crpm_read_working(image, layout, main, 0);
    let first = byte_at(part, 0);
    let second = byte_at(part, 1);
    print_saved(rt, image, layout, main);
    let _ = print!(rt; ":{first:02x}{second:02x}");
}

// Prints the first `count` levels.
fn print_levels(rt: &impl Print, image: &[u8], layout: Layout, count: u64) {
    let _ = print!(rt; " levels=");
    print_level(rt, image, layout, 0);
    for main in 1..count {
        let _ = print!(rt; ",");
        print_level(rt, image, layout, main);
    }
}

// Prints `count` bytes from a place of an image on, with commas.
fn print_bytes(rt: &impl Print, name: &str, image: &[u8], at: usize, count: usize)
    requires { (at ≤ 256) × (count ≤ 8) }
{
    let _ = print!(rt; " {name}={}", byte_at(image, at));
    for i in 1..count {
        let _ = print!(rt; ",{}", byte_at(image, at + i));
    }
}

// Prints the board of the restart: the first byte of the epoch, the states of its six levels on the active line, the pairs of its
// four spares, and the levels.
fn print_board(rt: &impl Print, image: &[u8], layout: Layout) {
    let _ = print!(rt; " epoch={}", byte_at(image, 0));
    print_bytes(rt, "states", image, active_line(image), 6);
    print_bytes(rt, "pairs", image, 256, 4);
    print_levels(rt, image, layout, 6);
}

// Prints what stands after a case, and the end of the line: of the restart's cases the board; of the others the metadata, the saved reads
// of levels 0 and 1, and for a long write what is read back, or for dropped edits the levels.
fn print_image(rt: &impl Print, image: &[u8], layout: Layout, case: Case) {
    match case {
        Case::R(_) => print_board(rt, image, layout),
        Case::D(_) => {
            print_metadata(rt, image);
            print_levels(rt, image, layout, 2);
        }
        Case::P(_) | Case::L(_) => {
            print_metadata(rt, image);
            let _ = print!(rt; " saved=");
            print_saved(rt, image, layout, 0);
            let _ = print!(rt; ",");
            print_saved(rt, image, layout, 1);
        }
    }
    if let Case::L(_) = case {
        print_back(rt, "working", image, layout, Read::Working);
        print_back(rt, "kept", image, layout, Read::Saved);
    }
    let _ = println!(rt; "");
}

// ---- histories

// Where a history stands: the card, and the record of its one console, which makes every write and whose share and limit are all
// spares.
#[derive(Clone, Copy)]
struct Stand {
    session: Session,
    client: Client,
}

// Makes a call, which is lent a run of one record, and prints it.
fn make(
    rt: &impl Print,
    image: &mut [u8],
    trace: &mut [u64],
    session: Session,
    clients: &mut [Client],
    call: Call,
) -> Answer {
    let Call(case, action) = call;
    let _ = print!(rt; "{case}");
    match action {
        Action::Save => {
            let saved = driver::step_checkpoint(image, session, clients, trace);
            print_answer(rt, "save", session, saved)
        }
        Action::Discard(main, numbers) => {
            let tape = numbers.min(trace.len());
            let _ = print!(rt; " level={main} tape={tape}");
            let dropped = driver::step_discard(image, session, main, &mut trace[..tape]);
            print_answer(rt, "drop", session, dropped)
        }
        Action::Write(main, block, offset, length) => {
            let mut bytes = [0u8; MOST_BYTES];
            for (i, byte) in bytes.iter_mut().enumerate() {
                *byte = byte_of(case, i);
            }
            let given = first_of(&bytes, length);
            let _ = print!(rt;
                " level={main} frame={block} at={offset} length={}",
                given.len()
            );
            let place = Place {
                main,
                block,
                offset,
            };
            let written = driver::step_write(image, session, clients, 0, place, given, trace);
            print_answer(rt, "write", session, written)
        }
    }
}

// The calls of a history, each made and looked at, from where it stands; where it stands afterwards.
fn history(
    rt: &impl Print,
    image: &mut [u8],
    trace: &mut [u64],
    given: Stand,
    calls: &[Call],
) -> Stand {
    let mut stand = given;
    for call in calls {
        let Call(case, _) = *call;
        let Stand { session, client } = stand;
        let mut clients = [client];
        let answer = make(rt, image, trace, session, &mut clients, *call);
        print_ops(rt, trace, answer.ops);
        print_image(rt, image, session.layout, case);
        stand = Stand {
            session: answer.session,
            client: clients[0],
        };
    }
    stand
}

// What stands is opened, with the record of a console that has taken nothing.
fn start(rt: &impl Print, image: &mut [u8], layout: Layout, trace: &mut [u64]) -> Stand {
    let mut clients = [Client {
        reserved: layout.backups,
        quota: layout.backups,
        used: 0,
    }];
    let opened = driver::step_open(image, layout, Session::ADR, &mut clients, trace);
    let none = Session::fresh(Layout::new(0, 0, 0), Session::ADR);
    let answer = print_answer(rt, "open", none, opened);
    Stand {
        session: answer.session,
        client: clients[0],
    }
}

// A fresh opening with a tape.
fn open(rt: &impl Print, image: &mut [u8], layout: Layout, trace: &mut [u64]) -> Stand {
    let _ = format::crpm_format(image, layout);
    let _ = print!(rt; " tape={}", trace.len());
    start(rt, image, layout, trace)
}

// What stands is opened and looked at.
fn reopen(
    rt: &impl Print,
    image: &mut [u8],
    layout: Layout,
    trace: &mut [u64],
    case: Case,
) -> Stand {
    let stand = start(rt, image, layout, trace);
    print_image(rt, image, layout, case);
    stand
}

// A call cut after n orders, every store of which has arrived; what stands is opened and looked at.
fn cut(
    rt: &impl Print,
    image: &mut [u8],
    layout: Layout,
    orders: &[u64],
    n: u64,
    case: Case,
) -> Stand {
    let mut trace = [0u64; TAPE];
    let played = replay::crpm_replay(image, orders, n).unwrap_or(0);
    let _ = print!(rt; "{case} cut={played}");
    reopen(rt, image, layout, &mut trace, case)
}

// ---- P1 to P10

// Lays out an image of any length with the history's sizes.
fn lay_out(rt: &impl Print, image: &mut [u8]) {
    let length = image.len();
    let code = model::status_code(format::crpm_format(image, SIZES));
    let _ = print!(rt; " length={length} lay={code}");
}

// P1: the lengths of images, other lengths, and a size out of range.
fn p1(rt: &impl Print) {
    let most = Layout::MOST;
    let image = places::image_size(SIZES);
    let largest = places::image_size(Layout::new(most, most, most));
    let _ = print!(rt; "P1 image={image} largest={largest}");
    lay_out(rt, &mut [7u8; IMAGE - 1]);
    lay_out(rt, &mut [7u8; IMAGE]);
    lay_out(rt, &mut [7u8; IMAGE + 1]);
    let mains = most + 1;
    let sizes = Layout { mains, ..SIZES };
    let code = model::status_code(format::crpm_format(&mut [7u8; IMAGE], sizes));
    let _ = println!(rt; " mains={mains} lay={code}");
}

// P2: a tape too short by one, and one that is just long enough.
fn p2(rt: &impl Print, image: &mut [u8]) -> Stand {
    let _ = print!(rt; "P2");
    open(rt, image, SIZES, &mut [0u64; OPENING - 1]);
    let stand = open(rt, image, SIZES, &mut [0u64; OPENING]);
    let _ = println!(rt; "");
    stand
}

// P3 to P9.
fn p3_to_p9(rt: &impl Print) {
    let mut image = [7u8; IMAGE];
    let mut trace = [0u64; TAPE];
    let stand = p2(rt, &mut image);
    history(rt, &mut image, &mut trace, stand, &P3_TO_P9);
}

// P10: before the last call of its history the level is paired, in state 1 and untouched, with one mark.
fn p10(rt: &impl Print) {
    let mut image = [7u8; IMAGE_LONG];
    let mut trace = [0u64; TAPE];
    let _ = print!(rt; "P10");
    let stand = open(rt, &mut image, SIZES_LONG, &mut trace);
    let _ = println!(rt; "");
    history(rt, &mut image, &mut trace, stand, &P10);
}

// ---- the restart

// R3 to R7: the calls after the restart, and the cuts of their save. A cut after 16 or 17 may leave the epoch's line as it was too, which
// is what a cut after 15 leaves.
fn restarted(rt: &impl Print, opened: [u8; IMAGE_BOARD], stand: Stand) {
    let mut image = opened;
    let mut trace = [0u64; TAPE];
    let touched = history(rt, &mut image, &mut trace, stand, &R3_AND_R4);
    let before = image;
    let saved = history(rt, &mut image, &mut trace, touched, &R5);
    for n in [15, 16] {
        let mut left = before;
        let mut again = [0u64; TAPE];
        let shown = cut(rt, &mut left, SIZES_BOARD, &trace, n, Case::R(5));
        history(rt, &mut left, &mut again, shown, &R6_AND_R7);
    }
    history(rt, &mut image, &mut trace, saved, &R7);
}

// R1: a save, and writes after it that take every spare; then power fails, and every store has arrived. R2 opens what stands.
fn restart(rt: &impl Print) {
    let mut image = [7u8; IMAGE_BOARD];
    let mut trace = [0u64; TAPE];
    let _ = print!(rt; "R1");
    let stand = open(rt, &mut image, SIZES_BOARD, &mut trace);
    let _ = println!(rt; "");
    history(rt, &mut image, &mut trace, stand, &R1);
    let _ = print!(rt; "R2");
    let restored = reopen(rt, &mut image, SIZES_BOARD, &mut trace, Case::R(2));
    restarted(rt, image, restored);
}

// ---- the long writes

// Both reads give L2's bytes back, and zeros around them, where the write of L4 was cut after n orders, every store of which has
// arrived, and what stood was opened.
fn keeps(before: [u8; IMAGE_LONG], written: &[u64], n: u64) -> bool {
    let mut image = before;
    let mut trace = [0u64; TAPE];
    let mut clients = [Client {
        reserved: SIZES_LONG.backups,
        quota: SIZES_LONG.backups,
        used: 0,
    }];
    let _ = replay::crpm_replay(&mut image, written, n);
    let _ = driver::step_open(
        &mut image,
        SIZES_LONG,
        Session::ADR,
        &mut clients,
        &mut trace,
    );
    let working = back(&image, SIZES_LONG, Read::Working, L2);
    let kept = back(&image, SIZES_LONG, Read::Saved, L2);
    let working_zeros = back(&image, SIZES_LONG, Read::Working, ZEROS);
    let kept_zeros = back(&image, SIZES_LONG, Read::Saved, ZEROS);
    (working == 700) & (kept == 700) & (working_zeros == 324) & (kept_zeros == 324)
}

// L4 to L7: the calls after the save of L3, and the cuts of their first write, after 0 to 239 orders.
fn long_again(rt: &impl Print, saved: [u8; IMAGE_LONG], stand: Stand) {
    let mut image = saved;
    let mut trace = [0u64; TAPE];
    let touched = history(rt, &mut image, &mut trace, stand, &[L4]);
    let mut shown = 0u64;
    for n in 0..240 {
        if keeps(saved, &trace, n) {
            shown = shown.saturating_add(1);
        }
    }
    let _ = println!(rt; "L4 cuts=240 shown={shown}");
    history(rt, &mut image, &mut trace, touched, &L5_TO_L7);
}

// L3: the save and its cuts; and what follows. A cut after 24 or 25 may leave the epoch's line as it was too, which is what a cut after 23
// leaves.
fn long_saved(rt: &impl Print, written: [u8; IMAGE_LONG], stand: Stand) {
    let mut image = written;
    let mut trace = [0u64; TAPE];
    let saved = history(rt, &mut image, &mut trace, stand, &L3);
    for n in 23..27 {
        let mut left = written;
        cut(rt, &mut left, SIZES_LONG, &trace, n, Case::L(3));
    }
    long_again(rt, image, saved);
}

// L1 and L2; and what follows.
fn long(rt: &impl Print) {
    let mut image = [7u8; IMAGE_LONG];
    let mut trace = [0u64; TAPE];
    let _ = print!(rt; "L1");
    let stand = open(rt, &mut image, SIZES_LONG, &mut trace);
    let _ = println!(rt; "");
    let touched = history(rt, &mut image, &mut trace, stand, &[L2]);
    long_saved(rt, image, touched);
}

// ---- the dropped edits

// D5 to D11: the drops, cuts of the first of them, the save, and an opening of what it left.
fn drops(rt: &impl Print, edited: [u8; IMAGE], stand: Stand) {
    let mut image = edited;
    let mut trace = [0u64; TAPE];
    let dropped = history(rt, &mut image, &mut trace, stand, &D5);
    for n in [0, 1, 32] {
        let mut left = edited;
        cut(rt, &mut left, SIZES, &trace, n, Case::D(5));
    }
    history(rt, &mut image, &mut trace, dropped, &D6_TO_D10);
    let _ = print!(rt; "D11");
    reopen(rt, &mut image, SIZES, &mut trace, Case::D(11));
}

// D1 to D4; and what follows.
fn edits(rt: &impl Print) {
    let mut image = [7u8; IMAGE];
    let mut trace = [0u64; TAPE];
    let _ = print!(rt; "D1");
    let stand = open(rt, &mut image, SIZES, &mut trace);
    let _ = println!(rt; "");
    let touched = history(rt, &mut image, &mut trace, stand, &D1_TO_D4);
    drops(rt, image, touched);
}

fn main(rt: HostRuntime) {
    p1(&rt);
    p3_to_p9(&rt);
    p10(&rt);
    restart(&rt);
    long(&rt);
    edits(&rt);
}
