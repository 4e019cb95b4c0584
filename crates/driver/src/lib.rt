// One call of a history: the call, then the replay of the operations that it reports. Its contracts are what `DrivenSafety`,
// demands 2 and 3 of programs that make such calls, is stated of.

#![tactic(auto)]

ghost use Rattle.std.specs.Prelude.{◌≡◌, ◌*◌, ◌≤◌, length, take, map, IfOk, MatchResult};
ghost use Rattle.model.specs.declared.Session.{Session};
ghost use Rattle.model.specs.Ops.{op_numbers};
ghost use Rattle.model.specs.Replay.{replay_outcome};
ghost use Rattle.model.specs.Clients.{Clients};
ghost use Rattle.model.specs.Session.{zero_session};
ghost use Rattle.model.specs.Outcome.{lent, told};
ghost use Rattle.model.specs.History.{call_open, call_write, call_discard, call_checkpoint};
ghost use Rattle.model.specs.Write.{write_args_of};
ghost use Rattle.driver.specs.Stepped.{report_of, Called, Stepped};

use clients::Record;
use model::{Answer, Layout, Place, Refusal, Session};

// Replays all that a call reports, which is nothing where it was refused.
fn play_reported(image: &mut [u8], trace: &[u64], called: Result<Answer, Refusal>)
    requires { IfOk called (λ a. op_numbers * a.ops ≤ length trace.now) }
    ensures { MatchResult called (λ a. image.new ≡ (replay_outcome image.old (take (op_numbers * a.ops) trace.now) a.ops).image) (λ _. image.new ≡ image.old) }
{
    if let Ok(answer) = called {
        let end = trace::OP_NUMBERS * answer.ops as usize;
        // a replay of what a call reports is not refused
        let _ = replay::crpm_replay(image, &trace[..end], answer.ops);
    }
}

// An opening, replayed whole, with the records of clients lent.
pub fn step_open<R: Record>(
    image: &mut [u8],
    layout: Layout,
    domain: u64,
    clients: &mut [R],
    trace: &mut [u64],
) -> Result<Answer, Refusal>
    ensures { (s : Session) → Stepped Called image.old s (call_open layout domain (lent (map R.client_of clients.old) trace.old)) (report_of (told zero_session result) (map R.client_of clients.new)) trace.new image.new }
{
    let opened = crpm::crpm_open(image, layout, domain, clients, trace);
    play_reported(image, trace, opened);
    opened
}

// A write, replayed whole, with the records of clients lent.
pub fn step_write<R: Record>(
    image: &mut [u8],
    session: Session,
    clients: &mut [R],
    client: u64,
    place: Place,
    bytes: &[u8],
    trace: &mut [u64],
) -> Result<Answer, Refusal>
    ensures { Stepped Called image.old session (call_write (write_args_of client place.main place.block place.offset bytes.now) (lent (map R.client_of clients.old) trace.old)) (report_of (told session result) (map R.client_of clients.new)) trace.new image.new }
{
    let written = crpm::crpm_write(image, session, clients, client, place, bytes, trace);
    play_reported(image, trace, written);
    written
}

// A discard, replayed whole. It is lent no records of clients, and leaves them, whatever they are.
pub fn step_discard(
    image: &mut [u8],
    session: Session,
    main: u64,
    trace: &mut [u64],
) -> Result<Answer, Refusal>
    ensures { (R : Clients) → Stepped Called image.old session (call_discard main (lent R trace.old)) (report_of (told session result) R) trace.new image.new }
{
    let discarded = discard::crpm_discard(image, session, main, trace);
    play_reported(image, trace, discarded);
    discarded
}

// A checkpoint, replayed whole, with the records of clients lent.
pub fn step_checkpoint<R: Record>(
    image: &mut [u8],
    session: Session,
    clients: &mut [R],
    trace: &mut [u64],
) -> Result<Answer, Refusal>
    ensures { Stepped Called image.old session (call_checkpoint (lent (map R.client_of clients.old) trace.old)) (report_of (told session result) (map R.client_of clients.new)) trace.new image.new }
{
    let checkpointed = crpm::crpm_checkpoint(image, session, clients, trace);
    play_reported(image, trace, checkpointed);
    checkpointed
}
