// THE CALLS OF A HISTORY, as users of the library make them: opening, write and checkpoint, with the records of all clients (the trade:
// consoles) lent, by name or in words. Nothing is asked of the caller. Each takes the records as a value, leaves the work to the crate of
// the call, and puts back what changed. A refused call leaves the records as they are and nothing on the trace, and the session stays.

#![tactic(auto)]

ghost use Rattle.std.specs.Prelude.{map};
ghost use Rattle.model.specs.Session.{zero_session};
ghost use Rattle.model.specs.Outcome.{Gives, lent, told};
ghost use Rattle.model.specs.Open.{open_outcome};
ghost use Rattle.model.specs.Write.{write_args_of, write_outcome};
ghost use Rattle.model.specs.Checkpoint.{checkpoint_outcome};

use clients::{Record, Run};
use model::{Answer, Layout, Place, Refusal, Session};

// Opening (SPECIFICATION 9) on a kind of module: recovers the checkpoint after any crash, and answers a session in which nothing is dirty; no
// client has then taken any backup segment.
pub fn crpm_open<R: Record>(
    image: &[u8],
    layout: Layout,
    domain: u64,
    clients: &mut [R],
    trace: &mut [u64],
) -> Result<Answer, Refusal>
    ensures { Gives (open_outcome layout domain image.now (lent (map R.client_of clients.old) trace.old)) trace.old (told zero_session result) trace.new (map R.client_of clients.new) }
{
    let run = Run::load(clients);
    let answer = open::open_run(image, layout, domain, run, trace)?;
    clients::clear(clients);
    Ok(answer)
}

// Write (SPECIFICATION 10) by a client: puts the bytes into a main segment, from an offset in a block on and through the following blocks.
// A copy of the main segment is charged to the client.
pub fn crpm_write<R: Record>(
    image: &[u8],
    session: Session,
    clients: &mut [R],
    client: u64,
    place: Place,
    bytes: &[u8],
    trace: &mut [u64],
) -> Result<Answer, Refusal>
    ensures { Gives (write_outcome session image.now (write_args_of client place.main place.block place.offset bytes.now) (lent (map R.client_of clients.old) trace.old)) trace.old (told session result) trace.new (map R.client_of clients.new) }
{
    let run = Run::load(clients);
    let (answer, record) = write::write_run(image, session, run, client, place, bytes, trace)?;
    clients::put(clients, client as usize, record);
    Ok(answer)
}

// Checkpoint (SPECIFICATION 11; the trade: save): all that was written becomes the checkpoint, in one step that no crash divides; no client
// has then taken any backup segment.
pub fn crpm_checkpoint<R: Record>(
    image: &[u8],
    session: Session,
    clients: &mut [R],
    trace: &mut [u64],
) -> Result<Answer, Refusal>
    ensures { Gives (checkpoint_outcome session image.now (lent (map R.client_of clients.old) trace.old)) trace.old (told session result) trace.new (map R.client_of clients.new) }
{
    let run = Run::load(clients);
    let answer = checkpoint::checkpoint_run(image, session, run, trace)?;
    clients::clear(clients);
    Ok(answer)
}
