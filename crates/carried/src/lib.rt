// Callers of the C interface that carry the operations out themselves: the four exported calls of a history, each with what its
// contract gives in the terms of `CarriedSafety` (specs/Carried.antt), so that the checker holds the one against the other.

#![tactic(auto)]

ghost use Rattle.model.specs.declared.Session.{Session};
ghost use Rattle.model.specs.Layout.{layout_of};
ghost use Rattle.model.specs.Write.{write_args_of};
ghost use Rattle.model.specs.Clients.{Clients};
ghost use Rattle.model.specs.Outcome.{lent};
ghost use Rattle.model.specs.History.{call_open, call_write, call_discard, call_checkpoint};
ghost use Rattle.clients.specs.Words.{clients_in};
ghost use Rattle.interface.specs.Interface.{session_in};
ghost use Rattle.carried.specs.Carried.{report_in, Exported};

use clients::CLIENT_WORDS;
use interface::SESSION_WORDS;

// An opening, whatever the session before it.
pub fn exported_open(
    image: &[u8],
    mains: u64,
    backups: u64,
    blocks: u64,
    domain: u64,
    session: &mut [u64; SESSION_WORDS],
    clients: &mut [[u64; CLIENT_WORDS]],
    trace: &mut [u64],
    ops: &mut u64,
) -> u64
    ensures { (s : Session) → Exported image.now s (call_open (layout_of mains backups blocks) domain (lent (clients_in clients.old) trace.old)) (report_in result session.new (clients_in clients.new) ops.new) trace.new }
{
    capi::crpm_open(
        image, mains, backups, blocks, domain, session, clients, trace, ops,
    )
}

// A write.
pub fn exported_write(
    image: &[u8],
    session: &mut [u64; SESSION_WORDS],
    clients: &mut [[u64; CLIENT_WORDS]],
    client: u64,
    main: u64,
    block: u64,
    offset: u64,
    bytes: &[u8],
    trace: &mut [u64],
    ops: &mut u64,
) -> u64
    ensures { Exported image.now (session_in session.old) (call_write (write_args_of client main block offset bytes.now) (lent (clients_in clients.old) trace.old)) (report_in result session.new (clients_in clients.new) ops.new) trace.new }
{
    capi::crpm_write(
        image, session, clients, client, main, block, offset, bytes, trace, ops,
    )
}

// A discard.
pub fn exported_discard(
    image: &[u8],
    session: &[u64; SESSION_WORDS],
    main: u64,
    trace: &mut [u64],
    ops: &mut u64,
) -> u64
    ensures { (R : Clients) → Exported image.now (session_in session.now) (call_discard main (lent R trace.old)) (report_in result session.now R ops.new) trace.new }
{
    capi::crpm_discard(image, session, main, trace, ops)
}

// A checkpoint.
pub fn exported_checkpoint(
    image: &[u8],
    session: &mut [u64; SESSION_WORDS],
    clients: &mut [[u64; CLIENT_WORDS]],
    trace: &mut [u64],
    ops: &mut u64,
) -> u64
    ensures { Exported image.now (session_in session.old) (call_checkpoint (lent (clients_in clients.old) trace.old)) (report_in result session.new (clients_in clients.new) ops.new) trace.new }
{
    capi::crpm_checkpoint(image, session, clients, trace, ops)
}
