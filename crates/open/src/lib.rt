// Opening, which recovers (SPECIFICATION 9): each main segment is treated by the table of states and pairs, so that its
// bytes are the checkpoint again. What recovery does is given a line of states; an opening goes by the active one.

#![tactic(auto)]

ghost use Rattle.std.specs.Prelude.{◌≡◌, true, cond, ◌+◌, ◌^◌, ◌≤◌, ◌<◌, length};
ghost use Rattle.model.specs.Layout.{most, pairs_end, ss_backup, SizesOk, image_size};
ghost use Rattle.model.specs.Status.{code_of, first_error, served};
ghost use Rattle.model.specs.Container.{seg_state, backup_to_main, is_paired, paired_backup};
ghost use Rattle.model.specs.Session.{zero_session, domain_errors};
ghost use Rattle.model.specs.Ops.{for_domain};
ghost use Rattle.model.specs.Clients.{Clients, clients_errors, cleared};
ghost use Rattle.model.specs.Outcome.{lent, told, Gives};
ghost use Rattle.model.specs.Open.{recovery_action, action_ops, recover_segment, recovery_ops, open_outcome};
ghost use Rattle.model.specs.Counts.{acts, treated};
ghost use Rattle.trace.specs.Emit.{Fits, Emitted};
ghost use Rattle.clients.specs.Run.{loaded};
ghost use Rattle.open.specs.Recovery.{ValidBy, PairedSet, takes_backup, recovery_outcome};

use clients::Run;
use model::{Action, Answer, Layout, Refusal, Session};
use trace::Writer;

// What recovery does, by the state of a main segment and whether it is paired (SPECIFICATION 9.6: a constant table); the two cells that cannot
// be do nothing.
const RECOVERY_ACTION: [[Action; 2]; 3] = [
    [Action::ZeroMain, Action::Nothing],
    [Action::Nothing, Action::CopyToBackup],
    [Action::Nothing, Action::CopyToMain],
];

// The action for a state, and whether the main segment is paired.
fn recovery_action(state: u8, paired: bool) -> Action
    requires { state ≤ ss_backup }
    ensures { result ≡ recovery_action state paired }
{
    let row = RECOVERY_ACTION[state as usize];
    if paired { row[1] } else { row[0] }
}

// 1 for an action that treats a segment, else 0.
#[tactic(auto, unfolding(model::specs::Counts::acts))]
fn treats(action: Action) -> u64
    ensures { (result ≡ acts action) × (result ≤ 1) }
{
    match action {
        Action::Nothing => 0,
        Action::ZeroMain | Action::CopyToBackup | Action::CopyToMain => 1,
    }
}

// ---- one segment

// What recovery does about main segment i.
fn segment_action(image: &[u8], layout: Layout, line: usize, paired: u64, i: usize) -> Action
    requires { (i < layout.mains) × ValidBy layout image.now line × PairedSet layout image.now paired }
    ensures { result ≡ recovery_action (seg_state image.now line i) (is_paired layout (backup_to_main image.now) i) }
{
    recovery_action(image[line + i], words::has_bit(paired, i as u64))
}

// The backup segment of a main segment, or 0 where it has none.
#[tactic(auto, using(model::proofs::Laws::Container::paired_at), unfolding(metadata::specs::Find::found_below))]
fn backup_of(image: &[u8], layout: Layout, main: u64) -> u64
    requires { (main < most) × (layout.backups ≤ most) × (pairs_end ≤ length image.now) }
    ensures { is_paired layout (backup_to_main image.now) main ≡ true → result ≡ paired_backup layout (backup_to_main image.now) main }
{
    metadata::find_paired_backup(image, layout, main).unwrap_or(0)
}

// Writes the operations of an action on main segment i and backup segment j.
#[tactic(auto, using(model::proofs::Laws::Layout::segment_in_image), unfolding(model::specs::Open::action_ops))]
fn put_action(image: &[u8], layout: Layout, i: u64, j: u64, action: Action, out: &mut Writer)
    requires i_lt_mains { (i < layout.mains) × (takes_backup action ≡ true → j < layout.backups) × SizesOk layout × (length image.now ≡ image_size layout) }
    requires fits { Fits out.old (action_ops layout image.now i j action) }
    ensures { Emitted out.old (action_ops layout image.now i j action) out.new }
{
    match action {
        Action::Nothing => {}
        Action::ZeroMain => segments::put_segment_zero(layout, places::main_at(layout, i), out),
        Action::CopyToBackup => {
            let from = places::main_at(layout, i);
            let to = places::backup_at(layout, j);
            segments::put_segment_copy(image, layout, from, to, out)
        }
        Action::CopyToMain => {
            let from = places::backup_at(layout, j);
            let to = places::main_at(layout, i);
            segments::put_segment_copy(image, layout, from, to, out)
        }
    }
}

// Writes the operations of recovery of main segment i.
#[tactic(auto, using(model::proofs::Laws::Layout::metadata_inside, crate::proofs::ActionLaws::takes_there, crate::proofs::ActionLaws::takes_own, crate::proofs::ActionLaws::own_ops))]
fn put_segment(image: &[u8], layout: Layout, line: usize, paired: u64, i: usize, out: &mut Writer)
    requires i_lt_mains { (i < layout.mains) × ValidBy layout image.now line × PairedSet layout image.now paired }
    requires fits { Fits out.old (recover_segment layout image.now line i) }
    ensures { Emitted out.old (recover_segment layout image.now line i) out.new }
{
    let action = segment_action(image, layout, line, paired, i);
    let j = backup_of(image, layout, i as u64);
    put_action(image, layout, i as u64, j, action, out);
}

// ---- all segments

// How many main segments recovery treats.
#[tactic(auto, using(model::proofs::Laws::Range::sum_none, model::proofs::Laws::Range::sum_more), unfolding(model::specs::Counts::treated))]
fn count_treated(image: &[u8], layout: Layout, line: usize, paired: u64) -> u64
    requires { ValidBy layout image.now line × PairedSet layout image.now paired }
    ensures { (result ≡ treated layout image.now line) × (result ≤ most) }
{
    let mut sum = 0;
    for i in 0..layout.mains as usize {
        sum += treats(segment_action(image, layout, line, paired, i));
    }
    sum
}

// The number of the operations of recovery on the trace for a kind of module.
#[tactic(auto, using(model::proofs::Laws::Counts::count_recovery, crate::proofs::RecoveryLaws::recovery_bound))]
fn recovery_length(image: &[u8], layout: Layout, line: usize, paired: u64, domain: u64) -> u64
    requires { ValidBy layout image.now line × PairedSet layout image.now paired }
    ensures { (result ≡ length (for_domain domain (recovery_ops layout image.now line))) × (result < 2 ^ 32) }
{
    trace::copied_ops(domain) * layout.blocks * count_treated(image, layout, line, paired) + 1
}

// Writes the operations of recovery: the main segments upward, then one fence. They go through a writer of its own, whose number of the next
// operation need not be kept in memory: through the one that is lent an opening takes up to 1.8 times as long.
fn put_recovery(image: &[u8], layout: Layout, line: usize, paired: u64, out: &mut Writer)
    requires valid_by { ValidBy layout image.now line × PairedSet layout image.now paired }
    requires fits { Fits out.old (recovery_ops layout image.now line) }
    ensures { Emitted out.old (recovery_ops layout image.now line) out.new }
{
    let mut here = Writer {
        domain: out.domain,
        trace: &mut *out.trace,
        next: out.next,
    };
    for i in 0..layout.mains as usize {
        put_segment(image, layout, line, paired, i, &mut here);
    }
    here.sfence();
    out.next = here.next;
}

// ---- the call

// Refusal 5 of an opening, which is given the kind of module alone: there is no such kind.
#[tactic(auto, unfolding(model::specs::Status::first_error))]
fn domain_status(domain: u64) -> Result<(), Refusal>
    ensures { code_of result ≡ first_error (domain_errors domain) }
{
    if domain > Session::EADR {
        return Err(Refusal::BadSession);
    }
    Ok(())
}

// Recovers the checkpoint by a line of states, of an image that has the layout's size, and answers a session in which
// nothing is dirty. `judged` is what refusal 13 says of the records of clients.
fn recover(
    image: &[u8],
    layout: Layout,
    line: usize,
    domain: u64,
    judged: Result<(), Refusal>,
    trace: &mut [u64],
) -> Result<Answer, Refusal>
    requires { SizesOk layout × (length image.now ≡ image_size layout) × (line + most ≤ length image.now) }
    ensures { (R : Clients) → code_of judged ≡ first_error (clients_errors layout R) → Gives (recovery_outcome layout domain image.now line (lent R trace.old)) trace.old (told zero_session result) trace.new (cond (served (code_of result)) (cleared R) R) }
{
    let Ok(paired) = container::examine(image, layout, line) else {
        return Err(Refusal::Invalid);
    };
    domain_status(domain)?;
    judged?;
    let ops = recovery_length(image, layout, line, paired, domain);
    trace::trace_status(trace.len(), ops)?;
    let mut out = Writer::new(domain, trace);
    put_recovery(image, layout, line, paired, &mut out);
    Ok(Answer {
        session: Session::fresh(layout, domain),
        ops,
    })
}

// Opening by a layout and a kind of module (SPECIFICATION 9): recovers the checkpoint after any crash, and answers a session in which
// nothing is dirty. `judged` is what refusal 13 says of the records, which the caller judges (clients::Run::judge), and clears where the
// call is served.
#[tactic(auto, using(model::proofs::Laws::Layout::metadata_inside, places::proofs::PlaceLaws::sized))]
pub fn open_parts(
    image: &[u8],
    layout: Layout,
    domain: u64,
    judged: Result<(), Refusal>,
    trace: &mut [u64],
) -> Result<Answer, Refusal>
    ensures { (R : Clients) → code_of judged ≡ first_error (clients_errors layout R) → Gives (open_outcome layout domain image.now (lent R trace.old)) trace.old (told zero_session result) trace.new (cond (served (code_of result)) (cleared R) R) }
{
    places::layout_status(image, layout)?;
    let active = metadata::active_at(image);
    recover(image, layout, active, domain, judged, trace)
}

// Opening, with the run as a value. The caller clears the records that he lent where the call is served.
pub fn open_run(
    image: &[u8],
    layout: Layout,
    domain: u64,
    run: Run,
    trace: &mut [u64],
) -> Result<Answer, Refusal>
    ensures { (R : Clients) → run ≡ loaded R → Gives (open_outcome layout domain image.now (lent R trace.old)) trace.old (told zero_session result) trace.new (cond (served (code_of result)) (cleared R) R) }
{
    let judged = run.judge(layout);
    open_parts(image, layout, domain, judged, trace)
}
