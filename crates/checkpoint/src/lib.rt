// Checkpoint (SPECIFICATION 11; the trade: save): the dirty blocks are written back, the next states are stored on the
// inactive line, and then the epoch is raised.

#![tactic(auto)]

ghost use Rattle.std.specs.Prelude.{◌≡◌, ◌≢◌, cond, ◌++◌, ℕ, ◌+◌, ◌*◌, ◌^◌, ◌≤◌, ◌<◌, length, get_or, IfOk};
ghost use Rattle.model.specs.Words.{Image, word_of};
ghost use Rattle.model.specs.Layout.{word_size, line_size, line_words, most, metadata_size};
ghost use Rattle.model.specs.Status.{code_of, first_error, served};
ghost use Rattle.model.specs.Container.{committed_epoch, seg_state};
ghost use Rattle.model.specs.Ops.{for_domain};
ghost use Rattle.model.specs.Clients.{Clients, clients_errors, cleared};
ghost use Rattle.model.specs.Outcome.{lent, told, Gives};
ghost use Rattle.model.specs.Checkpoint.{flush_dirty, next_states, states_ops, epoch_ops, checkpoint_ops, epoch_errors, lent_errors, checkpoint_outcome};
ghost use Rattle.trace.specs.Emit.{Fits, Emitted};
ghost use Rattle.session.specs.Parts.{session_of, viewed};
ghost use Rattle.session.specs.Marked.{marked_segments};
ghost use Rattle.clients.specs.Run.{loaded};
ghost use Rattle.checkpoint.specs.Advance.{last_epoch, Advancing};
ghost use Rattle.checkpoint.specs.Checkpointed.{checkpointed_answer};

use clients::Run;
use model::{Answer, Layout, Refusal, Session};
use session::SessionView;
use trace::Writer;

// Sizes as indexes count them.
const WORD_SIZE: usize = Layout::WORD_SIZE as usize;

const LINE_WORDS: usize = Layout::LINE_WORDS as usize;

const EPOCH_AT: usize = Layout::EPOCH_AT as usize;

// The epoch that cannot be raised.
const LAST_EPOCH: u64 = u64::MAX;

// Operations of a checkpoint besides write-backs: the line of states and the epoch stored, and three fences.
const STATES_OPS: u64 = Layout::LINE_WORDS;

const EPOCH_OPS: u64 = 1;

const FENCES: u64 = 3;

const FIXED_OPS: u64 = STATES_OPS + EPOCH_OPS + FENCES;

// Write-backs of a checkpoint besides those of dirty blocks: of the line of states and of the epoch.
const FIXED_FLUSHES: u64 = 2;

// ---- the dirty blocks

// Writes back every dirty block of every main segment, upward: `marked` has those that have one.
fn put_flushes(layout: Layout, words: &[u64], marked: u64, out: &mut Writer)
    requires mains_le_most { (layout.mains ≤ most) × (layout.blocks ≤ most) × (most ≤ length words.now) }
    requires by_index { (i : ℕ) → i < layout.mains → get_or words.now i 0 < 2 ^ layout.blocks }
    requires marked_value { marked ≡ marked_segments words.now layout.mains }
    requires fits { Fits out.old (flush_dirty layout words.now) }
    ensures { Emitted out.old (flush_dirty layout words.now) out.new }
{
    for i in words::bits(marked) {
        let at = places::main_at(layout, i as u64);
        segments::put_dirty_clwbs(layout.blocks, words[i], at, out);
    }
}

// ---- the states

// Word k of the next states, by the line of states: eight segments at once (SPECIFICATION 11.2). A byte of the states laid over by the
// bit of its segment is 0 exactly where the segment is in state 0 and not dirty.
fn next_word(image: &[u8], line: usize, segments: u64, k: usize) -> u64
    requires { (k < line_words) × (line + line_size ≤ length image.now) }
    ensures { result ≡ word_of (next_states segments (seg_state image.now line)) (word_size * k) }
{
    let i = WORD_SIZE * k;
    let states = words::word_at(image, line + i);
    words::present(states | words::spread(segments, i as u64))
}

// Stores the next states on the inactive line, upward, and writes it back.
fn put_states(image: &[u8], segments: u64, out: &mut Writer)
    requires metadata_size_in_bounds { metadata_size ≤ length image.now }
    requires fits { Fits out.old (states_ops image.now segments) }
    ensures { Emitted out.old (states_ops image.now segments) out.new }
{
    let from = metadata::active_at(image);
    let to = metadata::inactive_at(image);
    for k in 0..LINE_WORDS {
        let word = next_word(image, from, segments, k);
        out.store((to + WORD_SIZE * k) as u64, word);
    }
    out.clwb(to as u64);
}

// ---- the epoch

// Raises the epoch by 1 and writes it back.
fn put_epoch(image: &[u8], out: &mut Writer)
    requires word_size_in_bounds { (word_size ≤ length image.now) × (committed_epoch image.now ≢ last_epoch) }
    requires fits { Fits out.old (epoch_ops image.now) }
    ensures { Emitted out.old (epoch_ops image.now) out.new }
{
    let epoch = words::word_at(image, EPOCH_AT);
    out.store(Layout::EPOCH_AT, epoch + 1);
    out.clwb(Layout::EPOCH_AT);
}

// ---- all operations

// Their number on the trace for the kind of module, whatever the dirty segments and the image.
#[tactic(auto, using(model::proofs::Laws::Counts::Checkpoint::count_checkpoint), unfolding(model::specs::Counts::flushes))]
fn checkpoint_length(session: SessionView, marked: u64) -> u64
    requires mains_le_most { session.layout.mains ≤ most }
    requires by_index { (i : ℕ) → i < session.layout.mains → get_or session.dirty_blocks.now i 0 < 2 ^ session.layout.blocks }
    requires marked_value { marked ≡ marked_segments session.dirty_blocks.now session.layout.mains }
    ensures { ((segments : ℕ) (I : Image) → result ≡ length (for_domain session.entry.domain (checkpoint_ops (session_of session.entry.layout segments session.entry.dirty_blocks.now session.entry.domain) I))) × (result < 2 ^ 32) }
{
    let blocks = session::dirty_total(session.layout, session.dirty_blocks, marked);
    trace::flush_count(session.domain, Layout::BLOCK_LINES * blocks + FIXED_FLUSHES) + FIXED_OPS
}

// Writes them: dirty blocks, fence, states, fence, epoch, fence.
fn put_checkpoint(image: &[u8], session: SessionView, marked: u64, out: &mut Writer)
    requires advancing { Advancing session.layout image.now session.dirty_blocks.now × (marked ≡ marked_segments session.dirty_blocks.now session.layout.mains) }
    requires fits { Fits out.old (checkpoint_ops (viewed session) image.now) }
    ensures { Emitted out.old (checkpoint_ops (viewed session.entry) image.now) out.new }
{
    put_flushes(session.layout, session.dirty_blocks, marked, out);
    out.sfence();
    put_states(image, session.dirty_segments, out);
    out.sfence();
    put_epoch(image, out);
    out.sfence();
}

// ---- the call

// The first refusal of a checkpoint that applies, whatever the trace: a bad image or session, bad records, or an epoch that cannot be
// raised. `judged` is what refusal 13 says of the records.
#[tactic(auto, unfolding(model::specs::Status::first_error))]
fn checkpoint_status(
    image: &[u8],
    session: SessionView,
    judged: Result<(), Refusal>,
) -> Result<(), Refusal>
    ensures result_value { (R : Clients) → code_of judged ≡ first_error (clients_errors session.entry.layout R) → code_of result ≡ first_error (lent_errors (viewed session.entry) image.now R ++ epoch_errors image.now) }
    ensures advancing { IfOk result (λ _. Advancing session.entry.layout image.now session.entry.dirty_blocks.now) }
{
    session.judge(image)?;
    judged?;
    if words::word_at(image, EPOCH_AT) == LAST_EPOCH {
        return Err(Refusal::EpochLimit);
    }
    Ok(())
}

// A checkpoint on a session that is lent (the trade: save): all that was written becomes the checkpoint, in one step that
// no crash divides; how many operations that are. Served, it leaves no dirty segment and no client that has taken any, and the words of
// dirty blocks stay; refused, session and records stay whole. `judged` is what refusal 13 says of the records, which the caller judges
// (clients::Run::judge), and clears where the call is served.
pub fn checkpoint_parts(
    image: &[u8],
    session: SessionView,
    judged: Result<(), Refusal>,
    trace: &mut [u64],
) -> Result<u64, Refusal>
    ensures { (R : Clients) → code_of judged ≡ first_error (clients_errors session.entry.layout R) → Gives (checkpoint_outcome (viewed session.entry) image.now (lent R trace.old)) trace.old (told (viewed session.entry) (checkpointed_answer (viewed session.entry) result)) trace.new (cond (served (code_of result)) (cleared R) R) }
{
    checkpoint_status(image, session, judged)?;
    let marked = session::marked_segments(session.dirty_blocks, session.layout.mains as usize);
    let ops = checkpoint_length(session, marked);
    trace::trace_status(trace.len(), ops)?;
    let mut out = Writer::new(session.domain, trace);
    put_checkpoint(image, session, marked, &mut out);
    Ok(ops)
}

// Checkpoint, with session and run as values: the answer has the session afterwards. The caller clears the records that he lent where the
// call is served.
pub fn checkpoint_run(
    image: &[u8],
    session: Session,
    run: Run,
    trace: &mut [u64],
) -> Result<Answer, Refusal>
    ensures { (R : Clients) → run ≡ loaded R → Gives (checkpoint_outcome session image.now (lent R trace.old)) trace.old (told session result) trace.new (cond (served (code_of result)) (cleared R) R) }
{
    let judged = run.judge(session.layout);
    let ops = checkpoint_parts(image, SessionView::of(&session), judged, trace)?;
    Ok(Answer {
        session: session::with_checkpoint(session),
        ops,
    })
}
