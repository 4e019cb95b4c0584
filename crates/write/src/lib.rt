// Write (SPECIFICATION 10): the bytes of a span come to stand in the blocks of a main segment, from one of them on. Its refusals,
// the operations (the copy on write, then the span), and the session afterwards.

#![tactic(auto)]

ghost use Rattle.std.specs.Prelude.{◌≡◌, true, cond, List, ◌++◌, ℕ, ◌+◌, ◌-◌, ◌*◌, ◌^◌, ◌≤◌, ◌<◌, length, IfOk};
ghost use Rattle.model.specs.Layout.{most, block_size, pairs_end, SizesOk};
ghost use Rattle.model.specs.Status.{code_of, first_error};
ghost use Rattle.model.specs.Container.{active_state, backup_to_main, Valid, free_backups};
ghost use Rattle.model.specs.Session.{set_bits};
ghost use Rattle.model.specs.Ops.{Ops, Trace, trace_errors};
ghost use Rattle.model.specs.Clients.{Clients, most_clients, client_at};
ghost use Rattle.model.specs.Outcome.{lent, told, Gives};
ghost use Rattle.model.specs.Write.{copies, copy_on_write_ops, span_blocks, span_stores, early_errors, late_errors, write_outcome};
ghost use Rattle.trace.specs.Emit.{Fits, Emitted};
ghost use Rattle.session.specs.Parts.{viewed};
ghost use Rattle.span.specs.Steps.{args_of};
ghost use Rattle.copy.specs.Steps.{Writable, CopiesTo};
ghost use Rattle.clients.specs.Run.{loaded};
ghost use Rattle.write.specs.Steps.{SpanWritable};
ghost use Rattle.write.specs.Written.{written_answer, written_clients, run_answer, run_clients};

use clients::Run;
use copy::Segment;
use model::{Answer, Client, Layout, Place, Plan, Refusal, Session};
use session::SessionView;
use span::Span;
use trace::Writer;

// ---- refusals

// The first of refusals 1 to 5, 13, and 6 to 8 that applies to a write by a client of the run.
#[tactic(auto, unfolding(model::specs::Status::first_error))]
fn judge_early(
    image: &[u8],
    session: SessionView,
    run: Run,
    client: u64,
    span: Span,
) -> Result<(), Refusal>
    ensures result_value { (R : Clients) (bytes : List ℕ) → run ≡ loaded R → length bytes ≡ span.len → code_of result ≡ first_error (early_errors (viewed session.entry) image.now R (args_of client span.place bytes)) }
    ensures writable { (bytes : List ℕ) → length bytes ≡ span.len → IfOk result (λ _. SpanWritable (viewed session.entry) image.now (args_of client span.place bytes)) }
    ensures client_lt_count { IfOk result (λ _. (client < run.count) × (run.count ≤ most_clients)) }
{
    let layout = session.layout;
    session.judge(image)?;
    run.judge_client(layout, client)?;
    places::place_status(layout, span.place.main, span.place.block)?;
    if span.is_bad(layout) {
        return Err(Refusal::BadSpan);
    }
    Ok(())
}

// How many backup segments are free for a write that copies its main segment; one that copies nothing does not look at them.
fn free_for(image: &[u8], layout: Layout, plan: Plan) -> u64
    requires { SizesOk layout × (pairs_end ≤ length image.now) × Valid layout (active_state image.now) (backup_to_main image.now) }
    ensures { copies plan ≡ true → result ≡ free_backups layout (active_state image.now) (backup_to_main image.now) }
{
    if copy::has_copy(plan) {
        return metadata::free_backups(image, layout);
    }
    0
}

// The first of refusals 9, 14, 15 and 11 that applies to a write with this plan by a client of the run, for so many operations and a
// trace of `room` numbers.
#[tactic(auto, unfolding(model::specs::Status::first_error))]
fn judge_late(
    image: &[u8],
    layout: Layout,
    plan: Plan,
    run: Run,
    client: u64,
    ops: u64,
    room: usize,
) -> Result<(), Refusal>
    requires sizes_ok { SizesOk layout × (pairs_end ≤ length image.now) × Valid layout (active_state image.now) (backup_to_main image.now) }
    requires ops_bound { (ops ≤ 2 ^ 33) × (client < most_clients) × (run.count ≤ most_clients) }
    ensures result_value { (R : Clients) (O : Ops) (t : Trace) → run ≡ loaded R → length O ≡ ops → length t ≡ room → code_of result ≡ first_error (late_errors plan R client (free_backups layout (active_state image.now) (backup_to_main image.now)) O t) }
    ensures value { (O : Ops) (t : Trace) → length O ≡ ops → length t ≡ room → IfOk result (λ _. 0 ≡ first_error (trace_errors O t)) }
    ensures client_bound { IfOk result (λ _. copies plan ≡ true → (client_at run.clients client).used < (client_at run.clients client).quota) }
{
    if copy::none_free(plan) {
        return Err(Refusal::NoFreeBackup);
    }
    let free = free_for(image, layout, plan);
    run.judge_share(client, copy::has_copy(plan), free)?;
    trace::trace_status(room, ops)
}

// ---- the call

// The operations of a write: the copy, and then the span.
fn put_write(image: &[u8], segment: Segment, plan: Plan, at: usize, bytes: &[u8], out: &mut Writer)
    requires writable { Writable segment.layout image.now segment.main × (segment.word < 2 ^ segment.layout.blocks) }
    requires copies_to { CopiesTo segment.layout plan }
    requires in_bounds { (1 ≤ length bytes.now) × (at + length bytes.now ≤ length image.now) }
    requires fits { Fits out.old (copy_on_write_ops segment.layout image.now segment.word segment.main plan ++ span_stores image.now at bytes.now) }
    ensures { Emitted out.old (copy_on_write_ops segment.layout image.now segment.word segment.main plan ++ span_stores image.now at bytes.now) out.new }
{
    copy::put_copy_on_write(image, segment, plan, out);
    span::put_span(image, at, bytes, out);
}

// The word of dirty blocks of a main segment after a write to a span of it, where it was `word`: a copy clears the dirty blocks of
// the segment; then the blocks of the span are dirty.
fn written_word(layout: Layout, plan: Plan, word: u64, span: Span) -> u64
    requires block_lt_blocks { (span.place.block < layout.blocks) × (layout.blocks ≤ most) × (word < 2 ^ layout.blocks) }
    requires le_len { (1 ≤ span.len) × (span.place.offset + span.len ≤ block_size * (layout.blocks - span.place.block)) }
    ensures { (client : ℕ) (bytes : List ℕ) → length bytes ≡ span.len → result ≡ set_bits (cond (copies plan) 0 word) span.place.block (span_blocks (args_of client span.place bytes)) }
{
    let kept = if copy::has_copy(plan) {
        session::clear_blocks(word, layout.blocks)
    } else {
        word
    };
    session::set_blocks(kept, span.place.block, span.blocks())
}

// What a served write on a session that is lent answers: the two words of the session that it changes, the dirty segments and the main
// segment's word of dirty blocks; what its client has taken; and how many operations stand on the trace.
#[derive(Clone, Copy)]
pub struct Written {
    pub dirty_segments: u64,
    pub word: u64,
    pub used: u64,
    pub ops: u64,
}

// A write on a session that is lent, with the records of clients as a value: puts the bytes into a main segment, from an offset
// in a block on and through the following blocks. The operations stand on the trace.
pub fn write_parts(
    image: &[u8],
    session: SessionView,
    run: Run,
    client: u64,
    place: Place,
    bytes: &[u8],
    trace: &mut [u64],
) -> Result<Written, Refusal>
    ensures gives { (R : Clients) → run ≡ loaded R → Gives (write_outcome (viewed session.entry) image.now (args_of client place bytes.now) (lent R trace.old)) trace.old (told (viewed session.entry) (written_answer (viewed session.entry) place.main result)) trace.new (written_clients R client result) }
    ensures main_lt_most { IfOk result (λ _. (place.main < most) × (client < run.count) × (run.count ≤ most_clients)) }
{
    let layout = session.layout;
    let main = place.main;
    let span = Span {
        place,
        len: bytes.len(),
    };
    judge_early(image, session, run, client, span)?;
    let word = session.dirty_blocks[main as usize];
    let segment = Segment { layout, main, word };
    let plan = copy::plan_copy(image, layout, session.dirty_segments, main);
    let at = span.at(layout);
    let ops = copy::copy_count(plan, segment, session.domain)
        + span::span_words(at, span.len) as u64;
    judge_late(image, layout, plan, run, client, ops, trace.len())?;
    let mut out = Writer::new(session.domain, trace);
    put_write(image, segment, plan, at, bytes, &mut out);
    Ok(Written {
        dirty_segments: session::set_segment(session.dirty_segments, main),
        word: written_word(layout, plan, word, span),
        used: run.used_after(client, copy::has_copy(plan)),
        ops,
    })
}

// Write, with session and run as values: the answer, which has the session afterwards, and the record of its client afterwards.
pub fn write_run(
    image: &[u8],
    session: Session,
    run: Run,
    client: u64,
    place: Place,
    bytes: &[u8],
    trace: &mut [u64],
) -> Result<(Answer, Client), Refusal>
    ensures { (R : Clients) → run ≡ loaded R → Gives (write_outcome session image.now (args_of client place bytes.now) (lent R trace.old)) trace.old (told session (run_answer result)) trace.new (run_clients R client result) }
{
    let view = SessionView::of(&session);
    let written = write_parts(image, view, run, client, place, bytes, trace)?;
    let mut next = session;
    next.dirty_segments = written.dirty_segments;
    next.dirty_blocks[place.main as usize] = written.word;
    let answer = Answer {
        session: next,
        ops: written.ops,
    };
    Ok((answer, run.record_of(client, written.used)))
}
