// Discard (SPECIFICATION 10.11; the trade: the second cancel piston): the edits of one main segment since the last checkpoint are dropped.
// Every dirty block of a dirty main segment is stored again as its checkpoint has it, which stands in its backup segment, or as zeros where
// it has no checkpoint. The session stays.

#![tactic(auto)]

ghost use Rattle.std.specs.Prelude.{◌≡◌, cond, ◌++◌, ℕ, ◌^◌, ◌≤◌, ◌<◌, length, get_or};
ghost use Rattle.model.specs.declared.Layout.{Layout};
ghost use Rattle.std.specs.Prelude.{Option};
ghost use Rattle.model.specs.Words.{Image};
ghost use Rattle.model.specs.Layout.{most, SizesOk, image_size};
ghost use Rattle.model.specs.Status.{code_of, first_error};
ghost use Rattle.model.specs.Container.{active_state, active_line, backup_to_main, Valid, checkpoint_located, main_errors};
ghost use Rattle.model.specs.Session.{is_dirty, context_errors};
ghost use Rattle.model.specs.Ops.{for_domain};
ghost use Rattle.model.specs.Clients.{Clients};
ghost use Rattle.model.specs.Outcome.{lent, told, Gives};
ghost use Rattle.model.specs.Discard.{restore_dirty, discard_outcome};
ghost use Rattle.trace.specs.Emit.{Fits, Emitted};
ghost use Rattle.session.specs.Parts.{viewed};
ghost use Rattle.discard.specs.Discarded.{discarded_answer};

use model::{Answer, Layout, Refusal, Session};
use session::SessionView;
use trace::Writer;

// ---- refusals

// The first of refusals 1 to 6 that applies.
#[tactic(auto, unfolding(model::specs::Status::first_error))]
fn discard_status(image: &[u8], session: SessionView, main: u64) -> Result<(), Refusal>
    ensures { code_of result ≡ first_error (context_errors (viewed session.entry) image.now ++ main_errors session.entry.layout main) }
{
    session.judge(image)?;
    places::main_status(session.layout, main)
}

// ---- the operations

// The blocks that are stored again, as bits of a word: the dirty ones of a main segment that is dirty, and none of one that is not.
fn discarded_blocks(session: SessionView, main: u64) -> u64
    requires { main < most }
    ensures { result ≡ cond (is_dirty session.entry.dirty_segments main) (get_or session.entry.dirty_blocks.now main 0) 0 }
{
    let word = session.dirty_blocks[main as usize];
    if !words::has_bit(session.dirty_segments, main) {
        return 0;
    }
    word
}

// How many operations that is, wherever the checkpoint stands and whatever the kind of module: none of them is a write-back.
#[tactic(auto, using(model::proofs::Laws::Counts::dirty_ones, model::proofs::Laws::Counts::Discard::count_restore))]
fn discard_length(word: u64) -> u64
    ensures { ((d : ℕ) (l : Layout) (I : Image) (i : ℕ) (from : Option ℕ) → word < 2 ^ l.blocks → result ≡ length (for_domain d (restore_dirty l I word i from))) × (result ≤ 2 ^ 33) }
{
    Layout::BLOCK_WORDS * session::dirty_count(word)
}

// Writes them: the blocks of the word, stored as they stand where the checkpoint of the main segment stands, or zeros.
#[tactic(auto, using(model::proofs::Laws::Layout::metadata_inside, metadata::proofs::LocatedLaws::located_inside))]
fn put_discard(image: &[u8], layout: Layout, word: u64, main: u64, out: &mut Writer)
    requires main_lt_mains { (main < layout.mains) × SizesOk layout × (length image.now ≡ image_size layout) × (word < 2 ^ layout.blocks) }
    requires valid { Valid layout (active_state image.now) (backup_to_main image.now) }
    requires fits { Fits out.old (restore_dirty layout image.now word main (checkpoint_located layout image.now (active_line image.now) main)) }
    ensures { Emitted out.old (restore_dirty layout image.now word main (checkpoint_located layout image.now (active_line image.now) main)) out.new }
{
    let blocks = layout.blocks;
    let to = places::main_at(layout, main);
    let active = metadata::active_at(image);
    match metadata::checkpoint_located(image, layout, active, main) {
        None => segments::put_dirty_zeros(blocks, word, to, out),
        Some(from) => {
            let from = from as usize;
            segments::put_dirty_copies(image, blocks, word, from, to, false, out)
        }
    }
}

// ---- the call

// A discard on a session that is lent: the stores that put the dirty blocks of a main segment back as its checkpoint has them, and how many
// operations that are. It stays dirty, for the next checkpoint must write its blocks back. The session stays, served or not.
pub fn discard_parts(
    image: &[u8],
    session: SessionView,
    main: u64,
    trace: &mut [u64],
) -> Result<u64, Refusal>
    ensures { (R : Clients) → Gives (discard_outcome (viewed session.entry) image.now main (lent R trace.old)) trace.old (told (viewed session.entry) (discarded_answer (viewed session.entry) result)) trace.new R }
{
    discard_status(image, session, main)?;
    let word = discarded_blocks(session, main);
    let ops = discard_length(word);
    trace::trace_status(trace.len(), ops)?;
    let mut out = Writer::new(session.domain, trace);
    put_discard(image, session.layout, word, main, &mut out);
    Ok(ops)
}

// Discard, with the session as a value: the answer has it as it came. It is lent no records of clients, since it neither judges nor
// charges them.
pub fn crpm_discard(
    image: &[u8],
    session: Session,
    main: u64,
    trace: &mut [u64],
) -> Result<Answer, Refusal>
    ensures { (R : Clients) → Gives (discard_outcome session image.now main (lent R trace.old)) trace.old (told session result) trace.new R }
{
    let ops = discard_parts(image, SessionView::of(&session), main, trace)?;
    Ok(Answer { session, ops })
}
