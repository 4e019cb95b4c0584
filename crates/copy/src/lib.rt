// Copy on write (SPECIFICATION 10.3): before the first store to a main segment that holds its checkpoint itself, the segment
// is copied to a backup segment and its state becomes 2. The plan of the copy, how many operations it is, and the
// operations.

#![tactic(auto)]

ghost use Rattle.std.specs.Prelude.{◌≡◌, List, [], ◌∷◌, ◌++◌, ℕ, ◌^◌, ◌≤◌, ◌<◌, length};
ghost use Rattle.model.specs.Words.{Image};
ghost use Rattle.model.specs.Layout.{most, pairs_at, pairs_end};
ghost use Rattle.model.specs.Ops.{sfence, for_domain};
ghost use Rattle.model.specs.Write.{copy_plan, copies, none_free, pair_ops, backup_ops, state_ops, copy_on_write_ops};
ghost use Rattle.trace.specs.Emit.{Fits, Emitted};
ghost use Rattle.session.specs.Parts.{session_of};
ghost use Rattle.copy.specs.Steps.{Writable, CopiesTo};

use model::{Layout, Plan};
use trace::Writer;

// Operations that give a backup segment its main segment, and that turn a state with the fences around it, without the one write-back
// that each of the two has besides.
const PAIR_OPS: u64 = 1;

const STATE_OPS: u64 = 3;

// A main segment of a layout, with its word of dirty blocks.
#[derive(Clone, Copy)]
pub struct Segment {
    pub layout: Layout,
    pub main: u64,
    pub word: u64,
}

// ---- the plan

// Whether a main segment is to be copied, and to which backup segment: its own, or the new one. The plan is that of a session with this
// layout and this word of dirty segments, whatever its words of dirty blocks and its kind of module.
pub fn plan_copy(image: &[u8], layout: Layout, segments: u64, main: u64) -> Plan
    requires { Writable layout image.now main }
    ensures by_index { (words : List ℕ) (d : ℕ) → result ≡ copy_plan (session_of layout segments words d) image.now main }
    ensures copies_to { CopiesTo layout result }
{
    let active = metadata::active_at(image);
    let dirty = words::has_bit(segments, main);
    let state = image[active + main as usize];
    if dirty | (state != Layout::SS_MAIN) {
        return Plan::NoCopy;
    }
    if let Some(backup) = metadata::find_paired_backup(image, layout, main) {
        return Plan::OwnBackup(backup);
    }
    match metadata::find_new_backup(image, layout) {
        Some(backup) => Plan::NewBackup(backup),
        None => Plan::NoneFree,
    }
}

// Whether the plan copies the segment.
pub fn has_copy(plan: Plan) -> bool
    ensures { result ≡ copies plan }
{
    matches!(plan, Plan::OwnBackup(_) | Plan::NewBackup(_))
}

// Whether a new backup segment is needed and none is free.
pub fn none_free(plan: Plan) -> bool
    ensures { result ≡ none_free plan }
{
    matches!(plan, Plan::NoneFree)
}

// How many operations the copy is on a trace for a kind of module (SPECIFICATION 10.6).
pub fn copy_count(plan: Plan, segment: Segment, domain: u64) -> u64
    requires { (segment.layout.blocks ≤ most) × (segment.word < 2 ^ segment.layout.blocks) }
    ensures { ((I : Image) → result ≡ length (for_domain domain (copy_on_write_ops segment.layout I segment.word segment.main plan))) × (result ≤ 2 ^ 32) }
{
    let block = trace::copied_ops(domain);
    match plan {
        Plan::NoCopy | Plan::NoneFree => 0,
        Plan::OwnBackup(_) => {
            block * session::dirty_count(segment.word) + (STATE_OPS + trace::flush_count(domain, 1))
        }
        Plan::NewBackup(_) => {
            block * segment.layout.blocks + (PAIR_OPS + STATE_OPS + trace::flush_count(domain, 2))
        }
    }
}

// ---- the operations

// Gives backup segment `backup` the main segment `main`: its pair byte is stored in its word and written back.
fn put_pair(image: &[u8], main: u64, backup: u64, out: &mut Writer)
    requires main_lt_most { (main < most) × (backup < most) × (pairs_end ≤ length image.now) }
    requires fits { Fits out.old (pair_ops image.now main backup) }
    ensures { Emitted out.old (pair_ops image.now main backup) out.new }
{
    let pair = (Layout::PAIRS_AT + backup) as usize;
    span::put_byte(image, pair, main as u8, out);
    out.clwb(Layout::PAIRS_AT);
}

// A fence; state 2 for a main segment stored on the active line of states and written back; a fence.
fn put_state(image: &[u8], main: u64, out: &mut Writer)
    requires main_lt_most { (main < most) × (pairs_at ≤ length image.now) }
    requires fits { Fits out.old (sfence ∷ state_ops image.now main ++ sfence ∷ []) }
    ensures { Emitted out.old (sfence ∷ state_ops image.now main ++ sfence ∷ []) out.new }
{
    let active = metadata::active_at(image);
    let state = active + main as usize;
    out.sfence();
    span::put_byte(image, state, Layout::SS_BACKUP, out);
    out.clwb(active as u64);
    out.sfence();
}

// Makes the bytes of a main segment stand in the plan's backup segment: its dirty blocks in its own, all in the new one, which
// is given to it first.
fn put_backup(image: &[u8], segment: Segment, plan: Plan, out: &mut Writer)
    requires writable { Writable segment.layout image.now segment.main × (segment.word < 2 ^ segment.layout.blocks) }
    requires copies_to { CopiesTo segment.layout plan }
    requires fits { Fits out.old (backup_ops segment.layout image.now segment.word segment.main plan) }
    ensures { Emitted out.old (backup_ops segment.layout image.now segment.word segment.main plan) out.new }
{
    let layout = segment.layout;
    let from = places::main_at(layout, segment.main);
    match plan {
        Plan::NoCopy | Plan::NoneFree => {}
        Plan::OwnBackup(j) => {
            let to = places::backup_at(layout, j);
            segments::put_dirty_copies(image, layout.blocks, segment.word, from, to, true, out);
        }
        Plan::NewBackup(j) => {
            let to = places::backup_at(layout, j);
            put_pair(image, segment.main, j, out);
            segments::put_segment_copy(image, layout, from, to, out);
        }
    }
}

// Copy on write, if the plan copies: the backup, a fence, state 2, a fence.
pub fn put_copy_on_write(image: &[u8], segment: Segment, plan: Plan, out: &mut Writer)
    requires writable { Writable segment.layout image.now segment.main × (segment.word < 2 ^ segment.layout.blocks) }
    requires copies_to { CopiesTo segment.layout plan }
    requires fits { Fits out.old (copy_on_write_ops segment.layout image.now segment.word segment.main plan) }
    ensures { Emitted out.old (copy_on_write_ops segment.layout image.now segment.word segment.main plan) out.new }
{
    if has_copy(plan) {
        put_backup(image, segment, plan, out);
        put_state(image, segment.main, out);
    }
}
