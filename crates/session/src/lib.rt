// The volatile session (SPECIFICATION 5; the trade: the card), as it is lent: tests and changes of its dirty bits, its
// validity against the states of main segments, how many blocks are dirty, and the one judge of an image and a session.

#![tactic(auto)]

ghost use Rattle.std.specs.Prelude.{◌≡◌, true, not, cond, ◌&&◌, ℕ, ◌+◌, ◌*◌, ◌/◌, ◌^◌, ◌≤◌, ◌<◌, eqb, length, get_or, fold, bit_or};
ghost use Rattle.std.specs.Int.Count.{ones};
ghost use Rattle.model.specs.Range.{all_b, one_if};
ghost use Rattle.model.specs.Words.{word_of};
ghost use Rattle.model.specs.Layout.{line_size, word_size, most, ss_main};
ghost use Rattle.model.specs.Status.{code_of, first_error};
ghost use Rattle.model.specs.Session.{is_dirty, set_bit, set_bits, with_checkpoint, valid_session, context_errors};
ghost use Rattle.model.specs.Counts.{dirty_total};
ghost use Rattle.session.specs.Marked.{marked_segments};

use model::{Layout, Refusal, Session};

// Bytes of a line, as indexes count them.
const LINE_SIZE: usize = Layout::LINE_SIZE as usize;

// Bytes of a word, as indexes count them: states that are looked up at once.
const WORD_SIZE: usize = Layout::WORD_SIZE as usize;

// Main segments whose words of dirty blocks are passed over at once.
const EIGHT: usize = 8;

// A word with all bits set but the eight lowest.
const BEYOND_EIGHT: u64 = 0xffffffffffffff00;

// A session that is lent: its words of dirty blocks stand elsewhere, in a session or among the words of the C interface, a word for each
// main segment that there can be, or more.
#[derive(Clone, Copy)]
pub struct SessionView<'a> {
    pub layout: Layout,
    pub dirty_segments: u64,
    pub dirty_blocks: &'a [u64],
    pub domain: u64,
    pub ghost enough: { most ≤ length dirty_blocks.now },
}

impl<'a> SessionView<'a> {
    ghost use Rattle.session.specs.Parts.{viewed};

    // A session, lent.
    pub fn of(session: &'a Session) -> SessionView<'a>
        ensures { viewed result ≡ session.now }
    {
        SessionView {
            layout: session.layout,
            dirty_segments: session.dirty_segments,
            dirty_blocks: &session.dirty_blocks,
            domain: session.domain,
        }
    }

    // Whether a session is valid, by the states of main segments.
    fn is_valid(self, states: &[u8]) -> bool
        requires le_mains { (1 ≤ self.layout.mains) × (self.layout.mains ≤ most) × (1 ≤ self.layout.blocks) × (self.layout.blocks ≤ most) }
        requires states_in_bounds { line_size ≤ length states.now }
        ensures { result ≡ valid_session (viewed self.entry) (λ i. get_or states.now i 0) }
    {
        let SessionView {
            layout,
            dirty_segments,
            dirty_blocks,
            domain,
        } = self;
        let mains = layout.mains as usize;
        let used = &dirty_blocks[..mains];
        let rest = &dirty_blocks[mains..Layout::MOST_LEN];
        words::within(dirty_segments, layout.mains)
            && words::within(union(used), layout.blocks)
            && union(rest) == 0
            && none_in_main(dirty_segments, states, layout.mains)
            && domain <= Session::EADR
    }

    // The first of refusals 1 to 5 that applies to an image and a session.
    #[tactic(auto, using(crate::proofs::SessionLaws::container_left))]
    pub fn judge(self, image: &[u8]) -> Result<(), Refusal>
        ensures { code_of result ≡ first_error (context_errors (viewed self.entry) image.now) }
    {
        container::container_status(image, self.layout)?;
        let active = metadata::active_at(image);
        if !self.is_valid(&image[active..active + LINE_SIZE]) {
            return Err(Refusal::BadSession);
        }
        Ok(())
    }
}

// A word of dirty bits with the bits below `blocks` cleared; the others are kept.
#[tactic(auto, using(crate::proofs::BitLaws::low_cleared))]
pub fn clear_blocks(word: u64, blocks: u64) -> u64
    requires { (1 ≤ blocks) × (blocks ≤ most) }
    ensures { result ≡ word / 2 ^ blocks * 2 ^ blocks }
{
    word & !(u64::MAX >> (Layout::MOST - blocks))
}

// A word of dirty bits with the `count` bits from bit `block` on set.
#[tactic(auto, using(crate::proofs::BitLaws::run_set))]
pub fn set_blocks(word: u64, block: u64, count: u64) -> u64
    requires { (1 ≤ count) × (block + count ≤ most) }
    ensures { result ≡ set_bits word block count }
{
    word | (u64::MAX >> (Layout::MOST - count)) << block
}

// A word of dirty segments with the bit of a main segment set.
#[tactic(auto, using(words::proofs::BitLaws::shifted_one), unfolding(model::specs::Session::set_bit))]
pub fn set_segment(segments: u64, main: u64) -> u64
    requires { main < most }
    ensures { result ≡ set_bit segments main }
{
    segments | (1 << main)
}

// The session after a checkpoint: no segment is dirty, dirty blocks stay.
#[tactic(auto, unfolding(model::specs::Session::with_checkpoint))]
pub fn with_checkpoint(s: Session) -> Session
    ensures { result ≡ with_checkpoint s }
{
    Session {
        dirty_segments: 0,
        ..s
    }
}

// The bits that are set in some of these words.
fn union(words: &[u64]) -> u64
    ensures { result ≡ fold bit_or 0 words.now }
{
    words.iter().fold(0, |seen, word| seen | word)
}

// Which of the eight main segments from `p` on are dirty and in state 1: 1 in the byte of each that is. A byte of `tested` is 0 exactly
// where the state is 1 and the segment is dirty: the bits of those that are not are laid over.
fn own_dirty(segments: u64, states: &[u8], p: usize) -> u64
    requires { (p + word_size ≤ most) × (p + word_size ≤ length states.now) }
    ensures { result ≡ word_of (λ i. one_if (is_dirty segments i && eqb (get_or states.now i 0) ss_main)) p }
{
    let word = words::word_at(states, p);
    let tested = (word ^ words::each(Layout::SS_MAIN)) | words::spread(!segments, p as u64);
    words::present(tested) ^ words::each(1)
}

// Whether no dirty segment is in state 1. States are looked up eight at a time, and only where a segment is dirty: `rest` has the dirty
// segments that are left, and a turn looks up the eight among which the lowest of them is.
#[tactic(auto, using(crate::proofs::GroupLaws::beyond_less, crate::proofs::GroupLaws::none_left, crate::proofs::GroupLaws::none_more))]
fn none_in_main(segments: u64, states: &[u8], mains: u64) -> bool
    requires { (mains ≤ most) × (segments < 2 ^ mains) × (line_size ≤ length states.now) }
    ensures { result ≡ all_b mains (λ i. not (is_dirty segments i && eqb (get_or states.now i 0) ss_main)) }
{
    let mut rest = segments;
    let mut seen = 0;
    while rest != 0 {
        let p = rest.trailing_zeros() as usize / WORD_SIZE * WORD_SIZE;
        seen |= own_dirty(rest, states, p);
        rest &= BEYOND_EIGHT << p;
    }
    seen == 0
}

// How many blocks of a main segment are dirty, by its word.
pub fn dirty_count(word: u64) -> u64
    ensures { (result ≡ ones word) × (result ≤ most) }
{
    u64::from(word.count_ones())
}

// ---- the main segments that have a dirty block

// Whether the eight main segments from main segment i on are there and have no dirty block, so that they can be passed over.
#[tactic(auto, using(crate::proofs::UnionLaws::union_clear))]
fn eight_passed(words: &[u64], i: usize, mains: usize) -> bool
    requires { (i ≤ mains) × (mains ≤ most) × (most ≤ length words.now) }
    ensures { result ≡ true → (i + word_size ≤ mains) × ((t : ℕ) → t < word_size → get_or words.now (i + t) 0 ≡ 0) }
{
    i + EIGHT <= mains && union(&words[i..i + EIGHT]) == 0
}

// A set with main segment i, if its word of dirty blocks is not 0.
fn with_mark(set: u64, word: u64, i: usize) -> u64
    requires { i < most }
    ensures { result ≡ cond (eqb word 0) set (set_bit set i) }
{
    if word == 0 {
        set
    } else {
        set_segment(set, i as u64)
    }
}

// The main segments that have a dirty block, as bits of a word. Eight without one are passed over at once.
#[tactic(auto, using(crate::proofs::MarkedLaws::marked_more, crate::proofs::MarkedLaws::marked_skip), unfolding(crate::specs::Marked::marked_segments))]
pub fn marked_segments(words: &[u64], mains: usize) -> u64
    requires { (mains ≤ most) × (most ≤ length words.now) }
    ensures { result ≡ marked_segments words.now mains }
{
    let mut set = 0;
    let mut i = 0;
    while i < mains {
        if eight_passed(words, i, mains) {
            i += EIGHT;
        } else {
            set = with_mark(set, words[i], i);
            i += 1;
        }
    }
    set
}

// How many blocks of all main segments are dirty, by their words and the set of those that have one.
pub fn dirty_total(layout: Layout, words: &[u64], marked: u64) -> u64
    requires mains_le_most { (layout.mains ≤ most) × (most ≤ length words.now) }
    requires by_index { (i : ℕ) → i < layout.mains → get_or words.now i 0 < 2 ^ layout.blocks }
    requires marked_value { marked ≡ marked_segments words.now layout.mains }
    ensures { (result ≡ dirty_total layout words.now) × (result ≤ most * most) }
{
    let mut sum = 0;
    for i in words::bits(marked) {
        sum += dirty_count(words[i]);
    }
    sum
}
