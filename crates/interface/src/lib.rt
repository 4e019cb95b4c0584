// How a session and an answer cross the C interface: a session stands in words (the trade: the card), and the number of operations
// goes out as a number of its own. specs/Interface.antt says what the calls of the interface return.

#![tactic(auto)]

ghost use Rattle.std.specs.Prelude.{◌≡◌, ◌≤◌, length};
ghost use Rattle.model.specs.Outcome.{told};
ghost use Rattle.session.specs.Parts.{viewed};
ghost use Rattle.interface.specs.Interface.{dirty_segments_at, words_of, session_in};

use model::{Answer, Layout, Refusal, Session};
use session::SessionView;

// Where the dirty segments stand: after the three sizes.
pub const DIRTY_SEGMENTS_AT: usize = 3;

// Where the words of dirty blocks start: after the dirty segments.
pub const DIRTY_BLOCKS_AT: usize = 4;

// Where the kind of module stands: after a word of dirty blocks for each main segment.
pub const DOMAIN_AT: usize = DIRTY_BLOCKS_AT + Layout::MOST_LEN;

// Words of a session: these, and the kind of module.
pub const SESSION_WORDS: usize = DOMAIN_AT + 1;

// The layout of the session that stands in words.
#[tactic(auto, unfolding(crate::specs::Interface::session_in))]
pub fn layout_in(words: &[u64]) -> Layout
    requires { dirty_segments_at ≤ length words.now }
    ensures { result ≡ (session_in words.now).layout }
{
    Layout::new(words[0], words[1], words[2])
}

// The session that stands in words, lent.
#[tactic(auto, unfolding(crate::specs::Interface::session_in))]
pub fn view_in(words: &[u64; SESSION_WORDS]) -> SessionView<'_>
    ensures { viewed result ≡ session_in words.now }
{
    SessionView {
        layout: layout_in(words),
        dirty_segments: words[DIRTY_SEGMENTS_AT],
        dirty_blocks: &words[DIRTY_BLOCKS_AT..DOMAIN_AT],
        domain: words[DOMAIN_AT],
    }
}

// The words of a session.
#[tactic(auto, using(std::proofs::lemmas::List::set_at), unfolding(crate::specs::Interface::words_of))]
fn words_of(session: Session) -> [u64; SESSION_WORDS]
    ensures { result ≡ words_of session }
{
    let mut words = [0u64; SESSION_WORDS];
    words[0] = session.layout.mains;
    words[1] = session.layout.backups;
    words[2] = session.layout.blocks;
    words[DIRTY_SEGMENTS_AT] = session.dirty_segments;
    words[DIRTY_BLOCKS_AT..DOMAIN_AT].copy_from_slice(&session.dirty_blocks);
    words[DOMAIN_AT] = session.domain;
    words
}

// Gives the session after a call and its number of operations: those of the answer, and where the call is refused the session that is kept,
// and none. The number of its status.
pub fn give_answer(
    session: &mut [u64; SESSION_WORDS],
    ops: &mut u64,
    kept: Session,
    ended: Result<Answer, Refusal>,
) -> u64
    ensures value { result ≡ (told kept ended).status }
    ensures session_after { session.new ≡ words_of (told kept ended).session }
    ensures ops_after { ops.new ≡ (told kept ended).ops }
{
    match ended {
        Ok(answer) => {
            *session = words_of(answer.session);
            *ops = answer.ops;
            0
        }
        Err(refusal) => {
            *session = words_of(kept);
            *ops = 0;
            u64::from(refusal)
        }
    }
}
