// The comparison of two checkpoints (SPECIFICATION 13; the trade: likeness): whether the same main segments are in state 0, and then
// the bytes, segment by segment, wherever each image holds the segment.

#![tactic(auto)]

ghost use Rattle.std.specs.Prelude.{◌≡◌, ◌≢◌, ◌+◌, ◌*◌, ◌%◌, ◌≤◌, ◌<◌, eqb, length, false, true, get_or, MatchOption};
ghost use Rattle.std.specs.Result.{result_unwrap_or};
ghost use Rattle.model.specs.Words.{byte_at};
ghost use Rattle.model.specs.Layout.{block_size, ss_initial, segment_size};
ghost use Rattle.model.specs.Status.{code_of};
ghost use Rattle.model.specs.Container.{active_line, active_state, checkpoint_segment};
ghost use Rattle.model.specs.Same.{same_initial, same_bytes, same_status, same_checkpoint, same_outcome};
ghost use Rattle.same.specs.Accepted.{Accepted};
ghost use Rattle.same.specs.Segment.{same_segment};

use model::{Layout, Refusal};

// Bytes of a block, as the length of an array.
const BLOCK_SIZE: usize = Layout::BLOCK_SIZE as usize;

// Whether the same main segments are in state 0, by the states of one image and those of another.
fn same_initial(a: &[u8], b: &[u8]) -> bool
    requires { length a.now ≡ length b.now }
    ensures { result ≡ same_initial (length a.now) (byte_at a.now) (byte_at b.now) }
{
    let mut same = true;
    for (x, y) in a.iter().zip(b) {
        same &= (*x == Layout::SS_INITIAL) == (*y == Layout::SS_INITIAL);
    }
    same
}

// Whether two runs of whole blocks have the same bytes. It stays a call, since inlined it slows the pass over segments in state 0.
#[inline(never)]
fn same_bytes(a: &[u8], b: &[u8]) -> bool
    requires same_len { length a.now ≡ length b.now }
    requires whole { length a.now % block_size ≡ 0 }
    ensures { result ≡ same_bytes (length a.now) a.now b.now }
{
    let (p, _) = a.as_chunks::<BLOCK_SIZE>();
    let (q, _) = b.as_chunks::<BLOCK_SIZE>();
    let mut same = true;
    for (x, y) in p.iter().zip(q) {
        same &= blocks::blocks_equal(x, y);
    }
    same
}

// The checkpoint of a main segment, or none if the segment is in state 0.
#[tactic(auto, using(crate::proofs::SameLaws::nowhere, crate::proofs::SameLaws::somewhere, crate::proofs::SameLaws::inside, crate::proofs::SameLaws::its_bytes, crate::proofs::SameLaws::its_length))]
fn checkpoint_of(image: &[u8], layout: Layout, main: u64) -> Option<&[u8]>
    requires accepted { Accepted layout image.now }
    requires main_lt_mains { main < layout.mains }
    ensures { MatchOption result (active_state image.now main ≡ ss_initial) (λ s. (active_state image.now main ≢ ss_initial) × (length s.now ≡ segment_size layout) × (s.now ≡ checkpoint_segment layout image.now (active_line image.now) main)) }
{
    let line = metadata::active_at(image);
    let at = metadata::checkpoint_located(image, layout, line, main)? as usize;
    let size = BLOCK_SIZE * layout.blocks as usize;
    Some(&image[at..at + size])
}

// Whether a main segment has the same checkpoint in both images.
#[tactic(auto, using(crate::proofs::SameLaws::both_none, crate::proofs::SameLaws::second_none, crate::proofs::SameLaws::first_none, crate::proofs::SameLaws::both_there))]
fn same_segment(a: &[u8], b: &[u8], layout: Layout, main: u64) -> bool
    requires a_accepted { Accepted layout a.now }
    requires b_accepted { Accepted layout b.now }
    requires main_lt_mains { main < layout.mains }
    ensures { result ≡ same_segment layout a.now b.now main }
{
    match (
        checkpoint_of(a, layout, main),
        checkpoint_of(b, layout, main),
    ) {
        (None, None) => true,
        (Some(x), Some(y)) => same_bytes(x, y),
        _ => false,
    }
}

// Whether the two images have the same checkpoint: by the states first, then by the bytes.
fn same_checkpoint(a: &[u8], b: &[u8], layout: Layout) -> bool
    requires a_accepted { Accepted layout a.now }
    requires b_accepted { Accepted layout b.now }
    ensures { result ≡ same_checkpoint layout a.now b.now }
{
    let mains = layout.mains as usize;
    let x = metadata::active_at(a);
    let y = metadata::active_at(b);
    same_initial(&a[x..x + mains], &b[y..y + mains])
        && (0..layout.mains).all(|i| same_segment(a, b, layout, i))
}

// The status of a comparison: the first image wholly before the second.
#[tactic(auto, using(crate::proofs::SameLaws::first_refused, crate::proofs::SameLaws::first_passed))]
fn same_status(a: &[u8], b: &[u8], layout: Layout) -> Result<(), Refusal>
    ensures { code_of result ≡ same_status layout a.now b.now }
{
    container::container_status(a, layout)?;
    container::container_status(b, layout)
}

// Whether two images of these sizes have the same checkpoint.
#[tactic(auto, using(model::proofs::Laws::Status::refusal_refuses, crate::proofs::SameLaws::both_accepted), unfolding(model::specs::Same::same_outcome))]
pub fn crpm_same_checkpoint(a: &[u8], b: &[u8], layout: Layout) -> Result<bool, Refusal>
    ensures status_value { code_of result ≡ (same_outcome layout a.now b.now).status }
    ensures same_value { result_unwrap_or result false ≡ (same_outcome layout a.now b.now).same }
{
    same_status(a, b, layout)?;
    Ok(same_checkpoint(a, b, layout))
}
