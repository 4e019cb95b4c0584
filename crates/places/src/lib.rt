// Places and sizes of an image: where its segments start, how long it is, the sizes that it carries; refusals 1 to 3, which
// are about them, and 6 and 7, about a main segment and a block that a call names.

#![tactic(auto)]

ghost use Rattle.std.specs.Prelude.{◌≡◌, cond, ◌++◌, ◌+◌, ◌≤◌, ◌<◌, length};
ghost use Rattle.model.specs.Status.{code_of, first_error};
ghost use Rattle.model.specs.Layout.{most, most_segments, metadata_size, largest_image, header_end, segment_size, in_range, sizes_ok, image_size, segment_at, main_at, backup_at};
ghost use Rattle.model.specs.Container.{header_ok, size_errors, layout_errors, main_errors, block_errors};

use model::{Layout, Refusal};

// ---- places

// Where segment k starts: the main segments come first, then the backup segments.
fn segment_at(layout: Layout, k: u64) -> usize
    requires { (k < most_segments) × (layout.blocks ≤ most) }
    ensures { (result ≡ segment_at layout k) × (result + segment_size layout ≤ largest_image) }
{
    (Layout::METADATA_SIZE + Layout::BLOCK_SIZE * (k * layout.blocks)) as usize
}

// Where main segment i starts.
pub fn main_at(layout: Layout, i: u64) -> usize
    requires { (i < most) × (layout.blocks ≤ most) }
    ensures { (result ≡ main_at layout i) × (result + segment_size layout ≤ largest_image) }
{
    segment_at(layout, i)
}

// Where backup segment j starts.
pub fn backup_at(layout: Layout, j: u64) -> usize
    requires { (j < most) × (layout.mains ≤ most) × (layout.blocks ≤ most) }
    ensures { (result ≡ backup_at layout j) × (result + segment_size layout ≤ largest_image) }
{
    segment_at(layout, layout.mains + j)
}

// ---- sizes

// Whether a size is 1 to 64.
#[tactic(auto, unfolding(model::specs::Layout::in_range))]
fn in_range(n: u64) -> bool
    ensures { result ≡ in_range n }
{
    (1..=Layout::MOST).contains(&n)
}

// Whether all three sizes are 1 to 64.
#[tactic(auto, unfolding(model::specs::Layout::sizes_ok))]
fn sizes_ok(layout: Layout) -> bool
    ensures { result ≡ sizes_ok layout }
{
    in_range(layout.mains) && in_range(layout.backups) && in_range(layout.blocks)
}

// The bytes of an image whose sizes are at most 64.
#[tactic(auto, using(crate::proofs::PlaceLaws::image_bound), unfolding(model::specs::Layout::image_size))]
fn allowed_image_size(layout: Layout) -> usize
    requires { (layout.mains ≤ most) × (layout.backups ≤ most) × (layout.blocks ≤ most) }
    ensures { (result ≡ image_size layout) × (metadata_size ≤ result) × (result ≤ largest_image) }
{
    (Layout::METADATA_SIZE
        + Layout::BLOCK_SIZE * layout.blocks * (layout.mains + layout.backups)) as usize
}

// The bytes of an image, or 0 where a size is not 1 to 64.
#[tactic(auto, using(model::proofs::Laws::Container::sizes_ok_lem))]
pub fn image_size(layout: Layout) -> usize
    ensures { (result ≡ cond (sizes_ok layout) (image_size layout) 0) × (result ≤ largest_image) }
{
    if !sizes_ok(layout) {
        return 0;
    }
    allowed_image_size(layout)
}

// Whether the image carries the sizes of the layout.
#[tactic(auto, unfolding(model::specs::Container::header_ok))]
fn header_ok(image: &[u8], layout: Layout) -> bool
    requires { header_end ≤ length image.now }
    ensures { result ≡ header_ok layout image.now }
{
    let own = Layout::new(
        words::word_at(image, Layout::MAINS_AT as usize),
        words::word_at(image, Layout::BACKUPS_AT as usize),
        words::word_at(image, Layout::BLOCKS_AT as usize),
    );
    own == layout
}

// ---- refusals

// The first of refusals 1 and 2 that applies.
#[tactic(auto, using(model::proofs::Laws::Container::sizes_ok_lem), unfolding(model::specs::Status::first_error))]
pub fn size_status(image: &[u8], layout: Layout) -> Result<(), Refusal>
    ensures { code_of result ≡ first_error (size_errors layout image.now) }
{
    if !sizes_ok(layout) {
        return Err(Refusal::BadSize);
    }
    if image.len() != allowed_image_size(layout) {
        return Err(Refusal::BadLength);
    }
    Ok(())
}

// The first of refusals 1 to 3 that applies.
#[tactic(auto, unfolding(model::specs::Status::first_error))]
pub fn layout_status(image: &[u8], layout: Layout) -> Result<(), Refusal>
    ensures { code_of result ≡ first_error (layout_errors layout image.now) }
{
    size_status(image, layout)?;
    if !header_ok(image, layout) {
        return Err(Refusal::Foreign);
    }
    Ok(())
}

// Refusal 6, for a call that names a main segment.
#[tactic(auto, unfolding(model::specs::Status::first_error))]
pub fn main_status(layout: Layout, main: u64) -> Result<(), Refusal>
    ensures { code_of result ≡ first_error (main_errors layout main) }
{
    if layout.mains <= main {
        return Err(Refusal::NoSuchMain);
    }
    Ok(())
}

// The first of refusals 6 and 7 that applies, for a call that names a main segment and a block.
#[tactic(auto, unfolding(model::specs::Status::first_error))]
pub fn place_status(layout: Layout, main: u64, block: u64) -> Result<(), Refusal>
    ensures { code_of result ≡ first_error (main_errors layout main ++ block_errors layout block) }
{
    main_status(layout, main)?;
    if layout.blocks <= block {
        return Err(Refusal::NoSuchBlock);
    }
    Ok(())
}
