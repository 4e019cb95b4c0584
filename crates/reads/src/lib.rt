// The two reads (SPECIFICATION 12; the trade: working read and saved read), which answer with a part of the caller's image,
// and the companion that gives their status.

#![tactic(auto)]

ghost use Rattle.std.specs.Prelude.{◌≡◌, ◌+◌, ◌*◌, ◌≤◌, ◌<◌, length, take, drop};
ghost use Rattle.model.specs.Layout.{block_size, most, largest_image};
ghost use Rattle.model.specs.Status.{code_of};
ghost use Rattle.model.specs.Reads.{read_status, working_part, checkpoint_part, working_block, checkpoint_block};
ghost use Rattle.reads.specs.Answered.{Answered};

use model::{Layout, Refusal};

// A part of an image: where it starts and how many bytes it has.
#[derive(Clone, Copy)]
pub struct Part {
    pub start: u64,
    pub size: u64,
}

impl Part {
    // The part of length 0, for a refusal or a segment in state 0.
    const EMPTY: Part = Part { start: 0, size: 0 };

    // A block of the segment that starts at a place.
    fn of_block(at: u64, block: u64) -> Part
        requires { (at ≤ largest_image) × (block < most) }
        ensures { (result.start ≡ at + block_size * block) × (result.size ≡ block_size) }
    {
        Part {
            start: at + Layout::BLOCK_SIZE * block,
            size: Layout::BLOCK_SIZE,
        }
    }

    // Its bytes in an image.
    fn bytes_of(self, image: &[u8]) -> &[u8]
        requires { self.start + self.size ≤ length image.now }
        ensures result_value { result.now ≡ take self.size (drop self.start image.now) }
        ensures ref_ptr_value { (result.ref_ptr.0 ≡ image.entry.ref_ptr.0) × (result.ref_ptr.1 ≡ self.start + image.entry.ref_ptr.1) }
    {
        let start = self.start as usize;
        let end = start + self.size as usize;
        &image[start..end]
    }
}

// The status of either read.
#[tactic(auto, using(crate::proofs::ReadLaws::image_refused, crate::proofs::ReadLaws::image_passed))]
pub fn read_status(image: &[u8], layout: Layout, main: u64, block: u64) -> Result<(), Refusal>
    ensures { code_of result ≡ read_status layout image.now main block }
{
    container::container_status(image, layout)?;
    places::place_status(layout, main, block)
}

// The part of the image that holds a block of a main segment.
#[tactic(auto, using(model::proofs::Laws::Status::refusal_refuses, crate::proofs::ReadLaws::accepted), unfolding(model::specs::Reads::working_part))]
pub fn working_part(image: &[u8], layout: Layout, main: u64, block: u64) -> Part
    ensures { Answered image.now (working_part layout image.now main block) result }
{
    let Ok(()) = read_status(image, layout, main, block) else {
        return Part::EMPTY;
    };
    Part::of_block(places::main_at(layout, main) as u64, block)
}

// The part of the image that holds a block of the checkpoint, which stands where the active line of states says.
#[tactic(auto, using(model::proofs::Laws::Status::refusal_refuses, crate::proofs::ReadLaws::accepted), unfolding(model::specs::Reads::checkpoint_part))]
pub fn checkpoint_part(image: &[u8], layout: Layout, main: u64, block: u64) -> Part
    ensures { Answered image.now (checkpoint_part layout image.now main block) result }
{
    let Ok(()) = read_status(image, layout, main, block) else {
        return Part::EMPTY;
    };
    let line = metadata::active_at(image);
    let Some(at) = metadata::checkpoint_located(image, layout, line, main) else {
        return Part::EMPTY;
    };
    Part::of_block(at, block)
}

// The bytes of a block as they stand, or none: the part of the caller's image that holds them.
pub fn crpm_read_working(image: &[u8], layout: Layout, main: u64, block: u64) -> &[u8]
    ensures result_value { result.now ≡ working_block layout image.now main block }
    ensures ref_ptr_value { (result.ref_ptr.0 ≡ image.entry.ref_ptr.0) × (result.ref_ptr.1 ≡ (working_part layout image.now main block).start + image.entry.ref_ptr.1) }
{
    working_part(image, layout, main, block).bytes_of(image)
}

// The bytes of a block as of the last checkpoint, or none: the part of the caller's image that holds them.
pub fn crpm_read_checkpoint(image: &[u8], layout: Layout, main: u64, block: u64) -> &[u8]
    ensures result_value { result.now ≡ checkpoint_block layout image.now main block }
    ensures ref_ptr_value { (result.ref_ptr.0 ≡ image.entry.ref_ptr.0) × (result.ref_ptr.1 ≡ (checkpoint_part layout image.now main block).start + image.entry.ref_ptr.1) }
{
    checkpoint_part(image, layout, main, block).bytes_of(image)
}
