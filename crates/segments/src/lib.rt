// The blocks of a segment (the trade: the frames of a level or a spare): all of them copied or zeroed, the dirty ones copied,
// zeroed or written back, by operations on a trace.

#![tactic(auto)]

ghost use Rattle.std.specs.Prelude.{◌≡◌, false, ◌+◌, ◌*◌, ◌^◌, ◌≤◌, ◌<◌, length};
ghost use Rattle.model.specs.Words.{word_at};
ghost use Rattle.model.specs.Layout.{word_size, block_size, block_lines, most, segment_size};
ghost use Rattle.model.specs.Ops.{clwbs, put_block, copy_segment, zero_segment, each_dirty};
ghost use Rattle.trace.specs.Emit.{Fits, Emitted};

use model::Layout;
use trace::Writer;

// Bytes of a block, as indexes count them.
const BLOCK_SIZE: usize = Layout::BLOCK_SIZE as usize;

// ---- all blocks

// Copies all blocks of the segment at one place to that at another, upward.
pub fn put_segment_copy(image: &[u8], layout: Layout, from: usize, to: usize, out: &mut Writer)
    requires layout_in_bounds { from + segment_size layout ≤ length image.now }
    requires layout_bound { to + segment_size layout < 2 ^ 64 }
    requires fits { Fits out.old (copy_segment layout image.now from to) }
    ensures { Emitted out.old (copy_segment layout image.now from to) out.new }
{
    for b in 0..layout.blocks as usize {
        let start = from + BLOCK_SIZE * b;
        let place = to + BLOCK_SIZE * b;
        blocks::put_copy(&image[start..start + BLOCK_SIZE], place as u64, true, out);
    }
}

// Fills all blocks of the segment at a place with zeros, upward.
pub fn put_segment_zero(layout: Layout, to: usize, out: &mut Writer)
    requires layout_bound { to + segment_size layout < 2 ^ 64 }
    requires fits { Fits out.old (zero_segment layout to) }
    ensures { Emitted out.old (zero_segment layout to) out.new }
{
    for b in 0..layout.blocks as usize {
        let place = to + BLOCK_SIZE * b;
        blocks::put_zero(place as u64, true, out);
    }
}

// ---- dirty blocks

// Copies the dirty blocks of the segment at one place to that at another, upward, and writes them back if they are to be flushed; bit b
// of the word says that block b is dirty.
pub fn put_dirty_copies(
    image: &[u8],
    blocks: u64,
    word: u64,
    from: usize,
    to: usize,
    flush: bool,
    out: &mut Writer,
)
    requires blocks_le_most { (blocks ≤ most) × (word < 2 ^ blocks) }
    requires blocks_in_bounds { from + block_size * blocks ≤ length image.now }
    requires blocks_bound { to + block_size * blocks < 2 ^ 64 }
    requires fits { Fits out.old (each_dirty word blocks (λ b. put_block flush (to + block_size * b) (λ k. word_at image.now (from + block_size * b + word_size * k)))) }
    ensures { Emitted out.old (each_dirty word blocks (λ b. put_block flush (to + block_size * b) (λ k. word_at image.now (from + block_size * b + word_size * k)))) out.new }
{
    for b in words::bits(word) {
        let source = from + BLOCK_SIZE * b;
        let target = to + BLOCK_SIZE * b;
        blocks::put_copy(
            &image[source..source + BLOCK_SIZE],
            target as u64,
            flush,
            out,
        );
    }
}

// Fills the dirty blocks of the segment at a place with zeros, upward, which are not written back; bit b of the word says that block b is
// dirty.
pub fn put_dirty_zeros(blocks: u64, word: u64, to: usize, out: &mut Writer)
    requires blocks_le_most { (blocks ≤ most) × (word < 2 ^ blocks) }
    requires blocks_bound { to + block_size * blocks < 2 ^ 64 }
    requires fits { Fits out.old (each_dirty word blocks (λ b. put_block false (to + block_size * b) (λ _. 0))) }
    ensures { Emitted out.old (each_dirty word blocks (λ b. put_block false (to + block_size * b) (λ _. 0))) out.new }
{
    for b in words::bits(word) {
        let target = to + BLOCK_SIZE * b;
        blocks::put_zero(target as u64, false, out);
    }
}

// Writes back the dirty blocks of the segment at a place, upward; bit b of the word `dirty` says that block b is.
pub fn put_dirty_clwbs(blocks: u64, dirty: u64, at: usize, out: &mut Writer)
    requires blocks_le_most { (blocks ≤ most) × (dirty < 2 ^ blocks) }
    requires blocks_bound { at + block_size * blocks < 2 ^ 64 }
    requires fits { Fits out.old (each_dirty dirty blocks (λ b. clwbs block_lines (at + block_size * b))) }
    ensures { Emitted out.old (each_dirty dirty blocks (λ b. clwbs block_lines (at + block_size * b))) out.new }
{
    for b in words::bits(dirty) {
        let place = at + BLOCK_SIZE * b;
        blocks::put_clwbs(place as u64, out);
    }
}
