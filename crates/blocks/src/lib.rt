// One block of 256 bytes (the trade: a frame): copied, zeroed and written back by operations on a trace, and tested.

#![tactic(auto)]

ghost use Rattle.std.specs.Prelude.{◌≡◌, ◌+◌, ◌*◌, ◌^◌, ◌≤◌, ◌<◌, eqb, length, get_or};
ghost use Rattle.model.specs.Range.{all_b};
ghost use Rattle.model.specs.Words.{word_at};
ghost use Rattle.model.specs.Layout.{word_size, block_size, block_words, block_lines};
ghost use Rattle.model.specs.Ops.{stores, clwbs, put_block};
ghost use Rattle.trace.specs.Emit.{Fits, Emitted};

use model::Layout;
use trace::Writer;

// Bytes of a block, as indexes count them.
const BLOCK_SIZE: usize = Layout::BLOCK_SIZE as usize;

// ---- operations

// Writes back the lines of a block, upward.
pub fn put_clwbs(at: u64, out: &mut Writer)
    requires block_size_bound { at + block_size < 2 ^ 64 }
    requires fits { Fits out.old (clwbs block_lines at) }
    ensures { Emitted out.old (clwbs block_lines at) out.new }
{
    for k in 0..Layout::BLOCK_LINES {
        out.clwb(at + Layout::LINE_SIZE * k);
    }
}

// Copies a block to a place: each of its words is read as its store is written, upward, and then, if it is to be flushed, its lines
// are written back (SPECIFICATION 6.8; the ported paper: persist_copy).
pub fn put_copy(block: &[u8], to: u64, flush: bool, out: &mut Writer)
    requires block_len { length block.now ≡ block_size }
    requires block_size_bound { to + block_size < 2 ^ 64 }
    requires fits { Fits out.old (put_block flush to (λ k. word_at block.now (word_size * k))) }
    ensures { Emitted out.old (put_block flush to (λ k. word_at block.now (word_size * k))) out.new }
{
    out.store_words(to, block);
    if flush {
        put_clwbs(to, out);
    }
}

// Stores 0 in the words of a block, upward.
fn put_zeros(to: u64, out: &mut Writer)
    requires block_size_bound { to + block_size < 2 ^ 64 }
    requires fits { Fits out.old (stores block_words to (λ _. 0)) }
    ensures { Emitted out.old (stores block_words to (λ _. 0)) out.new }
{
    for k in 0..Layout::BLOCK_WORDS {
        out.store(to + Layout::WORD_SIZE * k, 0);
    }
}

// Fills the block at a place with zeros, and writes its lines back if it is to be flushed (SPECIFICATION 6.8).
pub fn put_zero(to: u64, flush: bool, out: &mut Writer)
    requires block_size_bound { to + block_size < 2 ^ 64 }
    requires fits { Fits out.old (put_block flush to (λ _. 0)) }
    ensures { Emitted out.old (put_block flush to (λ _. 0)) out.new }
{
    put_zeros(to, out);
    if flush {
        put_clwbs(to, out);
    }
}

// ---- tests of bytes

// Whether all bytes of a block are 0.
pub fn block_is_zero(block: &[u8]) -> bool
    requires { block_size ≤ length block.now }
    ensures { result ≡ all_b block_size (λ k. eqb (get_or block.now k 0) 0) }
{
    let mut seen: u8 = 0;
    for byte in &block[..BLOCK_SIZE] {
        seen |= *byte;
    }
    seen == 0
}

// Whether two blocks have the same bytes.
pub fn blocks_equal(a: &[u8], b: &[u8]) -> bool
    requires block_size_in_bounds { block_size ≤ length a.now }
    requires block_size_in_bounds_2 { block_size ≤ length b.now }
    ensures { result ≡ all_b block_size (λ k. eqb (get_or a.now k 0) (get_or b.now k 0)) }
{
    let mut unlike: u8 = 0;
    for (x, y) in a[..BLOCK_SIZE].iter().zip(&b[..BLOCK_SIZE]) {
        unlike |= *x ^ *y;
    }
    unlike == 0
}
