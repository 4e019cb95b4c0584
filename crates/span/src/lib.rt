// The span of a write (the trade: level, frame, offset and bytes): its limits, its place, the words and blocks that it
// meets, and the stores of its bytes, laid over what stands in the image.

#![tactic(auto)]

ghost use Rattle.std.specs.Prelude.{◌≡◌, List, [], ◌∷◌, ℕ, ◌+◌, ◌-◌, ◌*◌, ◌/◌, ◌%◌, ◌^◌, ◌≤◌, ◌<◌, length};
ghost use Rattle.model.specs.Words.{byte_at, word_of, overlay};
ghost use Rattle.model.specs.Layout.{most, line_size, word_size, block_size, largest_image, main_at};
ghost use Rattle.model.specs.Ops.{store_byte, word_place};
ghost use Rattle.model.specs.Write.{span_words, span_bad, span_stores};
ghost use Rattle.trace.specs.Emit.{Fits, Emitted};
ghost use Rattle.span.specs.Steps.{args_of, overlaid_store, first_stores};

use model::{Layout, Place};
use trace::Writer;

// Bytes of a word, as indexes count them.
const WORD_SIZE: usize = Layout::WORD_SIZE as usize;

// The bytes that a write is about: a main segment, a block of it, the offset in the block, and how many; they may run on through
// the following blocks.
#[derive(Clone, Copy)]
pub struct Span {
    pub place: Place,
    pub len: usize,
}

impl Span {
    // Whether a span is empty, has an offset that is not in its block, or leaves its main segment (refusal 8).
    #[tactic(auto, unfolding(model::specs::Write::span_bad))]
    pub fn is_bad(self, layout: Layout) -> bool
        requires { (self.place.block < layout.blocks) × (layout.blocks ≤ most) }
        ensures { (client : ℕ) (bytes : List ℕ) → length bytes ≡ self.len → result ≡ span_bad layout (args_of client self.place bytes) }
    {
        let Place { block, offset, .. } = self.place;
        self.len == 0
            || Layout::BLOCK_SIZE <= offset
            || Layout::BLOCK_SIZE * (layout.blocks - block) - offset < self.len as u64
    }

    // Where a span starts in the image.
    pub fn at(self, layout: Layout) -> usize
        requires { (self.place.main < most) × (layout.blocks ≤ most) × (self.place.block < layout.blocks) × (self.place.offset < block_size) }
        ensures { result ≡ main_at layout self.place.main + (block_size * self.place.block + self.place.offset) }
    {
        let Place {
            main,
            block,
            offset,
        } = self.place;
        places::main_at(layout, main) + (Layout::BLOCK_SIZE * block + offset) as usize
    }

    // How many blocks a span meets.
    pub fn blocks(self) -> u64
        requires { (1 ≤ self.len) × (self.place.offset + self.len ≤ 2 ^ 32) }
        ensures { result ≡ (self.place.offset + self.len - 1) / block_size + 1 }
    {
        (self.place.offset + self.len as u64 - 1) / Layout::BLOCK_SIZE + 1
    }
}

// ---- bytes laid over an image

// The word at a place of the image with the bytes laid over it, which meet it or touch it.
fn overlaid_word(image: &[u8], at: usize, bytes: &[u8], place: usize) -> u64
    requires { (place + word_size ≤ length image.now) × (at + length bytes.now < 2 ^ 64) × (at ≤ place + word_size) × (place ≤ at + length bytes.now) }
    ensures { result ≡ word_of (overlay (byte_at image.now) at bytes.now) place }
{
    let start = at.max(place);
    let end = (at + bytes.len()).min(place + WORD_SIZE);
    let mut word = words::bytes_at(image, place);
    word[start - place..end - place].copy_from_slice(&bytes[start - at..end - at]);
    words::join(word)
}

// ---- words

// How many words bytes at a place meet.
pub fn span_words(at: usize, len: usize) -> usize
    requires { (1 ≤ len) × (at + len ≤ 2 ^ 32) }
    ensures { result ≡ span_words at len }
{
    (at + len - 1) / WORD_SIZE - at / WORD_SIZE + 1
}

// ---- stores

// Stores the word at a place of the image with the bytes laid over it.
fn put_overlaid(image: &[u8], at: usize, bytes: &[u8], place: usize, out: &mut Writer)
    requires word_size_in_bounds { (place + word_size ≤ length image.now) × (at + length bytes.now < 2 ^ 64) × (at ≤ place + word_size) × (place ≤ at + length bytes.now) }
    requires fits { Fits out.old (overlaid_store image.now at bytes.now place ∷ []) }
    ensures { Emitted out.old (overlaid_store image.now at bytes.now place ∷ []) out.new }
{
    let word = overlaid_word(image, at, bytes, place);
    out.store(place as u64, word);
}

// Stores one byte in its word.
pub fn put_byte(image: &[u8], at: usize, byte: u8, out: &mut Writer)
    requires word_size_in_bounds { word_place at + word_size ≤ length image.now }
    requires fits { Fits out.old (store_byte image.now at byte ∷ []) }
    ensures { Emitted out.old (store_byte image.now at byte ∷ []) out.new }
{
    let place = WORD_SIZE * (at / WORD_SIZE);
    let mut word = words::bytes_at(image, place);
    word[at % WORD_SIZE] = byte;
    out.store(place as u64, words::join(word));
}

// Stores the word in whose midst bytes start, with the bytes laid over what stands there; nothing if they start a word.
fn put_first(image: &[u8], at: usize, bytes: &[u8], out: &mut Writer)
    requires word_size_in_bounds { (word_place at + word_size ≤ length image.now) × (at + length bytes.now < 2 ^ 64) }
    requires fits { Fits out.old (first_stores image.now at bytes.now) }
    ensures { Emitted out.old (first_stores image.now at bytes.now) out.new }
{
    if at % WORD_SIZE != 0 {
        put_overlaid(image, at, bytes, WORD_SIZE * (at / WORD_SIZE), out);
    }
}

// Stores the words that bytes meet which start a word, upward: those that lie whole among the bytes straight from them, and the
// last one, if the bytes do not fill it, with the bytes laid over what stands there; they are not written back.
fn put_aligned(image: &[u8], at: usize, bytes: &[u8], out: &mut Writer)
    requires word_size_value { (at % word_size ≡ 0) × (1 ≤ length bytes.now) × (at + length bytes.now ≤ length image.now) }
    requires line_size_len { (length image.now % line_size ≡ 0) × (length image.now ≤ largest_image) }
    requires fits { Fits out.old (span_stores image.now at bytes.now) }
    ensures { Emitted out.old (span_stores image.now at bytes.now) out.new }
{
    out.store_words(at as u64, bytes);
    if bytes.len() % WORD_SIZE != 0 {
        let last = at + WORD_SIZE * (bytes.len() / WORD_SIZE);
        put_overlaid(image, at, bytes, last, out);
    }
}

// Stores the words that bytes at a place meet, upward, with the bytes laid over what stands there; they are not written back. At
// most the first word and the last one are made of both.
pub fn put_span(image: &[u8], at: usize, bytes: &[u8], out: &mut Writer)
    requires in_bounds { (1 ≤ length bytes.now) × (at + length bytes.now ≤ length image.now) }
    requires line_size_len { (length image.now % line_size ≡ 0) × (length image.now ≤ largest_image) }
    requires fits { Fits out.old (span_stores image.now at bytes.now) }
    ensures { Emitted out.old (span_stores image.now at bytes.now) out.new }
{
    if (at % WORD_SIZE == 0) & (bytes.len() % WORD_SIZE == 0) {
        out.store_words(at as u64, bytes);
        return;
    }
    put_first(image, at, bytes, out);
    let skip = (WORD_SIZE - at % WORD_SIZE) % WORD_SIZE;
    if skip < bytes.len() {
        put_aligned(image, at + skip, &bytes[skip..], out);
    }
}
