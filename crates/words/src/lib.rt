// Words of an image: 8 bytes, the least significant first; words whose eight bytes are tested or made at once; single bits of a word, and
// a walk over those that are set.

#![tactic(auto)]

ghost use Rattle.std.specs.Prelude.{◌≡◌, cond, ℕ, ◌+◌, ◌*◌, ◌^◌, ◌≤◌, ◌<◌, eqb, ltb, length};
ghost use Rattle.model.specs.Range.{first_b};
ghost use Rattle.model.specs.Words.{byte_at, word_of, word_at, store_word};
ghost use Rattle.model.specs.Layout.{word_size, most};
ghost use Rattle.model.specs.Session.{bit, is_dirty};

use model::Layout;

// The values of a byte.
const BYTE: u64 = 256;

// Bytes of a word, as the length of an array.
const WORD_LEN: usize = Layout::WORD_SIZE as usize;

// The word that eight bytes make, the least significant first.
#[tactic(auto, unfolding(model::specs::Words::word_of, model::specs::Words::little_endian))]
pub fn join(bytes: [u8; WORD_LEN]) -> u64
    ensures { result ≡ word_at bytes 0 }
{
    u64::from_le_bytes(bytes)
}

// The eight bytes from a place of an image on, one by one: copied as a slice, a word takes five times as long.
pub fn bytes_at(image: &[u8], at: usize) -> [u8; WORD_LEN]
    requires { at + word_size ≤ length image.now }
    ensures { (k : ℕ) → k < word_size → byte_at result k ≡ byte_at image.now (at + k) }
{
    [
        image[at],
        image[at + 1],
        image[at + 2],
        image[at + 3],
        image[at + 4],
        image[at + 5],
        image[at + 6],
        image[at + 7],
    ]
}

// The word at a place of an image.
pub fn word_at(image: &[u8], at: usize) -> u64
    requires { at + word_size ≤ length image.now }
    ensures { result ≡ word_at image.now at }
{
    join(bytes_at(image, at))
}

// Stores a word at a place of an image.
#[tactic(auto, using(crate::proofs::WordLaws::word_stored))]
pub fn store_word(image: &mut [u8], at: usize, w: u64)
    requires { at + word_size ≤ length image.old }
    ensures { image.new ≡ store_word image.old at w }
{
    image[at..at + WORD_LEN].copy_from_slice(&w.to_le_bytes());
}

// ---- eight bytes at once

// Words by their bytes: each is 1; byte k has bit k alone; each has its seven low bits.
const EACH_ONE: u64 = 0x0101010101010101;

const EACH_ITS_BIT: u64 = 0x8040201008040201;

const EACH_LOW: u64 = 0x7f7f7f7f7f7f7f7f;

// The bits of a byte.
const BYTE_BITS: u64 = 8;

// The top bit of a byte.
const TOP_BIT: u64 = 7;

// The word whose eight bytes are all this byte.
pub fn each(byte: u8) -> u64
    ensures { result ≡ word_of (λ k. byte) 0 }
{
    u64::from(byte) * EACH_ONE
}

// The eight bits of a set from bit p on, one in each byte and there at its own place: byte k has bit k or none.
#[tactic(auto, using(crate::proofs::ByteLaws::spread_bits))]
pub fn spread(set: u64, p: u64) -> u64
    requires { p < most }
    ensures { result ≡ word_of (λ k. bit set (p + k) * 2 ^ k) 0 }
{
    ((set >> p) % BYTE * EACH_ONE) & EACH_ITS_BIT
}

// 1 in each byte that is not 0. A byte of `topped` has its top bit exactly where that of the word is not 0.
pub fn present(word: u64) -> u64
    ensures { (f : ℕ → ℕ) → ((k : ℕ) → k < word_size → f k < 256) → word ≡ word_of f 0 → result ≡ word_of (λ k. cond (eqb (f k) 0) 0 1) 0 }
{
    let topped = ((word & EACH_LOW) + EACH_LOW) | word;
    (topped >> TOP_BIT) & EACH_ONE
}

// The eight bits of a set from bit p on, each as a byte.
pub fn bits_at(set: u64, p: u64) -> u64
    requires { p < most }
    ensures { result ≡ word_of (bit set) p }
{
    present(spread(set, p))
}

// The lowest place of a word where this byte stands, counted in bytes; the number of bytes if it stands nowhere.
pub fn first_byte(word: u64, byte: u8) -> u64
    ensures { (f : ℕ → ℕ) → ((k : ℕ) → k < word_size → f k < 256) → word ≡ word_of f 0 → result ≡ first_b word_size (λ k. eqb (f k) byte) }
{
    let found = present(word ^ each(byte)) ^ EACH_ONE;
    u64::from(found.trailing_zeros()) / BYTE_BITS
}

// ---- bits

// Whether bit b of a word is set.
#[tactic(auto, using(crate::proofs::BitLaws::masked_bit))]
pub fn has_bit(word: u64, b: u64) -> bool
    requires { b < most }
    ensures { result ≡ is_dirty word b }
{
    (word >> b) & 1 == 1
}

// Whether no bit of a word is set from bit n on.
#[tactic(auto, using(crate::proofs::BitLaws::high_clear))]
pub fn within(word: u64, n: u64) -> bool
    requires { (1 ≤ n) × (n ≤ most) }
    ensures { result ≡ ltb word (2 ^ n) }
{
    (word >> (n - 1)) >> 1 == 0
}

// The members of a set of bits, upward: `rest` has those that are still to come.
#[derive(Clone, Copy)]
pub struct Members {
    pub rest: u64,
}

// The members of a set of bits, from the lowest on.
pub fn bits(set: u64) -> Members
    ensures { result.rest ≡ set }
{
    Members { rest: set }
}

impl Iterator for Members {
    ghost use Rattle.std.specs.Iterator.{at_most};
    ghost use Rattle.words.specs.Walk.{GivesLowest};

    type Item = usize;

    ghost next_gives = { GivesLowest };

    ghost remaining = { λ left. at_most left.rest };

    fn next(&mut self) -> Option<usize> {
        if self.rest == 0 {
            return None;
        }
        let lowest = self.rest.trailing_zeros() as usize;
        self.rest &= self.rest - 1;
        Some(lowest)
    }
}
