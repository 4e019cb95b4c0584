// The judge of an image (SPECIFICATION 14: refusals 1 to 4): one pass over pairs and one over states, eight at a time, tell whether the
// metadata is valid, and which main segments are paired.

#![tactic(auto)]

ghost use Rattle.std.specs.Prelude.{◌≡◌, ◌+◌, ◌*◌, ◌^◌, ◌<◌, ◌≤◌, true, ◌||◌, length, ◌==◌, nat_lt};
ghost use Rattle.model.specs.Range.{all_b};
ghost use Rattle.model.specs.Words.{byte_at};
ghost use Rattle.model.specs.Status.{code_of, first_error};
ghost use Rattle.model.specs.Layout.{word_size, line_size, line_words, most, pairs_end};
ghost use Rattle.model.specs.Session.{bit};
ghost use Rattle.model.specs.Container.{seg_state, backup_to_main, container_errors};
ghost use Rattle.container.specs.Scan.{half_line, lay_pair, lay_bytes, low_bytes, lay_pairs, state_fits, ExaminedBy};

use model::{Layout, Refusal};

// Sizes as indexes count them, and the bits of a byte.
const WORD_SIZE: usize = Layout::WORD_SIZE as usize;

const BYTE_BITS: usize = 8;

// Half a line, and its words.
const HALF_LINE: usize = 32;

const HALF_WORDS: usize = 4;

// A word of eight backup segments that are all unpaired.
const ALL_UNPAIRED: u64 = 0xffffffffffffffff;

// Words by their bytes: each has its two top bits, which no main segment below 64 has; each has all bits but the lowest.
const EACH_TOP_TWO: u64 = 0xc0c0c0c0c0c0c0c0;

const EACH_HIGH: u64 = 0xfefefefefefefefe;

// ---- pairs

// What pairs name: the main segments below 64, as bits of a word, and how many pairs are not unpaired. No two name the same main
// segment, and all name one below 64, exactly if there are as many bits as pairs.
#[derive(Clone, Copy)]
pub struct Paired {
    pub set: u64,
    pub count: u64,
}

impl Paired {
    // No pair yet.
    const NONE: Paired = Paired { set: 0, count: 0 };

    // One pair more.
    #[tactic(auto, using(crate::proofs::PairLaws::lay_unpaired, crate::proofs::PairLaws::lay_below, crate::proofs::PairLaws::lay_beyond))]
    fn with(self, pair: u8) -> Paired
        requires { self.count < 2 ^ 32 }
        ensures { result ≡ lay_pair self pair }
    {
        if pair == Layout::UNPAIRED {
            return self;
        }
        let count = self.count + 1;
        if u64::from(pair) < Layout::MOST {
            return Paired {
                set: self.set | (1 << pair),
                count,
            };
        }
        Paired { count, ..self }
    }

    // The eight pairs of a word more, whatever they are.
    fn with_any(self, word: u64) -> Paired
        requires { self.count ≤ most }
        ensures { result ≡ lay_bytes word_size self word }
    {
        let mut next = self;
        for pair in word.to_le_bytes() {
            next = next.with(pair);
        }
        next
    }

    // The eight pairs of a word more, which all name main segments below 64.
    fn with_mains(self, word: u64) -> Paired
        requires count_le_most { self.count ≤ most }
        requires word_value { low_bytes word_size word ≡ true }
        ensures { result ≡ lay_bytes word_size self word }
    {
        let mut set = self.set;
        for pair in word.to_le_bytes() {
            set |= 1 << pair;
        }
        Paired {
            set,
            count: self.count + Layout::WORD_SIZE,
        }
    }

    // The eight pairs of a word more: a word of unpaired backup segments adds nothing, and one of paired ones is not tested byte by byte.
    #[tactic(auto, using(crate::proofs::PairLaws::lay_nothing, crate::proofs::PairLaws::full_word))]
    fn with_word(self, word: u64) -> Paired
        requires { self.count ≤ most }
        ensures { result ≡ lay_bytes word_size self word }
    {
        if word == ALL_UNPAIRED {
            return self;
        }
        if word & EACH_TOP_TWO == 0 {
            return self.with_mains(word);
        }
        self.with_any(word)
    }

    // The first `count` words of pairs.
    #[tactic(auto, unfolding(crate::specs::Scan::lay_pairs))]
    fn of_words(image: &[u8], count: usize) -> Paired
        requires { (count ≤ line_words) × (pairs_end ≤ length image.now) }
        ensures { result ≡ lay_pairs (backup_to_main image.now) (word_size * count) }
    {
        let mut paired = Paired::NONE;
        for k in 0..count {
            let word = words::word_at(image, Layout::PAIRS_AT as usize + WORD_SIZE * k);
            paired = paired.with_word(word);
        }
        paired
    }
}

// ---- bytes of a line

// Whether the bytes of half a line from its byte n on all have this value.
fn half_is(image: &[u8], at: usize, n: usize, value: u8) -> bool
    requires { (n ≤ half_line) × (at + half_line ≤ length image.now) }
    ensures { result ≡ all_b half_line (λ i. nat_lt i n || byte_at image.now (at + i) == value) }
{
    if n == HALF_LINE {
        return true;
    }
    let pattern = words::each(value);
    let first = n / WORD_SIZE;
    let word = words::word_at(image, at + WORD_SIZE * first);
    let mut seen = (word ^ pattern) >> (BYTE_BITS * (n % WORD_SIZE));
    for k in first + 1..HALF_WORDS {
        seen |= words::word_at(image, at + WORD_SIZE * k) ^ pattern;
    }
    seen == 0
}

// Whether the bytes of a line from its byte n on all have this value. Where n is below 32, the second half is tested whole, without a count.
fn rest_is(image: &[u8], line: usize, n: usize, value: u8) -> bool
    requires { (n ≤ most) × (line + line_size ≤ length image.now) }
    ensures { result ≡ all_b most (λ i. nat_lt i n || byte_at image.now (line + i) == value) }
{
    let half = line + HALF_LINE;
    if n < HALF_LINE {
        return half_is(image, line, n, value) & half_is(image, half, 0, value);
    }
    half_is(image, half, n - HALF_LINE, value)
}

// Whether the states in the first `count` words of a line fit a set of paired main segments: 1 or 2 for a paired one, else 0 or 1. So
// each is the segment's bit in the set, or one more: with the bits taken away, no byte of a word is above 1.
fn states_fit(image: &[u8], line: usize, count: usize, set: u64) -> bool
    requires { (count ≤ line_words) × (line + line_size ≤ length image.now) }
    ensures { result ≡ all_b (word_size * count) (λ i. state_fits (bit set i) (byte_at image.now (line + i))) }
{
    let mut over = 0;
    for k in 0..count {
        let i = WORD_SIZE * k;
        let states = words::word_at(image, line + i);
        let left = states.wrapping_sub(words::bits_at(set, i as u64));
        over |= left & EACH_HIGH;
    }
    over == 0
}

// ---- pairs and states

// What the pairs lay, as bits of a word: the main segments that are paired, where the metadata is valid by this line of states, and an
// error where it is not.
pub fn examine(image: &[u8], layout: Layout, line: usize) -> Result<u64, u64>
    requires { (1 ≤ layout.mains) × (layout.mains ≤ most) × (layout.backups ≤ most) × (pairs_end ≤ length image.now) × (line + line_size ≤ length image.now) }
    ensures { ExaminedBy layout (seg_state image.now line) (backup_to_main image.now) result }
{
    let mains = layout.mains as usize;
    let backups = layout.backups as usize;
    let Paired { set, count } = Paired::of_words(image, backups.div_ceil(WORD_SIZE));
    let pairs_ok = (u64::from(set.count_ones()) == count) & words::within(set, layout.mains);
    let states_ok = states_fit(image, line, mains.div_ceil(WORD_SIZE), set);
    let rest_ok = rest_is(image, Layout::PAIRS_AT as usize, backups, Layout::UNPAIRED)
        & rest_is(image, line, mains, Layout::SS_INITIAL);
    if pairs_ok & states_ok & rest_ok {
        Ok(set)
    } else {
        Err(set)
    }
}

// ---- refusals 1 to 4

// The first of refusals 1 to 4 that applies.
#[tactic(auto, unfolding(model::specs::Status::first_error))]
pub fn container_status(image: &[u8], layout: Layout) -> Result<(), Refusal>
    ensures { code_of result ≡ first_error (container_errors layout image.now) }
{
    places::layout_status(image, layout)?;
    let Ok(_) = examine(image, layout, metadata::active_at(image)) else {
        return Err(Refusal::Invalid);
    };
    Ok(())
}
