// One line of the bench sheet (SPECIFICATION 16): its key, its value, and whether it is good. A line or a value
// is a part of the caller's bytes.

#![tactic(auto)]

ghost use Rattle.std.specs.Prelude.{◌≡◌, length};
ghost use Rattle.lines.specs.Line.{name, takes, named, value_of, within, good_line, number_in};

// The most hexadecimal digits of a value, the largest size, the largest number of three digits.
const MOST_DIGITS: usize = 2048;

pub const MOST_SIZE: u64 = 4;

const MOST_NUMBER: u64 = 999;

// Whether there is a number from `least` to `most`.
fn is_within(n: Option<u64>, least: u64, most: u64) -> bool
    ensures { result ≡ within least most n }
{
    n.is_some_and(|v| least <= v && v <= most)
}

// The keys in their order: three sizes, then the five lines of a group.
#[derive(Clone, Copy, PartialEq, Eq)]
pub enum Key {
    Mains,
    Backups,
    Blocks,
    Main,
    Block,
    Offset,
    Bytes,
    Checkpoint,
}

impl Key {
    // The bytes of a key, its `=` among them.
    #[tactic(auto, unfolding(crate::specs::Line::name, text::specs::Text::text, model::specs::Range::cat))]
    fn name(self) -> &'static [u8]
        ensures { result.now ≡ name self }
    {
        match self {
            Key::Mains => b"mains=",
            Key::Backups => b"spares=",
            Key::Blocks => b"frames=",
            Key::Main => b"level=",
            Key::Block => b"frame=",
            Key::Offset => b"at=",
            Key::Bytes => b"bytes=",
            Key::Checkpoint => b"save=",
        }
    }

    // Whether a line starts with the key.
    #[tactic(auto, unfolding(crate::specs::Line::named), using(text::proofs::NameLaws::starts_is))]
    pub fn is_named(self, line: &[u8]) -> bool
        ensures { result ≡ named self line.now }
    {
        line.starts_with(self.name())
    }

    // The value in a line: between the key and the last byte, empty where the line is too short.
    #[tactic(auto, unfolding(crate::specs::Line::value_of))]
    pub fn value_of(self, line: &[u8]) -> &[u8]
        ensures { result.now ≡ value_of self line.now }
    {
        let start = self.name().len();
        if line.len() <= start {
            return &[];
        }
        &line[start..line.len() - 1]
    }

    // The number that stands in a line, or 0 where none does.
    pub fn number_in(self, line: &[u8]) -> u64
        ensures { result ≡ number_in self line.now }
    {
        text::number_of(self.value_of(line)).unwrap_or(0)
    }

    // Whether a value may stand behind the key.
    #[tactic(auto, unfolding(crate::specs::Line::takes), using(std::proofs::lemmas::Bool::Decides::nat_tests))]
    fn takes(self, value: &[u8]) -> bool
        ensures { result ≡ takes self value.now }
    {
        let n = text::number_of(value);
        match self {
            Key::Mains | Key::Backups | Key::Blocks => is_within(n, 1, MOST_SIZE),
            Key::Main | Key::Block | Key::Offset => is_within(n, 0, MOST_NUMBER),
            Key::Bytes => value.len() <= MOST_DIGITS && text::hex_pairs(value),
            Key::Checkpoint => is_within(n, 0, 1),
        }
    }

    // Whether a line is a good one for the key: the key, a good value, byte 10.
    #[tactic(auto, unfolding(crate::specs::Line::good_line), using(std::proofs::lemmas::Bool::Decides::nat_tests))]
    pub fn is_good(self, line: &[u8]) -> bool
        ensures { result ≡ good_line self line.now }
    {
        self.is_named(line)
            && line.last() == Some(&text::LINE_END)
            && self.takes(self.value_of(line))
    }
}
