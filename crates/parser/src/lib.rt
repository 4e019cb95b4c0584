// The bench sheet read (SPECIFICATION 16): the first bad line and with it the verdict, the sizes, and one group after the other.

#![tactic(auto)]

ghost use Rattle.std.specs.Prelude.{◌≡◌};
ghost use Rattle.text.specs.Text.{lines_of};
ghost use Rattle.lines.specs.declared.Key.TheVariants.{Mains};
ghost use Rattle.parser.specs.Script.{key_for, following, first_bad, verdict, default_backups};
ghost use Rattle.parser.specs.Read.{ReadsHeader, HeaderStands, ReadsGroup, GroupStands};

use lines::Key;
use model::{Layout, Place};

// The most bytes of a sheet.
pub const MOST_BYTES: usize = 4096;

// The key that is looked for in a line where a key is next: the line of backups may be left out.
fn key_for(next: Key, line: &[u8]) -> Key
    ensures { result ≡ key_for next line.now }
{
    match next {
        Key::Backups if !next.is_named(line) => Key::Blocks,
        _ => next,
    }
}

// The key that comes after a key.
fn key_after(key: Key) -> Key
    ensures { result ≡ following key }
{
    match key {
        Key::Mains => Key::Backups,
        Key::Backups => Key::Blocks,
        Key::Blocks => Key::Main,
        Key::Main => Key::Block,
        Key::Block => Key::Offset,
        Key::Offset => Key::Bytes,
        Key::Bytes => Key::Checkpoint,
        Key::Checkpoint => Key::Main,
    }
}

// The number of the first bad or missing line.
fn first_bad(input: &[u8]) -> Option<u64>
    ensures { result ≡ first_bad Mains 0 (lines_of input.now) }
{
    let mut next = Key::Mains;
    let mut count: u64 = 0;
    for line in input.split_inclusive(|b| *b == text::LINE_END) {
        let key = key_for(next, line);
        if !key.is_good(line) {
            return Some(count + 1);
        }
        next = key_after(key);
        count += 1;
    }
    if next == Key::Main {
        return None;
    }
    Some(count + 1)
}

// The verdict on a sheet: the number that a bad one prints, none on a good one.
#[tactic(auto, using(crate::proofs::VerdictLaws::verdict_long, crate::proofs::VerdictLaws::verdict_short))]
pub fn verdict(input: &[u8]) -> Option<u64>
    ensures { result ≡ verdict input.now }
{
    if MOST_BYTES < input.len() {
        return Some(0);
    }
    first_bad(input)
}

// The number of backup segments where the sheet has no line of them: half of the main segments, rounded up.
#[tactic(auto, unfolding(crate::specs::Script::default_backups))]
fn default_backups(mains: u64) -> u64
    ensures { result ≡ default_backups mains }
{
    mains.div_ceil(2)
}

// The sizes that a sheet gives, and the rest of it, where its groups start.
#[derive(Clone, Copy)]
pub struct HeaderAt<'a> {
    pub layout: Layout,
    pub rest: &'a [u8],
}

// The sizes of a sheet.
pub fn header(input: &[u8]) -> HeaderAt<'_>
    ensures reads { ReadsHeader input.now result }
    ensures stands { HeaderStands input.now result }
{
    let (first, rest) = text::split_line(input);
    let (second, rest) = text::split_line(rest);
    let mains = Key::Mains.number_in(first);
    if !Key::Backups.is_named(second) {
        let blocks = Key::Blocks.number_in(second);
        let layout = Layout::new(mains, default_backups(mains), blocks);
        return HeaderAt { layout, rest };
    }
    let (third, rest) = text::split_line(rest);
    let backups = Key::Backups.number_in(second);
    let blocks = Key::Blocks.number_in(third);
    let layout = Layout::new(mains, backups, blocks);
    HeaderAt { layout, rest }
}

// A group: where a write starts, its bytes in hexadecimal digits, whether a checkpoint follows, and the rest of the sheet.
#[derive(Clone, Copy)]
pub struct GroupAt<'a> {
    pub place: Place,
    pub digits: &'a [u8],
    pub checkpoint: bool,
    pub rest: &'a [u8],
}

// The group of the first five lines.
pub fn group_at(input: &[u8]) -> GroupAt<'_>
    ensures reads { ReadsGroup input.now result }
    ensures stands { GroupStands input.now result }
{
    let (first, rest) = text::split_line(input);
    let (second, rest) = text::split_line(rest);
    let (third, rest) = text::split_line(rest);
    let (fourth, rest) = text::split_line(rest);
    let (fifth, rest) = text::split_line(rest);
    GroupAt {
        place: Place {
            main: Key::Main.number_in(first),
            block: Key::Block.number_in(second),
            offset: Key::Offset.number_in(third),
        },
        digits: Key::Bytes.value_of(fourth),
        checkpoint: Key::Checkpoint.number_in(fifth) == 1,
        rest,
    }
}
