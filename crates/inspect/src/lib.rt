// What a dump shows of one image (SPECIFICATION 21): its own sizes, and the text that says which copy of each main segment counts.
// The text is appended to a page part by part; specs/DumpText.antt says what it is.

#![tactic(auto)]

ghost use Rattle.std.specs.Prelude.{◌≡◌, ◌⊎◌, cond, [], ◌++◌, ◌+◌, ◌*◌, ◌≤◌, ◌<◌, eqb, length, drop};
ghost use Rattle.model.specs.Range.{all_b, cat};
ghost use Rattle.model.specs.Words.{byte_at, word_at};
ghost use Rattle.model.specs.Layout.{word_size, block_size, most, states_at, odd_states_at, pairs_end};
ghost use Rattle.model.specs.Status.{code_of};
ghost use Rattle.model.specs.Container.{active_line, active_state};
ghost use Rattle.model.specs.Reads.{checkpoint_part, working_part, checkpoint_block};
ghost use Rattle.model.specs.Same.{same_bytes};
ghost use Rattle.io.specs.Counts.{IsPrefixLen};
ghost use Rattle.text.specs.Text.{text};
ghost use Rattle.printer.specs.Decimal.{number_size, decimal};
ghost use Rattle.printer.specs.Numbers.{hex_size, hexadecimal};
ghost use Rattle.printer.specs.Page.{Room, Appended};
ghost use Rattle.inspect.specs.DumpText.{own_layout, dump_status, keyed, sizes_text, epoch_text, states_text, first_text, backup_text, part_text, block_differs, list_text, is_silent, level_text, dump_text};
ghost use Rattle.inspect.specs.Room.{sizes_room, epoch_room, states_room, first_room, state_room, backup_room, parts_room, item_room, list_room, level_room};

use model::{Layout, Refusal};
use printer::Page;
use reads::Part;
use std::array;

// The most bytes of a text: those of the first line, and for each of 64 main segments those of its line.
pub const MOST_TEXT: usize = 193 + 1489 * Layout::MOST_LEN;

// Bytes of a word, as the length of an array.
const WORD_LEN: usize = Layout::WORD_SIZE as usize;

// And those of a line.
const LINE_LEN: usize = Layout::LINE_SIZE as usize;

// A byte, or 0 beyond the end.
pub fn byte_or_zero(image: &[u8], at: usize) -> u8
    ensures { result ≡ byte_at image.now at }
{
    image.get(at).copied().unwrap_or(0)
}

// A word, whose bytes beyond the end count as 0.
fn word_or_zero(image: &[u8], at: u64) -> u64
    requires { at + word_size ≤ block_size }
    ensures { result ≡ word_at image.now at }
{
    words::join(array::from_fn(|k| byte_or_zero(image, at as usize + k)))
}

// The sizes that an image carries.
#[tactic(auto, unfolding(crate::specs::DumpText::own_layout))]
pub fn own_layout(image: &[u8]) -> Layout
    ensures { result ≡ own_layout image.now }
{
    Layout::new(
        word_or_zero(image, Layout::MAINS_AT),
        word_or_zero(image, Layout::BACKUPS_AT),
        word_or_zero(image, Layout::BLOCKS_AT),
    )
}

// ---- the first line

// Where the active line of states stands, by the epoch's parity; an epoch beyond the end counts as 0.
#[tactic(auto, unfolding(model::specs::Layout::state_line))]
fn active_line(image: &[u8]) -> usize
    ensures { (result ≡ active_line image.now) × (states_at ≤ result) × (result ≤ odd_states_at) }
{
    let odd = word_or_zero(image, Layout::EPOCH_AT) % 2;
    (Layout::STATES_AT + Layout::LINE_SIZE * odd) as usize
}

// Appends the length of an image and the sizes by which it is judged.
fn append_sizes(layout: Layout, bytes: u64, page: &mut Page)
    requires { Room page.old sizes_room }
    ensures appended { Appended page.old (sizes_text layout bytes) page.new }
    ensures upper_bound { page.new.end ≤ page.old.end + sizes_room }
{
    page.keyed(b"bytes=", bytes);
    page.keyed(b" mains=", layout.mains);
    page.keyed(b" spares=", layout.backups);
    page.keyed(b" frames=", layout.blocks);
}

// Appends the epoch.
#[tactic(auto, unfolding(crate::specs::DumpText::epoch_text, text::specs::Text::text, model::specs::Range::cat))]
fn append_epoch(image: &[u8], page: &mut Page)
    requires { Room page.old epoch_room }
    ensures appended { Appended page.old (keyed " epoch=" (epoch_text image.now)) page.new }
    ensures upper_bound { page.new.end ≤ page.old.end + epoch_room }
{
    if image.len() < WORD_LEN {
        page.text(b" epoch=-");
    } else {
        page.keyed(b" epoch=", word_or_zero(image, Layout::EPOCH_AT));
    }
}

// Appends the place of the active line of states.
#[tactic(auto, unfolding(crate::specs::DumpText::states_text, text::specs::Text::text, model::specs::Range::cat))]
fn append_states_at(image: &[u8], page: &mut Page)
    requires { Room page.old states_room }
    ensures appended { Appended page.old (keyed " states-at=" (states_text image.now)) page.new }
    ensures upper_bound { page.new.end ≤ page.old.end + states_room }
{
    let line = active_line(image);
    if image.len() < line + LINE_LEN {
        page.text(b" states-at=-");
    } else {
        page.address(b" states-at=", line as u64);
    }
}

// ---- pieces of a main segment's line

// Appends a key and where a part starts.
fn append_part(key: &[u8], part: Part, page: &mut Page)
    requires { Room page.old (length key.now + hex_size) }
    ensures appended { Appended page.old (key.now ++ cond (eqb part.size 0) (text "empty") (hexadecimal part.start)) page.new }
    ensures upper_bound { page.new.end ≤ page.old.end + length key.now + hex_size }
{
    page.text(key);
    if part.size == 0 {
        page.text(b"empty");
    } else {
        page.hexadecimal(part.start);
    }
}

// Appends a number to a list: behind a comma, if others stand there before it.
fn append_item(n: u64, seen: bool, page: &mut Page)
    requires { Room page.old item_room }
    ensures appended { Appended page.old (cond seen (text ",") [] ++ decimal n) page.new }
    ensures upper_bound { page.new.end ≤ page.old.end + item_room }
{
    if seen {
        page.text(b",");
    }
    page.decimal(n);
}

// Appends the end of a line.
#[tactic(auto, unfolding(text::specs::Text::text, model::specs::Range::cat))]
fn append_end(silent: bool, page: &mut Page)
    requires { Room page.old 8 }
    ensures appended { Appended page.old (cond silent (text " silent\n") (text "\n")) page.new }
    ensures upper_bound { page.new.end ≤ page.old.end + 8 }
{
    if silent {
        page.text(b" silent\n");
    } else {
        page.text(b"\n");
    }
}

// ---- blocks

// Whether all bytes of a block are 0, or there is none.
#[tactic(auto, using(crate::proofs::PartLaws::none_is_zero), unfolding(model::specs::Same::same_bytes))]
fn part_is_zero(part: &[u8]) -> bool
    requires { (length part.now ≡ 0) ⊎ (block_size ≤ length part.now) }
    ensures { result ≡ same_bytes block_size part.now [] }
{
    part.is_empty() || blocks::block_is_zero(part)
}

// Whether two blocks have the same bytes, where one that is not there counts as zeros.
#[tactic(auto, using(crate::proofs::PartLaws::none_left), unfolding(model::specs::Same::same_bytes))]
pub fn parts_same(a: &[u8], b: &[u8]) -> bool
    requires fact { (length a.now ≡ 0) ⊎ (block_size ≤ length a.now) }
    requires fact_2 { (length b.now ≡ 0) ⊎ (block_size ≤ length b.now) }
    ensures { result ≡ same_bytes block_size a.now b.now }
{
    if a.is_empty() {
        return part_is_zero(b);
    }
    if b.is_empty() {
        return part_is_zero(a);
    }
    blocks::blocks_equal(a, b)
}

// ---- an image by its layout

// An image, and the layout by which it is judged.
#[derive(Clone, Copy)]
struct Dump<'a> {
    image: &'a [u8],
    layout: Layout,
}

impl Dump<'_> {
    // Appends the first line of an image that a read answers with this status.
    fn append_first(self, status: Result<(), Refusal>, page: &mut Page)
        requires code { code_of status ≡ dump_status self.layout self.image.now }
        requires room { Room page.old first_room }
        ensures appended { Appended page.old (first_text self.entry.layout self.entry.image.now) page.new }
        ensures upper_bound { page.new.end ≤ page.old.end + first_room }
    {
        append_sizes(self.layout, self.image.len() as u64, page);
        append_epoch(self.image, page);
        append_states_at(self.image, page);
        let code = model::status_code(status);
        page.number(b" refusal=", code, b"\n");
    }

    // Appends the number and the active state of a main segment.
    fn append_state(self, main: u64, page: &mut Page)
        requires main_lt_most { main < most }
        requires room { Room page.old state_room }
        ensures appended { Appended page.old (keyed "level=" (decimal main) ++ keyed " state=" (decimal (active_state self.entry.image.now main))) page.new }
        ensures upper_bound { page.new.end ≤ page.old.end + state_room }
    {
        let state = byte_or_zero(self.image, active_line(self.image) + main as usize);
        page.keyed(b"level=", main);
        page.keyed(b" state=", u64::from(state));
    }

    // Appends the backup segment of a main segment.
    #[tactic(auto, unfolding(crate::specs::DumpText::backup_text, metadata::specs::Find::found_below, text::specs::Text::text, model::specs::Range::cat))]
    fn append_backup(self, main: u64, page: &mut Page)
        requires backups_le_most { (self.layout.backups ≤ most) × (main < most) × (pairs_end ≤ length self.image.now) }
        requires room { Room page.old backup_room }
        ensures appended { Appended page.old (keyed " spare=" (backup_text self.entry.layout self.entry.image.now main)) page.new }
        ensures upper_bound { page.new.end ≤ page.old.end + backup_room }
    {
        match metadata::find_paired_backup(self.image, self.layout, main) {
            None => page.text(b" spare=-"),
            Some(backup) => page.keyed(b" spare=", backup),
        }
    }

    // Appends where the checkpoint of a main segment starts, and where its working bytes do.
    fn append_parts(self, main: u64, page: &mut Page)
        requires { Room page.old parts_room }
        ensures appended { Appended page.old (keyed " saved=" (part_text (checkpoint_part self.entry.layout self.entry.image.now main 0)) ++ keyed " working=" (part_text (working_part self.entry.layout self.entry.image.now main 0))) page.new }
        ensures upper_bound { page.new.end ≤ page.old.end + parts_room }
    {
        let saved = reads::checkpoint_part(self.image, self.layout, main, 0);
        let working = reads::working_part(self.image, self.layout, main, 0);
        append_part(b" saved=", saved, page);
        append_part(b" working=", working, page);
    }

    // Whether the checkpoint bytes of a block and its working bytes differ.
    #[tactic(auto, using(crate::proofs::PartLaws::checkpoint_long, crate::proofs::PartLaws::working_long), unfolding(crate::specs::DumpText::block_differs))]
    fn block_differs(self, main: u64, block: u64) -> bool
        ensures { result ≡ block_differs self.entry.layout self.entry.image.now main block }
    {
        let saved = reads::crpm_read_checkpoint(self.image, self.layout, main, block);
        let working = reads::crpm_read_working(self.image, self.layout, main, block);
        !parts_same(saved, working)
    }

    // Whether the checkpoint bytes of a block are all 0.
    #[tactic(auto, using(crate::proofs::PartLaws::checkpoint_long), unfolding(model::specs::Same::same_bytes))]
    fn block_is_silent(self, main: u64, block: u64) -> bool
        ensures { result ≡ same_bytes block_size (checkpoint_block self.entry.layout self.entry.image.now main block) [] }
    {
        part_is_zero(reads::crpm_read_checkpoint(self.image, self.layout, main, block))
    }

    // Whether all checkpoint bytes of a main segment are 0.
    fn all_silent(self, main: u64) -> bool
        ensures { result ≡ all_b self.entry.layout.blocks (λ b. same_bytes block_size (checkpoint_block self.entry.layout self.entry.image.now main b) []) }
    {
        (0..self.layout.blocks).all(|block| self.block_is_silent(main, block))
    }

    // Whether a main segment has a checkpoint and all bytes of it are 0.
    #[tactic(auto, unfolding(crate::specs::DumpText::is_silent))]
    fn is_silent(self, main: u64) -> bool
        ensures { result ≡ is_silent self.entry.layout self.entry.image.now main }
    {
        let saved = reads::checkpoint_part(self.image, self.layout, main, 0);
        saved.size != 0 && self.all_silent(main)
    }

    // Appends the list of the blocks in which checkpoint bytes and working bytes differ.
    #[tactic(auto, using(printer::proofs::AppendedLaws::appended_none), unfolding(model::specs::Range::any_b, crate::specs::DumpText::listed, crate::specs::DumpText::list_text))]
    fn append_list(self, main: u64, page: &mut Page)
        requires blocks_le_most { self.layout.blocks ≤ most }
        requires room { Room page.old list_room }
        ensures appended { Appended page.old (list_text self.entry.layout.blocks (block_differs self.entry.layout self.entry.image.now main)) page.new }
        ensures upper_bound { page.new.end ≤ page.old.end + list_room }
    {
        let mut seen = false;
        for block in 0..self.layout.blocks {
            if self.block_differs(main, block) {
                append_item(block, seen, page);
                seen = true;
            }
        }
        if !seen {
            page.text(b"-");
        }
    }

    // Appends the line of a main segment.
    #[tactic(auto, using(crate::proofs::LineLaws::ready))]
    fn append_level(self, main: u64, page: &mut Page)
        requires value { dump_status self.layout self.image.now ≡ 0 }
        requires main_lt_mains { main < self.layout.mains }
        requires room { Room page.old level_room }
        ensures appended { Appended page.old (level_text self.entry.layout self.entry.image.now main) page.new }
        ensures upper_bound { page.new.end ≤ page.old.end + level_room }
    {
        self.append_state(main, page);
        self.append_backup(main, page);
        self.append_parts(main, page);
        page.text(b" differ=");
        self.append_list(main, page);
        append_end(self.is_silent(main), page);
    }

    // Appends the lines of all main segments.
    #[tactic(auto, using(crate::proofs::LineLaws::ready), unfolding(model::specs::Range::cat))]
    fn append_levels(self, page: &mut Page)
        requires value { dump_status self.layout self.image.now ≡ 0 }
        requires room { Room page.old (level_room * most) }
        ensures { Appended page.old (cat self.entry.layout.mains (level_text self.entry.layout self.entry.image.now)) page.new }
    {
        for main in 0..self.layout.mains {
            self.append_level(main, page);
        }
    }
}

// ---- the text

// What a read answers, and how many bytes the text has.
#[derive(Clone, Copy)]
pub struct Dumped {
    pub status: Result<(), Refusal>,
    pub size: usize,
}

// What a dump shows of an image, at the start of a buffer.
pub fn dump_text(image: &[u8], layout: Layout, out: &mut [u8; MOST_TEXT]) -> Dumped
    ensures status_value { code_of result.status ≡ dump_status layout image.now }
    ensures prefix_len { IsPrefixLen result.size out.new }
    ensures size_value { (result.size ≡ length (dump_text layout image.now)) × (out.new ≡ dump_text layout image.now ++ drop result.size out.old) }
{
    let dump = Dump { image, layout };
    let mut page = Page::new(out);
    let status = reads::read_status(image, layout, 0, 0);
    dump.append_first(status, &mut page);
    if status.is_ok() {
        dump.append_levels(&mut page);
    }
    Dumped {
        status,
        size: page.end,
    }
}
