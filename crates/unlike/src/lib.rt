// What the comparison of two dumps shows (SPECIFICATION 21.5): whether they are alike, and if not, the first main segment, block and byte
// that tell them apart. specs/SameText.antt says what the text is.

#![tactic(auto)]

ghost use Rattle.std.specs.Prelude.{◌≡◌, ◌++◌, ◌+◌, ◌*◌, length, drop};
ghost use Rattle.model.specs.Status.{code_of, refusal_number};
ghost use Rattle.model.specs.Same.{same_outcome};
ghost use Rattle.io.specs.Counts.{IsPrefixLen};
ghost use Rattle.printer.specs.Decimal.{number_size};
ghost use Rattle.printer.specs.Page.{Room, Appended};
ghost use Rattle.unlike.specs.SameText.{block_unlike, initial_unlike, main_unlike, first_main, first_block, first_byte, place_text, unlike_text, refused_text, same_text};

use inspect::Dumped;
use model::{Layout, Refusal};
use printer::Page;

// The most bytes of a text: three numbers and the words around them.
pub const MOST_TEXT: usize = 85;

// Bytes of a block, as indexes count them.
const BLOCK_SIZE: usize = Layout::BLOCK_SIZE as usize;

// ---- what tells two images apart

// Two images, judged by one layout.
#[derive(Clone, Copy)]
struct Pair<'a> {
    a: &'a [u8],
    b: &'a [u8],
    layout: Layout,
}

impl Pair<'_> {
    // Whether a main segment has a checkpoint in one of the images alone.
    #[tactic(auto, unfolding(crate::specs::SameText::initial_unlike))]
    fn initial_unlike(self, main: u64) -> bool
        ensures { result ≡ initial_unlike self.entry.layout self.entry.a.now self.entry.b.now main }
    {
        let x = reads::checkpoint_part(self.a, self.layout, main, 0);
        let y = reads::checkpoint_part(self.b, self.layout, main, 0);
        (x.size == 0) != (y.size == 0)
    }

    // Whether a block has other checkpoint bytes in one image than in the other.
    #[tactic(auto, using(inspect::proofs::PartLaws::checkpoint_long), unfolding(crate::specs::SameText::block_unlike))]
    fn block_unlike(self, main: u64, block: u64) -> bool
        ensures { result ≡ block_unlike self.entry.layout self.entry.a.now self.entry.b.now main block }
    {
        let x = reads::crpm_read_checkpoint(self.a, self.layout, main, block);
        let y = reads::crpm_read_checkpoint(self.b, self.layout, main, block);
        !inspect::parts_same(x, y)
    }

    // The first block of a main segment that has, or the number of blocks.
    fn first_block(self, main: u64) -> u64
        ensures { result ≡ first_block self.entry.layout self.entry.a.now self.entry.b.now main }
    {
        let blocks = self.layout.blocks;
        (0..blocks)
            .find(|block| self.block_unlike(main, *block))
            .unwrap_or(blocks)
    }

    // Whether a main segment tells the two images apart.
    #[tactic(auto, using(model::proofs::Laws::Range::any_first), unfolding(crate::specs::SameText::main_unlike, crate::specs::SameText::first_block))]
    fn main_unlike(self, main: u64) -> bool
        ensures { result ≡ main_unlike self.entry.layout self.entry.a.now self.entry.b.now main }
    {
        self.initial_unlike(main) || self.first_block(main) < self.layout.blocks
    }

    // The first main segment that does, or the number of main segments.
    fn first_main(self) -> u64
        ensures { result ≡ first_main self.entry.layout self.entry.a.now self.entry.b.now }
    {
        let mains = self.layout.mains;
        (0..mains)
            .find(|main| self.main_unlike(*main))
            .unwrap_or(mains)
    }

    // ---- the text

    // Appends where a main segment differs, and the end of the line.
    fn append_place(self, main: u64, page: &mut Page)
        requires { Room page.old (12 + 2 * number_size) }
        ensures { Appended page.old (place_text self.entry.layout self.entry.a.now self.entry.b.now main) page.new }
    {
        let block = self.first_block(main);
        if block < self.layout.blocks {
            let x = reads::crpm_read_checkpoint(self.a, self.layout, main, block);
            let y = reads::crpm_read_checkpoint(self.b, self.layout, main, block);
            page.keyed(b" frame=", block);
            page.number(b" at=", first_byte(x, y), b"\n");
        } else {
            page.text(b" frame=- at=-\n");
        }
    }

    // Appends the text of two images that are unlike.
    fn append_unlike(self, page: &mut Page)
        requires { Room page.old (25 + 3 * number_size) }
        ensures { Appended page.old (unlike_text self.entry.layout self.entry.a.now self.entry.b.now) page.new }
    {
        let main = self.first_main();
        page.keyed(b"same=0 level=", main);
        self.append_place(main, page);
    }

    // Appends the text of two images of which the first or the second is refused.
    fn append_refused(self, refusal: Refusal, page: &mut Page)
        requires { Room page.old (17 + number_size) }
        ensures { Appended page.old (refused_text self.entry.layout self.entry.a.now (refusal_number refusal)) page.new }
    {
        page.keyed(b"refusal=", u64::from(refusal));
        if reads::read_status(self.a, self.layout, 0, 0).is_ok() {
            page.text(b" image=B\n");
        } else {
            page.text(b" image=A\n");
        }
    }
}

// The first byte in which two blocks differ, or the bytes of a block; one that is not there counts as zeros.
fn first_byte(x: &[u8], y: &[u8]) -> u64
    ensures { result ≡ first_byte x.now y.now }
{
    let differ = |k: &usize| inspect::byte_or_zero(x, *k) != inspect::byte_or_zero(y, *k);
    (0..BLOCK_SIZE).find(differ).unwrap_or(BLOCK_SIZE) as u64
}

// What the comparison shows of two images, at the start of a buffer.
pub fn same_text(a: &[u8], b: &[u8], layout: Layout, out: &mut [u8; MOST_TEXT]) -> Dumped
    ensures status_value { code_of result.status ≡ (same_outcome layout a.now b.now).status }
    ensures prefix_len { IsPrefixLen result.size out.new }
    ensures size_value { (result.size ≡ length (same_text layout a.now b.now)) × (out.new ≡ same_text layout a.now b.now ++ drop result.size out.old) }
{
    let pair = Pair { a, b, layout };
    let mut page = Page::new(out);
    let compared = same::crpm_same_checkpoint(a, b, layout);
    match compared {
        Err(refusal) => pair.append_refused(refusal, &mut page),
        Ok(true) => page.text(b"same=1\n"),
        Ok(false) => pair.append_unlike(&mut page),
    }
    Dumped {
        status: compared.map(|_| ()),
        size: page.end,
    }
}
