// A bench sheet run (SPECIFICATION 16): it is judged, its image laid out and opened, its groups run, and what it
// prints put into a buffer.

#![tactic(auto)]

ghost use Rattle.std.specs.Prelude.{◌*◌, ◌/◌, ◌≤◌, ◌≡◌, true, ◌++◌, length, drop, None};
ghost use Rattle.model.specs.Layout.{word_size};
ghost use Rattle.text.specs.Text.{hex_pairs};
ghost use Rattle.lines.specs.Line.{most_digits};
ghost use Rattle.parser.specs.Script.{verdict, parse};
ghost use Rattle.io.specs.Counts.{IsPrefixLen};
ghost use Rattle.printer.specs.Page.{Room, Grown};
ghost use Rattle.calls.specs.Printed.{printed};
ghost use Rattle.calls.specs.Ran.{Kept};
ghost use Rattle.group.specs.GroupRan.{group_size, GroupRan};
ghost use Rattle.script.specs.SheetRan.{most_text, group_least, GoodFrom, groups_from, group_in, GroupsRan, ScriptRan};

use calls::{GroupParts, Sheet};
use model::Layout;
use parser::GroupAt;
use printer::Page;

// The most bytes of its printed text: a group takes 31 bytes of the sheet at least and prints 162 at most, which is less than
// six times as many.
pub const MOST_TEXT: usize = 6 * parser::MOST_BYTES;

// The bytes of the largest image of a sheet.
const IMAGE_SIZE: usize = (Layout::METADATA_SIZE
    + Layout::BLOCK_SIZE * lines::MOST_SIZE * (lines::MOST_SIZE + lines::MOST_SIZE)) as usize;

// The most bytes of a write: those of the largest main segment of a sheet.
const SPAN_SIZE: usize = (Layout::BLOCK_SIZE * lines::MOST_SIZE) as usize;

// Runs group n as it is read of a sheet.
fn run_read(read: GroupAt, n: u64, sheet: &mut Sheet, page: &mut Page)
    requires digits { (length read.digits.now ≤ most_digits) × (hex_pairs read.digits.now ≡ true) }
    requires image { word_size ≤ length sheet.old.image.now }
    requires room { Room page.old group_size }
    ensures kept { Kept sheet.old sheet.new }
    ensures group_ran { GroupRan sheet.old n (group_in read.entry) page.old sheet.new page.new }
    ensures grown { Grown page.old group_size page.new }
{
    let mut bytes = [0; SPAN_SIZE];
    let count = text::decode_bytes(read.digits, &mut bytes);
    let parts = GroupParts {
        place: read.place,
        checkpoint: read.checkpoint,
    };
    group::run_group(sheet, n, parts, &bytes[..count], page);
}

// Runs all groups of the rest of a sheet.
fn run_groups(input: &[u8], sheet: &mut Sheet, page: &mut Page)
    requires good { GoodFrom input.now }
    requires image { word_size ≤ length sheet.old.image.now }
    requires room { Room page.old (group_size * (length input.now / group_least)) }
    ensures { GroupsRan sheet.old (groups_from input.now) page.old page.new }
{
    let mut rest = input;
    let mut n = 1;
    while !rest.is_empty() {
        let read = parser::group_at(rest);
        run_read(read, n, sheet, page);
        rest = read.rest;
        n += 1;
    }
}

// A good sheet: its image is formatted and opened, and its groups are run on it.
fn run_good(input: &[u8], page: &mut Page)
    requires good { verdict input.now ≡ None }
    requires room { Room page.old most_text }
    ensures { ScriptRan (parse input.now) page.old page.new }
{
    let header = parser::header(input);
    let size = places::image_size(header.layout);
    let mut image = [0; IMAGE_SIZE];
    let mut sheet = Sheet::open(&mut image[..size], header.layout, page);
    run_groups(header.rest, &mut sheet, page);
}

// Runs a sheet, puts what it prints at the start of a buffer, and answers how many bytes that are.
pub fn run_sheet(input: &[u8], out: &mut [u8; MOST_TEXT]) -> usize
    ensures prefix_len { IsPrefixLen result out.new }
    ensures value { (result ≡ length (printed input.now)) × (out.new ≡ printed input.now ++ drop result out.old) }
{
    let mut page = Page::new(out);
    match parser::verdict(input) {
        Some(n) => page.number(b"sheet=", n, b"\n"),
        None => run_good(input, &mut page),
    }
    page.end
}
