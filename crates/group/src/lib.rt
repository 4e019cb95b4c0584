// One group of a bench sheet (SPECIFICATION 16): its write, its checkpoint if one is wanted, and its line.

#![tactic(auto)]

ghost use Rattle.std.specs.Prelude.{◌≤◌, length};
ghost use Rattle.model.specs.Layout.{word_size};
ghost use Rattle.printer.specs.Page.{Room, Grown};
ghost use Rattle.calls.specs.Ran.{Kept, group_of_parts};
ghost use Rattle.group.specs.GroupRan.{group_size, GroupRan};

use calls::{GroupParts, Sheet};
use printer::Page;

// Group n: its write, its checkpoint if one is wanted, and its line.
pub fn run_group(sheet: &mut Sheet, n: u64, parts: GroupParts, bytes: &[u8], page: &mut Page)
    requires word_size_in_bounds { word_size ≤ length sheet.old.image.now }
    requires room { Room page.old group_size }
    ensures kept { Kept sheet.old sheet.new }
    ensures group_ran { GroupRan sheet.old n (group_of_parts parts bytes.now) page.old sheet.new page.new }
    ensures grown { Grown page.old group_size page.new }
{
    page.number(b"step=", n, b" ");
    sheet.write(parts.place, bytes, page);
    sheet.checkpoint(parts.checkpoint, page);
    let epoch = sheet.epoch();
    page.number(b" epoch=", epoch, b"\n");
}
