// Sheets of the older rule (SPECIFICATION 16.8, 16.9): a good sheet that leaves the line of backup segments out gets it, as the older
// rule meant it, so that it prints what it printed.

#![tactic(auto)]

ghost use Rattle.std.specs.Prelude.{◌≤◌, ◌≡◌, ◌++◌, length, drop, None};
ghost use Rattle.io.specs.Counts.{IsPrefixLen};
ghost use Rattle.parser.specs.Script.{most_bytes, verdict};
ghost use Rattle.printer.specs.Page.{Room, Appended};
ghost use Rattle.upgrade.specs.Upgrade.{LeavesOut, rewritten, good_text, upgrade_text};

use lines::Key;
use printer::Page;

// The bytes of a line of backup segments: its key, one digit, byte 10.
const LINE_SIZE: usize = 9;

// Appends the rewritten sheet.
fn put_rewritten(input: &[u8], page: &mut Page)
    requires leaves_out { LeavesOut input.now }
    requires size { length (rewritten input.now) ≤ most_bytes }
    requires room { Room page.old most_bytes }
    ensures { Appended page.old (rewritten input.now) page.new }
{
    let (first, rest) = text::split_line(input);
    page.text(first);
    let mains = Key::Mains.number_in(first);
    page.number(b"spares=", mains, b"\n");
    page.text(rest);
}

// A good sheet: its line, if it has one; how long it would be, if that is too long; rewritten.
fn upgrade_good(input: &[u8], page: &mut Page)
    requires good { verdict input.now ≡ None }
    requires room { Room page.old most_bytes }
    ensures { Appended page.old (good_text input.now) page.new }
{
    let (_, rest) = text::split_line(input);
    let (second, _) = text::split_line(rest);
    if Key::Backups.is_named(second) {
        let backups = Key::Backups.number_in(second);
        page.number(b"spares=", backups, b"\n");
        return;
    }
    let size = input.len() + LINE_SIZE;
    if parser::MOST_BYTES < size {
        page.number(b"bytes=", size as u64, b"\n");
        return;
    }
    put_rewritten(input, page);
}

// Puts what becomes of a sheet at the start of a buffer, and answers how many bytes that are.
pub fn upgrade_sheet(input: &[u8], out: &mut [u8; parser::MOST_BYTES]) -> usize
    ensures prefix_len { IsPrefixLen result out.new }
    ensures value { (result ≡ length (upgrade_text input.now)) × (out.new ≡ upgrade_text input.now ++ drop result out.old) }
{
    let mut page = Page::new(out);
    match parser::verdict(input) {
        Some(n) => page.number(b"sheet=", n, b"\n"),
        None => upgrade_good(input, &mut page),
    }
    page.end
}
