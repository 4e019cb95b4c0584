// Dumps for programs outside (SPECIFICATION 21.8): an image's own sizes, the text of one image and that of two compared, exported under
// their own names; crate rust/dump calls them. A slice is a pointer and a length, every number that is answered a pointer to one word. A
// text is put at the start of the buffer that is lent for it if that is long enough; its length is answered in any case.

#![tactic(auto)]

ghost use Rattle.std.specs.Prelude.{◌≡◌, length};
ghost use Rattle.model.specs.Layout.{layout_of};
ghost use Rattle.model.specs.Same.{same_outcome};
ghost use Rattle.inspect.specs.DumpText.{own_layout, dump_status, dump_text};
ghost use Rattle.unlike.specs.SameText.{same_text};
ghost use Rattle.dump.specs.Fitted.{fitted};

use model::Layout;

// The sizes that an image carries.
#[unsafe(no_mangle)]
pub extern "C" fn crpm_sizes(image: &[u8], mains: &mut u64, backups: &mut u64, blocks: &mut u64)
    ensures mains_after { mains.new ≡ (own_layout image.now).mains }
    ensures backups_after { backups.new ≡ (own_layout image.now).backups }
    ensures blocks_after { blocks.new ≡ (own_layout image.now).blocks }
{
    let layout = inspect::own_layout(image);
    *mains = layout.mains;
    *backups = layout.backups;
    *blocks = layout.blocks;
}

// Puts a text at the start of a buffer that is long enough for it.
#[tactic(auto, unfolding(crate::specs::Fitted::fitted))]
fn hand_over(text: &[u8], out: &mut [u8])
    ensures { out.new ≡ fitted text.now out.old }
{
    let size = text.len();
    if size <= out.len() {
        out[..size].copy_from_slice(text);
    }
}

// The text of one image; returned is the number that a read gives.
#[unsafe(no_mangle)]
pub extern "C" fn crpm_dump_text(
    image: &[u8],
    mains: u64,
    backups: u64,
    blocks: u64,
    out: &mut [u8],
    size: &mut u64,
) -> u64
    ensures value { result ≡ dump_status (layout_of mains backups blocks) image.now }
    ensures out_after { out.new ≡ fitted (dump_text (layout_of mains backups blocks) image.now) out.old }
    ensures size_after { size.new ≡ length (dump_text (layout_of mains backups blocks) image.now) }
{
    let mut text = [0u8; inspect::MOST_TEXT];
    let dumped = inspect::dump_text(image, Layout::new(mains, backups, blocks), &mut text);
    hand_over(&text[..dumped.size], out);
    *size = dumped.size as u64;
    model::status_code(dumped.status)
}

// The text of two images compared; returned is the number of the comparison.
#[unsafe(no_mangle)]
pub extern "C" fn crpm_same_text(
    a: &[u8],
    b: &[u8],
    mains: u64,
    backups: u64,
    blocks: u64,
    out: &mut [u8],
    size: &mut u64,
) -> u64
    ensures value { result ≡ (same_outcome (layout_of mains backups blocks) a.now b.now).status }
    ensures out_after { out.new ≡ fitted (same_text (layout_of mains backups blocks) a.now b.now) out.old }
    ensures size_after { size.new ≡ length (same_text (layout_of mains backups blocks) a.now b.now) }
{
    let mut text = [0u8; unlike::MOST_TEXT];
    let compared = unlike::same_text(a, b, Layout::new(mains, backups, blocks), &mut text);
    hand_over(&text[..compared.size], out);
    *size = compared.size as u64;
    model::status_code(compared.status)
}
