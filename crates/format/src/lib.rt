// Format of an image (SPECIFICATION 4; the trade: laying-out): zeros, the three sizes, and every backup segment unpaired.

#![tactic(auto)]

ghost use Rattle.std.specs.Prelude.{◌≡◌, length};
ghost use Rattle.model.specs.Layout.{image_size};
ghost use Rattle.model.specs.Status.{code_of};
ghost use Rattle.model.specs.Format.{formatted, format_outcome};

use model::{Layout, Refusal};

// Writes an image with no checkpoint yet.
#[tactic(auto, unfolding(model::specs::Layout::image_size))]
fn write_formatted(image: &mut [u8], layout: Layout)
    requires { length image.old ≡ image_size layout }
    ensures { image.new ≡ formatted layout }
{
    let pairs = Layout::PAIRS_AT as usize;
    let end = pairs + Layout::MOST_LEN;
    image.fill(0);
    words::store_word(image, Layout::MAINS_AT as usize, layout.mains);
    words::store_word(image, Layout::BACKUPS_AT as usize, layout.backups);
    words::store_word(image, Layout::BLOCKS_AT as usize, layout.blocks);
    image[pairs..end].fill(Layout::UNPAIRED);
}

// Formats an image with these sizes. A refusal changes nothing.
#[tactic(auto, using(model::proofs::Laws::Status::refusal_refuses, crate::proofs::FormatLaws::served_sizes), unfolding(model::specs::Format::format_outcome))]
pub fn crpm_format(image: &mut [u8], layout: Layout) -> Result<(), Refusal>
    ensures result_value { code_of result ≡ (format_outcome layout image.old).status }
    ensures image_after { image.new ≡ (format_outcome layout image.old).image }
{
    places::size_status(image, layout)?;
    write_formatted(image, layout);
    Ok(())
}
