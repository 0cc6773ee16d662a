//! The layer section of a job file.
ghost use Rattle.std.specs.Prelude.{MatchResult};
ghost use Rattle.refusals.specs.Checks.{FirstTells, Passes};
ghost use Rattle.jobs.specs.Checks.{layer_checks};
ghost use Rattle.jobs.specs.Layout.{SaysLayers};
ghost use Rattle.jobs.specs.Refusals.{layers_told};

use crate::layer_section_fault::LayerSectionFault;
use layers::LayerNumbers;
use little_endian::{byte_at, u16_at, u64_at};

// The bytes of a layer section.
const SIZE: usize = 21;

// The layer numbers of a section that starts at this byte of the file.
#[tactic(auto, unfolding(crate::specs::Checks::layer_checks))]
pub(crate) fn read_layers(start: u16, bytes: &[u8]) -> Result<LayerNumbers, LayerSectionFault>
    ensures { MatchResult result (λ l. SaysLayers bytes.now l × Passes (layer_checks start bytes.now))
        (λ e. FirstTells (layer_checks start bytes.now) (layers_told e)) }
{
    let swap = byte_at(bytes, 0);
    if bytes.len() != SIZE || swap > 1 {
        return Err(LayerSectionFault(start));
    }
    Ok(LayerNumbers {
        s: u16_at(bytes, 1),
        t: u16_at(bytes, 3),
        x_word: u64_at(bytes, 5),
        y_word: u64_at(bytes, 13),
        swap: swap == 1,
    })
}
