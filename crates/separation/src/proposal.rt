ghost use Rattle.std.specs.Prelude.{◌≡◌, length, IfOk};

use geo_base::NoMemory;
use geo_model::{Displacement, Network};
use std::alloc::Global;

/// A limit by its number, and a displacement that may break it.
#[derive(Debug, Drop)]
pub struct Proposal {
    pub limit: u32,
    pub x: Displacement,
}

/// The displacement of these entries, cut or filled to the unknowns of a network. Each entry is held
/// within 32768.
pub fn displacement_of(
    alloc: Global,
    network: &Network,
    entries: &[i32],
) -> Result<Displacement, NoMemory>
    ensures { IfOk result (λ x. length x ≡ length network.now.unknowns) }
{
    let size = network.unknowns().len() as u32;
    let mut x = Displacement::new(alloc, size)?;
    for unknown in 0..size {
        let entry = entries.get(unknown as usize).copied().unwrap_or(0);
        x.set(unknown, entry.clamp(-32768, 32768));
    }
    Ok(x)
}
