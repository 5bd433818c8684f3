//! The room that judging lines takes.
ghost use Rattle.std.specs.Prelude.{IfOk};
ghost use Rattle.log_check.specs.LineRoom.{IsLineRoom};

use geo_base::NoMemory;
use geo_model::{Displacement, Network};
use pivot_chain::ChainRoom;
use std::alloc::Global;

/// The room that judging the lines of a log takes: that of verdicts, of one displacement, and of
/// the coefficients of a cut and the reduced prices of the candidates.
#[derive(Drop)]
pub struct LineRoom {
    pub chains: ChainRoom,
    pub moves: Displacement,
    pub coefficients: Vec<u32>,
    pub reduced: Vec<i128>,
}

impl LineRoom {
    /// The room for a network. Refused for want of memory alone.
    pub fn new(alloc: Global, network: &Network) -> Result<LineRoom, NoMemory>
        ensures { IfOk result (IsLineRoom network.now) }
    {
        let chains = ChainRoom::new(alloc, network)?;
        let moves = Displacement::new(alloc, network.unknowns().len() as u32)?;
        let coefficients = vec![in alloc; 0; network.candidates().len()]?;
        let reduced = vec![in alloc; 0; network.candidates().len()]?;
        Ok(LineRoom {
            chains,
            moves,
            coefficients,
            reduced,
        })
    }
}
