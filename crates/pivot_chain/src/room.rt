ghost use Rattle.std.specs.Prelude.{IfOk};
ghost use Rattle.pivot_chain.specs.Room.{IsRoomOf, IsChainsOf};

use crate::row_squares::squares_by_length;
use geo_base::NoMemory;
use geo_model::{Network, Square};
use lent_parts::Tri;
use limit_forms::{LimitGrid, full_diagonals};
use normal_matrix::Normal;
use std::alloc::Global;
use std::marker::Model;

/// What the two chains of a limit under a plan are run in.
#[derive(Debug, Drop)]
pub(crate) struct Chains {
    pub(crate) normal: Normal,
    // Who asks for the verdicts of two plans in turn finds the other one's matrix here.
    pub(crate) other: Normal,
    pub(crate) grid: LimitGrid,
    pub(crate) diagonal: Vec<i128>,
    pub(crate) lower: Tri,
    pub(crate) upper: Tri,
    pub(crate) rows: Tri,
    pub(crate) gaps: Tri,
}

impl Model for Chains {
    ghost use Rattle.pivot_chain.specs.Room.{ChainsOf};

    ghost Value = { ChainsOf };

    ghost view = { λ chains. record { normal = chains.normal; other = chains.other; grid = chains.grid; diagonal = chains.diagonal.items; lower = chains.lower; upper = chains.upper; rows = chains.rows; gaps = chains.gaps } };
}

/// All the memory that verdicts on the limits of a network need. A verdict depends on nothing that
/// the room held before.
#[derive(Debug)]
pub struct ChainRoom {
    pub(crate) chains: Chains,
    // The square of a row that is judged: one is kept for each number of entries.
    pub(crate) squares: Vec<Square>,
}

// Not derived: a derived drop is spelled out, part by part, in the proof of whoever owns a room.
impl Drop for ChainRoom {
    fn drop(self) {
        let ChainRoom {
            chains: _chains,
            squares: _squares,
        } = self;
    }
}

impl Model for ChainRoom {
    ghost use Rattle.pivot_chain.specs.Room.{RoomOf};

    ghost Value = { RoomOf };

    ghost view = { λ room. record { chains = room.chains; squares = room.squares.items } };
}

// What the chains of a network are run in. Refused for want of memory alone.
fn chains_for(alloc: Global, network: &Network) -> Result<Chains, NoMemory>
    ensures { IfOk result (λ chains. IsChainsOf network.now chains) }
{
    let size = network.unknowns().len() as u32;
    let normal = Normal::new(alloc, network)?;
    let other = Normal::new(alloc, network)?;
    let grid = LimitGrid::new(alloc, network, 1, &[])?;
    let diagonal = full_diagonals(alloc, network)?;
    let lower = Tri::new(alloc, size)?;
    let upper = Tri::new(alloc, size)?;
    let rows = Tri::new(alloc, size)?;
    let gaps = Tri::new(alloc, size)?;
    Ok(Chains {
        normal,
        other,
        grid,
        diagonal,
        lower,
        upper,
        rows,
        gaps,
    })
}

impl ChainRoom {
    /// A room for a network. Refused for want of memory alone.
    pub fn new(alloc: Global, network: &Network) -> Result<ChainRoom, NoMemory>
        ensures { IfOk result (λ room. IsRoomOf network.now room) }
    {
        let chains = chains_for(alloc, network)?;
        let squares = squares_by_length(alloc)?;
        Ok(ChainRoom { chains, squares })
    }
}
