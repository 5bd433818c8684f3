ghost use Rattle.std.specs.Prelude.{◌≡◌, ◌<◌, ◌≤◌, Some, length, slice_get, IfOk};
ghost use Rattle.geo_model.specs.Limit.{IsLoad};
ghost use Rattle.limit_forms.specs.Form.{IsFullDiagonal};
ghost use Rattle.limit_forms.specs.Grid.{grid_of};

use crate::exponents::{exponents_of, take_exponents};
use crate::order::take_order;
use geo_base::NoMemory;
use geo_model::{Network, Square};
use std::alloc::Global;
use std::marker::Model;

/// The order and the exponents of the unknowns for a limit. Contracts see it as the unknown at each
/// place, and the exponent of each unknown.
#[derive(Debug, Drop)]
pub struct LimitGrid {
    order: Vec<u32>,
    exponents: Vec<i32>,
}

impl Model for LimitGrid {
    ghost use Rattle.limit_forms.specs.Grid.{GridOf, IsGrid};

    ghost Value = { GridOf };

    ghost view = { λ grid. record { order = grid.order.items; exponents = grid.exponents.items } };

    ghost invariant = { λ grid. IsGrid (record { order = grid.order.items; exponents = grid.exponents.items }) };
}

impl LimitGrid {
    /// The grid of a limit with this factor and these squares.
    pub fn new(
        alloc: Global,
        network: &Network,
        alpha: i64,
        squares: &[Square],
    ) -> Result<LimitGrid, NoMemory>
        requires { IsLoad (length network.now.unknowns) network.now.candidates alpha squares.now }
        ensures { IfOk result (λ grid. grid ≡ grid_of network.now alpha squares.now) }
    {
        let n = network.unknowns().len();
        let mut order = vec![in alloc; 0u32; n]?;
        let mut exponents = vec![in alloc; 0i32; n]?;
        take_order(order.as_mut_slice(), squares);
        take_exponents(exponents.as_mut_slice(), network, alpha);
        Ok(LimitGrid { order, exponents })
    }

    /// Makes this the grid of a limit with this factor and these squares. It takes no memory.
    pub fn retake(&mut self, network: &Network, alpha: i64, squares: &[Square])
        requires places { length self.old.order ≡ length network.now.unknowns }
        requires limit { IsLoad (length network.now.unknowns) network.now.candidates alpha squares.now }
        ensures { self.new ≡ grid_of network.now alpha squares.now }
    {
        // The network's bounds, for the proof.
        let _bounds = network.candidates();
        take_order(self.order.as_mut_slice(), squares);
        take_exponents(self.exponents.as_mut_slice(), network, alpha);
    }

    /// The same, where the diagonal of the normal matrix of all candidates is known.
    pub fn retake_known(
        &mut self,
        network: &Network,
        diagonal: &[i128],
        alpha: i64,
        squares: &[Square],
    )
        requires places { length self.old.order ≡ length network.now.unknowns }
        requires known { IsFullDiagonal network.now diagonal.now }
        requires limit { IsLoad (length network.now.unknowns) network.now.candidates alpha squares.now }
        ensures { self.new ≡ grid_of network.now alpha squares.now }
    {
        // The network's bounds, for the proof.
        let _bounds = network.candidates();
        take_order(self.order.as_mut_slice(), squares);
        exponents_of(self.exponents.as_mut_slice(), network, diagonal, alpha);
    }

    /// The place of an unknown.
    pub fn place(&self, unknown: u32) -> u32
        requires { unknown < length self.now.order }
        ensures inside { result < length self.now.order }
        ensures found { slice_get self.now.order result ≡ Some unknown }
    {
        for (place, at_place) in self.order.as_slice().iter().enumerate() {
            if *at_place == unknown {
                return place as u32;
            }
        }
        unreachable!()
    }

    /// The unknown at a place.
    pub fn unknown(&self, place: u32) -> u32
        requires { place < length self.now.order }
        ensures inside { result < length self.now.order }
        ensures found { slice_get self.now.order place ≡ Some result }
    {
        self.order[place as usize]
    }

    /// The exponent of an unknown.
    pub fn exponent(&self, unknown: u32) -> i32
        requires { unknown < length self.now.order }
        ensures { slice_get self.now.exponents unknown ≡ Some result }
    {
        self.exponents[unknown as usize]
    }
}
