//! Both chains of a limit, and the counts of their rows.
ghost use Rattle.std.specs.Prelude.{◌≡◌, ◌≤◌, IfOk};
ghost use Rattle.factor_stack.specs.Stored.{saved_from, put_back, AreFresh, HasPlace, AreRest};

use crate::Chain;
use crate::rows::{put_rows, rows_from};
use geo_base::NoMemory;
use lent_parts::Tri;
use std::alloc::Global;

/// Both chains of a limit, and what the rows of each counted for the slack of later ones: row `k` of
/// the counts has, `m` places right of its diagonal, in how many steps that quotient wasn't whole.
#[derive(Debug, Drop)]
pub struct Factors {
    pub lower: Chain,
    pub upper: Chain,
    pub lower_gaps: Tri,
    pub upper_gaps: Tri,
}

impl Factors {
    // Chains of `n` rows, none of them computed.
    pub(crate) fn new(alloc: Global, n: u32) -> Result<Factors, NoMemory>
        requires { n ≤ 64 }
        ensures { IfOk result (AreFresh n) }
    {
        let lower = Chain::new(alloc, n)?;
        let upper = Chain::new(alloc, n)?;
        let lower_gaps = Tri::new(alloc, n)?;
        let upper_gaps = Tri::new(alloc, n)?;
        Ok(Factors {
            lower,
            upper,
            lower_gaps,
            upper_gaps,
        })
    }

    // What is stored from place `first` on, once more.
    pub(crate) fn save(&self, alloc: Global, first: u32) -> Result<Factors, NoMemory>
        requires { HasPlace first self.now }
        ensures { IfOk result (λ saved. saved ≡ saved_from first self.now) }
    {
        let lower = self.lower.save(alloc, first)?;
        let upper = self.upper.save(alloc, first)?;
        let lower_gaps = rows_from(alloc, &self.lower_gaps, first)?;
        let upper_gaps = rows_from(alloc, &self.upper_gaps, first)?;
        Ok(Factors {
            lower,
            upper,
            lower_gaps,
            upper_gaps,
        })
    }

    // Puts what was saved in its place from `first` on.
    pub(crate) fn give_back(&mut self, first: u32, saved: &Factors)
        requires { AreRest first saved.now self.old }
        ensures { self.new ≡ put_back first self.old saved.now }
    {
        self.lower.give_back(first, &saved.lower);
        self.upper.give_back(first, &saved.upper);
        put_rows(&saved.lower_gaps, &mut self.lower_gaps, first);
        put_rows(&saved.upper_gaps, &mut self.upper_gaps, first);
    }
}
