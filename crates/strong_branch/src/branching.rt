use crate::probe::{Probe, SplitSide};
use dual_simplex::Tableau;
use geo_base::NoMemory;
use std::alloc::Global;
use std::mem;

/// The candidates of one node that are tried, and the best of them. It keeps its memory from node to
/// node.
#[derive(Drop)]
pub struct Branching {
    // The sides of the candidate that is tried.
    inside: Tableau,
    outside: Tableau,
    // The sides of the best one.
    best_inside: Tableau,
    best_outside: Tableau,
    best: Option<Probe>,
    // What a rise counts at least.
    least: i64,
}

impl Branching {
    /// No candidate was tried. It takes no memory.
    pub fn new(alloc: Global) -> Branching {
        Branching {
            inside: Tableau::new(alloc),
            outside: Tableau::new(alloc),
            best_inside: Tableau::new(alloc),
            best_outside: Tableau::new(alloc),
            best: None,
            least: 0,
        }
    }

    /// Starts at a node: no candidate was tried, and each rise counts at least `least`.
    pub fn start(&mut self, least: i64) {
        self.best = None;
        self.least = least;
    }

    /// Tries a candidate at the node of a tableau that was run, for at most so many pivots a side. The
    /// side that takes it takes the share of its station too, if it has one. The best candidate's
    /// tableaus are kept; of equal ones the first is.
    pub fn probe(
        &mut self,
        node: &Tableau,
        candidate: u32,
        station: Option<u32>,
        steps: u32,
    ) -> Result<Probe, NoMemory> {
        let before = node.objective();
        self.inside.copy_from(node)?;
        self.inside.fix(candidate, true);
        if let Some(station) = station {
            self.inside.fix(station, true);
        }
        self.outside.copy_from(node)?;
        self.outside.fix(candidate, false);
        let probe = Probe {
            candidate,
            inside: run_side(&mut self.inside, before, steps)?,
            outside: run_side(&mut self.outside, before, steps)?,
        };
        let is_better = match self.best {
            Some(best) => best.score(self.least) < probe.score(self.least),
            None => true,
        };
        if is_better {
            self.best = Some(probe);
            mem::swap(&mut self.inside, &mut self.best_inside);
            mem::swap(&mut self.outside, &mut self.best_outside);
        }
        Ok(probe)
    }

    /// The best candidate that was tried at this node.
    pub fn best(&self) -> Option<Probe> {
        self.best
    }

    /// The tableau of the side that takes the best candidate.
    pub fn inside(&self) -> &Tableau {
        &self.best_inside
    }

    /// The tableau of the side that leaves the best candidate out.
    pub fn outside(&self) -> &Tableau {
        &self.best_outside
    }
}

// Runs the tableau of one side of a split.
fn run_side(side: &mut Tableau, before: i64, steps: u32) -> Result<SplitSide, NoMemory> {
    let outcome = side.run(steps)?;
    Ok(SplitSide::of(outcome, before, side.objective()))
}
