ghost use Rattle.std.specs.Prelude.{◌≡◌, ◌<◌, length, IfOk};

use geo_base::NoMemory;
use geo_model::{Network, Node, Plan};
use std::alloc::Global;

/// What a node says of a candidate: each of its plans chooses it, some may, or none does.
#[derive(Clone, Copy, Debug, PartialEq, Eq)]
pub enum Mark {
    Inside,
    Open,
    Outside,
}

/// What a node says of each candidate. It keeps its memory when another node is read.
#[derive(Drop)]
pub struct Marks {
    marks: Vec<Mark>,
}

// The mark of a candidate at a node.
fn mark_at(network: &Network, node: &Node, candidate: u32) -> Mark
    requires inside { length node.now.inside ≡ length network.now.candidates }
    requires upper { length node.now.upper ≡ length network.now.candidates }
    requires candidate { candidate < length network.now.candidates }
{
    if node.inside.has(candidate) {
        Mark::Inside
    } else if node.upper.has(candidate) {
        Mark::Open
    } else {
        Mark::Outside
    }
}

impl Marks {
    /// The marks of no candidates. It takes no memory.
    pub fn new(alloc: Global) -> Marks {
        Marks {
            marks: Vec::new(alloc),
        }
    }

    /// Reads the marks of a node, whose plans have an entry for each candidate of the network.
    pub fn read(&mut self, network: &Network, node: &Node) -> Result<(), NoMemory>
        requires inside { length node.now.inside ≡ length network.now.candidates }
        requires upper { length node.now.upper ≡ length network.now.candidates }
    {
        self.marks.clear();
        for candidate in 0..network.candidates().len() as u32 {
            self.marks.push(mark_at(network, node, candidate))?;
        }
        Ok(())
    }

    /// Reads a plan, which has an entry for each candidate of the network: each is inside or outside.
    pub fn read_plan(&mut self, network: &Network, plan: &Plan) -> Result<(), NoMemory>
        requires { length plan.now ≡ length network.now.candidates }
    {
        self.marks.clear();
        for candidate in 0..network.candidates().len() as u32 {
            self.marks.push(if plan.has(candidate) {
                Mark::Inside
            } else {
                Mark::Outside
            })?;
        }
        Ok(())
    }

    /// The plan of the candidates that are inside, with an entry for each candidate of the network.
    pub fn plan(&self, alloc: Global, network: &Network) -> Result<Plan, NoMemory>
        ensures { IfOk result (λ plan. length plan ≡ length network.now.candidates) }
    {
        let count = network.candidates().len() as u32;
        let mut plan = Plan::empty(alloc, count)?;
        for candidate in 0..count {
            if self.get(candidate) == Mark::Inside {
                plan.set(candidate, true);
            }
        }
        Ok(plan)
    }

    /// Makes them a copy of others.
    pub fn copy_from(&mut self, other: &Marks) -> Result<(), NoMemory> {
        self.marks.clear();
        self.marks.extend_from_slice(other.marks.as_slice())?;
        Ok(())
    }

    /// The marks, each by its candidate's number.
    pub fn all(&self) -> &[Mark] {
        self.marks.as_slice()
    }

    /// The mark of a candidate; where there is none of that number, it is outside.
    pub fn get(&self, candidate: u32) -> Mark {
        let found = self.marks.get(candidate as usize).copied();
        found.unwrap_or(Mark::Outside)
    }

    /// Gives a candidate another mark.
    pub fn set(&mut self, candidate: u32, mark: Mark) {
        if let Some(place) = self.marks.as_mut_slice().get_mut(candidate as usize) {
            *place = mark;
        }
    }

    /// How many candidates have other marks; all of them, and more, where there are fewer there or here.
    pub fn differing(&self, other: &Marks) -> u32 {
        if self.marks.len() != other.marks.len() {
            return u32::MAX;
        }
        let mut count = 0u32;
        for (here, there) in self.marks.iter().zip(other.marks.as_slice()) {
            if *here != *there {
                count = count.saturating_add(1);
            }
        }
        count
    }

    /// Whether a node with other marks is one below the node of these: it leaves each candidate as
    /// it is here, but for open ones.
    pub fn are_above(&self, other: &Marks) -> bool {
        if self.marks.len() != other.marks.len() {
            return false;
        }
        for (here, there) in self.marks.iter().zip(other.marks.as_slice()) {
            if *here != Mark::Open && *here != *there {
                return false;
            }
        }
        true
    }
}
