use crate::level::Level;
use geo_base::NoMemory;
use scaled_network::Marks;
use std::alloc::Global;

// No path has more nodes than a network has candidates, and the root.
const MOST_LEVELS: usize = 257;

/// How the present node was reached: it is the one before, it is below one whose level was copied, or
/// its level has to be started anew.
#[derive(Clone, Copy, PartialEq, Eq)]
pub(crate) enum Entered {
    Same,
    Below,
    Anew,
}

/// The nodes on the path to the present one, the highest first. Levels keep their memory.
#[derive(Drop)]
pub(crate) struct Levels {
    levels: Vec<Level>,
    depth: usize,
}

impl Levels {
    /// No path. It takes no memory.
    pub fn new(alloc: Global) -> Levels {
        Levels {
            levels: Vec::new(alloc),
            depth: 0,
        }
    }

    /// The present node.
    pub fn present(&self) -> Option<&Level> {
        self.levels.get(self.depth.wrapping_sub(1))
    }

    /// The present node, for writing.
    pub fn present_mut(&mut self) -> Option<&mut Level> {
        self.levels
            .as_mut_slice()
            .get_mut(self.depth.wrapping_sub(1))
    }

    /// Goes to a node: up to the lowest one on the path that is above it, and down by a level that is a
    /// copy of that one's.
    pub fn enter(&mut self, alloc: Global, marks: &Marks) -> Result<Entered, NoMemory> {
        self.climb_above(marks);
        if let Some(level) = self.present()
            && marks.are_above(&level.marks)
        {
            return Ok(Entered::Same);
        }
        if self.depth >= MOST_LEVELS {
            self.depth = 0;
        }
        if self.depth >= self.levels.len() {
            self.levels.push(Level::new(alloc))?;
        }
        let entered = self.copy_down()?;
        self.depth = self.depth.saturating_add(1);
        Ok(entered)
    }

    // Goes up to the lowest node on the path that is above another.
    fn climb_above(&mut self, marks: &Marks) {
        for _ in 0..self.levels.len() {
            if let Some(level) = self.present()
                && level.marks.are_above(marks)
            {
                return;
            }
            self.depth = self.depth.saturating_sub(1);
        }
    }

    // Copies the present level to the one below it.
    fn copy_down(&mut self) -> Result<Entered, NoMemory> {
        let depth = self.depth.min(self.levels.len());
        let (above, below) = self.levels.as_mut_slice().split_at_mut(depth);
        let Some(level) = below.first_mut() else {
            return Ok(Entered::Anew);
        };
        let Some(parent) = above.last() else {
            return Ok(Entered::Anew);
        };
        level.copy_from(parent)?;
        Ok(Entered::Below)
    }
}
