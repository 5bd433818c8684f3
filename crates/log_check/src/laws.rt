//! What the first fault of a text is. Each function is its contract: it does nothing.
ghost use Rattle.std.specs.Prelude.{◌≡◌, ◌≤◌, ◌⊎◌, ◌++◌, ℕ, List, count_by};
ghost use Rattle.lent_parts.specs.Pieces.{is_line_feed};
ghost use Rattle.geo_model.specs.Network.{NetworkOf};
ghost use Rattle.bound_log.specs.LogTree.{IsLog};
ghost use Rattle.bound_log.specs.Tree.{Tree};
ghost use Rattle.log_check.specs.declared.fault.LogFault.{LogFault as FaultOf};
ghost use Rattle.log_check.specs.FirstFault.{IsFirstFault};

/// Each text is a log or has a first fault, and never both; and it has at most one first fault, its
/// line and its kind.
pub fn each_text_has_one_verdict()
    ensures some { (network : NetworkOf) (text : List ℕ) → ((tree : Tree) × IsLog network text tree) ⊎ ((fault : FaultOf) × IsFirstFault network text fault) }
    ensures never_both { (network : NetworkOf) (text : List ℕ) (tree : Tree) (fault : FaultOf) → IsLog network text tree → IsFirstFault network text fault → ⊥ }
    ensures one_fault { (network : NetworkOf) (text : List ℕ) (a b : FaultOf) → IsFirstFault network text a → IsFirstFault network text b → a ≡ b }
{}

/// A fault of a line that has ended stays the fault of each longer text. A text has as many lines
/// that have ended as it has LFs.
pub fn a_fault_stays()
    ensures { (network : NetworkOf) (text more : List ℕ) (fault : FaultOf) → IsFirstFault network text fault → fault.line ≤ count_by is_line_feed text → IsFirstFault network (text ++ more) fault }
{}
