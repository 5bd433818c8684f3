//! What is named and what numbers stand for. Each function is its contract: it does nothing.
ghost use Rattle.std.specs.Prelude.{◌≡◌, ◌↔◌, true, List, [], Contains, Some, flat_map};
ghost use Rattle.std.specs.List.{IsDistinct};
ghost use Rattle.bound_log.specs.CutText.{CutTextOf};
ghost use Rattle.bound_log.specs.Meanings.{cuts_named, nodes_in};
ghost use Rattle.bound_log.specs.declared.log_format.LogFormat.TheVariants as log_format;
ghost use Rattle.bound_log.specs.declared.log_line.LogLine.{LogLine as LineOf};
ghost use Rattle.log_migrate.specs.FirstUse.{cuts_needed, cuts_used, is_same_cut, lines_with_names};

/// A migrated log names the cuts that its lines use and no others, and none of them twice.
pub fn cuts_are_named_once()
    ensures named { (lines : List LineOf) → cuts_named log_format.Second (lines_with_names [] lines) ≡ cuts_needed lines }
    ensures used { (lines : List LineOf) (cut : CutTextOf) → Contains (cuts_needed lines) cut ↔ Contains (flat_map cuts_used lines) cut }
    ensures once { (lines : List LineOf) → IsDistinct is_same_cut (cuts_needed lines) }
    ensures same { (a b : CutTextOf) → (is_same_cut a b ≡ true) ↔ (a ≡ b) }
{}

/// The lines of a migrated log stand for those of the tree.
pub fn numbers_stand_for_their_cuts()
    ensures { (lines : List LineOf) → nodes_in log_format.Second [] (lines_with_names [] lines) ≡ Some lines }
{}
