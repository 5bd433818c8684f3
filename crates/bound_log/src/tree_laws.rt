//! What a text says of its tree. Each function is its contract: it does nothing.
ghost use Rattle.std.specs.Prelude.{◌≡◌, ◌↔◌, ◌<◌, ◌≤◌, ◌^◌, ℕ, ℤ, true, List, All, Some, length, map, slice_get};
ghost use Rattle.whole_algebra.specs.Matrices.{at};
ghost use Rattle.cut_pool.specs.Cut.{CutOf, cover, cover_of};
ghost use Rattle.cut_pool.specs.declared.share.Share.{Share as ShareOf};
ghost use Rattle.geo_model.specs.Limit.{LimitOf, IsInForce};
ghost use Rattle.geo_model.specs.Meeting.{Breaks};
ghost use Rattle.geo_model.specs.Row.{IsNarrow};
ghost use Rattle.geo_model.specs.Network.{NetworkOf};
ghost use Rattle.geo_model.specs.declared.plan.Node.{Node};
ghost use Rattle.bound_log.specs.declared.bound.Bound.{Bound as BoundOf};
ghost use Rattle.bound_log.specs.CutText.{CutTextOf, displaced_by, moves_from, text_of_cut};
ghost use Rattle.bound_log.specs.DualText.{text_of_share, texts_of_shares, weighed_text};
ghost use Rattle.bound_log.specs.Grammar.{IsLine};
ghost use Rattle.bound_log.specs.LogText.{line_body};
ghost use Rattle.bound_log.specs.LogTree.{HasBound, IsAllowed, IsLog, IsBrokenBy, IsDualLineAt, IsOpenAt, IsNodeRefutedBy, IsWeight};
ghost use Rattle.bound_log.specs.Placed.{placed};
ghost use Rattle.bound_log.specs.PoolShares.{IsSpelled, IsPoolShareAt};
ghost use Rattle.bound_log.specs.Rules.{IsAllowedLine, line_rules};
ghost use Rattle.std.specs.List.{list_all};
ghost use Rattle.bound_log.specs.Tree.{Tree, tree_lines};
ghost use Rattle.bound_log.specs.declared.log_leaf.LogLeaf.TheVariants as log_leaf;
ghost use Rattle.bound_log.specs.declared.log_line.LogLine.{LogLine as LineOf};
ghost use Rattle.bound_log.specs.declared.log_line.LogLine.TheVariants as log_line;

/// As a log of a network a text has at most one bound; and logs of one tree have one bound, in
/// whichever formats their texts are.
pub fn a_text_has_one_bound()
    ensures text { (network : NetworkOf) (text : List ℕ) (a b : BoundOf) → HasBound network text a → HasBound network text b → a ≡ b }
    ensures formats { (network : NetworkOf) (tree : Tree) (one other : List ℕ) (a b : BoundOf) → IsLog network one tree → IsLog network other tree
        → HasBound network one a → HasBound network other b → a ≡ b }
{}

/// The lines of a tree, in preorder, each with its own node: a tree is allowed at a node exactly
/// where each of its lines is allowed at the line's node.
pub fn trees_are_allowed_line_by_line()
    ensures allowed { (network : NetworkOf) (node : Node) (tree : Tree) → IsAllowed network node tree ↔ All (λ at. IsAllowedLine network at.0 at.1) (placed node tree) }
    ensures lines { (node : Node) (tree : Tree) → map (λ at. at.1) (placed node tree) ≡ tree_lines tree }
{}

/// What each kind of line wants of its node: a split an open candidate, a leaf of the price
/// nothing, a leaf that names a limit that this limit refutes the node, a leaf that names a
/// displacement that it breaks its limit for all plans of the node, and a leaf of a dual bound that
/// the limit of each share is in force for all plans of the node.
pub fn lines_are_allowed_by_their_kinds()
    ensures split { (network : NetworkOf) (node : Node) (candidate : ℕ) → IsAllowedLine network node (log_line.Split candidate) ↔ IsOpenAt network node candidate }
    ensures cost { (network : NetworkOf) (node : Node) → IsAllowedLine network node (log_line.Leaf log_leaf.Cost) }
    ensures pivot { (network : NetworkOf) (node : Node) (number : ℕ) → IsAllowedLine network node (log_line.Leaf (log_leaf.Pivot number)) ↔ IsNodeRefutedBy network node number }
    ensures cut { (network : NetworkOf) (node : Node) (text : CutTextOf) → IsAllowedLine network node (log_line.Leaf (log_leaf.Cut text)) ↔ IsBrokenBy network node text }
    ensures dual { (network : NetworkOf) (node : Node) (divisor : ℕ) (shares : List (ℕ × CutTextOf)) → IsAllowedLine network node (log_line.Leaf (log_leaf.Dual divisor shares)) ↔ IsDualLineAt network node divisor shares }
{}

/// A line keeps all rules at a node exactly where it is allowed there.
pub fn rules_say_what_is_allowed()
    ensures { (network : NetworkOf) (node : Node) (line : LineOf) → (list_all (λ rule. rule.kept) (line_rules network node line) ≡ true) ↔ IsAllowedLine network node line }
{}

/// A cut as a line spells it has the displacement of the cut; so its line is allowed wherever that
/// breaks the limit under the upper plan and the limit is in force for the inner one. What
/// `put_cut` appends is read back as the cut's line.
pub fn cuts_keep_their_displacements()
    ensures displacement { (x : List ℤ) (i : ℕ) → displaced_by (moves_from 0 x) i ≡ at x i }
    ensures read { (cut : CutOf) → cut.limit < 2 ^ 32 → length cut.x < 2 ^ 32 → IsNarrow (at cut.x)
        → IsLine (line_body (log_line.Leaf (log_leaf.Cut (text_of_cut cut)))) (log_line.Leaf (log_leaf.Cut (text_of_cut cut))) }
    ensures allowed { (network : NetworkOf) (node : Node) (cut : CutOf) (limit : LimitOf) → length cut.x ≡ length network.unknowns → IsNarrow (at cut.x)
        → slice_get network.limits cut.limit ≡ Some limit → IsInForce limit node.inside → Breaks network node.upper limit (at cut.x)
        → IsAllowedLine network node (log_line.Leaf (log_leaf.Cut (text_of_cut cut))) }
{}

/// A share of a cut of a pool, as a line spells it, has the covering inequality of the cut, where
/// the cut is that of its limit and displacement. So the bound of a line is the dual bound of the
/// shares themselves. The line is allowed wherever the shares may be named, and what `put_dual`
/// appends is read back as the line.
pub fn duals_keep_their_shares()
    ensures covers { (network : NetworkOf) (pool : List CutOf) (share : ShareOf) (cut : CutOf) (limit : LimitOf) → slice_get pool share.cut ≡ Some cut
        → slice_get network.limits cut.limit ≡ Some limit → cover cut ≡ cover_of network limit (at cut.x)
        → weighed_text network (text_of_share pool share) ≡ record { multiplier = share.y; cover = cover cut } }
    ensures read { (d : ℕ) (shares : List ShareOf) (pool : List CutOf) → d ≤ 2 ^ 44 → length shares ≤ 64 → All (IsSpelled pool) shares
        → IsLine (line_body (log_line.Leaf (log_leaf.Dual d (texts_of_shares pool shares)))) (log_line.Leaf (log_leaf.Dual d (texts_of_shares pool shares))) }
    ensures allowed { (network : NetworkOf) (node : Node) (d : ℕ) (shares : List ShareOf) (pool : List CutOf) → IsWeight d → length shares ≤ 64
        → All (IsPoolShareAt network node pool) shares → IsAllowedLine network node (log_line.Leaf (log_leaf.Dual d (texts_of_shares pool shares))) }
{}
