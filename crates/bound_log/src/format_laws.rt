//! What both formats of a log say. Each function is its contract: it does nothing.
ghost use Rattle.std.specs.Prelude.{◌≡◌, ◌↔◌, ◌<◌, ◌≤◌, ◌^◌, ℕ, true, List, [], ◌∷◌, ◌++◌, All, Some, None, length, map, slice_get};
ghost use Rattle.whole_algebra.specs.Matrices.{at};
ghost use Rattle.geo_model.specs.Network.{NetworkOf};
ghost use Rattle.geo_model.specs.Row.{IsNarrow};
ghost use Rattle.geo_model.specs.declared.plan.Node.{Node};
ghost use Rattle.cut_pool.specs.Cut.{CutOf};
ghost use Rattle.cut_pool.specs.declared.share.Share.{Share as ShareOf};
ghost use Rattle.lent_parts.specs.Pieces.{lines_of};
ghost use Rattle.bound_log.specs.CutText.{CutTextOf, text_of_cut};
ghost use Rattle.bound_log.specs.Formats.{IsShortLine, LineIn, text_line_in, texts_in};
ghost use Rattle.bound_log.specs.LogText.{line_end, log_text};
ghost use Rattle.bound_log.specs.LogTree.{IsBrokenBy, IsDualLineAt};
ghost use Rattle.bound_log.specs.Meanings.{cut_named, cuts_named, found_share, found_use, is_cut_in_range, joined_nodes, lacking, meaning_in, named_meaning, nodes_in, meaning_rules, share_used, standing};
ghost use Rattle.bound_log.specs.NamedText.{IsNamedLine, named_body, named_numbers, named_text};
ghost use Rattle.bound_log.specs.Numbers.{AreShort};
ghost use Rattle.bound_log.specs.Rules.{first_unkept};
ghost use Rattle.bound_log.specs.SpellsIn.{SpellsIn};
ghost use Rattle.bound_log.specs.Tree.{Tree, tree_lines};
ghost use Rattle.bound_log.specs.UseText.{uses_of};
ghost use Rattle.bound_log.specs.declared.log_format.LogFormat.{LogFormat as FormatOf};
ghost use Rattle.bound_log.specs.declared.log_format.LogFormat.TheVariants as log_format;
ghost use Rattle.bound_log.specs.declared.log_leaf.LogLeaf.TheVariants as log_leaf;
ghost use Rattle.bound_log.specs.declared.log_line.LogLine.{LogLine as LineOf};
ghost use Rattle.bound_log.specs.declared.log_line.LogLine.TheVariants as log_line;
ghost use Rattle.bound_log.specs.declared.named_line.NamedLine.{NamedLine as NamedOf};
ghost use Rattle.bound_log.specs.declared.named_line.NamedLine.TheVariants as named_line;

/// A text is that of at most one line of format 2.
pub fn a_text_is_one_named_line()
    ensures { (text : List ℕ) (a b : NamedOf) → IsNamedLine text a → IsNamedLine text b → a ≡ b }
{}

/// The text of a line of format 2 with numbers of at most 19 digits is in the grammar, without its
/// LF, as the same line; and such lines one after another are cut into these lines.
pub fn named_lines_are_read()
    ensures ended { (line : NamedOf) → named_text line ≡ named_body line ++ line_end }
    ensures read { (line : NamedOf) → AreShort (named_numbers line) → IsNamedLine (named_body line) line }
    ensures cut { (lines : List NamedOf) → All (IsShortLine log_format.Second) lines → lines_of (texts_in log_format.Second lines) ≡ map (text_line_in log_format.Second) lines }
{}

/// What `put_named`, `put_use` and `put_dual2` append is read back as the same line.
pub fn put_names_are_read()
    ensures named { (cut : CutOf) → cut.limit < 2 ^ 32 → length cut.x < 2 ^ 32 → IsNarrow (at cut.x)
        → IsNamedLine (named_body (named_line.Named (text_of_cut cut))) (named_line.Named (text_of_cut cut)) }
    ensures used { (number : ℕ) → number < 2 ^ 32 → IsNamedLine (named_body (named_line.UseCut number)) (named_line.UseCut number) }
    ensures dual { (d : ℕ) (shares : List ShareOf) → d ≤ 2 ^ 44 → length shares ≤ 64 → All (λ share. (share.y ≤ 2 ^ 44) × (share.cut < 2 ^ 32)) shares
        → IsNamedLine (named_body (named_line.UseDual d (uses_of shares))) (named_line.UseDual d (uses_of shares)) }
{}

/// The number of a cut stands for the cut that was named by it, and for none where none was. All
/// else of a line means what it does in format 1.
pub fn uses_mean_their_cuts()
    ensures cut { (cuts : List CutTextOf) (number : ℕ) (cut : CutTextOf) → slice_get cuts number ≡ Some cut
        → named_meaning cuts (named_line.UseCut number) ≡ standing (log_line.Leaf (log_leaf.Cut cut)) }
    ensures dual { (cuts : List CutTextOf) (divisor : ℕ) (uses : List (ℕ × ℕ)) (shares : List (ℕ × CutTextOf))
        → map (found_use cuts) uses ≡ map found_share shares
        → named_meaning cuts (named_line.UseDual divisor uses) ≡ standing (log_line.Leaf (log_leaf.Dual divisor shares)) }
    ensures no_cut { (cuts : List CutTextOf) (number : ℕ) → length cuts ≤ number → named_meaning cuts (named_line.UseCut number) ≡ lacking }
    ensures no_dual { (cuts : List CutTextOf) (divisor : ℕ) (uses : List (ℕ × ℕ)) → (All (λ one. one.1 < length cuts) uses → ⊥)
        → named_meaning cuts (named_line.UseDual divisor uses) ≡ lacking }
    ensures split { (cuts : List CutTextOf) (candidate : ℕ) → named_meaning cuts (named_line.Split candidate) ≡ standing (log_line.Split candidate) }
    ensures cost { (cuts : List CutTextOf) → named_meaning cuts named_line.Cost ≡ standing (log_line.Leaf log_leaf.Cost) }
    ensures pivot { (cuts : List CutTextOf) (limit : ℕ) → named_meaning cuts (named_line.Pivot limit) ≡ standing (log_line.Leaf (log_leaf.Pivot limit)) }
{}

/// What lines stand for, one by one: a line of the tree for itself, a name for none, and a use of a
/// cut that isn't named leaves nothing that they could stand for. More lines stand for the lines of
/// a tree that follow those before them, and see the cuts that these name. In format 1 lines stand
/// for themselves and name no cut.
pub fn lines_stand_one_after_another()
    ensures none { (format : FormatOf) (cuts : List CutTextOf) → nodes_in format cuts [] ≡ Some [] }
    ensures one { (format : FormatOf) (cuts : List CutTextOf) (line : LineIn format) (node : LineOf) → meaning_in format cuts line ≡ standing node → nodes_in format cuts (line ∷ []) ≡ Some (node ∷ []) }
    ensures lacks { (format : FormatOf) (cuts : List CutTextOf) (line : LineIn format) → meaning_in format cuts line ≡ lacking → nodes_in format cuts (line ∷ []) ≡ None }
    ensures more { (format : FormatOf) (cuts : List CutTextOf) (xs ys : List (LineIn format))
        → nodes_in format cuts (xs ++ ys) ≡ joined_nodes (nodes_in format cuts xs) (nodes_in format (cuts ++ cuts_named format xs) ys) }
    ensures names { (cuts : List CutTextOf) (cut : CutTextOf) (lines : List NamedOf)
        → nodes_in log_format.Second cuts (named_line.Named cut ∷ lines) ≡ nodes_in log_format.Second (cuts ++ cut ∷ []) lines }
    ensures first { (cuts : List CutTextOf) (lines : List LineOf) → (nodes_in log_format.First cuts lines ≡ Some lines) × (cuts_named log_format.First lines ≡ []) }
{}

/// What the lines of format 2 that name or use cuts want: a name that fewer than 65536 cuts are
/// named and that its numbers are in their ranges; a use that its cuts are named, and what format 1
/// wants of a line that spells these cuts.
pub fn named_lines_are_allowed_by_their_kinds()
    ensures name { (network : NetworkOf) (node : Node) (cuts : List CutTextOf) (cut : CutTextOf)
        → (first_unkept (meaning_rules network cuts node (named_meaning cuts (named_line.Named cut))) ≡ None) ↔ ((length cuts < 65536) × (is_cut_in_range network cut ≡ true)) }
    ensures cut { (network : NetworkOf) (node : Node) (cuts : List CutTextOf) (number : ℕ)
        → (first_unkept (meaning_rules network cuts node (named_meaning cuts (named_line.UseCut number))) ≡ None) ↔ ((number < length cuts) × IsBrokenBy network node (cut_named cuts number)) }
    ensures dual { (network : NetworkOf) (node : Node) (cuts : List CutTextOf) (divisor : ℕ) (uses : List (ℕ × ℕ))
        → (first_unkept (meaning_rules network cuts node (named_meaning cuts (named_line.UseDual divisor uses))) ≡ None) ↔ (All (λ one. one.1 < length cuts) uses × IsDualLineAt network node divisor (map (share_used cuts) uses)) }
{}

/// A text is of at most one format, names at most one list of cuts, and spells at most one tree.
pub fn a_text_spells_one_tree()
    ensures { (a b : FormatOf) (text : List ℕ) (cuts others : List CutTextOf) (tree other : Tree) → SpellsIn a text cuts tree → SpellsIn b text others other
        → (a ≡ b) × (cuts ≡ others) × (tree ≡ other) }
{}

/// In format 1 one text spells a tree whose numbers have at most 19 digits: the first line of a log
/// and the lines of the tree. It names no cut.
pub fn a_tree_has_one_first_text()
    ensures { (text : List ℕ) (cuts : List CutTextOf) (tree : Tree) → All (IsShortLine log_format.First) (tree_lines tree)
        → SpellsIn log_format.First text cuts tree ↔ ((text ≡ log_text tree) × (cuts ≡ [])) }
{}
