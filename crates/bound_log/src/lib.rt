//! The lines of a log, written and read in two formats, the tree that they spell, its bound, and the
//! law that this is a lower bound for any text whatever.
//!
//! Proved: a line of either format is read exactly where it is in the grammar, as the one line that
//! it spells; what a put call appends reads back; cuts and shares of a pool keep their displacements
//! and their covering inequalities in the text; in format 2 the number of a cut stands for the cut
//! that was named by it; a text is of at most one format, names one list of cuts and spells one tree,
//! and as a log of a network has at most one bound; the bound of any text is at most the price of
//! every plan that meets the limits, whoever wrote it and whatever the prices.
//!
//! Said by: `read_line`, `read_line2`, `a_text_is_one_line`, `a_text_is_one_named_line`,
//! `numbers_are_numerals`, `written_lines_are_read`, `named_lines_are_read`;
//! `cuts_keep_their_displacements`, `duals_keep_their_shares`, `uses_mean_their_cuts`;
//! `a_text_spells_one_tree`, `a_tree_has_one_first_text`, `a_text_has_one_bound`;
//! `checker_is_sound`.
//!
//! Caller: `take_at_node` of `log_check/src/taking.rt`.
#![tactic(auto)]

mod bound;
mod count;
mod cut_line;
mod cut_text;
mod cut_words;
mod dual_line;
mod dual_text;
mod format_laws;
mod grammar_laws;
mod laws;
mod line;
mod line_kind;
mod log_format;
mod log_kind;
mod log_leaf;
mod log_line;
mod named_line;
mod named_put;
mod next_cut;
mod next_dual;
mod next_uses;
mod number;
mod read;
mod read_named;
mod tree_laws;
mod uses;

pub use bound::Bound;
pub use count::{count_line, lines_are_counted_on};
pub use cut_line::put_cut;
pub use cut_text::{CutText, Pairs};
pub use dual_line::put_dual;
pub use dual_text::{ShareTexts, Shares};
pub use format_laws::{
    a_text_is_one_named_line, a_text_spells_one_tree, a_tree_has_one_first_text,
    lines_stand_one_after_another, named_lines_are_allowed_by_their_kinds, named_lines_are_read,
    put_names_are_read, uses_mean_their_cuts,
};
pub use grammar_laws::{a_text_is_one_line, numbers_are_numerals, written_lines_are_read};
pub use laws::checker_is_sound;
pub use line::{put_cost, put_head, put_line, put_pivot, put_split};
pub use line_kind::LineKind;
pub use log_format::LogFormat;
pub use log_kind::LogKind;
pub use log_leaf::LogLeaf;
pub use log_line::LogLine;
pub use named_line::NamedLine;
pub use named_put::{head_format, put_dual2, put_head2, put_named, put_named_text, put_use};
pub use read::read_line;
pub use read_named::read_line2;
pub use tree_laws::{
    a_text_has_one_bound, cuts_keep_their_displacements, duals_keep_their_shares,
    lines_are_allowed_by_their_kinds, rules_say_what_is_allowed, trees_are_allowed_line_by_line,
};
pub use uses::{UsePairs, Uses};
