//! A triangle of numbers whose rows are lent for writing, and walks that lend the tokens of a line
//! and the lines of a text: nothing is copied.
//!
//! Proved: a triangle of numbers, whose rows are lent for writing; the tokens of a line are its
//! slices at their starts, and joined by spaces they are the line; the lines of a text with their
//! LFs are the text; nothing is copied.
//!
//! Said by: `Tri::row_mut`; `tokens`, `lines`, `tokens_make_the_line`, `lines_make_the_text`.
//!
//! Caller: `step_row` of `pivot_chain/src/chain.rt`.
#![tactic(auto)]

mod laws;
mod line_walk;
mod pieces;
mod rows;
mod token_walk;
mod tri;
mod tri_row;

pub use laws::{lines_make_the_text, tokens_make_the_line};
pub use line_walk::{Line, LineWalk, lines};
pub use rows::Rows;
pub use token_walk::{Token, TokenWalk, tokens};
pub use tri::Tri;
use tri_row::TriRow;
