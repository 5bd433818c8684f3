//! Idle splits of a log: those that a verdict, a price or the dual bound of one cut makes needless,
//! beside the bound of a leaf that stands before them.
//!
//! Proved: no split is idle, by a recursion on the log's tree, exactly where none of its lines in
//! preorder is; what is idle beside a bound is idle beside a lower one; the test by the cuts of
//! displacements by 1 in one unknown finds a share exactly where one makes a split idle, and takes
//! no memory.
//!
//! Said by: `logs_without_idle_splits`, `idleness_falls`; `IdleTest::dear_share`, `dear_share`.
#![tactic(auto)]

mod dear;
mod fill;
mod filling;
mod idle_test;
mod laws;
mod offer;
mod quick;
mod unit_cuts;
mod unit_share;

pub use dear::dear_share;
pub use idle_test::IdleTest;
pub use laws::{idleness_falls, logs_without_idle_splits};
pub use unit_cuts::{UnitCuts, unit_cut, unit_move};
pub use unit_share::UnitShare;
