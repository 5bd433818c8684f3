//! Small tables whose numbers are known by hand.

use test_networks::CaseTables;

/// A line of two heights between two fixed ones, with levels of 1.00 mm for 5, 3 and 5 and limits of
/// 1.2 and 1.1 mm. Without a level at its own side a height has the variance 2 or 3, so both outer
/// levels are needed; the middle one can go, since each height then has 1, of 1.44 and 1.21.
pub const LINE: CaseTables = CaseTables {
    points: "A,,,0.000,,fixed\nH1,,,0.000,,1.2\nH2,,,0.000,,1.1\nB,,,0.000,,fixed\n",
    candidates: "l1,level,A,H1,,1.00,,5\nl2,level,H1,H2,,1.00,,3\nl3,level,H2,B,,1.00,,5\n",
    redundancy: 0,
    unknowns: 2,
    choices: 3,
    limits: 2,
};

/// Two levels of a height, of which each is to have a redundancy of 0.4: it has a half where the other
/// level is chosen too, and else none.
pub const HALVES: CaseTables = CaseTables {
    points: "A,,,100.000,,fixed\nH,,,101.000,,1.0\n",
    candidates: "l1,level,A,H,,1.00,,5\nl2,level,A,H,,1.00,,7\n",
    redundancy: 400,
    unknowns: 1,
    choices: 2,
    limits: 3,
};
