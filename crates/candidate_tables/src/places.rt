ghost use Rattle.std.specs.Prelude.{◌≡◌, ◌<◌, length};
ghost use Rattle.std.specs.List.{list_any};
ghost use Rattle.table_rows.specs.Faults.{first_broken};
ghost use Rattle.candidate_tables.specs.CandidateTable.{extra_rules, lines_rules, needed_part_rules, place_rules};
ghost use Rattle.candidate_tables.specs.Places.{has_repeat, lacks_height, lacks_plane, named};
ghost use Rattle.candidate_tables.specs.Read.{AreWithin};

use crate::ends::Ends;
use crate::kind::Kind;
use crate::line::broken_line;
use point_tables::{FaultKind, Points};
use table_rows::TableRow;

// The first rule that is broken on the fields that a kind has not.
#[tactic(auto, unfolding(table_rows::specs::Faults::first_broken, crate::specs::CandidateTable::extra_rules))]
fn broken_extra(kind: Kind, row: &TableRow) -> Option<FaultKind>
    requires { length row.now ≡ 8 }
    ensures { result ≡ first_broken (extra_rules kind row.now) }
{
    let rules = kind.rules();
    if !rules.has_foresight && !row.field(4).is_empty() {
        return Some(FaultKind::Extra);
    }
    if !rules.has_height_deviation && !row.field(6).is_empty() {
        return Some(FaultKind::Extra);
    }
    None
}

// Whether a point has no plane part.
fn lacks_plane(points: &Points, place: u32) -> bool
    requires { place < length points.now }
    ensures { result ≡ lacks_plane points.now place }
{
    points.get(place).plane.is_absent()
}

// Whether a point has no height part.
fn lacks_height(points: &Points, place: u32) -> bool
    requires { place < length points.now }
    ensures { result ≡ lacks_height points.now place }
{
    points.get(place).height.is_absent()
}

impl Ends {
    // Whether a point is named twice.
    fn has_repeat(&self) -> bool
        ensures { result ≡ has_repeat (named self.now.from self.now.to self.now.to2) }
    {
        match self.to2 {
            None => self.from == self.to,
            Some(to2) => self.from == self.to || self.from == to2 || self.to == to2,
        }
    }

    // Whether a point that is named has no plane part.
    fn lacks_plane(&self, points: &Points) -> bool
        requires { AreWithin points.now self.now.from self.now.to self.now.to2 }
        ensures { result ≡ list_any (lacks_plane points.now) (named self.now.from self.now.to self.now.to2) }
    {
        let ends = lacks_plane(points, self.from) || lacks_plane(points, self.to);
        match self.to2 {
            None => ends,
            Some(to2) => ends || lacks_plane(points, to2),
        }
    }

    // Whether a point that is named has no height part.
    fn lacks_height(&self, points: &Points) -> bool
        requires { AreWithin points.now self.now.from self.now.to self.now.to2 }
        ensures { result ≡ list_any (lacks_height points.now) (named self.now.from self.now.to self.now.to2) }
    {
        let ends = lacks_height(points, self.from) || lacks_height(points, self.to);
        match self.to2 {
            None => ends,
            Some(to2) => ends || lacks_height(points, to2),
        }
    }

    // The first rule that is broken on the points that are named and on their parts.
    #[tactic(auto, unfolding(table_rows::specs::Faults::first_broken, crate::specs::CandidateTable::needed_part_rules))]
    fn broken_part(&self, points: &Points) -> Option<FaultKind>
        requires { AreWithin points.now self.now.from self.now.to self.now.to2 }
        ensures { result ≡ first_broken (needed_part_rules points.now self.now.kind (named self.now.from self.now.to self.now.to2)) }
    {
        if self.has_repeat() {
            return Some(FaultKind::SamePoint);
        }
        let rules = self.kind.rules();
        if rules.needs_plane && self.lacks_plane(points) {
            return Some(FaultKind::NoPlane);
        }
        if rules.needs_height && self.lacks_height(points) {
            return Some(FaultKind::NoHeight);
        }
        None
    }

    // The first rule that is broken on the lines from the station.
    fn broken_lines(&self, points: &Points) -> Option<FaultKind>
        requires { AreWithin points.now self.now.from self.now.to self.now.to2 }
        ensures { result ≡ first_broken (lines_rules points.now self.now.kind self.now.from self.now.to self.now.to2) }
    {
        if let Some(broken) = broken_line(self.kind, points, self.from, self.to) {
            return Some(broken);
        }
        match self.to2 {
            None => None,
            Some(to2) => broken_line(self.kind, points, self.from, to2),
        }
    }

    // The first rule that is broken on what a record names.
    pub(crate) fn broken_place(&self, row: &TableRow, points: &Points) -> Option<FaultKind>
        requires fields { length row.now ≡ 8 }
        requires within { AreWithin points.now self.now.from self.now.to self.now.to2 }
        ensures { result ≡ first_broken (place_rules points.now row.now self.now.kind self.now.from self.now.to self.now.to2) }
    {
        if let Some(broken) = broken_extra(self.kind, row) {
            return Some(broken);
        }
        if let Some(broken) = self.broken_part(points) {
            return Some(broken);
        }
        self.broken_lines(points)
    }
}
