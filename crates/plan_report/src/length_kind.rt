ghost use Rattle.std.specs.Prelude.{◌≡◌};
ghost use Rattle.plan_report.specs.ReportText.{length_word};
ghost use Rattle.plan_report.specs.Shown.{limited_part};

use point_tables::{Part, PointRecord};

/// Which length of a new point is limited: the semi-major axis of its standard ellipse, or the
/// standard deviation of its height.
#[derive(Clone, Copy, Debug, PartialEq, Eq)]
pub enum LengthKind {
    Axis,
    Height,
}

impl LengthKind {
    /// The beginning of its line in a report.
    pub(crate) fn word(self) -> &'static [u8]
        ensures { result.now ≡ length_word self }
    {
        match self {
            LengthKind::Axis => b"axis,",
            LengthKind::Height => b"height,",
        }
    }

    /// The part of a point that it is on.
    pub(crate) fn part(self, point: &PointRecord) -> Part
        ensures { result ≡ limited_part self point.now }
    {
        match self {
            LengthKind::Axis => point.plane,
            LengthKind::Height => point.height,
        }
    }
}
