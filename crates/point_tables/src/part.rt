ghost use Rattle.std.specs.Prelude.{◌≡◌};
ghost use Rattle.point_tables.specs.Accepted.{is_absent};

/// A part of a point, its plane position or its height.
#[derive(Clone, Copy, Debug, PartialEq, Eq)]
pub enum Part {
    /// The point has no such part.
    Absent,
    /// The part is known.
    Fixed,
    /// The part is to be measured, within this limit in tenths of a millimetre.
    New(u32),
}

impl Part {
    /// Whether the point has no such part.
    pub fn is_absent(self) -> bool
        ensures { result ≡ is_absent self }
    {
        match self {
            Part::Absent => true,
            Part::Fixed | Part::New(_) => false,
        }
    }
}
