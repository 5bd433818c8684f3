// What a coefficient of 1 is multiplied by before it is rounded.
pub(crate) const SCALE: u128 = 10_000;

// One radian in cc, rounded.
pub(crate) const RADIAN: i128 = 636_620;
