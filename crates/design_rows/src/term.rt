ghost use Rattle.std.specs.Prelude.{◌≡◌, ◌<◌, ◌^◌, ◌-ℤ◌, neg_ℤ, unsigned_abs};
ghost use Rattle.design_rows.specs.Equations.{term};

use geo_model::{Component, Unknown};

// A term of a linearised observation equation: a coefficient times an unknown, or times a
// component that is none.
#[derive(Clone, Copy)]
pub(crate) struct Term {
    pub(crate) unknown: Unknown,
    pub(crate) coefficient: i64,
}

// A coefficient times a component of a point.
pub(crate) fn term_of(coefficient: i64, component: Component, point: u32) -> Term
    ensures { result ≡ term coefficient component point }
{
    Term {
        unknown: Unknown { point, component },
        coefficient,
    }
}

// The number with the other sign.
pub(crate) fn minus(z: i64) -> i64
    requires { unsigned_abs z < 2 ^ 62 }
    ensures { result ≡ neg_ℤ z }
{
    0 - z
}

// The first number less the second.
pub(crate) fn difference(y: i64, z: i64) -> i64
    requires first { unsigned_abs y < 2 ^ 62 }
    requires second { unsigned_abs z < 2 ^ 62 }
    ensures { result ≡ y -ℤ z }
{
    y - z
}
