ghost use Rattle.geo_base.specs.Root.{IsRoot};
ghost use Rattle.std.specs.Prelude.{◌^◌, ◌<◌};

/// The square root of `n`, rounded down.
pub fn root_floor(n: u128) -> u64
    requires { n < 2 ^ 120 }
    ensures root { IsRoot n result }
    ensures size { result < 2 ^ 60 }
{
    n.isqrt() as u64
}
