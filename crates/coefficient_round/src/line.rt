ghost use Rattle.coefficient_round.specs.Coefficient.{square_length};
ghost use Rattle.std.specs.Prelude.{◌≡◌};

/// The square of the length of a line with these parts, which are in millimetres: in square
/// millimetres.
pub fn length_squared(dx: i64, dy: i64) -> u128
    ensures { result ≡ square_length dx dy }
{
    let x = u128::from(dx.unsigned_abs());
    let y = u128::from(dy.unsigned_abs());
    x * x + y * y
}
