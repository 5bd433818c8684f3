//! Laws of records and draws. Each function has an empty body: what it ensures is a theorem.
ghost use Rattle.std.specs.Prelude.{◌≡◌, ℕ, ◌<◌, length};
ghost use Rattle.gen_net.specs.Draws.{drawn};
ghost use Rattle.gen_records.specs.Records.{candidate_records, point_records};

/// A seed gives nine points and 28 candidates.
pub fn generated_records_are_counted()
    ensures points { (seed : ℕ) → length (point_records seed) ≡ 9 }
    ensures candidates { (seed : ℕ) → length (candidate_records seed) ≡ 28 }
{}

/// A draw is one of the numbers below its bound, whatever the state of the stream.
pub fn draws_are_below_their_bounds()
    ensures { (seed place n : ℕ) → 0 < n → drawn seed place n < n }
{}
