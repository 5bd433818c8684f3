//! The command `bench`.
ghost use Rattle.std.specs.Prelude.{◌≡◌, ◌≤◌};
ghost use Rattle.geoplan.specs.Reporting.{bench_status, Benches};

use crate::outcome::Outcome;
use crate::status::Status;
use gen_bench::bench;
use geo_base::NoMemory;
use std::alloc::Global;

/// The status of a run.
fn bench_status(is_decided: bool) -> Status
    ensures { result ≡ bench_status is_decided }
{
    if is_decided {
        Status::Found
    } else {
        Status::Undecided
    }
}

/// The search of the network of a seed of at most 999999, and its summary.
pub fn answer_bench(alloc: Global, seed: u32) -> Outcome
    requires { seed ≤ 999999 }
    ensures { Benches seed result.status result.text.items }
{
    match bench(alloc, seed) {
        Ok(shown) => Outcome::of(bench_status(shown.is_decided), shown.text),
        Err(NoMemory) => Outcome::silent(alloc, Status::NoMemory),
    }
}
