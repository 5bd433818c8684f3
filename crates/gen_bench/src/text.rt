//! The summary of a run over a generated network.
ghost use Rattle.std.specs.Prelude.{◌≡◌, ◌++◌, IfOk, OnOk};
ghost use Rattle.std.specs.Fmt.{decimal};
ghost use Rattle.gen_bench.specs.Bench.{answer_word, bench_text};

use geo_base::NoMemory;
use itoa::Buffer;
use log_check::Replayed;
use plan_report::{put_bound, put_counts, put_price};
use std::alloc::Global;

/// Appends a seed.
fn put_seed(text: &mut Vec<u8>, seed: u32) -> Result<(), NoMemory>
    ensures { OnOk result (text.new.items ≡ text.old.items ++ decimal seed) }
{
    let mut buffer = Buffer::new();
    text.extend_from_slice(buffer.format(seed).as_bytes())?;
    Ok(())
}

/// Appends whether the plan is decided.
fn put_answer(text: &mut Vec<u8>, is_decided: bool) -> Result<(), NoMemory>
    ensures { OnOk result (text.new.items ≡ text.old.items ++ answer_word is_decided) }
{
    if is_decided {
        text.extend_from_slice(b"plan\n")?;
    } else {
        text.extend_from_slice(b"undecided\n")?;
    }
    Ok(())
}

/// The summary of a seed: the size of its network, whether the plan is decided, its price, and what
/// the replay of the log answers.
pub fn summary(
    alloc: Global,
    seed: u32,
    is_decided: bool,
    price: u64,
    replayed: &Replayed,
) -> Result<Vec<u8>, NoMemory>
    ensures { IfOk result (λ text. text.items ≡ bench_text seed is_decided price replayed.now) }
{
    let mut text = Vec::from_slice(alloc, b"seed ")?;
    put_seed(&mut text, seed)?;
    text.extend_from_slice(b"\ncandidates 28\nunknowns 17\nrows 48\nlimits 58\n")?;
    put_answer(&mut text, is_decided)?;
    put_price(&mut text, b"cost ", price)?;
    put_counts(&mut text, &replayed.counts)?;
    put_bound(&mut text, replayed.bound)?;
    Ok(text)
}
