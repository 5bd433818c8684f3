ghost use Rattle.std.specs.Prelude.{◌<◌, length};

use cut_pool::Cut;
use geo_base::NoMemory;
use geo_model::Network;
use std::alloc::Global;

/// A candidate as a cut sees it: its number, its coefficient, and its price for each part of that,
/// in parts of 2^-48.
#[derive(Clone, Copy, Debug)]
pub(crate) struct RatedCandidate {
    pub(crate) candidate: u32,
    pub(crate) weight: u32,
    pub(crate) ratio: u128,
}

// A candidate as a cut sees it.
fn offer_of(network: &Network, cut: &Cut, candidate: u32) -> RatedCandidate
    requires { candidate < length network.now.candidates }
{
    let candidates = network.candidates();
    let priced = &candidates[candidate as usize];
    let coefficients = cut.coefficients.as_slice();
    let weight = coefficients.get(candidate as usize).copied().unwrap_or(0);
    RatedCandidate {
        candidate,
        weight,
        ratio: (u128::from(priced.price) << 48) / u128::from(weight.max(1)),
    }
}

/// The candidates that a cut weighs, those first that cost least for what they weigh. It is only
/// proposed: whatever comes of it is judged.
pub(crate) fn offers_of(
    alloc: Global,
    network: &Network,
    cut: &Cut,
) -> Result<Vec<RatedCandidate>, NoMemory> {
    let mut offers = Vec::new(alloc);
    for candidate in 0..network.candidates().len() as u32 {
        let offer = offer_of(network, cut, candidate);
        if offer.weight > 0 {
            offers.push(offer)?;
        }
    }
    offers
        .as_mut_slice()
        .sort_unstable_by_key(|offer| offer.ratio);
    Ok(offers)
}
