ghost use Rattle.std.specs.Prelude.{◌<◌, length, All, IfOk};

use geo_base::NoMemory;
use geo_model::Network;
use std::alloc::Global;
use std::cmp::Reverse;

/// A candidate by its number, and its price.
#[derive(Clone, Copy, Debug, PartialEq, Eq)]
pub struct Offer {
    pub candidate: u32,
    pub price: u64,
}

/// The candidates of a network, each by its number.
fn offers_of(alloc: Global, network: &Network) -> Result<Vec<Offer>, NoMemory>
    ensures { IfOk result (λ offers. All (λ offer. offer.candidate < length network.now.candidates) offers.items) }
{
    let mut offers = Vec::new(alloc);
    for (i, candidate) in network.candidates().iter().enumerate() {
        offers.push(Offer {
            candidate: i as u32,
            price: candidate.price,
        })?;
    }
    Ok(offers)
}

/// The candidates of a network, the dearest first; of equal ones the last first. Refused for want of
/// memory alone.
pub fn dearest_first(alloc: Global, network: &Network) -> Result<Vec<Offer>, NoMemory>
    ensures { IfOk result (λ offers. All (λ offer. offer.candidate < length network.now.candidates) offers.items) }
{
    let mut offers = offers_of(alloc, network)?;
    offers
        .as_mut_slice()
        .sort_unstable_by_key(|offer| Reverse((offer.price, offer.candidate)));
    Ok(offers)
}
