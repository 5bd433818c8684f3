//! Normal matrices brought to plans.
ghost use Rattle.std.specs.Prelude.{◌≡◌, ◌<◌, length, slice_set};
ghost use Rattle.normal_matrix.specs.Normal.{IsNormalOf};

use geo_model::{Network, Plan};
use normal_matrix::Normal;
use std::mem;

/// Makes a normal matrix of the network that of a plan, whatever plan it was of before.
pub fn bring_to(normal: &mut Normal, network: &Network, plan: &Plan)
    requires made { IsNormalOf network.now normal.old }
    requires places { length plan.now ≡ length network.now.candidates }
    ensures sum { IsNormalOf network.now normal.new }
    ensures plan { normal.new.plan ≡ plan.now }
{
    for i in 0..network.candidates().len() as u32 {
        set_candidate(normal, network, i, plan.has(i));
    }
}

// Adds candidate `i` or takes it out, where that changes the plan.
fn set_candidate(normal: &mut Normal, network: &Network, i: u32, chosen: bool)
    requires made { IsNormalOf network.now normal.old }
    requires inside { i < length network.now.candidates }
    ensures sum { IsNormalOf network.now normal.new }
    ensures plan { normal.new.plan ≡ slice_set normal.old.plan i chosen }
{
    if normal.has(i) == chosen {
        return;
    }
    if chosen {
        normal.add(network, i);
    } else {
        normal.remove(network, i);
    }
}

// Exchanges two normal matrices where the plan of the other one is nearer to `plan`: the verdicts of an
// inner and of an upper plan that are asked for in turn don't carry one matrix to and fro.
pub(crate) fn take_nearer(normal: &mut Normal, other: &mut Normal, network: &Network, plan: &Plan)
    requires made { IsNormalOf network.now normal.old }
    requires other_made { IsNormalOf network.now other.old }
    requires places { length plan.now ≡ length network.now.candidates }
    ensures made { IsNormalOf network.now normal.new }
    ensures other_made { IsNormalOf network.now other.new }
{
    let apart = difference(normal, network, plan);
    if apart > 0 && difference(other, network, plan) < apart {
        mem::swap(normal, other);
    }
}

// In how many candidates the plan of a normal matrix differs from `plan`.
fn difference(normal: &Normal, network: &Network, plan: &Plan) -> u32
    requires made { IsNormalOf network.now normal.now }
    requires places { length plan.now ≡ length network.now.candidates }
{
    let mut count = 0;
    for i in 0..network.candidates().len() as u32 {
        if normal.has(i) != plan.has(i) {
            count += 1;
        }
    }
    count
}
