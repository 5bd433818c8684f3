//! The answer of a search that is over.
ghost use Rattle.std.specs.Prelude.{◌≡◌};
ghost use Rattle.limit_stacks.specs.Kept.{IsVerdictsOf};
ghost use Rattle.branch_bound.specs.Found.{IsTrueBest, IsAnswerOf, IsLeftOpen};
ghost use Rattle.branch_bound.specs.Searched.{IsUnsettled, IsFirstOpen};

use crate::best::Best;
use crate::limit_verdicts::{OpenLimit, open_limit};
use geo_model::{Answer, Network, Plan};
use limit_stacks::SearchVerdicts;

/// The first limit in force for an unsettled plan whose verdict is open.
fn first_open(verdicts: &mut SearchVerdicts, network: &Network, plan: &Plan) -> OpenLimit
    requires verdicts { IsVerdictsOf network.now verdicts.old }
    requires unsettled { IsUnsettled network.now plan.now }
    ensures { IsFirstOpen network.now plan.now result.limit result.step result.lo result.hi }
{
    for limit in 0..network.limits().len() as u32 {
        if let Some(found) = open_limit(verdicts, network, plan, limit) {
            return found;
        }
    }
    unreachable!()
}

/// The answer that an unsettled plan makes.
fn left_open(verdicts: &mut SearchVerdicts, network: &Network, plan: Plan) -> Answer
    requires verdicts { IsVerdictsOf network.now verdicts.old }
    requires unsettled { IsUnsettled network.now plan }
    ensures { IsLeftOpen network.now plan result }
{
    let found = first_open(verdicts, network, &plan);
    Answer::Undecided {
        plan,
        limit: found.limit,
        step: found.step,
        lo: found.lo,
        hi: found.hi,
    }
}

/// The answer that the best plan makes.
pub fn answer_of(verdicts: &mut SearchVerdicts, network: &Network, best: Best) -> Answer
    requires verdicts { IsVerdictsOf network.now verdicts.old }
    requires kept { IsTrueBest network.now best }
    ensures { IsAnswerOf network.now best result }
{
    match best {
        Best::NoPlan => Answer::NoPlan,
        Best::Certified(plan) => Answer::Best(plan),
        Best::Unsettled(plan) => left_open(verdicts, network, plan),
    }
}
