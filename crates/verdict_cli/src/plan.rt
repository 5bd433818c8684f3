ghost use Rattle.std.specs.Prelude.{◌≡◌, length, IfOk, IfErr, IsTrue};
ghost use Rattle.std.specs.List.{list_all};
ghost use Rattle.verdict_cli.specs.Answer.{RefusesPlan, is_plan, is_plan_digit, plan_of};

use crate::refusal::InputRefusal;
use geo_model::Plan;
use std::alloc::Global;

/// Reads a plan of `m` candidates, a digit for each: 1 where it is chosen, and 0 where not. `Plan` where
/// the line isn't one.
pub fn read_plan(alloc: Global, line: &[u8], m: u32) -> Result<Plan, InputRefusal>
    ensures plan { IfOk result (λ plan. plan ≡ plan_of line.now) }
    ensures places { IfOk result (λ plan. length plan ≡ m) }
    ensures read { IfOk result (λ plan. IsTrue (is_plan m line.now)) }
    ensures refused { IfErr result (RefusesPlan m line.now) }
{
    if !is_plan(line, m) {
        return Err(InputRefusal::Plan);
    }
    let Ok(mut plan) = Plan::empty(alloc, m) else {
        return Err(InputRefusal::NoMemory);
    };
    for i in 0..m {
        plan.set(i, line[i as usize] == b'1');
    }
    Ok(plan)
}

// Whether a line is a plan of `m` candidates.
fn is_plan(line: &[u8], m: u32) -> bool
    ensures { result ≡ is_plan m line.now }
{
    if line.len() == m as usize {
        are_plan_digits(line)
    } else {
        false
    }
}

fn are_plan_digits(line: &[u8]) -> bool
    ensures { result ≡ list_all is_plan_digit line.now }
{
    line.iter().all(|c| is_plan_digit(*c))
}

fn is_plan_digit(c: u8) -> bool
    ensures { result ≡ is_plan_digit c }
{
    c == b'0' || c == b'1'
}
