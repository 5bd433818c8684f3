//! A session: a plan that changes, one candidate at a time, and goes back.
ghost use Rattle.std.specs.Prelude.{◌≡◌, ◌<◌, ◌≤◌, length, not, slice_get, Some, IfOk, OnOk};
ghost use Rattle.geo_model.specs.Network.{NetworkOf};
ghost use Rattle.trial.specs.declared.command.SessionCommand.TheVariants.{Change, Undo, Show};
ghost use Rattle.trial.specs.Script.{IsInside};
ghost use Rattle.trial.specs.Session.{answer_to, after, first_session, change_answer, changed, show_answer, undo_answer};
ghost use Rattle.trial.specs.Stacks.{session_of, IsSessionOf};

use crate::answer::Reply;
use crate::command::SessionCommand;
use crate::stacks::{change_stacks, new_stacks, undo_stacks};
use factor_stack::FactorStack;
use geo_base::NoMemory;
use geo_model::{Network, Plan};
use std::alloc::Global;

/// How many changes there may be that aren't taken back.
const MOST_CHANGES: usize = 32;

/// How often a plan is shown.
const MOST_SHOWS: u32 = 256;

/// A plan, the plans before its changes, the oldest first, and for each limit a stack of factors with
/// the same plans.
#[derive(Drop)]
pub struct Session {
    pub plan: Plan,
    pub before: Vec<Plan>,
    pub shows: u32,
    pub stacks: Vec<FactorStack>,
}

impl Session {
    /// A session that begins: no candidate is chosen.
    pub fn new(alloc: Global, network: &Network) -> Result<Session, NoMemory>
        ensures first { IfOk result (λ session. session_of session ≡ first_session (length network.now.candidates)) }
        ensures made { IfOk result (λ session. IsSessionOf network.now session) }
    {
        let plan = Plan::empty(alloc, network.candidates().len() as u32)?;
        let stacks = new_stacks(alloc, network, &plan)?;
        Ok(Session {
            plan,
            before: Vec::new(alloc),
            shows: 0,
            stacks,
        })
    }

    /// Does what a command asks for, where it can be done. It is refused for want of memory alone.
    pub fn obey(
        &mut self,
        alloc: Global,
        network: &Network,
        command: SessionCommand,
    ) -> Result<Reply, NoMemory>
        requires made { IsSessionOf network.now self.old }
        requires inside { IsInside (length network.now.candidates) command }
        ensures answer { IfOk result (λ answer. answer ≡ answer_to (session_of self.old) command) }
        ensures after { OnOk result (session_of self.new ≡ after (session_of self.old) command) }
        ensures made { OnOk result (IsSessionOf network.now self.new) }
    {
        match command {
            SessionCommand::Change { candidate, chosen } => match candidate {
                Some(candidate) => self.change(alloc, network, candidate, chosen),
                None => Ok(Reply::NoCandidate),
            },
            SessionCommand::Undo => Ok(self.undo()),
            SessionCommand::Show => Ok(self.show()),
            SessionCommand::Unknown => Ok(Reply::NotACommand),
        }
    }

    // Chooses a candidate, or leaves it out.
    fn change(
        &mut self,
        alloc: Global,
        network: &Network,
        candidate: u32,
        chosen: bool,
    ) -> Result<Reply, NoMemory>
        requires made { IsSessionOf network.now self.old }
        requires inside { candidate < length network.now.candidates }
        ensures answer { IfOk result (λ answer. answer ≡ change_answer (session_of self.old) (Some candidate) chosen) }
        ensures after { OnOk result (session_of self.new ≡ after (session_of self.old) (Change (Some candidate) chosen)) }
        ensures made { OnOk result (IsSessionOf network.now self.new) }
    {
        if self.plan.has(candidate) == chosen {
            return Ok(if chosen {
                Reply::TakenAlready
            } else {
                Reply::NotTaken
            });
        }
        if self.before.len() >= MOST_CHANGES {
            return Ok(Reply::TooDeep);
        }
        self.change_plan(alloc, network, candidate, chosen)?;
        Ok(Reply::Done)
    }

    // The same, where it isn't chosen or left out yet, and there may be one more change.
    fn change_plan(
        &mut self,
        alloc: Global,
        network: &Network,
        candidate: u32,
        chosen: bool,
    ) -> Result<(), NoMemory>
        requires made { IsSessionOf network.now self.old }
        requires differs { slice_get self.old.plan candidate ≡ Some (not chosen) }
        requires few { length self.old.before.items < 32 }
        ensures after { OnOk result (session_of self.new ≡ changed (session_of self.old) (Some candidate) chosen) }
        ensures made { OnOk result (IsSessionOf network.now self.new) }
    {
        change_stacks(self.stacks.as_mut_slice(), network, candidate, chosen)?;
        self.before.push(self.plan.copy(alloc)?)?;
        self.plan.set(candidate, chosen);
        Ok(())
    }

    // Goes back to the plan before the latest change.
    fn undo(&mut self) -> Reply
        requires { (network : NetworkOf) × IsSessionOf network self.old }
        ensures answer { result ≡ undo_answer self.old.before.items }
        ensures after { session_of self.new ≡ after (session_of self.old) Undo }
        ensures made { (network : NetworkOf) → IsSessionOf network self.old → IsSessionOf network self.new }
    {
        let Some(plan) = self.before.pop() else {
            return Reply::NothingToUndo;
        };
        self.plan = plan;
        undo_stacks(self.stacks.as_mut_slice());
        Reply::Done
    }

    // Counts a plan that is to be shown.
    fn show(&mut self) -> Reply
        requires { self.old.shows ≤ 256 }
        ensures answer { result ≡ show_answer self.old.shows }
        ensures after { session_of self.new ≡ after (session_of self.old) Show }
        ensures made { (network : NetworkOf) → IsSessionOf network self.old → IsSessionOf network self.new }
    {
        if self.shows >= MOST_SHOWS {
            return Reply::TooManyShows;
        }
        self.shows += 1;
        Reply::Shown
    }
}
