//! The search over the tree of nodes.
ghost use Rattle.std.specs.Prelude.{◌≡◌, ◌∷◌, [], Some, OnOk, IfErr, IfOk};
ghost use Rattle.std.specs.Option.{ForSome};
ghost use Rattle.geo_model.specs.Network.{IsNetwork};
ghost use Rattle.limit_stacks.specs.Kept.{IsVerdictsOf};
ghost use Rattle.bound_log.specs.Counted.{counts_with, no_counts};
ghost use Rattle.bound_log.specs.Lines.{kind_of};
ghost use Rattle.bound_log.specs.NamedText.{second_head_text};
ghost use Rattle.branch_bound.specs.Cuts.{AreCutsFor, log_line_of, named_cuts};
ghost use Rattle.branch_bound.specs.Explored.{IsNode, TakesLine, AddsText, BreaksText, Explores, BreaksTree};
ghost use Rattle.branch_bound.specs.Found.{IsTrueBest, IsStart, IsAnswerOf};
ghost use Rattle.branch_bound.specs.Logged.{Searches, BreaksLog};
ghost use Rattle.branch_bound.specs.Inherited.{IsInherited, IsUnmetAt};
ghost use Rattle.branch_bound.specs.Spelled.{SpellsOn};

use crate::answer::answer_of;
use crate::best::Best;
use crate::cuts::Cuts;
use crate::inherited::Inherited;
use crate::line::{put_line_of, write_piece};
use crate::node_judgements::{line_at, take_offer};
use crate::node_line::NodeLine;
use crate::search_fault::SearchFault;
use bound_log::{count_line, put_head2};
use geo_base::NoMemory;
use geo_model::{Counts, Network, Node, SearchDone};
use greedy_start::start;
use limit_stacks::SearchVerdicts;
use shelf_io::Shelf;
use std::alloc::Global;

/// What a search has found so far: the best plan and the lines counted, with room for the next line,
/// and the verdicts and the cuts that it asks.
#[derive(Drop)]
struct Findings {
    best: Best,
    counts: Counts,
    buffer: Vec<u8>,
    verdicts: SearchVerdicts,
    cuts: Cuts,
}

impl Findings {
    /// What a search begins with: a best plan, and no line.
    fn new(alloc: Global, verdicts: SearchVerdicts, cuts: Cuts, best: Best) -> Findings
        ensures best { result.best ≡ best }
        ensures counts { result.counts ≡ no_counts }
        ensures verdicts { result.verdicts ≡ verdicts }
        ensures cuts { result.cuts ≡ cuts }
    {
        Findings {
            best,
            counts: Counts::none(),
            buffer: Vec::new(alloc),
            verdicts,
            cuts,
        }
    }

    /// The answer of a search that is over.
    fn done(self, network: &Network) -> SearchDone
        requires verdicts { IsVerdictsOf network.now self.verdicts }
        requires kept { IsTrueBest network.now self.best }
        ensures answer { IsAnswerOf network.now self.best result.answer }
        ensures counts { result.counts ≡ self.counts }
    {
        let Findings {
            best,
            counts,
            mut verdicts,
            ..
        } = self;
        let answer = answer_of(&mut verdicts, network, best);
        SearchDone { answer, counts }
    }
}

/// Takes the line of a node, and before it a plan that was proposed at the last one: keeps the best
/// plan, counts the line, and puts it in the buffer after the names that it gives.
fn take_line(
    alloc: Global,
    network: &Network,
    findings: &mut Findings,
    node: &Node,
    inherited: &mut Inherited,
) -> Result<NodeLine, NoMemory>
    requires node { IsNode network.now node.now }
    requires inherited { IsInherited network.now node.now inherited.old }
    requires verdicts { IsVerdictsOf network.now findings.old.verdicts }
    requires kept { IsTrueBest network.now findings.old.best }
    requires cuts { AreCutsFor network.now findings.old.cuts }
    ensures line { IfOk result (λ line. TakesLine network.now node.now findings.old.best findings.new.best (log_line_of findings.new.cuts.pool line)) }
    ensures spells { IfOk result (λ line. SpellsOn (named_cuts findings.old.cuts) findings.new.buffer.items (log_line_of findings.new.cuts.pool line ∷ []) (named_cuts findings.new.cuts)) }
    ensures counted { IfOk result (λ line. findings.new.counts ≡ counts_with findings.old.counts (kind_of (log_line_of findings.new.cuts.pool line) ∷ [])) }
    ensures inherited { ForSome inherited.new.unmet (λ limit. IsUnmetAt network.now node.now.inside limit) }
    ensures verdicts { OnOk result (IsVerdictsOf network.now findings.new.verdicts) }
    ensures cuts { OnOk result (AreCutsFor network.now findings.new.cuts) }
{
    take_offer(
        alloc,
        &mut findings.verdicts,
        network,
        &mut findings.best,
        &mut findings.cuts,
    )?;
    let line = line_at(
        alloc,
        &mut findings.verdicts,
        network,
        node,
        inherited,
        &mut findings.best,
        &mut findings.cuts,
    )?;
    findings.buffer.clear();
    put_line_of(
        alloc,
        network,
        &mut findings.buffer,
        &mut findings.cuts,
        &line,
    )?;
    count_line(&mut findings.counts, line.kind());
    Ok(line)
}

/// Explores the plans of a node: writes the lines of a tree of it, and keeps the best plan.
fn explore<H: Shelf>(
    alloc: Global,
    network: &Network,
    shelf: &mut H,
    name: &str,
    findings: &mut Findings,
    node: &mut Node,
    inherited: Inherited,
) -> Result<(), SearchFault>
    requires started { (H.state shelf.old).started ≡ Some name.now }
    requires node { IsNode network.now node.old }
    requires inherited { IsInherited network.now node.old inherited }
    requires verdicts { IsVerdictsOf network.now findings.old.verdicts }
    requires kept { IsTrueBest network.now findings.old.best }
    requires cuts { AreCutsFor network.now findings.old.cuts }
    ensures explored { OnOk result (Explores network.now node.old name.now (named_cuts findings.old.cuts)
        (named_cuts findings.new.cuts) findings.old.best findings.new.best findings.old.counts
        findings.new.counts (H.state shelf.old) (H.state shelf.new)) }
    ensures node { OnOk result (node.new ≡ node.old) }
    ensures verdicts { OnOk result (IsVerdictsOf network.now findings.new.verdicts) }
    ensures cuts { OnOk result (AreCutsFor network.now findings.new.cuts) }
    ensures refused { IfErr result (λ why. BreaksTree network.now node.old name.now (named_cuts findings.old.cuts)
        why (H.state shelf.old) (H.state shelf.new)) }
{
    let mut inherited = inherited;
    let line = take_line(alloc, network, findings, node, &mut inherited)?;
    write_piece(shelf, name, findings.buffer.as_slice())?;
    let Some(candidate) = line.split_candidate() else {
        return Ok(());
    };
    // This child has the same upper plan. So of the limits only the candidate's own can refute it, and
    // none shuts an open candidate out of it where none did.
    let with_it = Inherited {
        chosen: Some(candidate),
        none_shut: inherited.none_shut,
        unmet: None,
    };
    node.inside.set(candidate, true);
    explore(alloc, network, shelf, name, findings, node, with_it)?;
    node.inside.set(candidate, false);
    node.upper.set(candidate, false);
    // This child has the same inner plan, which isn't met on the same limit.
    let without_it = Inherited {
        chosen: None,
        none_shut: false,
        unmet: inherited.unmet,
    };
    explore(alloc, network, shelf, name, findings, node, without_it)?;
    node.upper.set(candidate, true);
    Ok(())
}

// How many moves of a local search improve the first plan, where stations cost something: fixed costs
// lead greedy deletion far from the cheapest plan.
const FIRST_MOVES: u32 = 48;

/// The plan that a search begins with, where there is a certified one.
fn first_plan(alloc: Global, network: &Network) -> Result<Best, NoMemory>
    ensures first { IfOk result (IsStart network.now) }
    ensures bounds { IfOk result (λ best. IsNetwork network.now) }
{
    // The network's bounds, for the proof.
    let _bounds = network.candidates();
    let found = if network.station_prices().is_empty() {
        start(alloc, network)?
    } else {
        local_search::first_plan(alloc, network, FIRST_MOVES)?
    };
    match found {
        Some(plan) => Ok(Best::Certified(plan)),
        None => Ok(Best::NoPlan),
    }
}

/// The verdicts that a search begins with: its first plan is a witness of the limits in force for it.
fn first_verdicts(
    alloc: Global,
    network: &Network,
    first: &Best,
) -> Result<SearchVerdicts, NoMemory>
    requires { IsStart network.now first.now }
    ensures { IfOk result (IsVerdictsOf network.now) }
{
    let mut verdicts = SearchVerdicts::new(alloc, network)?;
    if let Best::Certified(plan) = first {
        verdicts.keep_certified(network, plan)?;
    }
    Ok(verdicts)
}

/// Writes the first line of a log. `buffer` is room for its bytes.
fn begin_log<H: Shelf>(shelf: &mut H, name: &str, buffer: &mut Vec<u8>) -> Result<(), SearchFault>
    requires { (H.state shelf.old).started ≡ Some name.now }
    ensures added { OnOk result (AddsText name.now second_head_text (H.state shelf.old) (H.state shelf.new)) }
    ensures refused { IfErr result (λ why. BreaksText name.now second_head_text why (H.state shelf.old) (H.state shelf.new)) }
{
    buffer.clear();
    put_head2(buffer)?;
    write_piece(shelf, name, buffer.as_slice())
}

/// Searches for the cheapest plan that is certified, and appends a log of format 2 that proves the
/// answer to the started name: the first line, and then each line of the tree with the names that it
/// gives before it, is one append. A cut is named right before its first use, and none twice.
///
/// `Best` has a certified plan whose price is the log's bound, so no plan that meets the limits costs
/// less. `NoPlan`: the log has no bound, and no plan meets the limits. `Undecided` has a plan that is
/// neither certified nor refuted, whose price is the log's bound while each certified plan costs more,
/// with the first limit in force for it whose verdict is open, and that verdict's step and interval.
///
/// `WriteFault`: an append failed. `NoMemory`: here, or in an append. After both the name holds what it
/// held, followed by the beginning of a log of this network, and the other names hold what they held.
pub fn search<H: Shelf>(
    alloc: Global,
    network: &Network,
    shelf: &mut H,
    name: &str,
) -> Result<SearchDone, SearchFault>
    requires started { (H.state shelf.old).started ≡ Some name.now }

    // One whole log was added, of format 2 and with no cut named twice; the answer is what it says.
    ensures searched { IfOk result (λ done. Searches network.now name.now done (H.state shelf.old)
        (H.state shelf.new)) }

    // The beginning of a log was added, and the fault has its cause.
    ensures refused { IfErr result (λ why. BreaksLog network.now name.now why (H.state shelf.old) (H.state shelf.new)) }
{
    let mut node = Node::whole(alloc, network.candidates().len() as u32)?;
    let cuts = Cuts::of_units(alloc, network)?;
    let first = first_plan(alloc, network)?;
    let verdicts = first_verdicts(alloc, network, &first)?;
    let mut findings = Findings::new(alloc, verdicts, cuts, first);
    begin_log(shelf, name, &mut findings.buffer)?;
    let inherited = Inherited {
        chosen: None,
        none_shut: false,
        unmet: None,
    };
    explore(
        alloc,
        network,
        shelf,
        name,
        &mut findings,
        &mut node,
        inherited,
    )?;
    Ok(findings.done(network))
}
