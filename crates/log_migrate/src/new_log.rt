ghost use Rattle.std.specs.Prelude.{◌≡◌, List, [], ◌∷◌, ◌++◌, All, IfOk, IfErr, OnOk, map};
ghost use Rattle.bound_log.specs.CutText.{CutTextOf};
ghost use Rattle.bound_log.specs.Formats.{IsShortLine, texts_in};
ghost use Rattle.bound_log.specs.UseText.{uses_of};
ghost use Rattle.bound_log.specs.declared.log_format.LogFormat.TheVariants as log_format;
ghost use Rattle.bound_log.specs.declared.log_leaf.LogLeaf.TheVariants as log_leaf;
ghost use Rattle.bound_log.specs.declared.log_line.LogLine.TheVariants as log_line;
ghost use Rattle.log_migrate.specs.FirstUse.{cuts_used, first_used, line_with_names, named_after, number_among, numbered_share};
ghost use Rattle.log_migrate.specs.NewLog.{Gets, HasLines, HasNamed, IsRefusal, IsShortCut, more_of, names_text};

use crate::answer::MigrateAnswer;
use crate::names::Names;
use bound_log::{
    CutText, LogLeaf, LogLine, Shares, put_dual2, put_head2, put_line, put_named_text, put_use,
};
use cut_pool::Share;
use geo_base::NoMemory;
use std::alloc::Global;

/// A log of format 2 that is being written, with the cuts that it has named.
#[derive(Drop)]
pub struct NewLog {
    pub text: Vec<u8>,
    pub names: Names,
}

impl NewLog {
    /// The first line alone.
    pub fn new(alloc: Global) -> Result<NewLog, NoMemory>
        ensures { IfOk result (HasLines []) }
    {
        let mut text = Vec::new(alloc);
        put_head2(&mut text)?;
        let names = Names::new(alloc);
        Ok(NewLog { text, names })
    }

    /// Adds a line of the tree, behind the names of the cuts that it is the first to use.
    pub fn add(&mut self, alloc: Global, line: &LogLine<'_>) -> Result<(), MigrateAnswer>
        requires { IsShortLine log_format.First line.now }
        ensures added { OnOk result ((named : List CutTextOf) → HasNamed named self.old
            → Gets named (first_used named (cuts_used line.now)) (texts_in log_format.Second (line_with_names named line.now)) self.old self.new) }
        ensures cause { IfErr result (λ why. (named : List CutTextOf) → HasNamed named self.old → IsRefusal (named_after named line.now) why) }
    {
        match line {
            LogLine::Leaf(LogLeaf::Cut(cut)) => self.add_cut(alloc, cut),
            LogLine::Leaf(LogLeaf::Dual(divisor, shares)) => self.add_dual(alloc, *divisor, shares),
            // These lines are the same in both formats.
            _ => {
                put_line(&mut self.text, line)?;
                Ok(())
            }
        }
    }

    // Adds the line of a cut, behind its name where it has none.
    fn add_cut(&mut self, alloc: Global, cut: &CutText<'_>) -> Result<(), MigrateAnswer>
        requires { IsShortCut cut.now }
        ensures added { OnOk result ((named : List CutTextOf) → HasNamed named self.old
            → Gets named (first_used named (cut.now ∷ [])) (texts_in log_format.Second (line_with_names named (log_line.Leaf (log_leaf.Cut cut.now)))) self.old self.new) }
        ensures cause { IfErr result (λ why. (named : List CutTextOf) → HasNamed named self.old → IsRefusal (named ++ first_used named (cut.now ∷ [])) why) }
    {
        let number = self.number(alloc, cut)?;
        put_use(&mut self.text, number)?;
        Ok(())
    }

    // Adds the line of a dual bound, behind the names of the cuts of its shares that have none.
    fn add_dual(
        &mut self,
        alloc: Global,
        divisor: u64,
        shares: &Shares<'_>,
    ) -> Result<(), MigrateAnswer>
        requires { IsShortLine log_format.First (log_line.Leaf (log_leaf.Dual divisor shares.now)) }
        ensures added { OnOk result ((named : List CutTextOf) → HasNamed named self.old
            → Gets named (more_of named shares.now) (texts_in log_format.Second (line_with_names named (log_line.Leaf (log_leaf.Dual divisor shares.now)))) self.old self.new) }
        ensures cause { IfErr result (λ why. (named : List CutTextOf) → HasNamed named self.old → IsRefusal (named ++ more_of named shares.now) why) }
    {
        let uses = self.numbers(alloc, shares)?;
        put_dual2(&mut self.text, divisor, &uses)?;
        Ok(())
    }

    // The number of each share's cut, with the share's multiplier. Cuts that have none are named.
    fn numbers(&mut self, alloc: Global, shares: &Shares<'_>) -> Result<Vec<Share>, MigrateAnswer>
        requires { All (λ share. IsShortCut share.1) shares.now }
        ensures numbers { IfOk result (λ uses. (named : List CutTextOf) → HasNamed named self.old
            → uses_of uses.items ≡ map (numbered_share (named ++ more_of named shares.now)) shares.now) }
        ensures gets { OnOk result ((named : List CutTextOf) → HasNamed named self.old
            → Gets named (more_of named shares.now) (names_text (more_of named shares.now)) self.old self.new) }
        ensures cause { IfErr result (λ why. (named : List CutTextOf) → HasNamed named self.old → IsRefusal (named ++ more_of named shares.now) why) }
    {
        let mut left = shares.shares();
        let mut uses = Vec::new(alloc);
        'shares: while let Some((y, cut)) = left.next() {
            let number = match self.number(alloc, &cut) {
                Ok(number) => number,
                Err(why) => return Err(why),
            };
            uses.push(Share { y, cut: number })?;
        }
        Ok(uses)
    }

    // The number of a cut, which is named where it has none.
    fn number(&mut self, alloc: Global, cut: &CutText<'_>) -> Result<u32, MigrateAnswer>
        requires { IsShortCut cut.now }
        ensures number { IfOk result (λ number. (named : List CutTextOf) → HasNamed named self.old → number ≡ number_among named cut.now) }
        ensures gets { OnOk result ((named : List CutTextOf) → HasNamed named self.old
            → Gets named (first_used named (cut.now ∷ [])) (names_text (first_used named (cut.now ∷ []))) self.old self.new) }
        ensures cause { IfErr result (λ why. (named : List CutTextOf) → HasNamed named self.old → IsRefusal (named ++ first_used named (cut.now ∷ [])) why) }
    {
        let mut name = Vec::new(alloc);
        put_named_text(&mut name, cut)?;
        match self.names.find(&name) {
            Some(number) => return Ok(number),
            None => {}
        }
        if self.names.is_full() {
            return Err(MigrateAnswer::TooManyCuts);
        }
        self.text.extend_from_slice(&name)?;
        let number = self.names.give(name)?;
        Ok(number)
    }
}
