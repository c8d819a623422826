//! A pass over a term in which rules are taken.
ghost use Rattle.std.specs.Prelude.{◌≡◌, ◌≤◌, [], ◌∷◌, ◌++◌, length, OnOk};
ghost use Rattle.std.specs.Option.{option_map};
ghost use Rattle.circ_term.specs.Tree.{trees_of};
ghost use Rattle.circ_plain_search.specs.Joining.{is_place};
ghost use Rattle.circ_plain_search.specs.Search.{is_nil};
ghost use Rattle.circ_conditional_search.specs.Joining.{swept_with, put_swept};
ghost use Rattle.circ_join.specs.Sweeping.{plain_swept, Goes, swept_place};
ghost use Rattle.circ_join.specs.Trying.{normaliser_of, Works};
ghost use Rattle.circ_attempt.specs.Passes.{swept_taking, all_swept_taking};
ghost use Rattle.circ_attempt.specs.Rules.{first_rule_use};
ghost use Rattle.circ_own_rules.specs.Using.{plain_due};

use crate::passing::RulePassing;
use crate::using::DueRule;
use circ_join::{HypothesisUse, Swept, has_place, put_at, rewrite_fault};
use circ_rewrite::RewriteFault;
use circ_term::{Kind, Path, Term};
use circ_tries::Reducer;

impl<'a> RulePassing<'a> {
    /// What a pass makes of a term.
    pub(crate) fn pass(
        &self,
        reducer: &mut Reducer<'_>,
        term: &Term,
        budget: &mut u64,
    ) -> Result<Swept, RewriteFault>
        ensures exact { Works plain_swept budget.new (swept_taking (first_rule_use
            (normaliser_of reducer.old) (self.now.lemmas.now ++ self.now.own.now))
            self.now.gamma.now [] term.now (swept_with term.now []) budget.old) result }
        ensures less { budget.new ≤ budget.old }
        ensures same { reducer.new ≡ reducer.old }
    {
        let mut swept = Swept {
            whole: term.share()?,
            uses: Vec::new(self.alloc),
        };
        if self.is_empty() {
            return Ok(swept);
        }
        let mut path = Path::new(self.alloc);
        match self.sweep(reducer, term, &mut path, &mut swept, budget) {
            Ok(()) => Ok(swept),
            Err(fault) => Err(fault),
        }
    }

    // Whether there are no rules.
    fn is_empty(&self) -> bool
        ensures { result ≡ is_nil (self.now.lemmas.now ++ self.now.own.now) }
    {
        if !self.lemmas.is_empty() {
            return false;
        }
        self.own.is_empty()
    }

    // A pass over a term that stands at the path of the whole.
    #[cycle(sweep)]
    fn sweep(
        &self,
        reducer: &mut Reducer<'_>,
        term: &Term,
        path: &mut Path,
        swept: &mut Swept,
        budget: &mut u64,
    ) -> Result<(), RewriteFault>
        ensures exact { Goes (swept_taking (first_rule_use (normaliser_of reducer.old)
            (self.now.lemmas.now ++ self.now.own.now)) self.now.gamma.now path.old.items term.now
            (plain_swept swept.old) budget.old) (plain_swept swept.new) budget.new result }
        ensures path { OnOk result (path.new.items ≡ path.old.items) }
        ensures less { budget.new ≤ budget.old }
        ensures same { reducer.new ≡ reducer.old }
    {
        match self.first_use(reducer, path.as_slice(), term, budget) {
            Err(fault) => Err(fault),
            Ok(Some(due)) => self.put(swept, due, budget),
            Ok(None) => match term.kind() {
                Kind::Variable { .. } => Ok(()),
                Kind::Application { op, args, .. } => {
                    self.sweep_all(reducer, op, args, path, swept, budget)
                }
            },
        }
    }

    // The same over the arguments of an operator.
    #[cycle(sweep)]
    fn sweep_all(
        &self,
        reducer: &mut Reducer<'_>,
        op: u32,
        args: &[Term],
        path: &mut Path,
        swept: &mut Swept,
        budget: &mut u64,
    ) -> Result<(), RewriteFault>
        requires narrow { length args.now ≤ 65536 }
        ensures exact { Goes (all_swept_taking (first_rule_use (normaliser_of reducer.old)
            (self.now.lemmas.now ++ self.now.own.now)) self.now.gamma.now op path.old.items 0
            (trees_of args.now) (plain_swept swept.old) budget.old) (plain_swept swept.new)
            budget.new result }
        ensures path { OnOk result (path.new.items ≡ path.old.items) }
        ensures less { budget.new ≤ budget.old }
        ensures same { reducer.new ≡ reducer.old }
    {
        for i in 0..args.len() {
            match self.sweep_at(reducer, op, i as u16, &args[i], path, swept, budget) {
                Ok(()) => {}
                Err(fault) => return Err(fault),
            }
        }
        Ok(())
    }

    // The same over one argument, where it stands at a place of the set.
    #[cycle(sweep)]
    fn sweep_at(
        &self,
        reducer: &mut Reducer<'_>,
        op: u32,
        i: u16,
        arg: &Term,
        path: &mut Path,
        swept: &mut Swept,
        budget: &mut u64,
    ) -> Result<(), RewriteFault>
        ensures exact { Goes (swept_place (is_place self.now.gamma.now op i) (swept_taking
            (first_rule_use (normaliser_of reducer.old) (self.now.lemmas.now ++ self.now.own.now))
            self.now.gamma.now (path.old.items ++ i ∷ []) arg.now) (plain_swept swept.old)
            budget.old) (plain_swept swept.new) budget.new result }
        ensures path { OnOk result (path.new.items ≡ path.old.items) }
        ensures less { budget.new ≤ budget.old }
        ensures same { reducer.new ≡ reducer.old }
    {
        if !has_place(self.gamma, op, i) {
            return Ok(());
        }
        path.push(i)?;
        let goes = self.sweep(reducer, arg, path, swept, budget);
        let _last = path.pop();
        goes
    }

    // The first rule that is taken on the term at the path: a lemma, or else an own rule.
    fn first_use(
        &self,
        reducer: &mut Reducer<'_>,
        path: &[u16],
        term: &Term,
        budget: &mut u64,
    ) -> Result<Option<DueRule<'a>>, RewriteFault>
        ensures exact { Works (option_map plain_due) budget.new (first_rule_use
            (normaliser_of reducer.old) (self.now.lemmas.now ++ self.now.own.now) path.now term.now
            budget.old) result }
        ensures less { budget.new ≤ budget.old }
        ensures same { reducer.new ≡ reducer.old }
    {
        match self
            .lemmas
            .first_use(self.alloc, reducer, path, term, budget)
        {
            Err(fault) => Err(fault),
            Ok(Some(due)) => Ok(Some(due)),
            Ok(None) => self.own.first_use(self.alloc, reducer, path, term, budget),
        }
    }

    // A rule is put into the whole term, which takes a step. Its new side is built first, then the
    // term around it.
    fn put(&self, swept: &mut Swept, due: DueRule<'_>, budget: &mut u64) -> Result<(), RewriteFault>
        ensures exact { Goes (put_swept (plain_swept swept.old) (plain_due due.entry) budget.old)
            (plain_swept swept.new) budget.new result }
        ensures less { budget.new ≤ budget.old }
    {
        if *budget == 0 {
            drop(due);
            return Err(RewriteFault::Spent);
        }
        let new = match due.subst.apply(due.new) {
            Ok(new) => new,
            Err(fault) => {
                drop(due);
                return Err(rewrite_fault(fault));
            }
        };
        let whole = match put_at(self.alloc, &swept.whole, due.path.as_slice(), &new) {
            Ok(whole) => whole,
            Err(fault) => {
                drop(due);
                return Err(rewrite_fault(fault));
            }
        };
        swept.uses.push(HypothesisUse {
            number: due.number,
            way: due.way,
            path: due.path,
            terms: due.terms,
            conds: due.conds,
            new,
        })?;
        swept.whole = whole;
        *budget -= 1;
        Ok(())
    }
}
