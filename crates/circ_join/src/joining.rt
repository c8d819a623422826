//! Whether two terms join by hypotheses at special paths.
ghost use Rattle.std.specs.Prelude.{◌≡◌, ◌≤◌, ◌<◌, ◌*◌, [], ◌∷◌, ◌++◌, length, false};
ghost use Rattle.std.specs.Prelude.{OnOk};
ghost use Rattle.std.specs.Option.{option_map};
ghost use Rattle.circ_term.specs.Tree.{trees_of};
ghost use Rattle.circ_term.specs.Order.{is_same};
ghost use Rattle.circ_plain_search.specs.Joining.{is_place};
ghost use Rattle.circ_conditional_search.specs.Joining.{first_use_trying};
ghost use Rattle.circ_conditional_search.specs.Joining.{joined_trying, all_joined_trying};
ghost use Rattle.circ_join.specs.Trying.{normaliser_of, Works, Joins};
ghost use Rattle.circ_join.specs.Trying.{beside_alone, inside_trying};
ghost use Rattle.circ_join.specs.Uses.{plain_use, plain_uses};

use crate::hypotheses::Hypotheses;
use crate::uses::HypothesisUse;
use circ_rewrite::RewriteFault;
use circ_special::Gamma;
use circ_term::{Kind, Path, Term};
use circ_tries::Reducer;
use std::alloc::Global;

/// What two terms may join by.
#[derive(Clone, Copy)]
pub struct Joining<'a> {
    /// Where memory comes from.
    pub alloc: Global,
    /// The special set.
    pub gamma: &'a Gamma,
    /// The hypotheses.
    pub hyps: &'a Hypotheses,
}

impl Joining<'_> {
    /// The uses of hypotheses that make the first term equal to the second. None where they do not
    /// join. Conditions are normalised by the reducer. The budget falls by one for each try and for
    /// each replacement, also where what was tried counts for nothing in the end.
    pub fn join(
        &self,
        reducer: &mut Reducer<'_>,
        a: &Term,
        b: &Term,
        budget: &mut u64,
    ) -> Result<Option<Vec<HypothesisUse>>, RewriteFault>
        ensures exact { Works (option_map (λ v. plain_uses v.items)) budget.new
            (joined_trying (normaliser_of reducer.old) self.now.gamma.now self.now.hyps.now.all []
            a.now b.now budget.old) result }
        ensures less { budget.new ≤ budget.old }
        ensures same { reducer.new ≡ reducer.old }
    {
        let mut path = Path::new(self.alloc);
        let mut uses = Vec::new(self.alloc);
        match self.joins(reducer, a, b, &mut path, &mut uses, budget) {
            Err(fault) => Err(fault),
            Ok(true) => Ok(Some(uses)),
            Ok(false) => Ok(None),
        }
    }

    // Whether a and b, which stand at the path, join. The uses are appended in order. After false
    // there may be some that count for nothing.
    #[cycle(join)]
    fn joins(
        &self,
        reducer: &mut Reducer<'_>,
        a: &Term,
        b: &Term,
        path: &mut Path,
        uses: &mut Vec<HypothesisUse>,
        budget: &mut u64,
    ) -> Result<bool, RewriteFault>
        ensures exact { Joins (joined_trying (normaliser_of reducer.old) self.now.gamma.now
            self.now.hyps.now.all path.old.items a.now b.now budget.old) budget.new
            (plain_uses uses.old.items) (plain_uses uses.new.items) result }
        ensures path { OnOk result (path.new.items ≡ path.old.items) }
        ensures less { budget.new ≤ budget.old }
        ensures same { reducer.new ≡ reducer.old }
    {
        if a.same(b) {
            return Ok(true);
        }
        match self
            .hyps
            .first_use(self.alloc, reducer, path.as_slice(), a, b, budget)
        {
            Err(fault) => Err(fault),
            Ok(Some(one)) => {
                uses.push(one)?;
                Ok(true)
            }
            Ok(None) => self.joins_inside(reducer, a, b, path, uses, budget),
        }
    }

    // The same of terms that differ, where no hypothesis is used on them: their arguments join.
    #[cycle(join)]
    fn joins_inside(
        &self,
        reducer: &mut Reducer<'_>,
        a: &Term,
        b: &Term,
        path: &mut Path,
        uses: &mut Vec<HypothesisUse>,
        budget: &mut u64,
    ) -> Result<bool, RewriteFault>
        ensures exact { Joins (inside_trying (normaliser_of reducer.old) self.now.gamma.now
            self.now.hyps.now.all path.old.items a.now b.now budget.old) budget.new
            (plain_uses uses.old.items) (plain_uses uses.new.items) result }
        ensures path { OnOk result (path.new.items ≡ path.old.items) }
        ensures less { budget.new ≤ budget.old }
        ensures same { reducer.new ≡ reducer.old }
    {
        match (a.kind(), b.kind()) {
            (Kind::Variable { .. }, _) => Ok(false),
            (Kind::Application { .. }, Kind::Variable { .. }) => Ok(false),
            (
                Kind::Application { op, sort, args },
                Kind::Application {
                    op: other_op,
                    sort: other_sort,
                    args: others,
                },
            ) => {
                if op != other_op || sort != other_sort {
                    return Ok(false);
                }
                self.all_join(reducer, op, args, others, path, uses, budget)
            }
        }
    }

    // The same for the arguments of an operator.
    #[cycle(join)]
    fn all_join(
        &self,
        reducer: &mut Reducer<'_>,
        op: u32,
        args: &[Term],
        others: &[Term],
        path: &mut Path,
        uses: &mut Vec<HypothesisUse>,
        budget: &mut u64,
    ) -> Result<bool, RewriteFault>
        requires narrow { length args.now ≤ 65536 }
        ensures exact { Joins (all_joined_trying (normaliser_of reducer.old) self.now.gamma.now
            self.now.hyps.now.all op path.old.items 0 (trees_of args.now) (trees_of others.now)
            budget.old) budget.new
            (plain_uses uses.old.items) (plain_uses uses.new.items) result }
        ensures path { OnOk result (path.new.items ≡ path.old.items) }
        ensures less { budget.new ≤ budget.old }
        ensures same { reducer.new ≡ reducer.old }
    {
        for i in 0..args.len() {
            if i >= others.len() {
                return Ok(false);
            }
            match self.joins_at(
                reducer, op, i as u16, &args[i], &others[i], path, uses, budget,
            ) {
                Err(fault) => return Err(fault),
                Ok(joins) => {
                    if !joins {
                        return Ok(false);
                    }
                }
            }
        }
        Ok(args.len() == others.len())
    }

    // The same for one argument: it is equal, or stands at a place of the set and joins.
    #[cycle(join)]
    fn joins_at(
        &self,
        reducer: &mut Reducer<'_>,
        op: u32,
        i: u16,
        arg: &Term,
        other: &Term,
        path: &mut Path,
        uses: &mut Vec<HypothesisUse>,
        budget: &mut u64,
    ) -> Result<bool, RewriteFault>
        ensures exact { Joins (beside_alone (is_same arg.now other.now)
            (is_place self.now.gamma.now op i)
            (joined_trying (normaliser_of reducer.old) self.now.gamma.now
            self.now.hyps.now.all (path.old.items ++ i ∷ []) arg.now other.now) budget.old)
            budget.new (plain_uses uses.old.items) (plain_uses uses.new.items) result }
        ensures path { OnOk result (path.new.items ≡ path.old.items) }
        ensures less { budget.new ≤ budget.old }
        ensures same { reducer.new ≡ reducer.old }
    {
        if arg.same(other) {
            return Ok(true);
        }
        if !has_place(self.gamma, op, i) {
            return Ok(false);
        }
        path.push(i)?;
        let joins = self.joins(reducer, arg, other, path, uses, budget);
        let _last = path.pop();
        joins
    }
}

/// Whether an argument of an operator is a place of the set.
pub fn has_place(gamma: &Gamma, op: u32, arg: u16) -> bool
    ensures { result ≡ is_place gamma.now op arg }
{
    gamma.has(op, arg)
}
