//! Whether two terms join up to content.
ghost use Rattle.std.specs.Prelude.{◌≡◌, ◌≤◌, [], ◌∷◌, ◌++◌, length};
ghost use Rattle.std.specs.Prelude.{OnOk, IfOk};
ghost use Rattle.std.specs.Bool.{OnFalse};
ghost use Rattle.std.specs.Option.{option_map};
ghost use Rattle.circ_term.specs.Tree.{trees_of};
ghost use Rattle.circ_term.specs.Order.{is_same};
ghost use Rattle.circ_theory.specs.Operators.{operator_of};
ghost use Rattle.circ_plain_search.specs.Joining.{is_place};
ghost use Rattle.circ_join.specs.Trying.{beside_alone, normaliser_of, Joins, Works};
ghost use Rattle.circ_content_join.specs.Joining.{joined_by_content, all_joined_by_content};
ghost use Rattle.circ_content_join.specs.Joining.{contents_joined, rests_joined};
ghost use Rattle.circ_moves.specs.Joining.{inside_by_content};
ghost use Rattle.circ_moves.specs.Parts.{plain_apart};
ghost use Rattle.circ_moves.specs.Plain.{plain_moves};

use crate::apart::{Apart, leaves_rests};
use crate::moves::Move;
use crate::rests::{contents_apart, joining_operator, push_over_rests, rests_of};
use circ_join::{Hypotheses, has_place, rewrite_fault};
use circ_rewrite::RewriteFault;
use circ_special::Gamma;
use circ_term::{Kind, Path, Term};
use circ_theory::{OpDecl, Theory};
use circ_tries::Reducer;
use std::alloc::Global;

/// What two terms may join by, up to content.
#[derive(Clone, Copy)]
pub struct ContentJoining<'a> {
    /// Where memory comes from.
    pub alloc: Global,
    /// The theory, whose operators have contents.
    pub theory: &'a Theory,
    /// The special set.
    pub gamma: &'a Gamma,
    /// The hypotheses.
    pub hyps: &'a Hypotheses,
}

impl ContentJoining<'_> {
    /// The moves that make the first term equal to the second. None where they do not join.
    /// Conditions are normalised by the reducer. The budget falls by one for each try and for each
    /// replacement, also where what was tried counts for nothing in the end.
    pub fn join(
        &self,
        reducer: &mut Reducer<'_>,
        a: &Term,
        b: &Term,
        budget: &mut u64,
    ) -> Result<Option<Vec<Move>>, RewriteFault>
        ensures exact { Works (option_map (λ v. plain_moves v.items)) budget.new
            (joined_by_content (normaliser_of reducer.old) self.now.theory.now.signature
            self.now.gamma.now self.now.hyps.now.all [] a.now b.now budget.old) result }
        ensures less { budget.new ≤ budget.old }
        ensures same { reducer.new ≡ reducer.old }
    {
        let mut path = Path::new(self.alloc);
        let mut moves = Vec::new(self.alloc);
        match self.joins(reducer, a, b, &mut path, &mut moves, budget) {
            Err(fault) => Err(fault),
            Ok(true) => Ok(Some(moves)),
            Ok(false) => Ok(None),
        }
    }

    // Whether a and b, which stand at the path, join. The moves are appended in order. After false
    // there may be some that count for nothing.
    #[cycle(join)]
    fn joins(
        &self,
        reducer: &mut Reducer<'_>,
        a: &Term,
        b: &Term,
        path: &mut Path,
        moves: &mut Vec<Move>,
        budget: &mut u64,
    ) -> Result<bool, RewriteFault>
        ensures exact { Joins (joined_by_content (normaliser_of reducer.old)
            self.now.theory.now.signature self.now.gamma.now self.now.hyps.now.all
            path.old.items a.now b.now budget.old) budget.new
            (plain_moves moves.old.items) (plain_moves moves.new.items) result }
        ensures path { OnOk result (path.new.items ≡ path.old.items) }
        ensures less { budget.new ≤ budget.old }
        ensures same { reducer.new ≡ reducer.old }
    {
        if a.same(b) {
            return Ok(true);
        }
        match self
            .hyps
            .first_use(self.alloc, reducer, path.as_slice(), a, b, budget)
        {
            Err(fault) => Err(fault),
            Ok(Some(hypothesis)) => {
                moves.push(Move::Using { hypothesis })?;
                Ok(true)
            }
            Ok(None) => self.joins_inside(reducer, a, b, path, moves, budget),
        }
    }

    // The same of terms that differ, where no hypothesis is used on them: by their contents, or
    // else by their arguments.
    #[cycle(join)]
    fn joins_inside(
        &self,
        reducer: &mut Reducer<'_>,
        a: &Term,
        b: &Term,
        path: &mut Path,
        moves: &mut Vec<Move>,
        budget: &mut u64,
    ) -> Result<bool, RewriteFault>
        ensures exact { Joins (inside_by_content (normaliser_of reducer.old)
            self.now.theory.now.signature self.now.gamma.now self.now.hyps.now.all
            path.old.items a.now b.now budget.old) budget.new
            (plain_moves moves.old.items) (plain_moves moves.new.items) result }
        ensures path { OnOk result (path.new.items ≡ path.old.items) }
        ensures less { budget.new ≤ budget.old }
        ensures same { reducer.new ≡ reducer.old }
    {
        match (a.kind(), b.kind()) {
            (Kind::Variable { .. }, _) => Ok(false),
            (Kind::Application { .. }, Kind::Variable { .. }) => Ok(false),
            (
                Kind::Application { op, sort, args },
                Kind::Application {
                    op: other_op,
                    sort: other_sort,
                    args: others,
                },
            ) => {
                if op != other_op || sort != other_sort {
                    return Ok(false);
                }
                match self.contents_join(reducer, op, a, b, path, moves, budget) {
                    Err(fault) => Err(fault),
                    Ok(true) => Ok(true),
                    Ok(false) => self.all_join(reducer, op, args, others, path, moves, budget),
                }
            }
        }
    }

    // Whether one hypothesis joins what the contents of a and b leave, where the operator stands on
    // both. After false there are no more moves than before.
    fn contents_join(
        &self,
        reducer: &mut Reducer<'_>,
        op: u32,
        a: &Term,
        b: &Term,
        path: &mut Path,
        moves: &mut Vec<Move>,
        budget: &mut u64,
    ) -> Result<bool, RewriteFault>
        ensures exact { Joins (contents_joined (normaliser_of reducer.old)
            self.now.theory.now.signature self.now.gamma.now self.now.hyps.now.all
            op path.old.items a.now b.now budget.old) budget.new
            (plain_moves moves.old.items) (plain_moves moves.new.items) result }
        ensures kept { IfOk result (λ r. OnFalse r (moves.new.items ≡ moves.old.items)) }
        ensures path { OnOk result (path.new.items ≡ path.old.items) }
        ensures less { budget.new ≤ budget.old }
        ensures same { reducer.new ≡ reducer.old }
    {
        let Some(decl) = joining_operator(self.theory, self.gamma, op) else {
            return Ok(false);
        };
        let apart = contents_apart(self.alloc, self.theory, op, a, b)?;
        self.rests_join(reducer, decl, op, a, b, apart, path, moves, budget)
    }

    // The same of contents that are set apart.
    fn rests_join(
        &self,
        reducer: &mut Reducer<'_>,
        decl: &OpDecl,
        op: u32,
        a: &Term,
        b: &Term,
        apart: Apart,
        path: &mut Path,
        moves: &mut Vec<Move>,
        budget: &mut u64,
    ) -> Result<bool, RewriteFault>
        ensures exact { Joins (rests_joined (normaliser_of reducer.old)
            self.now.theory.now.signature self.now.gamma.now self.now.hyps.now.all
            (operator_of decl.now) op path.old.items a.now b.now (plain_apart apart)
            budget.old) budget.new
            (plain_moves moves.old.items) (plain_moves moves.new.items) result }
        ensures kept { IfOk result (λ r. OnFalse r (moves.new.items ≡ moves.old.items)) }
        ensures path { OnOk result (path.new.items ≡ path.old.items) }
        ensures less { budget.new ≤ budget.old }
        ensures same { reducer.new ≡ reducer.old }
    {
        if !leaves_rests(&apart) {
            drop(apart);
            return Ok(false);
        }
        let rests = match rests_of(self.alloc, op, decl.result, apart) {
            Ok(rests) => rests,
            Err(fault) => return Err(rewrite_fault(fault)),
        };
        path.push(0)?;
        let found = self.hyps.first_use(
            self.alloc,
            reducer,
            path.as_slice(),
            &rests.left,
            &rests.right,
            budget,
        );
        let _last = path.pop();
        match found {
            Err(fault) => {
                drop(rests);
                Err(fault)
            }
            Ok(None) => {
                drop(rests);
                Ok(false)
            }
            Ok(Some(one)) => {
                let path = path.as_slice();
                let pushed = push_over_rests(
                    self.alloc,
                    op,
                    decl.result,
                    path,
                    a,
                    b,
                    &rests,
                    one,
                    moves,
                );
                drop(rests);
                pushed?;
                Ok(true)
            }
        }
    }

    // The same for the arguments of an operator.
    #[cycle(join)]
    fn all_join(
        &self,
        reducer: &mut Reducer<'_>,
        op: u32,
        args: &[Term],
        others: &[Term],
        path: &mut Path,
        moves: &mut Vec<Move>,
        budget: &mut u64,
    ) -> Result<bool, RewriteFault>
        requires narrow { length args.now ≤ 65536 }
        ensures exact { Joins (all_joined_by_content (normaliser_of reducer.old)
            self.now.theory.now.signature self.now.gamma.now self.now.hyps.now.all op
            path.old.items 0 (trees_of args.now) (trees_of others.now) budget.old) budget.new
            (plain_moves moves.old.items) (plain_moves moves.new.items) result }
        ensures path { OnOk result (path.new.items ≡ path.old.items) }
        ensures less { budget.new ≤ budget.old }
        ensures same { reducer.new ≡ reducer.old }
    {
        for i in 0..args.len() {
            if i >= others.len() {
                return Ok(false);
            }
            match self.joins_at(
                reducer, op, i as u16, &args[i], &others[i], path, moves, budget,
            ) {
                Err(fault) => return Err(fault),
                Ok(joins) => {
                    if !joins {
                        return Ok(false);
                    }
                }
            }
        }
        Ok(args.len() == others.len())
    }

    // The same for one argument: it is equal, or stands at a place of the set and joins.
    #[cycle(join)]
    fn joins_at(
        &self,
        reducer: &mut Reducer<'_>,
        op: u32,
        i: u16,
        arg: &Term,
        other: &Term,
        path: &mut Path,
        moves: &mut Vec<Move>,
        budget: &mut u64,
    ) -> Result<bool, RewriteFault>
        ensures exact { Joins (beside_alone (is_same arg.now other.now)
            (is_place self.now.gamma.now op i)
            (joined_by_content (normaliser_of reducer.old) self.now.theory.now.signature
            self.now.gamma.now self.now.hyps.now.all (path.old.items ++ i ∷ []) arg.now
            other.now) budget.old)
            budget.new (plain_moves moves.old.items) (plain_moves moves.new.items) result }
        ensures path { OnOk result (path.new.items ≡ path.old.items) }
        ensures less { budget.new ≤ budget.old }
        ensures same { reducer.new ≡ reducer.old }
    {
        if arg.same(other) {
            return Ok(true);
        }
        if !has_place(self.gamma, op, i) {
            return Ok(false);
        }
        path.push(i)?;
        let joins = self.joins(reducer, arg, other, path, moves, budget);
        let _last = path.pop();
        joins
    }
}
