//! The walk through a term, from the root to the occurrences of the variable.
ghost use Rattle.std.specs.Prelude.{◌≡◌, ◌↔◌, ◌+◌, ◌≤◌, ◌^◌, ◌++◌, ℕ, List, [], ◌∷◌};
ghost use Rattle.std.specs.Prelude.{Some, IfOk, IsTrue, length, max, min, take};
ghost use Rattle.std.specs.Option.{option_map_or};
ghost use Rattle.circ_term.specs.Tree.{Var, App, at, depth_of, depths_of, trees_of};
ghost use Rattle.circ_term.specs.declared.TheConstants.{MOST_DEPTH};
ghost use Rattle.circ_needs.specs.Owing.{IsParent, Owes, OwesAll, OwesAt, OwesBy, OwesThere};
ghost use Rattle.circ_needs.specs.Owing.{FitsFront, AreMet};
ghost use Rattle.circ_needs.specs.Needs.{NoneLost};

use crate::needs::Needs;
use crate::observers::{Look, Observers};
use circ_special::{fits, has_hole, is_variable};
use circ_term::{Kind, Term};
use std::alloc::AllocError;

// The most steps of a path and one: the greatest depth of a term.
const ROOM: usize = 1_000;

// Room for each path in a term, which has fewer steps than the term is deep.
pub(crate) fn room() -> [u16; ROOM]
    ensures { length result ≡ MOST_DEPTH }
{
    [0u16; ROOM]
}

// A variable in a term, and the derivatives that can observe it.
#[derive(Clone, Copy)]
pub(crate) struct Asked<'a> {
    pub(crate) observers: &'a Observers<'a>,
    pub(crate) root: &'a Term,
    pub(crate) id: u32,
    pub(crate) sort: u32,
}

impl Asked<'_> {
    // What the occurrences in the subterm at the path, which has this length, need. The answer is
    // how many first steps of the path must be special.
    #[cycle(below)]
    pub(crate) fn below(
        &self,
        here: &Term,
        path: &mut [u16],
        len: usize,
        needs: &mut Needs,
    ) -> Result<usize, AllocError>
        requires room { len + depth_of here.now ≤ length path.old }
        requires there { at self.now.root.now (take len path.old) ≡ Some here.now }
        requires other { here.now ≡ Var self.now.id self.now.sort → ⊥ }
        ensures exact { IfOk result
            (Owes self.now (take len path.old) needs.old needs.new here.now) }
        ensures kept { NoneLost needs.old needs.new }
        ensures same { take len path.new ≡ take len path.old }
        ensures long { length path.new ≡ length path.old }
    {
        match here.kind() {
            Kind::Variable { .. } => Ok(0),
            Kind::Application { op, args, .. } => {
                self.all_below(here, op, args, path, len, needs)
            }
        }
    }

    // The same for the arguments of the subterm.
    #[cycle(below)]
    fn all_below(
        &self,
        here: &Term,
        op: u32,
        args: &[Term],
        path: &mut [u16],
        len: usize,
        needs: &mut Needs,
    ) -> Result<usize, AllocError>
        requires room { len + depths_of (trees_of args.now) + 1 ≤ length path.old }
        requires few { length args.now ≤ 2 ^ 16 }
        requires there { at self.now.root.now (take len path.old) ≡ Some here.now }
        requires here { (s : ℕ) × (here.now ≡ App op s (trees_of args.now)) }
        ensures exact { IfOk result
            (OwesAll self.now (take len path.old) needs.old needs.new args.now) }
        ensures kept { NoneLost needs.old needs.new }
        ensures same { take len path.new ≡ take len path.old }
        ensures long { length path.new ≡ length path.old }
    {
        let mut owed = 0;
        for i in 0..args.len() {
            path[len] = i as u16;
            let steps = self.arg_below(here, op, &args[i], path, len, needs)?;
            let steps = needs.pass(op, i as u16, steps, len)?;
            owed = greater(owed, steps);
        }
        Ok(owed)
    }

    // The same for one argument. The path leads to it by one step more.
    #[cycle(below)]
    fn arg_below(
        &self,
        here: &Term,
        op: u32,
        arg: &Term,
        path: &mut [u16],
        len: usize,
        needs: &mut Needs,
    ) -> Result<usize, AllocError>
        requires room { len + 1 + depth_of arg.now ≤ length path.old }
        requires there { at self.now.root.now (take (len + 1) path.old) ≡ Some arg.now }
        requires parent { IsParent self.now (take (len + 1) path.old) here.now op }
        ensures exact { IfOk result
            (Owes self.now (take (len + 1) path.old) needs.old needs.new arg.now) }
        ensures kept { NoneLost needs.old needs.new }
        ensures same { take (len + 1) path.new ≡ take (len + 1) path.old }
        ensures long { length path.new ≡ length path.old }
    {
        if is_variable(arg, self.id, self.sort) {
            return Ok(self.owed(here, op, &path[..len + 1]));
        }
        self.below(arg, path, len + 1, needs)
    }

    // How many first steps of the path must be special so that the occurrence there is guarded. It
    // stands directly below this operator.
    fn owed(&self, here: &Term, op: u32, path: &[u16]) -> usize
        requires { IsParent self.now path.now here.now op }
        ensures { OwesAt self.now path.now result }
    {
        self.observers.theory().known();
        self.owed_by_all(here, path, self.observers.above(op))
    }

    // The same by all of these looks.
    fn owed_by_all(&self, here: &Term, path: &[u16], row: &[Look]) -> usize
        requires { (op : ℕ) × IsParent self.now path.now here.now op }
        ensures { AreMet self.now path.now row.now (length row.now) result }
    {
        let mut owed = path.len();
        for look in row {
            owed = lesser(owed, self.owed_by(here, path, *look));
        }
        owed
    }

    // The same by an instance of one derivative. None where the occurrence is the hole of none.
    fn owed_by(&self, here: &Term, path: &[u16], look: Look) -> Option<usize>
        requires { (op : ℕ) × IsParent self.now path.now here.now op }
        ensures { OwesBy self.now path.now look result }
    {
        let theory = self.observers.theory();
        theory.known();
        let Some(body) = theory.derivative(look.number) else {
            return None;
        };
        if theory.hole_sort(look.number) != Some(self.sort) {
            return None;
        }
        if look.steps > path.len() {
            return None;
        }
        let cut = path.len() - look.steps;
        self.owed_there(here, &path[..cut], &path[cut..], body)
    }

    // The same where an instance of the body stands at the front of the path, and its hole at the
    // rest.
    fn owed_there(&self, here: &Term, front: &[u16], rest: &[u16], body: &Term) -> Option<usize>
        requires { (op : ℕ) × IsParent self.now (front.now ++ rest.now) here.now op }
        ensures { OwesThere self.now front.now rest.now body.now result }
    {
        if !has_hole(body, rest, self.sort) {
            return None;
        }
        if !self.fits_front(here, front, rest, body) {
            return None;
        }
        if self.observers.theory().is_hidden(body.sort()) {
            Some(front.len())
        } else {
            Some(0)
        }
    }

    // Whether what stands at the front of the path fits the body. Where one step is left it is
    // directly above.
    fn fits_front(&self, here: &Term, front: &[u16], rest: &[u16], body: &Term) -> bool
        requires { (op : ℕ) × IsParent self.now (front.now ++ rest.now) here.now op }
        ensures { IsTrue result ↔ FitsFront self.now front.now body.now }
    {
        if rest.len() == 1 {
            return fits(body, here, self.id, self.sort);
        }
        match self.root.at(front) {
            Some(subterm) => fits(body, subterm, self.id, self.sort),
            None => false,
        }
    }
}

fn lesser(owed: usize, other: Option<usize>) -> usize
    ensures { result ≡ option_map_or (λ n. min owed n) other owed }
{
    match other {
        Some(steps) => owed.min(steps),
        None => owed,
    }
}

fn greater(owed: usize, steps: usize) -> usize
    ensures { result ≡ max owed steps }
{
    owed.max(steps)
}
