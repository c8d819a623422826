//! Derivatives by the operator directly above the hole.
ghost use Rattle.std.specs.Prelude.{◌≡◌, ◌+◌, ◌++◌, ◌<◌, ◌^◌, ◌==◌, ◌↔◌, ℕ, List, [], ◌∷◌};
ghost use Rattle.std.specs.Prelude.{OnOk, IfOk, IsTrue, if◌then◌else◌};
ghost use Rattle.circ_term.specs.Tree.{trees_of, depth_of, depths_of};
ghost use Rattle.circ_needs.specs.Observing.{looks_at, Adds, IsFound, IsRow, AreFound, AreFoundTo};
ghost use Rattle.circ_needs.specs.Observing.{IsHole, IsArgFound, AreArgsFound};

use circ_term::{Kind, Term};
use circ_theory::Theory;
use indexmap::IndexMap;
use std::alloc::{AllocError, Global};
use std::marker::Model;

// A derivative, and how far its hole is below its root.
#[derive(Clone, Copy)]
pub(crate) struct Look {
    pub(crate) number: u32,
    pub(crate) steps: usize,
}

/// The derivatives of a theory by the operator directly above the hole. Contracts see the theory.
#[derive(Drop)]
pub struct Observers<'a> {
    theory: &'a Theory,
    looks: IndexMap<u32, Vec<Look>>,
}

impl<'a> Model for Observers<'a> {
    ghost use Rattle.circ_theory.specs.Theory.{Theory};
    ghost use Rattle.circ_theory.specs.Code.{theory_code};

    ghost Value = { Theory };

    ghost coded = { theory_code };

    ghost use Rattle.circ_needs.specs.Observing.{AreFound};

    ghost view = { λ a. a.theory.now };

    ghost invariant = { λ a. AreFound a.theory.now.derivatives a.looks.entries };
}

impl<'a> Observers<'a> {
    /// Those of a theory.
    pub fn new(alloc: Global, theory: &'a Theory) -> Result<Observers<'a>, AllocError>
        ensures { IfOk result (λ o. o ≡ theory.now) }
    {
        let looks = looks_of(alloc, theory)?;
        Ok(Observers { theory, looks })
    }

    // The theory.
    pub(crate) fn theory(&self) -> &Theory
        ensures { result.now ≡ self.now }
    {
        self.theory
    }

    // Those with this operator directly above the hole.
    pub(crate) fn above(&self, op: u32) -> &[Look]
        ensures { IsRow self.now.derivatives op result.now }
    {
        match self.looks.get(&op) {
            Some(looks) => looks.as_slice(),
            None => &[],
        }
    }
}

fn looks_of(alloc: Global, theory: &Theory) -> Result<IndexMap<u32, Vec<Look>>, AllocError>
    ensures { IfOk result (λ m. AreFound theory.now.derivatives m.entries) }
{
    let mut looks = IndexMap::new(alloc);
    for number in 0..theory.derivative_count() {
        look_at(alloc, theory, number, &mut looks)?;
    }
    Ok(looks)
}

// Adds the derivative of a number.
fn look_at(
    alloc: Global,
    theory: &Theory,
    number: u32,
    looks: &mut IndexMap<u32, Vec<Look>>,
) -> Result<(), AllocError>
    ensures { OnOk result
        (AreFoundTo theory.now.derivatives number looks.old.entries
        → AreFoundTo theory.now.derivatives (number + 1) looks.new.entries) }
{
    match theory.derivative(number) {
        Some(body) => {
            body.known();
            gather(alloc, body, Look { number, steps: 1 }, looks)
        }
        None => Ok(()),
    }
}

// Adds the derivative at each operator that stands directly above a variable 0 in the subterm. The
// look says how far the arguments of the subterm are below the body's root.
#[cycle(gather)]
fn gather(
    alloc: Global,
    subterm: &Term,
    look: Look,
    looks: &mut IndexMap<u32, Vec<Look>>,
) -> Result<(), AllocError>
    requires { look.steps + depth_of subterm.now < 2 ^ 64 }
    ensures adds { OnOk result (Adds looks.old.entries looks.new.entries) }
    ensures found { OnOk result (IsFound look looks.new.entries subterm.now) }
{
    match subterm.kind() {
        Kind::Variable { .. } => Ok(()),
        Kind::Application { op, args, .. } => gather_all(alloc, op, args, look, looks),
    }
}

// The same below an operator with these arguments, to which the look leads.
#[cycle(gather)]
fn gather_all(
    alloc: Global,
    op: u32,
    args: &[Term],
    look: Look,
    looks: &mut IndexMap<u32, Vec<Look>>,
) -> Result<(), AllocError>
    requires { look.steps + depths_of (trees_of args.now) + 1 < 2 ^ 64 }
    ensures adds { OnOk result (Adds looks.old.entries looks.new.entries) }
    ensures found { OnOk result (AreArgsFound op look looks.new.entries args.now) }
{
    for arg in args {
        gather_arg(alloc, op, arg, look, looks)?;
    }
    Ok(())
}

#[cycle(gather)]
fn gather_arg(
    alloc: Global,
    op: u32,
    arg: &Term,
    look: Look,
    looks: &mut IndexMap<u32, Vec<Look>>,
) -> Result<(), AllocError>
    requires { look.steps + depth_of arg.now + 1 < 2 ^ 64 }
    ensures adds { OnOk result (Adds looks.old.entries looks.new.entries) }
    ensures found { OnOk result (IsArgFound op look looks.new.entries arg.now) }
{
    if is_hole(arg) {
        return note(alloc, op, look, looks);
    }
    let Look { number, steps } = look;
    let deeper = Look {
        number,
        steps: steps + 1,
    };
    gather(alloc, arg, deeper, looks)
}

// Whether the term is a variable 0.
fn is_hole(term: &Term) -> bool
    ensures { IsTrue result ↔ IsHole term.now }
{
    match term.kind() {
        Kind::Variable { number, .. } => number == 0,
        Kind::Application { .. } => false,
    }
}

// Adds a look under an operator.
fn note(
    alloc: Global,
    op: u32,
    look: Look,
    looks: &mut IndexMap<u32, Vec<Look>>,
) -> Result<(), AllocError>
    ensures { OnOk result ((f : ℕ) → looks_at looks.new.entries f ≡
        (if f == op then looks_at looks.old.entries f ++ look ∷ []
        else looks_at looks.old.entries f)) }
{
    if let Some(row) = looks.get_mut(&op) {
        row.push(look)?;
        return Ok(());
    }
    let row = vec![in alloc; look]?;
    looks.insert(op, row)?;
    Ok(())
}
