//! Terms that are built: an argument put in, and a replacement made.
ghost use Rattle.std.specs.Prelude.{◌≡◌, ◌≤◌, ◌<◌, ◌+◌, ◌-◌, ◌^◌, ℕ, List, [], ◌∷◌, Option, Some};
ghost use Rattle.std.specs.Prelude.{length, slice_set, OnOk};
ghost use Rattle.std.specs.List.{slice_get};
ghost use Rattle.circ_term.specs.Tree.{Tree, args_of, replaced, size_of};
ghost use Rattle.circ_term.specs.Limits.{IsWithinLimits};
ghost use Rattle.circ_term.specs.Growing.{Grows};
ghost use Rattle.circ_rewrite.specs.Plain.{plain_trace, plain_passes, rewrite_fault};
ghost use Rattle.circ_rewrite.specs.Replacement.{Replacement, placed, traced};
ghost use Rattle.circ_nodes.specs.Built.{AreBuilt};
ghost use Rattle.circ_nodes.specs.Named.{IsNamed, Interns, tree_at};
ghost use Rattle.circ_due.specs.Chosen.{IsReady, IsChosen};
ghost use Rattle.circ_conditional_norm.specs.Work.{Work, Made};
ghost use Rattle.circ_tries.specs.Trying.{BuildsSides, IsFound, with_passes};
ghost use Rattle.circ_term.specs.Subst.{substitution_of};
ghost use Rattle.circ_theory.specs.Pairs.{plain_pair};
ghost use Rattle.circ_due.specs.Bounds.{bounds_in, AreBound};
ghost use Rattle.circ_conditional_norm.specs.Within.{is_past};
ghost use Rattle.circ_tries.specs.Turning.{IsInside, IsAtRoot, IsFallingDue, IsPut, IsOutgrown};
ghost use Rattle.circ_tries.specs.Turning.{MakesAt, Writes, plain_room};

use crate::parts::{Course, Found, Room, Stop, Turn};
use circ_due::{Bound, Means, instance};
use circ_nodes::{Nodes, Numbers, Shape, Terms};
use circ_rewrite::{Pass, RewriteFault, Trace};
use circ_term::TermFault;
use circ_theory::Pair;
use std::alloc::{AllocError, Global};

// The argument of a term at a place.
pub(crate) fn arg_at(nodes: &Nodes, number: u32, place: usize) -> u32
    requires there { number < length nodes.now }
    requires place { (t : Tree) → IsNamed nodes.now number t → place < length (args_of t) }
    ensures few { place < 2 ^ 16 }
    ensures arg { (t : Tree) → IsNamed nodes.now number t → (a : Tree)
        × (slice_get (args_of t) place ≡ Some a) × IsNamed nodes.now result a }
{
    match nodes.shape(number) {
        Shape::Variable { .. } => unreachable!(),
        Shape::Application { args, .. } => args[place],
    }
}

// The bounds that a term leaves to one of its arguments.
pub(crate) fn room_for(nodes: &Nodes, number: u32, arg: u32, room: Room) -> Room
    requires inside { IsInside nodes.now room number }
    requires arg { arg < length nodes.now }
    requires deep { 0 < room.deep }
    ensures { (t a : Tree) → IsNamed nodes.now number t → IsNamed nodes.now arg a
        → result ≡ record { big = room.big - size_of t + size_of a; deep = room.deep - 1 } }
{
    nodes.known_at(number);
    nodes.known_at(arg);
    Room {
        big: room.big - nodes.size(number) + nodes.size(arg),
        deep: room.deep - 1,
    }
}

// The number of the term with another one put in at an argument place.
pub(crate) fn put(
    alloc: Global,
    nodes: &mut Nodes,
    number: u32,
    place: usize,
    new: u32,
) -> Result<u32, TermFault>
    requires there { number < length nodes.old }
    requires new { new < length nodes.old }
    requires place { (t : Tree) → IsNamed nodes.old number t → place < length (args_of t) }
    ensures grows { Grows nodes.old nodes.new }
    ensures interns { (t u v : Tree) → IsNamed nodes.old number t → IsNamed nodes.old new u
        → replaced t (place ∷ []) u ≡ Some v → Interns nodes.new result v }
{
    match nodes.shape(number) {
        Shape::Variable { .. } => unreachable!(),
        Shape::Application { op, sort, args } => {
            let mut args = Numbers::from_slice(alloc, args)?;
            set(&mut args, place, new);
            nodes.app(op, sort, args)
        }
    }
}

fn set(args: &mut Numbers, place: usize, new: u32)
    requires { place < length args.old.items }
    ensures { args.new.items ≡ slice_set args.old.items place new }
{
    args[place] = new;
}

// The number of the term with the normal form of an argument in its place.
pub(crate) fn put_value(
    alloc: Global,
    nodes: &mut Nodes,
    number: u32,
    place: usize,
    arg: u32,
    value: u32,
) -> Result<u32, Stop>
    requires there { number < length nodes.old }
    requires value { value < length nodes.old }
    requires place { (t : Tree) → IsNamed nodes.old number t → place < length (args_of t) }
    ensures grows { Grows nodes.old nodes.new }
    ensures puts { (t a v u : Tree) → IsNamed nodes.old number t
        → slice_get (args_of t) place ≡ Some a → IsNamed nodes.old arg a
        → IsNamed nodes.old value v → replaced t (place ∷ []) v ≡ Some u → IsWithinLimits u
        → IsPut nodes.new u result }
{
    if value == arg {
        return Ok(number);
    }
    match put(alloc, nodes, number, place, value) {
        Ok(whole) => Ok(whole),
        Err(fault) => Err(Stop::Fault(rewrite_fault(fault))),
    }
}

// Why the work stops where an argument outgrows its bounds by the term of a number.
pub(crate) fn outgrow(alloc: Global, nodes: &mut Nodes, number: u32, place: usize, new: u32) -> Stop
    requires there { number < length nodes.old }
    requires new { new < length nodes.old }
    requires place { (t : Tree) → IsNamed nodes.old number t → place < length (args_of t) }
    ensures grows { Grows nodes.old nodes.new }
    ensures outgrows { (t u v : Tree) → IsNamed nodes.old number t → IsNamed nodes.old new u
        → replaced t (place ∷ []) u ≡ Some v → IsOutgrown nodes.new v result }
{
    match put(alloc, nodes, number, place, new) {
        Ok(whole) => Stop::Outgrows(whole),
        Err(fault) => Stop::Fault(rewrite_fault(fault)),
    }
}

// Makes a replacement that was found at the root of a term, and writes its trace.
pub(crate) fn make(
    means: &Means<'_>,
    nodes: &mut Nodes,
    terms: &mut Terms,
    course: &mut Course,
    number: u32,
    found: Found,
    room: Room,
    budget: &mut u64,
) -> Result<u32, Stop>
    requires ready { IsReady nodes.old means.now }
    requires there { number < length nodes.old }
    requires found { (t : Tree) × (d : Replacement) × IsNamed nodes.old number t
        × IsFound nodes.old means.now t found d }
    requires built { AreBuilt nodes.old terms.old }
    ensures built { AreBuilt nodes.new terms.new }
    ensures grows { Grows nodes.old nodes.new }
    ensures less { budget.new ≤ budget.old }
    ensures makes { (due : ℕ → Tree → Work (Option Replacement)) → IsFallingDue due
        → (from : List ℕ) (t : Tree) (d : Replacement) (k : ℕ) → IsNamed nodes.old number t
        → IsFound nodes.old means.now t found d → IsAtRoot due from t
        → due k t ≡ Made (Some d) budget.old
        → MakesAt due room nodes.new course.old.path.items course.old course.new from t k
        budget.new result }
{
    if *budget == 0 {
        drop(found);
        return Err(Stop::Fault(RewriteFault::Spent));
    }
    let new = match means.build(nodes, number, &found.choice) {
        Ok(new) => new,
        Err(fault) => {
            drop(found);
            return Err(Stop::Fault(rewrite_fault(fault)));
        }
    };
    nodes.known_at(new);
    if is_past(nodes, new, room) {
        drop(found);
        return Err(Stop::Outgrows(new));
    }
    write(means, nodes, terms, course, found, new)?;
    *budget -= 1;
    Ok(new)
}

// Writes the trace of a replacement that was found, by the new term's number.
fn write(
    means: &Means<'_>,
    nodes: &Nodes,
    terms: &mut Terms,
    course: &mut Course,
    found: Found,
    new: u32,
) -> Result<(), AllocError>
    requires ready { IsReady nodes.now means.now }
    requires there { new < length nodes.now }
    requires chosen { IsChosen nodes.now means.now found.choice }
    requires built { AreBuilt nodes.now terms.old }
    ensures built { AreBuilt nodes.now terms.new }
    ensures writes { (t : Tree) (d : Replacement) → IsFound nodes.now means.now t found d
        → IsNamed nodes.now new d.new → OnOk result (Writes course.old.path.items course.old
        course.new (traced (placed [] d) ∷ [])) }
{
    let Found { choice, conds } = found;
    let trace = means.trace(nodes, terms, &choice, course.path.as_slice(), new);
    drop(choice);
    match trace {
        Err(fault) => {
            drop(conds);
            Err(fault)
        }
        Ok(trace) => {
            course.traces.push(passing(trace, conds))?;
            Ok(())
        }
    }
}

// The numbers of both sides of a condition, whose variables are given these terms.
pub(crate) fn build_sides(
    alloc: Global,
    nodes: &mut Nodes,
    given: &[Bound],
    cond: &Pair,
) -> Result<(u32, u32), RewriteFault>
    requires bound { AreBound nodes.old given.now }
    ensures grows { Grows nodes.old nodes.new }
    ensures builds { BuildsSides nodes.new (substitution_of (bounds_in nodes.old given.now))
        (plain_pair cond.now) result }
{
    let left = match instance(alloc, nodes, given, &cond.left) {
        Ok(left) => left,
        Err(fault) => return Err(rewrite_fault(fault)),
    };
    match instance(alloc, nodes, given, &cond.right) {
        Ok(right) => Ok((left, right)),
        Err(fault) => Err(rewrite_fault(fault)),
    }
}

// Whether a term is past the bounds.
fn is_past(nodes: &Nodes, number: u32, room: Room) -> bool
    requires { number < length nodes.now }
    ensures { result ≡ is_past (plain_room room) (tree_at nodes.now number) }
{
    nodes.size(number) > room.big || nodes.depth(number) > room.deep
}

// The trace with these passes for the conditions of its rule.
fn passing(trace: Trace, conds: Vec<Pass>) -> Trace
    ensures { plain_trace result ≡ record (plain_trace trace) {
      reason = with_passes (plain_passes conds.items) (plain_trace trace).reason;
    } }
{
    match trace {
        Trace::Rewrite {
            name,
            path,
            terms,
            ..
        } => Trace::Rewrite {
            name,
            path,
            terms,
            conds,
        },
        other => other,
    }
}

pub(crate) fn rewrite_fault(fault: TermFault) -> RewriteFault
    ensures { result ≡ rewrite_fault fault }
{
    match fault {
        TermFault::TooBig { nodes } => RewriteFault::TooBig { nodes },
        TermFault::TooDeep { depth } => RewriteFault::TooDeep { depth },
        TermFault::Memory => RewriteFault::Memory,
    }
}
