//! Normalising interned terms, each by itself: its arguments from the left, then the term, whose
//! rules are tried.
ghost use Rattle.std.specs.Prelude.{◌≡◌, ◌<◌, ◌+◌, ℕ, List, [], length, map};
ghost use Rattle.std.specs.Prelude.{Option, Some, None};
ghost use Rattle.std.specs.List.{slice_get};
ghost use Rattle.circ_term.specs.Tree.{Tree, args_of};
ghost use Rattle.circ_term.specs.Subst.{substitution_of};
ghost use Rattle.circ_rewrite.specs.Plain.{plain_passes};
ghost use Rattle.circ_rewrite.specs.declared.parts.Rule.{Rule};
ghost use Rattle.circ_nodes.specs.Named.{IsNamed};
ghost use Rattle.circ_theory.specs.Pairs.{plain_pair};
ghost use Rattle.circ_due.specs.Bounds.{bounds_in, AreBound};
ghost use Rattle.circ_conditional_norm.specs.Tries.{before_rules, conditions_hold, rules_tried, tried};
ghost use Rattle.circ_tries.specs.Store.{IsReadyToWork, HasWorked};
ghost use Rattle.circ_tries.specs.Turning.{IsInside, IsAtRoot, Ends, TurnsAt, ReadiesArgs, PassesArg};
ghost use Rattle.circ_tries.specs.Trying.{due_in, norm_by, conditions_by, TestsCondition};
ghost use Rattle.circ_tries.specs.Trying.{FindsDue, FindsPasses, AnswersNumber, IsPassOf};
ghost use Rattle.circ_tries.specs.declared.parts.Stop.TheVariants.{Fault, Outgrows};

use crate::making::{arg_at, build_sides, make, outgrow, put_value, room_for};
use crate::parts::{Course, Found, MOST_TRIES, Room, Stop, Turn};
use crate::store::{Store, keep_still};
use circ_due::{Bound, Choice, Means};
use circ_nodes::Shape;
use circ_rewrite::{Pass, RewriteFault, Trace};
use circ_term::{MOST_DEPTH, MOST_NODES};
use circ_theory::Pair;

// The number of the normal form of a whole term, with the replacements that lead to it.
#[cycle(settle)]
pub(crate) fn settle_whole(
    means: &Means<'_>,
    store: &mut Store,
    number: u32,
    tries: u32,
    budget: &mut u64,
) -> Result<(u32, Vec<Trace>), RewriteFault>
    requires ready { IsReadyToWork means.now store.old tries budget.old }
    requires there { number < length store.old.nodes }
    ensures worked { HasWorked means.now store.old store.new budget.old budget.new }
    ensures exact { (t : Tree) → IsNamed store.old.nodes number t
        → AnswersNumber (λ traces. traces.items) store.new.nodes budget.new
        (norm_by means.now tries budget.old t) result }
{
    store.nodes.known_at(number);
    let room = Room {
        big: MOST_NODES,
        deep: MOST_DEPTH,
    };
    let mut course = Course::new(store.alloc);
    match settle(means, store, &mut course, number, room, tries, budget) {
        Ok(value) => Ok((value, course.traces)),
        Err(stop) => {
            drop(course);
            Err(whole_fault(stop))
        }
    }
}

// Why a whole term has no normal form: it does not outgrow bounds.
fn whole_fault(stop: Stop) -> RewriteFault
    requires { (number : ℕ) → stop ≡ Outgrows number → ⊥ }
    ensures { stop ≡ Fault result }
{
    match stop {
        Stop::Fault(fault) => fault,
        Stop::Outgrows(_) => unreachable!(),
    }
}

// The number of the normal form of a term, by replacements that make no term past the bounds.
#[cycle(settle)]
fn settle(
    means: &Means<'_>,
    store: &mut Store,
    course: &mut Course,
    number: u32,
    room: Room,
    tries: u32,
    budget: &mut u64,
) -> Result<u32, Stop>
    requires ready { IsReadyToWork means.now store.old tries budget.old }
    requires inside { IsInside store.old.nodes room number }
    ensures worked { HasWorked means.now store.old store.new budget.old budget.new }
    ensures ends { (t : Tree) → IsNamed store.old.nodes number t
        → Ends (due_in means.now tries) room store.new.nodes course.old.path.items
        course.old course.new t budget.old budget.new result }
{
    let mut here = number;
    loop {
        match turn(means, store, course, here, room, tries, budget) {
            Err(stop) => return Err(stop),
            Ok(Turn::Settled(value)) => return Ok(value),
            Ok(Turn::Stepped(next)) => here = next,
        }
    }
}

// The normal form of a term, where it is known, or one replacement at the root.
#[cycle(settle)]
fn turn(
    means: &Means<'_>,
    store: &mut Store,
    course: &mut Course,
    here: u32,
    room: Room,
    tries: u32,
    budget: &mut u64,
) -> Result<Turn, Stop>
    requires ready { IsReadyToWork means.now store.old tries budget.old }
    requires inside { IsInside store.old.nodes room here }
    ensures worked { HasWorked means.now store.old store.new budget.old budget.new }
    ensures turns { (t : Tree) → IsNamed store.old.nodes here t
        → TurnsAt (due_in means.now tries) room store.new.nodes course.old.path.items
        course.old course.new [] t budget.old budget.new result }
{
    if store.is_still(here) {
        return Ok(Turn::Settled(here));
    }
    match settle_args(means, store, course, here, room, tries, budget) {
        Ok(ready) => advance(means, store, course, ready, room, tries, budget),
        Err(stop) => Err(stop),
    }
}

// Normalises the arguments of a term, from the left.
#[cycle(settle)]
fn settle_args(
    means: &Means<'_>,
    store: &mut Store,
    course: &mut Course,
    number: u32,
    room: Room,
    tries: u32,
    budget: &mut u64,
) -> Result<u32, Stop>
    requires ready { IsReadyToWork means.now store.old tries budget.old }
    requires inside { IsInside store.old.nodes room number }
    ensures worked { HasWorked means.now store.old store.new budget.old budget.new }
    ensures readies { (t : Tree) → IsNamed store.old.nodes number t
        → ReadiesArgs (due_in means.now tries) room store.new.nodes course.old.path.items
        course.old course.new t budget.old budget.new result }
{
    let len = match store.nodes.shape(number) {
        Shape::Variable { .. } => return Ok(number),
        Shape::Application { args, .. } => args.len(),
    };
    let mut here = number;
    for place in 0..len {
        match settle_arg(means, store, course, here, place, room, tries, budget) {
            Ok(next) => here = next,
            Err(stop) => return Err(stop),
        }
    }
    Ok(here)
}

// Normalises the argument at a place, when those before it are normal.
#[cycle(settle)]
fn settle_arg(
    means: &Means<'_>,
    store: &mut Store,
    course: &mut Course,
    here: u32,
    place: usize,
    room: Room,
    tries: u32,
    budget: &mut u64,
) -> Result<u32, Stop>
    requires ready { IsReadyToWork means.now store.old tries budget.old }
    requires inside { IsInside store.old.nodes room here }
    requires place { (t : Tree) → IsNamed store.old.nodes here t → place < length (args_of t) }
    ensures worked { HasWorked means.now store.old store.new budget.old budget.new }
    ensures passes { (t : Tree) → IsNamed store.old.nodes here t
        → PassesArg (due_in means.now tries) room store.new.nodes course.old.path.items
        course.old course.new t place budget.old budget.new result }
{
    let arg = arg_at(&store.nodes, here, place);
    if store.is_still(arg) {
        return Ok(here);
    }
    let left = room_for(&store.nodes, here, arg, room);
    let depth = course.path.len();
    course.path.push(place as u16)?;
    let settled = settle(means, store, course, arg, left, tries, budget);
    course.path.truncate(depth);
    match settled {
        Ok(value) => put_value(store.alloc, &mut store.nodes, here, place, arg, value),
        Err(Stop::Outgrows(new)) => {
            Err(outgrow(store.alloc, &mut store.nodes, here, place, new))
        },
        Err(Stop::Fault(fault)) => Err(Stop::Fault(fault)),
    }
}

// Makes the replacement that is due at the root of a term with normal arguments.
#[cycle(settle)]
fn advance(
    means: &Means<'_>,
    store: &mut Store,
    course: &mut Course,
    number: u32,
    room: Room,
    tries: u32,
    budget: &mut u64,
) -> Result<Turn, Stop>
    requires ready { IsReadyToWork means.now store.old tries budget.old }
    requires inside { IsInside store.old.nodes room number }
    ensures worked { HasWorked means.now store.old store.new budget.old budget.new }
    ensures turns { (t : Tree) (from : List ℕ) → IsNamed store.old.nodes number t
        → IsAtRoot (due_in means.now tries) from t
        → TurnsAt (due_in means.now tries) room store.new.nodes course.old.path.items
        course.old course.new from t budget.old budget.new result }
{
    match find_due(means, store, number, tries, budget) {
        Err(fault) => Err(Stop::Fault(fault)),
        Ok(None) => Ok(Turn::Settled(number)),
        Ok(Some(found)) => {
            let nodes = &mut store.nodes;
            match make(
                means,
                nodes,
                &mut store.terms,
                course,
                number,
                found,
                room,
                budget,
            ) {
                Ok(next) => Ok(Turn::Stepped(next)),
                Err(stop) => Err(stop),
            }
        }
    }
}

// What is due at the root of a term.
#[cycle(settle)]
fn find_due(
    means: &Means<'_>,
    store: &mut Store,
    number: u32,
    tries: u32,
    budget: &mut u64,
) -> Result<Option<Found>, RewriteFault>
    requires ready { IsReadyToWork means.now store.old tries budget.old }
    requires there { number < length store.old.nodes }
    ensures worked { HasWorked means.now store.old store.new budget.old budget.new }
    ensures finds { (t : Tree) → IsNamed store.old.nodes number t
        → FindsDue store.new.nodes means.now t budget.new
        (due_in means.now tries budget.old t) result }
{
    if let Some(choice) = means.choose_before_rules(&store.nodes, number) {
        return Ok(Some(Found {
            choice,
            conds: Vec::new(store.alloc),
        }));
    }
    try_rules(means, store, number, tries, budget)
}

// The first rule that applies, of those whose left sides match.
#[cycle(settle)]
fn try_rules(
    means: &Means<'_>,
    store: &mut Store,
    number: u32,
    tries: u32,
    budget: &mut u64,
) -> Result<Option<Found>, RewriteFault>
    requires ready { IsReadyToWork means.now store.old tries budget.old }
    requires there { number < length store.old.nodes }
    requires none { (t : Tree) → IsNamed store.old.nodes number t
        → before_rules means.now.theory.now.signature means.now.assumptions t ≡ None }
    ensures worked { HasWorked means.now store.old store.new budget.old budget.new }
    ensures finds { (t : Tree) → IsNamed store.old.nodes number t
        → FindsDue store.new.nodes means.now t budget.new
        (rules_tried (conditions_by means.now tries) means.now.rules.items budget.old t) result }
{
    let mut from = 0;
    loop {
        match means.rule_from(&store.nodes, number, from)? {
            None => {
                keep_still(store, number, from == 0)?;
                return Ok(None);
            }
            Some((rule, given)) => {
                match try_rule(means, store, rule, given.as_slice(), tries, budget) {
                    Err(fault) => {
                        drop(given);
                        return Err(fault);
                    }
                    Ok(None) => {
                        drop(given);
                        from = rule + 1;
                    }
                    Ok(Some(conds)) => {
                        let choice = Choice::Ruled { rule, given };
                        return Ok(Some(Found { choice, conds }));
                    }
                }
            }
        }
    }
}

// Tries a rule whose left side matches.
#[cycle(settle)]
fn try_rule(
    means: &Means<'_>,
    store: &mut Store,
    rule: u32,
    given: &[Bound],
    tries: u32,
    budget: &mut u64,
) -> Result<Option<Vec<Pass>>, RewriteFault>
    requires ready { IsReadyToWork means.now store.old tries budget.old }
    requires rule { rule < length means.now.rules.items }
    requires bound { AreBound store.old.nodes given.now }
    ensures worked { HasWorked means.now store.old store.new budget.old budget.new }
    ensures finds { (r : Rule) → slice_get means.now.rules.items rule ≡ Some r
        → FindsPasses (λ passes. plain_passes passes.items) budget.new
        (tried (conditions_by means.now tries)
        (substitution_of (bounds_in store.old.nodes given.now)) r.conds budget.old) result }
{
    let conds = means.rules[rule as usize].conds.as_slice();
    if conds.is_empty() {
        return Ok(Some(Vec::new(store.alloc)));
    }
    if tries == MOST_TRIES {
        return Ok(None);
    }
    if *budget == 0 {
        return Err(RewriteFault::Spent);
    }
    *budget -= 1;
    try_conditions(means, store, conds, given, tries + 1, budget)
}

// Whether conditions hold, one after the other.
#[cycle(settle)]
fn try_conditions(
    means: &Means<'_>,
    store: &mut Store,
    conds: &[Pair],
    given: &[Bound],
    tries: u32,
    budget: &mut u64,
) -> Result<Option<Vec<Pass>>, RewriteFault>
    requires ready { IsReadyToWork means.now store.old tries budget.old }
    requires bound { AreBound store.old.nodes given.now }
    ensures worked { HasWorked means.now store.old store.new budget.old budget.new }
    ensures finds { FindsPasses (λ passes. plain_passes passes.items) budget.new
        (conditions_hold (norm_by means.now tries)
        (substitution_of (bounds_in store.old.nodes given.now)) (map plain_pair conds.now)
        budget.old) result }
{
    let mut passes = Vec::new(store.alloc);
    for cond in conds {
        match try_condition(means, store, cond, given, tries, budget) {
            Err(fault) => {
                drop(passes);
                return Err(fault);
            }
            Ok(None) => {
                drop(passes);
                return Ok(None);
            }
            Ok(Some(pass)) => passes.push(pass)?,
        }
    }
    Ok(Some(passes))
}

// Whether both sides of a condition have one normal form. Both are built before either is
// normalised.
#[cycle(settle)]
fn try_condition(
    means: &Means<'_>,
    store: &mut Store,
    cond: &Pair,
    given: &[Bound],
    tries: u32,
    budget: &mut u64,
) -> Result<Option<Pass>, RewriteFault>
    requires ready { IsReadyToWork means.now store.old tries budget.old }
    requires bound { AreBound store.old.nodes given.now }
    ensures worked { HasWorked means.now store.old store.new budget.old budget.new }
    ensures tests { TestsCondition (norm_by means.now tries)
        (substitution_of (bounds_in store.old.nodes given.now)) (plain_pair cond.now)
        budget.old budget.new result }
{
    let (left, right) = match build_sides(store.alloc, &mut store.nodes, given, cond) {
        Ok(sides) => sides,
        Err(fault) => return Err(fault),
    };
    let first = match settle_whole(means, store, left, tries, budget) {
        Ok(first) => first,
        Err(fault) => return Err(fault),
    };
    match settle_whole(means, store, right, tries, budget) {
        Err(fault) => {
            drop(first);
            Err(fault)
        }
        Ok(second) => {
            store.nodes.known();
            Ok(pass_of(first, second))
        }
    }
}

// The pass of a condition whose sides have these normal forms: where these are one.
fn pass_of(left: (u32, Vec<Trace>), right: (u32, Vec<Trace>)) -> Option<Pass>
    ensures { IsPassOf left.0 left.1.items right.0 right.1.items result }
{
    let (number, left) = left;
    let (other, right) = right;
    if number != other {
        drop(left);
        drop(right);
        return None;
    }
    Some(Pass { left, right })
}
