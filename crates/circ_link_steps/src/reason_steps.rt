//! The steps of reasons: two sides, and the cases of a term.
ghost use Rattle.std.specs.Prelude.{◌≡◌, ◌∷◌, ℕ, List, IfOk, OnOk, suc};
ghost use Rattle.circ_term.specs.Tree.{sort_of};
ghost use Rattle.circ_term.specs.Substitution.{instance};
ghost use Rattle.circ_theory.specs.Derivable.{is_case};
ghost use Rattle.circ_theory.specs.Observing.{case_list};
ghost use Rattle.circ_expansion.specs.Pieces.{no_piece};
ghost use Rattle.circ_expansion.specs.Expand.{around, cases_at, case_basis, stood};
ghost use Rattle.circ_expansion.specs.Machine.{In_row, Begin_split, End_split, Give_reason};
ghost use Rattle.circ_expansion.specs.Machine.{Add_part, task_step, all_uses};
ghost use Rattle.circ_uses.specs.Uses.{BuildsLast};
ghost use Rattle.circ_uses.specs.Valuations.{by_of};
ghost use Rattle.circ_tasks.specs.Tasks.{call_of, basis_of, background_in};
ghost use Rattle.circ_tasks.specs.Tasks.{reason_job, reasons_job};
ghost use Rattle.circ_written.specs.Values.{values_of};
ghost use Rattle.circ_tasks.specs.Tasks.{Steps, StepsAlike, stepped, split_term, why_at};
ghost use Rattle.circ_tasks.specs.Tasks.{jobs_of, begun_sides, assumed, case_list_of};
ghost use Rattle.circ_link_steps.specs.Splits.{GivesSplit, split_jobs, split_stepped};

use circ_proof::{Chain, Why};
use circ_tasks::{Basis, Call, Frame, Halt, Links, Reason, Reasons, Task, Work, named};
use circ_term::{Term, TermFault};
use circ_theory::{Pair, Way, constant_of, share_pairs};
use std::alloc::AllocError;
use std::rc::Rc;

/// Why two terms are the same: links on both sides, and between them the cases of a split.
pub fn reason_step<'a>(
    frame: &Frame<'a, '_>,
    work: &mut Work<'a>,
    reason: Reason<'a>,
) -> Result<(), Halt>
    ensures { Steps frame.now (stepped frame.now (reason_job frame.now reason.entry) work.old)
        work.new result }
{
    match reason.why {
        Why::Same { chain } => {
            work.tasks.push(Task::PutBehind(Way::Back))?;
            begin_sides(
                frame,
                work,
                reason.call,
                reason.basis,
                chain,
                reason.left,
                reason.right,
            )?;
            Ok(())
        }
        Why::Split { chain, term, whys } => {
            split_step(frame, work, reason, chain, *term, whys.as_slice())
        }
    }
}

/// The links on both sides, each in a row of its own, are next.
pub fn begin_sides<'a>(
    frame: &Frame<'a, '_>,
    work: &mut Work<'a>,
    call: Rc<Call>,
    basis: Rc<Basis>,
    chain: &'a Chain,
    left: Term,
    right: Term,
) -> Result<(), AllocError>
    ensures tasks { OnOk result (jobs_of frame.now work.new ≡
        begun_sides frame.now call.value basis.value chain.now left right
        (jobs_of frame.now work.old)) }
    ensures values { OnOk result (values_of work.new.values ≡
        In_row no_piece ∷ values_of work.old.values) }
    ensures left { work.new.left ≡ work.old.left }
{
    work.values.add_empty()?;
    work.tasks.push(Task::Links(Links {
        call: call.clone()?,
        basis: basis.clone()?,
        links: chain.right.as_slice(),
        term: right,
    }))?;
    work.tasks.push(Task::EmptyRow)?;
    work.tasks.push(Task::Links(Links {
        call,
        basis,
        links: chain.left.as_slice(),
        term: left,
    }))?;
    Ok(())
}

// The cases of a term stand between the links of both sides.
fn split_step<'a>(
    frame: &Frame<'a, '_>,
    work: &mut Work<'a>,
    reason: Reason<'a>,
    chain: &'a Chain,
    term: u32,
    whys: &'a [Why],
) -> Result<(), Halt>
    ensures { Steps frame.now (split_stepped frame.now reason.entry chain.now term whys.now
        (jobs_of frame.now work.old) (values_of work.old.values) work.old.left) work.new result }
{
    let split = match split_of(frame, &reason, chain, term, whys) {
        Ok(split) => split,
        Err(halt) => return Err(halt),
    };
    push_split(frame, work, split)?;
    begin_sides(
        frame,
        work,
        reason.call,
        reason.basis,
        chain,
        reason.left,
        reason.right,
    )?;
    Ok(())
}

// The split of a term between the ends of both sides.
fn split_of<'a>(
    frame: &Frame<'a, '_>,
    reason: &Reason<'a>,
    chain: &'a Chain,
    term: u32,
    whys: &'a [Why],
) -> Result<Reasons<'a>, Halt>
    ensures { GivesSplit frame.now reason.now chain.now term whys.now result }
{
    let left = match (&*frame)
        .side(&reason.basis)
        .led_all(chain.left.as_slice(), &reason.left)
    {
        Ok(left) => left,
        Err(fault) => return Err(Halt::Past(fault)),
    };
    let right = match (&*frame)
        .side(&reason.basis)
        .led_all(chain.right.as_slice(), &reason.right)
    {
        Ok(right) => right,
        Err(fault) => return Err(Halt::Past(fault)),
    };
    let term = named(frame.table, term)?;
    let constants = constants(frame, &term);
    let call = reason.call.clone()?;
    let basis = reason.basis.clone()?;
    Ok(Reasons {
        call,
        basis,
        whys,
        term,
        all: constants,
        constants,
        left,
        right,
    })
}

// The split is next, and then it stands between two rows.
fn push_split<'a>(
    frame: &Frame<'a, '_>,
    work: &mut Work<'a>,
    split: Reasons<'a>,
) -> Result<(), AllocError>
    ensures tasks { OnOk result (jobs_of frame.now work.new ≡
        split_jobs frame.now split.entry (jobs_of frame.now work.old)) }
    ensures values { work.new.values ≡ work.old.values }
    ensures left { work.new.left ≡ work.old.left }
{
    work.tasks.push(Task::PutBetween)?;
    work.tasks.push(Task::Split(split))?;
    Ok(())
}

// The constants of the case list of a term's sort.
fn constants<'a>(frame: &Frame<'a, '_>, term: &Term) -> &'a [u32]
    ensures { case_list (sort_of term.now) result.now ≡ cases_at
        (all_uses (background_in frame.now)) (background_in frame.now) (sort_of term.now) }
{
    match frame.theory.cases(term.sort()) {
        Some(constants) => constants,
        None => &[],
    }
}

/// A split is begun. Its reasons are next, and then it is ended.
pub fn begin_split<'a>(
    frame: &Frame<'a, '_>,
    work: &mut Work<'a>,
    split: Reasons<'a>,
) -> Result<(), Halt>
    ensures { Steps frame.now (task_step (all_uses (background_in frame.now))
        (background_in frame.now) (Begin_split (split_term split.entry))
        (reasons_job frame.now split.entry ∷ End_split (split_term split.entry) ∷
        jobs_of frame.now work.old)
        (values_of work.old.values) work.old.left) work.new result }
{
    if work.left == 0 {
        drop(split);
        return Err(Halt::Long);
    }
    work.left -= 1;
    match split.call.by.apply(frame.alloc, &split.term) {
        Ok(term) => {
            work.tasks.push(Task::EndSplit(term))?;
            work.tasks.push(Task::GiveReasons(split))?;
            Ok(())
        }
        Err(fault) => {
            drop(split);
            Err(Halt::Past(fault))
        }
    }
}

/// The reason of the next case. The parts end where there is no other reason or constant.
pub fn reasons_step<'a>(
    frame: &Frame<'a, '_>,
    work: &mut Work<'a>,
    reasons: Reasons<'a>,
) -> Result<(), Halt>
    ensures { StepsAlike frame.now
        (stepped frame.now (reasons_job frame.now reasons.entry) work.old) work.new result }
{
    let Some((why, whys)) = reasons.whys.split_first() else {
        drop(reasons);
        work.values.add_no_part()?;
        return Ok(());
    };
    let Some((constant, constants)) = reasons.constants.split_first() else {
        drop(reasons);
        work.values.add_no_part()?;
        return Ok(());
    };
    let whole = match standing(frame, &reasons) {
        Ok(whole) => whole,
        Err(fault) => {
            drop(reasons);
            return Err(Halt::Past(fault));
        }
    };
    let case = case(frame, &reasons, why, *constant, whole)?;
    let rest = Reasons {
        call: reasons.call,
        basis: reasons.basis,
        whys,
        term: reasons.term,
        all: reasons.all,
        constants,
        left: reasons.left,
        right: reasons.right,
    };
    give_reasons(frame, work, case, rest)?;
    Ok(())
}

// A reason is next, then others, and then they are a part.
fn give_reasons<'a>(
    frame: &Frame<'a, '_>,
    work: &mut Work<'a>,
    first: Reason<'a>,
    rest: Reasons<'a>,
) -> Result<(), AllocError>
    ensures tasks { OnOk result (jobs_of frame.now work.new ≡ reason_job frame.now first.entry ∷
        reasons_job frame.now rest.entry ∷ Add_part ∷ jobs_of frame.now work.old) }
    ensures values { work.new.values ≡ work.old.values }
    ensures left { work.new.left ≡ work.old.left }
{
    work.tasks.push(Task::AddPart)?;
    work.tasks.push(Task::GiveReasons(rest))?;
    work.tasks.push(Task::GiveReason(first))?;
    Ok(())
}

// The whole term in which a case begins.
fn standing<'a>(frame: &Frame<'a, '_>, reasons: &Reasons<'a>) -> Result<Term, TermFault>
    ensures { BuildsLast result (instance (by_of reasons.now.call.value.by.value)
        reasons.now.term ∷ stood (call_of frame.now reasons.now.call.value) reasons.now.left)
        (around (call_of frame.now reasons.now.call.value) reasons.now.left) }
{
    match reasons.call.by.apply(frame.alloc, &reasons.term) {
        Ok(_) => match reasons.call.by.apply(frame.alloc, &reasons.left) {
            Ok(standing) => frame.whole_with(&reasons.call, &standing),
            Err(fault) => Err(fault),
        },
        Err(fault) => Err(fault),
    }
}

// The case of this constant in a whole term.
fn case<'a>(
    frame: &Frame<'a, '_>,
    reasons: &Reasons<'a>,
    why: &'a Why,
    constant: u32,
    whole: Term,
) -> Result<Reason<'a>, AllocError>
    ensures { IfOk result (λ r. reason_job frame.now r ≡ Give_reason
        (record (call_of frame.now reasons.now.call.value) {
          whole = whole;
          assumptions = assumed (suc reasons.now.call.value.assumptions);
        })
        (case_basis (all_uses (background_in frame.now)) (background_in frame.now)
        (basis_of frame.now reasons.now.basis.value)
        (is_case reasons.now.term (case_list_of reasons.now) constant))
        (why_at frame.now why.now) reasons.now.left reasons.now.right) }
{
    Ok(Reason {
        call: case_call(frame, &reasons.call, whole)?,
        basis: case_basis(frame, &reasons.basis, &reasons.term, constant)?,
        why,
        left: reasons.left.share()?,
        right: reasons.right.share()?,
    })
}

// One assumption more. No memory holds so many that their number does not fit.
fn case_call(frame: &Frame<'_, '_>, call: &Call, whole: Term) -> Result<Rc<Call>, AllocError>
    ensures { IfOk result (λ d. call_of frame.now d.value ≡ record (call_of frame.now call.now) {
      whole = whole;
      assumptions = assumed (suc call.now.assumptions);
    }) }
{
    let Some(assumptions) = call.assumptions.checked_add(1) else {
        return Err(AllocError);
    };
    let mut next = call.share()?;
    next.whole = whole;
    next.assumptions = assumptions;
    Ok(Rc::new(frame.alloc, next)?)
}

// With the assumption that the term is the constant.
fn case_basis(
    frame: &Frame<'_, '_>,
    basis: &Basis,
    term: &Term,
    constant: u32,
) -> Result<Rc<Basis>, AllocError>
    ensures { IfOk result (λ b. (all : List ℕ) → basis_of frame.now b.value ≡
        case_basis (all_uses (background_in frame.now)) (background_in frame.now)
        (basis_of frame.now basis.now)
        (is_case term.now (case_list (sort_of term.now) all) constant)) }
{
    let mut assumptions = share_pairs(frame.alloc, basis.assumptions.as_slice())?;
    let left = term.share()?;
    let right = constant_of(frame.alloc, constant, term.sort())?;
    assumptions.push(Pair { left, right })?;
    let next = Basis {
        block: basis.block,
        raised: basis.raised,
        assumptions,
    };
    Ok(Rc::new(frame.alloc, next)?)
}
