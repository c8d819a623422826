//! What `differ` answers.
ghost use Rattle.std.specs.Prelude.{◌≡◌, ◌≤◌, ◌++◌, None, length, map, flat_map, codes, IfOk, OnOk};
ghost use Rattle.std.specs.List.{AllByRecursion};
ghost use Rattle.circ_entry.specs.Plain.{plain_entry, plain_entries};
ghost use Rattle.circ_refute.specs.Plain.{plain_refuted};
ghost use Rattle.circ_show.specs.EntryText.{IsEntry};
ghost use Rattle.circ_status.specs.declared.status.Status.TheVariants as status;
ghost use Rattle.circ_found.specs.Differing.{entry_line, differs_text, refuted_ending, DifferEnds};
ghost use Rattle.circ_found.specs.Differing.{AreEntries};
ghost use Rattle.circ_found.specs.Searchable.{ArePlainlySearchable};
ghost use Rattle.circ_status.specs.Ending.{ending, plain_ending};

use crate::answering::{spent, too_big, too_deep, unstored};
use crate::texts::put_side;
use circ_entry::Entry;
use circ_refute::{Refuted, refute_all};
use circ_show::entry_text;
use circ_status::{Ending, Status, push_counted};
use circ_term::Term;
use circ_theory::{Goal, Theory};
use std::alloc::{AllocError, Global};

/// How the work of `differ` on the goals of these blocks ends, with at most so many rewrites and so
/// many Derives. Nothing is to be stored.
pub fn differ<'a>(
    alloc: Global,
    theory: &Theory,
    blocks: &[Vec<Goal>],
    rewrites: u64,
    derives: u64,
) -> Result<Ending<'a>, AllocError>
    requires searchable { ArePlainlySearchable theory.now (map (λ b. b.items) blocks.now) }
    requires few { derives ≤ 10000 }
    ensures { IfOk result (λ e. DifferEnds theory.now rewrites derives
        (map (λ b. b.items) blocks.now) (plain_ending e)) }
{
    let mut rewrites_left = rewrites;
    let mut derives_left = derives;
    let decision = refute_all(alloc, theory, blocks, &mut rewrites_left, &mut derives_left)?;
    let rewrites = rewrites - rewrites_left;
    let derives = derives - derives_left;
    refuted_ending(
        alloc,
        theory,
        decision.goal,
        rewrites,
        derives,
        &decision.refuted,
    )
}

/// What is answered by what is found of the goal of this number.
fn refuted_ending<'a>(
    alloc: Global,
    theory: &Theory,
    goal: u64,
    rewrites: u64,
    derives: u64,
    refuted: &Refuted,
) -> Result<Ending<'a>, AllocError>
    requires { AreEntries theory.now (plain_refuted refuted.now) }
    ensures { IfOk result (λ e. plain_ending e ≡
        refuted_ending theory.now goal rewrites derives (plain_refuted refuted.now)) }
{
    match refuted {
        Refuted::Differs {
            entries,
            left,
            right,
        } => differs(alloc, theory, goal, entries.as_slice(), left, right),
        Refuted::Alike => Ok(unstored(Status::Ok, Vec::from_slice(alloc, b"no difference\n")?)),
        Refuted::Spent => spent(alloc, rewrites, derives, 0),
        Refuted::TooBig { nodes } => too_big(alloc, *nodes),
        Refuted::TooDeep { depth } => too_deep(alloc, *depth),
    }
}

/// A goal is told apart.
fn differs<'a>(
    alloc: Global,
    theory: &Theory,
    goal: u64,
    entries: &[Entry],
    left: &Term,
    right: &Term,
) -> Result<Ending<'a>, AllocError>
    requires { AllByRecursion (IsEntry theory.now) (plain_entries entries.now) }
    ensures { IfOk result (λ e. plain_ending e ≡ ending (status.Differ (length entries.now))
        (differs_text theory.now goal (plain_entries entries.now) left.now right.now) None) }
{
    let length = entries.len() as u64;
    let mut text = Vec::new(alloc);
    push_counted(&mut text, b"differs: goal ", goal, b"\n")?;
    put_entries(alloc, theory, entries, &mut text)?;
    put_side(alloc, theory, b"left: ", left, &mut text)?;
    put_side(alloc, theory, b"right: ", right, &mut text)?;
    Ok(unstored(Status::Differ { length }, text))
}

/// Appends a line for each entry.
fn put_entries(
    alloc: Global,
    theory: &Theory,
    entries: &[Entry],
    out: &mut Vec<u8>,
) -> Result<(), AllocError>
    requires { AllByRecursion (IsEntry theory.now) (plain_entries entries.now) }
    ensures { OnOk result (out.new.items ≡ out.old.items
        ++ flat_map (entry_line theory.now) (plain_entries entries.now)) }
{
    for entry in entries {
        put_entry(alloc, theory, entry, out)?;
    }
    Ok(())
}

fn put_entry(
    alloc: Global,
    theory: &Theory,
    entry: &Entry,
    out: &mut Vec<u8>,
) -> Result<(), AllocError>
    requires { IsEntry theory.now (plain_entry entry.now) }
    ensures { OnOk result (out.new.items ≡ out.old.items
        ++ entry_line theory.now (plain_entry entry.now)) }
{
    out.extend_from_slice(b"by: ")?;
    entry_text(alloc, theory, entry, out)?;
    out.extend_from_slice(b"\n")
}
