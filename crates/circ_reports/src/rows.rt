//! The text of a derivation that is written out.
ghost use Rattle.std.specs.Prelude.{◌≡◌, ◌≤◌, ◌++◌, ◌∷◌, IfOk, OnOk, codes, decimal, flat_map};
ghost use Rattle.std.specs.Prelude.{false, length, map};
ghost use Rattle.circ_term.specs.Tree.{sort_of};
ghost use Rattle.circ_theory.specs.Experiment.{on};
ghost use Rattle.circ_line.specs.Text.{path_word, way_word};
ghost use Rattle.circ_mixfix.specs.Printing.{text_of_term};
ghost use Rattle.circ_entry.specs.Entries.{FitsWritten, written_entries};
ghost use Rattle.circ_entry.specs.Plain.{plain_entries};
ghost use Rattle.circ_expand.specs.Rows.{plain_row};
ghost use Rattle.circ_reports.specs.Expand.{rule_line, row_line, links_among, rows_text};

use circ_entry::Entry;
use circ_expand::Row;
use circ_mixfix::{print, print_pair};
use circ_status::{push_counted, push_numbered};
use circ_term::{Path, Term};
use circ_theory::{Goal, Theory, Way};
use std::alloc::{AllocError, Global};

/// The text of these rows, for an experiment on a goal.
pub(crate) fn rows_text(
    alloc: Global,
    theory: &Theory,
    entries: &[Entry],
    goal: &Goal,
    rows: &[Row],
) -> Result<Vec<u8>, AllocError>
    requires left { FitsWritten theory.now (plain_entries entries.now) (sort_of goal.now.left) }
    requires right { FitsWritten theory.now (plain_entries entries.now) (sort_of goal.now.right) }
    ensures { IfOk result (λ v. v.items ≡ rows_text theory.now (plain_entries entries.now)
        goal.now (map plain_row rows.now)) }
{
    let left = term_on(theory, entries, &goal.left)?;
    let right = term_on(theory, entries, &goal.right)?;
    let mut out = Vec::from_slice(alloc, b"expanded\npair: ")?;
    print_pair(alloc, theory, &left, &right, &mut out)?;
    out.extend_from_slice(b"\n")?;
    put_rows(alloc, theory, rows, &mut out)?;
    push_counted(&mut out, b"links: ", links_among(rows) as u64, b"\n")?;
    Ok(out)
}

/// The experiment on a term. A term that is past a limit is want of memory here.
fn term_on(theory: &Theory, entries: &[Entry], term: &Term) -> Result<Term, AllocError>
    requires { FitsWritten theory.now (plain_entries entries.now) (sort_of term.now) }
    ensures { IfOk result (λ t. t ≡
        on (written_entries theory.now (plain_entries entries.now)) term.now) }
{
    let mut here = term.share()?;
    for entry in entries {
        here = match theory.instance(entry.derivative, entry.params.as_slice(), &here) {
            Ok(term) => term,
            Err(_) => return Err(AllocError),
        };
    }
    Ok(here)
}

/// Appends a line for each row.
fn put_rows(
    alloc: Global,
    theory: &Theory,
    rows: &[Row],
    out: &mut Vec<u8>,
) -> Result<(), AllocError>
    ensures { OnOk result (out.new.items ≡ out.old.items
        ++ flat_map (row_line theory.now.signature) (map plain_row rows.now)) }
{
    for row in rows {
        put_row(alloc, theory, row, out)?;
    }
    Ok(())
}

fn put_row(alloc: Global, theory: &Theory, row: &Row, out: &mut Vec<u8>) -> Result<(), AllocError>
    ensures { OnOk result (out.new.items ≡ out.old.items
        ++ row_line theory.now.signature (plain_row row.now)) }
{
    match row {
        Row::Equation {
            number,
            way,
            path,
            ..
        } => put_rule(out, b"equation ", *way, u64::from(*number), path),
        Row::Content { op, path, .. } => put_content(out, u64::from(*op), path),
        Row::Assumption { number, way, path } => {
            put_rule(out, b"assumption ", *way, *number, path)
        }
        Row::Cases { term } => put_cases(alloc, theory, term, out),
        Row::Case => out.extend_from_slice(b"case\n"),
        Row::End => out.extend_from_slice(b"end\n"),
    }
}

#[tactic(auto, using(crate::proofs::Rules::joins))]
fn put_content(out: &mut Vec<u8>, op: u64, path: &Path) -> Result<(), AllocError>
    ensures { OnOk result (out.new.items ≡ out.old.items ++ (codes "content " ++ decimal op
        ++ codes " " ++ path_word path.now.items ++ codes "\n")) }
{
    push_numbered(out, b"content ", op)?;
    put_path(out, path)?;
    out.extend_from_slice(b"\n")
}

fn put_cases(
    alloc: Global,
    theory: &Theory,
    term: &Term,
    out: &mut Vec<u8>,
) -> Result<(), AllocError>
    ensures { OnOk result (out.new.items ≡ out.old.items ++ (codes "cases "
        ++ text_of_term theory.now.signature false term.now ++ codes "\n")) }
{
    out.extend_from_slice(b"cases ")?;
    print(alloc, theory, term, out)?;
    out.extend_from_slice(b"\n")
}

/// A rule, which way it is used, its number, and where.
#[tactic(auto, using(crate::proofs::Rules::joins))]
fn put_rule(
    out: &mut Vec<u8>,
    rule: &[u8],
    way: Way,
    number: u64,
    path: &Path,
) -> Result<(), AllocError>
    ensures { OnOk result (out.new.items ≡ out.old.items
        ++ rule_line rule.now way number path.now.items) }
{
    out.extend_from_slice(rule)?;
    put_way(out, way)?;
    push_numbered(out, b" ", number)?;
    put_path(out, path)?;
    out.extend_from_slice(b"\n")
}

fn put_way(out: &mut Vec<u8>, way: Way) -> Result<(), AllocError>
    ensures { OnOk result (out.new.items ≡ out.old.items ++ way_word way) }
{
    match way {
        Way::Forth => out.extend_from_slice(b">"),
        Way::Back => out.extend_from_slice(b"<"),
    }
}

/// The entries of a path joined by dots, or a dash, after a space.
fn put_path(out: &mut Vec<u8>, path: &Path) -> Result<(), AllocError>
    ensures { OnOk result (out.new.items ≡ out.old.items
        ++ codes " " ++ path_word path.now.items) }
{
    match path.as_slice() {
        [] => out.extend_from_slice(b" -"),
        [first, steps @ ..] => {
            push_numbered(out, b" ", u64::from(*first))?;
            put_steps(out, steps)
        }
    }
}

/// Entries with a dot before each.
fn put_steps(out: &mut Vec<u8>, steps: &[u16]) -> Result<(), AllocError>
    ensures { OnOk result (out.new.items ≡
        out.old.items ++ flat_map (λ w. 46 ∷ w) (map decimal steps.now)) }
{
    for step in steps {
        push_numbered(out, b".", u64::from(*step))?;
    }
    Ok(())
}

/// How many of the rows are links.
fn links_among(rows: &[Row]) -> usize
    ensures exact { result ≡ links_among (map plain_row rows.now) }
    ensures few { result ≤ length rows.now }
{
    let mut count = 0;
    for row in rows {
        match row {
            Row::Cases { .. } | Row::Case | Row::End => {}
            _ => count += 1,
        }
    }
    count
}
