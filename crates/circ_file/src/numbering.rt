//! The table of a proof as text is written.
ghost use Rattle.std.specs.Prelude.{◌≡◌, ◌≤◌, ◌<◌, ◌∷◌, ◌++◌, [], true, List, length, map};
ghost use Rattle.std.specs.Prelude.{IfOk, OnOk};
ghost use Rattle.std.specs.List.{AllByRecursion};
ghost use Rattle.circ_term.specs.Tree.{Tree};
ghost use Rattle.circ_proof.specs.Table.{has, number_in, term_limit};
ghost use Rattle.circ_proof.specs.Proof.{IsEntry, AreEntries};
ghost use Rattle.circ_line.specs.Line.{table_line};
ghost use Rattle.circ_grammar.specs.Grammar.{lines_of, table_lines};
ghost use Rattle.circ_proof_text.specs.TableText.{entry_of, entries_of};
ghost use Rattle.circ_file.specs.Writing.{Writes};
ghost use Rattle.circ_file.specs.Numbering.{IsNumbering};

use crate::writing::{put_lent_line, put_made_line};
use circ_line::{LentLine, Line, TableLine};
use circ_replay::TableBuilder;
use circ_term::{Kind, Term};
use smallvec::SmallVec;
use std::alloc::{AllocError, Global};

/// Appends the lines of a table. Costs a few look-ups for each of its terms and their arguments.
pub(crate) fn put_table(alloc: Global, table: &[Term], out: &mut Vec<u8>) -> Result<(), AllocError>
    requires entries { AreEntries [] table.now }
    requires short { length table.now ≤ term_limit }
    ensures { OnOk result (Writes out.old.items out.new.items
        (lines_of table_lines (entries_of [] table.now))) }
{
    let mut numbering = Numbering::new(alloc);
    let put = put_terms(table, &mut numbering, out);
    drop(numbering);
    put
}

// The same with a numbering of no lines.
fn put_terms(table: &[Term], numbering: &mut Numbering, out: &mut Vec<u8>) -> Result<(), AllocError>
    requires entries { AreEntries [] table.now }
    requires short { length table.now ≤ term_limit }
    requires none { IsNumbering [] numbering.old }
    ensures { OnOk result (Writes out.old.items out.new.items
        (lines_of table_lines (entries_of [] table.now))) }
{
    for term in table {
        numbering.put(term, out)?;
        numbering.enter(term)?;
    }
    Ok(())
}

// The different terms of the lines so far, each with the number of the first line that has it.
#[derive(Drop)]
struct Numbering {
    alloc: Global,
    lines: u32,
    terms: TableBuilder,
    firsts: Vec<u32>,
}

impl Numbering {
    // That of no lines.
    fn new(alloc: Global) -> Numbering
        ensures { IsNumbering [] result }
    {
        Numbering {
            alloc,
            lines: 0,
            terms: TableBuilder::new(alloc),
            firsts: Vec::new(alloc),
        }
    }

    // Appends the line of a term whose arguments have lines.
    fn put(&self, term: &Term, out: &mut Vec<u8>) -> Result<(), AllocError>
        requires { (table : List Tree) × IsNumbering table self.now × IsEntry table term.now }
        ensures { OnOk result ((table : List Tree) → IsNumbering table self.now →
            IsEntry table term.now → Writes out.old.items
            out.new.items (λ later. table_line (entry_of table term.now) ∷ later)) }
    {
        match term.kind() {
            Kind::Variable { number, sort } => {
                let line = TableLine::Variable { number, sort };
                put_made_line(Line::Table { line }, out)
            }
            Kind::Application { op, args, .. } => {
                let args = self.numbers_of(args)?;
                let args = args.as_slice();
                put_lent_line(LentLine::Application { op, args }, out)
            }
        }
    }

    // The term has the next line.
    fn enter(&mut self, term: &Term) -> Result<(), AllocError>
        requires { (table : List Tree) × IsNumbering table self.old ×
            IsEntry table term.now × (length table < term_limit) }
        ensures { OnOk result ((table : List Tree) → IsNumbering table self.old →
            IsEntry table term.now → length table < term_limit →
            IsNumbering (table ++ term.now ∷ []) self.new) }
    {
        match self.terms.enter(term)? {
            Some(number) => {
                let line = self.lines;
                self.lines += 1;
                if (number as usize) < self.firsts.len() {
                    return Ok(());
                }
                self.firsts.push(line)?;
                Ok(())
            }
            None => unreachable!(),
        }
    }

    // The numbers of the first lines that have these terms.
    fn numbers_of(&self, terms: &[Term]) -> Result<SmallVec<u32, 4>, AllocError>
        requires { (table : List Tree) × IsNumbering table self.now ×
            AllByRecursion (λ t. has table t ≡ true) terms.now }
        ensures { IfOk result (λ numbers. (table : List Tree) → IsNumbering table self.now →
            AllByRecursion (λ t. has table t ≡ true) terms.now →
            numbers.items ≡ map (number_in table) terms.now) }
    {
        let mut numbers = SmallVec::new(self.alloc);
        for term in terms {
            numbers.push(self.number_of(term))?;
        }
        Ok(numbers)
    }

    // The number of the first line that has the term.
    fn number_of(&self, term: &Term) -> u32
        requires { (table : List Tree) × IsNumbering table self.now ×
            (has table term.now ≡ true) }
        ensures { (table : List Tree) → IsNumbering table self.now →
            has table term.now ≡ true → result ≡ number_in table term.now }
    {
        self.firsts[self.terms.known_number(term) as usize]
    }
}
