//! A table that is whole.
ghost use Rattle.std.specs.Prelude.{◌≡◌, ◌<◌, [], length, Some, IfOk};
ghost use Rattle.std.specs.List.{slice_get, AllByRecursion};
ghost use Rattle.std.specs.Option.{option_map};
ghost use Rattle.circ_term.specs.Tree.{Tree, sort_of, args_of};
ghost use Rattle.circ_table.specs.Line.{numbers_in, IsLine};
ghost use Rattle.circ_table.specs.Table.{firsts_at};
ghost use Rattle.circ_table.specs.Lines.{trees, AreLines};

use crate::line::Line;
use crate::lines::Lines;
use circ_term::Term;
use std::alloc::{AllocError, Global};
use std::marker::Model;
use std::rc::Rc;

/// A table that is whole. It is shared, not copied, and none of its terms is kept.
#[derive(Drop)]
pub struct Table {
    held: Held,
}

#[derive(Drop)]
enum Held {
    Nothing,
    Lines(Rc<Lines>),
}

impl Model for Table {
    ghost use Rattle.std.specs.Prelude.{List};
    ghost use Rattle.std.specs.Coded.{coded_list};
    ghost use Rattle.circ_term.specs.Tree.{Tree};
    ghost use Rattle.circ_term.specs.Code.{tree_code};

    ghost Value = { List Tree };

    ghost coded = { coded_list tree_code };

    ghost use Rattle.circ_table.specs.Held.{trees_held, AreHeld};

    ghost view = { λ a. trees_held a.held };

    ghost invariant = { λ a. AreHeld a.held };
}

impl Table {
    /// The table of no terms.
    pub fn empty(alloc: Global) -> Table
        ensures { result ≡ [] }
    {
        let _ = alloc;
        Table {
            held: Held::Nothing,
        }
    }

    // The table of these lines.
    pub(crate) fn new(alloc: Global, lines: Lines) -> Result<Table, AllocError>
        requires { AreLines lines }
        ensures { IfOk result (λ t. t ≡ trees lines) }
    {
        let lines = Rc::new(alloc, lines).map_err(AllocError::from)?;
        Ok(Table {
            held: Held::Lines(lines),
        })
    }

    /// How many terms there are.
    pub fn len(&self) -> usize
        ensures { result ≡ length self.now }
    {
        match &self.held {
            Held::Nothing => 0,
            Held::Lines(lines) => lines.rows.len(),
        }
    }

    /// The sort of the term of a number.
    pub fn sort(&self, number: u32) -> Option<u32>
        ensures { result ≡ option_map sort_of (slice_get self.now number) }
    {
        match &self.held {
            Held::Nothing => None,
            Held::Lines(lines) => lines.sort(number),
        }
    }

    /// The same table once more.
    pub fn share(&self) -> Result<Table, AllocError>
        ensures { IfOk result (λ t. t ≡ self.now) }
    {
        match &self.held {
            Held::Nothing => Ok(Table {
                held: Held::Nothing,
            }),
            Held::Lines(lines) => Ok(Table {
                held: Held::Lines(lines.clone()?),
            }),
        }
    }

    /// All its terms, by number.
    pub fn terms(&self, alloc: Global) -> Result<Vec<Term>, AllocError>
        ensures { IfOk result (λ v. v.items ≡ self.now) }
    {
        match &self.held {
            Held::Nothing => Ok(Vec::new(alloc)),
            Held::Lines(lines) => lines.terms(alloc),
        }
    }

    /// What the term of a number is.
    pub fn line(&self, number: u32) -> Line<'_>
        requires { number < length self.now }
        ensures line { (t : Tree) → slice_get self.now number ≡ Some t
            → IsLine self.now result t }
        ensures before { AllByRecursion (λ n. n < number) (numbers_in result) }
    {
        match &self.held {
            Held::Nothing => unreachable!(),
            Held::Lines(lines) => lines.line(number as usize),
        }
    }

    // The numbers of the arguments of a term.
    pub(crate) fn args(&self, number: u32) -> &[u32]
        requires { number < length self.now }
        ensures args { (t : Tree) → slice_get self.now number ≡ Some t
            → firsts_at self.now result.now ≡ Some (args_of t) }
        ensures before { AllByRecursion (λ n. n < number) result.now }
    {
        match &self.held {
            Held::Nothing => &[],
            Held::Lines(lines) => lines.args(number as usize),
        }
    }

    // The term of a number, from its arguments.
    pub(crate) fn build(
        &self,
        alloc: Global,
        number: u32,
        args: Vec<Term>,
    ) -> Result<Term, AllocError>
        requires number { number < length self.now }
        requires args { (t : Tree) → slice_get self.now number ≡ Some t
            → args.items ≡ args_of t }
        ensures { IfOk result (λ t. slice_get self.now number ≡ Some t) }
    {
        match &self.held {
            Held::Nothing => Err(AllocError),
            Held::Lines(lines) => lines.build(alloc, number as usize, args),
        }
    }
}
