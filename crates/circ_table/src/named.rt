//! The terms of a table that were asked for.
ghost use Rattle.std.specs.Prelude.{◌≡◌, ◌<◌, ◌≤◌, ◌^◌, [], length};
ghost use Rattle.std.specs.Prelude.{Some, IfOk, OnOk, OnErr};
ghost use Rattle.std.specs.List.{slice_get};
ghost use Rattle.std.specs.Option.{IfSome};
ghost use Rattle.circ_term.specs.Tree.{Tree, args_of};
ghost use Rattle.circ_term.specs.Growing.{Grows};
ghost use Rattle.circ_table.specs.Table.{AreIn};
ghost use Rattle.circ_table.specs.Placed.{ArePlacesOf};

use crate::table::Table;
use circ_term::Term;
use std::alloc::{AllocError, Global};
use std::marker::Model;

// The place of a term that was not asked for. So there are fewer terms than that.
const ABSENT: u32 = 4_294_967_295;

/// The terms of a table that were asked for by their numbers, with their subterms. A term that the
/// table names twice may be there twice. So a table costs only as many built terms as are named,
/// and 4 bytes for each number up to the greatest of them. A call that would build more than
/// 4,294,967,295 answers want of memory.
#[derive(Drop)]
pub struct NamedTerms {
    alloc: Global,
    table: Table,
    terms: Vec<Term>,
    // For each number up to the greatest that was asked for the place of its term among them.
    places: Vec<u32>,
}

impl Model for NamedTerms {
    ghost use Rattle.std.specs.Prelude.{List};
    ghost use Rattle.std.specs.Coded.{coded_list, coded×};
    ghost use Rattle.circ_term.specs.Tree.{Tree};
    ghost use Rattle.circ_term.specs.Code.{tree_code};

    ghost Value = { List Tree × List Tree };

    ghost coded = { coded× (coded_list tree_code) (coded_list tree_code) };

    ghost use Rattle.circ_table.specs.Placed.{ArePlaced};

    ghost view = { λ a. (a.table, a.terms.items) };

    ghost invariant = { λ a. ArePlaced a.table a.terms.items a.places.items };
}

impl NamedTerms {
    /// None was asked for.
    pub fn of(alloc: Global, table: Table) -> NamedTerms
        ensures { result ≡ (table, []) }
    {
        NamedTerms {
            alloc,
            table,
            terms: Vec::new(alloc),
            places: Vec::new(alloc),
        }
    }

    /// The table.
    pub fn table(&self) -> &Table
        ensures { result.now ≡ self.now.0 }
    {
        &self.table
    }

    /// The terms that were asked for. Each is one of the table.
    pub fn terms(&self) -> &[Term]
        ensures terms { result.now ≡ self.now.1 }
        ensures few { length self.now.1 < 2 ^ 32 }
        ensures in_table { AreIn self.now.0 self.now.1 }
    {
        self.terms.as_slice()
    }

    /// The place of a number's term among those that were asked for. Where this number was not
    /// asked for, its term joins them, behind its subterms. It calls itself as deep as the term is.
    pub fn place(&mut self, number: u32) -> Result<u32, AllocError>
        requires { number < length self.old.0 }
        ensures table { self.new.0 ≡ self.old.0 }
        ensures grows { Grows self.old.1 self.new.1 }
        ensures placed { IfOk result (λ n.
            slice_get self.new.1 n ≡ slice_get self.old.0 number) }
        ensures there { IfOk result (λ n. n < length self.new.1) }
    {
        if let Some(place) = self.find(number) {
            return Ok(place);
        }
        let table = self.table.share()?;
        let numbers = table.args(number);
        let mut args = Vec::with_capacity(self.alloc, numbers.len())?;
        for arg in numbers {
            let place = self.place(*arg)?;
            self.terms[place as usize].share_to(&mut args)?;
        }
        self.build(&table, number, args)
    }

    /// The term of a number.
    pub fn term(&mut self, number: u32) -> Result<Term, AllocError>
        requires { number < length self.old.0 }
        ensures table { self.new.0 ≡ self.old.0 }
        ensures grows { Grows self.old.1 self.new.1 }
        ensures term { IfOk result (λ t. slice_get self.old.0 number ≡ Some t) }
    {
        let place = self.place(number)?;
        self.terms[place as usize].share()
    }

    // The place of a number's term, if it was asked for.
    fn find(&self, number: u32) -> Option<u32>
        ensures placed { IfSome result (λ n.
            slice_get self.now.1 n ≡ slice_get self.now.0 number) }
        ensures there { IfSome result (λ n. n < length self.now.1) }
    {
        let number = number as usize;
        if number >= self.places.len() || self.places[number] == ABSENT {
            return None;
        }
        Some(self.places[number])
    }

    // A number's term joins those that were asked for.
    fn put(&mut self, number: u32, term: Term) -> Result<u32, AllocError>
        requires number { number < length self.old.0 }
        requires term { slice_get self.old.0 number ≡ Some term }
        ensures table { self.new.0 ≡ self.old.0 }
        ensures grows { Grows self.old.1 self.new.1 }
        ensures placed { IfOk result (λ n.
            slice_get self.new.1 n ≡ slice_get self.old.0 number) }
        ensures there { IfOk result (λ n. n < length self.new.1) }
    {
        let place = self.terms.len();
        if place >= ABSENT as usize {
            return Err(AllocError);
        }
        make_places(&mut self.places, number as usize + 1)?;
        self.terms.push(term)?;
        self.places[number as usize] = place as u32;
        Ok(place as u32)
    }

    // The same of its term, built of its arguments.
    fn build(&mut self, table: &Table, number: u32, args: Vec<Term>) -> Result<u32, AllocError>
        requires same { table.now ≡ self.old.0 }
        requires number { number < length self.old.0 }
        requires args { (t : Tree) → slice_get self.old.0 number ≡ Some t
            → args.items ≡ args_of t }
        ensures table { self.new.0 ≡ self.old.0 }
        ensures grows { Grows self.old.1 self.new.1 }
        ensures placed { IfOk result (λ n.
            slice_get self.new.1 n ≡ slice_get self.old.0 number) }
        ensures there { IfOk result (λ n. n < length self.new.1) }
    {
        let term = table.build(self.alloc, number, args)?;
        self.put(number, term)
    }
}

// Makes places up to so many.
fn make_places(places: &mut Vec<u32>, count: usize) -> Result<(), AllocError>
    ensures long { OnOk result (count ≤ length places.new.items) }
    ensures kept { OnOk result (ArePlacesOf places.old.items places.new.items) }
    ensures err { OnErr result (places.new.items ≡ places.old.items) }
{
    if places.len() >= count {
        return Ok(());
    }
    places.resize(count, ABSENT)
}
