//! Numbers of sorts: how few tokens may spell a term of each. They are found here, and tested in
//! another module, so that no contract says how.
ghost use Rattle.std.specs.Prelude.{◌≡◌, ◌<◌};
ghost use Rattle.circ_mixfix.specs.Least.{AreListed};

use crate::least::{at_least, least_of};
use crate::words::Words;
use circ_spelling::Variable;
use circ_theory::Theory;
use std::alloc::{AllocError, Global};
use std::marker::Model;
use std::mem::replace;

// After so many turns the numbers are taken as they are.
const MOST_TURNS: usize = 8;

// The operators of a word are not told apart by their first arguments, if they are no more than
// these.
pub const FEW: usize = 8;

// The numbers by sorts, and the sorts whose number is not above `most`, in the order in which they
// were found; operators whose first arguments are of such sorts; the words with many operators; and
// how many of the sorts were gone over for these.
#[derive(Drop)]
pub struct Reach<'a> {
    most: u32,
    least: Vec<u32>,
    sorts: Vec<u32>,
    ops: Vec<u32>,
    words: Vec<&'a [u8]>,
    next: usize,
}

impl<'a> Model for Reach<'a> {
    ghost use Rattle.circ_mixfix.specs.Reached.{Reached, reached_code};

    ghost Value = { Reached };

    ghost coded = { reached_code };

    ghost use Rattle.circ_mixfix.specs.Least.{AreListed};

    ghost view = { λ a. record { most = a.most; least = a.least.items; sorts = a.sorts.items } };

    ghost invariant = { λ a. AreListed a.most a.least.items a.sorts.items };
}

impl<'a> Reach<'a> {
    // No sort is reached.
    fn new(alloc: Global, count: usize, most: u32) -> Result<Reach<'a>, AllocError>
        requires { most < 65536 }
    {
        let least = vec![in alloc; most + 1; count]?;
        Ok(Reach {
            most,
            least,
            sorts: Vec::new(alloc),
            ops: Vec::new(alloc),
            words: Vec::new(alloc),
            next: 0,
        })
    }

    pub fn most(&self) -> u32
        ensures { result ≡ self.now.most }
    {
        self.most
    }

    pub fn least(&self) -> &[u32]
        ensures value { result.now ≡ self.now.least }
        ensures listed { AreListed self.now.most self.now.least self.now.sorts }
    {
        self.least.as_slice()
    }

    pub fn sorts(&self) -> &[u32]
        ensures { result.now ≡ self.now.sorts }
    {
        self.sorts.as_slice()
    }

    // The numbers, which are given away.
    pub fn take_least(&mut self, alloc: Global) -> Vec<u32>
        ensures { result.items ≡ self.old.least }
    {
        replace(&mut self.least, Vec::new(alloc))
    }

    // Lowers the number of a sort. Whether it was greater.
    fn lower(&mut self, sort: u32, count: u32) -> Result<bool, AllocError> {
        let place = sort as usize;
        if place >= self.least.len() {
            return Ok(false);
        }
        let before = least_of(self.least.as_slice(), sort);
        if before <= count {
            return Ok(false);
        }
        if before > self.most {
            self.sorts.push(sort)?;
        }
        self.least[place] = count;
        Ok(true)
    }

    // Lowers the number of an operator's result sort.
    fn lower_operator(&mut self, theory: &Theory, number: u32) -> Result<bool, AllocError> {
        let Some(decl) = theory.op(number) else {
            return Ok(false);
        };
        let sum = at_least(self.least.as_slice(), decl);
        if sum > self.most as u64 {
            return Ok(false);
        }
        self.lower(decl.result, sum as u32)
    }

    // Takes operators in. Whether a number was lowered.
    fn take(&mut self, theory: &Theory, numbers: &[u32]) -> Result<bool, AllocError> {
        let mut any = false;
        for number in numbers {
            self.ops.push(*number)?;
            any = self.lower_operator(theory, *number)? | any;
        }
        Ok(any)
    }

    // Lowers numbers by the operators that were taken in.
    fn lower_taken(&mut self, theory: &Theory) -> Result<bool, AllocError> {
        let mut any = false;
        for place in 0..self.ops.len() {
            if let Some(number) = self.ops.get(place).copied() {
                any = self.lower_operator(theory, number)? | any;
            }
        }
        Ok(any)
    }

    // Takes in the operators of a word: all of few, and of many the constants.
    fn begin_word(&mut self, theory: &Theory, word: &'a [u8]) -> Result<(), AllocError> {
        let all = theory.ops_by_word(word);
        if all.len() <= FEW {
            self.take(theory, all)?;
            return Ok(());
        }
        self.words.push(word)?;
        self.take(theory, theory.ops_by_word_and_sort(word, None))?;
        Ok(())
    }

    fn begin(&mut self, words: &Words<'a>, theory: &Theory) -> Result<(), AllocError> {
        for number in 0..words.count() {
            if let Some(word) = words.text(number) {
                self.begin_word(theory, word)?;
            }
        }
        Ok(())
    }

    fn lower_variables(&mut self, variables: &[Variable]) -> Result<(), AllocError> {
        for variable in variables {
            self.lower(variable.sort, 1)?;
        }
        Ok(())
    }

    // Takes in the operators of words with many whose first arguments are of this sort.
    fn open(&mut self, theory: &Theory, sort: u32) -> Result<bool, AllocError> {
        let mut any = false;
        for place in 0..self.words.len() {
            if let Some(word) = self.words.get(place).copied() {
                let numbers = theory.ops_by_word_and_sort(word, Some(sort));
                any = self.take(theory, numbers)? | any;
            }
        }
        Ok(any)
    }

    // The same for the sorts that were not gone over yet, and those that are reached so.
    fn open_all(&mut self, theory: &Theory) -> Result<bool, AllocError> {
        let mut any = false;
        for place in self.next..self.least.len() {
            let Some(sort) = self.sorts.get(place).copied() else {
                break;
            };
            any = self.open(theory, sort)? | any;
            self.next = place + 1;
        }
        Ok(any)
    }

    fn turns(&mut self, theory: &Theory) -> Result<(), AllocError> {
        for _turn in 0..MOST_TURNS {
            let taken = self.lower_taken(theory)?;
            if !(self.open_all(theory)? | taken) {
                return Ok(());
            }
        }
        Ok(())
    }
}

// The numbers of the sorts for terms of at most `most` tokens, as far as some turns go.
pub fn reach_of<'a>(
    alloc: Global,
    words: &Words<'a>,
    theory: &Theory,
    variables: &[Variable],
    most: u32,
) -> Result<Box<Reach<'a>>, AllocError>
    requires { most < 65536 }
{
    let mut found = Box::new(
        alloc,
        Reach::new(alloc, theory.sort_count() as usize, most)?,
    )?;
    found.lower_variables(variables)?;
    found.begin(words, theory)?;
    found.turns(theory)?;
    Ok(found)
}
