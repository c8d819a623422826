//! Reading expressions: one pass over the bytes, with a frame for each open parenthesis.
ghost use Rattle.std.specs.Prelude.{◌≡◌, [], Some, OnOk, IfOk};
ghost use Rattle.std.specs.Option.{option_map};
ghost use Rattle.circ_regex.specs.Matches.{plain_regex, either_of, in_turn};
ghost use Rattle.circ_regex.specs.Grammar.{ReadsRegex};
ghost use Rattle.circ_regex.specs.Frames.{nested, with_factor, frame_sum, on_star, on_plus};
ghost use Rattle.circ_regex.specs.Frames.{on_open, on_close, on_mark, on_byte, atom_of};
ghost use Rattle.circ_regex.specs.Frames.{plain_stack, frame_of, frames_of, LeadsTo};

use crate::MOST_BYTES;
use crate::fault::RegexFault;
use crate::regex::Regex;
use std::alloc::{AllocError, Global};
use std::mem;

// The products before a plus and the factors of the product that is being read, the latest last.
#[derive(Drop)]
struct Open {
    products: Vec<Regex>,
    factors: Vec<Regex>,
}

// What is being read, and what stands before each open parenthesis, the latest last.
#[derive(Drop)]
struct Reader {
    now: Open,
    outer: Vec<Open>,
}

// The sum of what stands before and of the last product. Takes all that stands before.
fn nest_sum(alloc: Global, last: Regex, before: &mut Vec<Regex>) -> Result<Regex, AllocError>
    ensures sum { IfOk result (λ e. plain_regex e ≡
        nested either_of (plain_regex last) (plain_stack before.old.items)) }
    ensures taken { OnOk result (before.new.items ≡ []) }
{
    let mut whole = last;
    while let Some(first) = before.pop() {
        let left = Box::new(alloc, first)?;
        let right = Box::new(alloc, whole)?;
        whole = Regex::Sum(left, right);
    }
    Ok(whole)
}

// The product of what stands before and of the last factor. Takes all that stands before.
fn nest_product(alloc: Global, last: Regex, before: &mut Vec<Regex>) -> Result<Regex, AllocError>
    ensures product { IfOk result (λ e. plain_regex e ≡
        nested in_turn (plain_regex last) (plain_stack before.old.items)) }
    ensures taken { OnOk result (before.new.items ≡ []) }
{
    let mut whole = last;
    while let Some(first) = before.pop() {
        let left = Box::new(alloc, first)?;
        let right = Box::new(alloc, whole)?;
        whole = Regex::Product(left, right);
    }
    Ok(whole)
}

// The sum of a whole frame, where there is one. Takes what the frame holds.
fn close(alloc: Global, frame: &mut Open) -> Result<Option<Regex>, AllocError>
    ensures { IfOk result (λ o. option_map plain_regex o ≡
        frame_sum (frame_of frame.old).products (frame_of frame.old).factors) }
{
    let Some(last) = frame.factors.pop() else {
        return Ok(None);
    };
    let product = nest_product(alloc, last, &mut frame.factors)?;
    Ok(Some(nest_sum(alloc, product, &mut frame.products)?))
}

fn atom(byte: u8) -> Option<Regex>
    ensures { option_map plain_regex result ≡ atom_of byte }
{
    match byte {
        b'a' => Some(Regex::A),
        b'b' => Some(Regex::B),
        b'0' => Some(Regex::Empty),
        b'1' => Some(Regex::Eps),
        _ => None,
    }
}

impl Reader {
    fn star(&mut self, alloc: Global) -> Result<bool, AllocError>
        ensures { IfOk result (λ took. LeadsTo took
            (on_star (frames_of self.old).now.products (frames_of self.old).now.factors
            (frames_of self.old).outer)
            (frames_of self.new)) }
    {
        let Some(factor) = self.now.factors.pop() else {
            return Ok(false);
        };
        let body = Box::new(alloc, factor)?;
        self.now.factors.push(Regex::Star(body))?;
        Ok(true)
    }

    fn plus(&mut self, alloc: Global) -> Result<bool, AllocError>
        ensures { IfOk result (λ took. LeadsTo took
            (on_plus (frames_of self.old).now.products (frames_of self.old).now.factors
            (frames_of self.old).outer)
            (frames_of self.new)) }
    {
        let Some(last) = self.now.factors.pop() else {
            return Ok(false);
        };
        let product = nest_product(alloc, last, &mut self.now.factors)?;
        self.now.products.push(product)?;
        Ok(true)
    }

    fn open(&mut self, alloc: Global) -> Result<bool, AllocError>
        ensures { IfOk result (λ took. LeadsTo took
            (on_open (frames_of self.old)) (frames_of self.new)) }
    {
        let inner = Open {
            products: Vec::new(alloc),
            factors: Vec::new(alloc),
        };
        let around = mem::replace(&mut self.now, inner);
        self.outer.push(around)?;
        Ok(true)
    }

    fn close(&mut self, alloc: Global) -> Result<bool, AllocError>
        ensures { IfOk result (λ took. LeadsTo took
            (on_close (frames_of self.old).now.products (frames_of self.old).now.factors
            (frames_of self.old).outer)
            (frames_of self.new)) }
    {
        let Some(sum) = close(alloc, &mut self.now)? else {
            return Ok(false);
        };
        let Some(around) = self.outer.pop() else {
            return Ok(false);
        };
        self.now = around;
        self.now.factors.push(sum)?;
        Ok(true)
    }

    fn mark(&mut self, alloc: Global, byte: u8) -> Result<bool, AllocError>
        ensures { IfOk result (λ took. LeadsTo took
            (on_mark byte (frames_of self.old)) (frames_of self.new)) }
    {
        match byte {
            b'*' => self.star(alloc),
            b'+' => self.plus(alloc),
            b'(' => self.open(alloc),
            b')' => self.close(alloc),
            _ => Ok(false),
        }
    }

    // Takes a byte. False where no expression goes on so.
    fn take(&mut self, alloc: Global, byte: u8) -> Result<bool, AllocError>
        ensures { IfOk result (λ took. LeadsTo took
            (on_byte byte (frames_of self.old)) (frames_of self.new)) }
    {
        match atom(byte) {
            Some(factor) => {
                self.now.factors.push(factor)?;
                Ok(true)
            }
            None => self.mark(alloc, byte),
        }
    }
}

/// Reads an expression by this grammar, without blanks: a sum is products with `+` between them, a
/// product is factors one behind the other, a factor is an atom with any number of `*` behind it,
/// and an atom is `a`, `b`, `0`, `1` or a sum in parentheses. Sums and products nest to the right.
pub fn read_regex(alloc: Global, bytes: &[u8]) -> Result<Regex, RegexFault>
    ensures { ReadsRegex result bytes.now }
{
    if bytes.len() > MOST_BYTES {
        return Err(RegexFault::Limit {
            count: bytes.len() as u64,
        });
    }
    let mut reader = Reader {
        now: Open {
            products: Vec::new(alloc),
            factors: Vec::new(alloc),
        },
        outer: Vec::new(alloc),
    };
    for byte in bytes {
        if !reader.take(alloc, *byte)? {
            return Err(RegexFault::Shape);
        }
    }
    if !reader.outer.is_empty() {
        return Err(RegexFault::Shape);
    }
    match close(alloc, &mut reader.now)? {
        Some(regex) => Ok(regex),
        None => Err(RegexFault::Shape),
    }
}
