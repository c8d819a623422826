//! How few tokens may spell an operator, by numbers of sorts.
ghost use Rattle.std.specs.Prelude.{◌≡◌, ◌≤◌, true};
ghost use Rattle.circ_theory.specs.Operators.{operator_of, form_fits};
ghost use Rattle.circ_mixfix.specs.Symbols.{symbols_of};
ghost use Rattle.circ_mixfix.specs.Least.{least_of, least_for, own_words};

use circ_theory::OpDecl;

// The number that is kept for a sort.
pub fn least_of(least: &[u32], sort: u32) -> u32
    ensures { result ≡ least_of least.now sort }
{
    match least.get(sort as usize) {
        Some(number) => *number,
        None => 0,
    }
}

// No more than the words among the operator's symbols.
fn own_words(decl: &OpDecl) -> u64
    ensures { result ≤ own_words (operator_of decl.now) }
{
    let pieces = decl.form.pieces().len() as u64;
    let args = decl.args.len() as u64;
    if decl.form.has_hole() {
        pieces.saturating_sub(args)
    } else {
        pieces.saturating_add(args)
    }
}

// No more than the tokens of which the operator's symbols may be.
pub fn at_least(least: &[u32], decl: &OpDecl) -> u64
    ensures { form_fits (operator_of decl.now) ≡ true → result ≤ least_for least.now
        (symbols_of (operator_of decl.now)) }
{
    let mut sum = own_words(decl);
    for sort in decl.args.as_slice() {
        sum = sum.saturating_add(least_of(least, *sort) as u64);
    }
    sum
}
