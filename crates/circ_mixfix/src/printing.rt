//! Terms written as text.
ghost use Rattle.std.specs.Prelude.{◌≡◌, ◌≤◌, ◌++◌, codes, decimal, slice_get, unwrap_or};
ghost use Rattle.std.specs.Prelude.{[], map, OnOk};
ghost use Rattle.std.specs.Prelude.{OnErr, IfOk, false, true};
ghost use Rattle.circ_term.specs.Tree.{trees_of, depths_of};
ghost use Rattle.circ_theory.specs.Signature.{IsWellSorted};
ghost use Rattle.circ_theory.specs.Operators.{operator_of};
ghost use Rattle.circ_mixfix.specs.Printed.{IsPrintable, IsSpelling, IsPairSpelling};
ghost use Rattle.circ_mixfix.specs.Printing.{further, joined, piece_text, left_behind, filled};
ghost use Rattle.circ_mixfix.specs.Printing.{arguments_text, application_text, operator_text};
ghost use Rattle.circ_mixfix.specs.Printing.{printed_name, text_of_term, texts_of_terms};
ghost use Rattle.circ_mixfix.specs.Printing.{text_of_pair, text_under, text_of_goal};
ghost use Rattle.circ_theory.specs.Pairs.{plain_pair};

use circ_form::Piece;
use circ_term::{Kind, Term};
use circ_theory::{Goal, OpDecl, Pair, Theory};
use itoa::Buffer;
use std::alloc::{AllocError, Global};

fn put(out: &mut Vec<u8>, text: &[u8]) -> Result<(), AllocError>
    ensures text { OnOk result (out.new.items ≡ out.old.items ++ text.now) }
{
    out.extend_from_slice(text)
}

fn put_number(out: &mut Vec<u8>, number: u32) -> Result<(), AllocError>
    ensures text { OnOk result (out.new.items ≡ out.old.items ++ decimal number) }
{
    let mut buffer = Buffer::new();
    put(out, buffer.format(number).as_bytes())
}

fn put_name(out: &mut Vec<u8>, hole: bool, number: u32) -> Result<(), AllocError>
    ensures text { OnOk result (out.new.items ≡ out.old.items ++ printed_name hole number) }
{
    if hole && number == 0 {
        return put(out, b"*");
    }
    put(out, b"V")?;
    put_number(out, number)
}

fn put_variable(
    out: &mut Vec<u8>,
    theory: &Theory,
    hole: bool,
    number: u32,
    sort: u32,
) -> Result<(), AllocError>
    ensures text { OnOk result (out.new.items ≡ out.old.items ++
        (printed_name hole number ++ codes ":" ++ unwrap_or
        (slice_get theory.now.signature.sorts sort) [])) }
{
    put_name(out, hole, number)?;
    put(out, b":")?;
    match theory.sort_name(sort) {
        None => Ok(()),
        Some(name) => put(out, name),
    }
}

#[cycle(print)]
fn put_term(out: &mut Vec<u8>, theory: &Theory, hole: bool, term: &Term) -> Result<(), AllocError>
    ensures text { OnOk result (out.new.items ≡ out.old.items ++ text_of_term theory.now.signature
        hole term.now) }
{
    match term.kind() {
        Kind::Variable { number, sort } => put_variable(out, theory, hole, number, sort),
        Kind::Application { op, args, .. } => match theory.op(op) {
            None => Ok(()),
            Some(decl) => put_application(out, theory, hole, decl, args),
        },
    }
}

#[cycle(print)]
fn put_application(
    out: &mut Vec<u8>,
    theory: &Theory,
    hole: bool,
    decl: &OpDecl,
    args: &[Term],
) -> Result<(), AllocError>
    ensures text { OnOk result (out.new.items ≡ out.old.items ++ application_text
        (operator_of decl.now) (texts_of_terms theory.now.signature hole (trees_of args.now))) }
{
    let pieces = decl.form.pieces();
    if decl.form.has_hole() {
        put(out, b"(")?;
        put_pieces(out, theory, hole, pieces, args)?;
        return put(out, b")");
    }
    put_pieces(out, theory, hole, pieces, &[])?;
    put_arguments(out, theory, hole, args)
}

// The pieces joined by one space, with the arguments in the holes.
#[cycle(print)]
fn put_pieces(
    out: &mut Vec<u8>,
    theory: &Theory,
    hole: bool,
    pieces: &[Piece],
    args: &[Term],
) -> Result<(), AllocError>
    ensures text { OnOk result (out.new.items ≡ out.old.items ++ joined (codes " ")
        (filled pieces.now (texts_of_terms theory.now.signature hole (trees_of args.now)))) }
{
    let Some((first, others)) = pieces.split_first() else {
        return Ok(());
    };
    let rest = put_piece(out, theory, hole, first, args)?;
    put_further_pieces(out, theory, hole, others, rest)
}

#[cycle(print)]
fn put_further_pieces(
    out: &mut Vec<u8>,
    theory: &Theory,
    hole: bool,
    pieces: &[Piece],
    args: &[Term],
) -> Result<(), AllocError>
    ensures text { OnOk result (out.new.items ≡ out.old.items ++ further (codes " ")
        (filled pieces.now (texts_of_terms theory.now.signature hole (trees_of args.now)))) }
{
    let mut rest = args;
    for piece in pieces {
        put(out, b" ")?;
        rest = put_piece(out, theory, hole, piece, rest)?;
    }
    Ok(())
}

// Answers the arguments that are left.
#[cycle(print)]
fn put_piece<'a>(
    out: &mut Vec<u8>,
    theory: &Theory,
    hole: bool,
    piece: &Piece,
    args: &'a [Term],
) -> Result<&'a [Term], AllocError>
    ensures text { OnOk result (out.new.items ≡ out.old.items ++ piece_text piece.now
        (texts_of_terms theory.now.signature hole (trees_of args.now))) }
    ensures left { IfOk result (λ r. texts_of_terms theory.now.signature hole (trees_of r.now) ≡
        left_behind piece.now (texts_of_terms theory.now.signature hole (trees_of args.now))) }
    ensures shallow { IfOk result (λ r. depths_of (trees_of r.now) ≤ depths_of
        (trees_of args.now)) }
{
    match piece {
        Piece::Word(word) => {
            put(out, word.bytes())?;
            Ok(args)
        }
        Piece::Hole => {
            let Some((first, others)) = args.split_first() else {
                return Ok(args);
            };
            put_term(out, theory, hole, first)?;
            Ok(others)
        }
    }
}

#[cycle(print)]
fn put_arguments(
    out: &mut Vec<u8>,
    theory: &Theory,
    hole: bool,
    args: &[Term],
) -> Result<(), AllocError>
    ensures text { OnOk result (out.new.items ≡ out.old.items ++ arguments_text
        (texts_of_terms theory.now.signature hole (trees_of args.now))) }
{
    let Some((first, others)) = args.split_first() else {
        return Ok(());
    };
    put(out, b"(")?;
    put_term(out, theory, hole, first)?;
    put_further_arguments(out, theory, hole, others)?;
    put(out, b")")
}

#[cycle(print)]
fn put_further_arguments(
    out: &mut Vec<u8>,
    theory: &Theory,
    hole: bool,
    args: &[Term],
) -> Result<(), AllocError>
    ensures text { OnOk result (out.new.items ≡ out.old.items ++ further (codes ", ")
        (texts_of_terms theory.now.signature hole (trees_of args.now))) }
{
    for arg in args {
        put(out, b", ")?;
        put_term(out, theory, hole, arg)?;
    }
    Ok(())
}

fn put_pair(out: &mut Vec<u8>, theory: &Theory, left: &Term, right: &Term) -> Result<(), AllocError>
    ensures text { OnOk result (out.new.items ≡ out.old.items ++ text_of_pair theory.now.signature
        (record { left = left.now; right = right.now })) }
{
    put_term(out, theory, false, left)?;
    put(out, b" = ")?;
    put_term(out, theory, false, right)
}

// The conditions behind the first one.
fn put_further_conditions(
    out: &mut Vec<u8>,
    theory: &Theory,
    conds: &[Pair],
) -> Result<(), AllocError>
    ensures text { OnOk result (out.new.items ≡ out.old.items ++ further (codes " /\\ ")
        (map (text_of_pair theory.now.signature) (map plain_pair conds.now))) }
{
    for cond in conds {
        put(out, b" /\\ ")?;
        put_pair(out, theory, &cond.left, &cond.right)?;
    }
    Ok(())
}

fn put_goal(out: &mut Vec<u8>, theory: &Theory, goal: &Goal) -> Result<(), AllocError>
    ensures text { OnOk result (out.new.items ≡ out.old.items ++
        text_of_goal theory.now.signature goal.now) }
{
    put_pair(out, theory, &goal.left, &goal.right)?;
    let Some((first, others)) = goal.conds.as_slice().split_first() else {
        return Ok(());
    };
    put(out, b" if ")?;
    put_pair(out, theory, &first.left, &first.right)?;
    put_further_conditions(out, theory, others)
}

// Appends the text of a term, with a hole where it is a derivative's. The text is made first, so
// that nothing is appended where memory runs out.
fn print_as(
    alloc: Global,
    theory: &Theory,
    hole: bool,
    term: &Term,
    out: &mut Vec<u8>,
) -> Result<(), AllocError>
    ensures text { OnOk result (out.new.items ≡ out.old.items ++ text_of_term theory.now.signature
        hole term.now) }
    ensures err { OnErr result (out.new.items ≡ out.old.items) }
{
    let mut text = Vec::new(alloc);
    put_term(&mut text, theory, hole, term)?;
    out.extend_from_slice(&text)
}

fn print_sides(
    alloc: Global,
    theory: &Theory,
    left: &Term,
    right: &Term,
    out: &mut Vec<u8>,
) -> Result<(), AllocError>
    ensures text { OnOk result (out.new.items ≡ out.old.items ++ text_of_pair theory.now.signature
        (record { left = left.now; right = right.now })) }
    ensures err { OnErr result (out.new.items ≡ out.old.items) }
{
    let mut text = Vec::new(alloc);
    put_pair(&mut text, theory, left, right)?;
    out.extend_from_slice(&text)
}

/// Appends the text of a term. A variable of number n and sort X is `Vn:X`. An operator without
/// holes is its words joined by one space, and its arguments in parentheses, joined by `, `. An
/// operator with holes is its pieces joined by one space, with the arguments in the holes, in
/// parentheses. If it runs out of memory the bytes are as before.
pub fn print(
    alloc: Global,
    theory: &Theory,
    term: &Term,
    out: &mut Vec<u8>,
) -> Result<(), AllocError>
    ensures text { OnOk result (out.new.items ≡ out.old.items ++ text_of_term theory.now.signature
        false term.now) }
    ensures err { OnErr result (out.new.items ≡ out.old.items) }
    ensures spelled { IsPrintable theory.now.signature →
        IsWellSorted theory.now.signature term.now
        → IsSpelling theory.now.signature false term.now }
{
    theory.known();
    print_as(alloc, theory, false, term, out)
}

/// Appends the text of a derivative's term, as `print` does of a term, but with `*:X` for the hole,
/// which is variable 0.
pub fn print_derivative(
    alloc: Global,
    theory: &Theory,
    term: &Term,
    out: &mut Vec<u8>,
) -> Result<(), AllocError>
    ensures text { OnOk result (out.new.items ≡ out.old.items ++ text_of_term theory.now.signature
        true term.now) }
    ensures err { OnErr result (out.new.items ≡ out.old.items) }
    ensures spelled { IsPrintable theory.now.signature →
        IsWellSorted theory.now.signature term.now → IsSpelling theory.now.signature true term.now }
{
    theory.known();
    print_as(alloc, theory, true, term, out)
}

/// Appends the text of a pair: the texts of its sides, joined by ` = `. If it runs out of memory
/// the bytes are as before.
pub fn print_pair(
    alloc: Global,
    theory: &Theory,
    left: &Term,
    right: &Term,
    out: &mut Vec<u8>,
) -> Result<(), AllocError>
    ensures text { OnOk result (out.new.items ≡ out.old.items ++ text_of_pair theory.now.signature
        (record { left = left.now; right = right.now })) }
    ensures err { OnErr result (out.new.items ≡ out.old.items) }
    ensures spelled { IsPrintable theory.now.signature →
        IsWellSorted theory.now.signature left.now →
        IsWellSorted theory.now.signature right.now →
        IsPairSpelling theory.now.signature (record { left = left.now; right = right.now }) }
{
    theory.known();
    print_sides(alloc, theory, left, right, out)
}

/// Appends the text of a goal: that of its sides, and where it has conditions ` if ` and the texts
/// of these, joined by ` /\ `. If it runs out of memory the bytes are as before.
pub fn print_goal(
    alloc: Global,
    theory: &Theory,
    goal: &Goal,
    out: &mut Vec<u8>,
) -> Result<(), AllocError>
    ensures text { OnOk result (out.new.items ≡ out.old.items ++
        text_of_goal theory.now.signature goal.now) }
    ensures err { OnErr result (out.new.items ≡ out.old.items) }
{
    let mut text = Vec::new(alloc);
    put_goal(&mut text, theory, goal)?;
    out.extend_from_slice(&text)
}
