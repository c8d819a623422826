//! Lines as text is written.
ghost use Rattle.std.specs.Prelude.{◌≡◌, ◌++◌, ◌∷◌, [], codes, decimal, flat_map, map, OnOk, OnErr};
ghost use Rattle.circ_proof.specs.Plain.{plain_link};
ghost use Rattle.circ_line.specs.Text.{path_word, way_word, link_words, table_words, line_words, line_text};
ghost use Rattle.circ_line.specs.Written.{first_word, spaced, further};
ghost use Rattle.circ_line.specs.Plain.{plain_table_line, plain_line, Keeps};

use crate::line::{Line, TableLine};
use circ_proof::{Link, Way};
use circ_term::Path;
use itoa::Buffer;
use std::alloc::AllocError;

/// Appends the text of a line, without a line feed. Where memory runs out the bytes are as before.
pub fn write_line(line: &Line, out: &mut Vec<u8>) -> Result<(), AllocError>
    ensures text { OnOk result (out.new.items ≡
        out.old.items ++ line_text (plain_line line.now)) }
    ensures err { OnErr result (out.new.items ≡ out.old.items) }
{
    let before = out.len();
    match put_line(out, line) {
        Ok(()) => Ok(()),
        Err(fault) => {
            out.truncate(before);
            Err(fault)
        }
    }
}

#[tactic(auto, using(crate::proofs::TwoParts::two_parts))]
fn put_line(out: &mut Vec<u8>, line: &Line) -> Result<(), AllocError>
    ensures text { OnOk result (out.new.items ≡
        out.old.items ++ line_text (plain_line line.now)) }
    ensures keeps { Keeps out.old.items out.new.items }
{
    put(out, first_word(line))?;
    put_fields(out, line)
}

fn first_word(line: &Line) -> &'static [u8]
    ensures { result.now ≡ first_word (line_words (plain_line line.now)) }
{
    match line {
        Line::Head { .. } => b"circproof",
        Line::Table { line } => table_word(line),
        Line::Place { .. } => b"place",
        Line::Certificate => b"cert",
        Line::Block => b"block",
        Line::Goal { .. } => b"goal",
        Line::Given { .. } => b"given",
        Line::Simplify => b"simplify",
        Line::Reduce => b"reduce",
        Line::Derive => b"derive",
        Line::Cases { .. } => b"cases",
        Line::Done => b"done",
        Line::Same => b"same",
        Line::Split { .. } => b"split",
        Line::If => b"if",
        Line::Left { .. } => b"left",
        Line::Right { .. } => b"right",
        Line::End => b"end",
    }
}

fn table_word(line: &TableLine) -> &'static [u8]
    ensures { result.now ≡ first_word (table_words (plain_table_line line.now)) }
{
    match line {
        TableLine::Variable { .. } => b"v",
        TableLine::Application { .. } => b"a",
    }
}

/// What comes after the first word.
fn put_fields(out: &mut Vec<u8>, line: &Line) -> Result<(), AllocError>
    ensures text { OnOk result (out.new.items ≡
        out.old.items ++ further (line_words (plain_line line.now))) }
    ensures keeps { Keeps out.old.items out.new.items }
{
    match line {
        Line::Head { version } => put_number(out, *version as u32),
        Line::Table { line } => put_table_fields(out, line),
        Line::Place { op, arg } => put_pair(out, *op, *arg),
        Line::Goal { left, right } => put_pair(out, *left, *right),
        Line::Given { left, right } => put_pair(out, *left, *right),
        Line::Cases { term } => put_number(out, *term),
        Line::Split { term, count } => put_pair(out, *term, *count),
        Line::Left { link } => put_link(out, link),
        Line::Right { link } => put_link(out, link),
        Line::Certificate
        | Line::Block
        | Line::Simplify
        | Line::Reduce
        | Line::Derive
        | Line::Done
        | Line::Same
        | Line::If
        | Line::End => Ok(()),
    }
}

fn put_table_fields(out: &mut Vec<u8>, line: &TableLine) -> Result<(), AllocError>
    ensures text { OnOk result (out.new.items ≡
        out.old.items ++ further (table_words (plain_table_line line.now))) }
    ensures keeps { Keeps out.old.items out.new.items }
{
    match line {
        TableLine::Variable { number, sort } => put_pair(out, *number, *sort),
        TableLine::Application { op, args } => {
            put_number(out, *op)?;
            put_numbers(out, args)
        }
    }
}

fn put_pair(out: &mut Vec<u8>, first: u32, second: u32) -> Result<(), AllocError>
    ensures text { OnOk result (out.new.items ≡
        out.old.items ++ spaced (decimal first ∷ decimal second ∷ [])) }
    ensures keeps { Keeps out.old.items out.new.items }
{
    put_number(out, first)?;
    put_number(out, second)
}

/// A link, without the chains of its conditions.
pub(crate) fn put_link(out: &mut Vec<u8>, link: &Link) -> Result<(), AllocError>
    ensures text { OnOk result (out.new.items ≡
        out.old.items ++ spaced (link_words (plain_link link.now))) }
    ensures keeps { Keeps out.old.items out.new.items }
{
    match link {
        Link::Equation {
            number,
            way,
            path,
            terms,
            ..
        } => put_instance(out, b" equation", *way, *number, path, terms),
        Link::Hypothesis {
            number,
            way,
            path,
            terms,
            ..
        } => put_instance(out, b" hypothesis", *way, *number, path, terms),
        Link::Assumption { number, way, path } => {
            put_rule(out, b" assumption", *way, *number, path)
        }
        Link::Content { op, path, term } => {
            put(out, b" content")?;
            put_number(out, *op)?;
            put_path(out, path)?;
            put_number(out, *term)
        }
    }
}

/// A rule, and the numbers of the terms that its variables are given.
fn put_instance(
    out: &mut Vec<u8>,
    word: &[u8],
    way: Way,
    number: u32,
    path: &Path,
    terms: &[u32],
) -> Result<(), AllocError>
    ensures text { OnOk result (out.new.items ≡ out.old.items ++ word.now ++
        spaced (way_word way ∷ decimal number ∷ path_word path.now.items ∷
        map decimal terms.now)) }
    ensures keeps { Keeps out.old.items out.new.items }
{
    put_rule(out, word, way, number, path)?;
    put_numbers(out, terms)
}

/// A word, which way a rule is used, its number, and where.
fn put_rule(
    out: &mut Vec<u8>,
    word: &[u8],
    way: Way,
    number: u32,
    path: &Path,
) -> Result<(), AllocError>
    ensures text { OnOk result (out.new.items ≡ out.old.items ++ word.now ++
        spaced (way_word way ∷ decimal number ∷ path_word path.now.items ∷ [])) }
    ensures keeps { Keeps out.old.items out.new.items }
{
    put(out, word)?;
    put_way(out, way)?;
    put_number(out, number)?;
    put_path(out, path)
}

fn put_way(out: &mut Vec<u8>, way: Way) -> Result<(), AllocError>
    ensures text { OnOk result (out.new.items ≡ out.old.items ++ codes " " ++ way_word way) }
    ensures keeps { Keeps out.old.items out.new.items }
{
    match way {
        Way::Forth => put(out, b" >"),
        Way::Back => put(out, b" <"),
    }
}

/// The entries joined by dots, or a dash, after a space.
fn put_path(out: &mut Vec<u8>, path: &Path) -> Result<(), AllocError>
    ensures text { OnOk result (out.new.items ≡
        out.old.items ++ codes " " ++ path_word path.now.items) }
    ensures keeps { Keeps out.old.items out.new.items }
{
    match path.as_slice() {
        [] => put(out, b" -"),
        [first, steps @ ..] => {
            put_number(out, *first as u32)?;
            put_steps(out, steps)
        }
    }
}

/// Entries with a dot before each.
fn put_steps(out: &mut Vec<u8>, steps: &[u16]) -> Result<(), AllocError>
    ensures text { OnOk result (out.new.items ≡
        out.old.items ++ flat_map (λ w. 46 ∷ w) (map decimal steps.now)) }
    ensures keeps { Keeps out.old.items out.new.items }
{
    for step in steps {
        put_marked(out, b".", *step as u32)?;
    }
    Ok(())
}

/// Numbers with a space before each.
pub(crate) fn put_numbers(out: &mut Vec<u8>, numbers: &[u32]) -> Result<(), AllocError>
    ensures text { OnOk result (out.new.items ≡
        out.old.items ++ spaced (map decimal numbers.now)) }
    ensures keeps { Keeps out.old.items out.new.items }
{
    for number in numbers {
        put_number(out, *number)?;
    }
    Ok(())
}

/// A number after a space.
pub(crate) fn put_number(out: &mut Vec<u8>, number: u32) -> Result<(), AllocError>
    ensures text { OnOk result (out.new.items ≡ out.old.items ++ codes " " ++ decimal number) }
    ensures keeps { Keeps out.old.items out.new.items }
{
    put_marked(out, b" ", number)
}

fn put_marked(out: &mut Vec<u8>, mark: &[u8], number: u32) -> Result<(), AllocError>
    ensures text { OnOk result (out.new.items ≡ out.old.items ++ mark.now ++ decimal number) }
    ensures keeps { Keeps out.old.items out.new.items }
{
    let mut buffer = Buffer::new();
    put(out, mark)?;
    put(out, buffer.format(number).as_bytes())
}

pub(crate) fn put(out: &mut Vec<u8>, text: &[u8]) -> Result<(), AllocError>
    ensures text { OnOk result (out.new.items ≡ out.old.items ++ text.now) }
    ensures keeps { Keeps out.old.items out.new.items }
{
    out.extend_from_slice(text)
}
