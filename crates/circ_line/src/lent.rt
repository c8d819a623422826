//! Lines that are written from what is lent, so that nothing is copied for them.
ghost use Rattle.std.specs.Prelude.{◌≡◌, ◌∷◌, ◌++◌, OnOk, OnErr};
ghost use Rattle.circ_proof.specs.Plain.{plain_link};
ghost use Rattle.circ_line.specs.Line.{Application_line};
ghost use Rattle.circ_line.specs.Text.{joined, link_words, table_words, line_text};
ghost use Rattle.circ_line.specs.Plain.{Keeps};
ghost use Rattle.circ_line.specs.Lent.{plain_lent_line};

use crate::writing::{put, put_link, put_number, put_numbers};
use circ_proof::Link;
use std::alloc::AllocError;

/// A line that holds a list or a link of its writer.
#[derive(Clone, Copy)]
pub enum LentLine<'a> {
    /// A line of the table: an operator at terms.
    Application { op: u32, args: &'a [u32] },
    /// A link on the left side, without the chains of its conditions.
    Left { link: &'a Link },
    /// A link on the right side, likewise.
    Right { link: &'a Link },
}

/// Appends the text of a line, without a line feed. Where memory runs out the bytes are as before.
pub fn write_lent_line(line: LentLine, out: &mut Vec<u8>) -> Result<(), AllocError>
    ensures text { OnOk result (out.new.items ≡
        out.old.items ++ line_text (plain_lent_line line.entry)) }
    ensures err { OnErr result (out.new.items ≡ out.old.items) }
{
    let before = out.len();
    match put_lent_line(out, line) {
        Ok(()) => Ok(()),
        Err(fault) => {
            out.truncate(before);
            Err(fault)
        }
    }
}

fn put_lent_line(out: &mut Vec<u8>, line: LentLine) -> Result<(), AllocError>
    ensures text { OnOk result (out.new.items ≡
        out.old.items ++ line_text (plain_lent_line line.entry)) }
    ensures keeps { Keeps out.old.items out.new.items }
{
    match line {
        LentLine::Application { op, args } => put_application(out, op, args),
        LentLine::Left { link } => put_side(out, b"left", link),
        LentLine::Right { link } => put_side(out, b"right", link),
    }
}

fn put_application(out: &mut Vec<u8>, op: u32, args: &[u32]) -> Result<(), AllocError>
    ensures text { OnOk result (out.new.items ≡
        out.old.items ++ joined 32 (table_words (Application_line op args.now))) }
    ensures keeps { Keeps out.old.items out.new.items }
{
    put(out, b"a")?;
    put_number(out, op)?;
    put_numbers(out, args)
}

/// A side, and a link on it.
fn put_side(out: &mut Vec<u8>, side: &[u8], link: &Link) -> Result<(), AllocError>
    ensures text { OnOk result (out.new.items ≡
        out.old.items ++ joined 32 (side.now ∷ link_words (plain_link link.now))) }
    ensures keeps { Keeps out.old.items out.new.items }
{
    put(out, side)?;
    put_link(out, link)
}
