//! Lines as text is written, each with its line feed.
ghost use Rattle.std.specs.Prelude.{◌∷◌, OnOk};
ghost use Rattle.circ_line.specs.Plain.{plain_line};
ghost use Rattle.circ_line.specs.Lent.{plain_lent_line};
ghost use Rattle.circ_file.specs.Writing.{Writes};

use circ_line::{LentLine, Line, write_lent_line, write_line};
use std::alloc::AllocError;

/// Appends a line.
pub(crate) fn put_line(line: &Line, out: &mut Vec<u8>) -> Result<(), AllocError>
    ensures { OnOk result (Writes out.old.items out.new.items
        (λ later. plain_line line.now ∷ later)) }
{
    write_line(line, out)?;
    out.push(b'\n')?;
    Ok(())
}

/// Appends a line that is made for it.
pub(crate) fn put_made_line(line: Line, out: &mut Vec<u8>) -> Result<(), AllocError>
    ensures { OnOk result (Writes out.old.items out.new.items
        (λ later. plain_line line ∷ later)) }
{
    put_line(&line, out)
}

/// Appends a line whose parts are lent.
pub(crate) fn put_lent_line(line: LentLine, out: &mut Vec<u8>) -> Result<(), AllocError>
    ensures { OnOk result (Writes out.old.items out.new.items
        (λ later. plain_lent_line line.entry ∷ later)) }
{
    write_lent_line(line, out)?;
    out.push(b'\n')?;
    Ok(())
}
