//! Entries of experiments as text.
ghost use Rattle.std.specs.Prelude.{◌≡◌, ◌++◌, OnOk, OnErr};
ghost use Rattle.circ_entry.specs.Plain.{plain_entry};
ghost use Rattle.circ_show.specs.EntryText.{text_of_entry, IsEntry};

use circ_entry::Entry;
use circ_mixfix::print_derivative;
use circ_term::Term;
use circ_theory::Theory;
use std::alloc::{AllocError, Global};

/// Appends the text of an entry: its derivative, with `*:X` for the hole and the entry's terms for
/// the parameters. A variable 0 in one of these would be shown as a hole too. If it runs out of
/// memory, or the term would pass a limit, the bytes are as before.
pub fn entry_text(
    alloc: Global,
    theory: &Theory,
    entry: &Entry,
    out: &mut Vec<u8>,
) -> Result<(), AllocError>
    requires { IsEntry theory.now (plain_entry entry.now) }
    ensures text { OnOk result (out.new.items ≡
        out.old.items ++ text_of_entry theory.now (plain_entry entry.now)) }
    ensures err { OnErr result (out.new.items ≡ out.old.items) }
{
    let Some(sort) = theory.hole_sort(entry.derivative) else {
        unreachable!();
    };
    let hole = Term::var(0, sort);
    match theory.instance(entry.derivative, entry.params.as_slice(), &hole) {
        Ok(term) => print_derivative(alloc, theory, &term, out),
        Err(_) => Err(AllocError),
    }
}
