//! The command `same`: two automata are compared.
ghost use Rattle.std.specs.Prelude.{◌≡◌, [], ◌∷◌, ◌++◌, None, IfOk, IfErr, OnOk, unwrap_or};
ghost use Rattle.std.specs.Prelude.{flat_map};
ghost use Rattle.std.specs.List.{slice_get};
ghost use Rattle.circ_outer.specs.Shelf.{ShelfFrame};
ghost use Rattle.circ_auto.specs.Text.{ReadsAsAutomaton};
ghost use Rattle.circ_auto.specs.Machine.{Compares};
ghost use Rattle.circ_files.specs.Files.{IsFileFault};
ghost use Rattle.circ_files.specs.Quiet.{IsQuietCall};
ghost use Rattle.circ_status.specs.Texts.{differ_text};
ghost use Rattle.circ_status.specs.Ending.{plain_stored};
ghost use Rattle.circ_reports.specs.Same.{cause_of, AutomatonRefusal, ReadsOver, SecondRefusal, TakesAs};
ghost use Rattle.circ_reports.specs.Same.{letters_of, IsComparedIn, IsCompared, RefusesSame};

use circ_auto::laws::read_in_one_way;
use circ_auto::{AutoCause, AutoFault, Automaton, Compared, compare, read_automaton, same_letters};
use circ_files::take_file;
use circ_outer::Shelf;
use circ_read::Cause;
use circ_status::{Ending, Status};
use std::alloc::{AllocError, Global};

/// The number of the first automaton among the files of a run.
const FIRST_FILE: u8 = 1;

/// The number of the second.
const SECOND_FILE: u8 = 2;

/// The number of the statement that has the letters.
const LETTERS: u64 = 2;

/// What comparing the automata of two files gives, or the answer in its place.
#[tactic(auto, using(crate::proofs::SameFiles::refusing))]
pub fn same<'a, S: Shelf>(
    alloc: Global,
    shelf: &mut S,
    first: &str,
    second: &str,
) -> Result<Ending<'a>, Status>
    ensures compared { IfOk result (λ e.
        IsCompared first.now second.now e.status e.text.items (S.state shelf.old)
        × (plain_stored e.stored ≡ None)) }
    ensures refused { IfErr result
        (RefusesSame first.now second.now (S.state shelf.old) (S.state shelf.new)) }
    ensures quiet { IsQuietCall (S.state shelf.old) (S.state shelf.new) result }
    ensures frame { ShelfFrame (S.state shelf.old) (S.state shelf.new) }
{
    let first = match take_automaton(alloc, shelf, FIRST_FILE, first) {
        Ok(first) => first,
        Err(status) => return Err(status),
    };
    let second = match take_second(alloc, shelf, second, &first) {
        Ok(second) => second,
        Err(status) => return Err(status),
    };
    Ok(compared(alloc, &first, &second)?)
}

/// The automaton that a file reads as, or why there is none.
fn take_automaton<S: Shelf>(
    alloc: Global,
    shelf: &mut S,
    file: u8,
    name: &str,
) -> Result<Automaton, Status>
    ensures takes { IfOk result (λ m. TakesAs ReadsAsAutomaton name.now m (S.state shelf.old)) }
    ensures fault { IfErr result
        (IsFileFault file name.now AutomatonRefusal (S.state shelf.old) (S.state shelf.new)) }
    ensures quiet { IsQuietCall (S.state shelf.old) (S.state shelf.new) result }
    ensures frame { ShelfFrame (S.state shelf.old) (S.state shelf.new) }
{
    let bytes = match take_file(alloc, shelf, file, name) {
        Ok(bytes) => bytes,
        Err(status) => return Err(status),
    };
    read_in_one_way();
    match read_automaton(alloc, bytes.as_slice()) {
        Ok(automaton) => Ok(automaton),
        Err(AutoFault::Statement { number, cause }) => Err(Status::Unreadable {
            file,
            place: number,
            cause: cause_of(cause),
        }),
        Err(AutoFault::Memory) => Err(Status::Memory),
    }
}

fn cause_of(cause: AutoCause) -> Cause
    ensures { result ≡ cause_of cause }
{
    match cause {
        AutoCause::NotAscii { place } => Cause::NotAscii { place },
        AutoCause::Control { place } => Cause::Control { place },
        AutoCause::Shape => Cause::Shape,
        AutoCause::Twice { number } => Cause::Twice { number },
        AutoCause::Limit { count } => Cause::Limit { count },
    }
}

/// The automaton that the second file reads as, with the letters of the first, or why there is
/// none.
fn take_second<S: Shelf>(
    alloc: Global,
    shelf: &mut S,
    name: &str,
    first: &Automaton,
) -> Result<Automaton, Status>
    ensures takes { IfOk result (λ n.
        TakesAs (ReadsOver first.now) name.now n (S.state shelf.old)) }
    ensures letters { IfOk result (λ n. n.letters ≡ first.now.letters) }
    ensures fault { IfErr result
        (IsFileFault 2 name.now (SecondRefusal first.now)
        (S.state shelf.old) (S.state shelf.new)) }
    ensures quiet { IsQuietCall (S.state shelf.old) (S.state shelf.new) result }
    ensures frame { ShelfFrame (S.state shelf.old) (S.state shelf.new) }
{
    let second = match take_automaton(alloc, shelf, SECOND_FILE, name) {
        Ok(second) => second,
        Err(status) => return Err(status),
    };
    if same_letters(first, &second) {
        Ok(second)
    } else {
        Err(Status::Unreadable {
            file: SECOND_FILE,
            place: LETTERS,
            cause: Cause::Shape,
        })
    }
}

/// What comparing two automata gives, with its text.
#[tactic(auto, using(crate::proofs::SameTexts::comparing))]
fn compared<'a>(
    alloc: Global,
    first: &Automaton,
    second: &Automaton,
) -> Result<Ending<'a>, AllocError>
    requires { second.now.letters ≡ first.now.letters }
    ensures compared { IfOk result (λ e.
        IsComparedIn first.now second.now e.status e.text.items) }
    ensures stored { IfOk result (λ e. plain_stored e.stored ≡ None) }
{
    match compare(alloc, first, second)? {
        Compared::Same => Ok(Ending {
            status: Status::Ok,
            text: Vec::from_slice(alloc, b"same\n")?,
            stored: None,
        }),
        Compared::Differ { word } => Ok(Ending {
            status: Status::Differ {
                length: word.len() as u64,
            },
            text: differ_text(alloc, first, word.as_slice())?,
            stored: None,
        }),
    }
}

/// The line of a word in which two automata differ.
fn differ_text(alloc: Global, automaton: &Automaton, word: &[u32]) -> Result<Vec<u8>, AllocError>
    ensures { IfOk result (λ v. v.items ≡ differ_text (letters_of automaton.now word.now)) }
{
    let mut out = Vec::from_slice(alloc, b"differ:")?;
    push_letters(&mut out, automaton, word)?;
    out.extend_from_slice(b"\n")?;
    Ok(out)
}

/// Appends letters with a space before each.
fn push_letters(out: &mut Vec<u8>, automaton: &Automaton, word: &[u32]) -> Result<(), AllocError>
    ensures { OnOk result (out.new.items ≡ out.old.items
        ++ flat_map (λ w. 32 ∷ w) (letters_of automaton.now word.now)) }
{
    for letter in word {
        push_letter(out, automaton, *letter)?;
    }
    Ok(())
}

/// Appends a space and a letter.
fn push_letter(out: &mut Vec<u8>, automaton: &Automaton, letter: u32) -> Result<(), AllocError>
    ensures { OnOk result (out.new.items ≡ out.old.items
        ++ (32 ∷ unwrap_or (slice_get automaton.now.letters letter) [])) }
{
    out.push(b' ')?;
    match automaton.letter(letter) {
        Some(name) => out.extend_from_slice(name),
        None => Ok(()),
    }
}
