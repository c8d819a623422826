//! The call `circ`: the program over any shelf and any sink.
ghost use Rattle.std.specs.Prelude.{◌≡◌, ◌≤◌, ℕ, List, [], None, map, string_bytes};
ghost use Rattle.std.specs.Prelude.{IfOk, OnOk, IfErr};
ghost use Rattle.circ_outer.specs.Shelf.{ShelfFrame, IsQuiet};
ghost use Rattle.circ_outer.specs.Sink.{SinkFrame};
ghost use Rattle.circ_top.specs.Command.{Asks, IsReport, IsBounded, plain_request};
ghost use Rattle.circ_status.specs.Ending.{plain_stored, plain_ending};
ghost use Rattle.circ_generate.specs.Generating.{Generates};
ghost use Rattle.circ_top.specs.Run.{run_of};
ghost use Rattle.circ_top.specs.Refusals.{refusal_text};
ghost use Rattle.circ_top.specs.Delivery.{Delivers};
ghost use Rattle.circ_top.specs.Storing.{HoldsAfter, FailsToStore, Ends, IsQuietEnd};
ghost use Rattle.circ_top.specs.Answer.{Succeeds, Comes, RefusesCommand, AnswersDue};
ghost use Rattle.circ_top.specs.Causes.{IsQuietRun};
ghost use Rattle.circ_top.specs.Promises.{Promises};
ghost use Rattle.circ_files.specs.Quiet.{IsQuietCall};

use crate::differ::differ;
use crate::prove::prove;
use crate::refusals::{refusal, usage};
use crate::regex::regex;
use crate::request::{Request, asked};
use crate::trace::trace;
use circ_attempt::laws::{one_answer as one_search, proved_is_accepted};
use circ_auto::laws::read_in_one_way as automata_read_in_one_way;
use circ_generate::generate;
use circ_outer::{OuterFault, Shelf, Sink, write_all};
use circ_proof_text::laws::one_answer;
use circ_read::laws::read_in_one_way;
use circ_regex::laws::{
    expressions_that_behave_match, read_in_one_way as expressions_read_in_one_way,
};
use circ_reports::{check, contexts, expand, library, reduce, same, show, upgrade};
use circ_script::laws::read_in_one_way as scripts_read_in_one_way;
use circ_show::laws::printed_in_one_way;
use circ_soundness::{goals_behave, one_verdict};
use circ_status::{Ending, Status, Stored};
use std::alloc::Global;

/// The program: `words` are its name and then a command with what it takes, which is
/// `check THEORY PROOF`, `relation THEORY PROOF`, `prove THEORY SCRIPT PROOF`, `show THEORY`,
/// `contexts THEORY`, `reduce THEORY SCRIPT`, `same FIRST SECOND`, `differ THEORY SCRIPT`,
/// `trace THEORY SCRIPT`, `regex LEFT RIGHT PROOF`, `upgrade THEORY PROOF NEW`,
/// `expand THEORY PROOF GOAL ENTRY*`, `library NAME` or `generate NUMBER`. The options
/// `--steps N` and `--derives N` and the flags `--split` and `--rewrite` may stand before, behind or
/// between them.
/// The files are taken from the shelf, to which `prove`, `regex` and `upgrade` store a proof, and
/// the text of the answer is written to the sink, whole.
///
/// Its one clause is the headline. Status 0 of `check` and `relation`: the proof is accepted, so
/// that every goal behaves. Status 1: which step is the first that is no instance of its rule. So
/// it says what status 0 of each command means, and the cause and the text of each answer. Where
/// the shelf tells what its files hold, the answer is the outcome of the words and the files,
/// unless a count of faults rose or memory ran out. `Promises` in `specs/Promises.antt` has a field
/// for each of these, over a `Run` (`specs/Run.antt`): the words, and the shelf and the sink before
/// and after.
pub fn circ<S: Shelf, K: Sink>(
    alloc: Global,
    words: &Vec<String>,
    shelf: &mut S,
    out: &mut K,
) -> Status
    ensures promises { Promises (record {
      words = map string_bytes words.now.items;
      before = S.state shelf.old;
      after = S.state shelf.new;
      start = K.state out.old;
      end = K.state out.new;
    }) result }
{
    read_in_one_way();
    scripts_read_in_one_way();
    automata_read_in_one_way();
    expressions_read_in_one_way();
    printed_in_one_way();
    one_answer();
    one_verdict();
    one_search();
    proved_is_accepted();
    goals_behave();
    expressions_that_behave_match();
    answer(alloc, words.as_slice(), shelf, out)
}

/// Runs the program with its words, and says what came of it.
fn answer<S: Shelf, K: Sink>(alloc: Global, words: &[String], shelf: &mut S, out: &mut K) -> Status
    ensures answers { AnswersDue (run_of (map string_bytes words.now)
        (S.state shelf.old) (S.state shelf.new) (K.state out.old) (K.state out.new)) result }
    ensures quiet { IsQuietRun (map string_bytes words.now)
        (S.state shelf.old) (S.state shelf.new) result }
    ensures shelf_tells { (S.state shelf.new).tells ≡ (S.state shelf.old).tells }
    ensures shelf_count { (S.state shelf.old).count ≤ (S.state shelf.new).count }
    ensures sink_frame { SinkFrame (K.state out.old) (K.state out.new) }
{
    match asked(alloc, words) {
        Ok(Some(request)) => answer_to(alloc, &request, shelf, out),
        Ok(None) => deliver(out, Status::Usage, usage()),
        Err(_) => Status::Memory,
    }
}

/// Runs a command, and says what came of it.
fn answer_to<S: Shelf, K: Sink>(
    alloc: Global,
    request: &Request<'_>,
    shelf: &mut S,
    out: &mut K,
) -> Status
    requires { IsBounded (plain_request request.now) }
    ensures answers { (words : List (List ℕ)) → Asks words (plain_request request.now) →
        AnswersDue (run_of words
        (S.state shelf.old) (S.state shelf.new) (K.state out.old) (K.state out.new)) result }
    ensures quiet { (words : List (List ℕ)) → Asks words (plain_request request.now) →
        IsQuietRun words (S.state shelf.old) (S.state shelf.new) result }
    ensures shelf_tells { (S.state shelf.new).tells ≡ (S.state shelf.old).tells }
    ensures shelf_count { (S.state shelf.old).count ≤ (S.state shelf.new).count }
    ensures sink_frame { SinkFrame (K.state out.old) (K.state out.new) }
{
    match run(alloc, request, shelf) {
        Ok(ending) => conclude(shelf, out, ending),
        Err(status) => refuse(alloc, request, status, out),
    }
}

/// How the work of a command ends, or the answer in its place.
fn run<'a, S: Shelf>(
    alloc: Global,
    request: &Request<'a>,
    shelf: &mut S,
) -> Result<Ending<'a>, Status>
    requires { IsBounded (plain_request request.now) }
    ensures comes { IfOk result (λ e. Comes (plain_request request.now)
        e.status e.text.items (plain_stored e.stored) (S.state shelf.old)) }
    ensures refuses { IfErr result
        (RefusesCommand (plain_request request.now) (S.state shelf.old) (S.state shelf.new)) }
    ensures quiet { IsQuietCall (S.state shelf.old) (S.state shelf.new) result }
    ensures frame { ShelfFrame (S.state shelf.old) (S.state shelf.new) }
{
    match request {
        Request::Prove {
            limits,
            theory,
            script,
            proof,
        } => prove(alloc, shelf, *limits, theory, script, proof),
        Request::Same { first, second } => same(alloc, shelf, first, second),
        Request::Differ {
            limits,
            theory,
            script,
        } => differ(alloc, shelf, *limits, theory, script),
        Request::Trace {
            limits,
            theory,
            script,
        } => trace(alloc, shelf, *limits, theory, script),
        Request::Regex {
            limits,
            left,
            right,
            proof,
        } => regex(alloc, *limits, left, right, proof),
        Request::Upgrade { theory, proof, new } => upgrade(alloc, shelf, theory, proof, new),
        Request::Generate { number } => generated(alloc, *number),
        _ => match report(alloc, request, shelf) {
            Ok(text) => Ok(Ending {
                status: Status::Ok,
                text,
                stored: None,
            }),
            Err(status) => Err(status),
        },
    }
}

/// What comes of a chain, or want of memory.
fn generated<'a>(alloc: Global, number: u16) -> Result<Ending<'a>, Status>
    ensures comes { IfOk result (λ e. Generates number (plain_ending e)) }
    ensures memory { IfErr result (λ s. s ≡ Status.Memory) }
{
    Ok(generate(alloc, number)?)
}

/// The text of a command that prints it alone, or the answer in its place.
fn report<S: Shelf>(alloc: Global, request: &Request<'_>, shelf: &mut S) -> Result<Vec<u8>, Status>
    requires { IsReport (plain_request request.now) }
    ensures succeeds { IfOk result (λ v.
        Succeeds (plain_request request.now) v.items None (S.state shelf.old)) }
    ensures refuses { IfErr result
        (RefusesCommand (plain_request request.now) (S.state shelf.old) (S.state shelf.new)) }
    ensures quiet { IsQuietCall (S.state shelf.old) (S.state shelf.new) result }
    ensures frame { ShelfFrame (S.state shelf.old) (S.state shelf.new) }
{
    match request {
        Request::Check {
            report,
            theory,
            proof,
        } => check(alloc, shelf, *report, theory, proof),
        Request::Show { theory } => show(alloc, shelf, theory),
        Request::Contexts { budget, theory } => contexts(alloc, shelf, *budget, theory),
        Request::Reduce {
            budget,
            theory,
            script,
        } => reduce(alloc, shelf, *budget, theory, script),
        Request::Expand {
            theory,
            proof,
            goal,
            derivatives,
        } => expand(alloc, shelf, theory, proof, *goal, derivatives.as_slice()),
        Request::Library { text } => library(alloc, text),
        _ => unreachable!(),
    }
}

/// Stores the file of an ending, and writes its text.
fn conclude<S: Shelf, K: Sink>(shelf: &mut S, out: &mut K, ending: Ending<'_>) -> Status
    ensures ends { (words : List (List ℕ)) → Ends (run_of words
        (S.state shelf.old) (S.state shelf.new) (K.state out.old) (K.state out.new))
        ending.entry.status ending.entry.text.items (plain_stored ending.entry.stored) result }
    ensures quiet { IsQuietEnd (plain_stored ending.entry.stored)
        (S.state shelf.old) (S.state shelf.new) result }
    ensures shelf_tells { (S.state shelf.new).tells ≡ (S.state shelf.old).tells }
    ensures shelf_count { (S.state shelf.old).count ≤ (S.state shelf.new).count }
    ensures sink_frame { SinkFrame (K.state out.old) (K.state out.new) }
{
    if let Err(status) = store(shelf, &ending.stored) {
        return status;
    }
    deliver(out, ending.status, ending.text.as_slice())
}

/// Stores what is to be stored, or says why it is not.
fn store<S: Shelf>(shelf: &mut S, file: &Option<Stored<'_>>) -> Result<(), Status>
    ensures held { OnOk result
        (HoldsAfter (plain_stored file.now) (S.state shelf.old) (S.state shelf.new)) }
    ensures quiet { OnOk result (IsQuiet (S.state shelf.old) (S.state shelf.new)) }
    ensures fails { IfErr result
        (FailsToStore (plain_stored file.now) (S.state shelf.old) (S.state shelf.new)) }
    ensures tells { (S.state shelf.new).tells ≡ (S.state shelf.old).tells }
    ensures count { (S.state shelf.old).count ≤ (S.state shelf.new).count }
{
    let Some(file) = file else {
        return Ok(());
    };
    match shelf.put(file.name, file.bytes.as_slice()) {
        Ok(()) => Ok(()),
        Err(OuterFault::Failed) => Err(Status::WriteFault {
            count: shelf.faults(),
        }),
        Err(OuterFault::Memory) => Err(Status::Memory),
    }
}

/// Writes the text of a refusal.
fn refuse<K: Sink>(alloc: Global, request: &Request<'_>, status: Status, out: &mut K) -> Status
    ensures delivers { Delivers (refusal_text (plain_request request.now) status)
        (K.state out.old) (K.state out.new) status result }
    ensures unread { (n : ℕ) → status ≡ Status.ReadFault n → result ≡ status }
    ensures frame { SinkFrame (K.state out.old) (K.state out.new) }
{
    match refusal(alloc, request, &status) {
        Ok(text) => deliver(out, status, text.as_slice()),
        Err(_) => Status::Memory,
    }
}

/// Writes the text of an answer. Where this fails, the answer is that it does.
fn deliver<K: Sink>(out: &mut K, status: Status, text: &[u8]) -> Status
    ensures delivers { Delivers text.now (K.state out.old) (K.state out.new) status result }
    ensures empty { text.now ≡ [] → result ≡ status }
    ensures frame { SinkFrame (K.state out.old) (K.state out.new) }
{
    match write_all(out, text) {
        Ok(()) => status,
        Err(OuterFault::Failed) => Status::WriteFault {
            count: out.faults(),
        },
        Err(OuterFault::Memory) => Status::Memory,
    }
}
