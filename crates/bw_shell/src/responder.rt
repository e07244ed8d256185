//! Answers whole lines of a script.
ghost use Rattle.std.specs.Prelude.{◌≡◌, ◌≤◌, ◌||◌, not, [], true, Ok, OnOk, IfSome};
ghost use Rattle.std.specs.Vec.{vec_capacity};
ghost use Rattle.bw_commands.specs.Command.{Period};
ghost use Rattle.bw_commands.specs.Parsed.{request_of, question_of, meaning_of};
ghost use Rattle.bw_commands.specs.Script.{kept_of, request_of_kept};
ghost use Rattle.bw_streams.specs.Watched.{is_flushed, HasNoFault};
ghost use Rattle.bw_shell.specs.Gathers.{GathersText};
ghost use Rattle.bw_shell.specs.Piece.{bytes_of};
ghost use Rattle.bw_commands.specs.declared.refusal.TheConstants.{REFUSAL_BYTES};

use crate::piece::Piece;
use crate::waiting::{WAITING_BYTES, flush_waiting, gather, send_waiting};
use bw_commands::{Change, Command, Question, REFUSAL_BYTES, Script, ScriptFault, put_error};
use bw_model::HostShape;
use bw_streams::{RunFault, Watched, flush};
use bw_workers::Gate;
use std::alloc::{AllocError, Global};
use std::hash::RandomState;
use std::io::Write;
use std::rt::Clock;
use std::sync::Wait;
use std::thread::Threads;

// The command of a plain line. `None` says nothing of a line.
#[inline(always)]
fn plain_command_of(line: Piece<'_>) -> Option<Command<'_>>
    ensures { IfSome result
        (λ c. request_of_kept (kept_of (bytes_of line.entry)) ≡ Ok (meaning_of c)) }
{
    match line {
        Piece::Line(line) => Command::of_plain(line),
        Piece::Text(_) | Piece::Bytes(_) => None,
    }
}

// The command that a line of any form asks for, or the refusal of the line. It is not inlined, since
// it is much code, and few lines need it.
#[inline(never)]
fn any_command_of(line: Piece<'_>) -> Result<Command<'_>, ScriptFault>
    ensures { request_of result ≡ request_of_kept (kept_of (bytes_of line.entry)) }
{
    match line {
        Piece::Text(text) => Command::of_text(text),
        Piece::Bytes(bytes) => Command::of_bytes(bytes),
        Piece::Line(line) => Command::of_marked(line),
    }
}

// The command that a line asks for, or the refusal of the line.
#[inline(always)]
fn command_of(line: Piece<'_>) -> Result<Command<'_>, ScriptFault>
    ensures { request_of result ≡ request_of_kept (kept_of (bytes_of line.entry)) }
{
    match plain_command_of(line) {
        Some(command) => Ok(command),
        None => any_command_of(line),
    }
}

// Whether the answer may take long, as each `period` does.
fn takes_long(question: Question<'_>) -> bool
    ensures long { question_of question.entry ≡ Period → result ≡ true }
    ensures only { result ≡ true → question_of question.entry ≡ Period }
{
    matches!(question, Question::Period)
}

// Writes what waits and flushes the writer before a question that may take long, so that no earlier
// answer waits for it.
fn flush_before<W: Write>(
    question: Question<'_>,
    writer: &mut Watched<W>,
    waiting: &mut Vec<u8>,
) -> Result<(), RunFault>
    requires { HasNoFault writer.old }
    ensures gathers { GathersText W.contents writer.old writer.new waiting.old.items
        waiting.new.items result [] }
    ensures empty { OnOk result (question_of question.entry ≡ Period → waiting.new.items ≡ []) }
    ensures flushed { OnOk result (question_of question.entry ≡ Period → is_flushed writer.new
        ≡ true) }
{
    if !takes_long(question) {
        return Ok(());
    }
    match send_waiting(writer, waiting) {
        Ok(()) => {}
        Err(fault) => return Err(fault),
    }
    if writer.flushed() {
        return Ok(());
    }
    flush(writer)
}

// Whether an answer may be formed: one that takes long needs a flushed writer.
fn may_begin(long: bool, flushed: bool) -> bool
    ensures { result ≡ (not long || flushed) }
{
    !long || flushed
}

/// The state of a script, the buffer of the answer to its last line, and the answers that wait to
/// be written. They have a buffer of their own, since a refusal clears that of the answer.
#[derive(Drop)]
pub struct Responder<'a, G> {
    script: Script<'a, G>,
    answer: Vec<u8>,
    waiting: Vec<u8>,
    ghost answer_room: { REFUSAL_BYTES ≤ vec_capacity answer },
}

impl<'a, G: Gate> Responder<'a, G> {
    ghost use Rattle.std.specs.Prelude.{◌≡◌, [], IfOk, OnOk, true};
    ghost use Rattle.bw_commands.specs.Faults.{error_line};
    ghost use Rattle.bw_commands.specs.Parsed.{change_of, question_of};
    ghost use Rattle.bw_commands.specs.Script.{outcome_of_command, IsAnswer, IsOutcome};
    ghost use Rattle.bw_commands.specs.State.{State, start};
    ghost use Rattle.bw_shell.specs.Gathers.{Gathers, GathersText};
    ghost use Rattle.bw_shell.specs.Piece.{bytes_of};
    ghost use Rattle.bw_shell.specs.Responder.{responder_state, responder_waits};
    ghost use Rattle.bw_streams.specs.Watched.{is_flushed, HasNoFault};
    ghost use Rattle.bw_streams.specs.Writes.{Writes};

    /// Allocates all the space that refusals need, and the space of the answers that wait.
    ///
    /// # Errors
    ///
    /// `AllocError` if an allocation failed.
    pub fn new(
        alloc: Global,
        keys: RandomState,
        shape: HostShape,
        gate: &'a G,
    ) -> Result<Responder<'a, G>, AllocError>
        ensures state { IfOk result (λ r. responder_state G.used r
            ≡ start shape (G.used gate.now)) }
        ensures waits { IfOk result (λ r. responder_waits r ≡ []) }
    {
        let answer = Vec::with_capacity(alloc, REFUSAL_BYTES)?;
        let waiting = Vec::with_capacity(alloc, WAITING_BYTES)?;
        Ok(Responder {
            script: Script::new(alloc, keys, shape, gate).map_err(|_| AllocError)?,
            answer,
            waiting,
        })
    }

    // Forms the answer to a question in the buffer.
    fn form<H: Threads + Wait + Clock + Sync>(&mut self, rt: &H, question: Question<'_>)
        ensures outcome { IsOutcome (responder_state G.used self.old)
            (outcome_of_command (responder_state G.used self.old) (question_of question.entry))
            self.new.answer.items (responder_state G.used self.new) }
        ensures waits { responder_waits self.new ≡ responder_waits self.old }
    {
        self.answer.clear();
        if let Err(fault) = self.script.answer(rt, question, &mut self.answer) {
            self.answer.clear();
            put_error(&mut self.answer, fault);
        }
    }

    // Makes a change, and puts its answer behind those that wait.
    #[inline(always)]
    fn change<W: Write>(
        &mut self,
        change: Change<'_>,
        writer: &mut Watched<W>,
    ) -> Result<(), RunFault>
        requires { HasNoFault writer.old }
        ensures { Gathers W.contents writer.old writer.new (responder_waits self.old)
            (responder_waits self.new) result
            (λ answer. IsOutcome (responder_state G.used self.old)
            (outcome_of_command (responder_state G.used self.old) (change_of change.entry)) answer
            (responder_state G.used self.new))
            (λ answer. (t : State) × IsOutcome (responder_state G.used self.old)
            (outcome_of_command (responder_state G.used self.old) (change_of change.entry)) answer
            t) }
    {
        match self.script.change(change) {
            Ok(()) => gather(writer, &mut self.waiting, b"ok\n"),
            Err(fault) => self.refuse(fault, writer),
        }
    }

    // Puts a refusal behind the answers that wait.
    #[inline(never)]
    fn refuse<W: Write>(
        &mut self,
        fault: ScriptFault,
        writer: &mut Watched<W>,
    ) -> Result<(), RunFault>
        requires { HasNoFault writer.old }
        ensures gathers { GathersText W.contents writer.old writer.new (responder_waits self.old)
            (responder_waits self.new) result (error_line fault) }
        ensures state { responder_state G.used self.new ≡ responder_state G.used self.old }
    {
        self.answer.clear();
        put_error(&mut self.answer, fault);
        gather(writer, &mut self.waiting, self.answer.as_slice())
    }

    // Puts the answer to a question behind those that wait. Before one that may take long, these
    // are written and the writer is flushed.
    fn answer<H: Threads + Wait + Clock + Sync, W: Write>(
        &mut self,
        rt: &H,
        question: Question<'_>,
        writer: &mut Watched<W>,
    ) -> Result<(), RunFault>
        requires { HasNoFault writer.old }
        ensures { Gathers W.contents writer.old writer.new (responder_waits self.old)
            (responder_waits self.new) result
            (λ answer. IsOutcome (responder_state G.used self.old)
            (outcome_of_command (responder_state G.used self.old) (question_of question.entry))
            answer (responder_state G.used self.new))
            (λ answer. (t : State) × IsOutcome (responder_state G.used self.old)
            (outcome_of_command (responder_state G.used self.old) (question_of question.entry))
            answer t) }
    {
        match flush_before(question, writer, &mut self.waiting) {
            Ok(()) => {}
            Err(fault) => return Err(fault),
        }
        // no answer waits while a period is served
        let ready = may_begin(
            takes_long(question),
            self.waiting.is_empty() && writer.flushed(),
        );
        prove!(ready);
        self.form(rt, question);
        gather(writer, &mut self.waiting, self.answer.as_slice())
    }

    /// Puts the answer to a line behind those that wait. Before a line that may take long, these
    /// are written and the writer is flushed.
    ///
    /// # Errors
    ///
    /// `Write` if a write or a flush failed, or a write took no bytes.
    pub fn reply<H: Threads + Wait + Clock + Sync, W: Write>(
        &mut self,
        rt: &H,
        line: Piece<'_>,
        writer: &mut Watched<W>,
    ) -> Result<(), RunFault>
        requires { HasNoFault writer.old }
        ensures { Gathers W.contents writer.old writer.new (responder_waits self.old)
            (responder_waits self.new) result
            (λ answer. IsAnswer (responder_state G.used self.old) (bytes_of line.entry) answer
            (responder_state G.used self.new))
            (λ answer. (t : State)
            × IsAnswer (responder_state G.used self.old) (bytes_of line.entry) answer t) }
    {
        match command_of(line) {
            Ok(Command::Nothing) => Ok(()),
            Ok(Command::Change(change)) => self.change(change, writer),
            Ok(Command::Question(question)) => self.answer(rt, question, writer),
            Err(refusal) => self.refuse(refusal, writer),
        }
    }

    /// Writes the answers that wait, and flushes the writer.
    ///
    /// # Errors
    ///
    /// `Write` if a write or a flush failed, or a write took no bytes.
    pub fn flush<W: Write>(&mut self, writer: &mut Watched<W>) -> Result<(), RunFault>
        requires { HasNoFault writer.old }
        ensures writes { Writes W.contents writer.old writer.new result
            (λ sent. sent ≡ responder_waits self.old) (λ sent. sent ≡ responder_waits self.old) }
        ensures empty { OnOk result (responder_waits self.new ≡ []) }
        ensures flushed { OnOk result (is_flushed writer.new ≡ true) }
        ensures state { responder_state G.used self.new ≡ responder_state G.used self.old }
    {
        flush_waiting(writer, &mut self.waiting)
    }
}
