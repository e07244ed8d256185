//! The state of a script: what changes it, and what answers a question.
ghost use Rattle.std.specs.Prelude.{◌≡◌, ◌≤◌, [], IfOk, IfErr};
ghost use Rattle.bw_tree.specs.declared.fault.TreeFault.TheVariants.{OutOfMemory};
ghost use Rattle.bw_hierarchy.specs.declared.fault.Fault.TheVariants.{Tree};
ghost use Rattle.std.specs.Vec.{vec_capacity};
ghost use Rattle.bw_commands.specs.Script.{outcome_of_command, read_outcome, ok_line, Performs};
ghost use Rattle.bw_commands.specs.State.{start};
ghost use Rattle.bw_commands.specs.ScriptState.{state_of};
ghost use Rattle.bw_commands.specs.Parsed.{change_of, question_of};

use crate::answers::{put_certified, put_plan, put_report, put_total, serve_period};
use crate::change::apply_change;
use crate::command::{Change, Question};
use crate::fault::ScriptFault;
use bw_hierarchy::{Fault, Hierarchy};
use bw_model::HostShape;
use bw_workers::Gate;
use std::alloc::Global;
use std::hash::RandomState;
use std::rt::Clock;
use std::sync::Wait;
use std::thread::Threads;

/// State of a script: a host with its tree of groups, and the gate of its workers.
#[derive(Drop)]
pub struct Script<'a, G> {
    alloc: Global,
    hierarchy: Hierarchy,
    gate: &'a G,
}

impl<'a, G: Gate> Script<'a, G> {
    /// Makes the root alone. `keys` are the keys of the hash by which groups are found. No answer
    /// depends on them.
    ///
    /// # Errors
    ///
    /// `OutOfMemory` if an allocation failed.
    pub fn new(
        alloc: Global,
        keys: RandomState,
        shape: HostShape,
        gate: &'a G,
    ) -> Result<Script<'a, G>, Fault>
        ensures made { IfOk result (λ c. state_of G.used c ≡ start shape (G.used gate.now)) }
        ensures err { IfErr result (λ fault. fault ≡ Tree OutOfMemory) }
    {
        let hierarchy = Hierarchy::new(alloc, keys, shape)?;
        Ok(Script {
            alloc,
            hierarchy,
            gate,
        })
    }

    // `read P FILE`
    #[tactic(auto, unfolding(crate::specs::Script::read_outcome))]
    fn read(&self, path: &str, file: &str, answer: &mut Vec<u8>) -> Result<(), ScriptFault>
        requires { answer.old.items ≡ [] }
        ensures outcome { Performs (state_of G.used self.now)
            (read_outcome (state_of G.used self.now) path.now file.now) result answer.new.items
            (state_of G.used self.now) }
        ensures room { vec_capacity answer.old ≤ vec_capacity answer.new }
    {
        Ok(self.hierarchy.read_file_into(path, file, answer)?)
    }

    /// Makes a change, whose answer is `ok`.
    ///
    /// # Errors
    ///
    /// The refusal of the line; it changes nothing.
    #[inline(always)]
    pub fn change(&mut self, change: Change<'_>) -> Result<(), ScriptFault>
        ensures { Performs (state_of G.used self.old)
            (outcome_of_command (state_of G.used self.old) (change_of change.entry)) result ok_line
            (state_of G.used self.new) }
    {
        apply_change(&mut self.hierarchy, change)
    }

    /// Forms the whole answer to a question in an empty buffer. A `period` then changes the state.
    ///
    /// # Errors
    ///
    /// The refusal of the line; it changes nothing.
    #[tactic(auto, unfolding(crate::specs::Faults::error_line))]
    pub fn answer<H: Threads + Wait + Clock + Sync>(
        &mut self,
        rt: &H,
        question: Question<'_>,
        answer: &mut Vec<u8>,
    ) -> Result<(), ScriptFault>
        requires { answer.old.items ≡ [] }
        ensures outcome { Performs (state_of G.used self.old)
            (outcome_of_command (state_of G.used self.old) (question_of question.entry))
            result answer.new.items (state_of G.used self.new) }
        ensures room { vec_capacity answer.old ≤ vec_capacity answer.new }
    {
        match question {
            Question::Read { path, file } => self.read(path, file, answer),
            Question::Total => Ok(put_total(self.alloc, &mut self.hierarchy, answer)?),
            Question::Plan => Ok(put_plan(rt, self.alloc, &mut self.hierarchy, answer)?),
            Question::Cert => Ok(put_certified(rt, self.alloc, &mut self.hierarchy, answer)?),
            Question::Period => serve_period(
                rt,
                self.alloc,
                &mut self.hierarchy,
                self.gate,
                answer,
            ),
            Question::Report => Ok(put_report(self.alloc, &self.hierarchy, answer)?),
        }
    }
}
