//! The state of a script that is read, and the change that each line makes to it.
ghost use Rattle.std.specs.Prelude.{◌≡◌, IfOk};
ghost use Rattle.bw_hierarchy.specs.State.{new_hierarchy};
ghost use Rattle.bw_commands.specs.Parsed.{meaning_of, question_of};
ghost use Rattle.bw_commands.specs.Script.{outcome_of, outcome_of_command, read_outcome, Period};
ghost use Rattle.bw_commands.specs.Reading.{Takes};

use crate::change::apply_change;
use crate::command::{Command, Question};
use crate::fault::ScriptFault;
use bw_demand::gather_rows;
use bw_hierarchy::{Hierarchy, keys_of};
use bw_model::HostShape;
use bw_plan::plan_rows;
use std::alloc::{AllocError, Global};
use std::marker::Model;

/// State of a script between two lines. Each leaf uses the slices of its periods.
#[derive(Drop)]
pub struct ScriptReader {
    alloc: Global,
    hierarchy: Hierarchy,
}

impl Model for ScriptReader {
    ghost use Rattle.bw_hierarchy.specs.State.{HierarchyState};

    ghost Value = { HierarchyState };

    ghost view = { λ r. r.hierarchy };
}

impl ScriptReader {
    /// Makes the root alone. `hash_key` is a number that whoever writes the script cannot know.
    ///
    /// # Errors
    ///
    /// `AllocError` if an allocation failed.
    pub fn new(alloc: Global, hash_key: u64, shape: HostShape) -> Result<ScriptReader, AllocError>
        ensures { IfOk result (λ r. r ≡ new_hierarchy shape) }
    {
        let keys = keys_of(hash_key).map_err(|_| AllocError)?;
        let hierarchy = Hierarchy::new(alloc, keys, shape).map_err(|_| AllocError)?;
        Ok(ScriptReader { alloc, hierarchy })
    }

    /// The hierarchy after the last line.
    pub fn hierarchy(&self) -> &Hierarchy
        ensures { result.now ≡ self.now }
    {
        &self.hierarchy
    }

    /// Makes the change of a line, without its newline.
    ///
    /// # Errors
    ///
    /// The refusal of the line, or a fault with the number 71 if an allocation failed. The state is
    /// then unchanged.
    pub fn take_line(&mut self, line: &[u8]) -> Result<(), ScriptFault>
        ensures { Takes (λ s. outcome_of s line.now) self.old self.new result }
    {
        let command = Command::of_bytes(line)?;
        self.take(command)
    }

    // Makes the change of a command.
    fn take(&mut self, command: Command<'_>) -> Result<(), ScriptFault>
        ensures { Takes (λ s. outcome_of_command s (meaning_of command.entry))
            self.old self.new result }
    {
        match command {
            Command::Nothing => Ok(()),
            Command::Change(change) => apply_change(&mut self.hierarchy, change),
            Command::Question(question) => self.ask(question),
        }
    }

    // Makes the change of a question: that of `period` alone.
    fn ask(&mut self, question: Question<'_>) -> Result<(), ScriptFault>
        ensures { Takes (λ s. outcome_of_command s (question_of question.entry))
            self.old self.new result }
    {
        match question {
            Question::Read { path, file } => self.read(path, file),
            Question::Period => self.period(),
            Question::Total | Question::Plan | Question::Cert | Question::Report => Ok(()),
        }
    }

    // `read P FILE`, whose text is not kept.
    #[tactic(auto, unfolding(crate::specs::Script::read_outcome))]
    fn read(&mut self, path: &str, file: &str) -> Result<(), ScriptFault>
        ensures { Takes (λ s. read_outcome s path.now file.now) self.old self.new result }
    {
        let mut text = Vec::new(self.alloc);
        Ok(self.hierarchy.read_file_into(path, file, &mut text)?)
    }

    // `period`: what each group got of its plan is booked.
    fn period(&mut self) -> Result<(), ScriptFault>
        ensures { Takes (λ s. Period) self.old self.new result }
    {
        let snapshot = self.hierarchy.take_snapshot()?;
        let gathered = gather_rows(self.alloc, &snapshot.instance)?;
        let plan = plan_rows(self.alloc, &snapshot.instance, &gathered)?;
        self.hierarchy.book(snapshot, &gathered, &plan.amounts)?;
        Ok(())
    }
}
