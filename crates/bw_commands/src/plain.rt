//! A first reader of the lines that scripts have most.
//!
//! `None` says nothing of a line: it is then read word by word.
ghost use Rattle.std.specs.Prelude.{◌≡◌, ◌≤◌, ◌<◌, ◌++◌, ◌∷◌, ℕ, List, Ok, IfSome, IsSome, length};
ghost use Rattle.std.specs.Prelude.{codes};
ghost use Rattle.bw_commands.specs.Command.{command_of_line};
ghost use Rattle.bw_commands.specs.Parsed.{meaning_of};
ghost use Rattle.bw_commands.specs.Plain.{IsWord, IsPlain};
ghost use Rattle.bw_commands.specs.declared.marked.TheConstants.{LEAST_MARKED};

use crate::command::{Change, Command, Question};
use crate::marked::{LEAST_MARKED, Marked};

// The command of a line, by what stands behind `mkdir `.
#[inline(always)]
fn mkdir_of(path: Marked<'_>) -> Option<Command<'_>>
    ensures known { IfSome result
        (λ c. command_of_line (codes "mkdir " ++ path.entry.text.now) ≡ Ok (meaning_of c)) }
    ensures answers { IsWord path.entry.text.now → IsSome result }
{
    if !path.is_word() {
        return None;
    }
    Some(Command::Change(Change::Mkdir { path: path.text() }))
}

// The command of a line, by what stands behind `demand `.
#[inline(always)]
fn demand_of(rest: Marked<'_>) -> Option<Command<'_>>
    ensures known { IfSome result
        (λ c. command_of_line (codes "demand " ++ rest.entry.text.now) ≡ Ok (meaning_of c)) }
    ensures answers { (path word : List ℕ) → IsWord path → IsWord word
        → rest.entry.text.now ≡ path ++ (32 ∷ word) → IsSome result }
{
    let (path, number) = rest.front_word()?;
    if !number.is_word() {
        return None;
    }
    Some(Command::Change(Change::Demand {
        path,
        number: number.text(),
    }))
}

// The command of a line, by what stands behind `read `.
#[inline(always)]
fn read_of(rest: Marked<'_>) -> Option<Command<'_>>
    ensures known { IfSome result
        (λ c. command_of_line (codes "read " ++ rest.entry.text.now) ≡ Ok (meaning_of c)) }
    ensures answers { (path word : List ℕ) → IsWord path → IsWord word
        → rest.entry.text.now ≡ path ++ (32 ∷ word) → IsSome result }
{
    let (path, file) = rest.front_word()?;
    if !file.is_word() {
        return None;
    }
    Some(Command::Question(Question::Read {
        path,
        file: file.text(),
    }))
}

// The command of a line, by what stands behind `write `.
#[inline(always)]
fn write_of(rest: Marked<'_>) -> Option<Command<'_>>
    ensures known { IfSome result
        (λ c. command_of_line (codes "write " ++ rest.entry.text.now) ≡ Ok (meaning_of c)) }
    ensures answers { (path word text : List ℕ) → IsWord path → IsWord word
        → rest.entry.text.now ≡ path ++ (32 ∷ (word ++ (32 ∷ text))) → IsSome result }
{
    let (path, rest) = rest.front_word()?;
    let (file, text) = rest.word_and_text()?;
    Some(Command::Change(Change::Write { path, file, text }))
}

/// The command of a line `mkdir P`, `demand P N`, `read P FILE` or `write P FILE TEXT`, if one
/// space stands between its words.
#[inline(always)]
pub(crate) fn plain_command(line: Marked<'_>) -> Option<Command<'_>>
    ensures known { IfSome result
        (λ c. command_of_line line.entry.text.now ≡ Ok (meaning_of c)) }
    ensures answers { LEAST_MARKED ≤ length line.entry.text.now
        → IsPlain line.entry.text.now → IsSome result }
{
    if line.text().len() < LEAST_MARKED {
        return None;
    }
    if let Some(rest) = line.behind("demand ") {
        return demand_of(rest);
    }
    if let Some(rest) = line.behind("write ") {
        return write_of(rest);
    }
    if let Some(rest) = line.behind("read ") {
        return read_of(rest);
    }
    if let Some(path) = line.behind("mkdir ") {
        return mkdir_of(path);
    }
    None
}
