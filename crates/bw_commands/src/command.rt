//! The command that a line of a script names.
ghost use Rattle.std.specs.Prelude.{◌≡◌, Some, length};
ghost use Rattle.bw_commands.specs.Command.{form, form_named, forms, words_behind};
ghost use Rattle.bw_commands.specs.Command.{command_of_form, command_of_words};
ghost use Rattle.bw_commands.specs.Parsed.{meaning_of, request_of};
ghost use Rattle.bw_commands.specs.Word.{first_word, after_word, end_of};
ghost use Rattle.bw_commands.specs.declared.marked.TheConstants.{LEAST_MARKED};

use crate::fault::ScriptFault;
use crate::marked::{LEAST_MARKED, MOST_MARKED, Marked, WIDE};
use crate::plain::plain_command;
use crate::word::split_word;
use bw_text::is_word;

/// Maximum length of a line in bytes. A longer line is refused.
pub const LINE_BYTES: usize = 65536;

/// A change of the groups or of their files. Its answer is `ok`, or its refusal.
#[derive(Clone, Copy)]
pub enum Change<'a> {
    /// `mkdir P` makes a group.
    Mkdir {
        path: &'a str,
    },
    /// `rmdir P` removes a group.
    Rmdir {
        path: &'a str,
    },
    /// `demand P N` sets the demand of a group, in slices of one period.
    Demand {
        path: &'a str,
        number: &'a str,
    },
    /// `write P FILE TEXT` writes a file of a group. The text is all that follows the third word.
    Write {
        path: &'a str,
        file: &'a str,
        text: &'a str,
    },
}

/// A question, whose answer is a text of its own. `period` alone changes the state.
#[derive(Clone, Copy)]
pub enum Question<'a> {
    /// `read P FILE` prints a file of a group.
    Read { path: &'a str, file: &'a str },
    /// `total` prints the greatest total, the limits that hold it down, and the demands outside
    /// them.
    Total,
    /// `plan` prints what each group gets.
    Plan,
    /// `cert` prints the plan as a certified text.
    Cert,
    /// `period` serves one period.
    Period,
    /// `report` prints the counters of each group.
    Report,
}

/// The request of a line of a script.
#[derive(Clone, Copy)]
pub enum Command<'a> {
    /// No word, or a comment, whose first word begins with `#`.
    Nothing,
    /// A change.
    Change(Change<'a>),
    /// A question.
    Question(Question<'a>),
}

impl<'a> Command<'a> {
    ghost use Rattle.std.specs.Prelude.{◌≡◌, ◌≤◌, Ok, IfSome, IsSome, length};
    ghost use Rattle.bw_commands.specs.Command.{command_of_line};
    ghost use Rattle.bw_commands.specs.Parsed.{meaning_of, request_of};
    ghost use Rattle.bw_commands.specs.Plain.{IsPlain};
    ghost use Rattle.bw_commands.specs.Script.{kept_of, request_of_kept};

    /// Reads the command of a line, without its newline.
    ///
    /// # Errors
    ///
    /// The first that applies:
    /// - `LineTooLong` if it has more than `LINE_BYTES` bytes.
    /// - `BadText` if it is not UTF-8.
    /// - `BadCommand` if its first word names no command, or not with that number of words.
    pub fn of_bytes(line: &'a [u8]) -> Result<Command<'a>, ScriptFault>
        ensures { request_of result ≡ request_of_kept (kept_of line.now) }
    {
        if line.len() > LINE_BYTES {
            return Err(ScriptFault::LineTooLong);
        }
        match str::from_utf8(line) {
            Ok(text) => Command::parse(text),
            Err(_) => Err(ScriptFault::BadText),
        }
    }

    /// Reads the command of a line that is known to be UTF-8, as `of_bytes` does.
    ///
    /// # Errors
    ///
    /// The first that applies: `LineTooLong`, `BadCommand`.
    #[inline(always)]
    pub fn of_text(line: &'a str) -> Result<Command<'a>, ScriptFault>
        ensures { request_of result ≡ request_of_kept (kept_of line.now) }
    {
        if line.len() > LINE_BYTES {
            return Err(ScriptFault::LineTooLong);
        }
        Command::parse(line)
    }

    // The command that the words of a line name.
    #[inline(always)]
    fn parse(line: &'a str) -> Result<Command<'a>, ScriptFault>
        ensures { request_of result ≡ command_of_line line.now }
    {
        if LEAST_MARKED <= line.len() && line.len() <= MOST_MARKED {
            return Command::parse_marked(Marked::new(line));
        }
        Command::of_any(line)
    }

    /// Reads the command of a plain line. `None` says nothing of a line: `of_marked` then reads it.
    #[inline(always)]
    pub fn of_plain(line: Marked<'a>) -> Option<Command<'a>>
        ensures known { IfSome result
            (λ c. request_of_kept (kept_of line.entry.text.now) ≡ Ok (meaning_of c)) }
        ensures answers { LEAST_MARKED ≤ length line.entry.text.now
            → IsPlain line.entry.text.now → IsSome result }
    {
        let _text = line.text();
        plain_command(line)
    }

    /// Reads the command of a line whose blanks are marked, word by word, as `of_text` does.
    ///
    /// # Errors
    ///
    /// `BadCommand`, as of `of_bytes`.
    #[inline(always)]
    pub fn of_marked(line: Marked<'a>) -> Result<Command<'a>, ScriptFault>
        ensures { request_of result ≡ request_of_kept (kept_of line.entry.text.now) }
    {
        let _text = line.text();
        Command::of_marked_words(line)
    }

    // The command that the words of a line name whose blanks are marked.
    #[inline(always)]
    fn parse_marked(line: Marked<'a>) -> Result<Command<'a>, ScriptFault>
        ensures { request_of result ≡ command_of_line line.entry.text.now }
    {
        match plain_command(line) {
            Some(command) => Ok(command),
            None => Command::of_marked_words(line),
        }
    }

    // The command of a line whose blanks are marked, word by word.
    #[tactic(auto, unfolding(crate::specs::Command::command_of_line))]
    #[inline(always)]
    fn of_marked_words(line: Marked<'a>) -> Result<Command<'a>, ScriptFault>
        ensures { request_of result ≡ command_of_line line.entry.text.now }
    {
        let (verb, rest) = line.split_word();
        let (first, rest) = rest.split_word();
        let (second, text) = rest.split_word();
        let (third, _) = text.split_word();
        of_words(verb, first, second, third, text.text())
    }

    // The command that the words of a line of any length name.
    #[tactic(auto, unfolding(crate::specs::Command::command_of_line))]
    #[inline(never)]
    fn of_any(line: &'a str) -> Result<Command<'a>, ScriptFault>
        ensures { request_of result ≡ command_of_line line.now }
    {
        let (verb, rest) = split_word(line);
        let (first, rest) = split_word(rest);
        let (second, text, third) = last_words(line, rest);
        of_words(verb, first, second, third, text)
    }
}

// The first two words of the end of a line, and between them what stands after the first. After a
// long path there are few bytes, which are marked by one load.
#[inline(always)]
fn last_words<'a>(line: &str, end: &'a str) -> (&'a str, &'a str, &'a str)
    requires { end.now ≡ end_of (length end.now) line.now }
    ensures word { result.0.now ≡ first_word end.now }
    ensures behind { result.1.now ≡ after_word end.now }
    ensures next { result.2.now ≡ first_word (after_word end.now) }
{
    if WIDE <= line.len() && end.len() <= WIDE {
        let (word, behind) = Marked::at_end(line, end).split_word();
        let (next, _) = behind.split_word();
        return (word, behind.text(), next);
    }
    let (word, behind) = split_word(end);
    let (next, _) = split_word(behind);
    (word, behind, next)
}

// The command of at most four words, and the text behind the third. An absent word is empty.
#[tactic(auto, unfolding(crate::specs::Command::command_of_words))]
#[inline(always)]
fn of_words<'a>(
    verb: &str,
    first: &'a str,
    second: &'a str,
    third: &str,
    text: &'a str,
) -> Result<Command<'a>, ScriptFault>
    ensures { request_of result
        ≡ command_of_words verb.now first.now second.now third.now text.now }
{
    if verb.is_empty() || verb.as_bytes()[0] == b'#' {
        return Ok(Command::Nothing);
    }
    of_verb(
        verb,
        words_behind(first, second, third),
        first,
        second,
        text,
    )
}

// The number of words behind the first, 0 to 3, where 3 is three or more.
#[inline(always)]
fn words_behind(first: &str, second: &str, third: &str) -> usize
    ensures { result ≡ words_behind first.now second.now third.now }
{
    if first.is_empty() {
        0
    } else if second.is_empty() {
        1
    } else if third.is_empty() {
        2
    } else {
        3
    }
}

// The command of a first word with `count` words behind it: the table of commands.
#[tactic(auto, unfolding(crate::specs::Command::forms))]
#[inline(always)]
fn of_verb<'a>(
    verb: &str,
    count: usize,
    path: &'a str,
    word: &'a str,
    text: &'a str,
) -> Result<Command<'a>, ScriptFault>
    ensures { request_of result
        ≡ command_of_form count (form_named verb.now (forms path.now word.now text.now)) }
{
    if is_word(verb, "mkdir") {
        return counted(count, 1, 1, Command::Change(Change::Mkdir { path }));
    }
    if is_word(verb, "rmdir") {
        return counted(count, 1, 1, Command::Change(Change::Rmdir { path }));
    }
    if is_word(verb, "demand") {
        let change = Change::Demand { path, number: word };
        return counted(count, 2, 2, Command::Change(change));
    }
    if is_word(verb, "read") {
        let question = Question::Read { path, file: word };
        return counted(count, 2, 2, Command::Question(question));
    }
    if is_word(verb, "write") {
        let change = Change::Write {
            path,
            file: word,
            text,
        };
        return counted(count, 2, 3, Command::Change(change));
    }
    if is_word(verb, "total") {
        return counted(count, 0, 0, Command::Question(Question::Total));
    }
    if is_word(verb, "plan") {
        return counted(count, 0, 0, Command::Question(Question::Plan));
    }
    if is_word(verb, "cert") {
        return counted(count, 0, 0, Command::Question(Question::Cert));
    }
    if is_word(verb, "period") {
        return counted(count, 0, 0, Command::Question(Question::Period));
    }
    if is_word(verb, "report") {
        return counted(count, 0, 0, Command::Question(Question::Report));
    }
    Err(ScriptFault::BadCommand)
}

// A command that has `least` to `most` words behind its first one.
#[inline(always)]
fn counted<'a>(
    count: usize,
    least: usize,
    most: usize,
    command: Command<'a>,
) -> Result<Command<'a>, ScriptFault>
    ensures { request_of result
        ≡ command_of_form count (Some (form least most (meaning_of command.entry))) }
{
    if count < least || most < count {
        return Err(ScriptFault::BadCommand);
    }
    Ok(command)
}
