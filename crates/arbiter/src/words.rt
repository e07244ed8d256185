//! The words after the program's name.
ghost use Rattle.std.specs.Prelude.{◌≡◌, ◌∷◌, ℕ, List, true, false, IfOk, IfErr, MatchResult, Some};
ghost use Rattle.std.specs.Prelude.{codes, map, string_bytes};
ghost use Rattle.clap.specs.Words.{app_of, found_of, kind_of, one_of, rows_of, rule_of};
ghost use Rattle.clap.specs.Words.{subcommand_rows_of, without_minus};
ghost use Rattle.clap.specs.declared.builder.Command.TheViews.{out-Command as fields_of};
ghost use Rattle.arbiter.specs.CommandLine.{arbiter_app, number_rule, run_app};
ghost use Rattle.arbiter.specs.Found.{HasNumbers};
ghost use Rattle.arbiter.specs.Status.{is_shown, IsHelpUnlessMemory, IsUsageUnlessMemory};
ghost use Rattle.arbiter.specs.Words.{is_number, job_named, number_in, plain_job, run_job};
ghost use Rattle.arbiter.specs.declared.words.Job.{Job};

use crate::version::VERSION;
use clap::error::ErrorKind;
use clap::{Arg, ArgAction, ArgMatches, Command, Error, value_parser};
use std::alloc::{AllocError, Global};

/// The job that a command line names.
#[derive(Clone, Copy, Debug, PartialEq, Eq)]
pub enum Job {
    /// `arbiter run`: processors of the host, and its period and slice in microseconds. The host's
    /// ranges are not checked here.
    Run {
        processors: u32,
        period_us: u32,
        slice_us: u32,
    },
    /// `arbiter check`
    Check,
}

/// Why a command line gives no job.
#[derive(Debug, Drop)]
pub enum WordsFault {
    /// The text of `--help` or `--version`.
    Help(String),
    /// The words name no job. The text is `clap`'s message.
    Usage(String),
    /// An allocation failed.
    Memory,
}

// Text of `arbiter --help` behind the commands.
const STATUSES: &str = "\
Exit status:
  0  the script was read to its end, refused lines included; the text is accepted; help
  1  standard input or output failed, or memory was refused
  2  the command line or the host was refused
  3  the certified text was refused

Example:
  arbiter run --processors 2 < examples/two-groups.script";

// Text of `arbiter run --help` behind the options.
const COMMANDS: &str = "\
Commands of a script, one a line (P is a path: . for the root, else names joined by /):
  mkdir P             a new group
  rmdir P             removes a group without children and without a demand
  demand P N          a group without children asks for N slices in each period
  write P FILE TEXT   FILE is cpu.weight, cpu.max or cpu.max.burst
  read P FILE         or cpu.stat
  total               the slices that can be served, and what limits them
  plan                the slices that each group gets in one period
  cert                the certified text of the plan, for `arbiter check`
  period              serves one period by a worker for each processor, and counts it
  report              the counters of each group
A refused line prints `error N NAME`, changes nothing, and the script goes on.";

// An option `--name N`.
fn number<'a>(alloc: Global, name: &'a str, default: &'a str) -> Arg<'a>
    ensures rule { rule_of result ≡ number_rule name.entry.now default.entry.now }
    ensures local { result.global ≡ false }
{
    Arg::new(alloc, name)
        .long(name)
        .action(ArgAction::Set)
        .value_parser(value_parser!(u32))
        .default_value(default)
}

// Adds a help text to an option.
fn described<'a>(option: Arg<'a>, help: &'a str) -> Arg<'a>
    ensures rule { rule_of result ≡ rule_of option.entry }
    ensures local { result.global ≡ option.entry.global }
{
    option.help(help)
}

fn run_command<'a>(alloc: Global) -> Result<Command<'a>, AllocError>
    ensures app { IfOk result (λ c. app_of c ≡ run_app) }
    ensures local { IfOk result (λ c. (fields_of c).has_globals ≡ false) }
{
    let processors = number(alloc, "processors", "1");
    let processors = described(processors, "Processors of the host, 1 to 64");
    let period = number(alloc, "period", "100000");
    let period = described(period, "Its period in microseconds, 1000 to 1000000");
    let slice = number(alloc, "slice", "5000");
    let slice = described(
        slice,
        "Its slice in microseconds, 1000 to the period, which it divides",
    );
    let run = Command::new(alloc, "run")
        .about("Reads a script on standard input and answers each line")
        .after_help(COMMANDS)
        .arg(processors)?
        .arg(period)?
        .arg(slice)?;
    Ok(run)
}

fn arbiter_command<'a>(alloc: Global) -> Result<Command<'a>, AllocError>
    ensures app { IfOk result (λ c. app_of c ≡ arbiter_app) }
{
    let run = run_command(alloc)?;
    let check = Command::new(alloc, "check").about(
        "Reads one certified text on standard input: whether its amounts are the plan",
    );
    let arbiter = Command::new(alloc, "arbiter")
        .bin_name("arbiter")?
        .version(VERSION)
        .about("A proved arbiter of CPU bandwidth over a tree of groups")
        .after_help(STATUSES)
        .no_binary_name(true)
        .subcommand_required(true)
        .subcommand(run)?
        .subcommand(check)?;
    Ok(arbiter)
}

fn fault(alloc: Global, error: Error) -> WordsFault
    ensures memory { kind_of error ≡ ErrorKind.OutOfMemory → result ≡ WordsFault.Memory }
    ensures shown { is_shown (kind_of error) ≡ true → IsHelpUnlessMemory result }
    ensures refused { is_shown (kind_of error) ≡ false → IsUsageUnlessMemory result }
{
    match error.kind() {
        ErrorKind::OutOfMemory => WordsFault::Memory,
        kind => match error.to_string(alloc) {
            Ok(text) => match kind {
                ErrorKind::DisplayHelp | ErrorKind::DisplayVersion => WordsFault::Help(text),
                _ => WordsFault::Usage(text),
            },
            Err(_) => WordsFault::Memory,
        },
    }
}

// The number of an option, or its default.
fn number_found(found: &ArgMatches<'_>, name: &str, default: u32) -> u32
    ensures { (text : List ℕ) → one_of name.now (rows_of (found_of found.now))
        ≡ Some (without_minus text) → is_number text ≡ true → result ≡ number_in text }
{
    found.get_one::<u32>(name).unwrap_or(default)
}

// The job of `run` with its options.
fn run_found(found: &ArgMatches<'_>) -> Job
    ensures { (uses : _) → HasNumbers (rows_of (found_of found.now)) uses → result ≡ run_job uses }
{
    let processors = number_found(found, "processors", 1);
    let period_us = number_found(found, "period", 100000);
    let slice_us = number_found(found, "slice", 5000);
    Job::Run {
        processors,
        period_us,
        slice_us,
    }
}

// The job of the subcommand. `clap` refuses words without one, so the answer `Check` for that case
// is never used; no clause speaks of it.
fn job_found(matches: &ArgMatches<'_>) -> Job
    ensures run { (rows : _) (uses : _) → subcommand_rows_of matches.now ≡ Some (codes "run", rows)
        → HasNumbers rows uses → result ≡ run_job uses }
    ensures check { (rows : _) → subcommand_rows_of matches.now ≡ Some (codes "check", rows)
        → result ≡ Job.Check }
{
    let Some((name, found)) = matches.subcommand() else {
        return Job::Check;
    };
    if name == "run" {
        run_found(found)
    } else {
        Job::Check
    }
}

/// Reads the words behind the program's name.
///
/// # Errors
///
/// `Help` if the words ask for help or the version, `Usage` if they name no job, and `Memory` if an
/// allocation failed, also in place of the other two.
pub fn read_words(alloc: Global, words: &[String]) -> Result<Job, WordsFault>
    // Words that name a job give that job, unless an allocation failed.
    ensures named { (job : Job) → job_named (map string_bytes words.now) ≡ Some job
        → MatchResult result (λ k. k ≡ job) (λ f. f ≡ WordsFault.Memory) }
    // So do plain words: `check` alone, or `run` with each option at most once, as `--name N`.
    ensures plain { (job : Job) → plain_job (map string_bytes words.now) ≡ Some job
        → MatchResult result (λ k. k ≡ job) (λ f. f ≡ WordsFault.Memory) }
    // At Ok the job is the one that the words name.
    ensures ok { IfOk result (λ k. job_named (map string_bytes words.now) ≡ Some k) }
{
    let Ok(command) = arbiter_command(alloc) else {
        return Err(WordsFault::Memory);
    };
    match command.try_get_matches_from(words) {
        Ok(matches) => Ok(job_found(&matches)),
        Err(error) => Err(fault(alloc, error)),
    }
}
