//! The words of a command line.
ghost use Rattle.std.specs.Prelude.{◌≡◌, ◌↔◌, ℕ, IfErr, IfOk, IfSome, None, Some, codes, false, map};
ghost use Rattle.clap.specs.Walk.{first_of, one_of, rows_of, rule_of};
ghost use Rattle.clap.specs.Simple.{app_of, subcommand_rows_of};
ghost use Rattle.clap.specs.Matches.{found_of};
ghost use Rattle.clap.specs.Values.{kind_of};
ghost use Rattle.clap.specs.declared.builder.command.Command.TheViews.{out-Command as fields_of};
ghost use Rattle.collector.specs.declared.apart.CellKind.TheVariants.{Box, Word};
ghost use Rattle.steps.specs.ConfigRange.{default_sizes};
ghost use Rattle.trace_driver.specs.Refusals.{IsToldOf};
ghost use Rattle.trace_driver.specs.Gctrace.{IsCellsRule, IsGctrace, number_rule, task_app};
ghost use Rattle.trace_driver.specs.Asked.{AreAskedBy, AreRefusedFor, AreToldOf};
ghost use Rattle.trace_driver.specs.Asked.{AreCellsOf, AreOptionsIn, AreOptionsOf, AreSizesIn, IsNumberOf, IsTaskOf};
ghost use Rattle.trace_driver.specs.Defaults.{AreDefaultsOf};

use clap::error::ErrorKind;
use clap::{Arg, ArgMatches, Command, Error, value_parser};
use collector::CellKind;
use std::alloc::{AllocError, Global};
use std::convert::AsStr;
use steps::Sizes;
use thiserror::Error as ThisError;

/// What a command line asks for.
#[derive(Clone, Copy, Debug)]
pub enum Task {
    /// To carry out a trace.
    Run,
    /// To carry out a trace with the schedules of its collections.
    Replay,
}

/// What a command line gives: its task, and the numbers, in no particular range.
#[derive(Clone, Copy, Debug)]
pub struct Options {
    /// Which subcommand was given, `run` or `replay`.
    pub task: Task,
    /// How many workers a collection has. 1 to 16 are in range.
    pub threads: u64,
    /// The cells that threads share, which a replay has none of.
    pub cells: CellKind,
    /// The sizes of the heap, any of which may be out of range.
    pub sizes: Sizes,
}

/// Why the words ask for no run, with what is to be told of it.
#[derive(Debug, Drop, ThisError)]
pub enum Refused {
    /// They ask for this help.
    #[error("{0}")]
    Help(String),
    /// There is a mistake in them.
    #[error("{0}")]
    Usage(String),
    /// Memory was refused while the words were read, or for the text that tells of them.
    #[error("no memory")]
    NoMemory,
}

/// What the program is, as `--version` tells.
const VERSION: &str = "0.1.0";

const ABOUT: &str = "Carries out traces of heap commands, in a heap that is collected by copying.
A trace comes from standard input. What it writes goes to standard output, and a fault to standard error.";

const ABOUT_RUN: &str = "Carries out a trace. A nursery that is full is collected by itself.";

const ABOUT_REPLAY: &str =
    "Carries out a trace in which each collection has a schedule, up to its line `commit`.";

/// What stands below the options, whatever the help is about.
const AFTER_HELP: &str = "Examples:
  gctrace run < trace
  gctrace run --generations 1 --block-words 64 --blocks 100 < trace
  gctrace run --threads 4 --cells box < trace
  gctrace replay --threads 2 < trace-with-schedules

Status:
  0  each line was carried out
  1  the heap is full, memory is wanting, or cells are not settled
  2  a line is faulty
  3  the words are mistaken, or an option is out of range
  4  a read or a write failed

The lines of traces and schedules are described in docs/FORMATS.md.";

/// The default of each size, as it is written.
#[derive(Drop)]
struct Defaults {
    mutators: String,
    generations: String,
    steps: String,
    block_words: String,
    nursery_blocks: String,
    blocks: String,
}

impl Defaults {
    fn of(alloc: Global, sizes: Sizes) -> Result<Defaults, AllocError>
        ensures { IfOk result (AreDefaultsOf sizes) }
    {
        Ok(Defaults {
            mutators: format!(in alloc; "{}", sizes.mutators)?,
            generations: format!(in alloc; "{}", sizes.generations)?,
            steps: format!(in alloc; "{}", sizes.steps)?,
            block_words: format!(in alloc; "{}", sizes.block_words)?,
            nursery_blocks: format!(in alloc; "{}", sizes.nursery_blocks)?,
            blocks: format!(in alloc; "{}", sizes.blocks)?,
        })
    }
}

/// An option with one whole number.
fn number_option<'a>(alloc: Global, name: &'a str, default: &'a str, help: &'a str) -> Arg<'a>
    ensures rule { rule_of result ≡ number_rule name.now default.now }
    ensures local { result.global ≡ false }
{
    Arg::new(alloc, name)
        .long(name)
        .value_name("NUMBER")
        .help(help)
        .value_parser(value_parser!(u64))
        .default_value(default)
}

/// The kind of forwarding cells.
fn cells_option<'a>(alloc: Global) -> Arg<'a>
    ensures rule { IsCellsRule (rule_of result) }
    ensures local { result.global ≡ false }
{
    Arg::new(alloc, "cells")
        .long("cells")
        .value_name("KIND")
        .help("Kind of forwarding cells that threads share")
        .value_parser(["box", "word"].as_slice())
        .default_value("word")
}

/// A subcommand with the options that each of them takes.
fn task_command<'a>(
    alloc: Global,
    name: &'a str,
    about: &'a str,
    threads: &'a str,
    defaults: &'a Defaults,
) -> Result<Command<'a>, AllocError>
    requires { AreDefaultsOf default_sizes defaults.now }
    ensures { IfOk result (λ c. (app_of c ≡ task_app name.now default_sizes) × ((fields_of c).has_globals ≡ false)) }
{
    let of_nurseries = "Blocks of each mutator's nursery: 1 to 64";
    let of_steps = "Steps of each generation but the oldest: 1 to 4";
    let of_words = "Words of a block: 16 to 512, a multiple of 4";
    Command::new(alloc, name)
        .about(about)
        .after_help(AFTER_HELP)
        .arg(number_option(alloc, "threads", "1", threads))?
        .arg(number_option(alloc, "mutators", &defaults.mutators, "Mutators: 1 to 16"))?
        .arg(number_option(
            alloc,
            "generations",
            &defaults.generations,
            "Generations: 1 to 4",
        ))?
        .arg(number_option(alloc, "steps", &defaults.steps, of_steps))?
        .arg(number_option(alloc, "block-words", &defaults.block_words, of_words))?
        .arg(number_option(alloc, "nursery", &defaults.nursery_blocks, of_nurseries))?
        .arg(number_option(
            alloc,
            "blocks",
            &defaults.blocks,
            "Blocks in all: 1 to 65535",
        ))
}

fn gctrace_command<'a>(alloc: Global, defaults: &'a Defaults) -> Result<Command<'a>, AllocError>
    requires { AreDefaultsOf default_sizes defaults.now }
    ensures { IfOk result (λ c. IsGctrace (app_of c) × ((fields_of c).has_globals ≡ false)) }
{
    let of_run = "Workers of a collection, each on a thread: 1 to 16";
    let run = task_command(alloc, "run", ABOUT_RUN, of_run, defaults)?;
    let of_replay = "Workers of a collection, in turn: 1 to 16";
    let replay = task_command(alloc, "replay", ABOUT_REPLAY, of_replay, defaults)?;
    Command::new(alloc, "gctrace")
        .version(VERSION)
        .about(ABOUT)
        .after_help(AFTER_HELP)
        .subcommand_required(true)
        .subcommand(run.arg(cells_option(alloc))?)?
        .subcommand(replay)
}

/// The task of the subcommand of this name.
fn task_of(name: &str) -> Option<Task>
    ensures some { IfSome result (IsTaskOf name.now) }
    ensures none { result ≡ None → (task : _) → IsTaskOf name.now task → ⊥ }
{
    match name {
        "run" => Some(Task::Run),
        "replay" => Some(Task::Replay),
        _ => None,
    }
}

/// The cells of this name.
fn cells_of(name: &str) -> Option<CellKind>
    ensures boxed { (result ≡ Some Box) ↔ (name.now ≡ codes "box") }
    ensures words { (result ≡ Some Word) ↔ (name.now ≡ codes "word") }
{
    match name {
        "box" => Some(CellKind::Box),
        "word" => Some(CellKind::Word),
        _ => None,
    }
}

/// The number of the option of this name.
fn number_of(matches: &ArgMatches<'_>, name: &str) -> Option<u64>
    ensures some { IfSome result (IsNumberOf (one_of name.now (rows_of (found_of matches.now)))) }
    ensures none { result ≡ None → (n : ℕ) → IsNumberOf (one_of name.now (rows_of (found_of matches.now))) n → ⊥ }
{
    // What was found has a name here by which the proof can speak of it: it can't name the type of `clap`'s error.
    let number = matches.get_one::<u64>(name)?;
    Some(number)
}

/// The cells of the option `cells`, and words where the command has none.
fn cells_in(matches: &ArgMatches<'_>) -> Option<CellKind>
    ensures some { IfSome result (AreCellsOf (first_of (codes "cells") (rows_of (found_of matches.now)))) }
    ensures none { result ≡ None →
        (cells : _) → AreCellsOf (first_of (codes "cells") (rows_of (found_of matches.now))) cells → ⊥ }
{
    cells_of(matches.get_str("cells").unwrap_or("word"))
}

/// The sizes of the heap, in no particular range.
fn sizes_of(matches: &ArgMatches<'_>) -> Option<Sizes>
    ensures some { IfSome result (AreSizesIn (rows_of (found_of matches.now))) }
    ensures none { result ≡ None → (sizes : _) → AreSizesIn (rows_of (found_of matches.now)) sizes → ⊥ }
{
    Some(Sizes {
        block_words: number_of(matches, "block-words")?,
        blocks: number_of(matches, "blocks")?,
        mutators: number_of(matches, "mutators")?,
        nursery_blocks: number_of(matches, "nursery")?,
        generations: number_of(matches, "generations")?,
        steps: number_of(matches, "steps")?,
    })
}

/// The options of the subcommand of this name.
fn options_of(name: &str, matches: &ArgMatches<'_>) -> Option<Options>
    ensures some { IfSome result (AreOptionsOf name.now (rows_of (found_of matches.now))) }
    ensures none { result ≡ None → (options : _) → AreOptionsOf name.now (rows_of (found_of matches.now)) options → ⊥ }
{
    Some(Options {
        task: task_of(name)?,
        cells: cells_in(matches)?,
        threads: number_of(matches, "threads")?,
        sizes: sizes_of(matches)?,
    })
}

/// The options of the subcommand that was met.
fn options_in(matches: &ArgMatches<'_>) -> Option<Options>
    ensures some { IfSome result (AreOptionsIn (subcommand_rows_of matches.now)) }
    ensures none { result ≡ None → (options : _) → AreOptionsIn (subcommand_rows_of matches.now) options → ⊥ }
{
    let (name, inner) = matches.subcommand()?;
    options_of(name, inner)
}

/// What the words ask for, or the mistake in them as `clap` tells of it.
#[tactic(auto, using(crate::proofs::Refusing::for_memory))]
fn parsed_words<'a, T: AsStr>(alloc: Global, words: &'a [T]) -> Result<Options, Error>
    ensures ok { IfOk result (AreAskedBy (map T.text words.now)) }
    ensures err { IfErr result (λ e. AreRefusedFor (map T.text words.now) (kind_of e)) }
{
    let defaults = Defaults::of(alloc, Sizes::default())?;
    let mut command = gctrace_command(alloc, &defaults)?;
    let matches = command.try_get_matches_from_mut(words)?;
    match options_in(&matches) {
        Some(options) => Ok(options),
        // A subcommand was met, and each of its options has a default: this is not reached.
        None => Err(command.error(ErrorKind::MissingSubcommand, "a subcommand is wanted")?),
    }
}

/// What is told of an error.
fn refused_by(alloc: Global, error: &Error) -> Refused
    ensures { IsToldOf (kind_of error.now) result }
{
    if error.kind() == ErrorKind::OutOfMemory {
        return Refused::NoMemory;
    }
    let Ok(text) = format!(in alloc; "{error}") else {
        return Refused::NoMemory;
    };
    if error.use_stderr() {
        Refused::Usage(text)
    } else {
        Refused::Help(text)
    }
}

/// What the words ask for, the first being the program's name, or why they can't be carried out.
#[tactic(auto, using(crate::proofs::Refusing::told_of))]
pub fn read_words<'a, T: AsStr>(alloc: Global, words: &'a [T]) -> Result<Options, Refused>
    ensures ok { IfOk result (AreAskedBy (map T.text words.now)) }
    ensures err { IfErr result (AreToldOf (map T.text words.now)) }
{
    match parsed_words(alloc, words) {
        Ok(options) => Ok(options),
        Err(error) => Err(refused_by(alloc, &error)),
    }
}
