//! What the words of a call ask for.
ghost use Rattle.std.specs.Prelude.{◌≡◌, map, string_bytes};
ghost use Rattle.om_top.specs.Asked.{Asks, asked};
ghost use Rattle.om_top.specs.Command.{command_of_file, command_of_two, sample_of};

use om_legs::MOST_LEGS;
use om_model::limits::FEWEST_LEGS;
use om_ring::{read_decimal, read_decimal_below};

/// What is written of a process.
#[derive(Clone, Copy)]
pub(crate) enum Written {
    /// Its program.
    Program,
    /// The listing of its graph.
    Listing,
}

/// A command with its words. Later commands are further variants.
pub(crate) enum Command<'a> {
    /// Tells what stands in a model: the name of its file.
    Check(&'a str),
    /// Answers events: the name of the model's file and the text of the process.
    Eval(&'a str, &'a str),
    /// Writes what belongs to a process: the name of the model's file and the text of the process.
    Write(Written, &'a str, &'a str),
    /// Answers events by a program: the name of its file.
    Run(&'a str),
    /// Evaluates a sample: its seed and its number of legs.
    Sample(u64, u8),
    /// The words have the form of no command.
    Unknown,
}

/// The command that the words ask for.
pub(crate) fn command_of(words: &[String]) -> Command<'_>
    ensures { Asks (map (λ w. string_bytes w) words.now) result }
{
    match words {
        [word, file] => command_of_file(word.as_str(), file.as_str()),
        [word, first, second] => command_of_two(word.as_str(), first.as_str(), second.as_str()),
        _ => Command::Unknown,
    }
}

// The command with the name of a file alone.
fn command_of_file<'a>(word: &str, file: &'a str) -> Command<'a>
    ensures { command_of_file word.now file.now ≡ asked result }
{
    if word == "check" {
        Command::Check(file)
    } else if word == "run" {
        Command::Run(file)
    } else {
        Command::Unknown
    }
}

// The command with two words.
fn command_of_two<'a>(word: &str, first: &'a str, second: &'a str) -> Command<'a>
    ensures { command_of_two word.now first.now second.now ≡ asked result }
{
    if word == "eval" {
        Command::Eval(first, second)
    } else if word == "compile" {
        Command::Write(Written::Program, first, second)
    } else if word == "graph" {
        Command::Write(Written::Listing, first, second)
    } else if word == "sample" {
        sample_of(first.as_bytes(), second.as_bytes())
    } else {
        Command::Unknown
    }
}

// The sample of a seed and a number of legs.
fn sample_of<'a>(seed: &[u8], legs: &[u8]) -> Command<'a>
    ensures { sample_of seed.now legs.now ≡ asked result }
{
    match (
        read_decimal(seed),
        read_decimal_below(legs, u64::from(MOST_LEGS) + 1),
    ) {
        (Some(seed), Some(legs)) if legs >= FEWEST_LEGS as u64 => Command::Sample(seed, legs as u8),
        _ => Command::Unknown,
    }
}
