// The command of the words.
ghost use Rattle.std.specs.Prelude.{◌≡◌, ◌≤◌, IfOk, IfSome};
ghost use Rattle.xn_command.specs.Gives.{GivesCommand, GivesRequest, IsWithinLimits};
ghost use Rattle.xn_command.specs.Request.{budget_of, fewest_nodes, most_budget, most_nodes, nodes_of, with_budget, with_one, with_two, within};
ghost use Rattle.xn_command.specs.declared.command.WordsErr.TheVariants.{Memory};

use crate::parse::parse;
use clap::error::ErrorKind;
use std::alloc::{AllocError, Global};
use thiserror::Error;
use xn_text::{WordNumber, word_u64};

// The budget where none is given, and the greatest.
const USUAL_BUDGET: u64 = 10_000;

const MOST_BUDGET: u64 = 200_000;

// The fewest nodes of a sample graph, and the most.
const FEWEST_NODES: u64 = 3;

const MOST_NODES: u64 = 400;

/// What the program is asked to do, with the names of the files.
#[derive(Debug, Drop)]
pub enum Command {
    /// Searches for a drawing of the graph with the fewest crossings, and for a proof that there are no fewer.
    Solve {
        /// The name of the graph's file.
        graph: String,
        /// How many tree nodes may be opened, at most 200,000.
        budget: u64,
    },
    /// Searches the sample graph of so many nodes, as `Solve` does the graph of a file.
    Sample {
        /// The number of nodes, from 3 to 400.
        nodes: u32,
        /// How many tree nodes may be opened, at most 200,000.
        budget: u64,
    },
    /// Tests everything that the answer says of the graph.
    Check {
        /// The name of the graph's file.
        graph: String,
        /// The name of the answer's file.
        answer: String,
    },
    /// Tests the drawing of the answer.
    Examine {
        /// The name of the answer's file.
        answer: String,
    },
    /// Shows the drawing of the answer, which is one of the graph.
    Draw {
        /// The name of the graph's file.
        graph: String,
        /// The name of the answer's file.
        answer: String,
    },
}

/// Why the words are no command.
#[derive(Clone, Copy, Debug, PartialEq, Eq, Error)]
pub enum WordsErr {
    /// The words ask for nothing that the program does.
    #[error("no command")]
    Refused,
    /// Memory was wanting.
    #[error("no memory")]
    Memory,
}

impl From<AllocError> for WordsErr {
    ghost from_gives = { λ _ e. e ≡ Memory };

    fn from(_e: AllocError) -> WordsErr {
        WordsErr::Memory
    }
}

/// The command of the words, of which the first is the program's name.
///
/// Words that ask for nothing are `Refused`. A request for help or for the version is one of them.
pub fn read_words(alloc: Global, words: &[String]) -> Result<Command, WordsErr>
    ensures gives { GivesCommand words.now result }
    ensures small { IfOk result IsWithinLimits }
{
    let matches = match parse(alloc, words) {
        Ok(matches) => matches,
        Err(error) if error.kind() == ErrorKind::OutOfMemory => return Err(WordsErr::Memory),
        Err(_) => return Err(WordsErr::Refused),
    };
    let Some(command) = matches.get_str("command") else {
        return Err(WordsErr::Refused);
    };
    let Some(first) = matches.get_str("first") else {
        return Err(WordsErr::Refused);
    };
    match (matches.get_str("second"), matches.get_str("budget")) {
        (None, None) => with_one(alloc, command, first),
        (None, Some(word)) => with_budget(alloc, command, first, word),
        (Some(second), None) => with_two(alloc, command, first, second),
        (Some(_), Some(_)) => Err(WordsErr::Refused),
    }
}

// The command with one operand after it, and a budget.
fn with_budget(alloc: Global, command: &str, first: &str, word: &str) -> Result<Command, WordsErr>
    ensures gives { GivesRequest (with_budget command.now first.now word.now) result }
    ensures small { IfOk result IsWithinLimits }
{
    match budget_in(word) {
        Some(budget) => within(alloc, command, first, budget),
        None => Err(WordsErr::Refused),
    }
}

// The budget that a word spells, if it is one that may be given.
fn budget_in(word: &str) -> Option<u64>
    ensures is { result ≡ budget_of word.now }
    ensures small { IfSome result (λ n. n ≤ most_budget) }
{
    match word_u64(word.as_bytes()) {
        WordNumber::Is(budget) if budget <= MOST_BUDGET => Some(budget),
        _ => None,
    }
}

// The command that searches within a budget.
fn within(alloc: Global, command: &str, first: &str, budget: u64) -> Result<Command, WordsErr>
    requires { budget ≤ most_budget }
    ensures gives { GivesRequest (within command.now first.now budget) result }
    ensures small { IfOk result IsWithinLimits }
{
    match command {
        "solve" => Ok(Command::Solve {
            graph: String::from_str(alloc, first)?,
            budget,
        }),
        "sample" => match nodes_in(first) {
            Some(nodes) => Ok(Command::Sample { nodes, budget }),
            None => Err(WordsErr::Refused),
        },
        _ => Err(WordsErr::Refused),
    }
}

// The number of nodes that a word spells, if there is a sample graph of so many.
fn nodes_in(word: &str) -> Option<u32>
    ensures is { result ≡ nodes_of word.now }
    ensures small { IfSome result (λ n. (fewest_nodes ≤ n) × (n ≤ most_nodes)) }
{
    match word_u64(word.as_bytes()) {
        WordNumber::Is(nodes) if FEWEST_NODES <= nodes && nodes <= MOST_NODES => Some(nodes as u32),
        _ => None,
    }
}

// The command with one operand after it.
fn with_one(alloc: Global, command: &str, first: &str) -> Result<Command, WordsErr>
    ensures gives { GivesRequest (with_one command.now first.now) result }
    ensures small { IfOk result IsWithinLimits }
{
    match command {
        "examine" => Ok(Command::Examine {
            answer: String::from_str(alloc, first)?,
        }),
        _ => within(alloc, command, first, USUAL_BUDGET),
    }
}

// The command with two operands after it.
fn with_two(alloc: Global, command: &str, first: &str, second: &str) -> Result<Command, WordsErr>
    ensures gives { GivesRequest (with_two command.now first.now second.now) result }
    ensures small { IfOk result IsWithinLimits }
{
    match command {
        "check" => Ok(Command::Check {
            graph: String::from_str(alloc, first)?,
            answer: String::from_str(alloc, second)?,
        }),
        "draw" => Ok(Command::Draw {
            graph: String::from_str(alloc, first)?,
            answer: String::from_str(alloc, second)?,
        }),
        _ => Err(WordsErr::Refused),
    }
}
