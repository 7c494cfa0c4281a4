//! The program, over whatever input and sinks it is given: reading the words and the files, searching a graph or judging
//! an answer, writing, saying why it ended. And the same on the system that it runs on.
#![tactic(auto)]

mod files;
mod judging;
mod output;
mod progress;
mod running;
mod sampling;
mod searching;
mod status;
mod system;
mod telling;
mod top_call;

pub use running::run;
pub use status::{Limit, Status};
pub use system::{start, start_on};
pub use top_call::top;
pub use xn_command::{Command, WordsErr, read_words};

#[cfg(test)]
mod tests;
