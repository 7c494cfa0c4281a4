//! The text of answers.
#![tactic(auto)]

mod answer;
mod evidence;
mod flaw;
mod forms;
mod front;
mod item;
mod items;
pub mod laws;
mod numbers;
mod places;
mod ranges;
mod reader;
mod refusal;
mod rows;
#[cfg(test)]
mod tests;
mod tree;
mod writer;
mod writing;

pub use answer::{read_answer, read_proof};
pub use flaw::AnswerErr;
pub use forms::Forms;
pub use front::{Front, front_lines, read_front};
pub use item::Item;
pub use reader::Reader;
pub use refusal::write_flaw;
pub use writer::write_answer;
