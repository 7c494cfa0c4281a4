//! What the program reads from and writes to: an input of named files, a sink of bytes, and what
//! implements them over the system, over memory, and without faults.
#![tactic(auto)]

mod calls;
mod edge;
mod faults;
mod input;
mod mem_input;
mod mem_sink;
mod quiet;
mod reading;
mod shelf;
mod sink;
mod writing;

pub use edge::{FileInput, StdSink};
pub use input::{Failed, Input};
pub use mem_input::MemInput;
pub use mem_sink::MemSink;
pub use quiet::{QuietInput, QuietSink};
pub use reading::{ReadErr, read_all};
pub use sink::Sink;
pub use writing::write_all;

#[cfg(test)]
mod tests;
