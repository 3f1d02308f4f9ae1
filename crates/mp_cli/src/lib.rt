//! The program `mergejoin` but for its `main`: the command that arguments ask for, the answer to an
//! input, and the run that reads the input and writes the answer.
#![tactic(auto)]

mod answering;
mod answers;
mod command;
mod counted;
mod help;
mod inputs;
pub mod laws;
mod lines;
mod running;

pub use answering::answer;
pub use answers::Answer;
pub use command::{Command, CommandFault, command_of};
pub use counted::Counted;
pub use lines::fault_line;
pub use running::{INPUT_LIMIT, READ_LIMIT, RunFault, run};
