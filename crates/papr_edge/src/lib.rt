//! The edge of the program `papr`: what its words ask for, how its input is read and cut, how a
//! text is written and an input refused, and the statuses.
//!
//! Main contracts: `command_of` is the table of words; `answer_input`: what was read, what was
//! written, and the status.
#![tactic(auto)]

mod answer;
mod answering;
mod command;
mod cutting;
mod ending;
mod input;
mod reading;
mod reason;
mod status;

pub use answer::Answer;
pub use answering::answer_input;
pub use command::{Command, command_of};
pub use cutting::{cut, line_count};
pub use ending::{finish, refuse};
pub use input::Input;
pub use reading::{NoInput, read_bytes, read_input};
pub use reason::Reason;
pub use status::Status;
