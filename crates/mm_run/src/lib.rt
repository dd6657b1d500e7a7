//! The run of kwstore: cuts its input into commands, answers each, and writes the replies.
#![tactic(auto)]

mod answering;
mod buffer;
mod command;
mod editing;
mod forms;
mod fresh;
mod input;
pub mod laws;
mod line;
mod payload;
mod reading;
mod sample;
mod searching;
mod serving;
mod status;
mod top;

pub use command::{Command, Payload};
pub use input::{Input, turn};
pub use mm_options::Options;
pub use status::{Status, Went};
pub use top::run;
