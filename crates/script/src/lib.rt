//! One line of a script, on one thread or on node threads: what it says, and how its outcome is
//! printed; what performs it is in the crates `commands` and `markring`.
#![tactic(auto)]

mod asking;
mod ending;
mod frames;
mod front;
mod line;
mod operands;
mod printing;
mod reader;
mod run_line;
mod text;

pub use frames::FrameText;
pub use line::{Line, read_u8, read_u16};
pub use printing::{Printer, print_report};
pub use run_line::RunLine;
pub use text::{OutcomeText, SummaryText, answer_text};
