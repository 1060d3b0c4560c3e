//! What the desk says of a script: why a line is no call, the answers of a run, and a run in words.
#![tactic(auto)]

mod answers;
mod calls_of;
mod changes;
mod faults;
mod reader;
mod told;
mod unsaid;
mod words;

pub use answers::say_answers;
pub use faults::say_faults;
pub use reader::{CallLine, FaultLine, ScriptText, Spot, read_script};
pub use told::say_run;
pub use unsaid::Unsaid;
