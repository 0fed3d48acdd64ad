//! The calls of the program as a library: the verdict of two texts, the answer over the data of tables, and the program itself over its
//! words, files and streams. The parts are in crates of their own.
#![tactic(auto)]

pub use wd_command::{Files, MachineFiles, MemoryFiles, ReadFault, command};
pub use wd_decide::{DecideError, ListReason, ListVerdict, Verdict, decide, decide_list};
pub use wd_run::{Origin, RunError, run};
