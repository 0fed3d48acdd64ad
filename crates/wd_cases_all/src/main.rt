//! All cases of library calls, and of the program over its words, files and streams. A line
//! `cases SUBJECT` says which library answers the lines after it.
#![tactic(auto)]

mod all;
mod altered;
mod subject;

use all::AllCases;
use std::io;
use wd_cases::answer_lines;

fn main(rt: HostRuntime) -> io::Result<()> {
    answer_lines(&rt, &mut AllCases::new(rt.alloc()))
}
