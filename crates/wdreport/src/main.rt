//! Tells which SQL queries of files and folders have more than one answer, where, and with which sort key they have one.
#![tactic(auto)]

use std::env;
use std::io::IsTerminal;
use std::process::ExitCode;
use wd_output::Terminals;
use wd_review::review_words;
use wd_sources::MachineSources;

fn main(rt: HostRuntime) -> ExitCode {
    let alloc = rt.alloc();
    let mut words = Vec::new(alloc);
    match env::args(&rt) {
        Ok(given) => {
            for word in given.skip(1) {
                if words.push(word).is_err() {
                    return ExitCode::from(3);
                }
            }
        }
        Err(_) => return ExitCode::from(3),
    }
    let mut texts = Vec::new(alloc);
    for word in &words {
        if texts.push(word.as_str()).is_err() {
            return ExitCode::from(3);
        }
    }
    let terminals = Terminals {
        out: rt.stdout().is_terminal(),
        err: rt.stderr().is_terminal(),
    };
    let mut sources = MachineSources::new(&rt);
    ExitCode::from(review_words(
        alloc,
        &texts,
        terminals,
        &rt,
        &mut sources,
        &mut rt.stdout(),
        &mut rt.stderr(),
    ))
}
