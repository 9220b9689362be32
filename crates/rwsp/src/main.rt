//! Plans, checks and proves rotating workforce schedules.
#![tactic(auto)]

use clean_words::NoGate;
use commands::Stop;
use rwsp_io::{RealShelf, RealSink, WordsFail, command_words};
use rwsp_run::{Outcome, run};
use std::process::ExitCode;

/// The status where a word of the command line is no text.
const NO_TEXT: u8 = 9;

fn main(rt: HostRuntime) -> ExitCode {
    let words = match command_words(&rt) {
        Ok(words) => words,
        Err(WordsFail::NoText) => return ExitCode::from(NO_TEXT),
        Err(WordsFail::Memory) => return ExitCode::from(Outcome::Stopped(
            Stop::Memory,
        ).into_status()),
    };
    let mut shelf = RealShelf::new(&rt);
    let mut out = RealSink::new(&rt);
    let errors = rt.stderr();
    let mut told = RealSink::new(&errors);
    let outcome = run(
        &rt,
        rt.alloc(),
        &words,
        &mut shelf,
        &mut out,
        &mut told,
        &NoGate,
    );
    ExitCode::from(outcome.into_status())
}
