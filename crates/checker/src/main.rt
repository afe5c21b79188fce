//! Reads a text from standard input, cuts it into tokens and says how many there are.

#![tactic(auto)]

mod failure;
mod input;
mod listing;
mod options;
mod report;

use failure::Failure;
use input::{ROOM, read_text};
use options::Detail;
use report::report;
use std::io::Write;
use std::process::ExitCode;

fn main(rt: HostRuntime) -> ExitCode {
    match run(&rt) {
        Ok(()) => ExitCode::SUCCESS,
        Err(failure) => {
            let _ = eprintln!(rt; "check: {failure}");
            ExitCode::FAILURE
        }
    }
}

fn run(rt: &HostRuntime) -> Result<(), Failure> {
    let detail = Detail::from_arguments(rt)?;
    let mut buffer = [0; ROOM];
    let length = read_text(&mut rt.stdin(), &mut buffer)?;
    let answer = report(rt.alloc(), &buffer[..length], detail)?;
    rt.stdout()
        .write_all(answer.as_slice())
        .map_err(Failure::Output)
}
