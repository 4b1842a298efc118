// The program: commands from standard input, one to a line, or one from each argument.
#![tactic(auto)]

mod command;
mod day;
mod failure;
mod fault;
mod file;
mod input;
mod key;
mod row;
mod session;
mod store;
mod store_command;
mod workspace;

use failure::Failure;
use input::{argument, without_newline};
use session::Session;
use std::io::{BufRead, BufReader, Write};
use std::process::ExitCode;

fn main(rt: HostRuntime) -> ExitCode {
    match run(&rt) {
        Ok(()) => ExitCode::SUCCESS,
        Err(_) => ExitCode::FAILURE,
    }
}

// Runs the commands of the arguments where there are any, else those of standard input.
fn run(rt: &HostRuntime) -> Result<(), Failure> {
    match argument(rt, 1)? {
        Some(first) => run_arguments(rt, first),
        None => run_input(rt),
    }
}

// Runs the commands of standard input, whatever each of them answers.
fn run_input(rt: &HostRuntime) -> Result<(), Failure> {
    let mut session = Session::new(rt.alloc());
    let mut input = BufReader::new(rt.alloc(), rt.stdin())?;
    // One buffer for all lines: `split`, which makes a vector for each, was tried and took a fifth longer.
    let mut line = Vec::new(rt.alloc());
    for _ in 0..u64::MAX {
        line.clear();
        if input.read_until(b'\n', &mut line)? == 0 {
            break;
        }
        session.take_line(rt, without_newline(line.as_slice()))?;
        write_answers(rt, &mut session)?;
    }
    session.finish()?;
    write_answers(rt, &mut session)
}

// Runs the commands that the arguments give, and fails if any was refused or bad.
fn run_arguments(rt: &HostRuntime, first: Vec<u8>) -> Result<(), Failure> {
    let mut session = Session::new(rt.alloc());
    let mut next = Some(first);
    // Each argument is asked for by its number: the library's list of arguments takes text alone, and a line may be any bytes.
    for i in 2..usize::MAX {
        let Some(line) = next else {
            break;
        };
        session.take_line(rt, line.as_slice())?;
        write_answers(rt, &mut session)?;
        next = argument(rt, i)?;
    }
    session.finish()?;
    write_answers(rt, &mut session)?;
    if session.has_failed() {
        return Err(Failure::Refused);
    }
    Ok(())
}

// Writes what was answered since the last time.
fn write_answers(rt: &HostRuntime, session: &mut Session) -> Result<(), Failure> {
    rt.stdout().write_all(session.answers())?;
    session.clear_answers();
    Ok(())
}
