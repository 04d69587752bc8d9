// The program `hoxalgurre`: reports of what is in Markdown texts, of files or of the standard input.
//
// `command` says which arguments there are, `input` reads a text, `tasks` prints the reports of all files, and
// `reports` makes them. `trouble` has what may go wrong, and the statuses. A message that cannot be
// written changes nothing.
#![tactic(auto)]

mod command;
mod input;
mod reports;
mod tasks;
mod trouble;

use crate::command::command;
use crate::tasks::run_all;
use crate::trouble::Trouble;
use clap::error::ErrorKind;
use std::env;
use std::process::ExitCode;

/// The arguments. Each is pushed, since `collect` asks for less where a request for memory is refused.
fn arguments(rt: &HostRuntime) -> Result<Vec<String>, Trouble> {
    let mut words = Vec::new(rt.alloc());
    match env::args(rt) {
        Ok(given) => {
            for word in given {
                if words.push(word).is_err() {
                    return Err(Trouble::OutOfMemory);
                }
            }
            Ok(words)
        }
        Err(error) => Err(Trouble::of_arguments(&error)),
    }
}

/// Shows what the arguments ask of `clap`: help on the standard output, or on the standard error what is wrong with
/// them. Answers the status.
fn show(rt: &HostRuntime, answer: &clap::Error) -> Result<u8, Trouble> {
    let shown = answer.print(rt);
    if answer.use_stderr() {
        return Ok(2);
    }
    shown?;
    Ok(0)
}

/// Reads the arguments and does what they ask for. Answers the status.
fn run(rt: &HostRuntime) -> Result<u8, Trouble> {
    let words = arguments(rt)?;
    let command = command(rt.alloc())?;
    let matches = match command.try_get_matches_from(words.as_slice()) {
        Ok(matches) => matches,
        Err(error) if error.kind() == ErrorKind::OutOfMemory => return Err(Trouble::OutOfMemory),
        Err(error) => return show(rt, &error),
    };
    match matches.subcommand() {
        Some((name, chosen)) => run_all(rt, name, chosen),
        // `clap` asks for a subcommand.
        None => Ok(2),
    }
}

fn main(rt: HostRuntime) -> ExitCode {
    match run(&rt) {
        Ok(status) => ExitCode::from(status),
        Err(Trouble::ClosedPipe) => ExitCode::SUCCESS,
        Err(trouble) => {
            let _said = eprintln!(rt; "hoxalgurre: {}", trouble.reason());
            ExitCode::from(trouble.status())
        }
    }
}
