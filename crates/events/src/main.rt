// The program `events`: it reads a Markdown text from its standard input and prints the events of its blocks.
#![tactic(auto)]

use md_program::system::{Uninterrupted, arguments};
use printing::run_events::{NAME, run};
use std::process::ExitCode;

fn main(rt: HostRuntime) -> ExitCode {
    let mut errors = Uninterrupted {
        stream: rt.stderr(),
    };
    match arguments(&rt) {
        Ok(args) => ExitCode::from(run(
            rt.alloc(),
            &args,
            &mut Uninterrupted { stream: rt.stdin() },
            &mut Uninterrupted {
                stream: rt.stdout(),
            },
            &mut errors,
        )),
        Err(failure) => ExitCode::from(failure.report(NAME, &mut errors)),
    }
}
