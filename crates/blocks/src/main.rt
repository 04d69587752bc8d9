// The program `blocks`: it reads a Markdown text from its standard input and prints the outline of the text.
#![tactic(auto)]

use md_program::system::{Uninterrupted, arguments};
use printing::run_blocks::{NAME, run};
use std::process::ExitCode;

fn main(rt: HostRuntime) -> ExitCode {
    let mut errors = Uninterrupted {
        stream: rt.stderr(),
    };
    match arguments(&rt) {
        Ok(args) => ExitCode::from(run(
            rt.alloc(),
            &args,
            &mut Uninterrupted { stream: rt.stdin() },
            &mut Uninterrupted {
                stream: rt.stdout(),
            },
            &mut errors,
        )),
        Err(failure) => ExitCode::from(failure.report(NAME, &mut errors)),
    }
}
