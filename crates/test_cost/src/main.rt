// The program `test_cost`: it reads a Markdown text from its standard input and prints what a parse of it takes, in
// numbers that are the same on each machine.
//
// It takes no arguments, so an interpreter that counts steps can run it (`scripts/steps.py`).
#![tactic(auto)]

mod cost;

use cost::Cost;
use md_program::run::run;
use md_program::system::Uninterrupted;
use std::process::ExitCode;

fn main(rt: HostRuntime) -> ExitCode {
    let mut errors = Uninterrupted {
        stream: rt.stderr(),
    };
    ExitCode::from(run::<Cost, _, _, _>(
        rt.alloc(),
        "test_cost",
        &[],
        &mut Uninterrupted { stream: rt.stdin() },
        &mut Uninterrupted {
            stream: rt.stdout(),
        },
        &mut errors,
    ))
}
