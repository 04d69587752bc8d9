// The bench. The first argument says what is tried: `blocks` the parser, `references` its rows of events with that
// layer, `plain` the plain program, `levels` both on deep nesting, and the inline layer, `agree` both against each
// other on short texts, `nasty` the same where constructs meet, `inlines` the reader of inline content against its
// plain definition, `nesting` the inline content of texts in containers; without one it is all of these, `agree` with
// fewer letters. After `blocks` and `plain` is a task of `test_rows::runner::task`, after `levels` how many containers
// are in one another, after `agree` the most letters of a text, after `nasty` a task of `test_rows::runner::nasty`,
// after `inlines` one of `inlines`. It prints what disagreed, and then how much was tried.
#![tactic(auto)]

mod inlined;
mod inlines;
mod nesting;
mod referenced;

use inlined::try_inline_levels;
use inlines::Inlines;
use nesting::try_nesting;
use printing::blocks::Blocks;
use reference_tree::plain::Plain;
use referenced::Referenced;
use std::alloc::Global;
use std::{env, io};
use test_rows::case::CaseError;
use test_rows::runner::agree::{MOST, try_agree};
use test_rows::runner::deep::try_levels;
use test_rows::runner::event_rows::try_event_rows;
use test_rows::runner::nasty::Nasty;
use test_rows::runner::report::Report;
use test_rows::runner::task::Task;

/// So many levels where no argument says it.
const LEVELS: usize = 100_000;

/// The most letters of a text where no argument says what is tried: a program has a limited time.
const LETTERS: usize = 5;

/// Something to try.
#[derive(Clone, Copy)]
enum Bench {
    Blocks(Task),
    References,
    Plain(Task),
    Levels(usize),
    Agree(usize),
    Nasty(Nasty),
    Inlines(Inlines),
    Nesting,
}

impl Bench {
    /// What is tried without an argument.
    const ALL: [Bench; 12] = [
        Bench::Blocks(Task::Rows),
        Bench::References,
        Bench::Plain(Task::Rows),
        Bench::Levels(LEVELS),
        Bench::Nasty(Nasty::LETTERS),
        Bench::Nasty(Nasty::FRAGMENTS),
        Bench::Nasty(Nasty::RANDOM),
        Bench::Nasty(Nasty::ALERTS),
        Bench::Agree(LETTERS),
        Bench::Inlines(Inlines::LETTERS),
        Bench::Inlines(Inlines::RANDOM),
        Bench::Nesting,
    ];

    /// What these arguments name, or `None` where they name nothing.
    fn asked_for(args: &[String]) -> Option<Bench> {
        let (word, others) = args.split_first()?;
        match (word.as_str(), others) {
            ("blocks", others) => Some(Bench::Blocks(Task::asked_for(others)?)),
            ("references", []) => Some(Bench::References),
            ("plain", others) => Some(Bench::Plain(Task::asked_for(others)?)),
            ("levels", []) => Some(Bench::Levels(LEVELS)),
            ("levels", [levels]) => Some(Bench::Levels(levels.as_str().parse().ok()?)),
            ("agree", []) => Some(Bench::Agree(MOST)),
            ("agree", [most]) => Some(Bench::Agree(most.as_str().parse().ok()?)),
            ("nasty", others) => Some(Bench::Nasty(Nasty::asked_for(others)?)),
            ("inlines", others) => Some(Bench::Inlines(Inlines::asked_for(others)?)),
            ("nesting", []) => Some(Bench::Nesting),
            _ => None,
        }
    }

    /// Tries it.
    fn perform(self, alloc: Global, report: &mut Report) -> Result<(), CaseError> {
        match self {
            Bench::Blocks(task) => task.perform::<Blocks>(alloc, report),
            Bench::References => {
                try_event_rows::<Referenced>(alloc, test_rows::events::rows(), true, report)
            }
            Bench::Plain(task) => task.perform::<Plain>(alloc, report),
            Bench::Levels(levels) => {
                try_levels::<Blocks>(alloc, levels, report)?;
                // At each item it reads the rest of the line, so its time grows with the square of their number.
                try_levels::<Plain>(alloc, levels / 4, report)?;
                try_inline_levels(alloc, levels, report)
            }
            Bench::Agree(most) => try_agree::<Blocks, Plain>(alloc, most, report),
            Bench::Nasty(nasty) => nasty.perform::<Blocks, Plain>(alloc, report),
            Bench::Inlines(inlines) => inlines.perform(alloc, report),
            Bench::Nesting => try_nesting(alloc, report),
        }
    }
}

fn main(rt: HostRuntime) -> io::Result<()> {
    let mut args = Vec::new(rt.alloc());
    for arg in env::args(&rt)?.skip(1) {
        args.push(arg)?;
    }
    let asked = Bench::asked_for(args.as_slice());
    if asked.is_none() && !args.is_empty() {
        return println!(rt;
            "references; nesting; blocks or plain, and rows, short LENGTH, or random SEED COUNT; levels COUNT; \
             agree LENGTH; nasty, and letters MOST, fragments MOST, or random, alerts or flags with SEED COUNT; or \
             inlines, and letters MOST, or random SEED COUNT"
        );
    }
    for bench in Bench::ALL {
        let mut report = Report::new(rt.alloc());
        if asked
            .unwrap_or(bench)
            .perform(rt.alloc(), &mut report)
            .is_err()
        {
            println!(rt; "memory ran out, or a row is no row")?;
        }
        print!(rt; "{}", report.list)?;
        println!(rt; "{} tried, {} wrong", report.tried, report.wrong)?;
        if asked.is_some() {
            return Ok(());
        }
    }
    Ok(())
}
