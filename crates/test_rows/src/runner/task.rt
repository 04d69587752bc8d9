// What a bench does, by its arguments.
//
//     rows                 the rows, those of events, long labels, deep nesting, and the texts of the rows otherwise:
// with each construct switched off, and their begins by their events and by the laws of nesting
//     short LENGTH         the laws on all texts of so many letters
//     random SEED COUNT    the laws on so many random texts

use crate::case::CaseError;
use crate::runner::deep::try_depths;
use crate::runner::event_rows::try_event_rows;
use crate::runner::long::try_labels;
use crate::runner::report::Report;
use crate::runner::rows::{built_of, try_rows};
use crate::runner::search::{try_begins, try_random, try_short};
use crate::runner::without::try_without;
use crate::runner::wraps::try_wraps;
use md_engine::configuration::Constructs;
use md_program::body::Body;
use std::alloc::Global;

/// Something to try.
#[derive(Clone, Copy)]
pub enum Task {
    Rows,
    Short { length: usize },
    Random { seed: u64, count: u64 },
}

impl Task {
    /// The task of these arguments, or `None` where they name none. No argument means the rows.
    pub fn asked_for(args: &[String]) -> Option<Task> {
        match args {
            [] => Some(Task::Rows),
            [word] if word.as_str() == "rows" => Some(Task::Rows),
            [word, length] if word.as_str() == "short" => {
                let length = length.as_str().parse().ok()?;
                Some(Task::Short { length })
            }
            [word, seed, count] if word.as_str() == "random" => {
                let seed = seed.as_str().parse().ok()?;
                let count = count.as_str().parse().ok()?;
                Some(Task::Random { seed, count })
            }
            _ => None,
        }
    }

    /// Does it with a body.
    pub fn perform<B: Body>(self, alloc: Global, report: &mut Report) -> Result<(), CaseError> {
        match self {
            Task::Rows => try_all::<B>(alloc, report),
            Task::Short { length } => try_short::<B>(alloc, length, report),
            Task::Random { seed, count } => try_random::<B>(alloc, seed, count, report),
        }
    }
}

/// All that can be tried with the rows, as far as the body has the constructs.
fn try_all<B: Body>(alloc: Global, report: &mut Report) -> Result<(), CaseError> {
    for rows in crate::all() {
        try_rows::<B>(alloc, rows, report)?;
        try_without::<B>(alloc, rows, report)?;
        try_begins::<B>(alloc, rows, report)?;
    }
    try_event_rows::<B>(alloc, crate::events::rows(), false, report)?;
    try_wraps(alloc, crate::wraps::rows(), report)?;
    let built = built_of::<B>(&Constructs::ALERTS);
    if built.definition && built.gfm_footnote_definition {
        try_labels::<B>(alloc, report)?;
    }
    if built.block_quote && built.list_item {
        try_depths::<B>(alloc, report)?;
    }
    Ok(())
}
