// Tries each construct switched off: it must not occur.

use crate::case::{Case, CaseError};
use crate::constructs::{NAMES, is_of, switch};
use crate::runner::events::{add_events, events_of};
use crate::runner::report::Report;
use crate::runner::rows::options_of;
use md_engine::configuration::Constructs;
use md_engine::event::{Event, Name};
use md_program::body::{Body, MOST};
use std::alloc::Global;

/// Whether this is an event of a heading of the construct of this name.
fn is_heading_of(event: &Event, name: &str) -> bool {
    match event.name {
        Name::HeadingAtx => name == "heading_atx",
        Name::HeadingSetext => name == "heading_setext",
        _ => false,
    }
}

/// Whether the construct of this name occurs in the outline of a text.
fn occurs<B: Body>(
    alloc: Global,
    text: &str,
    constructs: &Constructs,
    name: &str,
) -> Result<bool, CaseError> {
    if text.len() > MOST {
        return Err(CaseError::Form);
    }
    let options = B::built(options_of(constructs));
    match B::outlined(alloc, text, &options) {
        Ok(outlined) => Ok(outlined.lines.iter().any(|line| is_of(line.word, name))),
        Err(_) => Err(CaseError::Memory),
    }
}

/// Tries the texts of rows with all constructs but one, for each of them, and with all but that one and alerts: that
/// one is not in the outline, a heading's not among the events either, and the events nest and tile.
pub fn try_without<B: Body>(
    alloc: Global,
    rows: &str,
    report: &mut Report,
) -> Result<(), CaseError> {
    for row in rows.split("\n\n") {
        let case = Case::read(alloc, row)?;
        let text = case.text.as_str();
        for name in &NAMES {
            try_off::<B>(alloc, text, &Constructs::ALERTS, name, report)?;
            if *name != "alerts" {
                try_off::<B>(alloc, text, &Constructs::ALL, name, report)?;
            }
        }
    }
    Ok(())
}

/// Tries a text with all constructs of a set but that of this name.
fn try_off<B: Body>(
    alloc: Global,
    text: &str,
    set: &Constructs,
    name: &str,
    report: &mut Report,
) -> Result<(), CaseError> {
    let mut constructs = *set;
    let _ = switch(&mut constructs, name, false);
    let mut is_there = occurs::<B>(alloc, text, &constructs, name)?;
    if let Some(events) = events_of::<B>(alloc, text, &constructs)? {
        is_there = is_there || events.iter().any(|event| is_heading_of(event, name));
        add_events(alloc, text, events.as_slice(), report)?;
    }
    report.add(
        name,
        text,
        "is off",
        if is_there { "occurs" } else { "is off" },
    )?;
    Ok(())
}
