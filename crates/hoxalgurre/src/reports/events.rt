// Events as records.

use crate::reports::position::{Columns, Place};
use markdown_blocks::event::{Event, Kind};
use markdown_blocks::names::text_of;
use serde::Serialize;
use std::alloc::{AllocError, Global};

/// The begin or the end of a part.
#[derive(Drop, Serialize)]
pub(crate) struct Record {
    /// `enter` or `exit`.
    kind: &'static str,
    /// The name, as `events` prints it.
    name: &'static str,
    place: Place,
    /// How many columns of the tab at the place lie before it; 0 where no tab is cut.
    virtual_spaces: usize,
}

/// A record for each event.
pub(crate) fn records(
    alloc: Global,
    columns: &Columns,
    events: &[Event],
) -> Result<Vec<Record>, AllocError> {
    let mut records = Vec::new(alloc);
    for event in events {
        let mut place = Place::of(event.point);
        columns.set(&mut place);
        records.push(Record {
            kind: kind_of(event.kind),
            name: text_of(event.name),
            place,
            virtual_spaces: event.point.vs,
        })?;
    }
    Ok(records)
}

fn kind_of(kind: Kind) -> &'static str {
    match kind {
        Kind::Enter => "enter",
        Kind::Exit => "exit",
    }
}
