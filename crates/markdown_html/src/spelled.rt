// What strings are: destinations and titles, with escapes and references read, and labels as they are in the text.

use crate::writer::Writer;
use md_engine::event::{Event, Kind, Name};
use md_engine::message::Message;
use md_events::slice::between;
use md_scan::label::normal_form;
use std::alloc::Global;
use std::str;

/// Adds what is between the points of an exit and of the enter before it.
fn push_piece(out: &mut Writer, name: Name, piece: &[u8]) {
    match name {
        Name::Data | Name::CharacterEscapeValue | Name::LineEnding => out.push_bytes(piece),
        _ => {}
    }
}

/// What the string or label in these events is, if that is one piece of the text. Most are.
pub(crate) fn plain_string<'a>(bytes: &'a [u8], events: &[Event]) -> Option<&'a [u8]> {
    match events {
        [first, last] if last.name == Name::Data => {
            Some(between(bytes, first.point.index, last.point.index))
        }
        _ => None,
    }
}

/// Adds what the string in these events is.
pub(crate) fn push_string(out: &mut Writer, bytes: &[u8], events: &[Event]) {
    let mut start = 0;
    let mut reference = 0;
    for event in events {
        let index = event.point.index;
        if event.kind == Kind::Enter {
            start = index;
            if event.name == Name::CharacterReference {
                reference = index;
            }
        } else if event.name == Name::CharacterReference {
            out.push_reference(between(bytes, reference, index));
        } else {
            push_piece(out, event.name, between(bytes, start, index));
        }
    }
}

/// Adds a piece of a label. What containers take of its lines is not in it.
fn push_source(out: &mut Writer, name: Name, piece: &[u8]) {
    match name {
        Name::LineEnding => out.push(" "),
        Name::SpaceOrTab | Name::BlockQuoteMarker => {}
        _ => out.push_bytes(piece),
    }
}

/// Adds the label in these events, as it is in the text. An exit right after an enter ends a piece.
fn push_label(out: &mut Writer, bytes: &[u8], events: &[Event]) {
    let mut start = 0;
    let mut is_piece = false;
    for event in events {
        let index = event.point.index;
        if event.kind == Kind::Enter {
            start = index;
            is_piece = true;
        } else {
            if is_piece {
                push_source(out, event.name, between(bytes, start, index));
            }
            is_piece = false;
        }
    }
}

/// The normal form of the label in these events. An `Err` says that memory ran out.
pub(crate) fn label_form(alloc: Global, bytes: &[u8], events: &[Event]) -> Result<String, Message> {
    if let Some(piece) = plain_string(bytes, events) {
        return normal_form(alloc, &[str::from_utf8(piece).unwrap_or("")]);
    }
    let mut source = Writer::new(alloc);
    push_label(&mut source, bytes, events);
    if source.is_refused() {
        return Err(Message);
    }
    normal_form(alloc, &[source.as_str()])
}
