// What does not change while a page is written.

use crate::notes::Notes;
use crate::options::HtmlOptions;
use crate::survey::{Span, Target};
use md_engine::event::Event;
use md_events::labels::Labels;
use std::alloc::Global;

/// What is known of a whole text, and what is asked for.
#[derive(Drop)]
pub(crate) struct Whole<'a> {
    pub(crate) alloc: Global,
    pub(crate) options: &'a HtmlOptions<'a>,
    /// The `id` of each heading, in the order of the text.
    pub(crate) ids: &'a [String],
    /// The line ending of what the text does not have.
    pub(crate) ending: &'static str,
    /// Where each definition leads, in the order of the text.
    pub(crate) definitions: Vec<Target>,
    pub(crate) notes: Notes,
    /// The normal forms of the labels of footnotes, in the order of the text.
    pub(crate) forms: &'a [String],
}

/// The text, some of its events, and what is known of the whole of it.
#[derive(Clone, Copy)]
pub(crate) struct Known<'a, 'b> {
    pub(crate) bytes: &'a [u8],
    /// The events of which some are written.
    pub(crate) events: &'a [Event],
    /// Those of its definitions, if they are known ahead.
    pub(crate) ahead: &'a [Event],
    pub(crate) labels: &'a Labels<'b>,
    pub(crate) whole: &'a Whole<'a>,
}

impl<'a> Known<'a, '_> {
    /// The events of a string.
    pub(crate) fn string(&self, string: Span) -> &'a [Event] {
        if string.is_ahead {
            string.events(self.ahead)
        } else {
            string.events(self.events)
        }
    }
}

/// The first line ending of a text, or another if it has none.
pub(crate) fn ending_of(bytes: &[u8], other: &'static str) -> &'static str {
    let first = bytes.iter().position(|byte| matches!(*byte, b'\n' | b'\r'));
    let Some(at) = first else {
        return other;
    };
    match bytes.get(at..).unwrap_or(&[]) {
        [b'\r', b'\n', ..] => "\r\n",
        [b'\r', ..] => "\r",
        _ => "\n",
    }
}
