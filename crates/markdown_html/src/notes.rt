// Which footnotes are shown, and how their calls are numbered.
//
// A footnote is shown if something calls it that is shown: the page outside of footnotes, or a footnote that is shown. Of
// footnotes with one label the first is meant. They are numbered in the order of their first calls.

use crate::memory::push;
use crate::spelled::label_form;
use crate::survey::{Found, Place};
use md_engine::event::Event;
use md_engine::message::Message;
use md_events::labels::Labels;
use std::alloc::{AllocError, Global};

/// A call.
#[derive(Clone, Copy)]
pub(crate) struct Call {
    /// The footnote that is called, by how many begin before it.
    pub(crate) note: usize,
    /// Its number; 0 where the call is not shown.
    pub(crate) number: usize,
    /// Which of its calls this one is, counted from 1.
    pub(crate) nth: usize,
}

/// The calls and the footnotes of a text.
#[derive(Drop)]
pub(crate) struct Notes {
    /// The calls, in the order of the text.
    pub(crate) calls: Vec<Call>,
    /// The footnotes that are shown, in the order of their numbers, each by how many begin before it.
    pub(crate) shown: Vec<usize>,
    /// How many calls each footnote has that are shown.
    pub(crate) counts: Vec<usize>,
}

/// A call whose footnote is known.
#[derive(Clone, Copy)]
struct Known {
    note: usize,
    place: Place,
    /// The call after it in the list of those in the same footnote.
    next: usize,
}

/// No call.
const NONE: usize = usize::MAX;

/// So many of one value.
fn repeated<T: Copy>(alloc: Global, value: T, count: usize) -> Result<Vec<T>, AllocError> {
    let mut list = Vec::new(alloc);
    for _ in 0..count {
        push(&mut list, value)?;
    }
    Ok(list)
}

/// Replaces a value of a list, and returns the one before, or `other` if there is none.
fn put(list: &mut [usize], at: usize, value: usize, other: usize) -> usize {
    match list.get_mut(at) {
        Some(kept) => {
            let old = *kept;
            *kept = value;
            old
        }
        None => other,
    }
}

/// Which footnotes have been found to be shown.
#[derive(Drop)]
struct Reached {
    /// Of each footnote, whether it is shown.
    is_shown: Vec<bool>,
    /// Those whose own calls have not been followed.
    pending: Vec<usize>,
}

impl Reached {
    /// Shows a footnote, if it is none that is shown.
    fn reach(&mut self, note: usize) -> Result<(), AllocError> {
        if let Some(is_shown) = self.is_shown.get_mut(note) {
            if !*is_shown {
                *is_shown = true;
                self.pending.push(note)?;
            }
        }
        Ok(())
    }

    /// Whether a call at this place is shown.
    fn is_shown(&self, place: Place) -> bool {
        match place {
            Place::Page => true,
            Place::Note(note) => self.is_shown.get(note).copied().unwrap_or(false),
            Place::Hidden => false,
        }
    }
}

/// The calls, each with the footnote that it calls. `first` becomes the first call in each footnote.
fn known_calls(
    alloc: Global,
    bytes: &[u8],
    events: &[Event],
    found: &[Found],
    labels: &Labels,
    first: &mut [usize],
) -> Result<Vec<Known>, Message> {
    let mut calls = Vec::new(alloc);
    for call in found {
        let form = label_form(alloc, bytes, call.label.events(events))?;
        let note = labels.footnote_definition(&form).unwrap_or(NONE);
        let next = match call.place {
            Place::Note(around) => put(first, around, calls.len(), NONE),
            _ => NONE,
        };
        let known = Known {
            note,
            place: call.place,
            next,
        };
        push(&mut calls, known)?;
    }
    Ok(calls)
}

/// Shows what the calls in a footnote call, from its first one on.
fn follow(reached: &mut Reached, calls: &[Known], first: usize) -> Result<(), AllocError> {
    let mut at = first;
    for _ in 0..calls.len() {
        let Some(call) = calls.get(at) else {
            break;
        };
        reached.reach(call.note)?;
        at = call.next;
    }
    Ok(())
}

/// Which of so many footnotes are shown.
fn reached_notes(
    alloc: Global,
    calls: &[Known],
    first: &[usize],
    count: usize,
) -> Result<Reached, AllocError> {
    let mut reached = Reached {
        is_shown: repeated(alloc, false, count)?,
        pending: Vec::new(alloc),
    };
    for call in calls {
        if call.place == Place::Page {
            reached.reach(call.note)?;
        }
    }
    for _ in 0..count {
        let Some(note) = reached.pending.pop() else {
            break;
        };
        let from = first.get(note).copied().unwrap_or(NONE);
        follow(&mut reached, calls, from)?;
    }
    Ok(reached)
}

impl Notes {
    /// Those of a text that has none.
    pub(crate) fn none(alloc: Global) -> Notes {
        Notes {
            calls: Vec::new(alloc),
            shown: Vec::new(alloc),
            counts: Vec::new(alloc),
        }
    }

    /// Numbers a call that is shown. `numbers` are those of the footnotes that have one, else 0.
    fn add(&mut self, note: usize, numbers: &mut [usize]) -> Result<(), AllocError> {
        let Some(number) = numbers.get_mut(note) else {
            return self.hide(note);
        };
        if *number == 0 {
            self.shown.push(note)?;
            *number = self.shown.len();
        }
        let number = *number;
        let nth = match self.counts.get_mut(note) {
            Some(count) => {
                *count = count.saturating_add(1);
                *count
            }
            None => 1,
        };
        push(&mut self.calls, Call { note, number, nth })
    }

    /// Adds a call that is not shown.
    fn hide(&mut self, note: usize) -> Result<(), AllocError> {
        let call = Call {
            note,
            number: 0,
            nth: 1,
        };
        push(&mut self.calls, call)
    }
}

/// The calls and footnotes of a text that has so many footnotes.
pub(crate) fn numbered_notes(
    alloc: Global,
    bytes: &[u8],
    events: &[Event],
    found: &[Found],
    labels: &Labels,
    count: usize,
) -> Result<Notes, Message> {
    let mut first = repeated(alloc, NONE, count)?;
    let known = known_calls(alloc, bytes, events, found, labels, first.as_mut_slice())?;
    let reached = reached_notes(alloc, &known, &first, count)?;
    let mut numbers = repeated(alloc, 0, count)?;
    let mut notes = Notes {
        calls: Vec::new(alloc),
        shown: Vec::new(alloc),
        counts: repeated(alloc, 0, count)?,
    };
    for call in &known {
        if reached.is_shown(call.place) {
            notes.add(call.note, numbers.as_mut_slice())?;
        } else {
            notes.hide(call.note)?;
        }
    }
    Ok(notes)
}
