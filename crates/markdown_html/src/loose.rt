// Which lists are loose (CommonMark 5.3).
//
// A list is loose if a blank line parts two of its items, or two blocks directly in one of its items. The events do not
// say so, but a `BlankLineEnding` shows where a line is blank. Three of them part nothing in the list: that of an item,
// or of a footnote definition, which begins on the line and has no text there; that of a quote within the list, whose
// prefix is on the line, so that the line is blank in the quote alone; and that of a line which is the last one of an
// open fence, math or HTML, as in `- ~~~`, an empty line, `- a`.

ghost use Rattle.std.specs.Prelude.{◌≤◌, length};

use crate::tags::{is_list_or_blank, is_of_lists};
use md_engine::event::{Event, Kind, Name};
use md_events::names::{is_block, is_container};
use std::alloc::{AllocError, Global};

/// A block, list or item that is open.
#[derive(Clone, Copy)]
struct Open {
    /// Of a list or an item, which list it is, by the order in which lists begin.
    list: Option<usize>,
    /// How many quotes are open outside of it, or with it if it is one.
    quotes: usize,
    /// Whether a part has ended directly in it.
    has_part: bool,
    /// Whether a blank line is after that part.
    is_parted: bool,
}

/// What is known after some of the events of a list.
#[derive(Drop)]
pub(crate) struct LooseWalk {
    /// Whether a list is loose, for each list that has begun.
    pub(crate) loose: Vec<bool>,
    /// The blocks, lists and items that are open, the innermost last.
    open: Vec<Open>,
    /// How many of them are quotes.
    quotes: usize,
    /// How many quotes have their prefix on a line, and which line it is.
    prefixes: usize,
    quoted: usize,
    /// The last line on which an item or a footnote definition begins.
    begins: usize,
    /// The last line on which a leaf block ends.
    ends: usize,
}

impl LooseWalk {
    /// A walk that has begun with no event.
    pub(crate) fn new(alloc: Global) -> LooseWalk {
        LooseWalk {
            loose: Vec::new(alloc),
            open: Vec::new(alloc),
            quotes: 0,
            prefixes: 0,
            quoted: 0,
            begins: 0,
            ends: 0,
        }
    }

    /// Reads the list with which these events begin, in so many quotes. Without a blank line none in it is loose.
    pub(crate) fn look(&mut self, ahead: &[Event], quotes: usize) -> Result<(), AllocError> {
        self.loose.clear();
        let (list, has_blank) = list_of(ahead);
        if !has_blank {
            return Ok(());
        }
        self.open.clear();
        self.quotes = quotes;
        for event in list {
            if is_of_lists(event.name) {
                self.read(event)?;
            }
        }
        Ok(())
    }

    /// Reads an event.
    fn read(&mut self, event: &Event) -> Result<(), AllocError> {
        match event.kind {
            Kind::Enter if is_block(event.name) => self.enter(event.name)?,
            Kind::Exit if is_block(event.name) => self.exit(event.name, event.point.line),
            Kind::Exit => self.end_prefix(event.name, event.point.line),
            Kind::Enter if event.name == Name::BlankLineEnding => self.part(event.point.line),
            Kind::Enter => {}
        }
        Ok(())
    }

    /// Begins a block, list or item. A part that is parted from the one in front makes the list around it loose.
    fn enter(&mut self, name: Name) -> Result<(), AllocError> {
        let around = self.open.last().copied();
        let list = around.and_then(|outer| outer.list);
        if around.is_some_and(|outer| outer.is_parted) {
            self.set_loose(list);
        }
        if name == Name::BlockQuote {
            self.quotes = self.quotes.saturating_add(1);
        }
        let own = match name {
            Name::ListOrdered | Name::ListUnordered => Some(self.loose.len()),
            Name::ListItem => list,
            _ => None,
        };
        if is_list(name) {
            self.loose.push(false)?;
        }
        self.open.push(Open {
            list: own,
            quotes: self.quotes,
            has_part: false,
            is_parted: false,
        })?;
        Ok(())
    }

    /// Ends a block, list or item on a line.
    fn exit(&mut self, name: Name, line: usize) {
        if name == Name::BlockQuote {
            self.quotes = self.quotes.saturating_sub(1);
        }
        if !is_container(name) {
            self.ends = line;
        }
        let _ended = self.open.pop();
        if let Some(outer) = self.open.last_mut() {
            outer.has_part = true;
            outer.is_parted = false;
        }
    }

    /// Notes a prefix on a line, if one ends there.
    fn end_prefix(&mut self, name: Name, line: usize) {
        match name {
            Name::BlockQuotePrefix => {
                self.prefixes = self.prefixes_on(line).saturating_add(1);
                self.quoted = line;
            }
            Name::ListItemPrefix | Name::GfmFootnoteDefinitionPrefix => self.begins = line,
            _ => {}
        }
    }

    /// How many quotes have had their prefix on a line.
    fn prefixes_on(&self, line: usize) -> usize {
        if self.quoted == line {
            self.prefixes
        } else {
            0
        }
    }

    /// Notes that a line is blank.
    fn part(&mut self, line: usize) {
        let is_inside = self.begins == line || self.ends == line;
        let prefixes = self.prefixes_on(line);
        if let Some(inner) = self.open.last_mut() {
            if inner.has_part && !is_inside && prefixes <= inner.quotes {
                inner.is_parted = true;
            }
        }
    }

    fn set_loose(&mut self, list: Option<usize>) {
        if let Some(found) = list.and_then(|place| self.loose.get_mut(place)) {
            *found = true;
        }
    }
}

fn is_list(name: Name) -> bool {
    matches!(name, Name::ListOrdered | Name::ListUnordered)
}

/// These events from the first on that is of a list, or of the ending of a blank line. Four are asked at once.
fn from_list_or_blank(events: &[Event]) -> &[Event]
    ensures { length result.now ≤ length events.now }
{
    let mut left = events;
    while let [first, second, third, fourth, rest @ ..] = left {
        if is_list_or_blank(first.name)
            || is_list_or_blank(second.name)
            || is_list_or_blank(third.name)
            || is_list_or_blank(fourth.name)
        {
            break;
        }
        left = rest;
    }
    while let [event, rest @ ..] = left {
        if is_list_or_blank(event.name) {
            break;
        }
        left = rest;
    }
    left
}

/// The events of the list with which these begin, and whether a line in it is blank.
fn list_of(ahead: &[Event]) -> (&[Event], bool) {
    let mut open: usize = 0;
    let mut has_blank = false;
    let mut left = ahead;
    while let [event, rest @ ..] = left {
        match (event.name, event.kind) {
            (Name::BlankLineEnding, _) => has_blank = true,
            (_, Kind::Enter) => open = open.saturating_add(1),
            (_, Kind::Exit) => open = open.saturating_sub(1),
        }
        if open == 0 {
            let many = ahead.len().saturating_sub(left.len());
            return (ahead.get(..many).unwrap_or(ahead), has_blank);
        }
        left = from_list_or_blank(rest);
    }
    (ahead, has_blank)
}
