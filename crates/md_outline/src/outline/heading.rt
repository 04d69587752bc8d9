// What an outline knows of a heading that is open, and what it shows of it.

ghost use Rattle.std.specs.Prelude.{◌≡◌, ◌++◌, length, OnOk};
ghost use Rattle.md_meaning.specs.Outline.{entries_of};
ghost use Rattle.md_events.specs.Events.Spelled.{with_text};
ghost use Rattle.md_outline.specs.HeadingState.{heading_entries, heading_of, with_markers};

use crate::outline::lines::{next, push, push_text};
use md_engine::message::Message;
use md_meaning::outline::{OutlineLine, Word};

/// A heading that is open.
#[derive(Clone, Copy)]
pub struct Heading<'a> {
    /// The first run of its markers.
    pub markers: Option<&'a [u8]>,
    pub text: Option<&'a str>,
}

impl<'a> Heading<'a> {
    /// How many markers it has.
    pub fn level(self) -> usize
        ensures { result ≡ length (heading_of self.entry).markers }
    {
        match self.markers {
            Some(markers) => markers.len(),
            None => 0,
        }
    }

    /// Takes a run of markers: the first gives it its depth.
    pub fn marked(self, run: &'a [u8]) -> Heading<'a>
        ensures { heading_of result ≡ with_markers run.now (heading_of self.entry) }
    {
        if self.level() == 0 {
            Heading {
                markers: Some(run),
                text: self.text,
            }
        } else {
            self
        }
    }

    /// Takes a text: the heading has the first.
    pub fn titled(self, text: &'a str) -> Heading<'a>
        ensures { heading_of result ≡ with_text text.now (heading_of self.entry) }
    {
        match self.text {
            None => Heading {
                markers: self.markers,
                text: Some(text),
            },
            Some(_) => self,
        }
    }
}

/// Adds a heading.
pub fn push_heading<'a>(
    lines: &mut Vec<OutlineLine<'a>>,
    depth: usize,
    heading: Heading<'a>,
) -> Result<(), Message>
    ensures { OnOk result
        (entries_of lines.new.items ≡ entries_of lines.old.items ++ heading_entries depth (heading_of heading.entry)) }
{
    let level = u8::try_from(heading.level()).unwrap_or(u8::MAX);
    push(lines, depth, Word::Heading(level), "")?;
    match heading.text {
        Some(text) => push_text(lines, next(depth)?, text),
        None => Ok(()),
    }
}
