// Spans: what a reader finds in a text, each with its name.

ghost use Rattle.std.specs.Prelude.{◌≡◌, ◌+◌, ◌++◌, ◌∷◌, [], IfOk, OnOk};
ghost use Rattle.markdown_inlines.specs.Spans.{holes, span_of};

use md_engine::event::Name;
use md_engine::message::Message;
use md_scan::memory::push;

/// A part of a text, from a byte to a byte. Over no byte it is nothing: a place that is kept, or an empty part.
#[derive(Clone, Copy, Debug, PartialEq, Eq)]
pub struct Span {
    pub name: Name,
    pub start: usize,
    pub end: usize,
}

/// A place that is kept.
const PLACE: Span = Span {
    name: Name::Data,
    start: 0,
    end: 0,
};

impl Span {
    /// A part of a text.
    pub(crate) fn new(name: Name, start: usize, end: usize) -> Span
        ensures { result ≡ span_of name start end }
    {
        Span { name, start, end }
    }
}

/// Where so many bytes end that begin at a place.
///
/// An `Err` says that it is further than a text in memory can be.
pub(crate) fn past(at: usize, len: usize) -> Result<usize, Message>
    ensures { IfOk result (λ end. end ≡ at + len) }
{
    match at.checked_add(len) {
        Some(end) => Ok(end),
        None => Err(Message),
    }
}

/// How many spans a list has room for where it has any: as many as a few links have.
const ROOM: usize = 32;

/// Adds spans.
///
/// An `Err` says that memory ran out.
#[inline(always)]
pub(crate) fn push_spans(spans: &mut Vec<Span>, more: &[Span]) -> Result<(), Message>
    ensures { OnOk result (spans.new.items ≡ spans.old.items ++ more.now) }
{
    if spans.is_empty() && spans.reserve(ROOM).is_err() {
        return Err(Message);
    }
    match spans.extend_from_slice(more) {
        Ok(()) => Ok(()),
        Err(_) => Err(Message),
    }
}

/// Keeps places for spans that may be found later.
///
/// An `Err` says that memory ran out.
pub(crate) fn push_places(spans: &mut Vec<Span>, count: usize) -> Result<(), Message>
    ensures { OnOk result (spans.new.items ≡ spans.old.items ++ holes count) }
{
    let mut left = count;
    while left >= 3 {
        push_spans(spans, &[PLACE, PLACE, PLACE])?;
        left -= 3;
    }
    while left > 0 {
        push(spans, PLACE)?;
        left -= 1;
    }
    Ok(())
}
