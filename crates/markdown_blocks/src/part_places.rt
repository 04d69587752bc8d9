// Where each text part of a document is, in the order of the text: in a cell of a table, in the paragraph that is the
// first block of an item, or elsewhere.

ghost use Rattle.std.specs.Prelude.{◌≡◌, ◌≤◌, ◌&&◌, ◌∷◌, List, None, length, option_copied};
ghost use Rattle.md_events.specs.declared.inline.PartPlace.{PartPlace};
ghost use Rattle.md_events.specs.Events.Nested.{is_exit};
ghost use Rattle.md_events.specs.Events.Tiles.{is_part};
ghost use Rattle.md_events.specs.TextPart.{is_new_item, last_of_block, place_by};
ghost use Rattle.markdown_blocks.specs.PartPlaces.{begins_chunk, begins_no_part, chunk_at, holds_chunk, last_after};
ghost use Rattle.markdown_blocks.specs.PartPlaces.{part_places, places_from};

use md_engine::event::{Event, Kind, Name};
use md_events::inline::{Chunk, PartPlace};
use md_events::names::{is_block, is_text_part};
use md_events::walks::{Test, passing};

/// Whether an item has begun, and in it no block yet, by the last event of a block.
fn is_new_item(last: Option<&Event>) -> bool
    ensures { result ≡ is_new_item (option_copied last.entry) }
{
    match last {
        Some(event) => { matches!(event.kind, Kind::Enter) && matches!(event.name, Name::ListItem) }
        None => false,
    }
}

/// Where a text part of this name is, by the last event of a block before it.
pub(crate) fn place_by(last: Option<&Event>, name: Name) -> PartPlace
    ensures { result ≡ place_by (option_copied last.entry) name }
{
    match name {
        Name::GfmTableCellText => PartPlace::TableCell,
        Name::Paragraph if is_new_item(last) => PartPlace::ItemStart,
        _ => PartPlace::Elsewhere,
    }
}

/// Whether a chunk begins with an event inside of a text part, by the events after it.
fn begins_chunk(event: &Event, following: &[Event]) -> bool
    ensures { result ≡ begins_chunk event.now following.now }
{
    match following {
        [next, ..] => {
            matches!(event.kind, Kind::Enter)
                && event.link.is_some()
                && matches!(next.kind, Kind::Exit)
                && !is_text_part(next.name)
        }
        [] => false,
    }
}

/// The chunk that begins with an event inside of a text part, by the events after it, if one does.
pub(crate) fn chunk_at(event: &Event, following: &[Event]) -> Option<Chunk>
    ensures { result ≡ chunk_at event.now following.now }
{
    match following {
        [next, ..] if begins_chunk(event, following) => Some(Chunk {
            first: event.point,
            after: next.point,
        }),
        _ => None,
    }
}

/// Whether a text part ends with an event.
pub(crate) fn ends_part(event: &Event) -> bool
    ensures { result ≡ is_part event.now.name && is_exit event.now.kind }
{
    is_text_part(event.name) && matches!(event.kind, Kind::Exit)
}

/// Whether a text part has a chunk, by the events after the one with which it begins.
fn holds_chunk(following: &[Event]) -> bool
    ensures { result ≡ holds_chunk following.now }
{
    let mut left = following;
    while let [event, rest @ ..] = left {
        if ends_part(event) {
            return false;
        }
        if begins_chunk(event, rest) {
            return true;
        }
        left = rest;
    }
    false
}

/// The last event of a block, an event later.
pub(crate) fn last_after<'a>(last: Option<&'a Event>, event: &'a Event) -> Option<&'a Event>
    ensures { option_copied result ≡ last_after (option_copied last.entry) event.now }
{
    if is_block(event.name) {
        Some(event)
    } else {
        last
    }
}

/// The last event of a block among some events, which is looked for from the end.
fn last_of_block(events: &[Event]) -> Option<&Event>
    ensures { option_copied result ≡ last_of_block events.now }
{
    let mut at = events.len();
    while at > 0 {
        at -= 1;
        if is_block(events[at].name) {
            return Some(&events[at]);
        }
    }
    None
}

/// Where a text part of this name is, by the events before it.
fn place_after(before: &[Event], name: Name) -> PartPlace
    ensures { result ≡ place_by (last_of_block before.now) name }
{
    match name {
        Name::Paragraph => place_by(last_of_block(before), name),
        _ => place_by(None, name),
    }
}

/// That an event is not the begin of a text part, as a test.
struct BeginsNoPart;

impl Test for BeginsNoPart {
    ghost passes = { λ test. begins_no_part };

    #[inline(always)]
    fn passes(&self, event: &Event) -> bool {
        !(matches!(event.kind, Kind::Enter) && is_text_part(event.name))
    }
}

/// Where the text parts are that have chunks, in the order of the text. A part is looked for where its place is asked
/// for.
#[derive(Drop)]
pub(crate) struct Places<'a> {
    blocks: &'a [Event],
    /// Before how many events the next part is looked for no more.
    at: usize,
    ghost within: { at ≤ length blocks.now },
}

impl<'a> Places<'a> {
    /// The places of all parts of these blocks.
    pub(crate) fn of(blocks: &'a [Event]) -> Places<'a>
        ensures { places_from result.blocks.now result.at ≡ part_places None blocks.now }
    {
        Places { blocks, at: 0 }
    }

    /// Where the next part is, if there is one.
    pub(crate) fn next(&mut self) -> PartPlace
        ensures { (place : PartPlace) (following : List PartPlace) →
            places_from self.old.blocks.now self.old.at ≡ place ∷ following →
            (result ≡ place) × (places_from self.new.blocks.now self.new.at ≡ following) }
    {
        while self.at < self.blocks.len() {
            let at = self.at + passing(&BeginsNoPart, &self.blocks[self.at..]);
            let (before, rest) = self.blocks.split_at(at);
            self.at = at;
            let [begin, following @ ..] = rest else {
                break;
            };
            self.at = at + 1;
            if holds_chunk(following) {
                return place_after(before, begin.name);
            }
        }
        PartPlace::Elsewhere
    }
}
