// Items, and the markers of their lists.

ghost use Rattle.std.specs.Prelude.{◌≡◌, ◌&&◌, None, get_or};
ghost use Rattle.md_containers.specs.Listed.{is_continued, is_item, is_marker, list_name, marker_ahead, next_item};
ghost use Rattle.md_events.specs.Events.Nested.{is_enter};
ghost use Rattle.md_events.specs.Events.Spelled.{role};

use md_engine::event::{Event, Kind, Name, Point};
use md_events::names::is_block;

/// Whether these events are of an item.
#[inline(always)]
pub(crate) fn is_item(name: Name) -> bool
    ensures { result ≡ is_item (role name) }
{
    matches!(name, Name::ListItem)
}

/// Whether the marker of an item begins here.
fn begins_marker(event: &Event) -> bool
    ensures { result ≡ (is_enter event.now.kind && is_marker (role event.now.name)) }
{
    matches!(event.kind, Kind::Enter) && matches!(event.name, Name::ListItemMarker)
}

/// A byte of the text; 0 after its end.
fn byte_at(bytes: &[u8], index: usize) -> u8
    ensures { result ≡ get_or bytes.now index 0 }
{
    if index < bytes.len() { bytes[index] } else { 0 }
}

/// The marker of the item that these events follow the begin of: 0 if a block comes before it, or there is none.
pub(crate) fn marker_ahead(bytes: &[u8], events: &[Event]) -> u8
    ensures { result ≡ marker_ahead bytes.now events.now }
{
    let mut at = 0;
    while at < events.len() {
        let event = events[at];
        if is_block(event.name) {
            return 0;
        }
        if begins_marker(&event) {
            return byte_at(bytes, event.point.index);
        }
        at += 1;
    }
    0
}

/// The marker of the next block, if that is an item.
pub(crate) fn next_item(bytes: &[u8], events: &[Event]) -> Option<u8>
    ensures { result ≡ next_item bytes.now events.now }
{
    let mut at = 0;
    while at < events.len() {
        let event = events[at];
        if is_block(event.name) {
            if matches!(event.kind, Kind::Enter) && is_item(event.name) {
                return Some(marker_ahead(bytes, &events[at + 1..]));
            }
            return None;
        }
        at += 1;
    }
    None
}

/// Whether the list of an item with this marker has a further item, by what the next block is.
pub(crate) fn is_continued(marker: u8, next: Option<u8>) -> bool
    ensures { result ≡ is_continued marker next }
{
    match next {
        Some(next) => marker == next,
        None => false,
    }
}

/// The name of a list with this marker.
fn list_name(marker: u8) -> Name
    ensures { result ≡ list_name marker }
{
    if marker == b'.' || marker == b')' {
        Name::ListOrdered
    } else {
        Name::ListUnordered
    }
}

/// The begin or the end of a list with this marker.
pub(crate) fn list_event(kind: Kind, marker: u8, point: Point) -> Event
    ensures { result ≡ record { kind = kind; name = list_name marker; point = point; link = None } }
{
    Event {
        kind,
        name: list_name(marker),
        point,
        link: None,
    }
}
