// The labels of the definitions of a text (CommonMark 6.3), as what refers to them finds them: in normal form.
//
// A label may reach over lines. Its text is what its chunks are over, without the prefixes of containers between them.

ghost use Rattle.std.specs.Prelude.{◌≡◌, ◌≤◌, ◌&&◌, [], ◌∷◌, ◌++◌, length, map, not, string_bytes, IfOk};
ghost use Rattle.std.specs.Prelude.{OnOk};
ghost use Rattle.std.specs.List.{position_or_len};
ghost use Rattle.md_meaning.specs.Label.{normal_form};
ghost use Rattle.md_content.specs.LabelTexts.{on_one_line, unended};
ghost use Rattle.md_content.specs.Labels.{begins_label, is_label, label_text, labels_in};
ghost use Rattle.md_events.specs.Events.Nested.{is_enter, is_exit};
ghost use Rattle.md_events.specs.Events.Tiles.{is_data};

use md_engine::event::{Event, Kind, Name};
use md_engine::message::Message;
use md_events::slice::between;
use md_events::walks::{Test, passing};
use md_scan::label::form_of_bytes;
use md_scan::memory::push;
use std::alloc::Global;

/// Whether a label begins here.
pub fn begins_label(event: &Event) -> bool
    ensures { result ≡ begins_label event.now }
{
    matches!(event.name, Name::DefinitionLabelString) && matches!(event.kind, Kind::Enter)
}

/// Whether a label ends here.
fn ends_label(event: &Event) -> bool
    ensures { result ≡ is_exit event.now.kind && is_label event.now.name }
{
    matches!(event.name, Name::DefinitionLabelString) && matches!(event.kind, Kind::Exit)
}

/// Whether a chunk of text begins here.
fn begins_chunk(event: &Event) -> bool
    ensures { result ≡ is_enter event.now.kind && is_data event.now.name }
{
    matches!(event.kind, Kind::Enter) && matches!(event.name, Name::Data)
}

/// A byte, and a space for one that ends a line.
fn unended(byte: u8) -> u8
    ensures { result ≡ unended byte }
{
    match byte {
        b'\n' | b'\r' => b' ',
        _ => byte,
    }
}

/// Adds bytes, with a space for each that ends a line. After an `Err` the text is cut off.
fn push_bytes(text: &mut Vec<u8>, bytes: &[u8]) -> Result<(), Message>
    ensures { OnOk result (text.new.items ≡ text.old.items ++ on_one_line bytes.now) }
{
    for byte in bytes {
        push(text, unended(*byte))?;
    }
    Ok(())
}

/// Reads the text of a label that has begun before these events. After an `Err` it is cut off.
fn read_label(text: &mut Vec<u8>, bytes: &[u8], events: &[Event]) -> Result<(), Message>
    ensures { OnOk result (text.new.items ≡ on_one_line (label_text bytes.now events.now)) }
{
    text.clear();
    for (at, event) in events.iter().enumerate() {
        let Some(next) = events.get(at + 1) else {
            return Ok(());
        };
        if ends_label(event) {
            return Ok(());
        }
        if begins_chunk(event) {
            push_bytes(text, between(bytes, event.point.index, next.point.index))?;
        }
    }
    Ok(())
}

/// Adds the normal form of a label, which is on one line.
pub fn push_label(alloc: Global, found: &mut Vec<String>, text: &[u8]) -> Result<(), Message>
    ensures { OnOk result
        (map string_bytes found.new.items ≡ map string_bytes found.old.items ++ normal_form (text.now ∷ []) ∷ []) }
{
    let form = form_of_bytes(alloc, &[text])?;
    push(found, form)
}

/// Whether no label begins at an event.
struct BeginsNoLabel;

impl Test for BeginsNoLabel {
    ghost passes = { λ test e. not (begins_label e) };

    fn passes(&self, event: &Event) -> bool {
        !begins_label(event)
    }
}

/// How many of the events come before the first that begins a label.
fn before_label(events: &[Event]) -> usize
    ensures value { result ≡ position_or_len begins_label events.now }
    ensures within { result ≤ length events.now }
{
    passing(&BeginsNoLabel, events)
}

/// The normal forms of all labels of definitions, in the order of the text, repeats kept. Nothing is allocated where
/// there is none.
pub fn labels(alloc: Global, bytes: &[u8], events: &[Event]) -> Result<Vec<String>, Message>
    ensures { IfOk result (λ found. map string_bytes found.items ≡ labels_in bytes.now events.now) }
{
    let mut found = Vec::new(alloc);
    let mut text = Vec::new(alloc);
    let mut at = 0;
    while at < events.len() {
        at += before_label(&events[at..]);
        if at < events.len() {
            read_label(&mut text, bytes, &events[at + 1..])?;
            push_label(alloc, &mut found, &text)?;
            at += 1;
        }
    }
    Ok(found)
}
