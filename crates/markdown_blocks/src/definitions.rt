// Where the definitions of a text lead, and their titles, before its parts are read: a reference may be before its
// definition.

ghost use Rattle.std.specs.Prelude.{◌≡◌, ◌<◌, ◌+◌, ◌^◌, ◌++◌, ◌∷◌, IfOk, List, OnOk, length, true};
ghost use Rattle.md_engine.specs.declared.event.Event.{Event};
ghost use Rattle.md_events.specs.Events.Tiles.{part_at, part_kind};
ghost use Rattle.md_events.specs.TextPart.{AreBlocks, AreLabelsOf, document_of};
ghost use Rattle.markdown_blocks.specs.Definitions.{AreDefinitions, AreRead, is_definition_string, is_of_definition};
ghost use Rattle.markdown_blocks.specs.Definitions.{is_about_definition, is_outside, marked};
ghost use Rattle.markdown_blocks.specs.PartPlaces.{chunks_in};

use crate::part_places::{chunk_at, ends_part};
use md_engine::event::{Event, Kind, Name};
use md_engine::message::Message;
use md_engine::parse_state::ParseState;
use md_events::inline::{Chunk, Inline, PartKind, PartPlace, TextPart};
use md_events::labels::Labels;
use md_events::moving::append;
use md_events::walks::{Test, passing};
use md_scan::memory::push;
use std::alloc::Global;

/// Whether the destination or the title of a definition is in a part of this name.
#[inline(always)]
fn is_definition_string(name: Name) -> bool
    ensures { result ≡ is_definition_string name }
{
    matches!(
        name,
        Name::DefinitionDestinationString | Name::DefinitionTitleString
    )
}

/// Whether a definition, its destination or its title begins or ends with an event of this name.
#[inline(always)]
fn is_of_definition(name: Name) -> bool
    ensures { result ≡ is_of_definition name }
{
    matches!(name, Name::Definition) || is_definition_string(name)
}

/// Whether a definition, or what is within one, begins or ends with an event of this name. These names are neighbours, so
/// this is one comparison.
#[inline(always)]
fn is_about_definition(name: Name) -> bool
    ensures { result ≡ is_about_definition name }
{
    matches!(
        name,
        Name::Definition
            | Name::DefinitionLabel
            | Name::DefinitionLabelMarker
            | Name::DefinitionLabelString
            | Name::DefinitionMarker
            | Name::DefinitionDestination
            | Name::DefinitionDestinationLiteral
            | Name::DefinitionDestinationLiteralMarker
            | Name::DefinitionDestinationRaw
            | Name::DefinitionDestinationString
            | Name::DefinitionTitle
            | Name::DefinitionTitleMarker
            | Name::DefinitionTitleString
    )
}

/// That an event is of no definition and within none, as a test.
struct IsOutside;

impl Test for IsOutside {
    ghost passes = { λ test. is_outside };

    #[inline(always)]
    fn passes(&self, event: &Event) -> bool {
        !is_about_definition(event.name)
    }
}

/// Adds where the events of definitions are among these, which so many are before: their enters and exits, and those of
/// their destinations and titles.
///
/// An `Err` says that memory ran out.
pub(crate) fn mark_definitions(
    marks: &mut Vec<usize>,
    before: usize,
    events: &[Event],
) -> Result<(), Message>
    requires { before + length events.now < 2 ^ 64 }
    ensures { OnOk result (marks.new.items ≡ marks.old.items ++ marked before events.now) }
{
    let mut at = 0;
    while at < events.len() {
        if is_of_definition(events[at].name) {
            push(marks, before + at)?;
            at += 1;
        } else {
            at += 1 + passing(&IsOutside, &events[at + 1..]);
        }
    }
    Ok(())
}

/// Lists the chunks of a text part, by the events after the one with which it begins.
///
/// An `Err` says that memory ran out.
fn list_part(chunks: &mut Vec<Chunk>, following: &[Event]) -> Result<(), Message>
    ensures { OnOk result (chunks.new.items ≡ chunks_in following.now) }
{
    chunks.clear();
    let mut left = following;
    while let [event, rest @ ..] = left {
        if ends_part(event) {
            return Ok(());
        }
        if let Some(chunk) = chunk_at(event, rest) {
            push(chunks, chunk)?;
        }
        left = rest;
    }
    Ok(())
}

/// Reads the string that begins with an event, if one does. `answer` becomes what the layer reads of it.
///
/// An `Err` says that memory ran out.
fn read_string<I: Inline>(
    alloc: Global,
    inline: &I,
    state: &ParseState,
    labels: &Labels,
    _blocks: &[Event],
    begin: &Event,
    following: &[Event],
    chunks: &mut Vec<Chunk>,
    answer: &mut Vec<Event>,
) -> Result<(), Message>
    requires are { AreBlocks (document_of state.now) _blocks.now }
    requires labels { AreLabelsOf (document_of state.now) labels.now }
    requires among { (before : List Event) × (_blocks.now ≡ before ++ begin.now ∷ following.now) }
    requires definition { is_of_definition begin.now.name ≡ true }
    ensures { OnOk result
        (AreRead (I.reads inline.now (document_of state.now))
        (part_at begin.now.kind (part_kind begin.now.name) following.now) answer.new.items) }
{
    answer.clear();
    if !is_definition_string(begin.name) || matches!(begin.kind, Kind::Exit) {
        return Ok(());
    }
    list_part(chunks, following)?;
    if chunks.is_empty() {
        return Ok(());
    }
    let part = TextPart {
        kind: PartKind::String,
        place: PartPlace::Elsewhere,
        chunks,
    };
    inline.read_part(alloc, part, state, labels, answer)
}

/// The definitions among the blocks of a text, as `Ahead` has them, given where their events are.
///
/// An `Err` says that memory ran out.
pub(crate) fn read_definitions<I: Inline>(
    alloc: Global,
    inline: &I,
    state: &ParseState,
    labels: &Labels,
    blocks: &[Event],
    marks: &[usize],
) -> Result<Vec<Event>, Message>
    requires are { AreBlocks (document_of state.now) blocks.now }
    requires labels { AreLabelsOf (document_of state.now) labels.now }
    requires marks { marks.now ≡ marked 0 blocks.now }
    ensures { IfOk result
        (λ all. AreDefinitions (I.reads inline.now (document_of state.now)) blocks.now all.items) }
{
    let mut all = Vec::new(alloc);
    let mut chunks = Vec::new(alloc);
    let mut answer = Vec::new(alloc);
    let mut left = marks;
    while let [mark, further @ ..] = left {
        let event = &blocks[*mark];
        push(&mut all, *event)?;
        read_string(
            alloc,
            inline,
            state,
            labels,
            blocks,
            event,
            &blocks[*mark + 1..],
            &mut chunks,
            &mut answer,
        )?;
        append(&mut all, &answer)?;
        left = further;
    }
    Ok(all)
}
