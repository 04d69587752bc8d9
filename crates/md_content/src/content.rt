// Content: lines that no other block takes (CommonMark 4.7 and 4.8).
//
//     content ::= 1*line
//     text    ::= *( definition eol ) ( definition | paragraph )
//
// Each line first is as one linked `Content`. When all lines are known, those that follow one another are joined and
// read as one text.
//
// The prefixes of containers before a line belong to no line of the content (CommonMark 5.1). So each line begins after
// those before it, and ends after its ending, before those of the next line: its end is that of its chunk.

ghost use Rattle.std.specs.Prelude.{◌≡◌, ◌≢◌, ℕ, ◌^◌, ◌<◌, ◌≤◌, ◌&&◌, false, not, IfOk, IfSome, List, []};
ghost use Rattle.std.specs.Prelude.{OnOk, length, slice_range, true};
ghost use Rattle.std.specs.List.{prefix_len};
ghost use Rattle.std.specs.Option.{option_map};
ghost use Rattle.md_content.specs.ChunkRule.{IsChunkState};
ghost use Rattle.md_engine.specs.Full.{IsFull, OnError};
ghost use Rattle.md_engine.specs.Found.{found_in};
ghost use Rattle.md_engine.specs.Scheme.{valid};
ghost use Rattle.md_engine.specs.World.{looks, world};
ghost use Rattle.md_engine.specs.declared.state.Name.{Name as StateName};
ghost use Rattle.md_engine.specs.declared.state.State.{State};
ghost use Rattle.md_engine.specs.declared.state.content.State.{State as ContentState};
ghost use Rattle.md_content.specs.States.{content_scheme, content_transition};
ghost use Rattle.md_content.specs.Chunks.{chunk_transition};
ghost use Rattle.md_events.specs.Events.Nested.{Nested};
ghost use Rattle.md_events.specs.WholeLine.{line_taken};
ghost use Rattle.md_content.specs.Chunks.{rest_taken};
ghost use Rattle.md_link_definitions.specs.OpenText.{text_following};
ghost use Rattle.md_content.specs.ContentNests.{ContentNests};
ghost use Rattle.md_content.specs.ContentReads.{content_events, is_piece_end, settled};
ghost use Rattle.md_content.specs.Resolves.{Resolves, found_in_content, has_neither, is_all_read};
ghost use Rattle.md_content.specs.LabelLook.{may_close, may_define_in};
ghost use Rattle.md_content.specs.WholeLines.{are_lines, is_followed, is_within_line, paragraph_of};
ghost use Rattle.md_engine.specs.declared.configuration.ParseOptions.{ParseOptions};
ghost use Rattle.md_events.specs.Parts.{AreChunks, ArePlaced, IsChunk};
ghost use Rattle.md_events.specs.Stays.{TakesEach};
ghost use Rattle.md_events.specs.Transition.{IsAt, NeedsNothing};

pub use crate::definitions::{definition_after, definition_before};
use crate::labels::{begins_label, labels};
use crate::lines::read_lines;
use crate::whole_definitions::write_definitions;
use crate::{definitions, paragraph};
use md_engine::configuration::ParseOptions;
use md_engine::event::{Content, Event, Kind, Link, Name};
use md_engine::message::Message;
use md_engine::or_error;
use md_engine::resolve::Name as ResolveName;
use md_engine::state::content::State as ContentState;
use md_engine::state::{Name as StateName, State};
use md_engine::stay::Stay;
use md_engine::subtokenize::Subresult;
use md_engine::table::{Table, flush, push};
use md_engine::tokenizer::{HeldLeaf, Scratch, Tokenizer};
use md_events::inline::Chunk;
use md_events::slice::{between, whole_from};
use md_events::space_or_tab;
use md_events::subtokenize::Reader;
use md_events::walks::{Test, passing};
use md_link_definitions::open_text::text_following;
use md_link_definitions::{definition, destination, label, space_or_tab_eol, title};
use std::alloc::Global;
use std::mem;

/// What was taken of a line. A byte within which the point lies counts, and not one within which the line began.
fn line_taken<'a>(tokenizer: &Tokenizer<'a>) -> &'a [u8]
    ensures value { let w = world tokenizer.now in result.now ≡ line_taken w.setting.bytes w.scratch w.point }
    ensures bound { length result.now < 2 ^ 61 }
{
    between(
        tokenizer.bytes,
        tokenizer.scratch.start,
        whole_from(tokenizer.point),
    )
}

/// What is held of the open text after the line that ends here.
fn text_with_line(tokenizer: &Tokenizer) -> HeldLeaf
    ensures { let w = world tokenizer.now in
        result ≡ text_following w.flags.leaf (rest_taken w.setting.bytes w.scratch w.point) }
{
    let Scratch { size, seen, .. } = tokenizer.scratch;
    text_following(tokenizer.flags.leaf, size, seen, line_taken(tokenizer))
}

/// Before a line. Its column from 0, and whether it begins within a tab, show how far it is indented.
///
/// ```markdown
/// > | a
///     ^
/// ```
#[inline(always)]
#[tactic(auto, using(crate::proofs::ContentMeaning::chunk_rule))]
pub fn chunk_start(tokenizer: &mut Tokenizer) -> State
    requires { IsAt NeedsNothing (StateName.Content ContentState.ChunkStart) (world tokenizer.old) }
    ensures { IsChunkState ContentState.ChunkStart (world tokenizer.old) result tokenizer.new }
{
    let link = Link {
        previous: false,
        next: false,
        content: Content::Content,
    };
    or_error!(tokenizer.enter_link(Name::Content, link));
    tokenizer.scratch.start = whole_from(tokenizer.point);
    tokenizer.scratch.size = tokenizer.point.column.saturating_sub(1);
    tokenizer.scratch.seen = tokenizer.point.vs > 0;
    State::Retry(StateName::Content(ContentState::ChunkInside))
}

/// In a line. Where it ends, the open text is said of it.
///
/// ```markdown
/// > | ab
///     ^^
/// ```
#[inline(always)]
#[tactic(auto, using(crate::proofs::ContentMeaning::chunk_rule))]
pub fn chunk_inside(tokenizer: &mut Tokenizer) -> State
    requires { IsAt NeedsNothing (StateName.Content ContentState.ChunkInside) (world tokenizer.old) }
    ensures { IsChunkState ContentState.ChunkInside (world tokenizer.old) result tokenizer.new }
{
    match tokenizer.current {
        None | Some(b'\n') => {
            or_error!(tokenizer.exit(Name::Content));
            or_error!(tokenizer.register_resolver_before(ResolveName::Content));
            tokenizer.flags.leaf = text_with_line(tokenizer);
            tokenizer.scratch.start = 0;
            tokenizer.scratch.size = 0;
            tokenizer.scratch.seen = false;
            State::Ok
        }
        _ => {
            tokenizer.consume();
            State::Next(StateName::Content(ContentState::ChunkInside))
        }
    }
}

/// Calls a state of a line of content.
#[tactic(auto, using(crate::proofs::ContentMeaning::chunk_rule))]
pub fn call(tokenizer: &mut Tokenizer, state: ContentState) -> State
    requires { IsAt NeedsNothing (StateName.Content state) (world tokenizer.old) }
    ensures { IsChunkState state (world tokenizer.old) result tokenizer.new }
{
    match state {
        ContentState::ChunkStart => chunk_start(tokenizer),
        ContentState::ChunkInside => chunk_inside(tokenizer),
        _ => State::Nok,
    }
}

/// What a state of a line of content only takes.
pub fn takes_at_once(state: ContentState) -> Option<Stay>
    ensures { IfSome result (λ stay. TakesEach stay (StateName.Content state) (chunk_transition state)) }
{
    match state {
        ContentState::ChunkInside => Some(Stay::Line),
        _ => None,
    }
}

/// Calls a state of the table of content.
fn call_state(tokenizer: &mut Tokenizer, name: StateName) -> State
    requires current { (world tokenizer.old).current ≡ looks (world tokenizer.old) }
    requires valid { valid content_scheme (world tokenizer.old) (State.Next name) }
    ensures to { result ≢ State.Error → result ≡ (content_transition name (world tokenizer.old)).to }
    ensures world { result ≢ State.Error → world tokenizer.new ≡ (content_transition name (world tokenizer.old)).world }
    ensures full { OnError result (IsFull tokenizer.new) }
{
    match name {
        StateName::Content(state) => definitions::call(tokenizer, state),
        StateName::Definition(state) => definition::call(tokenizer, state),
        StateName::Destination(state) => destination::call(tokenizer, state),
        StateName::Label(state) => label::call(tokenizer, state),
        StateName::Paragraph(state) => paragraph::call(tokenizer, state),
        StateName::SpaceOrTab(state) => space_or_tab::call(tokenizer, state),
        StateName::SpaceOrTabEol(state) => space_or_tab_eol::call(tokenizer, state),
        StateName::Title(state) => title::call(tokenizer, state),
        _ => State::Nok,
    }
}

/// The states of the text of content.
pub struct ContentTable;

impl Table for ContentTable {
    ghost use Rattle.std.specs.Prelude.{None};
    ghost use Rattle.md_content.specs.States.{ContentStep, content_scheme};

    ghost step = { ContentStep };

    ghost scheme = { content_scheme };

    ghost resolves = { λ name old found new. (found ≡ None) × (new ≡ old) };

    fn call(tokenizer: &mut Tokenizer, name: StateName) -> State {
        match name {
            StateName::SpaceOrTab(state) => space_or_tab::call_at_once(tokenizer, state),
            _ => call_state(tokenizer, name),
        }
    }

    fn takes_at_once(name: StateName) -> Option<Stay> {
        match name {
            StateName::Destination(state) => destination::takes_at_once(state),
            StateName::Label(state) => label::takes_at_once(state),
            StateName::Paragraph(state) => paragraph::takes_at_once(state),
            StateName::SpaceOrTab(state) => space_or_tab::takes_at_once(state),
            _ => None,
        }
    }

    fn resolve(
        _tokenizer: &mut Tokenizer,
        _name: ResolveName,
    ) -> Result<Option<Subresult>, Message> {
        Ok(None)
    }
}

/// Reads joined lines.
#[derive(Drop)]
pub struct ContentReader<'a> {
    pub bytes: &'a [u8],
    pub options: &'a ParseOptions,
}

impl Reader for ContentReader<'_> {
    ghost use Rattle.md_content.specs.ContentReads.{content_readings, wants_content};

    ghost text = { λ reader. reader.bytes.now };

    ghost wants = { λ reader. wants_content };

    ghost may_read = { λ reader content chunks. Unit {0} };

    ghost reads_as = { λ reader. content_readings reader.bytes.now reader.options.now };

    fn reads(&self, content: Content) -> bool {
        matches!(content, Content::Content)
    }

    fn read(
        &self,
        alloc: Global,
        _content: Content,
        chunks: &[Chunk],
        events: &mut Vec<Event>,
    ) -> Result<(), Message> {
        self.read_part(alloc, chunks, events)
    }
}

impl ContentReader<'_> {
    /// The events of a part that is in these chunks, definitions and a paragraph over them, in place of what is in
    /// `events`.
    fn read_part(
        &self,
        alloc: Global,
        chunks: &[Chunk],
        events: &mut Vec<Event>,
    ) -> Result<(), Message>
        requires { AreChunks self.now.bytes.now chunks.now }
        ensures placed { OnOk result (ArePlaced self.now.bytes.now events.new.items) }
        ensures events { OnOk result
            (events.new.items ≡ content_events self.now.bytes.now self.now.options.now chunks.now) }
    {
        if is_paragraph(self.bytes, chunks) {
            return write_paragraph(chunks, events);
        }
        if self.options.constructs.definition && write_definitions(self.bytes, chunks, events)? {
            return Ok(());
        }
        self.read_by_states(alloc, chunks, events)
    }

    /// The same, state by state. Most parts are one paragraph and need no tokenizer, so this is not inlined.
    #[inline(never)]
    fn read_by_states(
        &self,
        alloc: Global,
        chunks: &[Chunk],
        events: &mut Vec<Event>,
    ) -> Result<(), Message>
        requires { AreChunks self.now.bytes.now chunks.now }
        ensures placed { OnOk result (ArePlaced self.now.bytes.now events.new.items) }
        ensures events { OnOk result
            (events.new.items ≡ content_events self.now.bytes.now self.now.options.now chunks.now) }
    {
        let mut tokenizer = Tokenizer::new(alloc, chunks[0].first, self.bytes, self.options);
        events.clear();
        let list = mem::replace(events, Vec::new(alloc));
        tokenizer.set_events(list);
        for chunk in chunks {
            tokenizer.define_skip(chunk.first)?;
        }
        let end = chunks[chunks.len() - 1].after.index;
        let start = State::Next(StateName::Content(ContentState::DefinitionBefore));
        let state = match push::<ContentTable>(&mut tokenizer, end, start) {
            State::Error => return Err(Message),
            state => state,
        };
        flush::<ContentTable>(&mut tokenizer, state, true)?;
        *events = tokenizer.events;
        settle(events, chunks);
        Ok(())
    }
}

/// Whether a chunk ends after the ending of its line, and the next chunk begins on the next line.
///
/// The line of a point counts the endings before it. So the chunk has one ending, and by the column it is the last of
/// its text.
pub fn is_followed(chunk: &Chunk, next: &Chunk) -> bool
    ensures { result ≡ is_followed chunk.now next.now }
{
    chunk.after.line.saturating_sub(chunk.first.line) == 1
        && chunk.after.column == 1
        && next.first.line == chunk.after.line
        && chunk.after.index <= next.first.index
}

/// Whether a chunk ends on the line on which it begins, and has a byte.
pub fn is_within_line(chunk: &Chunk) -> bool
    ensures { result ≡ is_within_line chunk.now }
{
    chunk.first.line == chunk.after.line
        && chunk.first.index < chunk.after.index
        && chunk.after.vs == 0
}

/// Whether the chunks are lines one after another, of which the last has no ending. It looks at their points alone.
pub fn are_lines(chunks: &[Chunk]) -> bool
    requires { 0 < length chunks.now }
    ensures { result ≡ are_lines chunks.now }
{
    let mut at = 0;
    while at + 1 < chunks.len() {
        if !is_followed(&chunks[at], &chunks[at + 1]) {
            return false;
        }
        at += 1;
    }
    is_within_line(&chunks[at])
}

/// Whether a label may end before a colon, by the text after its `[`: `true` where that is not known.
///
/// A label ends at the first bracket that no backslash escapes. This looks no further than to a backslash, or to the
/// end of the line.
fn may_close(text: &[u8]) -> bool
    ensures { result ≡ may_close text.now }
{
    let mut at = 0;
    while at < text.len() {
        match text[at] {
            b'\n' | b'\r' | b'\\' => return true,
            b'[' => return false,
            b']' => return at + 1 == text.len() || text[at + 1] == b':',
            _ => at += 1,
        }
    }
    true
}

/// Whether a definition may begin with a line: `true` where that is not known.
///
/// A definition begins with `[`, with whitespace before it at most, and a colon follows its label.
fn may_define_in(line: &[u8]) -> bool
    ensures { result ≡ may_define_in line.now }
{
    match line {
        [] | [b' ' | b'\t', ..] => true,
        [b'[', text @ ..] => may_close(text),
        _ => false,
    }
}

/// Whether a definition may begin with a chunk: `true` where that is not known.
pub fn may_define_at(bytes: &[u8], chunk: &Chunk) -> bool
    requires { IsChunk bytes.now chunk.now }
    ensures { result ≡ false →
        may_define_in (slice_range bytes.now chunk.now.first.index chunk.now.after.index) ≡ false }
{
    let Chunk { first, after } = *chunk;
    first.index >= after.index || may_define_in(&bytes[first.index..after.index])
}

/// Whether these chunks are the lines of one paragraph: `false` where that is not known.
///
/// Definitions come before the paragraph of a part. Where none begins with the first line, the paragraph does, and it
/// reaches to the end of the part.
fn is_paragraph(bytes: &[u8], chunks: &[Chunk]) -> bool
    requires { AreChunks bytes.now chunks.now }
    ensures { result ≡ true → (options : ParseOptions) →
        content_events bytes.now options chunks.now ≡ paragraph_of chunks.now }
{
    !may_define_at(bytes, &chunks[0]) && are_lines(chunks)
}

/// Replaces the events by those of one paragraph over these chunks.
fn write_paragraph(chunks: &[Chunk], events: &mut Vec<Event>) -> Result<(), Message>
    requires { 0 < length chunks.now }
    ensures { OnOk result (events.new.items ≡ paragraph_of chunks.now) }
{
    events.clear();
    let many = chunks.len().saturating_mul(2).saturating_add(2);
    if events.reserve(many).is_err() {
        return Err(Message);
    }
    let link = Link {
        previous: false,
        next: false,
        content: Content::Text,
    };
    events.push_reserved(Event {
        kind: Kind::Enter,
        name: Name::Paragraph,
        link: None,
        point: chunks[0].first,
    });
    for chunk in chunks {
        events.push_reserved(Event {
            kind: Kind::Enter,
            name: Name::Data,
            link: Some(link),
            point: chunk.first,
        });
        events.push_reserved(Event {
            kind: Kind::Exit,
            name: Name::Data,
            link: None,
            point: chunk.after,
        });
    }
    events.push_reserved(Event {
        kind: Kind::Exit,
        name: Name::Paragraph,
        link: None,
        point: chunks[chunks.len() - 1].after,
    });
    Ok(())
}

/// Whether a piece of what is read of content ends here, with which a line may end.
fn ends_piece(event: &Event) -> bool
    ensures { result ≡ is_piece_end event.now }
{
    matches!(event.kind, Kind::Exit) && matches!(event.name, Name::Data | Name::LineEnding)
}

/// Has each line of what was read end where its chunk ends.
///
/// The tokenizer goes from the ending of a line at once to the begin of the next chunk, which may lie after prefixes of
/// containers. These belong to no line, so the piece that ends with a line ends before them: text, or the ending alone,
/// as it is between the parts of a definition.
///
/// ```markdown
/// > | > a
/// > | > b
///     ^ here the first line has ended
///       ^ here the second begins
/// ```
fn settle(events: &mut [Event], chunks: &[Chunk])
    ensures settled { events.new ≡ settled chunks.now events.old }
    ensures placed { (bytes : List ℕ) → AreChunks bytes chunks.now → ArePlaced bytes events.old →
        ArePlaced bytes events.new }
{
    let mut line = 0;
    for event in events.iter_mut() {
        if line >= chunks.len() || !ends_piece(event) {
            continue;
        }
        let after = chunks[line].after;
        if after.index <= event.point.index {
            event.point = after;
            line += 1;
        }
    }
}

/// Whether no part is left unread.
fn is_done(events: &[Event]) -> bool
    ensures { result ≡ is_all_read events.now }
{
    events.iter().all(|event| event.link.is_none())
}

/// Whether an event has no link and begins no label.
struct HasNeither;

impl Test for HasNeither {
    ghost passes = { λ test. has_neither };

    fn passes(&self, event: &Event) -> bool {
        event.link.is_none() && !begins_label(event)
    }
}

/// How many of the events come before the first that has a link or begins a label.
fn until_either(events: &[Event]) -> usize
    ensures value { result ≡ prefix_len has_neither events.now }
    ensures within { result ≤ length events.now }
{
    passing(&HasNeither, events)
}

/// What is found in the events of content: the labels of its definitions, and whether no part is left unread. Events
/// before the first that has a link or begins a label are looked at once for both.
fn found_among(alloc: Global, bytes: &[u8], events: &[Event]) -> Result<Subresult, Message>
    ensures { IfOk result (λ found. found_in found ≡ found_in_content bytes.now events.now) }
{
    let left = &events[until_either(events)..];
    Ok(Subresult {
        done: is_done(left),
        gfm_footnote_definitions: Vec::new(alloc),
        definitions: labels(alloc, bytes, left)?,
    })
}

/// Joins the lines of content that follow one another, and reads them. It finds the labels of definitions. Events that
/// nest still do, if what is read of lines that follow one another nests by itself.
///
/// After an `Err` the parse has failed, and the tokenizer is only dropped.
pub fn resolve(tokenizer: &mut Tokenizer) -> Result<Option<Subresult>, Message>
    requires { (world tokenizer.old).frames ≡ [] }
    ensures resolves { IfOk result
        (λ found. Resolves (world tokenizer.old) (option_map found_in found) (world tokenizer.new)) }
    ensures nested { OnOk result
        (ContentNests (world tokenizer.old).setting.bytes (world tokenizer.old).setting.options
        (world tokenizer.old).events →
        Nested (world tokenizer.old).events →
        Nested (world tokenizer.new).events) }
{
    let alloc = tokenizer.alloc;
    let reader = ContentReader {
        bytes: tokenizer.bytes,
        options: tokenizer.options,
    };
    let events = tokenizer.take_events();
    let begin = paragraph::begin(tokenizer)?;
    let read = read_lines(alloc, &reader, begin, events)?;
    let found = found_among(alloc, tokenizer.bytes, &read)?;
    tokenizer.set_events(read);
    Ok(Some(found))
}
