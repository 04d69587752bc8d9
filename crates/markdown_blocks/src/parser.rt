// From a text to events.

ghost use Rattle.std.specs.Prelude.{◌≡◌, ◌≤◌, IfOk, List, OnOk, [], false, length, map, string_bytes};
ghost use Rattle.std.specs.List.{prefix_len};
ghost use Rattle.md_engine.specs.declared.event.Event.{Event};
ghost use Rattle.md_engine.specs.Found.{found_in, nothing};
ghost use Rattle.md_engine.specs.World.{world};
ghost use Rattle.md_content.specs.Joined.{is_content};
ghost use Rattle.md_registry.specs.Document.{ReadsFront};
ghost use Rattle.md_registry.specs.Resolving.{lines_joined};
ghost use Rattle.md_leaves.specs.Spanned.{passes_on};
ghost use Rattle.md_leaves.specs.Turned.{HoldNoUnderline};
ghost use Rattle.markdown_blocks.specs.Alone.{may_change, passes_alone, stays_by_name};
ghost use Rattle.markdown_blocks.specs.ContentRead.{AreSideBySide, ReadIf, holds_content};
ghost use Rattle.markdown_blocks.specs.FlowReads.{IsFlowRead};
ghost use Rattle.markdown_blocks.specs.FrontRead.{exact_front};
ghost use Rattle.markdown_blocks.specs.Taken.{AreTaken};
ghost use Rattle.markdown_blocks.specs.TextsRead.{AreTextsRead, BeginsPart};
ghost use Rattle.md_events.specs.Events.Inline.{together};
ghost use Rattle.md_order.specs.Alone.{MayPass};
ghost use Rattle.md_order.specs.InOrder.{every, in_order};
ghost use Rattle.proof_container_laws.specs.Footnotes.{footnotes_listed};
ghost use Rattle.markdown_blocks.specs.Parsed.{IsParsed, IsRead, IsWithoutMdx};
ghost use Rattle.md_meaning.specs.Wrapped.{IsSmall};

use crate::blocks::read_blocks;
pub use crate::parts::{LEAST, Part, Parts};
pub use crate::place::place_of;
use crate::plain::Plain;
pub use crate::sink::{Ahead, Sink};
use crate::text_parts::{hand_over, read_text_parts};
use md_content::footnote_labels::footnote_labels;
use md_engine::configuration::ParseOptions;
use md_engine::event::{Event, Name, Point};
use md_engine::message::Message;
pub use md_engine::parse_state::ParseState;
use md_engine::resolve::Name as ResolveName;
use md_engine::state::document::State as DocumentState;
use md_engine::state::{Name as StateName, State};
use md_engine::subtokenize::Subresult;
use md_engine::table::{flush, push};
use md_engine::tokenizer::Tokenizer;
use md_events::inline::Inline;
use md_events::walks::{Test, passing};
use md_flow::document::DocumentTable;
use md_flow::resolve;
use md_leaves::spans;
use md_leaves::spans::Place;
use md_registry::choices;
use md_resolve::pass::pass_all;
use std::alloc::Global;

/// The most bytes that a text may have: an eighth of what an index can be, so that nothing that is counted of a text
/// wraps.
pub const MAX_LEN: usize = usize::MAX / 8;

/// Where a text begins.
const FIRST_POINT: Point = Point {
    line: 1,
    column: 1,
    index: 0,
    vs: 0,
};

/// Takes the byte order mark and the frontmatter at the front of a text, if they are there.
///
/// An `Err` says that memory ran out.
pub(crate) fn read_front<'a>(
    alloc: Global,
    bytes: &'a [u8],
    options: &'a ParseOptions,
) -> Result<Tokenizer<'a>, Message>
    requires { IsSmall bytes.now }
    ensures reads { IfOk result (λ tokenizer. ReadsFront bytes.now options.now (world tokenizer)) }
    ensures front { IfOk result (λ tokenizer. (world tokenizer).events ≡ exact_front options.now bytes.now) }
{
    let mut tokenizer = Tokenizer::new(alloc, FIRST_POINT, bytes, options);
    let start = State::Next(StateName::Document(DocumentState::Start));
    let end = match push::<DocumentTable>(&mut tokenizer, bytes.len(), start) {
        State::Error => return Err(Message),
        end => end,
    };
    flush::<DocumentTable>(&mut tokenizer, end, false)?;
    Ok(tokenizer)
}

/// Joins the lines of each leaf of several, where one may be on. It is known of the first `many` events that they pass
/// as they are. Returns whether there may be an underline of a heading among the events.
///
/// An `Err` says that memory ran out.
fn join_lines(
    tokenizer: &mut Tokenizer,
    options: &ParseOptions,
    many: usize,
) -> Result<bool, Message>
    requires frames { (world tokenizer.old).frames ≡ [] }
    requires many { many ≤ prefix_len (passes_on Place.Outside) (world tokenizer.old).events }
    ensures world { OnOk result
        (world tokenizer.new ≡
        record (world tokenizer.old) { events = lines_joined options.now (world tokenizer.old).events }) }
    ensures underlines { IfOk result
        (λ underlines.
        underlines ≡ false → HoldNoUnderline (lines_joined options.now (world tokenizer.old).events)) }
{
    if choices::joins_lines(options) {
        let underlines = spans::join_all(tokenizer, many)?;
        return Ok(underlines);
    }
    Ok(true)
}

/// Whether an event is of a line of text.
#[inline(always)]
fn is_content(event: &Event) -> bool
    ensures { result ≡ is_content event.now.name }
{
    matches!(event.name, Name::Content)
}

/// Whether an event is of no line of text, and passes as it is where lines are joined.
#[inline(always)]
fn passes_alone(event: &Event) -> bool
    ensures { result ≡ passes_alone event.now }
{
    !is_content(event) && spans::passes_on(Place::Outside, event)
}

/// That as a test.
struct PassesAlone;

impl Test for PassesAlone {
    ghost passes = { λ test. passes_alone };

    #[inline(always)]
    fn passes(&self, event: &Event) -> bool {
        passes_alone(event)
    }
}

/// How many events are before the first that is of a line of text or may not pass as it is where lines are joined. It
/// is known of the first `known` that they are.
fn until_read(events: &[Event], known: usize) -> usize
    requires known { known ≤ prefix_len passes_alone events.now }
    requires within { known ≤ length events.now }
    ensures { result ≡ prefix_len passes_alone events.now }
{
    known + passing(&PassesAlone, &events[known..])
}

/// Whether events of this name are of a line of text, or may change where lines are joined or the resolvers run.
///
/// Names that are no neighbours are asked for apart: so this is a test of a bit, where one match is a jump by a table.
#[inline(always)]
fn may_change(name: Name) -> bool
    ensures { result ≡ may_change name }
{
    matches!(name, Name::ListItem)
        || matches!(name, Name::HeadingAtx)
        || matches!(name, Name::HeadingSetextUnderline)
        || matches!(name, Name::CodeIndented | Name::CodeFenced)
        || matches!(name, Name::CodeFlowChunk | Name::MathFlow)
        || matches!(name, Name::HtmlFlow)
        || matches!(name, Name::GfmTable)
        || matches!(name, Name::Content)
}

/// Whether the name of an event shows that it stays as it is where content is read, lines are joined and the resolvers
/// run.
struct StaysByName;

impl Test for StaysByName {
    ghost passes = { λ test. stays_by_name };

    #[inline(always)]
    fn passes(&self, event: &Event) -> bool {
        !may_change(event.name)
    }
}

/// How many events are before the first whose name does not show that it stays as it is.
pub(crate) fn until_changed(events: &[Event]) -> usize
    ensures value { result ≡ prefix_len stays_by_name events.now }
    ensures within { result ≤ length events.now }
{
    passing(&StaysByName, events)
}

/// Whether a line of text is among a few events.
fn few_hold_content(events: &[Event]) -> bool
    requires { AreSideBySide events.now }
    ensures { result ≡ holds_content events.now }
{
    let mut left = events;
    while let [event, _, rest @ ..] = left {
        if is_content(event) {
            return true;
        }
        left = rest;
    }
    matches!(left, [event] if is_content(event))
}

/// Whether a line of text is among events. Where there is none this goes over all events of a text. The begin and the
/// end of a line of text lie side by side, so it asks every other event, and eight of these before the next round.
fn holds_content(events: &[Event]) -> bool
    requires { AreSideBySide events.now }
    ensures { result ≡ holds_content events.now }
{
    let mut left = events;
    while let [a, _, b, _, c, _, d, _, e, _, f, _, g, _, h, _, rest @ ..] = left {
        if is_content(a)
            || is_content(b)
            || is_content(c)
            || is_content(d)
            || is_content(e)
            || is_content(f)
            || is_content(g)
            || is_content(h)
        {
            return true;
        }
        left = rest;
    }
    few_hold_content(left)
}

/// Whether a line of text is among events, where it is known how many are before the first that is of one or may not
/// pass as it is where lines are joined.
fn is_unread(events: &[Event], many: usize) -> bool
    requires many { many ≡ prefix_len passes_alone events.now }
    requires side { AreSideBySide events.now }
    ensures { result ≡ holds_content events.now }
{
    many < events.len() && holds_content(&events[many..])
}

/// What is found where nothing is read.
pub(crate) fn nothing(alloc: Global) -> Subresult
    ensures { found_in result ≡ nothing }
{
    Subresult {
        done: false,
        gfm_footnote_definitions: Vec::new(alloc),
        definitions: Vec::new(alloc),
    }
}

/// Reads the content of the lines that flow has read, where there is some. Returns what it finds there, and of how many
/// events in front it is known that they pass as they are where lines are joined. It is known of the first `known` that
/// they do, and that none is of a line of text.
///
/// An `Err` says that memory ran out.
fn read_content(tokenizer: &mut Tokenizer, known: usize) -> Result<(Subresult, usize), Message>
    requires frames { (world tokenizer.old).frames ≡ [] }
    requires known { known ≤ prefix_len passes_alone (world tokenizer.old).events }
    requires side { AreSideBySide (world tokenizer.old).events }
    ensures content { IfOk result
        (λ read.
        ReadIf (holds_content (world tokenizer.old).events) (world tokenizer.old) (found_in read.0)
        (world tokenizer.new)) }
    ensures many { IfOk result
        (λ read. read.1 ≤ prefix_len (passes_on Place.Outside) (world tokenizer.new).events) }
{
    let many = until_read(&tokenizer.events, known);
    if !is_unread(&tokenizer.events, many) {
        return Ok((nothing(tokenizer.alloc), many));
    }
    match resolve::call(tokenizer, ResolveName::Content)? {
        Some(found) => Ok((found, 0)),
        None => Ok((nothing(tokenizer.alloc), 0)),
    }
}

/// Reads the content of the lines that flow has read of a text from a point to its end, as `read_content`. A text becomes
/// the definitions and the paragraph that the exact list has for its lines, a line is read again as a head just where it
/// is one there, and all other lines stay (`texts`).
///
/// An `Err` says that memory ran out.
pub(crate) fn read_texts(
    tokenizer: &mut Tokenizer,
    _start: Point,
    known: usize,
) -> Result<(Subresult, usize), Message>
    requires frames { (world tokenizer.old).frames ≡ [] }
    requires known { known ≤ prefix_len passes_alone (world tokenizer.old).events }
    requires side { AreSideBySide (world tokenizer.old).events }
    requires built { IsWithoutMdx (world tokenizer.old).setting.options }
    requires small { IsSmall (world tokenizer.old).setting.bytes }
    requires begins { BeginsPart (world tokenizer.old).setting.bytes _start }
    requires lines { IsFlowRead _start (world tokenizer.old) }
    ensures content { IfOk result
        (λ read.
        ReadIf (holds_content (world tokenizer.old).events) (world tokenizer.old) (found_in read.0)
        (world tokenizer.new)) }
    ensures many { IfOk result
        (λ read. read.1 ≤ prefix_len (passes_on Place.Outside) (world tokenizer.new).events) }
    ensures texts { IfOk result
        (λ read.
        AreTextsRead (world tokenizer.old).setting.options (world tokenizer.old).setting.bytes _start
        (world tokenizer.old).events (world tokenizer.new).events) }
{
    let read = read_content(tokenizer, known)?;
    Ok(read)
}

/// Joins the lines of each leaf of several, and runs the resolvers of items, headings and tables. Where there is
/// none of these, one test of each event shows that nothing changes. It is known of the first `many` events that they
/// pass as they are where lines are joined.
///
/// An `Err` says that memory ran out.
pub(crate) fn resolve_blocks(
    tokenizer: &mut Tokenizer,
    options: &ParseOptions,
    many: usize,
) -> Result<(), Message>
    requires frames { (world tokenizer.old).frames ≡ [] }
    requires many { many ≤ prefix_len (passes_on Place.Outside) (world tokenizer.old).events }
    requires may { MayPass every (lines_joined options.now (world tokenizer.old).events) }
    ensures { OnOk result
        (world tokenizer.new ≡
        record (world tokenizer.old) {
          events = in_order every (world tokenizer.old).setting.bytes
              (lines_joined options.now (world tokenizer.old).events);
        }) }
{
    let same = until_changed(&tokenizer.events);
    if same == tokenizer.events.len() {
        return Ok(());
    }
    let underlines = join_lines(tokenizer, options, same.max(many))?;
    pass_all(tokenizer, underlines)?;
    Ok(())
}

/// The labels of the footnote definitions among the events of a text, where these are on.
///
/// An `Err` says that memory ran out.
pub(crate) fn footnotes_of(
    alloc: Global,
    bytes: &[u8],
    options: &ParseOptions,
    events: &[Event],
) -> Result<Vec<String>, Message>
    ensures { IfOk result
        (λ found. map string_bytes found.items ≡ footnotes_listed options.now bytes.now events.now) }
{
    if options.constructs.gfm_footnote_definition {
        return footnote_labels(alloc, bytes, events);
    }
    Ok(Vec::new(alloc))
}

/// Reads a text, its text parts by an inline layer: its events, and what else is known of it.
///
/// The labels of the whole text are known before the layer reads a part. The text has at most `MAX_LEN` bytes, and the
/// constructs of MDX are off. A byte order mark before the text is taken as such. An `Err` says that memory ran out;
/// then nothing is handed out.
pub fn parse_with<'a, I: Inline>(
    alloc: Global,
    inline: &I,
    value: &'a str,
    options: &'a ParseOptions,
) -> Result<(Vec<Event>, ParseState<'a>), Message>
    requires size { IsSmall value.now }
    requires built { IsWithoutMdx options.now }
    ensures { IfOk result
        (λ parsed. IsRead (I.reads inline.now) value.now options.now parsed.0.items parsed.1) }
{
    let bytes = value.as_bytes();
    let (blocks, _marks) = read_blocks(alloc, bytes, options, LEAST, false)?;
    let state = ParseState {
        options,
        bytes,
        definitions: blocks.definitions,
        gfm_footnote_definitions: blocks.gfm_footnote_definitions,
    };
    let events = read_text_parts(alloc, inline, &state, blocks.events)?;
    Ok((events, state))
}

/// Reads a text as `parse_with` does, and hands its events over, some at a time. So they are never in one list, and what
/// the layer finds is taken while it lies in a cache.
///
/// What is handed over, one after the other, are the events that `parse_with` may return. The blocks are read in parts of
/// so many bytes at least, which end where those of `Parts` do: `LEAST` is a good number.
///
/// What is asked of the text and of the options is as for `parse_with`. An `Err` says that memory ran out, or is that of
/// the sink; some events may have been handed over before it.
pub fn parse_into<'a, I: Inline, S: Sink>(
    alloc: Global,
    inline: &I,
    value: &'a str,
    options: &'a ParseOptions,
    least: usize,
    sink: &mut S,
) -> Result<ParseState<'a>, Message>
    requires size { IsSmall value.now }
    requires built { IsWithoutMdx options.now }
    ensures { IfOk result
        (λ state.
        (parts : List (List Event)) × AreTaken S.takes sink.old parts sink.new
        × IsRead (I.reads inline.now) value.now options.now (together parts) state) }
{
    let bytes = value.as_bytes();
    let wants = sink.wants_definitions();
    let (blocks, marks) = read_blocks(alloc, bytes, options, least, wants)?;
    let Part {
        events,
        definitions,
        gfm_footnote_definitions,
    } = blocks;
    let state = ParseState {
        options,
        bytes,
        definitions,
        gfm_footnote_definitions,
    };
    let marks = if wants { Some(marks.as_slice()) } else { None };
    hand_over(alloc, inline, &state, &events, marks, sink)?;
    Ok(state)
}

/// Reads a text, its text parts by the plain layer, which finds nothing in them: its events, and what else is known of
/// it.
///
/// What is asked of the text and of the options, and what an `Err` says, is as for `parse_with`.
pub fn parse<'a>(
    alloc: Global,
    value: &'a str,
    options: &'a ParseOptions,
) -> Result<(Vec<Event>, ParseState<'a>), Message>
    requires size { IsSmall value.now }
    requires built { IsWithoutMdx options.now }
    ensures { IfOk result (λ parsed. IsParsed value.now options.now parsed.0.items parsed.1) }
{
    parse_with(alloc, &Plain, value, options)
}
