// A text that is read part by part, so that memory follows its largest part and not the text.
//
// A part is whole blocks. It ends where the text does; or before an empty line where a paragraph is open and no
// container is, since that line ends the paragraph, as the end of a text does; or after a line that is not blank where
// nothing is open, as after a heading. Nothing after such a place changes what is before it: so each part is read as a
// text that ends there, and the events of the parts, one after the other, are those of the text, and so are the labels.
// An item is never last in a part that is followed by another, since the next item might be one of its list: a line
// that is not blank closes the item or is in it.
//
// Where a part ends is tried at an empty line after a line that looks like the last of a paragraph, and a little later
// also after one that looks like the last of another block. Where it does not end there it is read again, up to such a
// line that is four times as far, or to the end of the text. A text that has no such line is one part.

ghost use Rattle.std.specs.Prelude.{◌≡◌, ◌≤◌, ◌<◌, ◌+◌, ◌++◌, IfErr, IfNone, IfOk, IfSome, List, Some, None, []};
ghost use Rattle.std.specs.Prelude.{length, true, false};
ghost use Rattle.std.specs.Option.{ForSome};
ghost use Rattle.md_engine.specs.declared.event.Event.{Event};
ghost use Rattle.md_engine.specs.declared.parse_state.ParseState.{ParseState};
ghost use Rattle.md_engine.specs.Found.{found_in};
ghost use Rattle.md_engine.specs.Place.{IsPlaced, is_ending};
ghost use Rattle.md_engine.specs.Run.{IsStopped, Runs, plain};
ghost use Rattle.md_engine.specs.Scheme.{valid};
ghost use Rattle.md_engine.specs.World.{fresh, world};
ghost use Rattle.md_events.specs.Events.Inline.{plain_chunks, together};
ghost use Rattle.md_events.specs.Events.Places.{first_point, same_place};
ghost use Rattle.md_events.specs.Events.Spelled.{spelled};
ghost use Rattle.md_events.specs.Events.Tiles.{end_point};
ghost use Rattle.md_events.specs.Lined.{AreLines, lined};
ghost use Rattle.md_events.specs.TextPart.{wants_text};
ghost use Rattle.md_events.specs.Exact.Blocks.{exact};
ghost use Rattle.md_meaning.specs.Label.{both, labels, no_labels};
ghost use Rattle.md_meaning.specs.Meaning.{tree};
ghost use Rattle.md_outline.specs.Outlined.{IsOutlined};
ghost use Rattle.md_registry.specs.States.{FlowStep, flow_table_scheme};
ghost use Rattle.markdown_blocks.specs.Fed.{flow_begins, line_begins};
ghost use Rattle.markdown_blocks.specs.FlowReads.{FlowReads};
ghost use Rattle.markdown_blocks.specs.Parsed.{IsParsed, IsSmall, IsWithoutMdx};
ghost use Rattle.markdown_blocks.specs.PartRead.{AreAhead, AreLaid, HasUnread, HasPart, IsPartRead, MayEnd, MayRead};
ghost use Rattle.markdown_blocks.specs.PartRead.{WaitsInText, WaitsOutside, before_next, is_filled_end};
ghost use Rattle.markdown_blocks.specs.PartRead.{is_line_begin, labels_of, point_in};
ghost use Rattle.markdown_blocks.specs.TextsRead.{BeginsPart};

use crate::parser::{footnotes_of, nothing, read_front, read_texts, resolve_blocks, until_changed};
use md_at_once::table::FlowTable;
use md_engine::class::above_cr_len;
use md_engine::configuration::ParseOptions;
use md_engine::event::{Content, Event, Point};
use md_engine::message::Message;
use md_engine::parse_state::ParseState;
use md_engine::state::document::State as DocumentState;
use md_engine::state::{Name as StateName, State};
use md_engine::subtokenize::Subresult;
use md_engine::table::{flush, push};
use md_engine::tokenizer::{HeldLeaf, Tokenizer};
use md_events::inline::Chunk;
use md_events::plain;
use md_events::subtokenize::{Reader, subtokenize};
use md_scan::ahead::begins_with;
use md_scan::bytes::is_white;
use std::alloc::Global;
use std::mem;

/// How many bytes a part has at least, if the text has as many and nothing else is asked for.
pub const LEAST: usize = 64 * 1024;

/// For so many bytes more a part is tried to end after a paragraph alone: few other lines show by themselves that they
/// are the last of a block.
const FAR: usize = 4096;

/// Some whole blocks of a text, or its front: its byte order mark and its frontmatter.
#[derive(Drop)]
pub struct Part {
    /// Their events, at their points of the text. Text parts are read by the plain layer, as by `parse`.
    pub events: Vec<Event>,
    /// The labels of the definitions among them, in their normal forms and in the order of the text, repeats kept.
    pub definitions: Vec<String>,
    /// Those of the footnote definitions.
    pub gfm_footnote_definitions: Vec<String>,
}

/// A text that is read part by part. It keeps nothing of the parts that were handed out.
#[derive(Drop)]
pub struct Parts<'a> {
    alloc: Global,
    bytes: &'a [u8],
    options: &'a ParseOptions,
    /// How many bytes a part has at least, if the text has as many.
    least: usize,
    /// Whether a part was handed out.
    begun: bool,
    /// Where the next part begins then, if there is one.
    start: Option<Point>,
    /// A list for the events of the next part.
    spare: Vec<Event>,
    ghost small: { IsSmall bytes.now },
    ghost built: { IsWithoutMdx options.now },
    ghost may: { ForSome start (λ p. MayRead options.now bytes.now p) },
}

/// Reads lines: each chunk of a text part is one. It asks for no labels.
#[derive(Drop)]
struct LineReader<'a, 'b> {
    state: &'b ParseState<'a>,
}

impl Reader for LineReader<'_, '_> {
    ghost text = { λ reader. reader.state.now.bytes.now };

    ghost wants = { λ reader. wants_text };

    ghost may_read = { λ reader content chunks. AreLines reader.state.now.bytes.now chunks };

    ghost reads_as = { λ reader content chunks events.
        events ≡ together (plain_chunks reader.state.now.bytes.now chunks) };

    fn reads(&self, content: Content) -> bool {
        matches!(content, Content::Text | Content::String)
    }

    fn read(
        &self,
        alloc: Global,
        _content: Content,
        chunks: &[Chunk],
        events: &mut Vec<Event>,
    ) -> Result<(), Message> {
        plain::read_into(alloc, chunks, self.state, events)
    }

    fn plain_text(&self) -> Option<&[u8]> {
        Some(self.state.bytes)
    }
}

/// Whether a byte is of a line ending.
fn is_ending(byte: u8) -> bool
    ensures { result ≡ is_ending byte }
{
    byte == b'\n' || byte == b'\r'
}

/// Whether a line begins here, after another line.
fn is_line_begin(text: &[u8], at: usize) -> bool
    requires after { 0 < at }
    requires within { at < length text.now }
    ensures { result ≡ is_line_begin text.now at }
{
    let before = text[at - 1];
    is_ending(before) && !(before == b'\r' && text[at] == b'\n')
}

/// Whether the byte before an ending of one byte, after which this is, is no space, no tab and of no line ending.
fn is_filled_end(text: &[u8], at: usize) -> bool
    requires after { 2 ≤ at }
    requires within { at < length text.now }
    ensures { result ≡ is_filled_end text.now at }
{
    let before = text[at - 2];
    !(is_ending(before) || is_white(before))
}

/// Where the ending begins of the line that has the byte at `from`; or the end of the text.
fn line_end(text: &[u8], from: usize) -> usize
    requires { from ≤ length text.now }
    ensures after { from ≤ result }
    ensures within { result ≤ length text.now }
{
    let mut at = from;
    while at < text.len() && !is_ending(text[at]) {
        at += 1;
        at += above_cr_len(&text[at..]);
    }
    at
}

/// Where the line begins that has the byte at `at`, but not before `from`.
fn line_begin(text: &[u8], from: usize, at: usize) -> usize
    requires after { from ≤ at }
    requires within { at < length text.now }
    ensures first { from ≤ result }
    ensures last { result ≤ at }
{
    let mut begin = at;
    while begin > from && !is_ending(text[begin - 1]) {
        begin -= 1;
    }
    begin
}

/// Where the next line begins, or the text ends, after an ending that begins here.
fn next_line(text: &[u8], end: usize) -> usize
    requires { end < length text.now }
    ensures after { end < result }
    ensures within { result ≤ length text.now }
{
    if text[end] == b'\r' && end + 1 < text.len() && text[end + 1] == b'\n' {
        return end + 2;
    }
    end + 1
}

/// Whether a line looks like the last of a paragraph, or like a definition: it begins as few other blocks do, and does not
/// end as lines of code do. What it is, flow says.
fn may_end_text(line: &[u8]) -> bool
    ensures { result ≡ true → 0 < length line.now }
{
    let [first, others @ ..] = line else {
        return false;
    };
    if *first == b'[' {
        return !begins_with(b'^', others);
    }
    let last = line[line.len() - 1];
    (first.is_ascii_alphabetic() || *first >= 0x80)
        && (last.is_ascii_alphanumeric()
            || last >= 0x80
            || matches!(last, b'.' | b':' | b'!' | b'?'))
}

/// Whether a line looks like the last of a leaf block that is no text: a heading, or the end of fenced code or of a
/// comment. What it is, flow says.
fn may_end_leaf(line: &[u8]) -> bool {
    matches!(
        line,
        [b'#', ..] | [b'`', b'`', b'`'] | [b'~', b'~', b'~'] | [.., b'-', b'-', b'>']
    )
}

/// The first byte from `from` on that is of no line ending, or the end of the text.
fn after_endings(text: &[u8], from: usize) -> usize
    requires { from ≤ length text.now }
    ensures after { from ≤ result }
    ensures within { result ≤ length text.now }
{
    let mut at = from;
    while at < text.len() && is_ending(text[at]) {
        at += 1;
    }
    at
}

/// The first place, at least so many bytes after `from`, where an empty line begins after a line that may end a
/// paragraph, or, further on, a line after one that may end another leaf block; or the end of the text.
fn part_end(text: &[u8], from: usize, least: usize) -> usize
    requires inside { from < length text.now }
    requires some { 0 < least }
    ensures after { from < result }
    ensures within { result ≤ length text.now }
    ensures begins { result < length text.now → is_line_begin text.now result ≡ true }
{
    let last = from.saturating_add(least - 1).min(text.len() - 1);
    if line_end(text, last) == text.len() {
        return text.len();
    }
    let far = last.saturating_add(FAR);
    let mut begin = line_begin(text, from, last);
    while begin < text.len() {
        let end = line_end(text, begin);
        if end == text.len() {
            return end;
        }
        let to = next_line(text, end);
        if to < text.len() {
            let line = &text[begin..end];
            let ends_text = is_ending(text[to]) && may_end_text(line);
            let ends = ends_text
                || begin >= far && may_end_leaf(line) && is_after_line(text, begin, to);
            if ends && is_line_begin(text, to) {
                return to;
            }
        }
        begin = after_endings(text, to);
    }
    text.len()
}

/// Whether flow waits for a line, in no container, where a text is open.
fn waits_in_text(tokenizer: &Tokenizer, state: State) -> bool
    ensures { result ≡ true → WaitsInText state (world tokenizer.now) }
{
    let State::Next(StateName::Document(DocumentState::ContainerExistingBefore)) = state else {
        return false;
    };
    let in_text = matches!(tokenizer.flags.leaf, HeldLeaf::Text(_));
    in_text && tokenizer.frames.is_empty() && tokenizer.containers.is_empty()
}

/// Whether flow waits for a line where nothing is open.
fn waits_outside(tokenizer: &Tokenizer, state: State) -> bool
    ensures { result ≡ true → WaitsOutside state (world tokenizer.now) }
{
    let State::Next(StateName::Document(DocumentState::ContainerExistingBefore)) = state else {
        return false;
    };
    let is_closed = matches!(tokenizer.flags.leaf, HeldLeaf::None);
    is_closed && tokenizer.frames.is_empty() && tokenizer.containers.is_empty()
}

/// Whether a line that is not blank ends before this place, with an ending of one byte, and the byte before that ending
/// is in what begins at `from`.
fn is_after_line(text: &[u8], from: usize, to: usize) -> bool
    requires within { to < length text.now }
    ensures more { result ≡ true → from + 2 ≤ to }
    ensures filled { result ≡ true → is_filled_end text.now to ≡ true }
{
    if to < 2 || to - 2 < from {
        return false;
    }
    is_filled_end(text, to)
}

/// Whether a part may end where flow waits, which has read it from its begin to this place: before an empty line in a
/// text, or after a line that is not blank where nothing is open.
fn may_end(text: &[u8], start: Point, to: usize, tokenizer: &Tokenizer, state: State) -> bool
    requires within { to < length text.now }
    ensures { result ≡ true → MayEnd text.now start to state (world tokenizer.now) }
{
    if waits_in_text(tokenizer, state) {
        return is_ending(text[to]);
    }
    if !is_after_line(text, start.index, to) {
        return false;
    }
    waits_outside(tokenizer, state)
}

/// A tokenizer at a point, whose list of events is one that is lent.
fn part_tokenizer<'a>(
    alloc: Global,
    bytes: &'a [u8],
    options: &'a ParseOptions,
    start: Point,
    lent: &mut Vec<Event>,
) -> Tokenizer<'a>
    requires { IsPlaced bytes.now start }
    ensures { world result ≡ fresh bytes.now options.now start }
{
    let mut events = mem::replace(lent, Vec::new(alloc));
    events.clear();
    let mut tokenizer = Tokenizer::new(alloc, start, bytes, options);
    tokenizer.set_events(events);
    tokenizer
}

/// Feeds the lines of a text from a point on to flow, which adds events to a list that is lent. Returns the tokenizer,
/// and the state that waits for more.
///
/// An `Err` says that memory ran out.
fn push_lines<'a>(
    alloc: Global,
    bytes: &'a [u8],
    options: &'a ParseOptions,
    start: Point,
    lent: &mut Vec<Event>,
) -> Result<(Tokenizer<'a>, State), Message>
    requires { IsPlaced bytes.now start }
    ensures runs { IfOk result
        (λ pushed.
        Runs FlowStep false line_begins (flow_begins bytes.now options.now start) pushed.1 (world pushed.0)) }
    ensures stops { IfOk result (λ pushed. IsStopped false pushed.1 (world pushed.0)) }
    ensures valid { IfOk result (λ pushed. valid flow_table_scheme (world pushed.0) (plain pushed.1)) }
    ensures setting { IfOk result
        (λ pushed. (world pushed.0).setting ≡ (flow_begins bytes.now options.now start).setting) }
{
    let mut tokenizer = part_tokenizer(alloc, bytes, options, start, lent);
    let begin = State::Next(StateName::Document(DocumentState::ContainerExistingBefore));
    let end = match push::<FlowTable>(&mut tokenizer, bytes.len(), begin) {
        State::Error => return Err(Message),
        end => end,
    };
    Ok((tokenizer, end))
}

/// Ends a text after the lines that flow was fed, reads their content, joins the lines of each leaf of several, and
/// runs the resolvers of items, headings and tables. One test of each event may show that none of this changes anything.
///
/// An `Err` says that memory ran out.
fn set_lines<'a>(
    bytes: &'a [u8],
    options: &'a ParseOptions,
    start: Point,
    pushed: Tokenizer<'a>,
    state: State,
) -> Result<(Tokenizer<'a>, Subresult), Message>
    requires small { IsSmall bytes.now }
    requires built { IsWithoutMdx options.now }
    requires begins { BeginsPart bytes.now start }
    requires runs { Runs FlowStep false line_begins (flow_begins bytes.now options.now start) state (world pushed) }
    requires valid { valid flow_table_scheme (world pushed) (plain state) }
    ensures { IfOk result (λ read. FlowReads bytes.now options.now start (found_in read.1) (world read.0)) }
{
    let mut tokenizer = pushed;
    flush::<FlowTable>(&mut tokenizer, state, false)?;
    let same = until_changed(&tokenizer.events);
    if same == tokenizer.events.len() {
        let found = nothing(tokenizer.alloc);
        return Ok((tokenizer, found));
    }
    let (found, many) = read_texts(&mut tokenizer, start, same)?;
    resolve_blocks(&mut tokenizer, options, many)?;
    Ok((tokenizer, found))
}

/// The blocks that flow has read of a text, and the labels of the definitions among them. Their text parts are not read.
///
/// An `Err` says that memory ran out.
fn part_of<'a>(
    alloc: Global,
    bytes: &'a [u8],
    options: &'a ParseOptions,
    start: Point,
    tokenizer: Tokenizer<'a>,
    found: Subresult,
) -> Result<Part, Message>
    requires small { IsSmall bytes.now }
    requires built { IsWithoutMdx options.now }
    requires begins { BeginsPart bytes.now start }
    requires reads { FlowReads bytes.now options.now start (found_in found) (world tokenizer) }
    ensures { IfOk result (λ part. IsPartRead options.now bytes.now start part) }
{
    let gfm_footnote_definitions = footnotes_of(alloc, bytes, options, &tokenizer.events)?;
    Ok(Part {
        events: tokenizer.events,
        definitions: found.definitions,
        gfm_footnote_definitions,
    })
}

/// Reads the blocks of a part from a point to the begin of a line, if it may end there. Returns where the next part
/// begins, too. A list of events that is lent is left where the part may not end there.
///
/// An `Err` says that memory ran out.
fn read_cut(
    alloc: Global,
    text: &[u8],
    options: &ParseOptions,
    start: Point,
    to: usize,
    lent: &mut Vec<Event>,
) -> Result<Option<(Part, Point)>, Message>
    requires small { IsSmall text.now }
    requires built { IsWithoutMdx options.now }
    requires may { MayRead options.now text.now start }
    requires some { start.index < to }
    requires within { to < length text.now }
    requires begins { is_line_begin text.now to ≡ true }
    ensures part { IfOk result
        (λ read. IfSome read (λ read. HasUnread options.now text.now start read.0 (Some read.1))) }
    ensures next { IfOk result (λ read. IfSome read (λ read. MayRead options.now text.now read.1)) }
{
    let bytes = &text[..to];
    let (tokenizer, state) = push_lines(alloc, bytes, options, start, lent)?;
    if !may_end(text, start, to, &tokenizer, state) {
        *lent = tokenizer.events;
        return Ok(None);
    }
    let next = tokenizer.point;
    let (tokenizer, found) = set_lines(bytes, options, start, tokenizer, state)?;
    let part = part_of(alloc, bytes, options, start, tokenizer, found)?;
    Ok(Some((part, next)))
}

/// Reads the blocks of a part from a point to the end of the text.
///
/// An `Err` says that memory ran out.
fn read_last(
    alloc: Global,
    text: &[u8],
    options: &ParseOptions,
    start: Point,
    lent: &mut Vec<Event>,
) -> Result<Part, Message>
    requires small { IsSmall text.now }
    requires built { IsWithoutMdx options.now }
    requires may { MayRead options.now text.now start }
    ensures { IfOk result (λ part. HasUnread options.now text.now start part None) }
{
    let (tokenizer, state) = push_lines(alloc, text, options, start, lent)?;
    let (tokenizer, found) = set_lines(text, options, start, tokenizer, state)?;
    part_of(alloc, text, options, start, tokenizer, found)
}

/// Reads the blocks of a part from a point on, of so many bytes at least. Returns where the next part begins, too, if
/// there is one.
///
/// An `Err` says that memory ran out.
pub(crate) fn read_at_least(
    alloc: Global,
    text: &[u8],
    options: &ParseOptions,
    start: Point,
    least: usize,
    lent: &mut Vec<Event>,
) -> Result<(Part, Option<Point>), Message>
    requires small { IsSmall text.now }
    requires built { IsWithoutMdx options.now }
    requires may { MayRead options.now text.now start }
    ensures part { IfOk result (λ read. HasUnread options.now text.now start read.0 read.1) }
    ensures next { IfOk result (λ read. ForSome read.1 (λ next. MayRead options.now text.now next)) }
{
    let mut to = part_end(text, start.index, least.max(1));
    while to < text.len() {
        if let Some((part, next)) = read_cut(alloc, text, options, start, to, lent)? {
            return Ok((part, Some(next)));
        }
        to = part_end(text, to, (to - start.index).saturating_mul(3));
    }
    let part = read_last(alloc, text, options, start, lent)?;
    Ok((part, None))
}

/// The bytes of a text before the next part, if there is one.
fn before_next(text: &[u8], next: Option<Point>) -> &[u8]
    requires { ForSome next (λ next. next.index ≤ length text.now) }
    ensures { result.now ≡ before_next text.now next }
{
    match next {
        Some(next) => &text[..next.index],
        None => text,
    }
}

/// Reads a part from a point on, of so many bytes at least. Its text parts are read as lines: each is `Data` over each
/// line, if it is not empty, and `LineEnding` over its ending. Returns where the next part begins, too, if there is one.
///
/// An `Err` says that memory ran out.
fn read_part(
    alloc: Global,
    text: &[u8],
    options: &ParseOptions,
    start: Point,
    least: usize,
    lent: &mut Vec<Event>,
) -> Result<(Part, Option<Point>), Message>
    requires small { IsSmall text.now }
    requires built { IsWithoutMdx options.now }
    requires may { MayRead options.now text.now start }
    ensures part { IfOk result (λ read. HasPart options.now text.now start read.0 read.1) }
    ensures next { IfOk result (λ read. ForSome read.1 (λ next. MayRead options.now text.now next)) }
{
    let (part, next) = read_at_least(alloc, text, options, start, least, lent)?;
    let state = ParseState {
        options,
        bytes: before_next(text, next),
        definitions: Vec::new(alloc),
        gfm_footnote_definitions: Vec::new(alloc),
    };
    let reader = LineReader { state: &state };
    let events = subtokenize(alloc, &reader, part.events)?;
    let lined = Part {
        events,
        definitions: part.definitions,
        gfm_footnote_definitions: part.gfm_footnote_definitions,
    };
    Ok((lined, next))
}

/// A point, if it is in the text.
pub(crate) fn point_in(text: &[u8], point: Point) -> Option<Point>
    ensures { result ≡ point_in text.now point }
{
    if point.index < text.len() {
        Some(point)
    } else {
        None
    }
}

impl<'a> Parts<'a> {
    ghost use Rattle.markdown_blocks.specs.PartsLeft.{left_in, left_of};

    /// A text that is read in parts of 64 KiB, or larger where a block is.
    ///
    /// The text has at most `MAX_LEN` bytes, and the constructs of MDX are off. A byte order mark before the text is
    /// taken as such. Nothing is read yet, and no memory is taken.
    pub fn new(alloc: Global, value: &'a str, options: &'a ParseOptions) -> Parts<'a>
        requires size { IsSmall value.now }
        requires built { IsWithoutMdx options.now }
        ensures text { (left_in result).text ≡ value.now }
        ensures blocks { (left_in result).blocks ≡ exact options.now value.now }
        ensures outlined { IsOutlined (left_in result).blocks value.now }
        ensures tree { spelled (left_in result).blocks value.now ≡ tree options.now value.now }
        ensures events { (left_in result).events ≡ lined wants_text value.now (exact options.now value.now) }
        ensures parsed { (events : List Event) (state : ParseState) → IsParsed value.now options.now events state →
            (left_in result).events ≡ events }
        ensures labels { (left_in result).labels ≡ labels (tree options.now value.now) }
        ensures place { (left_in result).place ≡ first_point }
    {
        Parts::with_least(alloc, value, options, LEAST)
    }

    /// The same in parts of so many bytes at least: each ends at the end of a paragraph after as many, where one is found.
    ///
    /// What is asked of the text and of the options is as for `new`.
    pub fn with_least(
        alloc: Global,
        value: &'a str,
        options: &'a ParseOptions,
        least: usize,
    ) -> Parts<'a>
        requires size { IsSmall value.now }
        requires built { IsWithoutMdx options.now }
        ensures text { (left_in result).text ≡ value.now }
        ensures blocks { (left_in result).blocks ≡ exact options.now value.now }
        ensures outlined { IsOutlined (left_in result).blocks value.now }
        ensures tree { spelled (left_in result).blocks value.now ≡ tree options.now value.now }
        ensures events { (left_in result).events ≡ lined wants_text value.now (exact options.now value.now) }
        ensures parsed { (events : List Event) (state : ParseState) → IsParsed value.now options.now events state →
            (left_in result).events ≡ events }
        ensures labels { (left_in result).labels ≡ labels (tree options.now value.now) }
        ensures place { (left_in result).place ≡ first_point }
    {
        Parts {
            alloc,
            bytes: value.as_bytes(),
            options,
            least,
            begun: false,
            start: None,
            spare: Vec::new(alloc),
        }
    }

    /// The events of the front, if nothing was handed out yet, and where the next part begins after them.
    ///
    /// An `Err` says that memory ran out.
    fn ahead(&self) -> Result<(Vec<Event>, Option<Point>), Message>
        ensures { IfOk result
            (λ read.
            AreAhead self.now.options.now self.now.bytes.now self.now.begun self.now.start read.0.items read.1) }
    {
        if self.begun {
            return Ok((Vec::new(self.alloc), self.start));
        }
        let front = read_front(self.alloc, self.bytes, self.options)?;
        let start = point_in(self.bytes, front.point);
        Ok((front.events, start))
    }

    /// The front of a text as a part, after which the next part begins here, if there is one.
    fn begin(&mut self, front: Vec<Event>, start: Option<Point>) -> Part
        requires { ForSome start (λ p. MayRead self.old.options.now self.old.bytes.now p) }
        ensures events { result.events ≡ front }
        ensures labels { labels_of result ≡ no_labels }
        ensures left { left_in self.new ≡ left_of self.old.options.now self.old.bytes.now true start }
    {
        self.begun = true;
        self.start = start;
        Part {
            events: front,
            definitions: Vec::new(self.alloc),
            gfm_footnote_definitions: Vec::new(self.alloc),
        }
    }

    /// The next part as `next` returns it, but its text parts are not read: the text on each line of one is a linked
    /// `Data`. An outline of these events is that of those that `next` returns.
    ///
    /// What an `Err` says is as for `next`.
    pub fn next_blocks(&mut self) -> Result<Option<Part>, Message>
        ensures text { (left_in self.new).text ≡ (left_in self.old).text }
        ensures blocks { IfOk result
            (λ part.
            IfSome part (λ part. (left_in self.old).blocks ≡ part.events.items ++ (left_in self.new).blocks)) }
        ensures lines { IfOk result
            (λ part.
            IfSome part
            (λ part.
            (left_in self.old).events ≡
            lined wants_text (left_in self.old).text part.events.items ++ (left_in self.new).events)) }
        ensures some { IfOk result (λ part. IfSome part (λ part. 0 < length part.events.items)) }
        ensures labels { IfOk result
            (λ part.
            IfSome part (λ part. (left_in self.old).labels ≡ both (labels_of part) (left_in self.new).labels)) }
        ensures laid { IfOk result
            (λ part.
            IfSome part
            (λ part.
            AreLaid (left_in self.old).text (left_in self.old).place part.events.items (left_in self.new).place)) }
        ensures none { IfOk result (λ part. IfNone part ((left_in self.old).blocks ≡ [])) }
        ensures defined { IfOk result (λ part. IfNone part ((left_in self.old).labels ≡ no_labels)) }
        ensures end { IfOk result
            (λ part.
            IfNone part (same_place (left_in self.old).place (end_point (left_in self.old).text) ≡ true)) }
        ensures stays { IfOk result (λ part. IfNone part (left_in self.new ≡ left_in self.old)) }
        ensures failed { IfErr result (λ error. left_in self.new ≡ left_in self.old) }
    {
        let (front, start) = self.ahead()?;
        if !front.is_empty() {
            return Ok(Some(self.begin(front, start)));
        }
        let Some(start) = start else {
            return Ok(None);
        };
        let (part, next) = read_at_least(
            self.alloc,
            self.bytes,
            self.options,
            start,
            self.least,
            &mut self.spare,
        )?;
        self.begun = true;
        self.start = next;
        Ok(Some(part))
    }

    /// The next part, or `None` where all of the text was handed out. The front of a text is a part of its own. Each part
    /// has an event at least.
    ///
    /// An `Err` says that memory ran out; then the same part may be asked for again.
    pub fn next(&mut self) -> Result<Option<Part>, Message>
        ensures text { (left_in self.new).text ≡ (left_in self.old).text }
        ensures events { IfOk result
            (λ part.
            IfSome part (λ part. (left_in self.old).events ≡ part.events.items ++ (left_in self.new).events)) }
        ensures some { IfOk result (λ part. IfSome part (λ part. 0 < length part.events.items)) }
        ensures labels { IfOk result
            (λ part.
            IfSome part (λ part. (left_in self.old).labels ≡ both (labels_of part) (left_in self.new).labels)) }
        ensures laid { IfOk result
            (λ part.
            IfSome part
            (λ part.
            AreLaid (left_in self.old).text (left_in self.old).place part.events.items (left_in self.new).place)) }
        ensures none { IfOk result (λ part. IfNone part ((left_in self.old).events ≡ [])) }
        ensures defined { IfOk result (λ part. IfNone part ((left_in self.old).labels ≡ no_labels)) }
        ensures end { IfOk result
            (λ part.
            IfNone part (same_place (left_in self.old).place (end_point (left_in self.old).text) ≡ true)) }
        ensures stays { IfOk result (λ part. IfNone part (left_in self.new ≡ left_in self.old)) }
        ensures failed { IfErr result (λ error. left_in self.new ≡ left_in self.old) }
    {
        let (front, start) = self.ahead()?;
        if !front.is_empty() {
            return Ok(Some(self.begin(front, start)));
        }
        let Some(start) = start else {
            return Ok(None);
        };
        let (part, next) = read_part(
            self.alloc,
            self.bytes,
            self.options,
            start,
            self.least,
            &mut self.spare,
        )?;
        self.begun = true;
        self.start = next;
        Ok(Some(part))
    }

    /// Takes the list of events of a part that is done with, for the next part.
    pub fn reuse(&mut self, part: Part)
        ensures { left_in self.new ≡ left_in self.old }
    {
        self.spare = part.events;
    }
}
