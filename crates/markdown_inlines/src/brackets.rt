// Brackets (CommonMark 6.3, 6.4), and the text between: one pass from left to right, with a list of what is open.
//
// Where a bracket opens, places are kept for what it may be. A `]` takes the last bracket that is open: the runs
// between are matched, and the places are filled, if the two are a link, an image or a footnote call.

ghost use Rattle.std.specs.Prelude.{◌≡◌, ℕ, ◌+◌, ◌||◌, ◌≤◌, ◌++◌, ◌∷◌, [], IfOk, IfSome, OnOk, List, Some, None};
ghost use Rattle.std.specs.Prelude.{drop, length, map, option_map, string_bytes, take};
ghost use Rattle.md_inline_events.specs.Forest.{size};
ghost use Rattle.md_inlines.specs.Atoms as inlines;
ghost use Rattle.md_inlines.specs.Content as content;
ghost use Rattle.md_inlines.specs.Emphasis as emphasis;
ghost use Rattle.md_inlines.specs.Emphasis.{Item};
ghost use Rattle.markdown_inlines.specs.Closed as closed;
ghost use Rattle.markdown_inlines.specs.Ends.{AreDomainless, AreEnds, IsAbsent};
ghost use Rattle.markdown_inlines.specs.Filled.{Filled, Placed, Shows};
ghost use Rattle.markdown_inlines.specs.Found.{found};
ghost use Rattle.markdown_inlines.specs.Opened.{bracket_room};
ghost use Rattle.markdown_inlines.specs.Plain.{is_bare};
ghost use Rattle.markdown_inlines.specs.Reading as spec;
ghost use Rattle.markdown_inlines.specs.Reads.{ClosedAs, Closing, Goes, Passes, Reads};
ghost use Rattle.markdown_inlines.specs.Spans.{holes, span_of, write};

use crate::atom::{Atom, atom_unless, push_atom};
use crate::attention::{PlacedRun, match_runs, push_run};
use crate::ends::{Absent, Domainless, Ends, absent_at, domainless_at, ends_of, list_ends};
use crate::labels::is_call;
use crate::plain::text_len;
use crate::slices::{after, front};
use crate::span::{Span, past, push_places, push_spans};
use crate::target::{Target, push_target, target_of};
use md_engine::event::Name;
use md_engine::message::Message;
use md_events::labels::Labels as Known;
use md_inlines::flanking::run_at;
use md_inlines::{InlineOptions, Run};
use md_scan::ahead::begins_with;
use md_scan::memory::push;
use std::alloc::Global;

/// What is at the front of a text.
#[derive(Clone, Copy)]
pub(crate) enum Front {
    Found(Atom),
    Marks(Run),
    /// A `[` that opens.
    Link,
    /// A `![` that opens.
    Image,
    /// A `]` that ends the level.
    Closes,
    Text,
}

/// Which brackets open at the front of a text.
#[derive(Clone, Copy)]
pub(crate) enum Opening {
    Nothing,
    /// `[`
    Link,
    /// `![`
    Image,
}

/// A bracket that is open.
#[derive(Clone, Copy)]
pub(crate) struct Bracket {
    /// Where it is in the text.
    at: usize,
    /// How many bytes it has.
    len: usize,
    /// The first of its places.
    place: usize,
    /// How many runs are before it.
    runs: usize,
    /// Whether a link is before it in its level.
    links: bool,
}

/// A text to be read from a place on, and what for.
#[derive(Clone, Copy)]
pub(crate) struct Source<'a, 'b> {
    pub(crate) options: &'a InlineOptions,
    pub(crate) labels: &'a Known<'b>,
    pub(crate) text: &'a [u8],
    pub(crate) start: usize,
}

/// How far a text is read.
#[derive(Drop)]
pub(crate) struct Reading {
    spans: Vec<Span>,
    /// The runs that are not matched yet.
    runs: Vec<PlacedRun>,
    /// The brackets that are open, the innermost last.
    brackets: Vec<Bracket>,
    /// Whether a link is in the innermost level.
    links: bool,
    /// How many bytes are read.
    at: usize,
}

/// What a pair of brackets is that is no text.
#[derive(Clone, Copy)]
pub(crate) enum Pair {
    /// A link, or an image if it is none.
    Leading(bool, Target),
    Call,
}

/// The names of what a pair of brackets is: the whole, its first bracket, and the two markers of this one.
#[derive(Clone, Copy)]
pub(crate) struct Labels {
    whole: Name,
    bracket: Name,
    first: Name,
    second: Name,
}

const IMAGE: Labels = Labels {
    whole: Name::Image,
    bracket: Name::LabelImage,
    first: Name::LabelImageMarker,
    second: Name::LabelMarker,
};

const LINK: Labels = Labels {
    whole: Name::Link,
    bracket: Name::LabelLink,
    first: Name::LabelMarker,
    second: Name::LabelMarker,
};

const CALL: Labels = Labels {
    whole: Name::GfmFootnoteCall,
    bracket: Name::GfmFootnoteCallLabel,
    first: Name::LabelMarker,
    second: Name::GfmFootnoteCallMarker,
};

/// How many places a bracket keeps.
const PLACES: usize = 6;

/// Whether runs of this byte are marks.
fn is_mark(options: &InlineOptions, byte: u8) -> bool
    ensures { result ≡ spec.is_mark options.now byte }
{
    (byte == b'*' || byte == b'_') && options.constructs.attention
        || byte == b'~' && options.constructs.gfm_strikethrough
}

/// What brackets open at the front of a text.
fn opening_at(options: &InlineOptions, text: &[u8]) -> Opening
    ensures { spec.opening_len result ≡ spec.opening options.now text.now }
{
    let on = options.constructs;
    if begins_with(b'[', text) {
        if on.label_start_link || on.gfm_footnote_call {
            Opening::Link
        } else {
            Opening::Nothing
        }
    } else if begins_with(b'!', text)
        && begins_with(b'[', after(text, 1))
        && on.label_start_image
        && !(on.gfm_footnote_call && begins_with(b'^', after(text, 2)))
    {
        Opening::Image
    } else {
        Opening::Nothing
    }
}

/// Whether no atom begins with this byte.
fn is_bare(byte: u8) -> bool
    ensures { result ≡ is_bare byte }
{
    matches!(byte, b'!' | b'*' | b'[' | b']' | b'_' | b'~')
}

/// The atom at the front of a text that begins with this byte, after another.
fn atom_from(
    options: &InlineOptions,
    outside: bool,
    absent: Absent,
    before: &[u8],
    byte: u8,
    text: &[u8],
) -> Option<Atom>
    requires absent { IsAbsent absent text.now }
    requires is { (following : List ℕ) × (text.now ≡ byte ∷ following) }
    ensures { found result ≡ inlines.atom options.now outside before.now text.now }
{
    if is_bare(byte) {
        None
    } else {
        atom_unless(options, outside, absent, before, text)
    }
}

/// What is at the front of a text that begins with this byte, after another; `inside` says that a bracket is open.
/// Some searches are known to fail there.
fn front_at(
    options: &InlineOptions,
    inside: bool,
    absent: Absent,
    before: &[u8],
    byte: u8,
    text: &[u8],
) -> Front
    requires absent { IsAbsent absent text.now }
    requires is { (following : List ℕ) × (text.now ≡ byte ∷ following) }
    ensures { spec.front_of result ≡ spec.front_at options.now inside before.now byte text.now }
{
    if let Some(found) = atom_from(options, !inside, absent, before, byte, text) {
        return Front::Found(found);
    }
    if is_mark(options, byte) {
        return Front::Marks(run_at(byte, before, text));
    }
    match opening_at(options, text) {
        Opening::Link => Front::Link,
        Opening::Image => Front::Image,
        Opening::Nothing => {
            if inside && byte == b']' {
                Front::Closes
            } else {
                Front::Text
            }
        }
    }
}

/// Reads an atom.
///
/// An `Err` says that memory ran out.
fn add_atom(reading: &mut Reading, atom: Atom) -> Result<(), Message>
    ensures { OnOk result (closed.IsAtomAdded atom reading.old reading.new) }
{
    reading.at = push_atom(&mut reading.spans, reading.at, atom)?;
    Ok(())
}

/// Reads a run.
///
/// An `Err` says that memory ran out.
fn add_run(reading: &mut Reading, run: Run) -> Result<(), Message>
    ensures { OnOk result (closed.IsRunAdded run reading.old reading.new) }
{
    push_run(&mut reading.spans, &mut reading.runs, run, reading.at)?;
    reading.at = past(reading.at, run.left)?;
    Ok(())
}

/// Reads a byte of text.
///
/// An `Err` says that memory ran out.
fn add_text(reading: &mut Reading) -> Result<(), Message>
    ensures { OnOk result (closed.IsTextAdded reading.old reading.new) }
{
    reading.at = past(reading.at, 1)?;
    Ok(())
}

/// Opens a bracket of so many bytes.
///
/// An `Err` says that memory ran out.
fn open_bracket(reading: &mut Reading, len: usize) -> Result<(), Message>
    ensures { OnOk result (closed.IsOpened len reading.old reading.new) }
{
    let bracket = Bracket {
        at: reading.at,
        len,
        place: reading.spans.len(),
        runs: reading.runs.len(),
        links: reading.links,
    };
    push(&mut reading.brackets, bracket)?;
    push_places(&mut reading.spans, PLACES)?;
    reading.links = false;
    reading.at = past(reading.at, len)?;
    Ok(())
}

/// What a pair is: its first bracket has so many bytes, these are between its brackets, and these follow.
///
/// An `Err` says that memory ran out.
fn pair_of(
    alloc: Global,
    source: Source<'_, '_>,
    len: usize,
    links: bool,
    inside: &[u8],
    following: &[u8],
) -> Result<Option<Pair>, Message>
    ensures kind { IfOk result (λ made. IfSome made (closed.IsKind len inside.now)) }
    ensures value { (items : List Item) → IfOk result (λ made.
        option_map (closed.pair_made source.entry.options.now items inside.now following.now) made ≡
        closed.pair_at source.entry.options.now
        (content.has_form (map string_bytes source.entry.labels.now.definitions.forms.now))
        (content.has_form (map string_bytes source.entry.labels.now.footnotes.forms.now)) len items links inside.now
        following.now) }
{
    let on = source.options.constructs;
    let labels = source.labels;
    if len == 2 {
        return match target_of(alloc, labels, inside, following)? {
            Some(target) => Ok(Some(Pair::Leading(false, target))),
            None => Ok(None),
        };
    }
    if on.gfm_footnote_call && is_call(alloc, labels, inside)? {
        return Ok(Some(Pair::Call));
    }
    if links || !on.label_start_link {
        return Ok(None);
    }
    match target_of(alloc, labels, inside, following)? {
        Some(target) => Ok(Some(Pair::Leading(true, target))),
        None => Ok(None),
    }
}

/// Matches the runs that are listed from a place on.
fn match_from(single: bool, runs: &mut [PlacedRun], from: usize, spans: &mut [Span])
    requires there { from ≤ length runs.old }
    requires placed { Placed (length spans.old) (drop from runs.old) }
    ensures shows { (at : ℕ) (others own : List Span) (items : List Item) → spans.old ≡ others ++ own →
        Filled at (length others) items own (drop from runs.old) →
        Shows at others (emphasis.emphasis single items) spans.new }
    ensures before { take from runs.new ≡ take from runs.old }
{
    match_runs(single, &mut runs[from..], spans);
}

/// Adds what a `]` is that ends a label, and says where it ends.
///
/// An `Err` says that memory ran out.
fn push_label_end(spans: &mut Vec<Span>, close: usize) -> Result<usize, Message>
    ensures spans { OnOk result (spans.new.items ≡ spans.old.items ++ closed.end_spans close) }
    ensures end { IfOk result (λ end. end ≡ close + 1) }
{
    let end = past(close, 1)?;
    push_spans(
        spans,
        &[
            Span::new(Name::LabelEnd, close, end),
            Span::new(Name::LabelMarker, close, end),
        ],
    )?;
    Ok(end)
}

/// Where the parts of a pair begin and end.
#[derive(Clone, Copy)]
pub(crate) struct Extent {
    /// Where the first bracket begins.
    at: usize,
    /// Where its first marker ends.
    marker: usize,
    /// Where the text begins.
    text: usize,
    /// Where the `]` is.
    close: usize,
    /// Where the `]` ends.
    label: usize,
    /// Where all of it ends.
    end: usize,
}

/// The names of a link, or of an image.
fn names_of(is_link: bool) -> Labels
    ensures { result ≡ closed.names_of is_link }
{
    if is_link { LINK } else { IMAGE }
}

/// Fills the places of a bracket.
fn fill_places(spans: &mut [Span], place: usize, names: Labels, extent: Extent)
    requires { place + bracket_room ≤ length spans.old }
    ensures { spans.new ≡ write place (closed.label_spans names extent) spans.old }
{
    spans[place] = Span::new(names.whole, extent.at, extent.end);
    spans[place + 1] = Span::new(Name::Label, extent.at, extent.label);
    spans[place + 2] = Span::new(names.bracket, extent.at, extent.text);
    spans[place + 3] = Span::new(names.first, extent.at, extent.marker);
    spans[place + 4] = Span::new(names.second, extent.marker, extent.text);
    spans[place + 5] = Span::new(Name::LabelText, extent.text, extent.close);
}

/// Whether one of two is so.
fn either(one: bool, other: bool) -> bool
    ensures { result ≡ (one || other) }
{
    one || other
}

/// Leaves a pair of brackets as text.
///
/// An `Err` says that the text is longer than one in memory can be.
fn end_text(reading: &mut Reading, bracket: Bracket) -> Result<(), Message>
    ensures { OnOk result ((start : ℕ) (k : Closing start bracket reading.old) →
        ClosedAs start bracket reading.old k None reading.new) }
{
    reading.at = past(reading.at, 1)?;
    reading.links = either(bracket.links, reading.links);
    Ok(())
}

/// Makes a pair of brackets a footnote call: what is found in it is its label.
///
/// An `Err` says that memory ran out.
fn end_call(start: usize, reading: &mut Reading, bracket: Bracket) -> Result<(), Message>
    requires { Closing start bracket reading.old }
    ensures { OnOk result ((k : Closing start bracket reading.old) (len : ℕ) →
        reading.old.at ≡ bracket.at + 2 + len →
        ClosedAs start bracket reading.old k (Some (closed.call_made len)) reading.new) }
{
    let close = reading.at;
    let marker = past(bracket.at, 1)?;
    let text = past(marker, 1)?;
    let kept = past(bracket.place, PLACES)?;
    reading.spans.truncate(kept);
    reading.runs.truncate(bracket.runs);
    let end = push_label_end(&mut reading.spans, close)?;
    let extent = Extent {
        at: bracket.at,
        marker,
        text,
        close,
        label: end,
        end,
    };
    fill_places(&mut reading.spans, bracket.place, CALL, extent);
    reading.at = end;
    reading.links = either(bracket.links, reading.links);
    Ok(())
}

/// Makes a pair of brackets a link or an image, with what it leads to.
///
/// An `Err` says that memory ran out.
fn end_leading(
    source: Source<'_, '_>,
    reading: &mut Reading,
    bracket: Bracket,
    is_link: bool,
    following: &[u8],
    target: Target,
) -> Result<(), Message>
    requires closing { Closing source.start bracket reading.old }
    requires len { bracket.len ≡ closed.first_len is_link }
    ensures { OnOk result ((k : Closing source.entry.start bracket reading.old) →
        ClosedAs source.entry.start bracket reading.old k
        (Some (closed.leading_made source.entry.options.now k.items following.now is_link target)) reading.new) }
{
    let close = reading.at;
    let single = source.options.gfm_strikethrough_single_tilde;
    let marker = past(bracket.at, 1)?;
    let text = past(bracket.at, bracket.len)?;
    match_from(single, &mut reading.runs, bracket.runs, &mut reading.spans);
    reading.runs.truncate(bracket.runs);
    let label = push_label_end(&mut reading.spans, close)?;
    let end = push_target(&mut reading.spans, source.options, following, target, label)?;
    let extent = Extent {
        at: bracket.at,
        marker,
        text,
        close,
        label,
        end,
    };
    let names = names_of(is_link);
    fill_places(&mut reading.spans, bracket.place, names, extent);
    reading.at = end;
    reading.links = either(bracket.links, either(reading.links, is_link));
    Ok(())
}

/// Makes a pair of brackets what it is.
///
/// An `Err` says that memory ran out.
fn end_pair(
    source: Source<'_, '_>,
    reading: &mut Reading,
    bracket: Bracket,
    pair: Pair,
    inside: &[u8],
    following: &[u8],
) -> Result<(), Message>
    requires closing { Closing source.start bracket reading.old }
    requires inside { bracket.at + bracket.len + length inside.now ≡ reading.old.at }
    requires kind { closed.IsKind bracket.len inside.now pair }
    ensures { OnOk result ((k : Closing source.entry.start bracket reading.old) →
        ClosedAs source.entry.start bracket reading.old k
        (Some (closed.pair_made source.entry.options.now k.items inside.now following.now pair)) reading.new) }
{
    match pair {
        Pair::Call => end_call(source.start, reading, bracket),
        Pair::Leading(is_link, target) => {
            end_leading(source, reading, bracket, is_link, following, target)
        }
    }
}

/// Closes the innermost bracket: these bytes are between it and its `]`, and these follow.
///
/// An `Err` says that memory ran out.
fn close(
    alloc: Global,
    source: Source<'_, '_>,
    reading: &mut Reading,
    bracket: Bracket,
    inside: &[u8],
    following: &[u8],
) -> Result<(), Message>
    requires closing { Closing source.start bracket reading.old }
    requires inside { bracket.at + bracket.len + length inside.now ≡ reading.old.at }
    ensures { OnOk result ((k : Closing source.entry.start bracket reading.old) →
        ClosedAs source.entry.start bracket reading.old k
        (closed.pair_at source.entry.options.now
        (content.has_form (map string_bytes source.entry.labels.now.definitions.forms.now))
        (content.has_form (map string_bytes source.entry.labels.now.footnotes.forms.now)) bracket.len k.items
        reading.old.links inside.now following.now) reading.new) }
{
    let found = pair_of(alloc, source, bracket.len, reading.links, inside, following)?;
    match found {
        None => end_text(reading, bracket),
        Some(pair) => end_pair(source, reading, bracket, pair, inside, following),
    }
}

/// Reads what is at the front of what is left of a text, which is this byte and what follows it.
///
/// An `Err` says that memory ran out.
fn step(
    alloc: Global,
    source: Source<'_, '_>,
    ends: &Ends,
    places: Domainless,
    byte: u8,
    following: &[u8],
    reading: &mut Reading,
) -> Result<(), Message>
    requires reads { Reads source reading.old }
    requires is { drop reading.old.at source.text.now ≡ byte ∷ following.now }
    requires ends { AreEnds source.text.now ends.now }
    requires places { AreDomainless source.text.now places }
    ensures { OnOk result (Goes source.entry reading.old reading.new) }
{
    let inside = !reading.brackets.is_empty();
    let before = front(source.text, reading.at);
    let rest = after(source.text, reading.at);
    let absent = absent_at(ends, places, source.text, reading.at, rest);
    match front_at(source.options, inside, absent, before, byte, rest) {
        Front::Found(found) => add_atom(reading, found),
        Front::Marks(run) => add_run(reading, run),
        Front::Text => add_text(reading),
        Front::Link => open_bracket(reading, 1),
        Front::Image => open_bracket(reading, 2),
        Front::Closes => {
            let Some(bracket) = reading.brackets.pop() else {
                return Err(Message);
            };
            let held = after(after(before, bracket.at), bracket.len);
            close(alloc, source, reading, bracket, held, after(rest, 1))
        }
    }
}

/// Reads the bytes at the front of what is left of a text that begin nothing.
///
/// An `Err` says that the text is longer than one in memory can be.
fn pass_text(source: Source<'_, '_>, reading: &mut Reading) -> Result<(), Message>
    requires { Reads source reading.old }
    ensures { OnOk result (Passes source.entry reading.old reading.new) }
{
    let literals = source.options.constructs.gfm_autolink_literal;
    let len = text_len(literals, after(source.text, reading.at));
    reading.at = past(reading.at, len)?;
    Ok(())
}

/// The places without a domain that are known at this byte, after those that are known before it. None are looked for
/// where no address is read.
///
/// An `Err` says that the text is longer than one in memory can be.
fn places_at(
    source: Source<'_, '_>,
    known: Domainless,
    byte: u8,
    reading: &Reading,
) -> Result<Domainless, Message>
    requires { AreDomainless source.text.now known }
    ensures { IfOk result (λ places. AreDomainless source.entry.text.now places) }
{
    if !source.options.constructs.gfm_autolink_literal || !reading.brackets.is_empty() {
        return Ok(known);
    }
    let before = front(source.text, reading.at);
    let rest = after(source.text, reading.at);
    domainless_at(known, source.text, reading.at, byte, before, rest)
}

/// Matches the runs that are left where a text ends.
fn match_last(source: Source<'_, '_>, reading: &mut Reading)
    requires reads { Reads source reading.old }
    requires end { length (drop reading.old.at source.text.now) ≡ 0 }
    ensures { Shows source.entry.start [] (closed.level_forest source.entry) reading.new.spans.items }
{
    // A number is known to fit its type where it is read.
    let _end = reading.at;
    let single = source.options.gfm_strikethrough_single_tilde;
    match_runs(single, &mut reading.runs, &mut reading.spans);
}

/// The spans of a text from a place on.
///
/// An `Err` says that memory ran out.
pub(crate) fn read(alloc: Global, source: Source<'_, '_>) -> Result<Vec<Span>, Message>
    ensures { IfOk result (λ made. Shows source.entry.start [] (closed.level_forest source.entry) made.items) }
{
    let mut ends = ends_of(alloc, false, false, false, source.text)?;
    let mut tried = 0;
    let mut reading = Reading {
        spans: Vec::new(alloc),
        runs: Vec::new(alloc),
        brackets: Vec::new(alloc),
        links: false,
        at: source.start,
    };
    let mut places = Domainless::NOWHERE;
    pass_text(source, &mut reading)?;
    while let Some((byte, following)) = after(source.text, reading.at).split_first() {
        places = places_at(source, places, *byte, &reading)?;
        tried = list_ends(alloc, source.options, source.text, tried, *byte, &mut ends)?;
        step(alloc, source, &ends, places, *byte, following, &mut reading)?;
        pass_text(source, &mut reading)?;
    }
    match_last(source, &mut reading);
    Ok(reading.spans)
}
