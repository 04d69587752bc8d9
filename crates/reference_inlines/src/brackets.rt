// Brackets (CommonMark 6.3, 6.4), without a stack of calls: a text is read from left to right, and what is open is in a
// list.

ghost use Rattle.std.specs.Prelude.{◌≡◌, ◌∷◌, IfOk, OnOk, map, option_map, drop, string_bytes};
ghost use Rattle.md_inlines.specs.Content as content;
ghost use Rattle.reference_inlines.specs.Pairs as pairs;
ghost use Rattle.reference_inlines.specs.Reading as spec;

use crate::atom::{Atom, atom_at, atom_nodes};
use crate::emphasis::emphasis;
use crate::labels::{Defined, is_call};
use crate::node::{Node, len_of_all, push_kept, push_nodes, sum};
use crate::slices::{after, front};
use crate::target::target;
use md_engine::event::Name;
use md_engine::message::Message;
use md_inlines::flanking::run_at;
use md_inlines::{InlineOptions, Run};
use md_scan::ahead::begins_with;
use md_scan::memory::push;
use std::alloc::Global;

/// What is at the front of a text.
#[derive(Clone, Copy, Debug)]
enum Front {
    Atom(Atom),
    Run(Run),
    /// Brackets of so many bytes that open.
    Opens(usize),
    /// A `]` that ends the level.
    Closes,
    Text,
}

/// A bracket that is open.
#[derive(Clone, Copy, Debug)]
pub(crate) struct Open {
    /// Where it is in the text.
    at: usize,
    /// How many bytes it has.
    len: usize,
    /// How many nodes are before it; it is itself a node of text.
    nodes: usize,
    /// Whether a link is before it in its level.
    links: bool,
}

/// How far a text is read.
#[derive(Drop)]
pub(crate) struct Reading {
    /// What is read, with each open bracket as text.
    nodes: Vec<Node>,
    /// The brackets that are open, the innermost last.
    stack: Vec<Open>,
    /// Whether a link is in the innermost level.
    links: bool,
    /// How many bytes are read.
    at: usize,
}

/// A pair of brackets that is no text.
#[derive(Drop)]
pub(crate) struct Made {
    nodes: Vec<Node>,
    /// How many bytes after its `]` belong to it.
    taken: usize,
    is_link: bool,
}

/// Whether runs of this byte are marks.
fn is_mark(options: &InlineOptions, byte: u8) -> bool
    ensures { result ≡ spec.is_mark options.now byte }
{
    (byte == b'*' || byte == b'_') && options.constructs.attention
        || byte == b'~' && options.constructs.gfm_strikethrough
}

/// How many bytes of brackets open here.
fn opening(options: &InlineOptions, text: &[u8]) -> usize
    ensures { result ≡ spec.opening options.now text.now }
{
    let on = options.constructs;
    if begins_with(b'[', text) {
        if on.label_start_link || on.gfm_footnote_call {
            1
        } else {
            0
        }
    } else if begins_with(b'!', text)
        && begins_with(b'[', after(text, 1))
        && on.label_start_image
        && !(on.gfm_footnote_call && begins_with(b'^', after(text, 2)))
    {
        2
    } else {
        0
    }
}

/// What is at the front of a text that begins with this byte, after another; `inside` says that a bracket is open.
fn front_at(options: &InlineOptions, inside: bool, before: &[u8], byte: u8, text: &[u8]) -> Front
    ensures { spec.front_of result ≡ spec.front_at options.now inside before.now byte text.now }
{
    if let Some(found) = atom_at(options, !inside, before, text) {
        return Front::Atom(found);
    }
    if is_mark(options, byte) {
        return Front::Run(run_at(byte, before, text));
    }
    let len = opening(options, text);
    if len != 0 {
        Front::Opens(len)
    } else if inside && byte == b']' {
        Front::Closes
    } else {
        Front::Text
    }
}

/// A link or an image, around the nodes of its text.
///
/// An `Err` says that memory ran out.
fn leading(
    alloc: Global,
    options: &InlineOptions,
    is_link: bool,
    inner: &[Node],
    leads: &[Node],
) -> Result<Made, Message>
    ensures { IfOk result (λ made. pairs.made_of made ≡ pairs.leading options.now is_link inner.now leads.now) }
{
    let inside = emphasis(alloc, options.gfm_strikethrough_single_tilde, inner)?;
    let mut nodes = Vec::new(alloc);
    if is_link {
        push_nodes(
            &mut nodes,
            &[
                Node::Begin(Name::Link),
                Node::Begin(Name::Label),
                Node::Begin(Name::LabelLink),
                Node::Piece(Name::LabelMarker, 1),
                Node::End,
                Node::Begin(Name::LabelText),
            ],
        )?;
    } else {
        push_nodes(
            &mut nodes,
            &[
                Node::Begin(Name::Image),
                Node::Begin(Name::Label),
                Node::Begin(Name::LabelImage),
                Node::Piece(Name::LabelImageMarker, 1),
                Node::Piece(Name::LabelMarker, 1),
                Node::End,
                Node::Begin(Name::LabelText),
            ],
        )?;
    }
    push_nodes(&mut nodes, &inside)?;
    push_nodes(
        &mut nodes,
        &[
            Node::End,
            Node::Begin(Name::LabelEnd),
            Node::Piece(Name::LabelMarker, 1),
            Node::End,
            Node::End,
        ],
    )?;
    push_nodes(&mut nodes, leads)?;
    push(&mut nodes, Node::End)?;
    let taken = len_of_all(leads)?;
    Ok(Made {
        nodes,
        taken,
        is_link,
    })
}

/// A footnote call, whose label has so many bytes after its `^`.
///
/// An `Err` says that memory ran out.
fn call(alloc: Global, len: usize) -> Result<Made, Message>
    ensures { IfOk result (λ made. pairs.made_of made ≡ pairs.call_made len) }
{
    let mut nodes = Vec::new(alloc);
    push_kept(
        &mut nodes,
        &[
            Node::Begin(Name::GfmFootnoteCall),
            Node::Begin(Name::Label),
            Node::Begin(Name::GfmFootnoteCallLabel),
            Node::Piece(Name::LabelMarker, 1),
            Node::Piece(Name::GfmFootnoteCallMarker, 1),
            Node::End,
            Node::Begin(Name::LabelText),
            Node::Piece(Name::Data, len),
            Node::End,
            Node::Begin(Name::LabelEnd),
            Node::Piece(Name::LabelMarker, 1),
            Node::End,
            Node::End,
            Node::End,
        ],
    )?;
    Ok(Made {
        nodes,
        taken: 0,
        is_link: false,
    })
}

/// A link or an image with this text, if something follows that it leads to.
///
/// An `Err` says that memory ran out.
fn leading_to(
    alloc: Global,
    options: &InlineOptions,
    labels: Defined<'_>,
    is_link: bool,
    inner: &[Node],
    inside: &[u8],
    following: &[u8],
) -> Result<Option<Made>, Message>
    ensures { IfOk result (λ made. option_map pairs.made_of made ≡
        pairs.leading_to options.now (content.has_form (map string_bytes labels.entry.definitions.now)) is_link
        inner.now inside.now following.now) }
{
    match target(alloc, options, labels.definitions, inside, following)? {
        Some(leads) => Ok(Some(leading(alloc, options, is_link, inner, &leads)?)),
        None => Ok(None),
    }
}

/// What a pair is: its first bracket has so many bytes, these nodes are between its brackets, over these bytes, and
/// these follow.
///
/// An `Err` says that memory ran out.
fn pair(
    alloc: Global,
    options: &InlineOptions,
    labels: Defined<'_>,
    len: usize,
    inner: &[Node],
    links: bool,
    inside: &[u8],
    following: &[u8],
) -> Result<Option<Made>, Message>
    ensures { IfOk result (λ made. option_map pairs.made_of made ≡
        pairs.pair options.now (content.has_form (map string_bytes labels.entry.definitions.now))
        (content.has_form (map string_bytes labels.entry.footnotes.now)) len inner.now links inside.now following.now) }
{
    if len == 2 {
        return leading_to(alloc, options, labels, false, inner, inside, following);
    }
    if options.constructs.gfm_footnote_call && is_call(alloc, labels.footnotes, inside)? {
        return Ok(Some(call(alloc, inside.len().saturating_sub(1))?));
    }
    if links || !options.constructs.label_start_link {
        return Ok(None);
    }
    leading_to(alloc, options, labels, true, inner, inside, following)
}

/// Adds what is read over so many bytes.
///
/// An `Err` says that memory ran out.
fn add(reading: &mut Reading, nodes: &[Node], len: usize) -> Result<(), Message>
    ensures { OnOk result (spec.state_of reading.new ≡ spec.added (spec.state_of reading.old) nodes.now len) }
{
    push_nodes(&mut reading.nodes, nodes)?;
    reading.at = sum(reading.at, len)?;
    Ok(())
}

/// Opens a bracket of so many bytes.
///
/// An `Err` says that memory ran out.
#[tactic(auto, using(crate::proofs::StateLemmas::reverse_push))]
fn open_by(reading: &mut Reading, len: usize) -> Result<(), Message>
    ensures { OnOk result (spec.state_of reading.new ≡ spec.opened (spec.state_of reading.old) len) }
{
    let opened = Open {
        at: reading.at,
        len,
        nodes: reading.nodes.len(),
        links: reading.links,
    };
    push(&mut reading.stack, opened)?;
    push(&mut reading.nodes, Node::Piece(Name::Data, len))?;
    reading.links = false;
    reading.at = sum(reading.at, len)?;
    Ok(())
}

/// The pair that a `]` makes with this bracket.
///
/// An `Err` says that memory ran out.
fn pair_at(
    alloc: Global,
    options: &InlineOptions,
    labels: Defined<'_>,
    text: &[u8],
    reading: &Reading,
    opened: Open,
) -> Result<Option<Made>, Message>
    ensures { IfOk result (λ made. option_map pairs.made_of made ≡
        spec.pair_at options.now (content.has_form (map string_bytes labels.entry.definitions.now))
        (content.has_form (map string_bytes labels.entry.footnotes.now)) text.now opened reading.now.nodes.items
        reading.now.links reading.now.at (drop 1 (drop reading.now.at text.now))) }
{
    let inner = after(after(&reading.nodes, opened.nodes), 1);
    let inside = after(after(front(text, reading.at), opened.at), opened.len);
    let following = after(after(text, reading.at), 1);
    pair(
        alloc,
        options,
        labels,
        opened.len,
        inner,
        reading.links,
        inside,
        following,
    )
}

/// Closes a bracket that was the innermost, by what the pair is.
///
/// An `Err` says that memory ran out.
fn close_by(reading: &mut Reading, opened: Open, made: Option<Made>) -> Result<(), Message>
    ensures { OnOk result (spec.state_of reading.new ≡
        spec.closed_with (spec.state_of reading.old) opened (option_map pairs.made_of made)) }
{
    reading.at = sum(reading.at, 1)?;
    match made {
        None => {
            push(&mut reading.nodes, Node::Piece(Name::Data, 1))?;
            reading.links = opened.links || reading.links;
        }
        Some(found) => {
            reading.nodes.truncate(opened.nodes);
            push_nodes(&mut reading.nodes, &found.nodes)?;
            reading.links = opened.links || reading.links || found.is_link;
            reading.at = sum(reading.at, found.taken)?;
        }
    }
    Ok(())
}

/// Reads what is at the front of what is left of a text, which is this byte and what follows it.
///
/// An `Err` says that memory ran out.
fn step(
    alloc: Global,
    options: &InlineOptions,
    labels: Defined<'_>,
    text: &[u8],
    byte: u8,
    following: &[u8],
    reading: &mut Reading,
) -> Result<(), Message>
    requires { drop reading.old.at text.now ≡ byte ∷ following.now }
    ensures { OnOk result (spec.Goes options.now (content.has_form (map string_bytes labels.entry.definitions.now))
        (content.has_form (map string_bytes labels.entry.footnotes.now)) text.now (spec.state_of reading.old)
        (spec.state_of reading.new)) }
{
    let inside = !reading.stack.is_empty();
    let before = front(text, reading.at);
    let rest = after(text, reading.at);
    match front_at(options, inside, before, byte, rest) {
        Front::Atom(found) => {
            let nodes = atom_nodes(alloc, found)?;
            let len = len_of_all(&nodes)?;
            add(reading, &nodes, len)
        }
        Front::Run(run) => add(reading, &[Node::Run(run)], run.left),
        Front::Text => add(reading, &[Node::Piece(Name::Data, 1)], 1),
        Front::Opens(len) => open_by(reading, len),
        Front::Closes => {
            let Some(opened) = reading.stack.pop() else {
                return Err(Message);
            };
            let made = pair_at(alloc, options, labels, text, reading, opened)?;
            close_by(reading, opened, made)
        }
    }
}

/// The nodes of a text from a place on, with the runs of its outermost level.
///
/// An `Err` says that memory ran out.
pub(crate) fn read(
    alloc: Global,
    options: &InlineOptions,
    labels: Defined<'_>,
    text: &[u8],
    start: usize,
) -> Result<Vec<Node>, Message>
    ensures { IfOk result (λ made. made.items ≡ spec.level_nodes options.now
        (content.has_form (map string_bytes labels.entry.definitions.now))
        (content.has_form (map string_bytes labels.entry.footnotes.now)) text.now start) }
{
    let mut reading = Reading {
        nodes: Vec::new(alloc),
        stack: Vec::new(alloc),
        links: false,
        at: start,
    };
    while let Some((byte, following)) = after(text, reading.at).split_first() {
        step(alloc, options, labels, text, *byte, following, &mut reading)?;
    }
    Ok(reading.nodes)
}
