// The tree of a text, in one walk over its events.
//
// The events nest as the nodes do. A node begins and ends with its part, text is gathered until a node begins or ends,
// and a sink says what becomes of the bytes of a piece. What is open is in lists, so depth takes no stack.

use crate::reports::layer::is_inline_part;
use crate::reports::names::{
    Sink, is_address, is_line_piece, is_text, is_text_piece, kind_of, scheme_of, sink_of,
};
use crate::reports::nodes::{Column, LabelForm, Node, NodeKind, Words};
use crate::reports::position::{Place, Position};
use crate::reports::source::{Source, Target};
use markdown_blocks::event::{Event, Kind, Name, Point};
use markdown_blocks::message::Message;
use markdown_blocks::parser::ParseState;
use markdown_blocks::slice;
use markdown_html::texts::{push_reference, push_shown, push_unbarred, without_padding};
use std::alloc::{AllocError, Global};
use std::mem;

/// Text that is no node yet.
#[derive(Drop)]
struct Gathered {
    value: String,
    /// Where it begins and has ended; nowhere where there is none.
    position: Option<Position>,
}

/// Where the walk is in a block of lines.
#[derive(Clone, Copy)]
struct Lines {
    /// How many endings are before its next line, that of an opening fence not counted.
    count: usize,
    fences: usize,
    /// The byte after its last ending.
    last: usize,
}

/// The tree of a text after some of its events.
#[derive(Drop)]
struct Builder<'s, 't> {
    alloc: Global,
    state: &'s ParseState<'t>,
    nodes: Vec<Node>,
    /// Which nodes are open, the innermost last.
    open: Vec<usize>,
    sinks: Vec<Sink>,
    /// Where the piece begins that is open.
    entered: Option<Point>,
    /// Where the last character reference begins.
    reference: usize,
    gathered: Gathered,
    source: Source,
    is_cell: bool,
    /// Whether a hard break, or the check of a task, is right before.
    is_broken: bool,
    is_checked: bool,
    lines: Lines,
    /// How many definitions and footnote definitions have begun.
    definitions: usize,
    footnotes: usize,
}

/// The tree of a text, given its events with inline content. An `Err` says that memory ran out.
pub(crate) fn nodes_of(
    alloc: Global,
    events: &[Event],
    state: &ParseState<'_>,
) -> Result<Vec<Node>, Message> {
    let mut builder = begun(alloc, state)?;
    for event in events {
        match event.kind {
            Kind::Enter => builder.enter(event)?,
            Kind::Exit => builder.exit(event)?,
        }
    }
    let end = match events.last() {
        Some(event) => Place::of(event.point),
        None => Place::FIRST,
    };
    builder.end_node(end)?;
    Ok(builder.nodes)
}

/// A tree of a root.
fn begun<'s, 't>(alloc: Global, state: &'s ParseState<'t>) -> Result<Builder<'s, 't>, AllocError> {
    let mut builder = Builder {
        alloc,
        state,
        nodes: Vec::new(alloc),
        open: Vec::new(alloc),
        sinks: Vec::new(alloc),
        entered: None,
        reference: 0,
        gathered: Gathered {
            value: String::new(alloc),
            position: None,
        },
        source: Source::new(alloc),
        is_cell: false,
        is_broken: false,
        is_checked: false,
        lines: Lines {
            count: 0,
            fences: 0,
            last: 0,
        },
        definitions: 0,
        footnotes: 0,
    };
    builder.begin_node(NodeKind::Root, Place::FIRST)?;
    Ok(builder)
}

impl<'s, 't> Builder<'s, 't> {
    fn enter(&mut self, event: &Event) -> Result<(), AllocError> {
        self.entered = Some(event.point);
        let here = Place::of(event.point);
        if let Some(kind) = kind_of(event.name) {
            self.begin_node(kind, here)?;
            self.begin_kind(event.name)?;
        }
        if let Some(sink) = sink_of(event.name) {
            self.sinks.push(sink)?;
            self.begin_sink(sink);
        }
        if is_inline_part(event.name) {
            self.source.begin();
            self.is_cell = event.name == Name::GfmTableCellText;
        }
        self.source.enter(event.name)?;
        if is_text(event.name) {
            self.begin_text(here);
        }
        if event.name == Name::CharacterReference {
            self.reference = event.point.index;
        }
        self.enter_part(event.name)
    }

    /// Begins a node. Before it a blank line may part it from the one in front.
    fn begin_node(&mut self, kind: NodeKind, start: Place) -> Result<(), AllocError> {
        self.end_text()?;
        let top = self.open.last().copied();
        if let Some(outer) = top.and_then(|at| self.nodes.get_mut(at)) {
            if outer.has_inner && start.line.saturating_sub(outer.last_line) > 1 {
                outer.is_spread = true;
            }
        }
        let depth = self.open.len();
        self.open.push(self.nodes.len())?;
        let position = Position { start, end: start };
        self.nodes
            .push(Node::new(self.alloc, kind, depth, position))?;
        Ok(())
    }

    /// Notes what the begin of a block says.
    fn begin_kind(&mut self, name: Name) -> Result<(), AllocError> {
        self.is_broken = false;
        match name {
            Name::CodeFenced | Name::MathFlow | Name::Frontmatter => self.begin_lines(0),
            Name::CodeIndented | Name::HtmlFlow => self.begin_lines(1),
            Name::Definition => {
                let at = self.definitions;
                self.definitions = at.saturating_add(1);
                let state = self.state;
                self.identify_by(&state.definitions, at)?;
            }
            Name::GfmFootnoteDefinition => {
                let at = self.footnotes;
                self.footnotes = at.saturating_add(1);
                let state = self.state;
                self.identify_by(&state.gfm_footnote_definitions, at)?;
            }
            _ => {}
        }
        Ok(())
    }

    fn begin_lines(&mut self, count: usize) {
        self.lines = Lines {
            count,
            fences: 0,
            last: 0,
        };
    }

    /// Gives the innermost node this identifier.
    fn identify(&mut self, form: &str) -> Result<(), AllocError> {
        let top = self.open.last().copied();
        match top.and_then(|at| self.nodes.get_mut(at)) {
            Some(node) => node.words.identifier.push_str(form),
            None => Ok(()),
        }
    }

    /// Gives the innermost node the identifier at this place of a list.
    fn identify_by(&mut self, forms: &[String], at: usize) -> Result<(), AllocError> {
        match forms.get(at) {
            Some(form) => self.identify(form.as_str()),
            None => Ok(()),
        }
    }

    /// Notes that the innermost node has a text of this kind, perhaps an empty one.
    fn begin_sink(&mut self, sink: Sink) {
        let alloc = self.alloc;
        let top = self.open.last().copied();
        let Some(node) = top.and_then(|at| self.nodes.get_mut(at)) else {
            return;
        };
        match sink {
            Sink::Title => node.words.title = Some(String::new(alloc)),
            Sink::Lang => node.words.lang = Some(String::new(alloc)),
            Sink::Meta => node.words.meta = Some(String::new(alloc)),
            _ => {}
        }
    }

    /// Notes where text begins that is a node.
    fn begin_text(&mut self, here: Place) {
        let is_phrasing = matches!(self.sinks.last(), Some(Sink::Phrasing));
        if is_phrasing && !self.is_broken && self.gathered.position.is_none() {
            self.gathered.position = Some(Position {
                start: here,
                end: here,
            });
        }
    }

    /// Notes the parts of a block that are no nodes and no texts.
    fn enter_part(&mut self, name: Name) -> Result<(), AllocError> {
        match name {
            Name::GfmTableDelimiterCell => self.push_column(),
            Name::CodeFencedFence | Name::MathFlowFence | Name::FrontmatterFence => {
                self.lines.fences = self.lines.fences.saturating_add(1);
                if self.lines.fences == 2 {
                    self.drop_ending();
                }
                Ok(())
            }
            _ => Ok(()),
        }
    }

    fn push_column(&mut self) -> Result<(), AllocError> {
        let top = self.open.last().copied();
        let Some(node) = top.and_then(|at| self.nodes.get_mut(at)) else {
            return Ok(());
        };
        node.columns.push(Column {
            is_left: false,
            is_right: false,
            is_filled: false,
        })?;
        Ok(())
    }

    /// Takes the last ending off the lines of a block.
    fn drop_ending(&mut self) {
        let top = self.open.last().copied();
        if let Some(node) = top.and_then(|at| self.nodes.get_mut(at)) {
            if node.words.value.as_bytes().last() == Some(&b'\n') {
                let _ending = node.words.value.pop();
            }
        }
    }

    fn exit(&mut self, event: &Event) -> Result<(), Message> {
        let here = Place::of(event.point);
        if let Some(start) = self.entered.take() {
            self.push_piece(event.name, start, event.point)?;
        }
        if event.name == Name::CharacterReference {
            self.push_character(event.point)?;
        }
        if is_text(event.name) {
            self.note_end(here);
        }
        if sink_of(event.name).is_some() {
            let _sink = self.sinks.pop();
        }
        self.source.exit(event.name);
        if is_inline_part(event.name) {
            self.source.end();
        }
        if kind_of(event.name).is_some() {
            self.end_node(here)?;
        }
        Ok(())
    }

    /// Notes where text has ended that is a node.
    fn note_end(&mut self, here: Place) {
        if !matches!(self.sink(), Sink::Phrasing) {
            return;
        }
        if let Some(position) = &mut self.gathered.position {
            position.end = here;
        }
    }

    /// Reads a piece.
    fn push_piece(&mut self, name: Name, start: Point, end: Point) -> Result<(), AllocError> {
        let bytes = self.state.bytes;
        let piece = bytes.get(start.index..end.index).unwrap_or(&[]);
        self.source.push(name, piece)?;
        match name {
            Name::LineEnding => self.push_ending(end),
            Name::Data if self.is_checked => self.push_after_check(piece),
            name if is_text_piece(name) => self.push_meaning(piece),
            name if is_line_piece(name) => self.push_line(start, end),
            name if is_address(name) => self.push_address(name, piece, start, end),
            name => self.push_attribute(name, piece),
        }
    }

    /// The sink that is open.
    fn sink(&self) -> Sink {
        match self.sinks.last() {
            Some(sink) => *sink,
            None => Sink::Nowhere,
        }
    }

    /// Appends bytes to what the sink says.
    fn push_meaning(&mut self, piece: &[u8]) -> Result<(), AllocError> {
        self.is_broken = false;
        match self.sink() {
            Sink::Phrasing => push_shown(&mut self.gathered.value, piece),
            sink => self.push_word(sink, piece),
        }
    }

    /// Appends bytes to a text of the innermost node.
    fn push_word(&mut self, sink: Sink, piece: &[u8]) -> Result<(), AllocError> {
        let top = self.open.last().copied();
        match top.and_then(|at| self.nodes.get_mut(at)) {
            Some(node) => push_to(&mut node.words, sink, piece),
            None => Ok(()),
        }
    }

    /// Appends what the character reference means that ends here.
    fn push_character(&mut self, end: Point) -> Result<(), AllocError> {
        let bytes = self.state.bytes;
        let written = bytes.get(self.reference..end.index).unwrap_or(&[]);
        let mut meant = String::new(self.alloc);
        push_reference(&mut meant, written)?;
        self.source.push_meant(meant.as_str())?;
        self.push_meaning(meant.as_bytes())
    }

    /// Appends text after the check of a task, without the space between.
    fn push_after_check(&mut self, piece: &[u8]) -> Result<(), AllocError> {
        self.is_checked = false;
        match piece.split_first() {
            Some((first, rest)) if *first == b' ' || *first == b'\t' => {
                if let Some(position) = &mut self.gathered.position {
                    position.start = position.start.past(*first);
                }
                self.push_meaning(rest)
            }
            _ => self.push_meaning(piece),
        }
    }

    /// Reads the ending of a line.
    fn push_ending(&mut self, end: Point) -> Result<(), AllocError> {
        match self.sink() {
            Sink::Phrasing => self.end_phrasing_line(end),
            Sink::Value => self.end_value_line(),
            Sink::Lines => self.end_block_line(end),
            Sink::Nowhere | Sink::Url | Sink::Lang => Ok(()),
            sink => self.push_word(sink, b"\n"),
        }
    }

    /// Ends a line between two nodes. After a hard break it belongs to that, and after a check to nothing.
    fn end_phrasing_line(&mut self, end: Point) -> Result<(), AllocError> {
        if self.is_broken {
            self.is_broken = false;
            if let Some(node) = self.nodes.last_mut() {
                node.position.end = Place::of(end);
            }
            return Ok(());
        }
        if self.is_checked {
            self.is_checked = false;
            self.gathered.position = None;
            return Ok(());
        }
        self.gathered.value.push_str("\n")
    }

    /// Ends a line of raw HTML, or of code or math, where it is a space.
    fn end_value_line(&mut self) -> Result<(), AllocError> {
        let top = self.open.last().copied();
        let Some(node) = top.and_then(|at| self.nodes.get_mut(at)) else {
            return Ok(());
        };
        let ending = match node.kind {
            NodeKind::InlineHtml => "\n",
            _ => " ",
        };
        node.words.value.push_str(ending)
    }

    fn end_block_line(&mut self, end: Point) -> Result<(), AllocError> {
        self.lines.last = end.index;
        let count = self.lines.count;
        self.lines.count = count.saturating_add(1);
        if count > 0 {
            return self.push_word(Sink::Lines, b"\n");
        }
        Ok(())
    }

    /// Appends a line of a block, or a part of one, with the columns of a cut tab before it.
    fn push_line(&mut self, start: Point, end: Point) -> Result<(), AllocError> {
        let position = slice::Position { start, end };
        let line = slice::Slice::from_position(self.state.bytes, position);
        for _ in 0..line.before {
            self.push_word(Sink::Lines, b" ")?;
        }
        self.push_word(Sink::Lines, line.bytes)
    }

    /// Reads an address: it is the text of its node, and where that leads to.
    fn push_address(
        &mut self,
        name: Name,
        piece: &[u8],
        start: Point,
        end: Point,
    ) -> Result<(), AllocError> {
        self.push_word(Sink::Url, scheme_of(name).as_bytes())?;
        self.push_word(Sink::Url, piece)?;
        push_shown(&mut self.gathered.value, piece)?;
        self.gathered.position = Some(Position {
            start: Place::of(start),
            end: Place::of(end),
        });
        self.end_text()
    }

    /// Reads a piece that says something of a node.
    fn push_attribute(&mut self, name: Name, piece: &[u8]) -> Result<(), AllocError> {
        match name {
            Name::HardBreakEscape | Name::HardBreakTrailing => self.is_broken = true,
            Name::ListItemValue => self.set_start(piece),
            Name::GfmTaskListItemValueChecked => self.set_check(true),
            Name::GfmTaskListItemValueUnchecked => self.set_check(false),
            name => self.set_attribute(name, piece),
        }
        Ok(())
    }

    /// Sets what a piece says of the innermost node.
    fn set_attribute(&mut self, name: Name, piece: &[u8]) {
        let top = self.open.last().copied();
        let Some(node) = top.and_then(|at| self.nodes.get_mut(at)) else {
            return;
        };
        match name {
            Name::HeadingAtxSequence => set_depth(node, piece),
            Name::HeadingSetextUnderlineSequence => {
                node.kind = NodeKind::Heading(if piece.first() == Some(&b'=') { 1 } else { 2 });
            }
            Name::FrontmatterSequence if piece.first() == Some(&b'+') => node.kind = NodeKind::Toml,
            Name::GfmTableDelimiterMarker => mark_column(node),
            Name::GfmTableDelimiterFiller => {
                if let Some(column) = node.columns.last_mut() {
                    column.is_filled = true;
                }
            }
            _ => {}
        }
    }

    /// Which node is around the innermost one.
    fn outer(&self) -> Option<usize> {
        let before = self.open.len().checked_sub(2)?;
        self.open.get(before).copied()
    }

    /// Sets the number of a list, where its first item has begun.
    fn set_start(&mut self, digits: &[u8]) {
        let outer = self.outer();
        if let Some(list) = outer.and_then(|at| self.nodes.get_mut(at)) {
            if !list.has_inner {
                list.kind = NodeKind::List(Some(number_of(digits)));
            }
        }
    }

    /// Sets the check of the item around a paragraph.
    fn set_check(&mut self, is_done: bool) {
        self.is_checked = true;
        let outer = self.outer();
        if let Some(item) = outer.and_then(|at| self.nodes.get_mut(at)) {
            item.kind = NodeKind::ListItem(Some(is_done));
        }
    }

    /// Makes what is gathered a node of text.
    fn end_text(&mut self) -> Result<(), AllocError> {
        let Some(position) = self.gathered.position.take() else {
            return Ok(());
        };
        if self.gathered.value.is_empty() {
            return Ok(());
        }
        let no_text = String::new(self.alloc);
        let value = mem::replace(&mut self.gathered.value, no_text);
        let depth = self.open.len();
        let mut node = Node::new(self.alloc, NodeKind::Text, depth, position);
        node.words.value = value;
        node.end = self.nodes.len().saturating_add(1);
        self.nodes.push(node)?;
        Ok(())
    }

    /// Ends the innermost node.
    fn end_node(&mut self, here: Place) -> Result<(), Message> {
        self.end_text()?;
        self.end_kind()?;
        let Some(at) = self.open.pop() else {
            return Ok(());
        };
        let end = self.nodes.len();
        let Some(node) = self.nodes.get_mut(at) else {
            return Ok(());
        };
        node.end = end;
        node.position.end = here;
        if !keeps_last(node.kind) {
            node.last_line = here.line;
        }
        let last = node.last_line;
        let top = self.open.last().copied();
        if let Some(outer) = top.and_then(|at| self.nodes.get_mut(at)) {
            outer.has_inner = true;
            if keeps_last(outer.kind) {
                outer.last_line = last;
            }
        }
        Ok(())
    }

    /// Ends what the innermost node holds, by its kind.
    fn end_kind(&mut self) -> Result<(), Message> {
        let top = self.open.last().copied();
        let Some(node) = top.and_then(|at| self.nodes.get(at)) else {
            return Ok(());
        };
        match node.kind {
            NodeKind::Code | NodeKind::Math | NodeKind::HtmlBlock => self.end_lines(),
            NodeKind::InlineCode | NodeKind::InlineMath => self.end_value()?,
            NodeKind::Link | NodeKind::Image => self.end_link()?,
            NodeKind::FootnoteReference => {
                let form = self.source.own_form()?;
                self.identify(form.as_str())?;
            }
            _ => {}
        }
        Ok(())
    }

    /// Ends a block of lines. A line that begins where the text ends is none.
    fn end_lines(&mut self) {
        if self.lines.last == self.state.bytes.len() {
            self.drop_ending();
        }
    }

    /// Ends code or math in a text.
    fn end_value(&mut self) -> Result<(), AllocError> {
        let mut value = String::new(self.alloc);
        let is_cell = self.is_cell;
        let top = self.open.last().copied();
        let Some(node) = top.and_then(|at| self.nodes.get_mut(at)) else {
            return Ok(());
        };
        let inside = without_padding(node.words.value.as_bytes());
        if is_cell {
            push_unbarred(&mut value, inside)?;
        } else {
            push_shown(&mut value, inside)?;
        }
        node.words.value = value;
        Ok(())
    }

    /// Ends a link or an image: it may be a reference.
    fn end_link(&mut self) -> Result<(), Message> {
        let target = self.source.target;
        self.source.target = Target::Nothing;
        match target {
            Target::Resource => Ok(()),
            Target::Full => {
                let form = self.source.full_form()?;
                self.refer(LabelForm::Full, form.as_str())
            }
            Target::Collapsed => self.refer_own(LabelForm::Collapsed),
            Target::Nothing => self.refer_own(LabelForm::Shortcut),
        }
    }

    /// Makes the innermost node a reference whose label is its own text.
    fn refer_own(&mut self, label: LabelForm) -> Result<(), Message> {
        let form = self.source.own_form()?;
        let top = self.open.last().copied();
        if let Some(node) = top.and_then(|at| self.nodes.get_mut(at)) {
            self.source.push_own(&mut node.words.label)?;
        }
        self.refer(label, form.as_str())
    }

    /// Makes the innermost node a reference to this label.
    fn refer(&mut self, label: LabelForm, form: &str) -> Result<(), Message> {
        self.identify(form)?;
        let top = self.open.last().copied();
        if let Some(node) = top.and_then(|at| self.nodes.get_mut(at)) {
            node.kind = match node.kind {
                NodeKind::Image => NodeKind::ImageReference(label),
                _ => NodeKind::LinkReference(label),
            };
        }
        Ok(())
    }
}

/// Whether the last line of a node is that of the last one in it.
fn keeps_last(kind: NodeKind) -> bool {
    match kind {
        NodeKind::List(_) | NodeKind::ListItem(_) | NodeKind::FootnoteDefinition => true,
        _ => false,
    }
}

/// The number that some digits are, of which an ordered list has at most nine (CommonMark 5.2).
fn number_of(digits: &[u8]) -> u32 {
    str::from_utf8(digits).unwrap_or("").parse().unwrap_or(0)
}

/// Sets the depth of an ATX heading by its first sequence.
fn set_depth(node: &mut Node, sequence: &[u8]) {
    if matches!(node.kind, NodeKind::Heading(0)) {
        node.kind = NodeKind::Heading(match sequence.len() {
            1 => 1,
            2 => 2,
            3 => 3,
            4 => 4,
            5 => 5,
            _ => 6,
        });
    }
}

/// Notes a colon of the last column.
fn mark_column(table: &mut Node) {
    if let Some(column) = table.columns.last_mut() {
        if column.is_filled {
            column.is_right = true;
        } else {
            column.is_left = true;
        }
    }
}

/// Appends bytes to a text of a node.
fn push_to(words: &mut Words, sink: Sink, piece: &[u8]) -> Result<(), AllocError> {
    match sink {
        Sink::Value | Sink::Lines => push_shown(&mut words.value, piece),
        Sink::Url => push_shown(&mut words.url, piece),
        Sink::Label => push_shown(&mut words.label, piece),
        Sink::Title => push_optional(&mut words.title, piece),
        Sink::Lang => push_optional(&mut words.lang, piece),
        Sink::Meta => push_optional(&mut words.meta, piece),
        Sink::Nowhere | Sink::Phrasing => Ok(()),
    }
}

fn push_optional(word: &mut Option<String>, piece: &[u8]) -> Result<(), AllocError> {
    match word {
        Some(word) => push_shown(word, piece),
        None => Ok(()),
    }
}
