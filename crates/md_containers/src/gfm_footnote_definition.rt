// Footnote definitions (own choice, as on GitHub).
//
//     gfm_footnote_definition ::= small_indent '[' '^' label ']' ':' [ space_or_tab ]
//     label                   ::= 1*999( pair | any but '[', ']', space, tab and eol )
//     pair                    ::= '\' ( '[' | ']' | '\' )
//
// Pairs are read from left to right, and each byte of one counts. `start` adds the begin of `GfmFootnoteDefinition`
// before the indent. Then is the indent, and `GfmFootnoteDefinitionPrefix` around `GfmFootnoteDefinitionLabel`,
// `DefinitionMarker` and all whitespace after it. In the label are `GfmFootnoteDefinitionLabelMarker`,
// `GfmFootnoteDefinitionMarker`, `GfmFootnoteDefinitionLabelString` around one linked `Data`, and
// `GfmFootnoteDefinitionLabelMarker`.
//
// A further line continues if its indent is 4 columns at least, and loses these; a blank one always, and loses at most
// as many. That is what an item of this width asks for that did not start blank; so the states of an item read it.

ghost use Rattle.std.specs.Prelude.{◌≡◌, ◌≢◌, ◌<◌, ◌==◌, length};
ghost use Rattle.md_containers.specs.FootnoteRule.{IsFootnoteState, IsSureFootnoteState};
ghost use Rattle.md_engine.specs.Full.{IsFull, OnError};
ghost use Rattle.md_engine.specs.World.{world};
ghost use Rattle.md_engine.specs.declared.state.Name.{Name as StateName};
ghost use Rattle.md_engine.specs.declared.state.State.{State};
ghost use Rattle.md_engine.specs.declared.state.gfm_footnote_definition.State.{State as FootnoteState};
ghost use Rattle.md_containers.specs.Footnote.{breaks_label, closed_code};
ghost use Rattle.md_containers.specs.Footnote.{may_begin, refused, taken_as};
ghost use Rattle.md_meaning.specs.Containers.{is_label_mark};
ghost use Rattle.md_events.specs.Look.{may_with};
ghost use Rattle.md_events.specs.Transition.{IsAt, NeedsNothing};

pub use crate::list_item::{cont_blank, cont_filled, cont_start};
use md_engine::event::{Content, Link, Name};
use md_engine::or_error;
use md_engine::state::gfm_footnote_definition::State as FootnoteState;
use md_engine::state::{Name as StateName, State};
use md_engine::tokenizer::Tokenizer;
use md_events::space_or_tab::{is_space_or_tab, small_indent, space_or_tab, space_or_tab_min_max};

/// A label has at most so many bytes.
const MOST: usize = 999;

/// A further line loses so many columns.
const WIDTH: usize = 4;

/// Whether a backslash takes this.
fn is_label_mark(byte: u8) -> bool
    ensures { result ≡ is_label_mark byte }
{
    byte == b'[' || byte == b'\\' || byte == b']'
}

/// Whether this may not be in a label, unless a backslash takes it.
fn breaks_label(byte: u8) -> bool
    ensures { result ≡ breaks_label byte }
{
    byte == b'[' || byte == b' ' || byte == b'\t' || byte == b'\n'
}

/// Whether a footnote definition may open here, by what is first after whitespace: `[`, if that is known.
pub fn may_begin(first: Option<u8>) -> bool
    ensures { result ≡ may_with may_begin first }
{
    matches!(first, None | Some(b'['))
}

/// Before a footnote definition.
///
/// ```markdown
/// > | [^a]: b
///     ^
/// ```
#[tactic(auto, using(crate::proofs::FootnoteMeaning::footnote_rule))]
pub fn start(tokenizer: &mut Tokenizer) -> State
    requires { IsAt NeedsNothing (StateName.GfmFootnoteDefinition FootnoteState.Start) (world tokenizer.old) }
    ensures { IsFootnoteState FootnoteState.Start (world tokenizer.old) result tokenizer.new }
{
    if !tokenizer.options.constructs.gfm_footnote_definition {
        return State::Nok;
    }
    or_error!(tokenizer.enter(Name::GfmFootnoteDefinition));
    if is_space_or_tab(tokenizer.current) {
        let max = small_indent(tokenizer);
        space_or_tab_min_max(
            tokenizer,
            0,
            max,
            State::Next(StateName::GfmFootnoteDefinition(FootnoteState::LabelBefore)),
            State::Nok,
        )
    } else {
        State::Retry(StateName::GfmFootnoteDefinition(FootnoteState::LabelBefore))
    }
}

/// After the indent, at `[`.
///
/// ```markdown
/// > | [^a]: b
///     ^
/// ```
#[tactic(auto, using(crate::proofs::FootnoteMeaning::footnote_rule))]
pub fn label_before(tokenizer: &mut Tokenizer) -> State
    requires { IsAt NeedsNothing (StateName.GfmFootnoteDefinition FootnoteState.LabelBefore) (world tokenizer.old) }
    ensures { IsFootnoteState FootnoteState.LabelBefore (world tokenizer.old) result tokenizer.new }
{
    if tokenizer.current != Some(b'[') {
        return State::Nok;
    }
    or_error!(tokenizer.enter(Name::GfmFootnoteDefinitionPrefix));
    or_error!(tokenizer.enter(Name::GfmFootnoteDefinitionLabel));
    or_error!(tokenizer.enter(Name::GfmFootnoteDefinitionLabelMarker));
    tokenizer.consume();
    or_error!(tokenizer.exit(Name::GfmFootnoteDefinitionLabelMarker));
    State::Next(StateName::GfmFootnoteDefinition(FootnoteState::LabelAtMarker))
}

/// After `[`, at `^`.
///
/// ```markdown
/// > | [^a]: b
///      ^
/// ```
#[tactic(auto, using(crate::proofs::FootnoteMeaning::footnote_rule))]
pub fn label_at_marker(tokenizer: &mut Tokenizer) -> State
    requires { IsAt NeedsNothing (StateName.GfmFootnoteDefinition FootnoteState.LabelAtMarker) (world tokenizer.old) }
    ensures { IsFootnoteState FootnoteState.LabelAtMarker (world tokenizer.old) result tokenizer.new }
{
    if tokenizer.current != Some(b'^') {
        return State::Nok;
    }
    let link = Link {
        previous: false,
        next: false,
        content: Content::String,
    };
    or_error!(tokenizer.enter(Name::GfmFootnoteDefinitionMarker));
    tokenizer.consume();
    or_error!(tokenizer.exit(Name::GfmFootnoteDefinitionMarker));
    or_error!(tokenizer.enter(Name::GfmFootnoteDefinitionLabelString));
    or_error!(tokenizer.enter_link(Name::Data, link));
    State::Next(StateName::GfmFootnoteDefinition(FootnoteState::LabelInside))
}

/// Refuses, at rest.
fn refuse(tokenizer: &mut Tokenizer) -> State
    ensures to { result ≡ State.Nok }
    ensures world { world tokenizer.new ≡ (refused (world tokenizer.old)).world }
{
    tokenizer.scratch.size = 0;
    State::Nok
}

/// Takes a byte of the label, if there is room for it.
fn take(tokenizer: &mut Tokenizer, state: FootnoteState) -> State
    requires { (world tokenizer.old).point.index < length (world tokenizer.old).setting.bytes }
    ensures to { result ≡ (taken_as (world tokenizer.old) state).to }
    ensures world { world tokenizer.new ≡ (taken_as (world tokenizer.old) state).world }
{
    if tokenizer.scratch.size >= MOST {
        return refuse(tokenizer);
    }
    tokenizer.consume();
    tokenizer.scratch.size += 1;
    State::Next(StateName::GfmFootnoteDefinition(state))
}

/// At the `]` that ends the label, if something is in it.
fn close(tokenizer: &mut Tokenizer) -> State
    requires { (world tokenizer.old).point.index < length (world tokenizer.old).setting.bytes }
    ensures to { result ≢ State.Error →
        result ≡ (closed_code (world tokenizer.old) ((world tokenizer.old).scratch.size == 0)).to }
    ensures world { result ≢ State.Error →
        world tokenizer.new ≡ (closed_code (world tokenizer.old) ((world tokenizer.old).scratch.size == 0)).world }
    ensures full { OnError result (IsFull tokenizer.new) }
{
    if tokenizer.scratch.size == 0 {
        return refuse(tokenizer);
    }
    or_error!(tokenizer.exit(Name::Data));
    or_error!(tokenizer.exit(Name::GfmFootnoteDefinitionLabelString));
    or_error!(tokenizer.enter(Name::GfmFootnoteDefinitionLabelMarker));
    tokenizer.consume();
    or_error!(tokenizer.exit(Name::GfmFootnoteDefinitionLabelMarker));
    or_error!(tokenizer.exit(Name::GfmFootnoteDefinitionLabel));
    tokenizer.scratch.size = 0;
    State::Next(StateName::GfmFootnoteDefinition(FootnoteState::LabelAfter))
}

/// In the label.
///
/// ```markdown
/// > | [^a]: b
///       ^
/// ```
#[tactic(auto, using(crate::proofs::FootnoteMeaning::footnote_rule))]
pub fn label_inside(tokenizer: &mut Tokenizer) -> State
    requires { IsAt NeedsNothing (StateName.GfmFootnoteDefinition FootnoteState.LabelInside) (world tokenizer.old) }
    ensures { IsFootnoteState FootnoteState.LabelInside (world tokenizer.old) result tokenizer.new }
{
    let Some(byte) = tokenizer.current else {
        return refuse(tokenizer);
    };
    if byte == b']' {
        return close(tokenizer);
    }
    if breaks_label(byte) {
        return refuse(tokenizer);
    }
    if byte == b'\\' {
        return take(tokenizer, FootnoteState::LabelEscape);
    }
    take(tokenizer, FootnoteState::LabelInside)
}

/// After `\`.
///
/// ```markdown
/// > | [^\]]: b
///        ^
/// ```
#[tactic(auto, using(crate::proofs::FootnoteMeaning::footnote_rule))]
pub fn label_escape(tokenizer: &mut Tokenizer) -> State
    requires { IsAt NeedsNothing (StateName.GfmFootnoteDefinition FootnoteState.LabelEscape) (world tokenizer.old) }
    ensures { IsSureFootnoteState FootnoteState.LabelEscape (world tokenizer.old) result tokenizer.new }
{
    match tokenizer.current {
        Some(byte) if is_label_mark(byte) => take(tokenizer, FootnoteState::LabelInside),
        _ => State::Retry(StateName::GfmFootnoteDefinition(FootnoteState::LabelInside)),
    }
}

/// After the label, at `:`.
///
/// ```markdown
/// > | [^a]: b
///         ^
/// ```
#[tactic(auto, using(crate::proofs::FootnoteMeaning::footnote_rule))]
pub fn label_after(tokenizer: &mut Tokenizer) -> State
    requires { IsAt NeedsNothing (StateName.GfmFootnoteDefinition FootnoteState.LabelAfter) (world tokenizer.old) }
    ensures { IsFootnoteState FootnoteState.LabelAfter (world tokenizer.old) result tokenizer.new }
{
    if tokenizer.current != Some(b':') {
        return State::Nok;
    }
    or_error!(tokenizer.enter(Name::DefinitionMarker));
    tokenizer.consume();
    or_error!(tokenizer.exit(Name::DefinitionMarker));
    State::Next(StateName::GfmFootnoteDefinition(FootnoteState::MarkerAfter))
}

/// After `:`. All whitespace that follows belongs to the prefix.
///
/// ```markdown
/// > | [^a]: b
///          ^
/// ```
#[tactic(auto, using(crate::proofs::FootnoteMeaning::footnote_rule))]
pub fn marker_after(tokenizer: &mut Tokenizer) -> State
    requires { IsAt NeedsNothing (StateName.GfmFootnoteDefinition FootnoteState.MarkerAfter) (world tokenizer.old) }
    ensures { IsFootnoteState FootnoteState.MarkerAfter (world tokenizer.old) result tokenizer.new }
{
    if is_space_or_tab(tokenizer.current) {
        space_or_tab(
            tokenizer,
            State::Next(StateName::GfmFootnoteDefinition(FootnoteState::WhitespaceAfter)),
            State::Nok,
        )
    } else {
        State::Retry(StateName::GfmFootnoteDefinition(FootnoteState::WhitespaceAfter))
    }
}

/// After the prefix: the footnote definition opens.
///
/// ```markdown
/// > | [^a]: b
///           ^
/// ```
#[tactic(auto, using(crate::proofs::FootnoteMeaning::footnote_rule))]
pub fn whitespace_after(tokenizer: &mut Tokenizer) -> State
    requires { IsAt NeedsNothing (StateName.GfmFootnoteDefinition FootnoteState.WhitespaceAfter)
        (world tokenizer.old) }
    ensures { IsFootnoteState FootnoteState.WhitespaceAfter (world tokenizer.old) result tokenizer.new }
{
    tokenizer.flags.asked.width = WIDTH;
    tokenizer.flags.asked.starts_blank = false;
    or_error!(tokenizer.exit(Name::GfmFootnoteDefinitionPrefix));
    State::Ok
}

/// Calls a state of a footnote definition.
#[tactic(auto, using(crate::proofs::FootnoteMeaning::footnote_rule))]
pub fn call(tokenizer: &mut Tokenizer, state: FootnoteState) -> State
    requires { IsAt NeedsNothing (StateName.GfmFootnoteDefinition state) (world tokenizer.old) }
    ensures { IsFootnoteState state (world tokenizer.old) result tokenizer.new }
{
    match state {
        FootnoteState::Start => start(tokenizer),
        FootnoteState::LabelBefore => label_before(tokenizer),
        FootnoteState::LabelAtMarker => label_at_marker(tokenizer),
        FootnoteState::LabelInside => label_inside(tokenizer),
        FootnoteState::LabelEscape => label_escape(tokenizer),
        FootnoteState::LabelAfter => label_after(tokenizer),
        FootnoteState::MarkerAfter => marker_after(tokenizer),
        FootnoteState::WhitespaceAfter => whitespace_after(tokenizer),
    }
}
