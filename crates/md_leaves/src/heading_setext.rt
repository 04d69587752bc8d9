// Setext headings (CommonMark 4.3).
//
//     heading_setext ::= paragraph eol underline
//     underline      ::= small_indent ( 1*'=' | 1*'-' ) *space_or_tab
//
// A line that is an underline turns the text that is open before it into a heading, or what is left of that after its
// definitions. Where nothing is left the line is a line of the text. The states add `HeadingSetextUnderline` around the
// run, `HeadingSetextUnderlineSequence`, and `SpaceOrTab`. When all of the text is read, a resolver puts
// `HeadingSetext` around that and the paragraph in front, which becomes `HeadingSetextText`.

ghost use Rattle.std.specs.Prelude.{◌≡◌, ◌&&◌, IfSome};
ghost use Rattle.md_leaves.specs.HeadingSetextRule.{IsSetextState};
ghost use Rattle.md_engine.specs.Progress.{is_whole};
ghost use Rattle.md_engine.specs.World.{world};
ghost use Rattle.md_engine.specs.declared.state.Name.{Name as StateName};
ghost use Rattle.md_engine.specs.declared.state.State.{State};
ghost use Rattle.md_engine.specs.declared.state.heading_setext.State.{State as SetextState};
ghost use Rattle.md_leaves.specs.HeadingSetext.{SetextNeeds};
ghost use Rattle.md_leaves.specs.HeadingSetext.{is_marker, may_begin, may_turn, setext_transition};
ghost use Rattle.md_leaves.specs.HeadingSetext.{turns_nothing};
ghost use Rattle.md_events.specs.Look.{may_with};
ghost use Rattle.md_events.specs.Stays.{TakesEach};
ghost use Rattle.md_events.specs.Transition.{IsAt};

use crate::leaf_start::start_leaf;
use md_engine::configuration::ParseOptions;
use md_engine::event::Name;
use md_engine::or_error;
use md_engine::state::heading_setext::State as SetextState;
use md_engine::state::{Name as StateName, State};
use md_engine::stay::Stay;
use md_engine::tokenizer::{HeldLeaf, Progress, Tokenizer};
use md_events::space_or_tab::{is_space_or_tab, space_or_tab_min_max};

/// Whether this is a marker of an underline.
fn is_marker(byte: u8) -> bool
    ensures { result ≡ is_marker byte }
{
    byte == b'=' || byte == b'-'
}

/// Whether all lines of a text so far are whole definitions.
pub fn is_whole(progress: Progress) -> bool
    ensures { result ≡ is_whole progress }
{
    matches!(progress, Progress::Fresh | Progress::Untitled)
}

/// Whether an underline that meets this leaf turns it: it is text for which the line is not lazy, and something is left
/// of it after its definitions.
pub fn may_turn(options: &ParseOptions, leaf: HeldLeaf) -> bool
    ensures { result ≡ may_turn options.now leaf }
{
    match leaf {
        HeldLeaf::Text(text) => !(options.constructs.definition && is_whole(text.progress)),
        _ => false,
    }
}

/// Whether this leaf is text for which a line is not lazy, and nothing of it is left that an underline could turn: an
/// underline is a line of it then.
pub fn turns_nothing(options: &ParseOptions, leaf: HeldLeaf) -> bool
    ensures { result ≡ turns_nothing options.now leaf }
{
    match leaf {
        HeldLeaf::Text(text) => {
            options.constructs.heading_setext
                && options.constructs.definition
                && is_whole(text.progress)
        }
        _ => false,
    }
}

/// Whether an underline may begin here, by what is first after whitespace: a marker, if that is known.
pub fn may_begin(first: Option<u8>) -> bool
    ensures { result ≡ may_with may_begin first }
{
    match first {
        Some(byte) => is_marker(byte),
        None => true,
    }
}

/// Before an underline.
///
/// ```markdown
///   | aa
/// > | ==
///     ^
/// ```
#[tactic(auto, using(crate::proofs::SetextMeaning::setext_rule))]
pub fn start(tokenizer: &mut Tokenizer) -> State
    requires { IsAt SetextNeeds (StateName.HeadingSetext SetextState.Start) (world tokenizer.old) }
    ensures { IsSetextState SetextState.Start (world tokenizer.old) result tokenizer.new }
{
    let is_on = tokenizer.options.constructs.heading_setext
        && may_turn(tokenizer.options, tokenizer.flags.leaf);
    start_leaf(
        tokenizer,
        is_on,
        Name::HeadingSetextUnderline,
        StateName::HeadingSetext(SetextState::Before),
    )
}

/// After the indent, at a marker.
///
/// ```markdown
///   | aa
/// > | ==
///     ^
/// ```
#[tactic(auto, using(crate::proofs::SetextMeaning::setext_rule))]
pub fn before(tokenizer: &mut Tokenizer) -> State
    requires { IsAt SetextNeeds (StateName.HeadingSetext SetextState.Before) (world tokenizer.old) }
    ensures { IsSetextState SetextState.Before (world tokenizer.old) result tokenizer.new }
{
    match tokenizer.current {
        Some(byte) if is_marker(byte) => {
            or_error!(tokenizer.enter(Name::HeadingSetextUnderlineSequence));
            tokenizer.scratch.marker = byte;
            State::Retry(StateName::HeadingSetext(SetextState::Inside))
        }
        _ => State::Nok,
    }
}

/// In the run of markers.
///
/// ```markdown
///   | aa
/// > | ==
///     ^^
/// ```
#[tactic(auto, using(crate::proofs::SetextMeaning::setext_rule))]
pub fn inside(tokenizer: &mut Tokenizer) -> State
    requires { IsAt SetextNeeds (StateName.HeadingSetext SetextState.Inside) (world tokenizer.old) }
    ensures { IsSetextState SetextState.Inside (world tokenizer.old) result tokenizer.new }
{
    if tokenizer.current == Some(tokenizer.scratch.marker) {
        tokenizer.consume();
        tokenizer.scratch.size += 1;
        return State::Next(StateName::HeadingSetext(SetextState::Inside));
    }
    tokenizer.scratch.marker = 0;
    tokenizer.scratch.size = 0;
    or_error!(tokenizer.exit(Name::HeadingSetextUnderlineSequence));
    if is_space_or_tab(tokenizer.current) {
        space_or_tab_min_max(
            tokenizer,
            0,
            usize::MAX,
            State::Next(StateName::HeadingSetext(SetextState::After)),
            State::Nok,
        )
    } else {
        State::Retry(StateName::HeadingSetext(SetextState::After))
    }
}

/// After the run and whitespace, at the end of the line.
///
/// ```markdown
///   | aa
/// > | ==
///       ^
/// ```
#[tactic(auto, using(crate::proofs::SetextMeaning::setext_rule))]
pub fn after(tokenizer: &mut Tokenizer) -> State
    requires { IsAt SetextNeeds (StateName.HeadingSetext SetextState.After) (world tokenizer.old) }
    ensures { IsSetextState SetextState.After (world tokenizer.old) result tokenizer.new }
{
    match tokenizer.current {
        None | Some(b'\n') => {
            or_error!(tokenizer.exit(Name::HeadingSetextUnderline));
            tokenizer.flags.leaf = HeldLeaf::None;
            State::Ok
        }
        _ => State::Nok,
    }
}

/// What a state of an underline only takes and counts.
pub fn takes_at_once(state: SetextState) -> Option<Stay>
    ensures { IfSome result (λ stay. TakesEach stay (StateName.HeadingSetext state) (setext_transition state)) }
{
    match state {
        SetextState::Inside => Some(Stay::Markers),
        _ => None,
    }
}

/// Calls a state of an underline.
#[tactic(auto, using(crate::proofs::SetextMeaning::setext_rule))]
pub fn call(tokenizer: &mut Tokenizer, state: SetextState) -> State
    requires { IsAt SetextNeeds (StateName.HeadingSetext state) (world tokenizer.old) }
    ensures { IsSetextState state (world tokenizer.old) result tokenizer.new }
{
    match state {
        SetextState::Start => start(tokenizer),
        SetextState::Before => before(tokenizer),
        SetextState::Inside => inside(tokenizer),
        SetextState::After => after(tokenizer),
    }
}
