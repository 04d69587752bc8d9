// Paragraphs (CommonMark 4.8).
//
//     paragraph ::= 1*line
//
// It adds `Paragraph` around one linked `Data` a line, which reaches over the line's ending where the paragraph
// continues.

ghost use Rattle.std.specs.Prelude.{◌≡◌, IfOk, IfSome, OnOk, []};
ghost use Rattle.md_content.specs.ParagraphRule.{IsParagraphState};
ghost use Rattle.md_engine.specs.World.{world};
ghost use Rattle.md_engine.specs.declared.event.Name.{Name};
ghost use Rattle.md_engine.specs.declared.state.Name.{Name as StateName};
ghost use Rattle.md_engine.specs.declared.state.State.{State};
ghost use Rattle.md_engine.specs.declared.state.paragraph.State.{State as ParagraphState};
ghost use Rattle.md_content.specs.Paragraph.{paragraph_transition};
ghost use Rattle.md_events.specs.Events.Nested.{enter};
ghost use Rattle.md_events.specs.Stays.{TakesEach};
ghost use Rattle.md_events.specs.Transition.{IsAt, NeedsNothing};

use md_engine::event::{Content, Event, Link, Name};
use md_engine::message::Message;
use md_engine::or_error;
use md_engine::state::paragraph::State as ParagraphState;
use md_engine::state::{Name as StateName, State};
use md_engine::stay::Stay;
use md_engine::tokenizer::Tokenizer;

/// Before a paragraph.
///
/// ```markdown
/// > | a
///     ^
///   | b
/// ```
#[tactic(auto, using(crate::proofs::ParagraphMeaning::paragraph_rule))]
pub fn start(tokenizer: &mut Tokenizer) -> State
    requires { IsAt NeedsNothing (StateName.Paragraph ParagraphState.Start) (world tokenizer.old) }
    ensures { IsParagraphState ParagraphState.Start (world tokenizer.old) result tokenizer.new }
{
    or_error!(tokenizer.enter(Name::Paragraph));
    State::Retry(StateName::Paragraph(ParagraphState::LineStart))
}

/// Before a line.
///
/// ```markdown
/// > | a
///     ^
/// > | b
///     ^
/// ```
#[tactic(auto, using(crate::proofs::ParagraphMeaning::paragraph_rule))]
pub fn line_start(tokenizer: &mut Tokenizer) -> State
    requires { IsAt NeedsNothing (StateName.Paragraph ParagraphState.LineStart) (world tokenizer.old) }
    ensures { IsParagraphState ParagraphState.LineStart (world tokenizer.old) result tokenizer.new }
{
    let link = Link {
        previous: false,
        next: false,
        content: Content::Text,
    };
    or_error!(tokenizer.enter_link(Name::Data, link));
    State::Retry(StateName::Paragraph(ParagraphState::Inside))
}

/// In a line.
///
/// ```markdown
/// > | ab
///     ^^
/// ```
#[tactic(auto, using(crate::proofs::ParagraphMeaning::paragraph_rule))]
pub fn inside(tokenizer: &mut Tokenizer) -> State
    requires { IsAt NeedsNothing (StateName.Paragraph ParagraphState.Inside) (world tokenizer.old) }
    ensures { IsParagraphState ParagraphState.Inside (world tokenizer.old) result tokenizer.new }
{
    match tokenizer.current {
        None => {
            or_error!(tokenizer.exit(Name::Data));
            or_error!(tokenizer.exit(Name::Paragraph));
            State::Ok
        }
        Some(b'\n') => {
            tokenizer.consume();
            or_error!(tokenizer.exit(Name::Data));
            State::Next(StateName::Paragraph(ParagraphState::LineStart))
        }
        _ => {
            tokenizer.consume();
            State::Next(StateName::Paragraph(ParagraphState::Inside))
        }
    }
}

/// Calls a state of a paragraph.
#[tactic(auto, using(crate::proofs::ParagraphMeaning::paragraph_rule))]
pub fn call(tokenizer: &mut Tokenizer, state: ParagraphState) -> State
    requires { IsAt NeedsNothing (StateName.Paragraph state) (world tokenizer.old) }
    ensures { IsParagraphState state (world tokenizer.old) result tokenizer.new }
{
    match state {
        ParagraphState::Start => start(tokenizer),
        ParagraphState::LineStart => line_start(tokenizer),
        ParagraphState::Inside => inside(tokenizer),
    }
}

/// What a state of a paragraph only takes.
pub fn takes_at_once(state: ParagraphState) -> Option<Stay>
    ensures { IfSome result (λ stay. TakesEach stay (StateName.Paragraph state) (paragraph_transition state)) }
{
    match state {
        ParagraphState::Inside => Some(Stay::Line),
        _ => None,
    }
}

/// The event with which a paragraph begins, as the first state adds it at the point of a tokenizer that has no events.
///
/// An `Err` says that memory ran out.
pub fn begin(tokenizer: &mut Tokenizer) -> Result<Event, Message>
    requires events { (world tokenizer.old).events ≡ [] }
    requires frames { (world tokenizer.old).frames ≡ [] }
    ensures event { IfOk result (λ event. event ≡ enter Name.Paragraph event.point) }
    ensures same { OnOk result (world tokenizer.new ≡ record (world tokenizer.old) { events = [] }) }
{
    let current = tokenizer.current;
    tokenizer.current = tokenizer.look();
    if let State::Error = start(tokenizer) {
        return Err(Message);
    }
    let mut events = tokenizer.take_events();
    let [first] = events.as_slice() else {
        return Err(Message);
    };
    let begin = *first;
    events.clear();
    tokenizer.set_events(events);
    tokenizer.current = current;
    Ok(begin)
}
