// The rest of a complete tag (CommonMark 6.6), after its name: its attributes, its end, and nothing but whitespace.

ghost use Rattle.md_literal.specs.HtmlRule.{IsSureHtmlState};
ghost use Rattle.md_engine.specs.World.{world};
ghost use Rattle.md_engine.specs.declared.state.Name.{Name as StateName};
ghost use Rattle.md_engine.specs.declared.state.html_flow.State.{State as HtmlState};
ghost use Rattle.md_literal.specs.Html.{HtmlNeeds};
ghost use Rattle.md_events.specs.Transition.{IsAt};

use crate::html_flow::parts::{
    begin_here, begins_attribute, clear_to, is_attribute_byte, is_value_byte, marked, refuse,
    take_clear_to,
};
use md_engine::state::html_flow::State as HtmlState;
use md_engine::state::{Name as StateName, State};
use md_engine::tokenizer::{HtmlKind, Tokenizer};
use md_events::space_or_tab::is_space_or_tab;

/// After the name of a closing tag.
///
/// ```markdown
/// > | </x >
///        ^
/// ```
#[tactic(auto, using(crate::proofs::HtmlMeaning::html_rule))]
pub fn complete_closing_tag_after(tokenizer: &mut Tokenizer) -> State
    requires { IsAt HtmlNeeds (StateName.HtmlFlow HtmlState.CompleteClosingTagAfter) (world tokenizer.old) }
    ensures { IsSureHtmlState HtmlState.CompleteClosingTagAfter (world tokenizer.old) result tokenizer.new }
{
    if is_space_or_tab(tokenizer.current) {
        tokenizer.consume();
        State::Next(StateName::HtmlFlow(HtmlState::CompleteClosingTagAfter))
    } else {
        State::Retry(StateName::HtmlFlow(HtmlState::CompleteEnd))
    }
}

/// Before an attribute or the end of the tag. An attribute has whitespace in front.
///
/// ```markdown
/// > | <a b>
///       ^^
/// > | <a />
///       ^^
/// ```
#[tactic(auto, using(crate::proofs::HtmlMeaning::html_rule))]
pub fn complete_attribute_name_before(tokenizer: &mut Tokenizer) -> State
    requires { IsAt HtmlNeeds (StateName.HtmlFlow HtmlState.CompleteAttributeNameBefore) (world tokenizer.old) }
    ensures { IsSureHtmlState HtmlState.CompleteAttributeNameBefore (world tokenizer.old) result tokenizer.new }
{
    match tokenizer.current {
        Some(b'\t' | b' ') => {
            tokenizer.consume();
            tokenizer.scratch.seen = true;
            State::Next(StateName::HtmlFlow(HtmlState::CompleteAttributeNameBefore))
        }
        Some(b'/') => take_clear_to(tokenizer, HtmlState::CompleteEnd),
        Some(byte) if begins_attribute(byte) && tokenizer.scratch.seen => {
            take_clear_to(tokenizer, HtmlState::CompleteAttributeName)
        }
        _ => clear_to(tokenizer, HtmlState::CompleteEnd),
    }
}

/// In the name of an attribute.
///
/// ```markdown
/// > | <a bc>
///         ^
/// ```
#[tactic(auto, using(crate::proofs::HtmlMeaning::html_rule))]
pub fn complete_attribute_name(tokenizer: &mut Tokenizer) -> State
    requires { IsAt HtmlNeeds (StateName.HtmlFlow HtmlState.CompleteAttributeName) (world tokenizer.old) }
    ensures { IsSureHtmlState HtmlState.CompleteAttributeName (world tokenizer.old) result tokenizer.new }
{
    match tokenizer.current {
        Some(byte) if is_attribute_byte(byte) => {
            tokenizer.consume();
            State::Next(StateName::HtmlFlow(HtmlState::CompleteAttributeName))
        }
        _ => clear_to(tokenizer, HtmlState::CompleteAttributeNameAfter),
    }
}

/// After it: whitespace may be before `=`, or of another attribute.
///
/// ```markdown
/// > | <a b=c>
///         ^
/// ```
#[tactic(auto, using(crate::proofs::HtmlMeaning::html_rule))]
pub fn complete_attribute_name_after(tokenizer: &mut Tokenizer) -> State
    requires { IsAt HtmlNeeds (StateName.HtmlFlow HtmlState.CompleteAttributeNameAfter) (world tokenizer.old) }
    ensures { IsSureHtmlState HtmlState.CompleteAttributeNameAfter (world tokenizer.old) result tokenizer.new }
{
    match tokenizer.current {
        Some(b'\t' | b' ') => {
            tokenizer.consume();
            tokenizer.scratch.seen = true;
            State::Next(StateName::HtmlFlow(HtmlState::CompleteAttributeNameAfter))
        }
        Some(b'=') => take_clear_to(tokenizer, HtmlState::CompleteAttributeValueBefore),
        _ => State::Retry(StateName::HtmlFlow(HtmlState::CompleteAttributeNameBefore)),
    }
}

/// Before a value.
///
/// ```markdown
/// > | <a b=c>
///          ^
/// > | <a b="c">
///          ^
/// ```
#[tactic(auto, using(crate::proofs::HtmlMeaning::html_rule))]
pub fn complete_attribute_value_before(tokenizer: &mut Tokenizer) -> State
    requires { IsAt HtmlNeeds (StateName.HtmlFlow HtmlState.CompleteAttributeValueBefore) (world tokenizer.old) }
    ensures { IsSureHtmlState HtmlState.CompleteAttributeValueBefore (world tokenizer.old) result tokenizer.new }
{
    match tokenizer.current {
        None | Some(b'\n') => refuse(tokenizer),
        Some(b'\t' | b' ') => {
            tokenizer.consume();
            State::Next(StateName::HtmlFlow(HtmlState::CompleteAttributeValueBefore))
        }
        Some(quote @ (b'"' | b'\'')) => {
            tokenizer.consume();
            tokenizer.scratch = marked(quote, tokenizer.scratch);
            State::Next(StateName::HtmlFlow(HtmlState::CompleteAttributeValueQuoted))
        }
        Some(byte) => {
            if is_value_byte(byte) {
                State::Retry(StateName::HtmlFlow(HtmlState::CompleteAttributeValueUnquoted))
            } else {
                refuse(tokenizer)
            }
        }
    }
}

/// In a value in quotes, which are kept as the marker.
///
/// ```markdown
/// > | <a b="c">
///           ^
/// ```
#[tactic(auto, using(crate::proofs::HtmlMeaning::html_rule))]
pub fn complete_attribute_value_quoted(tokenizer: &mut Tokenizer) -> State
    requires { IsAt HtmlNeeds (StateName.HtmlFlow HtmlState.CompleteAttributeValueQuoted) (world tokenizer.old) }
    ensures { IsSureHtmlState HtmlState.CompleteAttributeValueQuoted (world tokenizer.old) result tokenizer.new }
{
    match tokenizer.current {
        None | Some(b'\n') => refuse(tokenizer),
        Some(byte) => {
            if byte == tokenizer.scratch.marker {
                take_clear_to(tokenizer, HtmlState::CompleteAttributeValueQuotedAfter)
            } else {
                tokenizer.consume();
                State::Next(StateName::HtmlFlow(HtmlState::CompleteAttributeValueQuoted))
            }
        }
    }
}

/// In a value without quotes.
///
/// ```markdown
/// > | <a b=c>
///          ^
/// ```
#[tactic(auto, using(crate::proofs::HtmlMeaning::html_rule))]
pub fn complete_attribute_value_unquoted(tokenizer: &mut Tokenizer) -> State
    requires { IsAt HtmlNeeds (StateName.HtmlFlow HtmlState.CompleteAttributeValueUnquoted) (world tokenizer.old) }
    ensures { IsSureHtmlState HtmlState.CompleteAttributeValueUnquoted (world tokenizer.old) result tokenizer.new }
{
    match tokenizer.current {
        Some(byte) if byte != b'\n' && is_value_byte(byte) => {
            tokenizer.consume();
            State::Next(StateName::HtmlFlow(HtmlState::CompleteAttributeValueUnquoted))
        }
        _ => clear_to(tokenizer, HtmlState::CompleteAttributeNameBefore),
    }
}

/// After a value in quotes.
///
/// ```markdown
/// > | <a b="c">
///             ^
/// ```
#[tactic(auto, using(crate::proofs::HtmlMeaning::html_rule))]
pub fn complete_attribute_value_quoted_after(tokenizer: &mut Tokenizer) -> State
    requires { IsAt HtmlNeeds (StateName.HtmlFlow HtmlState.CompleteAttributeValueQuotedAfter) (world tokenizer.old) }
    ensures { IsSureHtmlState HtmlState.CompleteAttributeValueQuotedAfter (world tokenizer.old) result tokenizer.new }
{
    clear_to(tokenizer, HtmlState::CompleteAttributeNameBefore)
}

/// At the `>` of a tag.
///
/// ```markdown
/// > | <a b="c">
///             ^
/// ```
#[tactic(auto, using(crate::proofs::HtmlMeaning::html_rule))]
pub fn complete_end(tokenizer: &mut Tokenizer) -> State
    requires { IsAt HtmlNeeds (StateName.HtmlFlow HtmlState.CompleteEnd) (world tokenizer.old) }
    ensures { IsSureHtmlState HtmlState.CompleteEnd (world tokenizer.old) result tokenizer.new }
{
    if tokenizer.current == Some(b'>') {
        tokenizer.consume();
        State::Next(StateName::HtmlFlow(HtmlState::CompleteAfter))
    } else {
        refuse(tokenizer)
    }
}

/// After a tag, where nothing but whitespace may be.
///
/// ```markdown
/// > | <x>
///        ^
/// ```
#[tactic(auto, using(crate::proofs::HtmlMeaning::html_rule))]
pub fn complete_after(tokenizer: &mut Tokenizer) -> State
    requires { IsAt HtmlNeeds (StateName.HtmlFlow HtmlState.CompleteAfter) (world tokenizer.old) }
    ensures { IsSureHtmlState HtmlState.CompleteAfter (world tokenizer.old) result tokenizer.new }
{
    match tokenizer.current {
        None | Some(b'\n') => begin_here(
            tokenizer,
            HtmlKind::Complete,
            HtmlState::ContinuationClose,
        ),
        Some(b'\t' | b' ') => {
            tokenizer.consume();
            State::Next(StateName::HtmlFlow(HtmlState::CompleteAfter))
        }
        Some(_) => refuse(tokenizer),
    }
}
