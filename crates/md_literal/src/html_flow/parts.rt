// What the states of HTML share: bytes of tags, the byte with which the end of a kind begins, and how they continue.

ghost use Rattle.std.specs.Prelude.{◌≡◌, ◌≢◌, ◌<◌, length};
ghost use Rattle.md_meaning.specs.Leaves as definition;
ghost use Rattle.md_engine.specs.Full.{IsFull, OnError};
ghost use Rattle.md_engine.specs.World.{world};
ghost use Rattle.md_engine.specs.declared.state.Name.{Name as StateName};
ghost use Rattle.md_engine.specs.declared.state.State.{State};
ghost use Rattle.md_literal.specs.Html.{data_ended, cdata_byte, cleared, ends_in_front, is_open_text, marked, moved};
ghost use Rattle.md_literal.specs.Html.{name_here, sees_letter, sees_tag_byte, shut, stop_byte, stop_of, takes_as};
ghost use Rattle.md_literal.specs.Html.{turns_as};
ghost use Rattle.md_meaning.specs.Html.{begins_attribute, is_attribute_byte, is_tag_byte, is_value_byte};
ghost use Rattle.md_events.specs.Transition.{taken};

use md_engine::event::Name;
use md_engine::or_error;
use md_engine::state::html_flow::State as HtmlState;
use md_engine::state::{Name as StateName, State};
use md_engine::tokenizer::{HeldLeaf, HtmlKind, Scratch, Tokenizer};

/// Whether the sixth or the seventh kind ends before a blank line; the others end with a line.
pub fn ends_at_blank(kind: HtmlKind) -> bool
    ensures { result ≡ definition.ends_at_blank kind }
{
    matches!(kind, HtmlKind::Basic | HtmlKind::Complete)
}

/// The byte with which the end of a kind begins, if it has one.
pub fn stop_byte(kind: HtmlKind) -> u8
    ensures { result ≡ stop_byte kind }
{
    match kind {
        HtmlKind::Raw => b'<',
        HtmlKind::Comment => b'-',
        HtmlKind::Instruction => b'?',
        HtmlKind::Declaration => b'>',
        HtmlKind::Cdata => b']',
        HtmlKind::Basic | HtmlKind::Complete => 0,
    }
}

/// That of the open block,
pub fn stop_of(leaf: HeldLeaf) -> u8
    ensures { result ≡ stop_of leaf }
{
    match leaf {
        HeldLeaf::Html { kind } => stop_byte(kind),
        _ => 0,
    }
}

/// and whether that ends before a blank line.
pub fn ends_in_front(leaf: HeldLeaf) -> bool
    ensures { result ≡ ends_in_front leaf }
{
    match leaf {
        HeldLeaf::Html { kind } => ends_at_blank(kind),
        _ => false,
    }
}

/// Whether text is open, which the seventh kind does not interrupt; a lazy line interrupts none.
pub fn is_open_text(leaf: HeldLeaf) -> bool
    ensures { result ≡ is_open_text leaf }
{
    matches!(leaf, HeldLeaf::Text(_))
}

/// A byte of `CDATA[`.
pub fn cdata_byte(index: usize) -> u8
    ensures { result ≡ cdata_byte index }
{
    match index {
        0 => b'C',
        1 => b'D',
        2 | 4 => b'A',
        3 => b'T',
        _ => b'[',
    }
}

/// A byte of a tag name,
pub fn is_tag_byte(byte: u8) -> bool
    ensures { result ≡ is_tag_byte byte }
{
    byte.is_ascii_alphanumeric() || byte == b'-'
}

/// the first one of an attribute's name,
pub fn begins_attribute(byte: u8) -> bool
    ensures { result ≡ begins_attribute byte }
{
    byte.is_ascii_alphabetic() || byte == b'_' || byte == b':'
}

/// a further one,
pub fn is_attribute_byte(byte: u8) -> bool
    ensures { result ≡ is_attribute_byte byte }
{
    byte.is_ascii_alphanumeric() || byte == b'_' || byte == b'.' || byte == b':' || byte == b'-'
}

/// and one of a value without quotes.
pub fn is_value_byte(byte: u8) -> bool
    ensures { result ≡ is_value_byte byte }
{
    !matches!(
        byte,
        b' ' | b'\t' | b'"' | b'\'' | b'=' | b'<' | b'>' | b'`'
    )
}

/// Whether a byte of a tag name is here,
pub fn sees_tag_byte(current: Option<u8>) -> bool
    ensures { result ≡ sees_tag_byte current }
{
    match current {
        None => false,
        Some(byte) => is_tag_byte(byte),
    }
}

/// and whether a letter does.
pub fn sees_letter(current: Option<u8>) -> bool
    ensures { result ≡ sees_letter current }
{
    match current {
        None => false,
        Some(byte) => byte.is_ascii_alphabetic(),
    }
}

/// Without what a part keeps. Fields are set one by one, which takes fewer instructions than `..scratch`.
pub fn cleared(mut scratch: Scratch) -> Scratch
    ensures { result ≡ cleared scratch }
{
    scratch.marker = 0;
    scratch.size = 0;
    scratch.start = 0;
    scratch.seen = false;
    scratch
}

/// With a marker alone.
pub fn marked(marker: u8, scratch: Scratch) -> Scratch
    ensures { result ≡ marked marker scratch }
{
    let mut scratch = cleared(scratch);
    scratch.marker = marker;
    scratch
}

/// What was read of a name.
pub fn name_here<'a>(tokenizer: &Tokenizer<'a>) -> &'a [u8]
    ensures { result.now ≡ name_here (world tokenizer.now) }
{
    let text = tokenizer.bytes;
    let name = text.get(tokenizer.scratch.start..tokenizer.point.index);
    name.unwrap_or(&[])
}

/// Refuses, at rest.
pub fn refuse(tokenizer: &mut Tokenizer) -> State
    ensures to { result ≡ State.Nok }
    ensures world { world tokenizer.new ≡
        record (world tokenizer.old) { scratch = cleared (world tokenizer.old).scratch } }
{
    tokenizer.scratch = cleared(tokenizer.scratch);
    State::Nok
}

/// The kind is known: it continues here,
pub fn begin_here(tokenizer: &mut Tokenizer, kind: HtmlKind, state: HtmlState) -> State
    ensures to { result ≡ (moved (world tokenizer.old) (turns_as kind state (world tokenizer.old).scratch)).to }
    ensures world { world tokenizer.new ≡
        (moved (world tokenizer.old) (turns_as kind state (world tokenizer.old).scratch)).world }
{
    tokenizer.flags.leaf = HeldLeaf::Html { kind };
    tokenizer.scratch = marked(stop_byte(kind), tokenizer.scratch);
    State::Retry(StateName::HtmlFlow(state))
}

/// or after what is here.
pub fn begin_after(tokenizer: &mut Tokenizer, kind: HtmlKind, state: HtmlState) -> State
    requires { (world tokenizer.old).point.index < length (world tokenizer.old).setting.bytes }
    ensures to { result ≡ (moved (world tokenizer.old) (takes_as kind state (world tokenizer.old).scratch)).to }
    ensures world { world tokenizer.new ≡
        (moved (world tokenizer.old) (takes_as kind state (world tokenizer.old).scratch)).world }
{
    tokenizer.consume();
    tokenizer.flags.leaf = HeldLeaf::Html { kind };
    tokenizer.scratch = marked(stop_byte(kind), tokenizer.scratch);
    State::Next(StateName::HtmlFlow(state))
}

/// The end is here: the block ends with its line.
pub fn shut(tokenizer: &mut Tokenizer) -> State
    requires { (world tokenizer.old).point.index < length (world tokenizer.old).setting.bytes }
    ensures to { result ≡ (moved (world tokenizer.old) (shut (world tokenizer.old).scratch)).to }
    ensures world { world tokenizer.new ≡ (moved (world tokenizer.old) (shut (world tokenizer.old).scratch)).world }
{
    tokenizer.consume();
    tokenizer.flags.leaf = HeldLeaf::None;
    tokenizer.scratch = cleared(tokenizer.scratch);
    State::Next(StateName::HtmlFlow(HtmlState::ContinuationClose))
}

/// Goes on at a state, at rest.
pub fn clear_to(tokenizer: &mut Tokenizer, state: HtmlState) -> State
    ensures to { result ≡ State.Retry (StateName.HtmlFlow state) }
    ensures world { world tokenizer.new ≡
        record (world tokenizer.old) { scratch = cleared (world tokenizer.old).scratch } }
{
    tokenizer.scratch = cleared(tokenizer.scratch);
    State::Retry(StateName::HtmlFlow(state))
}

/// Takes what is here, and continues at a state, at rest.
pub fn take_clear_to(tokenizer: &mut Tokenizer, state: HtmlState) -> State
    requires { (world tokenizer.old).point.index < length (world tokenizer.old).setting.bytes }
    ensures to { result ≡ State.Next (StateName.HtmlFlow state) }
    ensures world { world tokenizer.new ≡
        record (taken (world tokenizer.old)) { scratch = cleared (world tokenizer.old).scratch } }
{
    tokenizer.consume();
    tokenizer.scratch = cleared(tokenizer.scratch);
    State::Next(StateName::HtmlFlow(state))
}

/// At the end of a line: what was on it ends.
pub fn end_data(tokenizer: &mut Tokenizer) -> State
    ensures to { result ≢ State.Error → result ≡ (data_ended (world tokenizer.old)).to }
    ensures world { result ≢ State.Error → world tokenizer.new ≡ (data_ended (world tokenizer.old)).world }
    ensures full { OnError result (IsFull tokenizer.new) }
{
    or_error!(tokenizer.exit(Name::HtmlFlowData));
    State::Retry(StateName::HtmlFlow(HtmlState::ContinuationAfter))
}
