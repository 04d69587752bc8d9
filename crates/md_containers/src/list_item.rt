// List items (CommonMark 5.2).
//
//     list_item ::= small_indent ( '*' | '+' | '-' | 1*9digit ( '.' | ')' ) ) padding
//
// The padding is 1 to 4 columns of whitespace before something else, one of 5 or more, and none where the rest of the
// line is blank. What looks like a thematic break is no item; and text is interrupted only by an item that is not blank
// and whose number, if any, is written `1`. `start` adds the begin of `ListItem` before the indent. Then is the indent,
// and `ListItemPrefix` around `ListItemValue` (the digits, of ordered items alone), `ListItemMarker` and the padding.
//
// An item has a width: the columns from its begin to the end of its padding, and where the rest of its first line is
// blank, one more. A further line continues if its indent is as wide, and loses the width; a blank one always, and
// loses at most the width, unless it follows a first line that was blank. The states that read its indent read that of
// a footnote definition too.

ghost use Rattle.std.specs.Prelude.{◌≡◌, ◌≢◌, IfSome};
ghost use Rattle.md_containers.specs.ItemRule.{IsItemState, IsSureItemState};
ghost use Rattle.md_engine.specs.Full.{IsFull, OnError};
ghost use Rattle.md_engine.specs.World.{world};
ghost use Rattle.md_engine.specs.declared.state.Name.{Name as StateName};
ghost use Rattle.md_engine.specs.declared.state.State.{State};
ghost use Rattle.md_engine.specs.declared.state.list_item.State.{State as ItemState};
ghost use Rattle.md_containers.specs.Item.{at_least_one};
ghost use Rattle.md_containers.specs.Item.{blank_code};
ghost use Rattle.md_containers.specs.Item.{ends_value, indent_code, inside_transition};
ghost use Rattle.md_containers.specs.Item.{item_transition, least_width};
ghost use Rattle.md_containers.specs.Item.{may_begin, may_break, sees};
ghost use Rattle.md_containers.specs.Item.{width_here};
ghost use Rattle.md_meaning.specs.Containers.{is_bullet, is_digit};
ghost use Rattle.md_events.specs.Look.{looks_after, may_with};
ghost use Rattle.md_events.specs.Spaces.{sees_white};
ghost use Rattle.md_events.specs.Stays.{TakesEach};
ghost use Rattle.md_events.specs.Transition.{IsAt, NeedsNothing};

use crate::interrupts::interrupts;
use md_engine::event::Name;
use md_engine::or_error;
use md_engine::state::blank_line::State as BlankState;
use md_engine::state::list_item::State as ItemState;
use md_engine::state::thematic_break::State as BreakState;
use md_engine::state::{Name as StateName, State};
use md_engine::stay::Stay;
use md_engine::tokenizer::{Tokenizer, Whitespace};
use md_events::space_or_tab::{
    is_space_or_tab, look_after_white, sees_other, small_indent, space_or_tab_min_max,
};
use md_leaves::blank_line::ends_line;

/// A value has at most so many digits.
const DIGITS: usize = 9;

/// A padding has at most so many columns.
const PADDING: usize = 4;

/// Whether this is the marker of an item without a number.
pub(crate) fn is_bullet(byte: u8) -> bool
    ensures { result ≡ is_bullet byte }
{
    byte == b'*' || byte == b'+' || byte == b'-'
}

/// Whether this ends the value of an item.
fn ends_value(byte: u8) -> bool
    ensures { result ≡ ends_value byte }
{
    byte == b'.' || byte == b')'
}

/// Whether this is a digit.
fn is_digit(byte: u8) -> bool
    ensures { result ≡ is_digit byte }
{
    byte >= b'0' && byte <= b'9'
}

/// Whether a digit is here.
fn sees_digit(current: Option<u8>) -> bool
    ensures { result ≡ sees is_digit current }
{
    match current {
        Some(byte) => is_digit(byte),
        None => false,
    }
}

/// Whether what ends the value of an item is here.
fn sees_value_end(current: Option<u8>) -> bool
    ensures { result ≡ sees ends_value current }
{
    match current {
        Some(byte) => ends_value(byte),
        None => false,
    }
}

/// Whether a thematic break of this marker may be here: there is none of `+`, and none where another byte is seen.
fn may_break(tokenizer: &mut Tokenizer, marker: u8) -> bool
    ensures value { result ≡ may_break (world tokenizer.old) marker }
    ensures same { world tokenizer.new ≡ world tokenizer.old }
{
    tokenizer.options.constructs.thematic_break && marker != b'+' && !sees_other(tokenizer, marker)
}

/// Whether an item may open here, by what is first after whitespace: a marker or a digit, if that is known.
pub fn may_begin(first: Option<u8>) -> bool
    ensures { result ≡ may_with may_begin first }
{
    match first {
        Some(byte) => is_bullet(byte) || is_digit(byte),
        None => true,
    }
}

/// Before an item.
///
/// ```markdown
/// > | * a
///     ^
/// ```
#[tactic(auto, using(crate::proofs::ItemMeaning::item_rule))]
pub fn start(tokenizer: &mut Tokenizer) -> State
    requires { IsAt NeedsNothing (StateName.ListItem ItemState.Start) (world tokenizer.old) }
    ensures { IsItemState ItemState.Start (world tokenizer.old) result tokenizer.new }
{
    if !tokenizer.options.constructs.list_item {
        return State::Nok;
    }
    or_error!(tokenizer.enter(Name::ListItem));
    if is_space_or_tab(tokenizer.current) {
        let max = small_indent(tokenizer);
        space_or_tab_min_max(
            tokenizer,
            0,
            max,
            State::Next(StateName::ListItem(ItemState::Before)),
            State::Nok,
        )
    } else {
        State::Retry(StateName::ListItem(ItemState::Before))
    }
}

/// After the indent, at a marker or a value. What looks like a thematic break is no item, where breaks are on.
///
/// ```markdown
/// > | * a
///     ^
/// ```
#[tactic(auto, using(crate::proofs::ItemMeaning::item_rule))]
pub fn before(tokenizer: &mut Tokenizer) -> State
    requires { IsAt NeedsNothing (StateName.ListItem ItemState.Before) (world tokenizer.old) }
    ensures { IsItemState ItemState.Before (world tokenizer.old) result tokenizer.new }
{
    let Some(byte) = tokenizer.current else {
        return State::Nok;
    };
    if is_bullet(byte) {
        if !may_break(tokenizer, byte) {
            return State::Retry(StateName::ListItem(ItemState::BeforeUnordered));
        }
        or_error!(tokenizer.check(
            State::Nok,
            State::Next(StateName::ListItem(ItemState::BeforeUnordered))
        ));
        State::Retry(StateName::ThematicBreak(BreakState::Start))
    } else if is_digit(byte) && (byte == b'1' || !interrupts(tokenizer)) {
        State::Retry(StateName::ListItem(ItemState::BeforeOrdered))
    } else {
        State::Nok
    }
}

/// At the marker of an item without a number.
///
/// ```markdown
/// > | * a
///     ^
/// ```
#[tactic(auto, using(crate::proofs::ItemMeaning::item_rule))]
pub fn before_unordered(tokenizer: &mut Tokenizer) -> State
    requires { IsAt NeedsNothing (StateName.ListItem ItemState.BeforeUnordered) (world tokenizer.old) }
    ensures { IsItemState ItemState.BeforeUnordered (world tokenizer.old) result tokenizer.new }
{
    or_error!(tokenizer.enter(Name::ListItemPrefix));
    State::Retry(StateName::ListItem(ItemState::Marker))
}

/// At the value of an ordered item.
///
/// ```markdown
/// > | 1. a
///     ^
/// ```
#[tactic(auto, using(crate::proofs::ItemMeaning::item_rule))]
pub fn before_ordered(tokenizer: &mut Tokenizer) -> State
    requires { IsAt NeedsNothing (StateName.ListItem ItemState.BeforeOrdered) (world tokenizer.old) }
    ensures { IsItemState ItemState.BeforeOrdered (world tokenizer.old) result tokenizer.new }
{
    match tokenizer.current {
        Some(byte) if is_digit(byte) => {
            or_error!(tokenizer.enter(Name::ListItemPrefix));
            or_error!(tokenizer.enter(Name::ListItemValue));
            State::Retry(StateName::ListItem(ItemState::Value))
        }
        _ => State::Nok,
    }
}

/// In the value of an ordered item. Text is interrupted by one digit alone.
///
/// ```markdown
/// > | 1. a
///     ^
/// ```
#[tactic(auto, using(crate::proofs::ItemMeaning::item_rule))]
pub fn value(tokenizer: &mut Tokenizer) -> State
    requires { IsAt NeedsNothing (StateName.ListItem ItemState.Value) (world tokenizer.old) }
    ensures { IsItemState ItemState.Value (world tokenizer.old) result tokenizer.new }
{
    let size = tokenizer.scratch.size;
    if sees_digit(tokenizer.current) && size < DIGITS {
        tokenizer.consume();
        tokenizer.scratch.size = size + 1;
        return State::Next(StateName::ListItem(ItemState::Value));
    }
    tokenizer.scratch.size = 0;
    if sees_value_end(tokenizer.current) && (!interrupts(tokenizer) || size < 2) {
        or_error!(tokenizer.exit(Name::ListItemValue));
        State::Retry(StateName::ListItem(ItemState::Marker))
    } else {
        State::Nok
    }
}

/// At the marker.
///
/// ```markdown
/// > | * a
///     ^
/// > | 1. b
///      ^
/// ```
#[tactic(auto, using(crate::proofs::ItemMeaning::item_rule))]
pub fn marker(tokenizer: &mut Tokenizer) -> State
    requires { IsAt NeedsNothing (StateName.ListItem ItemState.Marker) (world tokenizer.old) }
    ensures { IsItemState ItemState.Marker (world tokenizer.old) result tokenizer.new }
{
    match tokenizer.current {
        Some(byte) if is_bullet(byte) || ends_value(byte) => {
            or_error!(tokenizer.enter(Name::ListItemMarker));
            tokenizer.consume();
            or_error!(tokenizer.exit(Name::ListItemMarker));
            State::Next(StateName::ListItem(ItemState::MarkerAfter))
        }
        _ => State::Nok,
    }
}

/// Goes on at `blank` if the rest of the line is blank, else at `filled`.
fn by_blank(tokenizer: &mut Tokenizer, blank: ItemState, filled: ItemState) -> State
    ensures to { result ≢ State.Error →
        result ≡ (blank_code blank filled (world tokenizer.old) (looks_after (world tokenizer.old))).to }
    ensures world { result ≢ State.Error →
        world tokenizer.new ≡
        (blank_code blank filled (world tokenizer.old) (looks_after (world tokenizer.old))).world }
    ensures full { OnError result (IsFull tokenizer.new) }
{
    match look_after_white(tokenizer) {
        Some(b'\n') => State::Retry(StateName::ListItem(blank)),
        Some(_) => State::Retry(StateName::ListItem(filled)),
        None => {
            or_error!(tokenizer.check(
                State::Next(StateName::ListItem(blank)),
                State::Next(StateName::ListItem(filled))
            ));
            State::Retry(StateName::BlankLine(BlankState::Start))
        }
    }
}

/// After the marker.
///
/// ```markdown
/// > | * a
///      ^
/// > | 1. b
///       ^
/// ```
#[tactic(auto, using(crate::proofs::ItemMeaning::item_rule))]
pub fn marker_after(tokenizer: &mut Tokenizer) -> State
    requires { IsAt NeedsNothing (StateName.ListItem ItemState.MarkerAfter) (world tokenizer.old) }
    ensures { IsItemState ItemState.MarkerAfter (world tokenizer.old) result tokenizer.new }
{
    by_blank(tokenizer, ItemState::After, ItemState::MarkerAfterFilled)
}

/// After the marker, where the rest of the line is not blank.
///
/// ```markdown
/// > | * a
///      ^
/// ```
#[tactic(auto, using(crate::proofs::ItemMeaning::item_rule))]
pub fn marker_after_filled(tokenizer: &mut Tokenizer) -> State
    requires { IsAt NeedsNothing (StateName.ListItem ItemState.MarkerAfterFilled) (world tokenizer.old) }
    ensures { IsItemState ItemState.MarkerAfterFilled (world tokenizer.old) result tokenizer.new }
{
    or_error!(tokenizer.attempt(
        State::Next(StateName::ListItem(ItemState::After)),
        State::Next(StateName::ListItem(ItemState::PrefixOther))
    ));
    tokenizer.scratch.seen = true;
    State::Retry(StateName::ListItem(ItemState::Whitespace))
}

/// At the padding, where that is 1 to 4 columns.
///
/// ```markdown
/// > | * a
///      ^
/// ```
#[tactic(auto, using(crate::proofs::ItemMeaning::item_rule))]
pub fn whitespace(tokenizer: &mut Tokenizer) -> State
    requires { IsAt NeedsNothing (StateName.ListItem ItemState.Whitespace) (world tokenizer.old) }
    ensures { IsItemState ItemState.Whitespace (world tokenizer.old) result tokenizer.new }
{
    space_or_tab_min_max(
        tokenizer,
        1,
        PADDING,
        State::Next(StateName::ListItem(ItemState::WhitespaceAfter)),
        State::Nok,
    )
}

/// After 1 to 4 columns: there must be no more.
///
/// ```markdown
/// > | * a
///       ^
/// ```
#[tactic(auto, using(crate::proofs::ItemMeaning::item_rule))]
pub fn whitespace_after(tokenizer: &mut Tokenizer) -> State
    requires { IsAt NeedsNothing (StateName.ListItem ItemState.WhitespaceAfter) (world tokenizer.old) }
    ensures { IsSureItemState ItemState.WhitespaceAfter (world tokenizer.old) result tokenizer.new }
{
    if is_space_or_tab(tokenizer.current) {
        State::Nok
    } else {
        State::Ok
    }
}

/// After the marker, where no whitespace follows or more than a padding may have: of that one column belongs to it.
///
/// ```markdown
/// > | *      a
///      ^
/// ```
#[tactic(auto, using(crate::proofs::ItemMeaning::item_rule))]
pub fn prefix_other(tokenizer: &mut Tokenizer) -> State
    requires { IsAt NeedsNothing (StateName.ListItem ItemState.PrefixOther) (world tokenizer.old) }
    ensures { IsItemState ItemState.PrefixOther (world tokenizer.old) result tokenizer.new }
{
    if is_space_or_tab(tokenizer.current) {
        or_error!(tokenizer.enter(Name::SpaceOrTab));
        tokenizer.consume();
        or_error!(tokenizer.exit(Name::SpaceOrTab));
        State::Next(StateName::ListItem(ItemState::After))
    } else {
        tokenizer.scratch.seen = false;
        State::Nok
    }
}

/// So many columns, and one at least: no item is less wide.
pub(crate) fn at_least_one(columns: usize) -> usize
    ensures { result ≡ at_least_one columns }
{
    if columns == 0 { 1 } else { columns }
}

/// The columns from the begin of the item that is tried to here; where its first line is blank, one more.
pub(crate) fn width_here(tokenizer: &Tokenizer, blank: bool) -> usize
    ensures { result ≡
        width_here (world tokenizer.now).point.column (world tokenizer.now).flags.asked_column blank }
{
    let columns = tokenizer
        .point
        .column
        .saturating_sub(tokenizer.flags.asked_column);
    at_least_one(if blank { columns + 1 } else { columns })
}

/// After the prefix: the item opens, unless it is blank and would interrupt text.
///
/// ```markdown
/// > | * a
///       ^
/// ```
#[tactic(auto, using(crate::proofs::ItemMeaning::item_rule))]
pub fn after(tokenizer: &mut Tokenizer) -> State
    requires { IsAt NeedsNothing (StateName.ListItem ItemState.After) (world tokenizer.old) }
    ensures { IsItemState ItemState.After (world tokenizer.old) result tokenizer.new }
{
    let blank = !tokenizer.scratch.seen;
    tokenizer.scratch.seen = false;
    if blank && interrupts(tokenizer) {
        return State::Nok;
    }
    tokenizer.flags.asked.width = width_here(tokenizer, blank);
    tokenizer.flags.asked.starts_blank = blank;
    or_error!(tokenizer.exit(Name::ListItemPrefix));
    State::Ok
}

/// Before the indent of a further line. Where nothing is left of the line, an item continues that did not start blank.
///
/// ```markdown
///   | * a
/// > |   b
///     ^
/// ```
#[tactic(auto, using(crate::proofs::ItemMeaning::item_rule))]
pub fn cont_start(tokenizer: &mut Tokenizer) -> State
    requires { IsAt NeedsNothing (StateName.ListItem ItemState.ContStart) (world tokenizer.old) }
    ensures { IsItemState ItemState.ContStart (world tokenizer.old) result tokenizer.new }
{
    if !ends_line(tokenizer.current) {
        return by_blank(tokenizer, ItemState::ContBlank, ItemState::ContFilled);
    }
    if tokenizer.flags.asked.starts_blank {
        State::Nok
    } else {
        State::Ok
    }
}

/// The columns that a further line has to lose.
fn least_width(tokenizer: &Tokenizer) -> usize
    ensures { result ≡ least_width (world tokenizer.now).flags.asked }
{
    at_least_one(tokenizer.flags.asked.width)
}

/// Takes the first column of an indent of at least `min` columns, and at most the width.
fn begin_indent(tokenizer: &mut Tokenizer, state: ItemState, min: usize) -> State
    requires { IsAt NeedsNothing (StateName.ListItem state) (world tokenizer.old) }
    ensures to { result ≢ State.Error →
        result ≡ (indent_code state min (world tokenizer.old) (sees_white tokenizer.old.current)).to }
    ensures world { result ≢ State.Error →
        world tokenizer.new ≡ (indent_code state min (world tokenizer.old) (sees_white tokenizer.old.current)).world }
    ensures full { OnError result (IsFull tokenizer.new) }
{
    if !is_space_or_tab(tokenizer.current) {
        return State::Nok;
    }
    let max = least_width(tokenizer);
    or_error!(tokenizer.enter(Name::SpaceOrTab));
    tokenizer.consume();
    tokenizer.scratch.whitespace = Whitespace { min, max, size: 1 };
    State::Next(StateName::ListItem(state))
}

/// Takes one more column of an indent, or ends it.
fn proceed_in_indent(tokenizer: &mut Tokenizer, state: ItemState) -> State
    requires { IsAt NeedsNothing (StateName.ListItem state) (world tokenizer.old) }
    ensures to { result ≢ State.Error → result ≡ (inside_transition state (world tokenizer.old)).to }
    ensures world { result ≢ State.Error → world tokenizer.new ≡ (inside_transition state (world tokenizer.old)).world }
    ensures full { OnError result (IsFull tokenizer.new) }
{
    let Whitespace { min, max, size } = tokenizer.scratch.whitespace;
    if is_space_or_tab(tokenizer.current) && size < max {
        tokenizer.consume();
        tokenizer.scratch.whitespace.size = size + 1;
        return State::Next(StateName::ListItem(state));
    }
    tokenizer.scratch.whitespace = Whitespace {
        min: 0,
        max: 0,
        size: 0,
    };
    if size < min {
        return State::Nok;
    }
    or_error!(tokenizer.exit(Name::SpaceOrTab));
    tokenizer.flags.asked.starts_blank = false;
    State::Ok
}

/// In the indent of a further line that is blank: at most the width.
///
/// ```markdown
///   | * a
/// > |
///     ^^
///   |   b
/// ```
#[tactic(auto, using(crate::proofs::ItemMeaning::item_rule))]
pub fn cont_blank(tokenizer: &mut Tokenizer) -> State
    requires { IsAt NeedsNothing (StateName.ListItem ItemState.ContBlank) (world tokenizer.old) }
    ensures { IsItemState ItemState.ContBlank (world tokenizer.old) result tokenizer.new }
{
    if tokenizer.scratch.whitespace.max > 0 {
        proceed_in_indent(tokenizer, ItemState::ContBlank)
    } else if tokenizer.flags.asked.starts_blank {
        State::Nok
    } else {
        begin_indent(tokenizer, ItemState::ContBlank, 1)
    }
}

/// In the indent of a further line that is not blank: exactly the width.
///
/// ```markdown
///   | * a
/// > |   b
///     ^^
/// ```
#[tactic(auto, using(crate::proofs::ItemMeaning::item_rule))]
pub fn cont_filled(tokenizer: &mut Tokenizer) -> State
    requires { IsAt NeedsNothing (StateName.ListItem ItemState.ContFilled) (world tokenizer.old) }
    ensures { IsItemState ItemState.ContFilled (world tokenizer.old) result tokenizer.new }
{
    if tokenizer.scratch.whitespace.max > 0 {
        proceed_in_indent(tokenizer, ItemState::ContFilled)
    } else {
        let min = least_width(tokenizer);
        begin_indent(tokenizer, ItemState::ContFilled, min)
    }
}

/// What a state of an item only takes and counts.
pub fn takes_at_once(state: ItemState) -> Option<Stay>
    ensures { IfSome result (λ stay. TakesEach stay (StateName.ListItem state) (item_transition state)) }
{
    match state {
        ItemState::ContBlank | ItemState::ContFilled => Some(Stay::White),
        _ => None,
    }
}

/// Calls a state of an item.
#[tactic(auto, using(crate::proofs::ItemMeaning::item_rule))]
pub fn call(tokenizer: &mut Tokenizer, state: ItemState) -> State
    requires { IsAt NeedsNothing (StateName.ListItem state) (world tokenizer.old) }
    ensures { IsItemState state (world tokenizer.old) result tokenizer.new }
{
    match state {
        ItemState::Start => start(tokenizer),
        ItemState::Before => before(tokenizer),
        ItemState::BeforeUnordered => before_unordered(tokenizer),
        ItemState::BeforeOrdered => before_ordered(tokenizer),
        ItemState::Value => value(tokenizer),
        ItemState::Marker => marker(tokenizer),
        ItemState::MarkerAfter => marker_after(tokenizer),
        ItemState::MarkerAfterFilled => marker_after_filled(tokenizer),
        ItemState::Whitespace => whitespace(tokenizer),
        ItemState::WhitespaceAfter => whitespace_after(tokenizer),
        ItemState::PrefixOther => prefix_other(tokenizer),
        ItemState::After => after(tokenizer),
        ItemState::ContStart => cont_start(tokenizer),
        ItemState::ContBlank => cont_blank(tokenizer),
        ItemState::ContFilled => cont_filled(tokenizer),
    }
}
