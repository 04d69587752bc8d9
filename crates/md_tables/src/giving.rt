// Events that are given several at once. Room for them is made first, and then they are copied once.

ghost use Rattle.std.specs.Prelude.{◌≡◌, ◌++◌, ◌∷◌, [], OnOk};
ghost use Rattle.md_events.specs.Events.Nested.{enter, exit};

use crate::cells::plain;
use md_engine::event::{Event, Kind, Name};
use md_engine::message::Message;

/// Gives an event.
#[inline(always)]
pub(crate) fn give(given: &mut Vec<Event>, event: &Event) -> Result<(), Message>
    ensures { OnOk result (given.new.items ≡ given.old.items ++ event.now ∷ []) }
{
    if given.reserve(1).is_err() {
        return Err(Message);
    }
    given.push_reserved(*event);
    Ok(())
}

/// Gives two events.
#[inline(always)]
pub(crate) fn give_two(given: &mut Vec<Event>, first: &Event, second: &Event) -> Result<(), Message>
    ensures { OnOk result (given.new.items ≡ given.old.items ++ first.now ∷ second.now ∷ []) }
{
    if given.reserve(2).is_err() {
        return Err(Message);
    }
    given.push_reserved(*first);
    given.push_reserved(*second);
    Ok(())
}

/// Gives an event that begins a part of this name.
#[inline(always)]
pub(crate) fn give_first(given: &mut Vec<Event>, name: Name, event: &Event) -> Result<(), Message>
    ensures { OnOk result (given.new.items ≡ given.old.items ++ enter name event.now.point ∷ event.now ∷ []) }
{
    if given.reserve(2).is_err() {
        return Err(Message);
    }
    given.push_reserved(plain(Kind::Enter, name, event.point));
    given.push_reserved(*event);
    Ok(())
}

/// Gives an event that ends a part of this name.
#[inline(always)]
pub(crate) fn give_last(given: &mut Vec<Event>, event: &Event, name: Name) -> Result<(), Message>
    ensures { OnOk result (given.new.items ≡ given.old.items ++ event.now ∷ exit name event.now.point ∷ []) }
{
    if given.reserve(2).is_err() {
        return Err(Message);
    }
    given.push_reserved(*event);
    given.push_reserved(plain(Kind::Exit, name, event.point));
    Ok(())
}

/// Gives two events with which a part of this name begins.
#[inline(always)]
pub(crate) fn give_two_first(
    given: &mut Vec<Event>,
    name: Name,
    first: &Event,
    second: &Event,
) -> Result<(), Message>
    ensures { OnOk result
        (given.new.items ≡ given.old.items ++ enter name first.now.point ∷ first.now ∷ second.now ∷ []) }
{
    if given.reserve(3).is_err() {
        return Err(Message);
    }
    given.push_reserved(plain(Kind::Enter, name, first.point));
    given.push_reserved(*first);
    given.push_reserved(*second);
    Ok(())
}

/// Gives two events with which a part of this name ends.
#[inline(always)]
pub(crate) fn give_two_last(
    given: &mut Vec<Event>,
    first: &Event,
    second: &Event,
    name: Name,
) -> Result<(), Message>
    ensures { OnOk result
        (given.new.items ≡ given.old.items ++ first.now ∷ second.now ∷ exit name second.now.point ∷ []) }
{
    if given.reserve(3).is_err() {
        return Err(Message);
    }
    given.push_reserved(*first);
    given.push_reserved(*second);
    given.push_reserved(plain(Kind::Exit, name, second.point));
    Ok(())
}

/// Gives two events that are all of a part of this name.
#[inline(always)]
pub(crate) fn give_whole(
    given: &mut Vec<Event>,
    name: Name,
    first: &Event,
    second: &Event,
) -> Result<(), Message>
    ensures { OnOk result
        (given.new.items ≡
        given.old.items
        ++ enter name first.now.point ∷ first.now ∷ second.now ∷ exit name second.now.point ∷ []) }
{
    if given.reserve(4).is_err() {
        return Err(Message);
    }
    given.push_reserved(plain(Kind::Enter, name, first.point));
    given.push_reserved(*first);
    given.push_reserved(*second);
    given.push_reserved(plain(Kind::Exit, name, second.point));
    Ok(())
}

/// Gives two events before which a part of this name ends, and with which the next begins.
#[inline(always)]
pub(crate) fn give_between(
    given: &mut Vec<Event>,
    name: Name,
    first: &Event,
    second: &Event,
) -> Result<(), Message>
    ensures { OnOk result
        (given.new.items ≡
        given.old.items
        ++ exit name first.now.point ∷ enter name first.now.point ∷ first.now ∷ second.now ∷ []) }
{
    if given.reserve(4).is_err() {
        return Err(Message);
    }
    given.push_reserved(plain(Kind::Exit, name, first.point));
    given.push_reserved(plain(Kind::Enter, name, first.point));
    given.push_reserved(*first);
    given.push_reserved(*second);
    Ok(())
}
