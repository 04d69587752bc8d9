// Parts whose begin and end are both known: their two events are added in one call. The point may lie elsewhere.

ghost use Rattle.std.specs.Prelude.{◌≡◌, ◌∷◌, ◌++◌, [], None, OnOk, is_err, true};
ghost use Rattle.md_engine.specs.Full.{Grown, IsFullList};
ghost use Rattle.md_engine.specs.Place.{IsPlaced};
ghost use Rattle.md_engine.specs.World.{world};
ghost use Rattle.md_engine.specs.declared.event.Event.{Event};
ghost use Rattle.md_engine.specs.declared.event.Kind.{Kind};

use md_engine::event::{Event, Kind, Link, Name, Point};
use md_engine::message::Message;
use md_engine::tokenizer::Tokenizer;

/// Adds two events where the list may have no room for them. This is rare, so it is a function of its own.
#[inline(never)]
#[tactic(auto, unfolding(md_engine::specs::Full::IsFullList))]
fn add_growing(tokenizer: &mut Tokenizer, first: Event, last: Event) -> Result<(), Message>
    requires first { IsPlaced (world tokenizer.old).setting.bytes first.point }
    requires last { IsPlaced (world tokenizer.old).setting.bytes last.point }
    ensures world { OnOk result
        (world tokenizer.new ≡
        record (world tokenizer.old) { events = (world tokenizer.old).events ++ first ∷ last ∷ [] }) }
    ensures full { is_err result ≡ true → IsFullList Grown.Events tokenizer.new }
{
    if tokenizer.events.reserve(1).is_err() {
        return Err(Message);
    }
    tokenizer.events.push_reserved(first);
    if tokenizer.events.reserve(1).is_err() {
        return Err(Message);
    }
    tokenizer.events.push_reserved(last);
    Ok(())
}

/// The event with which a part begins.
#[inline(always)]
fn begin(name: Name, link: Option<Link>, point: Point) -> Event
    ensures { result ≡ record { kind = Kind.Enter; name = name; point = point; link = link } }
{
    Event {
        kind: Kind::Enter,
        name,
        point,
        link,
    }
}

/// The event with which a part ends.
#[inline(always)]
fn end(name: Name, point: Point) -> Event
    ensures { result ≡ record { kind = Kind.Exit; name = name; point = point; link = None } }
{
    Event {
        kind: Kind::Exit,
        name,
        point,
        link: None,
    }
}

/// Adds the events of a part from one point to another.
#[inline(always)]
pub fn add_part(
    tokenizer: &mut Tokenizer,
    name: Name,
    link: Option<Link>,
    from: Point,
    to: Point,
) -> Result<(), Message>
    requires from { IsPlaced (world tokenizer.old).setting.bytes from }
    requires to { IsPlaced (world tokenizer.old).setting.bytes to }
    ensures world { OnOk result
        (world tokenizer.new ≡
        record (world tokenizer.old) {
          events = (world tokenizer.old).events
              ++ record { kind = Kind.Enter; name = name; point = from; link = link }
              ∷ record { kind = Kind.Exit; name = name; point = to; link = None }
              ∷ [];
        }) }
    ensures full { is_err result ≡ true → IsFullList Grown.Events tokenizer.new }
{
    if tokenizer.events.capacity() - tokenizer.events.len() < 2 {
        return add_growing(tokenizer, begin(name, link, from), end(name, to));
    }
    tokenizer.events.push_reserved(begin(name, link, from));
    tokenizer.events.push_reserved(end(name, to));
    Ok(())
}
