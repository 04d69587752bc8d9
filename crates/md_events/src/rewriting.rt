// A list of events that is rewritten in its own place.

ghost use Rattle.std.specs.Prelude.{◌≡◌, ◌≤◌, ◌<◌, ◌+◌, [], ◌∷◌, ◌++◌, IfNone, IfSome, OnOk, drop, length, take};
ghost use Rattle.md_events.specs.Events.Inline.{pair_unless_empty};
ghost use Rattle.md_events.specs.Events.Nested.{enter_link, exit, pair};

use crate::moving::{move_down, move_up};
use md_engine::event::{Event, Kind, Link, Name, Point};
use md_engine::message::Message;

/// So many events at least are made room for at once.
const LEAST: usize = 16;

/// So many events are written at once: the C library copies a page or more by an instruction that goes byte by byte.
const PIECE: usize = 96;

/// What fills a place that nothing was written to yet.
const NOTHING: Event = Event {
    kind: Kind::Enter,
    name: Name::Data,
    point: Point {
        line: 0,
        column: 0,
        index: 0,
        vs: 0,
    },
    link: None,
};

/// Growth is not expected to continue as in fewer events than this.
const SAMPLE: usize = 8;

/// How many events to make room for where `need` are to be written and `following` others have to be moved, after
/// `read` were read. Room was made for `added` before, and now `lacking` more are needed.
///
/// It is as many as the others take if they grow as those did, at most half of their number the first time and then all
/// of it, and at least a sixteenth of it, so that in all the moves are linear in the events.
fn room_for(need: usize, lacking: usize, added: usize, read: usize, following: usize) -> usize
    ensures enough { need ≤ result }
    ensures some { 0 < result }
{
    let grown = added.saturating_add(lacking);
    let expected = following.saturating_mul(grown) / read.max(SAMPLE);
    let most = if added == 0 { following / 2 } else { following };
    need.max(expected.min(most)).max(following / 16).max(LEAST)
}

/// A list that is read from its front on, and written again in the places that were read. What was read is held before
/// it is written, so that many events are written at once. Where more is written than was read, all that is not written
/// yet is moved up.
#[derive(Drop)]
pub struct Rewriting {
    events: Vec<Event>,
    /// How many events there were.
    begun: usize,
    /// How many places hold what was written. Those after them, up to the first event that is held, are free.
    written: usize,
    /// Where the events begin that are held: those before them were written or left out.
    done: usize,
    /// Where the events begin that are left: those before them were read.
    read: usize,
    ghost within: { (written ≤ done) × (done ≤ read) × (read ≤ length events.items) },
}

impl Rewriting {
    ghost use Rattle.md_events.specs.Rewritten.{IsFirst, given_of, held_of, left_of, written_of};

    /// The event that is left first.
    pub fn first(&self) -> Option<Event>
        ensures some { IfSome result (λ event. IsFirst event (left_of self.now)) }
        ensures none { IfNone result (left_of self.now ≡ []) }
    {
        if self.read < self.events.len() {
            Some(self.events[self.read])
        } else {
            None
        }
    }

    /// The events that are left.
    pub fn left(&self) -> &[Event]
        ensures { result.now ≡ left_of self.now }
    {
        &self.events[self.read..]
    }

    /// Reads the event that is left first, and holds it.
    pub fn hold(&mut self, _event: Event)
        requires { IsFirst _event (left_of self.old) }
        ensures left { left_of self.new ≡ drop 1 (left_of self.old) }
        ensures held { held_of self.new ≡ held_of self.old ++ _event ∷ [] }
        ensures written { written_of self.new ≡ written_of self.old }
    {
        self.read += 1;
    }

    /// Reads so many of the events that are left, and holds them.
    pub fn hold_many(&mut self, count: usize)
        requires { count ≤ length (left_of self.old) }
        ensures left { left_of self.new ≡ drop count (left_of self.old) }
        ensures held { held_of self.new ≡ held_of self.old ++ take count (left_of self.old) }
        ensures written { written_of self.new ≡ written_of self.old }
    {
        self.read += count;
    }

    /// Reads the event that is left first, and holds another in its place.
    fn hold_as(&mut self, event: Event)
        requires { 0 < length (left_of self.old) }
        ensures left { left_of self.new ≡ drop 1 (left_of self.old) }
        ensures held { held_of self.new ≡ held_of self.old ++ event ∷ [] }
        ensures written { written_of self.new ≡ written_of self.old }
    {
        self.events[self.read] = event;
        self.read += 1;
    }

    /// Reads the two events that are left first, and holds a part of this name in their place.
    pub fn hold_pair(&mut self, name: Name, first: Point, after: Point)
        requires { 1 < length (left_of self.old) }
        ensures left { left_of self.new ≡ drop 2 (left_of self.old) }
        ensures held { held_of self.new ≡ held_of self.old ++ pair name first after }
        ensures written { written_of self.new ≡ written_of self.old }
    {
        self.hold_as(Event {
            kind: Kind::Enter,
            name,
            point: first,
            link: None,
        });
        self.hold_as(Event {
            kind: Kind::Exit,
            name,
            point: after,
            link: None,
        });
    }

    /// How many events are held.
    pub fn held(&self) -> usize
        ensures { result ≡ length (held_of self.now) }
    {
        self.read - self.done
    }

    /// Leaves out so many of the events that are held, from their front on.
    pub fn leave_out(&mut self, count: usize)
        requires { count ≤ length (held_of self.old) }
        ensures left { left_of self.new ≡ left_of self.old }
        ensures held { held_of self.new ≡ drop count (held_of self.old) }
        ensures written { written_of self.new ≡ written_of self.old }
    {
        self.done += count;
    }

    /// Writes the events that are held.
    pub fn give(&mut self)
        ensures left { left_of self.new ≡ left_of self.old }
        ensures held { held_of self.new ≡ [] }
        ensures written { written_of self.new ≡ written_of self.old ++ held_of self.old }
    {
        move_down(&mut self.events, self.written, self.done, self.read);
        self.written += self.read - self.done;
        self.done = self.read;
    }

    /// Writes the events that are held, and leaves out so many of those that are left.
    pub fn skip(&mut self, count: usize)
        requires { count ≤ length (left_of self.old) }
        ensures left { left_of self.new ≡ drop count (left_of self.old) }
        ensures held { held_of self.new ≡ [] }
        ensures written { written_of self.new ≡ given_of self.old }
    {
        self.give();
        self.hold_many(count);
        self.leave_out(count);
    }

    /// Makes room for so many events, and for more if many others have to be moved. An `Err` says that memory ran out.
    #[inline(never)]
    fn widen(&mut self, need: usize) -> Result<(), Message>
        ensures left { left_of self.new ≡ left_of self.old }
        ensures held { held_of self.new ≡ held_of self.old }
        ensures written { written_of self.new ≡ written_of self.old }
        ensures room { OnOk result (self.new.written + need ≤ self.new.done) }
    {
        let end = self.events.len();
        let added = end.saturating_sub(self.begun);
        let read = self.done.saturating_sub(added);
        let lacking = need.saturating_sub(self.done - self.written);
        let many = room_for(need, lacking, added, read, end - self.done);
        let Some(new_end) = end.checked_add(many) else {
            return Err(Message);
        };
        if self.events.resize(new_end, NOTHING).is_err() {
            return Err(Message);
        }
        move_up(&mut self.events, self.done, many);
        self.done += many;
        self.read += many;
        Ok(())
    }

    /// Makes room for so many events, where there is less.
    #[inline(always)]
    fn make_room(&mut self, need: usize) -> Result<(), Message>
        ensures left { left_of self.new ≡ left_of self.old }
        ensures held { held_of self.new ≡ held_of self.old }
        ensures written { written_of self.new ≡ written_of self.old }
        ensures room { OnOk result (self.new.written + need ≤ self.new.done) }
    {
        if self.done - self.written < need {
            return self.widen(need);
        }
        Ok(())
    }

    /// Writes these events at once where there is room.
    fn put_piece(&mut self, piece: &[Event])
        requires { self.old.written + length piece.now ≤ self.old.done }
        ensures left { left_of self.new ≡ left_of self.old }
        ensures held { held_of self.new ≡ held_of self.old }
        ensures written { written_of self.new ≡ written_of self.old ++ piece.now }
        ensures room { (self.new.written ≡ self.old.written + length piece.now) × (self.new.done ≡ self.old.done) }
    {
        self.events[self.written..self.written + piece.len()].copy_from_slice(piece);
        self.written += piece.len();
    }

    /// Writes an event where there is room.
    fn put(&mut self, event: Event)
        requires { self.old.written < self.old.done }
        ensures left { left_of self.new ≡ left_of self.old }
        ensures held { held_of self.new ≡ held_of self.old }
        ensures written { written_of self.new ≡ written_of self.old ++ event ∷ [] }
        ensures room { (self.new.written ≡ self.old.written + 1) × (self.new.done ≡ self.old.done) }
    {
        self.events[self.written] = event;
        self.written += 1;
    }

    /// Writes an event, before those that are held.
    pub fn push(&mut self, event: Event) -> Result<(), Message>
        ensures left { left_of self.new ≡ left_of self.old }
        ensures held { held_of self.new ≡ held_of self.old }
        ensures written { OnOk result (written_of self.new ≡ written_of self.old ++ event ∷ []) }
    {
        self.make_room(1)?;
        self.put(event);
        Ok(())
    }

    /// Writes a part of this name, before the events that are held, or nothing if it would be empty.
    pub fn push_unless_empty(
        &mut self,
        name: Name,
        first: Point,
        after: Point,
    ) -> Result<(), Message>
        ensures left { left_of self.new ≡ left_of self.old }
        ensures held { held_of self.new ≡ held_of self.old }
        ensures written { OnOk result
            (written_of self.new ≡ written_of self.old ++ pair_unless_empty name first after) }
    {
        if first.index == after.index && first.vs == after.vs {
            return Ok(());
        }
        self.make_room(2)?;
        self.put(Event {
            kind: Kind::Enter,
            name,
            point: first,
            link: None,
        });
        self.put(Event {
            kind: Kind::Exit,
            name,
            point: after,
            link: None,
        });
        Ok(())
    }

    /// Writes events, before those that are held.
    pub fn push_all(&mut self, events: &[Event]) -> Result<(), Message>
        ensures left { left_of self.new ≡ left_of self.old }
        ensures held { held_of self.new ≡ held_of self.old }
        ensures written { OnOk result (written_of self.new ≡ written_of self.old ++ events.now) }
    {
        self.make_room(events.len())?;
        let mut at = 0;
        while at < events.len() {
            let many = PIECE.min(events.len() - at);
            self.put_piece(&events[at..][..many]);
            at += many;
        }
        Ok(())
    }

    /// Begins to read these events.
    pub fn new(events: Vec<Event>) -> Rewriting
        ensures left { left_of result ≡ events.items }
        ensures held { held_of result ≡ [] }
        ensures written { written_of result ≡ [] }
    {
        Rewriting {
            begun: events.len(),
            events,
            written: 0,
            done: 0,
            read: 0,
        }
    }

    /// What was written.
    pub fn finish(self) -> Vec<Event>
        ensures { result.items ≡ written_of self }
    {
        let Rewriting {
            mut events,
            written,
            ..
        } = self;
        events.truncate(written);
        events
    }

    /// Writes a part of this name that is read later, before the events that are held.
    pub fn push_linked(
        &mut self,
        name: Name,
        link: Link,
        first: Point,
        after: Point,
    ) -> Result<(), Message>
        ensures left { left_of self.new ≡ left_of self.old }
        ensures held { held_of self.new ≡ held_of self.old }
        ensures written { OnOk result
            (written_of self.new ≡ written_of self.old ++ enter_link name first link ∷ exit name after ∷ []) }
    {
        self.make_room(2)?;
        self.put(Event {
            kind: Kind::Enter,
            name,
            point: first,
            link: Some(link),
        });
        self.put(Event {
            kind: Kind::Exit,
            name,
            point: after,
            link: None,
        });
        Ok(())
    }
}
