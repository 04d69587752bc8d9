// Events that are moved to the front of their list, or appended to another, many at once.

ghost use Rattle.std.specs.Prelude.{◌≡◌, ◌≤◌, ◌<◌, ◌+◌, ◌-◌, ◌++◌, OnOk, drop, length, take};

use md_engine::event::Event;
use md_engine::message::Message;

/// So many events are copied at once: the C library copies a page or more by an instruction that goes byte by byte.
const PIECE: usize = 96;

/// How many of so many events are copied at once.
fn piece(left: usize) -> usize
    ensures most { result ≤ left }
    ensures some { 0 < left → 0 < result }
{
    if left < PIECE { left } else { PIECE }
}

/// Appends these events at once.
fn append_piece(events: &mut Vec<Event>, piece: &[Event]) -> Result<(), Message>
    ensures { OnOk result (events.new.items ≡ events.old.items ++ piece.now) }
{
    if events.extend_from_slice(piece).is_err() {
        return Err(Message);
    }
    Ok(())
}

/// Appends events.
///
/// After an `Err`, which says that memory ran out, some of them may have been appended.
pub fn append(events: &mut Vec<Event>, more: &[Event]) -> Result<(), Message>
    ensures { OnOk result (events.new.items ≡ events.old.items ++ more.now) }
{
    let mut at = 0;
    while at < more.len() {
        let many = piece(more.len() - at);
        append_piece(events, &more[at..][..many])?;
        at += many;
    }
    Ok(())
}

/// Copies these events at once over those from `to` on.
fn copy_piece(events: &mut [Event], to: usize, from: &[Event])
    requires { to + length from.now ≤ length events.old }
    ensures copied { take (to + length from.now) events.new ≡ take to events.old ++ from.now }
    ensures following { drop (to + length from.now) events.new ≡ drop (to + length from.now) events.old }
    ensures many { length events.new ≡ length events.old }
{
    events[to..to + from.len()].copy_from_slice(from);
}

/// From so many events on, events that are moved by less than their number are copied by pieces of that size.
const FEW: usize = 8;

/// Moves the events from `from` to `end` down to `to`, at most as many at once as they are moved by.
fn move_pieces_down(events: &mut [Event], to: usize, from: usize, end: usize)
    requires { (to < from) × (from ≤ end) × (end ≤ length events.old) }
    ensures moved { take (to + (end - from)) events.new ≡
        take to events.old ++ take (end - from) (drop from events.old) }
    ensures following { drop end events.new ≡ drop end events.old }
    ensures many { length events.new ≡ length events.old }
{
    let gap = from - to;
    let mut at = from;
    while at < end {
        let many = piece(gap.min(end - at));
        let (front, back) = events.split_at_mut(at);
        copy_piece(front, at - gap, &back[..many]);
        at += many;
    }
}

/// Moves the events from `from` to `end` down to `to`.
pub fn move_down(events: &mut [Event], to: usize, from: usize, end: usize)
    requires { (to ≤ from) × (from ≤ end) × (end ≤ length events.old) }
    ensures moved { take (to + (end - from)) events.new ≡
        take to events.old ++ take (end - from) (drop from events.old) }
    ensures following { drop end events.new ≡ drop end events.old }
    ensures many { length events.new ≡ length events.old }
{
    if to == from {
        return;
    }
    if from - to >= FEW || end - from <= from - to {
        move_pieces_down(events, to, from, end);
    } else {
        events.copy_within(from..end, to);
    }
}

/// Moves the events from `from` on up by so many places; as many events at the end of the list are lost.
pub fn move_up(events: &mut [Event], from: usize, gap: usize)
    requires { (0 < gap) × (from + gap ≤ length events.old) }
    ensures moved { drop (from + gap) events.new ≡ drop from (take (length events.old - gap) events.old) }
    ensures before { take from events.new ≡ take from events.old }
    ensures many { length events.new ≡ length events.old }
{
    let mut end = events.len() - gap;
    while from < end {
        let many = piece(gap.min(end - from));
        end -= many;
        let (front, back) = events.split_at_mut(end + gap);
        copy_piece(back, 0, &front[end..][..many]);
    }
}
