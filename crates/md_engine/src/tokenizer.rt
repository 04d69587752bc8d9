// The tokenizer and its primitives.
//
// A tokenizer walks over the text from point to point. States add events at its point, move it on, and begin attempts:
// trials that are taken back where they fail. Each primitive says what the whole tokenizer is afterwards, by one
// equation over `world`, which is what contracts see of a tokenizer.
ghost use Rattle.std.specs.Prelude.{◌≡◌, ◌-◌, drop, ◌+◌, ◌^◌, ◌∷◌, ◌++◌, ◌<◌, ◌≤◌, [], length, All};
ghost use Rattle.std.specs.Prelude.{if◌then◌else◌, is_err, is_ok, ◌==◌, true, false, Some, None, take, IfSome};
ghost use Rattle.std.specs.Prelude.{IfNone, reverse, slice_set};
ghost use Rattle.md_engine.specs.Place.{IsPlaced, is_pair, next_point, stepped};
ghost use Rattle.md_engine.specs.Sound.{IsSound};
ghost use Rattle.md_engine.specs.KnownRun.{IsKnownRun};
ghost use Rattle.md_engine.specs.KnownContinuing.{EndsContinuing, IsKnownContinuing};
ghost use Rattle.md_engine.specs.Ends.{ends_at, point_of};

pub mod container;
pub mod held_leaf;
mod seeing;

use crate::class::Class;
use crate::configuration::ParseOptions;
use crate::event::{Event, Kind, Link, Name, Point};
use crate::known_continuing::KnownContinuing;
use crate::known_run::KnownRun;
use crate::message::Message;
use crate::resolve::Name as ResolveName;
use crate::state::State;
use crate::tokenizer::container::name::{first_kind, name_of};
pub use crate::tokenizer::container::{Container, ContainerKind};
pub use crate::tokenizer::held_leaf::{HeldLeaf, HtmlKind, OpenText, Progress};
use std::alloc::Global;
use std::mem;

/// How much whitespace a construct asks for, in columns, and how much of it was taken.
#[derive(Clone, Copy)]
pub struct Whitespace {
    pub min: usize,
    pub max: usize,
    pub size: usize,
}

/// What a construct keeps from state to state. Between constructs it is at rest.
#[derive(Clone, Copy)]
pub struct Scratch {
    /// The byte that a sequence is made of.
    pub marker: u8,
    /// A second such byte.
    pub marker_b: u8,
    /// How many there were.
    pub size: usize,
    /// How many columns a delimiter row has to have.
    pub columns_wanted: usize,
    /// How many there were of something else, or the column where that begins.
    pub size_c: usize,
    /// Where something began, as an index of the text or of the events.
    pub start: usize,
    /// Where it ended.
    pub end: usize,
    /// Whether something was met.
    pub seen: bool,
    /// Whether a part continues from the line before.
    pub connect: bool,
    pub whitespace: Whitespace,
}

impl Scratch {
    /// What is there between constructs.
    pub const REST: Scratch = Scratch {
        marker: 0,
        marker_b: 0,
        size: 0,
        columns_wanted: 0,
        size_c: 0,
        start: 0,
        end: 0,
        seen: false,
        connect: false,
        whitespace: Whitespace {
            min: 0,
            max: 0,
            size: 0,
        },
    };
}

/// What a construct shows the containers around it, and what the document knows of these.
#[derive(Clone, Copy)]
pub struct Flags {
    /// The leaf that is open after what was read: whether a container would interrupt it, or cannot open in it, is read
    /// off it.
    pub leaf: HeldLeaf,
    /// Whether nothing but whitespace is on the line that was read.
    pub blank: bool,
    /// The leaf that was open before the line that is read.
    pub leaf_before: HeldLeaf,
    /// How many containers continued, or opened, on this line.
    pub continued: usize,
    /// The container that is asked whether it continues, or that is tried: as it is held if it continues or opens. Else
    /// it means nothing.
    pub asked: Container,
    /// The column where it begins.
    pub asked_column: usize,
    /// The index of the first event after the line that was read last: of its ending, if it has one.
    pub line_end: usize,
}

/// What the containers say of the line that is fed.
#[derive(Clone, Copy)]
pub struct Line {
    /// The index from which on this holds.
    pub start: usize,
    /// Whether the line is lazy: not all containers continued, and none opened.
    pub lazy: bool,
}

/// Where an attempt continues, and what it goes back to.
#[derive(Clone, Copy)]
pub struct Frame {
    pub ok: State,
    pub nok: State,
    /// Whether it goes back also where it held.
    pub is_check: bool,
    pub events_len: usize,
    pub point: Point,
}

/// Walks over the text, and gathers events.
#[derive(Drop)]
pub struct Tokenizer<'a> {
    pub alloc: Global,
    pub bytes: &'a [u8],
    pub options: &'a ParseOptions,
    pub point: Point,
    /// What is at the point: a byte, `\n` for each line ending, or nothing at the end.
    pub current: Option<u8>,
    pub events: Vec<Event>,
    pub frames: Vec<Frame>,
    pub scratch: Scratch,
    pub flags: Flags,
    /// The open containers, the outermost first.
    pub containers: Vec<Container>,
    /// The line of the first of `skips`.
    pub first_line: usize,
    /// Where each line begins, after the prefixes of its containers.
    pub skips: Vec<Point>,
    /// How far the text may be read now.
    pub limit: usize,
    pub line: Line,
    pub resolvers: Vec<ResolveName>,
    /// How far whitespace is known to go.
    white: KnownRun,
    /// How far a run of a marker and whitespace is known to go.
    marks: KnownRun,
    /// Which open containers are known to continue over an empty line.
    over: KnownContinuing,
    ghost sound: { IsSound bytes.now point limit events.items frames.items skips.items },
    ghost spread: { IsKnownRun bytes.now white × IsKnownRun bytes.now marks },
    ghost passed: { IsKnownContinuing containers.items over },
}

/// Goes to `State::Error` where there was no memory.
#[macro_export]
macro_rules! or_error {
    ($grown:expr) => {
        if $grown.is_err() {
            return State::Error;
        }
    };
}

/// Whether CR LF is at `index`.
fn is_pair(bytes: &[u8], index: usize) -> bool
    requires { index < length bytes.now }
    ensures { result ≡ is_pair bytes.now index }
{
    bytes[index] == b'\r' && index + 1 < bytes.len() && bytes[index + 1] == b'\n'
}

/// The point after this byte, or after the pair CR LF.
fn step(point: Point, byte: u8, pair: bool) -> Point
    requires { (point.index < 2 ^ 61) × (point.line < 2 ^ 62) × (point.column < 2 ^ 63 + 99) × (point.vs < 4) }
    ensures { result ≡ stepped byte pair point }
{
    let Point {
        line,
        column,
        index,
        vs,
    } = point;
    if byte > b'\r' {
        Point {
            line,
            column: column + 1,
            index: index + 1,
            vs: 0,
        }
    } else if byte == b'\n' || byte == b'\r' {
        Point {
            line: line + 1,
            column: 1,
            index: if pair { index + 2 } else { index + 1 },
            vs: 0,
        }
    } else if byte == b'\t' && column % 4 != 0 {
        Point {
            line,
            column: column + 1,
            index,
            vs: vs + 1,
        }
    } else {
        Point {
            line,
            column: column + 1,
            index: index + 1,
            vs: 0,
        }
    }
}

/// The point so many bytes further on its line.
fn further(point: Point, count: usize) -> Point
    requires { (point.index + count < 2 ^ 62) × (point.column + count < 2 ^ 64) }
    ensures { result ≡ record point { column = point.column + count; index = point.index + count; vs = 0 } }
{
    Point {
        line: point.line,
        column: point.column + count,
        index: point.index + count,
        vs: 0,
    }
}

/// Adds the ends of containers at a point after the last event, the innermost first; or changes nothing.
fn add_ends(events: &mut Vec<Event>, containers: &[Container], point: Point) -> Result<(), Message>
    ensures { events.new.items ≡
        (if is_ok result then events.old.items ++ ends_at containers.now point else events.old.items) }
{
    if events.reserve(containers.len()).is_err() {
        return Err(Message);
    }
    let mut left = containers.len();
    while left > 0 {
        left -= 1;
        let event = Event {
            kind: Kind::Exit,
            name: name_of(containers[left].kind),
            point,
            link: None,
        };
        events.push_reserved(event);
    }
    Ok(())
}

/// Of at most so many events, the last are moved to the front by turning them around. Of more that takes longer than
/// the library's way, which needs room for some of them.
const FEW: usize = 64;

/// Moves the last `count` events to the front.
fn turn_few(events: &mut [Event], count: usize)
    requires { count ≤ length events.old }
    ensures { events.new ≡ drop (length events.old - count) events.old ++ take (length events.old - count) events.old }
{
    events.reverse();
    let (front, back) = events.split_at_mut(count);
    front.reverse();
    back.reverse();
}

/// Moves the last event to the front.
fn turn_one(events: &mut [Event])
    requires { 0 < length events.old }
    ensures { events.new ≡ drop (length events.old - 1) events.old ++ take (length events.old - 1) events.old }
{
    let last = events.len() - 1;
    let moved = events[last];
    events.copy_within(..last, 1);
    events[0] = moved;
}

/// Moves the last `count` events before the one at `at`.
fn turn(events: &mut Vec<Event>, at: usize, count: usize)
    requires { at + count ≤ length events.old.items }
    ensures { events.new.items ≡
        take at events.old.items ++ drop (length events.old.items - at - count) (drop at events.old.items)
        ++ take (length events.old.items - at - count) (drop at events.old.items) }
{
    if events.len() - at == count {
        return;
    }
    if count == 1 {
        turn_one(&mut events[at..]);
    } else if events.len() - at <= FEW {
        turn_few(&mut events[at..], count);
    } else {
        events[at..].rotate_right(count);
    }
}

impl<'a> Tokenizer<'a> {
    ghost use Rattle.md_engine.specs.Full.{Grown, IsFullList};
    ghost use Rattle.md_engine.specs.Staying.{TakesAll};
    ghost use Rattle.md_engine.specs.World.{closed, world, looks, after, fresh, line_begun, reads_to, registered};
    ghost use Rattle.md_engine.specs.World.{registered_before, skipping};

    /// A tokenizer at `point`, which has read nothing.
    pub fn new(
        alloc: Global,
        point: Point,
        bytes: &'a [u8],
        options: &'a ParseOptions,
    ) -> Tokenizer<'a>
        requires { IsPlaced bytes.now point }
        ensures { world result ≡ fresh bytes.now options.now point }
    {
        Tokenizer {
            alloc,
            bytes,
            options,
            point,
            current: None,
            events: Vec::new(alloc),
            frames: Vec::new(alloc),
            scratch: Scratch::REST,
            flags: Flags {
                leaf: HeldLeaf::None,
                blank: false,
                leaf_before: HeldLeaf::None,
                continued: 0,
                asked: Container::new(first_kind()),
                asked_column: 0,
                line_end: 0,
            },
            containers: Vec::new(alloc),
            first_line: point.line,
            skips: Vec::new(alloc),
            limit: 0,
            line: Line {
                start: 0,
                lazy: false,
            },
            resolvers: Vec::new(alloc),
            white: KnownRun::NONE,
            marks: KnownRun::NONE,
            over: KnownContinuing::NONE,
        }
    }

    /// Adds an event at the point where the list may have no room for it, or changes nothing. This is rare, so it is
    /// apart.
    #[inline(never)]
    #[tactic(auto, unfolding(crate::specs::Full::IsFullList))]
    fn add_growing(&mut self, kind: Kind, name: Name, link: Option<Link>) -> Result<(), Message>
        ensures world { world self.new ≡
            record (world self.old) {
              events = if is_ok result
                  then (world self.old).events
                  ++ record { kind = kind; name = name; point = (world self.old).point; link = link } ∷ []
                  else (world self.old).events;
            } }
        ensures full { is_err result ≡ true → IsFullList Grown.Events self.new }
    {
        if self.events.reserve(1).is_err() {
            return Err(Message);
        }
        let event = Event {
            kind,
            name,
            point: self.point,
            link,
        };
        self.events.push_reserved(event);
        Ok(())
    }

    /// Adds an event at the point, or changes nothing.
    fn add(&mut self, kind: Kind, name: Name, link: Option<Link>) -> Result<(), Message>
        ensures world { world self.new ≡
            record (world self.old) {
              events = if is_ok result
                  then (world self.old).events
                  ++ record { kind = kind; name = name; point = (world self.old).point; link = link } ∷ []
                  else (world self.old).events;
            } }
        ensures full { is_err result ≡ true → IsFullList Grown.Events self.new }
    {
        if self.events.len() >= self.events.capacity() {
            return self.add_growing(kind, name, link);
        }
        let event = Event {
            kind,
            name,
            point: self.point,
            link,
        };
        self.events.push_reserved(event);
        Ok(())
    }

    /// Adds the begin of a part at the point, or changes nothing.
    pub fn enter(&mut self, name: Name) -> Result<(), Message>
        ensures world { world self.new ≡
            record (world self.old) {
              events = if is_ok result
                  then (world self.old).events
                  ++ record { kind = Kind.Enter; name = name; point = (world self.old).point; link = None } ∷ []
                  else (world self.old).events;
            } }
        ensures full { is_err result ≡ true → IsFullList Grown.Events self.new }
    {
        self.add(Kind::Enter, name, None)
    }

    /// Adds the begin of a part that is read later, or changes nothing.
    pub fn enter_link(&mut self, name: Name, link: Link) -> Result<(), Message>
        ensures world { world self.new ≡
            record (world self.old) {
              events = if is_ok result
                  then (world self.old).events
                  ++ record { kind = Kind.Enter; name = name; point = (world self.old).point; link = Some link } ∷ []
                  else (world self.old).events;
            } }
        ensures full { is_err result ≡ true → IsFullList Grown.Events self.new }
    {
        self.add(Kind::Enter, name, Some(link))
    }

    /// Adds the end of a part at the point, or changes nothing.
    pub fn exit(&mut self, name: Name) -> Result<(), Message>
        ensures world { world self.new ≡
            record (world self.old) {
              events = if is_ok result
                  then (world self.old).events
                  ++ record { kind = Kind.Exit; name = name; point = (world self.old).point; link = None } ∷ []
                  else (world self.old).events;
            } }
        ensures full { is_err result ≡ true → IsFullList Grown.Events self.new }
    {
        self.add(Kind::Exit, name, None)
    }

    /// What is at the point, as far as the text may be read.
    #[inline(always)]
    pub fn look(&self) -> Option<u8>
        ensures { result ≡ looks (world self.now) }
    {
        let Point { index, vs, .. } = self.point;
        if index >= self.limit {
            return None;
        }
        match self.bytes[index] {
            byte if byte > b'\r' => Some(byte),
            b'\n' | b'\r' => Some(b'\n'),
            b'\t' if vs > 0 => Some(b' '),
            byte => Some(byte),
        }
    }

    /// Where the line of `point` begins, if `point` is its first.
    fn begin_line(&self, point: Point) -> Point
        requires { IsPlaced self.now.bytes.now point }
        ensures value { result ≡ line_begun (world self.now).setting point }
        ensures placed { IsPlaced self.now.bytes.now result }
    {
        let at = point.line.saturating_sub(self.first_line);
        if at < self.skips.len() {
            let skip = self.skips[at];
            if point.index <= skip.index {
                return skip;
            }
        }
        point
    }

    /// The point after what is at the point, before any prefix is left out.
    fn next_point(&self) -> Point
        requires { (world self.now).point.index < length (world self.now).setting.bytes }
        ensures value { result ≡ next_point (world self.now).setting.bytes (world self.now).point }
        ensures placed { IsPlaced self.now.bytes.now result }
    {
        let index = self.point.index;
        step(self.point, self.bytes[index], is_pair(self.bytes, index))
    }

    /// Moves the point by one byte, one line ending or one column of a tab.
    pub fn consume(&mut self)
        requires { (world self.old).point.index < length (world self.old).setting.bytes }
        ensures { world self.new ≡
            record (world self.old) { point = after (world self.old).setting (world self.old).point } }
    {
        let next = self.next_point();
        let byte = self.bytes[self.point.index];
        if byte == b'\n' || byte == b'\r' {
            self.point = self.begin_line(next);
        } else {
            self.point = next;
        }
    }

    /// Moves the point by all bytes of a class that are here, up to the index `end` at most.
    pub fn consume_all(&mut self, class: Class, end: usize)
        requires { end ≤ length (world self.old).setting.bytes }
        ensures { TakesAll class end (world self.old) (world self.new) }
    {
        let index = self.point.index;
        if index >= end {
            return;
        }
        let count = class.span(&self.bytes[index..end]);
        if count > 0 {
            self.point = further(self.point, count);
        }
    }

    /// Begins an attempt, or changes nothing.
    #[tactic(auto, unfolding(crate::specs::Full::IsFullList))]
    fn begin(&mut self, ok: State, nok: State, is_check: bool) -> Result<(), Message>
        ensures world { world self.new ≡
            record (world self.old) {
              frames = if is_ok result
                  then record {
                    ok = ok;
                    nok = nok;
                    is_check = is_check;
                    events_len = length (world self.old).events;
                    point = (world self.old).point;
                  }
                  ∷ (world self.old).frames
                  else (world self.old).frames;
            } }
        ensures full { is_err result ≡ true → IsFullList Grown.Frames self.new }
    {
        if self.frames.reserve(1).is_err() {
            return Err(Message);
        }
        let frame = Frame {
            ok,
            nok,
            is_check,
            events_len: self.events.len(),
            point: self.point,
        };
        self.frames.push_reserved(frame);
        Ok(())
    }

    /// Begins an attempt, or changes nothing: what follows continues with `ok` where it holds, and else is taken back
    /// and continues with `nok`. Neither takes back the scratch or the flags.
    pub fn attempt(&mut self, ok: State, nok: State) -> Result<(), Message>
        ensures world { world self.new ≡
            record (world self.old) {
              frames = if is_ok result
                  then record {
                    ok = ok;
                    nok = nok;
                    is_check = false;
                    events_len = length (world self.old).events;
                    point = (world self.old).point;
                  }
                  ∷ (world self.old).frames
                  else (world self.old).frames;
            } }
        ensures full { is_err result ≡ true → IsFullList Grown.Frames self.new }
    {
        self.begin(ok, nok, false)
    }

    /// Begins a check, or changes nothing: an attempt that is taken back also where it holds.
    pub fn check(&mut self, ok: State, nok: State) -> Result<(), Message>
        ensures world { world self.new ≡
            record (world self.old) {
              frames = if is_ok result
                  then record {
                    ok = ok;
                    nok = nok;
                    is_check = true;
                    events_len = length (world self.old).events;
                    point = (world self.old).point;
                  }
                  ∷ (world self.old).frames
                  else (world self.old).frames;
            } }
        ensures full { is_err result ≡ true → IsFullList Grown.Frames self.new }
    {
        self.begin(ok, nok, true)
    }

    /// Takes the innermost attempt, if there is one.
    pub(crate) fn innermost(&mut self) -> Option<Frame>
        ensures some { IfSome result (λ f. (world self.old).frames ≡ f ∷ (world self.new).frames) }
        ensures none { IfNone result ((world self.old).frames ≡ []) }
        ensures same { IfNone result (world self.new ≡ world self.old) }
        ensures placed { IfSome result (λ f. IsPlaced (world self.new).setting.bytes f.point) }
        ensures outer { IfSome result (λ f. All (λ g. g.events_len ≤ f.events_len) (world self.new).frames) }
        ensures rest { world self.new ≡ record (world self.old) { frames = (world self.new).frames } }
    {
        self.frames.pop()
    }

    /// Goes back to what an attempt saved.
    pub(crate) fn restore(&mut self, frame: Frame)
        requires placed { IsPlaced (world self.old).setting.bytes frame.point }
        requires outer { All (λ f. f.events_len ≤ frame.events_len) (world self.old).frames }
        ensures { world self.new ≡
            record (world self.old) { events = take frame.events_len (world self.old).events; point = frame.point } }
    {
        self.events.truncate(frame.events_len);
        self.point = frame.point;
    }

    /// Lets the text be read up to here.
    pub(crate) fn read_to(&mut self, limit: usize)
        requires { limit ≤ length (world self.old).setting.bytes }
        ensures { world self.new ≡ reads_to (world self.old) limit }
    {
        self.limit = limit;
    }

    /// Has the next line begin at `point`, after the prefixes of its containers, and goes there if the tokenizer is at
    /// the line's first byte; or changes nothing.
    #[tactic(auto, unfolding(crate::specs::Full::IsFullList))]
    pub fn define_skip(&mut self, point: Point) -> Result<(), Message>
        requires { IsPlaced (world self.old).setting.bytes point }
        ensures world { world self.new ≡ (if is_ok result then skipping (world self.old) point else world self.old) }
        ensures full { is_err result ≡ true → IsFullList Grown.Skips self.new }
    {
        if self.skips.reserve(1).is_err() {
            return Err(Message);
        }
        self.skips.push_reserved(point);
        if self.point.line == point.line && self.point.index <= point.index {
            self.point = point;
        }
        Ok(())
    }

    /// Has a resolver run at the end, after those that are registered; or changes nothing.
    #[tactic(auto, unfolding(crate::specs::Full::IsFullList))]
    pub fn register_resolver(&mut self, name: ResolveName) -> Result<(), Message>
        ensures world { world self.new ≡
            record (world self.old) {
              resolvers = if is_ok result
                  then registered (world self.old).resolvers name
                  else (world self.old).resolvers;
            } }
        ensures full { is_err result ≡ true → IsFullList Grown.Resolvers self.new }
    {
        if self.resolvers.contains(&name) {
            return Ok(());
        }
        if self.resolvers.reserve(1).is_err() {
            return Err(Message);
        }
        self.resolvers.push_reserved(name);
        Ok(())
    }

    /// Has a resolver run at the end, before those that are registered; or changes nothing.
    #[tactic(auto, unfolding(crate::specs::Full::IsFullList))]
    pub fn register_resolver_before(&mut self, name: ResolveName) -> Result<(), Message>
        ensures world { world self.new ≡
            record (world self.old) {
              resolvers = if is_ok result
                  then registered_before
                  (world self.old).resolvers name
                  else (world self.old).resolvers;
            } }
        ensures full { is_err result ≡ true → IsFullList Grown.Resolvers self.new }
    {
        if self.resolvers.contains(&name) {
            return Ok(());
        }
        if self.resolvers.reserve(1).is_err() {
            return Err(Message);
        }
        match self.resolvers.insert(0, name) {
            Ok(()) => Ok(()),
            Err(_) => Err(Message),
        }
    }

    /// Opens a container in those that are open, or changes nothing.
    #[tactic(auto, unfolding(crate::specs::Full::IsFullList))]
    pub fn open(&mut self, container: Container) -> Result<(), Message>
        ensures world { world self.new ≡
            record (world self.old) {
              flags = record (world self.old).flags {
                containers = if is_ok result
                    then (world self.old).flags.containers ++ container ∷ [] else (world self.old).flags.containers;
              };
            } }
        ensures full { is_err result ≡ true → IsFullList Grown.Containers self.new }
    {
        if self.containers.reserve(1).is_err() {
            return Err(Message);
        }
        self.containers.push_reserved(container);
        Ok(())
    }

    /// Holds another container in place of the open one at an index.
    pub fn set_container(&mut self, index: usize, container: Container)
        requires { index < length (world self.old).flags.containers }
        ensures { world self.new ≡
            record (world self.old) {
              flags = record (world self.old).flags {
                containers = slice_set (world self.old).flags.containers index container;
              };
            } }
    {
        self.over = self.over.changed(index, container);
        self.containers[index] = container;
    }

    /// Up to which the open containers from an index on continue over an empty line: the index of the first that does
    /// not.
    pub fn over_end(&mut self, index: usize) -> usize
        requires { index ≤ length (world self.old).flags.containers }
        ensures ends { EndsContinuing (world self.old).flags.containers index result }
        ensures same { world self.new ≡ world self.old }
    {
        self.over = self.over.found(&self.containers, index);
        self.over.to
    }

    /// Where containers end that end before the event at `at`: at its point, or at the tokenizer's if there is none.
    fn end_point(&self, at: usize) -> Point
        ensures value { result ≡ point_of (drop at (world self.now).events) (world self.now).point }
        ensures placed { IsPlaced self.now.bytes.now result }
    {
        if at < self.events.len() {
            self.events[at].point
        } else {
            self.point
        }
    }

    /// Ends the containers after the first `keep`, the innermost first, before the event at `at` and at its point, or
    /// at the tokenizer's point after the last event; or changes nothing.
    #[inline(always)]
    pub fn close(&mut self, keep: usize, at: usize) -> Result<(), Message>
        ensures world { world self.new ≡ (if is_ok result then closed (world self.old) keep at else world self.old) }
        ensures full { is_err result ≡ true → keep < length (world self.old).flags.containers }
    {
        if self.containers.len() <= keep {
            return Ok(());
        }
        self.end_containers(keep, at)
    }

    /// The same, where a container ends. Most lines end none, so this is not inlined.
    #[inline(never)]
    fn end_containers(&mut self, keep: usize, at: usize) -> Result<(), Message>
        requires { keep < length (world self.old).flags.containers }
        ensures { world self.new ≡ (if is_ok result then closed (world self.old) keep at else world self.old) }
    {
        let point = self.end_point(at);
        let at = at.min(self.events.len());
        let count = self.containers.len() - keep;
        add_ends(&mut self.events, &self.containers[keep..], point)?;
        turn(&mut self.events, at, count);
        self.over = self.over.cut(keep);
        self.containers.truncate(keep);
        Ok(())
    }

    /// Takes all events, for a walk over them.
    pub fn take_events(&mut self) -> Vec<Event>
        requires { (world self.old).frames ≡ [] }
        ensures events { result.items ≡ (world self.old).events }
        ensures placed { All (λ e. IsPlaced (world self.old).setting.bytes e.point) result.items }
        ensures rest { world self.new ≡ record (world self.old) { events = [] } }
    {
        mem::replace(&mut self.events, Vec::new(self.alloc))
    }

    /// Sets the events that a walk has given.
    pub fn set_events(&mut self, events: Vec<Event>)
        requires frames { (world self.old).frames ≡ [] }
        requires placed { All (λ e. IsPlaced (world self.old).setting.bytes e.point) events.items }
        ensures { world self.new ≡ record (world self.old) { events = events.items } }
    {
        self.events = events;
    }

    /// Takes the resolvers that were registered.
    pub(crate) fn take_resolvers(&mut self) -> Vec<ResolveName>
        ensures names { result.items ≡ (world self.old).resolvers }
        ensures rest { world self.new ≡ record (world self.old) { resolvers = [] } }
    {
        mem::replace(&mut self.resolvers, Vec::new(self.alloc))
    }
}
