// Leaf blocks of several lines, whose lines are joined in one walk over the events.
//
// At first each line is a block by itself. The walk looks at each event as it passes it, and else at most once from an
// end of a block before it that asks for the next one. So it is linear. It only leaves out events and renames some, so
// the events are moved down in their own list.

ghost use Rattle.std.specs.Prelude.{◌≡◌, ℕ, ◌≤◌, ◌<◌, ◌++◌, ◌∷◌, ◌||◌, [], IfOk, List, None, OnOk, drop};
ghost use Rattle.std.specs.Prelude.{false, length, take, true};
ghost use Rattle.std.specs.List.{prefix_len};
ghost use Rattle.std.specs.Option.{option_map};
ghost use Rattle.md_engine.specs.Found.{found_in};
ghost use Rattle.md_engine.specs.World.{world};
ghost use Rattle.md_events.specs.Rewritten.{IsFirst, held_of};
ghost use Rattle.md_leaves.specs.Spanned.{Ends, begins_further, given, given_by, is_continued, has_lines};
ghost use Rattle.md_leaves.specs.Spanned.{is_blank_ending, is_code_line, is_renamed, links_back, passes, passes_on};
ghost use Rattle.md_leaves.specs.Spanned.{place_after, place_by};
ghost use Rattle.md_leaves.specs.Turned.{HoldNoUnderline, is_underline};
ghost use Rattle.md_leaves.specs.Spanned.{renamed, spanned, turn_by};
ghost use Rattle.md_events.specs.Events.Spelled.{role};
ghost use Rattle.md_events.specs.Parts.{ArePlaced};

use md_engine::event::{Event, Kind, Link, Name};
use md_engine::message::Message;
use md_engine::subtokenize::Subresult;
use md_engine::tokenizer::Tokenizer;
use md_events::names::is_block;
use md_events::rewriting::Rewriting;
use md_events::walks::{Test, passing};

/// Whether these events are of a leaf block of several lines.
///
/// Names that are no neighbours are asked for apart: so this is a test of a bit, where one match is a jump by a table.
#[inline(always)]
fn has_lines(name: Name) -> bool
    ensures { result ≡ has_lines (role name) }
{
    matches!(name, Name::CodeIndented | Name::CodeFenced)
        || matches!(name, Name::MathFlow)
        || matches!(name, Name::HtmlFlow)
        || matches!(name, Name::GfmTable)
}

/// Whether these events are of an underline.
#[inline(always)]
fn is_underline(name: Name) -> bool
    ensures { result ≡ is_underline name }
{
    matches!(name, Name::HeadingSetextUnderline)
}

/// Whether these events are of a line of code.
#[inline(always)]
fn is_code_line(name: Name) -> bool
    ensures { result ≡ is_code_line name }
{
    matches!(name, Name::CodeFlowChunk)
}

/// Whether these events are of the ending of a blank line.
#[inline(always)]
fn is_blank_ending(name: Name) -> bool
    ensures { result ≡ is_blank_ending name }
{
    matches!(name, Name::BlankLineEnding)
}

/// Whether a link says that its part continues the one before.
fn links_back(link: Option<Link>) -> bool
    ensures { result ≡ links_back link }
{
    match link {
        Some(link) => link.previous,
        None => false,
    }
}

/// Whether a further line of a block begins here.
fn begins_further(event: &Event) -> bool
    ensures { result ≡ begins_further event.now }
{
    matches!(event.kind, Kind::Enter) && has_lines(event.name) && links_back(event.link)
}

/// Whether the next block is a further line.
fn is_continued(events: &[Event]) -> bool
    ensures { result ≡ is_continued events.now }
{
    let mut at = 0;
    while at < events.len() {
        let event = events[at];
        if is_block(event.name) {
            return begins_further(&event);
        }
        at += 1;
    }
    false
}

/// Where a walk over the events is.
#[derive(Clone, Copy)]
pub enum Place {
    /// Neither in a block of several lines nor between two lines of one.
    Outside,
    /// In a line of such a block.
    Inside,
    /// Between two lines of one.
    Between,
}

/// Whether a part at a place gets another name.
#[inline(always)]
fn is_renamed(place: Place, name: Name) -> bool
    ensures { result ≡ is_renamed place name }
{
    match place {
        Place::Outside => is_code_line(name),
        Place::Inside => false,
        Place::Between => is_blank_ending(name),
    }
}

/// Whether an event passes a place as it is.
#[inline(always)]
pub fn passes(place: Place, event: &Event) -> bool
    ensures { result ≡ passes place event.now }
{
    !has_lines(event.name) && !is_renamed(place, event.name)
}

/// Whether an event passes a place as it is, and is of no underline.
#[inline(always)]
pub fn passes_on(place: Place, event: &Event) -> bool
    ensures { result ≡ passes_on place event.now }
{
    let name = event.name;
    !(has_lines(name) || is_underline(name) || is_renamed(place, name))
}

/// Whether an event passes a place as it is, and is of no underline.
#[derive(Drop)]
struct PassesAt {
    place: Place,
}

impl Test for PassesAt {
    ghost passes = { λ test. passes_on test.place };

    #[inline(always)]
    fn passes(&self, event: &Event) -> bool {
        passes_on(self.place, event)
    }
}

/// How many events are before the first that does not pass a place as it is, or is of an underline.
fn until_other(place: Place, events: &[Event]) -> usize
    ensures value { result ≡ prefix_len (passes_on place) events.now }
    ensures within { result ≤ length events.now }
{
    match place {
        Place::Outside => passing(
            &PassesAt {
                place: Place::Outside,
            },
            events,
        ),
        Place::Inside => passing(
            &PassesAt {
                place: Place::Inside,
            },
            events,
        ),
        Place::Between => passing(
            &PassesAt {
                place: Place::Between,
            },
            events,
        ),
    }
}

/// A walk over the events.
#[derive(Drop)]
struct Walk {
    /// What is given for the events so far, those that are held after it, which are given as they are, and those that
    /// are left.
    all: Rewriting,
    place: Place,
    /// Whether there was an underline.
    underlines: bool,
}

impl Walk {
    ghost use Rattle.md_leaves.specs.SpannedWalk.{given_of, passing, rest_of};

    /// Gives the event that is left first as it is.
    fn keep(&mut self, event: Event)
        requires { IsFirst event (rest_of self.old) }
        ensures given { given_of self.new ≡ given_of self.old ++ event ∷ [] }
        ensures rest { rest_of self.new ≡ drop 1 (rest_of self.old) }
        ensures place { self.new.place ≡ self.old.place }
        ensures underlines { self.new.underlines ≡ self.old.underlines }
    {
        self.all.hold(event);
    }

    /// Leaves out the event that is left first.
    fn leave_out(&mut self, event: Event)
        requires { IsFirst event (rest_of self.old) }
        ensures given { given_of self.new ≡ given_of self.old }
        ensures rest { rest_of self.new ≡ drop 1 (rest_of self.old) }
        ensures held { held_of self.new.all ≡ [] }
        ensures place { self.new.place ≡ self.old.place }
        ensures underlines { self.new.underlines ≡ self.old.underlines }
    {
        self.all.give();
        self.all.hold(event);
        self.all.leave_out(1);
    }

    /// Gives the event that is left first by another name.
    fn rename(&mut self, event: Event, name: Name) -> Result<(), Message>
        requires { IsFirst event (rest_of self.old) }
        ensures given { OnOk result (given_of self.new ≡ given_of self.old ++ record event { name = name } ∷ []) }
        ensures rest { OnOk result (rest_of self.new ≡ drop 1 (rest_of self.old)) }
        ensures place { self.new.place ≡ self.old.place }
        ensures underlines { self.new.underlines ≡ self.old.underlines }
    {
        self.leave_out(event);
        self.all.push(Event { name, ..event })
    }

    /// Gives the events before the first that does not pass here as it is.
    fn pass(&mut self)
        ensures given { given_of self.new ≡ given_of self.old ++ take (passing self.old) (rest_of self.old) }
        ensures rest { rest_of self.new ≡ drop (passing self.old) (rest_of self.old) }
        ensures place { self.new.place ≡ self.old.place }
        ensures underlines { self.new.underlines ≡ self.old.underlines }
    {
        let many = until_other(self.place, self.all.left());
        self.all.hold_many(many);
    }

    /// Whether the next block after the event that is left first is a further line.
    fn is_continued_next(&self) -> bool
        requires { 0 < length (rest_of self.now) }
        ensures { result ≡ is_continued (drop 1 (rest_of self.now)) }
    {
        is_continued(&self.all.left()[1..])
    }

    /// Gives an event that no line begins or ends with.
    fn stay(&mut self, event: Event) -> Result<(), Message>
        requires { IsFirst event (rest_of self.old) }
        ensures given { OnOk result (given_of self.new ≡ given_of self.old ++ renamed self.old.place event ∷ []) }
        ensures rest { OnOk result (rest_of self.new ≡ drop 1 (rest_of self.old)) }
        ensures place { self.new.place ≡ self.old.place }
        ensures underlines { self.new.underlines ≡ self.old.underlines }
    {
        match self.place {
            Place::Outside if is_code_line(event.name) => self.rename(event, Name::SpaceOrTab),
            Place::Between if is_blank_ending(event.name) => self.rename(event, Name::LineEnding),
            _ => {
                self.keep(event);
                Ok(())
            }
        }
    }

    /// Gives the begin of a line.
    fn begin(&mut self, event: Event)
        requires { IsFirst event (rest_of self.old) }
        ensures given { given_of self.new ≡
            given_of self.old
            ++ given_by (turn_by Kind.Enter true (links_back event.link)) self.old.place false event }
        ensures rest { rest_of self.new ≡ drop 1 (rest_of self.old) }
        ensures place { self.new.place ≡ Place.Inside }
        ensures underlines { self.new.underlines ≡ self.old.underlines }
    {
        if links_back(event.link) && matches!(self.place, Place::Between) {
            self.leave_out(event);
        } else {
            self.keep(event);
        }
        self.place = Place::Inside;
    }

    /// Gives the end of a line.
    fn end(&mut self, event: Event, further: bool)
        requires { IsFirst event (rest_of self.old) }
        ensures given { given_of self.new ≡ given_of self.old ++ given_by Ends self.old.place further event }
        ensures rest { rest_of self.new ≡ drop 1 (rest_of self.old) }
        ensures place { self.new.place ≡ place_by Ends self.old.place further }
        ensures underlines { self.new.underlines ≡ self.old.underlines }
    {
        if further {
            self.leave_out(event);
            self.place = Place::Between;
        } else {
            self.keep(event);
            self.place = Place::Outside;
        }
    }

    /// Gives the event that is left first.
    fn step(&mut self, event: Event) -> Result<(), Message>
        requires { IsFirst event (rest_of self.old) }
        ensures given { OnOk result
            (given_of self.new ≡ given_of self.old ++ given self.old.place event (drop 1 (rest_of self.old))) }
        ensures rest { OnOk result (rest_of self.new ≡ drop 1 (rest_of self.old)) }
        ensures place { OnOk result
            (self.new.place ≡ place_after self.old.place event (drop 1 (rest_of self.old))) }
        ensures underlines { OnOk result
            (self.new.underlines ≡ (self.old.underlines || is_underline event.name)) }
    {
        self.underlines = self.underlines || is_underline(event.name);
        if !has_lines(event.name) {
            return self.stay(event);
        }
        if matches!(event.kind, Kind::Enter) {
            self.begin(event);
        } else {
            self.end(event, self.is_continued_next());
        }
        Ok(())
    }
}

/// Events whose lines are joined.
#[derive(Drop)]
pub struct Joined {
    pub events: Vec<Event>,
    /// Whether there may be an underline of a heading among them.
    pub underlines: bool,
}

/// The events with the lines of each block joined, in the list of the events. It is known of the first `many` that they
/// pass as they are.
pub fn join(events: Vec<Event>, many: usize) -> Result<Joined, Message>
    requires { many ≤ prefix_len (passes_on Place.Outside) events.items }
    ensures events { IfOk result (λ joined. joined.events.items ≡ spanned events.items) }
    ensures placed { IfOk result
        (λ joined. (text : List ℕ) → ArePlaced text events.items → ArePlaced text joined.events.items) }
    ensures underlines { IfOk result
        (λ joined. joined.underlines ≡ false → HoldNoUnderline joined.events.items) }
{
    let mut walk = Walk {
        all: Rewriting::new(events),
        place: Place::Outside,
        underlines: false,
    };
    walk.all.hold_many(many);
    walk.pass();
    while let Some(event) = walk.all.first() {
        walk.step(event)?;
        walk.pass();
    }
    let Walk {
        mut all,
        underlines,
        ..
    } = walk;
    all.give();
    Ok(Joined {
        events: all.finish(),
        underlines,
    })
}

/// Joins the lines of each block of several lines, where it is known of the first `many` events that they pass as they
/// are. Returns whether there may be an underline of a heading among the events.
///
/// After an `Err` the parse has failed, and the tokenizer is only dropped.
pub fn join_all(tokenizer: &mut Tokenizer, many: usize) -> Result<bool, Message>
    requires frames { (world tokenizer.old).frames ≡ [] }
    requires many { many ≤ prefix_len (passes_on Place.Outside) (world tokenizer.old).events }
    ensures world { OnOk result
        (world tokenizer.new ≡
        record (world tokenizer.old) { events = spanned (world tokenizer.old).events }) }
    ensures underlines { IfOk result
        (λ underlines. underlines ≡ false → HoldNoUnderline (spanned (world tokenizer.old).events)) }
{
    let events = tokenizer.take_events();
    let joined = join(events, many)?;
    tokenizer.set_events(joined.events);
    Ok(joined.underlines)
}

/// Joins the lines of each block of several lines.
///
/// After an `Err` the parse has failed, and the tokenizer is only dropped.
pub fn resolve(tokenizer: &mut Tokenizer) -> Result<Option<Subresult>, Message>
    requires { (world tokenizer.old).frames ≡ [] }
    ensures world { IfOk result
        (λ found.
        world tokenizer.new ≡
        record (world tokenizer.old) { events = spanned (world tokenizer.old).events }) }
    ensures found { IfOk result (λ found. option_map found_in found ≡ None) }
{
    join_all(tokenizer, 0)?;
    Ok(None)
}
