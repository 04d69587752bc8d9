// One pass for the resolvers of items, headings and tables.
//
// The walk goes over the events from left to right, and writes over those that it has read. Events that are of no block
// that is set are moved at once, as many as follow one another. Leaf blocks hold no block, so an ATX heading and a
// table are set from their begin to their end, and nothing else is set there.
//
// It looks ahead from the begin of an item to its marker, from the end of one to the next block, from the begin of a
// paragraph to the underline after it, and from the begin of an ATX heading to its end; so no event is looked at more
// than three times, and the walk is linear.

ghost use Rattle.std.specs.Prelude.{◌≡◌, ◌≤◌, ◌<◌, ◌&&◌, ◌++◌, IfOk, None, OnOk, List, ℕ, []};
ghost use Rattle.std.specs.Prelude.{drop, length, not, take, false, true};
ghost use Rattle.std.specs.List.{prefix_len};
ghost use Rattle.std.specs.Option.{option_map};
ghost use Rattle.md_engine.specs.Found.{found_in};
ghost use Rattle.md_engine.specs.World.{world};
ghost use Rattle.md_containers.specs.Listed.{given, given_by, is_item, place_after, place_by};
ghost use Rattle.md_containers.specs.Listed.{Begins, Ends, outside};
ghost use Rattle.md_leaves.specs.Turned.{HoldNoUnderline, is_turned, on_by, turn};
ghost use Rattle.md_leaves.specs.Turned as setext;
ghost use Rattle.md_order.specs.Alone.{MayPass, is_set};
ghost use Rattle.md_order.specs.InOrder.{every, in_order, wanted_of};
ghost use Rattle.md_order.specs.Left.{MayStay, is_passed};
ghost use Rattle.md_order.specs.Nests.{MayNest};
ghost use Rattle.md_events.specs.Events.Nested.{Nested};
ghost use Rattle.md_events.specs.Events.Spelled.{role};
ghost use Rattle.md_events.specs.Parts.{ArePlaced};
ghost use Rattle.md_tables.specs.Tabled.{begins_table, bound_of, tabled};
ghost use Rattle.md_order.specs.Left.{ends_table, table_len};
ghost use Rattle.md_resolve.specs.PassWalk.{given_of, items_of, rest_of, whole_of};
ghost use Rattle.md_events.specs.Rewritten.{IsFirst};

use crate::heading_text;
use crate::heading_text::{begins_heading, ends_heading};
use crate::items::{is_continued, is_item, list_event, marker_ahead, next_item};
use crate::underlines::{self, enter, exit, is_turned};
use md_engine::event::{Event, Kind, Name};
use md_engine::message::Message;
use md_engine::resolve::Name as ResolveName;
use md_engine::subtokenize::Subresult;
use md_engine::tokenizer::Tokenizer;
use md_events::rewriting::Rewriting;
use md_events::walks::{Test, passing};
use md_order::wanted::{Wanted, wanted_of};
use md_tables::tables::put_tables;
use std::alloc::Global;
use std::mem;

/// Whether a table begins here.
#[inline(always)]
fn begins_table(event: &Event) -> bool
    ensures { result ≡ begins_table (bound_of event.now) }
{
    matches!(event.kind, Kind::Enter) && matches!(event.name, Name::GfmTable)
}

/// Whether events of this name are of an item, an ATX heading, a paragraph, an underline or a table; all others pass.
///
/// Names that are no neighbours are asked for apart: so this is a test of a bit, where one match is a jump by a table.
#[inline(always)]
fn is_set(name: Name) -> bool
    ensures { result ≡ is_set name }
{
    matches!(name, Name::ListItem)
        || matches!(name, Name::HeadingAtx)
        || matches!(name, Name::HeadingSetextUnderline)
        || matches!(name, Name::Paragraph | Name::GfmTable)
}

/// Whether an event passes as it is outside of ATX headings.
#[inline(always)]
fn is_passed(wanted: Wanted, event: &Event) -> bool
    ensures { result ≡ is_passed wanted event.now }
{
    if !is_set(event.name) {
        return true;
    }
    !(wanted.items && is_item(event.name)
        || wanted.atx && begins_heading(event)
        || wanted.setext && !underlines::passes(event)
        || wanted.tables && begins_table(event))
}

/// Whether an event passes as it is outside of ATX headings.
#[derive(Drop)]
struct IsPassed {
    wanted: Wanted,
}

impl Test for IsPassed {
    ghost passes = { λ test. is_passed test.wanted };

    #[inline(always)]
    fn passes(&self, event: &Event) -> bool {
        is_passed(self.wanted, event)
    }
}

/// How many events pass as they are.
fn until_set(wanted: Wanted, events: &[Event]) -> usize
    ensures value { result ≡ prefix_len (is_passed wanted) events.now }
    ensures within { result ≤ length events.now }
{
    passing(&IsPassed { wanted }, events)
}

/// Whether a table ends here. Few events are of a table itself, and half of all are ends, so the name is looked at
/// first.
fn ends_table(event: &Event) -> bool
    ensures { result ≡ ends_table event.now }
{
    matches!(event.name, Name::GfmTable) && matches!(event.kind, Kind::Exit)
}

/// Whether no table ends at an event.
struct EndsNoTable;

impl Test for EndsNoTable {
    ghost passes = { λ test e. not (ends_table e) };

    fn passes(&self, event: &Event) -> bool {
        !ends_table(event)
    }
}

/// How many of the events come before the first end of a table.
fn until_end(events: &[Event]) -> usize
    ensures value { result ≡ prefix_len (λ e. not (ends_table e)) events.now }
    ensures within { result ≤ length events.now }
{
    passing(&EndsNoTable, events)
}

/// The state of a walk among items.
#[derive(Drop)]
pub struct Items {
    /// Whether a list is open here and the next block is an item of it.
    within: bool,
    /// The markers of the items that are open, the outermost first.
    markers: Vec<u8>,
}

/// A walk over the events.
#[derive(Drop)]
pub struct Walk {
    /// What is given for the events so far, and those that are left. What is held is given as it is.
    all: Rewriting,
    items: Items,
    /// Whether a setext heading is open here.
    on: bool,
    /// A list for the cells of a table.
    cells: Vec<Event>,
}

impl Walk {
    /// Begins to go over these events.
    fn new(alloc: Global, events: Vec<Event>) -> Walk
        ensures given { given_of result ≡ [] }
        ensures items { items_of result ≡ outside }
        ensures on { result.on ≡ false }
        ensures rest { rest_of result ≡ events.items }
    {
        Walk {
            all: Rewriting::new(events),
            items: Items {
                within: false,
                markers: Vec::new(alloc),
            },
            on: false,
            cells: Vec::new(alloc),
        }
    }

    /// Holds the events that pass as they are.
    fn pass(&mut self, wanted: Wanted, bytes: &[u8])
        requires stay { MayStay wanted (rest_of self.old) }
        ensures whole { whole_of wanted bytes.now self.new ≡ whole_of wanted bytes.now self.old }
        ensures stay { MayStay wanted (rest_of self.new) }
        ensures fewer { length (rest_of self.new) ≤ length (rest_of self.old) }
    {
        let many = until_set(wanted, self.all.left());
        self.all.hold_many(many);
    }

    /// Puts the begin of a list before an item, if this is its first.
    fn begin_item(&mut self, marker: u8, event: Event) -> Result<(), Message>
        requires first { IsFirst event (rest_of self.old) }
        ensures given { OnOk result
            (given_of self.new ≡ given_of self.old ++ given_by Begins (items_of self.old) marker None event) }
        ensures items { OnOk result (items_of self.new ≡ place_by Begins (items_of self.old) marker None) }
        ensures rest { OnOk result (rest_of self.new ≡ drop 1 (rest_of self.old)) }
        ensures on { OnOk result (self.new.on ≡ self.old.on) }
    {
        if !self.items.within {
            self.all.give();
            self.all.push(list_event(Kind::Enter, marker, event.point))?;
        }
        self.all.hold(event);
        self.items.within = false;
        if self.items.markers.push(marker).is_err() {
            return Err(Message);
        }
        Ok(())
    }

    /// Puts the end of a list after an item, if this is its last.
    fn end_item(&mut self, next: Option<u8>, event: Event) -> Result<(), Message>
        requires first { IsFirst event (rest_of self.old) }
        ensures given { OnOk result
            (given_of self.new ≡ given_of self.old ++ given_by Ends (items_of self.old) 0 next event) }
        ensures items { OnOk result (items_of self.new ≡ place_by Ends (items_of self.old) 0 next) }
        ensures rest { OnOk result (rest_of self.new ≡ drop 1 (rest_of self.old)) }
        ensures on { OnOk result (self.new.on ≡ self.old.on) }
    {
        self.all.hold(event);
        let Some(marker) = self.items.markers.pop() else {
            return Ok(());
        };
        self.items.within = is_continued(marker, next);
        if self.items.within {
            return Ok(());
        }
        self.all.give();
        self.all.push(list_event(Kind::Exit, marker, event.point))
    }

    /// Sets lists at the begin or the end of an item.
    fn item(&mut self, bytes: &[u8], event: Event) -> Result<(), Message>
        requires first { IsFirst event (rest_of self.old) }
        requires item { is_item (role event.name) ≡ true }
        ensures given { OnOk result
            (given_of self.new ≡
            given_of self.old ++ given bytes.now (items_of self.old) event (drop 1 (rest_of self.old))) }
        ensures items { OnOk result
            (items_of self.new ≡ place_after bytes.now (items_of self.old) event (drop 1 (rest_of self.old))) }
        ensures rest { OnOk result (rest_of self.new ≡ drop 1 (rest_of self.old)) }
        ensures on { OnOk result (self.new.on ≡ self.old.on) }
    {
        if matches!(event.kind, Kind::Enter) {
            let marker = marker_ahead(bytes, &self.all.left()[1..]);
            self.begin_item(marker, event)
        } else {
            let next = next_item(bytes, &self.all.left()[1..]);
            self.end_item(next, event)
        }
    }

    /// Holds the end of an ATX heading, if that is left first.
    #[inline(always)]
    fn end_heading(&mut self, wanted: Wanted, bytes: &[u8])
        requires stay { MayStay wanted (rest_of self.old) }
        ensures whole { whole_of wanted bytes.now self.new ≡ whole_of wanted bytes.now self.old }
        ensures stay { MayStay wanted (rest_of self.new) }
        ensures fewer { length (rest_of self.new) ≤ length (rest_of self.old) }
    {
        if let Some(event) = self.all.first() {
            if ends_heading(&event) {
                self.all.hold(event);
            }
        }
    }

    /// Begins a heading in the place of a paragraph, if an underline follows that.
    fn begin_text(&mut self, begins: bool, event: Event) -> Result<(), Message>
        requires first { IsFirst event (rest_of self.old) }
        ensures given { OnOk result
            (given_of self.new ≡
            given_of self.old ++ setext.given_by setext.BeginsText self.old.on begins event) }
        ensures on { OnOk result (self.new.on ≡ on_by setext.BeginsText self.old.on begins) }
        ensures items { OnOk result (items_of self.new ≡ items_of self.old) }
        ensures rest { OnOk result (rest_of self.new ≡ drop 1 (rest_of self.old)) }
    {
        self.on = begins;
        if !begins {
            self.all.hold(event);
            return Ok(());
        }
        self.all.give();
        self.all.hold(event);
        self.all.leave_out(1);
        self.all.push(enter(Name::HeadingSetext, event.point))?;
        self.all.push(enter(Name::HeadingSetextText, event.point))
    }

    /// Ends the text of a heading in the place of a paragraph, if one is open.
    fn end_text(&mut self, event: Event) -> Result<(), Message>
        requires first { IsFirst event (rest_of self.old) }
        ensures given { OnOk result
            (given_of self.new ≡ given_of self.old ++ setext.given_by setext.EndsText self.old.on false event) }
        ensures on { OnOk result (self.new.on ≡ on_by setext.EndsText self.old.on false) }
        ensures items { OnOk result (items_of self.new ≡ items_of self.old) }
        ensures rest { OnOk result (rest_of self.new ≡ drop 1 (rest_of self.old)) }
    {
        if !self.on {
            self.all.hold(event);
            return Ok(());
        }
        self.all.give();
        self.all.hold(event);
        self.all.leave_out(1);
        self.all.push(exit(Name::HeadingSetextText, event.point))
    }

    /// Ends a heading after its underline, if one is open.
    fn end_underline(&mut self, event: Event) -> Result<(), Message>
        requires first { IsFirst event (rest_of self.old) }
        ensures given { OnOk result
            (given_of self.new ≡ given_of self.old ++ setext.given_by setext.EndsUnderline self.old.on false event) }
        ensures on { OnOk result (self.new.on ≡ on_by setext.EndsUnderline self.old.on false) }
        ensures items { OnOk result (items_of self.new ≡ items_of self.old) }
        ensures rest { OnOk result (rest_of self.new ≡ drop 1 (rest_of self.old)) }
    {
        self.all.hold(event);
        if !self.on {
            return Ok(());
        }
        self.on = false;
        self.all.give();
        self.all.push(exit(Name::HeadingSetext, event.point))
    }

    /// Sets a setext heading at an event of its text or its underline.
    fn text(&mut self, event: Event) -> Result<(), Message>
        requires first { IsFirst event (rest_of self.old) }
        ensures given { OnOk result
            (given_of self.new ≡
            given_of self.old
            ++ setext.given_by (turn event) self.old.on (is_turned (drop 1 (rest_of self.old))) event) }
        ensures on { OnOk result
            (self.new.on ≡ on_by (turn event) self.old.on (is_turned (drop 1 (rest_of self.old)))) }
        ensures items { OnOk result (items_of self.new ≡ items_of self.old) }
        ensures rest { OnOk result (rest_of self.new ≡ drop 1 (rest_of self.old)) }
    {
        match (event.kind, event.name) {
            (Kind::Enter, Name::Paragraph) => {
                let begins = is_turned(&self.all.left()[1..]);
                self.begin_text(begins, event)
            }
            (Kind::Exit, Name::Paragraph) => self.end_text(event),
            (Kind::Exit, Name::HeadingSetextUnderline) => self.end_underline(event),
            _ => {
                self.all.hold(event);
                Ok(())
            }
        }
    }

    /// Gives the table that begins here its head, body and cells.
    fn table(&mut self, alloc: Global) -> Result<(), Message>
        requires some { 0 < length (rest_of self.old) }
        ensures given { OnOk result
            (given_of self.new ≡ given_of self.old ++ tabled (take (table_len (rest_of self.old)) (rest_of self.old))) }
        ensures rest { OnOk result (rest_of self.new ≡ drop (table_len (rest_of self.old)) (rest_of self.old)) }
        ensures on { OnOk result (self.new.on ≡ self.old.on) }
        ensures items { OnOk result (items_of self.new ≡ items_of self.old) }
    {
        self.cells.clear();
        let list = mem::replace(&mut self.cells, Vec::new(alloc));
        let all = &mut self.all;
        all.give();
        let left = all.left();
        let end = until_end(left);
        let many = if end < left.len() { end + 1 } else { end };
        let cells = put_tables(&left[..many], list)?;
        all.hold_many(many);
        all.leave_out(many);
        all.push_all(&cells)?;
        self.cells = cells;
        Ok(())
    }

    /// Sets what the event that is left first is of.
    fn step(
        &mut self,
        alloc: Global,
        wanted: Wanted,
        bytes: &[u8],
        event: Event,
    ) -> Result<(), Message>
        requires stay { MayStay wanted (rest_of self.old) }
        requires first { IsFirst event (rest_of self.old) }
        ensures whole { OnOk result (whole_of wanted bytes.now self.new ≡ whole_of wanted bytes.now self.old) }
        ensures stay { OnOk result (MayStay wanted (rest_of self.new)) }
        ensures fewer { OnOk result (length (rest_of self.new) < length (rest_of self.old)) }
    {
        if wanted.items && is_item(event.name) {
            self.item(bytes, event)?;
            return Ok(());
        }
        if wanted.atx && begins_heading(&event) {
            heading_text::set(&mut self.all, event)?;
            self.end_heading(wanted, bytes);
            return Ok(());
        }
        if wanted.setext && !underlines::passes(&event) {
            self.text(event)?;
            return Ok(());
        }
        if wanted.tables && begins_table(&event) {
            self.table(alloc)?;
            return Ok(());
        }
        self.all.hold(event);
        Ok(())
    }
}

/// The events with what is wanted set by one walk, in the list of the events.
pub fn set_all(
    alloc: Global,
    wanted: Wanted,
    bytes: &[u8],
    events: Vec<Event>,
) -> Result<Vec<Event>, Message>
    requires may { MayPass wanted events.items }
    ensures events { IfOk result (λ all. all.items ≡ in_order wanted bytes.now events.items) }
    ensures placed { IfOk result
        (λ all. (text : List ℕ) → ArePlaced text events.items → ArePlaced text all.items) }
{
    let mut walk = Walk::new(alloc, events);
    walk.pass(wanted, bytes);
    while let Some(event) = walk.all.first() {
        walk.step(alloc, wanted, bytes, event)?;
        walk.pass(wanted, bytes);
    }
    walk.all.give();
    let Walk { all, .. } = walk;
    Ok(all.finish())
}

/// Runs the resolvers of these names in one pass: those of items, of ATX headings, of setext headings and of tables, as
/// if they ran one after the other, in this order. Other names change nothing. Where nothing is to be set nothing is
/// moved.
///
/// Of more than one name it asks that leaf blocks hold no block. Events that nest still do, if what each resolver gets
/// fits it. After an `Err`, which says that memory ran out, the parse has failed, and the tokenizer is only dropped.
pub fn pass(tokenizer: &mut Tokenizer, names: &[ResolveName]) -> Result<Option<Subresult>, Message>
    requires frames { (world tokenizer.old).frames ≡ [] }
    requires may { MayPass (wanted_of names.now) (world tokenizer.old).events }
    ensures world { IfOk result
        (λ found.
        world tokenizer.new ≡
        record (world tokenizer.old) {
          events = in_order (wanted_of names.now) (world tokenizer.old).setting.bytes (world tokenizer.old).events;
        }) }
    ensures nested { OnOk result
        (MayNest (wanted_of names.now) (world tokenizer.old).setting.bytes (world tokenizer.old).events →
        Nested (world tokenizer.old).events →
        Nested (world tokenizer.new).events) }
    ensures found { IfOk result (λ found. option_map found_in found ≡ None) }
{
    let wanted = wanted_of(names);
    let alloc = tokenizer.alloc;
    let events = tokenizer.take_events();
    let set = set_all(alloc, wanted, tokenizer.bytes, events)?;
    tokenizer.set_events(set);
    Ok(None)
}

/// The names of all four resolvers.
const ALL: [ResolveName; 4] = [
    ResolveName::ListItem,
    ResolveName::HeadingAtx,
    ResolveName::HeadingSetext,
    ResolveName::GfmTable,
];

/// The names of those that do not need an underline.
const WITHOUT_SETEXT: [ResolveName; 3] = [
    ResolveName::ListItem,
    ResolveName::HeadingAtx,
    ResolveName::GfmTable,
];

/// Runs all four resolvers in one pass. Paragraphs are passed at once where `underlines` is false, since there is no
/// underline of a heading among the events. Events that nest still do, if what each resolver gets fits it.
///
/// After an `Err`, which says that memory ran out, the parse has failed, and the tokenizer is only dropped.
pub fn pass_all(tokenizer: &mut Tokenizer, underlines: bool) -> Result<(), Message>
    requires frames { (world tokenizer.old).frames ≡ [] }
    requires may { MayPass (every) (world tokenizer.old).events }
    requires underlines { underlines ≡ false → HoldNoUnderline (world tokenizer.old).events }
    ensures world { OnOk result
        (world tokenizer.new ≡
        record (world tokenizer.old) {
          events = in_order (every) (world tokenizer.old).setting.bytes (world tokenizer.old).events;
        }) }
    ensures nested { OnOk result
        (MayNest (every) (world tokenizer.old).setting.bytes (world tokenizer.old).events →
        Nested (world tokenizer.old).events →
        Nested (world tokenizer.new).events) }
{
    if underlines {
        pass(tokenizer, &ALL)?;
    } else {
        pass(tokenizer, &WITHOUT_SETEXT)?;
    }
    Ok(())
}
