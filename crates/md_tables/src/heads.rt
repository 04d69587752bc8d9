// The heads of tables, in one walk over the events.
//
// A line of text is one chunk until a delimiter row is found after it. Then the line is read again, by the states of a
// head row. The walk begins just before the first delimiter row; a text without one is only searched for it. It tests
// each event as it passes it, and else at most once from the line of text before it. So it is linear.

ghost use Rattle.std.specs.Prelude.{◌≡◌, ℕ, ◌≤◌, ◌<◌, ◌++◌, IfOk, IfSome, List, None, OnOk, [], drop, false};
ghost use Rattle.std.specs.Prelude.{length, not, take};
ghost use Rattle.std.specs.List.{prefix_len};
ghost use Rattle.std.specs.Option.{option_map};
ghost use Rattle.md_engine.specs.Found.{found_in};
ghost use Rattle.md_engine.specs.Full.{IsFull};
ghost use Rattle.md_engine.specs.Place.{IsPlaced};
ghost use Rattle.md_engine.specs.Scheme.{valid};
ghost use Rattle.md_engine.specs.World.{looks, world};
ghost use Rattle.md_engine.specs.declared.configuration.ParseOptions.{ParseOptions};
ghost use Rattle.md_engine.specs.declared.state.Name.{Name as StateName};
ghost use Rattle.md_engine.specs.declared.state.State.{State};
ghost use Rattle.md_events.specs.Parts.{ArePlaced};
ghost use Rattle.md_events.specs.Stays.{TakesEach};
ghost use Rattle.md_tables.specs.HeadStates.{HeadStep, head_scheme, head_transition};
ghost use Rattle.md_tables.specs.Heads.{begins_chunk, begins_further_row, head_line, headed, is_head};
ghost use Rattle.md_tables.specs.Heads.{meets_table, stops_look};
ghost use Rattle.md_events.specs.States.{IsRun};

use crate::row::{self, Place, Row, place_of};
use crate::row_words;
use md_engine::configuration::ParseOptions;
use md_engine::event::{Event, Kind, Name, Point};
use md_engine::message::Message;
use md_engine::resolve::Name as ResolveName;
use md_engine::state::gfm_table::State as TableState;
use md_engine::state::{Name as StateName, State};
use md_engine::stay::Stay;
use md_engine::subtokenize::Subresult;
use md_engine::table::{Table, flush, push as feed};
use md_engine::tokenizer::Tokenizer;
use md_events::names::is_block;
use md_events::rewriting::Rewriting;
use md_events::space_or_tab;
use md_events::walks::{Test, passing};
use std::alloc::Global;
use std::mem;

/// Calls a state of the table of heads; parts of a row are taken at once.
#[inline(always)]
fn call_state(tokenizer: &mut Tokenizer, name: StateName) -> State
    requires current { (world tokenizer.old).current ≡ looks (world tokenizer.old) }
    requires valid { valid head_scheme (world tokenizer.old) (State.Next name) }
    ensures { IsRun HeadStep name (world tokenizer.old) (IsFull tokenizer.new) result tokenizer.new }
{
    match name {
        StateName::GfmTable(state) => match place_of(Row::Head, state) {
            Some(place) => row_words::call(tokenizer, Row::Head, place),
            None => State::Nok,
        },
        StateName::SpaceOrTab(state) => space_or_tab::call(tokenizer, state),
        _ => State::Nok,
    }
}

/// What a state of a head row only takes.
fn row_stays(state: TableState) -> Option<Stay>
    ensures { IfSome result
        (λ stay. TakesEach stay (StateName.GfmTable state) (head_transition (StateName.GfmTable state))) }
{
    match state {
        TableState::HeadRowData => row::takes_at_once(Row::Head, Place::Data),
        _ => None,
    }
}

/// The states by which the head of a table is read.
struct HeadTable;

impl Table for HeadTable {
    ghost use Rattle.std.specs.Prelude.{None};
    ghost use Rattle.md_tables.specs.HeadStates.{HeadStep, head_scheme};

    ghost step = { HeadStep };

    ghost scheme = { head_scheme };

    ghost resolves = { λ name old found new. (found ≡ None) × (new ≡ old) };

    fn call(tokenizer: &mut Tokenizer, name: StateName) -> State {
        call_state(tokenizer, name)
    }

    fn takes_at_once(name: StateName) -> Option<Stay> {
        match name {
            StateName::GfmTable(state) => row_stays(state),
            StateName::SpaceOrTab(state) => space_or_tab::takes_at_once(state),
            _ => None,
        }
    }

    fn resolve(
        _tokenizer: &mut Tokenizer,
        _name: ResolveName,
    ) -> Result<Option<Subresult>, Message> {
        Ok(None)
    }
}

/// The events of the head whose line is between two points, a table of one row, in place of what is in `events`.
///
/// After an `Err` the list means nothing.
fn read_head(
    alloc: Global,
    bytes: &[u8],
    options: &ParseOptions,
    first: Point,
    after: Point,
    events: &mut Vec<Event>,
) -> Result<(), Message>
    requires first { IsPlaced bytes.now first }
    requires after { IsPlaced bytes.now after }
    ensures events { OnOk result (events.new.items ≡ head_line bytes.now options.now first after) }
    ensures placed { OnOk result (ArePlaced bytes.now events.new.items) }
{
    let mut tokenizer = Tokenizer::new(alloc, first, bytes, options);
    events.clear();
    let list = mem::replace(events, Vec::new(alloc));
    tokenizer.set_events(list);
    tokenizer.enter(Name::GfmTable)?;
    let start = State::Next(StateName::GfmTable(TableState::HeadRowBefore));
    let state = match feed::<HeadTable>(&mut tokenizer, after.index, start) {
        State::Error => return Err(Message),
        state => state,
    };
    flush::<HeadTable>(&mut tokenizer, state, false)?;
    tokenizer.exit(Name::GfmTable)?;
    *events = tokenizer.events;
    Ok(())
}

/// Whether a line of text begins here.
fn begins_chunk(event: &Event) -> bool
    ensures { result ≡ begins_chunk event.now }
{
    matches!(event.name, Name::Content) && matches!(event.kind, Kind::Enter)
}

/// Whether a further row begins here: a line of a table that continues the line before.
fn begins_further_row(event: &Event) -> bool
    ensures { result ≡ begins_further_row event.now }
{
    matches!(event.name, Name::GfmTable)
        && matches!(event.kind, Kind::Enter)
        && matches!(event.link, Some(link) if link.previous)
}

/// Whether a look for what comes next after a line stops here: at another line of text, a blank line or a block.
fn stops_look(event: &Event) -> bool
    ensures { result ≡ stops_look event.now }
{
    matches!(event.name, Name::Content | Name::BlankLineEnding) || is_block(event.name)
}

/// Whether what comes next after a line is a further row.
fn meets_table(events: &[Event]) -> bool
    ensures { result ≡ meets_table events.now }
{
    let mut at = 0;
    while at < events.len() {
        let event = events[at];
        if stops_look(&event) {
            return begins_further_row(&event);
        }
        at += 1;
    }
    false
}

/// Whether a line of text that is a head begins with these events.
fn is_head(events: &[Event]) -> bool
    ensures { result ≡ is_head events.now }
{
    events.len() >= 2 && begins_chunk(&events[0]) && meets_table(&events[2..])
}

/// Whether no further row begins at an event.
struct BeginsNoFurtherRow;

impl Test for BeginsNoFurtherRow {
    ghost passes = { λ test e. not (begins_further_row e) };

    fn passes(&self, event: &Event) -> bool {
        !begins_further_row(event)
    }
}

/// How many events come before the first line of text that may be a head; all, if there is no further row.
///
/// After the two events of a head, a look stops first at a further row. So where a look stops at an event before the
/// first further row, no head begins two or more events before that one.
fn until_head(events: &[Event]) -> usize
    ensures passed { (bytes : List ℕ) (options : ParseOptions) →
        headed bytes options events.now ≡
        take result events.now ++ headed bytes options (drop result events.now) }
    ensures within { result ≤ length events.now }
{
    let row = passing(&BeginsNoFurtherRow, events);
    if row == events.len() {
        return row;
    }
    let mut at = row;
    while at > 0 && !stops_look(&events[at - 1]) {
        at -= 1;
    }
    at.saturating_sub(2)
}

/// Whether no line of text begins at an event.
struct BeginsNoChunk;

impl Test for BeginsNoChunk {
    ghost passes = { λ test e. not (begins_chunk e) };

    fn passes(&self, event: &Event) -> bool {
        !begins_chunk(event)
    }
}

/// How many events come before the first line of text.
fn until_chunk(events: &[Event]) -> usize
    ensures value { result ≡ prefix_len (λ e. not (begins_chunk e)) events.now }
    ensures within { result ≤ length events.now }
{
    passing(&BeginsNoChunk, events)
}

/// How many events come before the next line of text that may be a head, where no head begins with the first event.
///
/// After a line of text that is no head this looks for the next further row. What it finds before that row is a head or
/// no line of text, and then it looks for the next line of text. So it goes over each event once.
fn until_next(events: &[Event]) -> usize
    requires some { 0 < length events.now }
    requires none { is_head events.now ≡ false }
    ensures passed { (bytes : List ℕ) (options : ParseOptions) →
        headed bytes options events.now ≡
        take result events.now ++ headed bytes options (drop result events.now) }
    ensures within { result ≤ length events.now }
    ensures more { 0 < result }
{
    let rest = &events[1..];
    if begins_chunk(&events[0]) {
        1 + until_head(rest)
    } else {
        1 + until_chunk(rest)
    }
}

/// The events with each head in the place of its chunk, in the list of the events.
#[inline(never)]
fn put_heads(
    alloc: Global,
    bytes: &[u8],
    options: &ParseOptions,
    events: Vec<Event>,
) -> Result<Vec<Event>, Message>
    requires placed { ArePlaced bytes.now events.items }
    ensures events { IfOk result (λ all. all.items ≡ headed bytes.now options.now events.items) }
    ensures placed { IfOk result (λ all. ArePlaced bytes.now all.items) }
{
    let mut all = Rewriting::new(events);
    let many = until_head(all.left());
    all.hold_many(many);
    let mut head = Vec::new(alloc);
    while let Some(event) = all.first() {
        if !is_head(all.left()) {
            let many = until_next(all.left());
            all.hold_many(many);
            continue;
        }
        let after = all.left()[1].point;
        read_head(alloc, bytes, options, event.point, after, &mut head)?;
        all.skip(2);
        all.push_all(&head)?;
    }
    all.give();
    Ok(all.finish())
}

/// Puts each head in the place of its chunk. Where there is none, no event is moved.
///
/// After an `Err` the parse has failed, and the tokenizer is only dropped.
pub fn resolve(tokenizer: &mut Tokenizer) -> Result<Option<Subresult>, Message>
    requires { (world tokenizer.old).frames ≡ [] }
    ensures world { IfOk result
        (λ found. let w = world tokenizer.old in
        world tokenizer.new ≡ record w { events = headed w.setting.bytes w.setting.options w.events }) }
    ensures found { IfOk result (λ found. option_map found_in found ≡ None) }
{
    let events = tokenizer.take_events();
    let headed = put_heads(tokenizer.alloc, tokenizer.bytes, tokenizer.options, events)?;
    tokenizer.set_events(headed);
    Ok(None)
}
