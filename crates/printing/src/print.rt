// The printed form of events.
ghost use Rattle.std.specs.Prelude.{◌≡◌, ◌++◌, OnOk, IfOk, string_bytes};
ghost use Rattle.printing.specs.PrintedEvents.{printed_event, printed_events, printed_point, sign};

use md_engine::event::{Event, Kind, Point};
use md_engine::message::Message;
use md_events::names::text_of;
use md_program::print::{push_counted, push_repeated};
use std::alloc::{AllocError, Global};

/// A line for each event: two spaces for each part that is open around it, `+` for an enter or `-` for an exit, its
/// name, and its point as line, column, byte and columns of a cut tab. An exit is as deep as its enter.
///
/// It refuses only for want of memory.
pub fn print(alloc: Global, events: &[Event]) -> Result<String, Message>
    ensures { IfOk result (λ text. string_bytes text ≡ printed_events events.now) }
{
    let mut text = String::new(alloc);
    match push_events(&mut text, events) {
        Ok(()) => Ok(text),
        Err(_) => Err(Message),
    }
}

fn push_events(text: &mut String, events: &[Event]) -> Result<(), AllocError>
    ensures { OnOk result (string_bytes text.new ≡ string_bytes text.old ++ printed_events events.now) }
{
    let mut depth: usize = 0;
    for event in events {
        match event.kind {
            Kind::Enter => {
                push_event(text, depth, event)?;
                depth += 1;
            }
            Kind::Exit => {
                depth = depth.saturating_sub(1);
                push_event(text, depth, event)?;
            }
        }
    }
    Ok(())
}

#[tactic(auto, unfolding(crate::specs::PrintedEvents::printed_event))]
fn push_event(text: &mut String, depth: usize, event: &Event) -> Result<(), AllocError>
    ensures { OnOk result (string_bytes text.new ≡ string_bytes text.old ++ printed_event depth event.now) }
{
    push_repeated(text, "  ", depth)?;
    text.push_str(sign(event.kind))?;
    text.push_str(text_of(event.name))?;
    push_point(text, event.point)?;
    text.push_str("\n")
}

fn sign(kind: Kind) -> &'static str
    ensures { result.now ≡ sign kind }
{
    match kind {
        Kind::Enter => "+ ",
        Kind::Exit => "- ",
    }
}

#[tactic(auto, unfolding(crate::specs::PrintedEvents::printed_point))]
fn push_point(text: &mut String, point: Point) -> Result<(), AllocError>
    ensures { OnOk result (string_bytes text.new ≡ string_bytes text.old ++ printed_point point) }
{
    push_counted(text, " ", point.line)?;
    push_counted(text, " ", point.column)?;
    push_counted(text, " ", point.index)?;
    push_counted(text, " ", point.vs)
}
