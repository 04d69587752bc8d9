// The plainest inline layer.

ghost use Rattle.std.specs.Prelude.{◌≡◌};
ghost use Rattle.md_events.specs.Events.Inline.{plain_events};
ghost use Rattle.md_events.proofs.InlineLemmas.{plain-keeps};

use md_engine::event::Event;
use md_engine::message::Message;
use md_engine::parse_state::ParseState;
use md_events::inline::{Chunk, Inline, PartKind};
use md_events::plain;
use std::alloc::Global;

/// Reads a text part as lines: `Data` over each line, if it is not empty, and `LineEnding` over its ending.
pub struct Plain;

impl Inline for Plain {
    ghost reads = { λ plain document part events. events ≡ plain_events document.bytes part };

    fn read(
        &self,
        alloc: Global,
        kind: PartKind,
        chunks: &[Chunk],
        state: &ParseState,
    ) -> Result<Vec<Event>, Message> {
        let mut events = Vec::new(alloc);
        self.read_into(alloc, kind, chunks, state, &mut events)?;
        Ok(events)
    }

    fn read_into(
        &self,
        alloc: Global,
        _kind: PartKind,
        chunks: &[Chunk],
        state: &ParseState,
        events: &mut Vec<Event>,
    ) -> Result<(), Message> {
        plain::read_into(alloc, chunks, state, events)
    }

    fn is_plain(&self) -> bool {
        true
    }

    ghost keeps_frame = { λ plain document. plain-keeps document.bytes };
}
