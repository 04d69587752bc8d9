// Who takes the events of a text, some at a time.

ghost use Rattle.std.specs.Prelude.{◌≡◌, ◌≤◌, ◌-◌, ◌++◌, List, OnOk, drop, length, take};
ghost use Rattle.md_engine.specs.declared.event.Event.{Event};

use md_engine::event::Event;
use md_engine::message::Message;
use md_engine::parse_state::ParseState;
use md_events::labels::Labels;
use md_events::moving::append;

/// What is known of a text before its first events are handed over.
#[derive(Drop)]
pub struct Ahead<'a, 'b, 'c> {
    /// The text, the options, and the labels of its definitions.
    pub state: &'b ParseState<'a>,
    /// These labels, to be looked up.
    pub labels: &'c Labels<'b>,
    /// Of each definition its enter and its exit, and between them its destination and its title, as the layer reads them:
    /// `DefinitionDestinationString` and `DefinitionTitleString`, and what is in them. They are in the order of the text,
    /// as the labels of definitions. Of a sink that does not want them there are none.
    pub definitions: &'c [Event],
}

/// Takes the events of a text, some at a time.
pub trait Sink {
    /// How a sink is after it took events, by how it was.
    ghost takes: { Self → List Event → Self → Type 0 };

    /// Whether it wants to know the definitions ahead.
    fn wants_definitions(&self) -> bool {
        false
    }

    /// Takes the next events: those of a list from one index to another. They are of the blocks, and then those of the
    /// blocks further on follow in the list, with their text parts not read; or they are what the layer found in lines of a
    /// text part, and then what it found in the whole part is in the list.
    ///
    /// After an `Err` nothing is handed over any more.
    fn take(&mut self, ahead: &Ahead, list: &[Event], from: usize, to: usize) -> Result<(), Message>
        requires { (from ≤ to) × (to ≤ length list.now) }
        ensures { OnOk result (takes self.old (take (to - from) (drop from list.now)) self.new) };
}

/// All events, in one list.
#[derive(Drop)]
pub(crate) struct All {
    pub(crate) events: Vec<Event>,
}

impl Sink for All {
    ghost takes = { λ old events new. new.events.items ≡ old.events.items ++ events };

    #[inline(always)]
    fn take(
        &mut self,
        _ahead: &Ahead,
        list: &[Event],
        from: usize,
        to: usize,
    ) -> Result<(), Message> {
        append(&mut self.events, &list[from..to])
    }
}
