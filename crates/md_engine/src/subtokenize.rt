// What reading linked parts gives.

use crate::message::Message;

/// What a walk over linked parts has found.
#[derive(Drop)]
pub struct Subresult {
    /// Whether no linked part is left unread.
    pub done: bool,
    /// Normal forms of the labels of footnote definitions, in the order of the text.
    pub gfm_footnote_definitions: Vec<String>,
    /// Normal forms of the labels of definitions, in the order of the text.
    pub definitions: Vec<String>,
}

impl Subresult {
    ghost use Rattle.std.specs.Prelude.{◌≡◌, OnOk};
    ghost use Rattle.std.specs.Option.{option_map};
    ghost use Rattle.md_engine.specs.Found.{found_in, with_found};

    /// Appends what a later walk has found, if it has answered. After an `Err` it may hold a part of it.
    pub fn append(&mut self, more: Option<Subresult>) -> Result<(), Message>
        ensures { OnOk result (found_in self.new ≡ with_found (found_in self.old) (option_map found_in more)) }
    {
        let Some(mut more) = more else {
            return Ok(());
        };
        if self.definitions.append(&mut more.definitions).is_err() {
            return Err(Message);
        }
        if self
            .gfm_footnote_definitions
            .append(&mut more.gfm_footnote_definitions)
            .is_err()
        {
            return Err(Message);
        }
        self.done = more.done;
        Ok(())
    }
}
