// Growing lists, with the one refusal of the library.

ghost use Rattle.std.specs.Prelude.{◌≡◌, [], ◌∷◌, ◌++◌, OnOk};

use md_engine::message::Message;

/// Adds an item at the end. After an `Err` the list is as it was.
pub fn push<T: Drop>(items: &mut Vec<T>, item: T) -> Result<(), Message>
    ensures { OnOk result (items.new.items ≡ items.old.items ++ item ∷ []) }
{
    match items.push(item) {
        Ok(()) => Ok(()),
        Err(_) => Err(Message),
    }
}
