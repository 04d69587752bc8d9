// The resolver of list items.

ghost use Rattle.std.specs.Prelude.{◌≡◌, [], IfOk, None, OnOk};
ghost use Rattle.std.specs.Option.{option_map};
ghost use Rattle.md_engine.specs.Found.{found_in};
ghost use Rattle.md_engine.specs.World.{world};
ghost use Rattle.md_containers.specs.Listed.{listed};
ghost use Rattle.md_order.specs.Nests.{ListsNest};
ghost use Rattle.md_events.specs.Events.Nested.{Nested};

use crate::pass::pass;
use md_engine::message::Message;
use md_engine::resolve::Name;
use md_engine::subtokenize::Subresult;
use md_engine::tokenizer::Tokenizer;

/// Puts lists around items: neighbouring items with the same marker are one list. Without an item nothing is copied.
///
/// After an `Err` the parse has failed, and the tokenizer is only dropped.
pub fn resolve(tokenizer: &mut Tokenizer) -> Result<Option<Subresult>, Message>
    requires { (world tokenizer.old).frames ≡ [] }
    ensures world { IfOk result
        (λ found.
        world tokenizer.new ≡
        record (world tokenizer.old) {
          events = listed (world tokenizer.old).setting.bytes (world tokenizer.old).events;
        }) }
    ensures nested { OnOk result
        (ListsNest (world tokenizer.old).events →
        Nested (world tokenizer.old).events →
        Nested (world tokenizer.new).events) }
    ensures found { IfOk result (λ found. option_map found_in found ≡ None) }
{
    pass(tokenizer, &[Name::ListItem])
}
