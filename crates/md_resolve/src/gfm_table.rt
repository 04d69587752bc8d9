// The resolver of tables.

ghost use Rattle.std.specs.Prelude.{◌≡◌, [], IfOk, None, OnOk};
ghost use Rattle.std.specs.Option.{option_map};
ghost use Rattle.md_engine.specs.Found.{found_in};
ghost use Rattle.md_engine.specs.World.{world};
ghost use Rattle.md_tables.specs.Tabled.{tabled};
ghost use Rattle.md_order.specs.TablesNest.{TablesNest};
ghost use Rattle.md_events.specs.Events.Nested.{Nested};

use crate::pass::pass;
use md_engine::message::Message;
use md_engine::resolve::Name;
use md_engine::subtokenize::Subresult;
use md_engine::tokenizer::Tokenizer;

/// Gives tables their heads, bodies and cells. Without a table nothing is copied.
///
/// After an `Err` the parse has failed, and the tokenizer is only dropped.
pub fn resolve(tokenizer: &mut Tokenizer) -> Result<Option<Subresult>, Message>
    requires { (world tokenizer.old).frames ≡ [] }
    ensures world { IfOk result
        (λ found.
        world tokenizer.new ≡
        record (world tokenizer.old) { events = tabled (world tokenizer.old).events }) }
    ensures nested { OnOk result
        (TablesNest (world tokenizer.old).events →
        Nested (world tokenizer.old).events →
        Nested (world tokenizer.new).events) }
    ensures found { IfOk result (λ found. option_map found_in found ≡ None) }
{
    pass(tokenizer, &[Name::GfmTable])
}
