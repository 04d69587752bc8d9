// The resolver of setext headings.

ghost use Rattle.std.specs.Prelude.{◌≡◌, [], IfOk, None, OnOk};
ghost use Rattle.std.specs.Option.{option_map};
ghost use Rattle.md_engine.specs.Found.{found_in};
ghost use Rattle.md_engine.specs.World.{world};
ghost use Rattle.md_leaves.specs.Turned.{turned};
ghost use Rattle.md_order.specs.TurnsNest.{TurnsNest};
ghost use Rattle.md_events.specs.Events.Nested.{Nested};

use crate::pass::pass;
use md_engine::message::Message;
use md_engine::resolve::Name;
use md_engine::subtokenize::Subresult;
use md_engine::tokenizer::Tokenizer;

/// Makes a heading of each paragraph that has an underline and that underline. Without an event of an underline
/// nothing is copied.
///
/// After an `Err` the parse has failed, and the tokenizer is only dropped.
pub fn resolve(tokenizer: &mut Tokenizer) -> Result<Option<Subresult>, Message>
    requires { (world tokenizer.old).frames ≡ [] }
    ensures world { IfOk result
        (λ found.
        world tokenizer.new ≡
        record (world tokenizer.old) { events = turned (world tokenizer.old).events }) }
    ensures nested { OnOk result
        (TurnsNest (world tokenizer.old).events →
        Nested (world tokenizer.old).events →
        Nested (world tokenizer.new).events) }
    ensures found { IfOk result (λ found. option_map found_in found ≡ None) }
{
    pass(tokenizer, &[Name::HeadingSetext])
}
