// Resolvers by their names.

ghost use Rattle.std.specs.Prelude.{◌≡◌, [], IfOk, OnOk};
ghost use Rattle.std.specs.Option.{option_map};
ghost use Rattle.md_engine.specs.Found.{found_in};
ghost use Rattle.md_engine.specs.World.{world};
ghost use Rattle.md_events.specs.Events.Nested.{Nested};
ghost use Rattle.md_registry.specs.Resolving.{resolved_as};
ghost use Rattle.md_flow.specs.Nests.{MayNestBy};

use md_content::content;
use md_engine::message::Message;
pub use md_engine::resolve::Name;
use md_engine::subtokenize::Subresult;
use md_engine::tokenizer::Tokenizer;
use md_registry::choices;
pub use md_resolve::pass::pass;

/// Runs the resolver of this name; changes nothing for names of the inline layer. Events that nest still do, if what
/// the resolver gets fits it.
///
/// After an `Err`, which says that memory ran out, the parse has failed and the tokenizer is only dropped.
pub fn call(tokenizer: &mut Tokenizer, name: Name) -> Result<Option<Subresult>, Message>
    requires { (world tokenizer.old).frames ≡ [] }
    ensures frames { OnOk result ((world tokenizer.new).frames ≡ []) }
    ensures resolves { IfOk result
        (λ found. resolved_as name (world tokenizer.old) (option_map found_in found) (world tokenizer.new)) }
    ensures nested { OnOk result
        (MayNestBy name (world tokenizer.old) →
        Nested (world tokenizer.old).events → Nested (world tokenizer.new).events) }
{
    match name {
        Name::Content => {
            choices::read_heads(tokenizer)?;
            content::resolve(tokenizer)
        }
        Name::ListItem | Name::HeadingAtx | Name::HeadingSetext | Name::GfmTable => {
            pass(tokenizer, &[name])
        }
        _ => Ok(None),
    }
}
