// Laws of the inline definition, as functions whose contracts are the laws, and the definition itself as plain, slow
// functions, of which `content::content` is the whole. A forest is a list of nodes in the order of the text
// (`node::Node`): where a part begins, where it ends, and pieces. No function calls itself, so the depth of a text
// takes no stack. A contract says which definition a function computes, for each call that returns `Ok`.
#![tactic(auto)]

mod atom;
mod brackets;
pub mod content;
mod emails;
mod emphasis;
pub mod labels;
mod merged;
pub mod node;
pub mod slices;
pub mod target;

ghost use Rattle.std.specs.Prelude.{◌≡◌, ℕ, Bool, List};
ghost use Rattle.md_meaning.specs.Label.{Labels};
ghost use Rattle.md_events.specs.Events.Inline.{KeepsFrame, Part};
ghost use Rattle.md_inline_events.specs.Forest.{IsForestOf};
ghost use Rattle.md_inlines.specs.declared.InlineOptions as given;
ghost use Rattle.md_inlines.specs.Content as inlines;
ghost use Rattle.reference_inlines.specs.Layer.{defined_events};

/// The inline content of a text is a forest over all of its bytes, with inline names, for all options and labels.
pub fn content_is_over_its_text()
    ensures { (options : given.InlineOptions) (labels : Labels) (first : Bool) (text : List ℕ)
        → IsForestOf text (inlines.content options labels first text) }
{}

/// A layer that gives the events of the inline definition keeps the promise of every layer, for all options and labels,
/// and whichever parts it takes for those of the first paragraph of an item.
pub fn defined_events_keep_the_promise()
    ensures { (options : given.InlineOptions) (labels : Labels) (first : Part → Bool) (bytes : List ℕ)
        → KeepsFrame bytes (λ part events. events ≡ defined_events options labels first bytes part) }
{}
