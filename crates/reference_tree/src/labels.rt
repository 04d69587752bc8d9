// The labels of a tree, in source order.

ghost use Rattle.std.specs.Prelude.{◌≡◌, [], ◌∷◌, ◌++◌, map, string_bytes, IfOk, OnOk};
ghost use Rattle.md_meaning.specs.Label as label;
ghost use Rattle.md_scan.specs.Definitions.{texts};
ghost use Rattle.reference_tree.specs.Trees.{meaning};
ghost use Rattle.reference_tree.specs.Held.{blocks_meaning};
ghost use Rattle.reference_tree.specs.Labels.{labels_at, labels_meaning, own_labels};
ghost use Rattle.reference_tree.specs.Placed.{places};

use crate::blocks::Blocks;
use crate::order::{Place, in_order};
use crate::tree::Block;
use md_engine::message::Message;
use md_scan::label::form_of_bytes;
use md_scan::memory;
use std::alloc::Global;

/// The normal forms of the labels of a tree, in source order, repeats kept.
#[derive(Drop)]
pub struct Labels {
    pub definitions: Vec<String>,
    pub footnotes: Vec<String>,
}

/// Adds the normal form of a label, given its lines, also where it is there already.
fn push_form(alloc: Global, forms: &mut Vec<String>, lines: &[&[u8]]) -> Result<(), Message>
    ensures { OnOk result
        (map string_bytes forms.new.items ≡
        map string_bytes forms.old.items ++ label.normal_form (texts lines.now) ∷ []) }
{
    let form = form_of_bytes(alloc, lines)?;
    memory::push(forms, form)
}

/// Adds the label of a block, if it has one, without those of the blocks in it.
fn push_block(alloc: Global, labels: &mut Labels, block: &Block) -> Result<(), Message>
    ensures { OnOk result
        (labels_meaning labels.new ≡ label.both (labels_meaning labels.old) (own_labels (meaning block.now))) }
{
    match block {
        Block::Footnote(name, _) => push_form(alloc, &mut labels.footnotes, &[*name]),
        Block::Definition(lines, _, _) => push_form(alloc, &mut labels.definitions, lines),
        _ => Ok(()),
    }
}

/// Adds the labels of these blocks.
fn push_places(alloc: Global, labels: &mut Labels, found: &[Place<'_, '_>]) -> Result<(), Message>
    ensures { OnOk result
        (labels_meaning labels.new ≡ label.both (labels_meaning labels.old) (labels_at (places found.now))) }
{
    for place in found {
        push_block(alloc, labels, place.block)?;
    }
    Ok(())
}

/// The labels of a tree.
#[tactic(auto, using(crate::proofs::PlacedLemmas::labels_placed))]
pub fn labels_of(alloc: Global, tree: &Blocks) -> Result<Labels, Message>
    ensures { IfOk result (λ found. labels_meaning found ≡ label.labels (blocks_meaning tree.now)) }
{
    let found = in_order(alloc, &tree.list)?;
    let mut labels = Labels {
        definitions: Vec::new(alloc),
        footnotes: Vec::new(alloc),
    };
    push_places(alloc, &mut labels, &found)?;
    Ok(labels)
}
