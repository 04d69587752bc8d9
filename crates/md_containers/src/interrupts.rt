// Whether a container that opens here interrupts the leaf that is open (CommonMark 4.8).

ghost use Rattle.std.specs.Prelude.{◌≡◌};
ghost use Rattle.md_engine.specs.World.{world};
ghost use Rattle.md_containers.specs.Interrupts.{interrupts};

use md_engine::tokenizer::{HeldLeaf, Tokenizer};

/// Whether a container that opens here interrupts the leaf that is open: a leaf of text, if all containers continued.
/// Where one did not, the leaf ends with it.
pub(crate) fn interrupts(tokenizer: &Tokenizer) -> bool
    ensures { result ≡ interrupts (world tokenizer.now).flags }
{
    match tokenizer.flags.leaf {
        HeldLeaf::Text(_) => tokenizer.flags.continued == tokenizer.containers.len(),
        _ => false,
    }
}
