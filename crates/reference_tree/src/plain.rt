// The plain program as a body of the programs that print or try outlines.
ghost use Rattle.std.specs.Prelude.{IfOk};
ghost use Rattle.md_program.specs.Listing.{listing_of};
ghost use Rattle.reference_tree.specs.Outlines.{Lists, Outlines};
ghost use Rattle.reference_tree.specs.Held.{blocks_meaning};

use crate::blocks::Blocks;
use crate::labels::labels_of;
use crate::meaning::tree;
use crate::outline_lines::outline;
use md_engine::configuration::ParseOptions;
use md_engine::event::Event;
use md_engine::message::Message;
use md_program::body::{Body, Outlined};
use std::alloc::Global;

/// The outline of a tree, and its labels.
fn listed<'a>(alloc: Global, tree: &Blocks<'a>) -> Result<Outlined<'a>, Message>
    ensures { IfOk result (λ outlined. Lists (blocks_meaning tree.now) (listing_of outlined)) }
{
    let labels = labels_of(alloc, tree)?;
    Ok(Outlined {
        lines: outline(alloc, tree)?,
        definitions: labels.definitions,
        footnotes: labels.footnotes,
    })
}

/// The plain program: all constructs, by the line definition.
pub struct Plain;

impl Body for Plain {
    ghost accepts = { λ _. Unit {0} };

    ghost outlines = { Outlines };

    ghost built = { λ options. options };

    fn built(options: ParseOptions) -> ParseOptions {
        options
    }

    fn outlined<'a>(
        alloc: Global,
        text: &'a str,
        options: &'a ParseOptions,
    ) -> Result<Outlined<'a>, Message> {
        let meant = tree(alloc, text, options)?;
        listed(alloc, &meant)
    }

    fn events(
        _alloc: Global,
        _text: &str,
        _options: &ParseOptions,
    ) -> Result<Option<Vec<Event>>, Message> {
        Ok(None)
    }
}
