// Where links and images lead: to their resource, or to that of the first definition with their label.
//
// Many references may lead to one long destination, and the page would grow with the square of the text. So no more
// bytes of definitions are written than the text has, or 100,000 if that is more. A reference for which too few are left
// leads nowhere: its text is written without a link.

use crate::known::Known;
use crate::memory::push;
use crate::spelled::label_form;
use crate::survey::{Media, Target};
use md_engine::message::Message;

/// The least number of bytes, and of cells, that may be written more often than the text has them.
const LEAST: usize = 100_000;

/// How much may be written more often than the text has it.
pub(crate) fn most_repeated(bytes: &[u8]) -> usize {
    bytes.len().max(LEAST)
}

/// The definition of a reference.
fn definition(known: &Known, media: &Media) -> Result<Option<Target>, Message> {
    let label = if media.reference.is_empty() {
        media.text
    } else {
        media.reference
    };
    let form = label_form(known.whole.alloc, known.bytes, label.events(known.events))?;
    match known.labels.definition(&form) {
        Some(place) => Ok(known.whole.definitions.get(place).copied()),
        None => Ok(None),
    }
}

/// The same if so many bytes are left for it, which it takes.
fn within(found: Option<Target>, left: &mut usize) -> Option<Target> {
    let target = found?;
    let len = target.destination.len.saturating_add(target.title.len);
    if len > *left {
        return None;
    }
    *left = left.saturating_sub(len);
    Some(target)
}

/// Lists where each of these links and images leads; none where it leads nowhere. So many bytes of definitions are
/// `left` to be written.
pub(crate) fn targets(
    known: &Known,
    media: &[Media],
    left: &mut usize,
    targets: &mut Vec<Option<Target>>,
) -> Result<(), Message> {
    for it in media {
        let target = if it.has_resource {
            Some(it.target)
        } else {
            within(definition(known, it)?, left)
        };
        push(targets, target)?;
    }
    Ok(())
}
