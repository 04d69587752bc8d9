// What an inline layer learns of a text part: where it is, and the labels of the document.
ghost use Rattle.std.specs.Prelude.{◌≡◌};
ghost use Rattle.markdown_blocks.specs.Parsed.{IsSmall};
ghost use Rattle.md_events.specs.Events.Inline.{plain_events};
ghost use Rattle.md_events.proofs.InlineLemmas.{plain-keeps};

use markdown_blocks::parser::parse_with;
use markdown_blocks::seam::{Chunk, Inline, Labels, PartKind, PartPlace, Plain, TextPart};
use md_engine::configuration::ParseOptions;
use md_engine::event::Event;
use md_engine::message::Message;
use md_engine::parse_state::ParseState;
use std::alloc::Global;
use std::cell::RefCell;
use std::process::Abort;

/// Reads parts as `Plain` does, and lists what it learns of each by signs: `|` for a cell, and then `\` for each `\|` in
/// it; `i` for the first paragraph of an item; `.` elsewhere. After these `x` if a definition of the document has this
/// label, and `^` if a footnote definition has it.
#[derive(Drop)]
struct Listing {
    signs: RefCell<Vec<u8>>,
}

fn push(signs: &mut Vec<u8>, sign: u8) -> Result<(), Message> {
    match signs.push(sign) {
        Ok(()) => Ok(()),
        Err(_) => Err(Message),
    }
}

/// Lists each `\|` of a cell.
fn push_pipes(signs: &mut Vec<u8>, cell: &[u8]) -> Result<(), Message> {
    for (at, byte) in cell.iter().enumerate() {
        if *byte == b'\\' && cell.get(at + 1) == Some(&b'|') {
            push(signs, b'\\')?;
        }
    }
    Ok(())
}

/// Lists where a part is.
fn push_place(signs: &mut Vec<u8>, part: &TextPart, bytes: &[u8]) -> Result<(), Message> {
    match part.place {
        PartPlace::TableCell => {
            push(signs, b'|')?;
            for chunk in part.chunks {
                let cell = bytes
                    .get(chunk.first.index..chunk.after.index)
                    .unwrap_or(&[]);
                push_pipes(signs, cell)?;
            }
            Ok(())
        }
        PartPlace::ItemStart => push(signs, b'i'),
        PartPlace::Elsewhere => push(signs, b'.'),
    }
}

/// Lists which labels the document has.
fn push_labels(signs: &mut Vec<u8>, labels: &Labels) -> Result<(), Message> {
    if labels.definition("x").is_some() {
        push(signs, b'x')?;
    }
    if labels.footnote_definition("x").is_some() {
        push(signs, b'^')?;
    }
    Ok(())
}

impl Inline for Listing {
    ghost reads = { λ layer document part events. events ≡ plain_events document.bytes part };

    fn read(
        &self,
        alloc: Global,
        kind: PartKind,
        chunks: &[Chunk],
        state: &ParseState,
    ) -> Result<Vec<Event>, Message> {
        Plain.read(alloc, kind, chunks, state)
    }

    fn read_part(
        &self,
        alloc: Global,
        part: TextPart,
        state: &ParseState,
        labels: &Labels,
        events: &mut Vec<Event>,
    ) -> Result<(), Message> {
        let Ok(mut signs) = self.signs.try_borrow_mut() else {
            return Err(Message);
        };
        push_place(&mut signs, &part, state.bytes)?;
        push_labels(&mut signs, labels)?;
        Plain.read_part(alloc, part, state, labels, events)
    }

    ghost keeps_frame = { λ layer document. plain-keeps document.bytes };
}

/// What a layer learns of the parts of a text, in their order.
fn listed(alloc: Global, text: &str) -> Result<Vec<u8>, Message>
    requires { IsSmall text.now }
{
    let layer = Listing {
        signs: RefCell::new(Vec::new(alloc)),
    };
    let (_events, _state) = parse_with(alloc, &layer, text, &ParseOptions::ALL)?;
    Ok(layer.signs.into_inner())
}

/// Compares it with what is wanted. Where memory runs out it is tried again, as one request is refused in a run.
fn check(rt: &impl Abort, alloc: Global, text: &str, want: &str) {
    assert!(rt; text.len() <= usize::MAX / 8);
    let signs = match listed(alloc, text) {
        Ok(signs) => Ok(signs),
        Err(Message) => listed(alloc, text),
    };
    assert!(rt;
        matches!(signs, Ok(ref all) if all.as_slice() == want.as_bytes()),
        "{text}: {signs:?}"
    );
}

// GFM 4.10: in a cell `\|` is a `|`, and the cell goes on.
#[test]
fn a_part_is_a_cell(rt: HostRuntime) {
    let alloc = rt.alloc();
    check(&rt, alloc, "a\\|b\n", ".");
    check(&rt, alloc, "a\\|b|c\n-|-\n", "|\\|");
    check(&rt, alloc, "a|b\n-|-\nc|\\|d\\|\n\ne\\|f\n", "||||\\\\.");
    check(&rt, alloc, "- a|b\n  -|-\n  c\\|d|e\n", "|||\\|");
}

// GFM 5.3: a task has its check in the paragraph that is the first block of an item.
#[test]
fn a_part_is_first_in_an_item(rt: HostRuntime) {
    let alloc = rt.alloc();
    check(&rt, alloc, "[x] a\n", ".");
    check(&rt, alloc, "- [x] a\n  b\n\n  c\n", "i.");
    check(&rt, alloc, "> 1. a\n> - b\n\n- c\n", "iii");
    check(&rt, alloc, "- - a\n  - b\n", "ii");
    check(&rt, alloc, "-\n  a\n", "i");
    // Other blocks are first
    check(&rt, alloc, "- # a\n- b\n  =\n- ***\n  c\n- > d\n", "....");
    check(&rt, alloc, "- [a]: b\n  c\n", "...");
    check(&rt, alloc, "- a\n\n      b\n\n  c\n- ~~~ d\n", "i..");
    check(&rt, alloc, "[^a]: b\n", "..");
}

#[test]
fn labels_of_the_document_are_known(rt: HostRuntime) {
    let alloc = rt.alloc();
    check(&rt, alloc, "a\n", ".");
    // That of a definition after the part, in normal form
    check(&rt, alloc, "a\n\n[ X ]: /b\n", ".x.x.x");
    check(&rt, alloc, "[^x]: a\n\n- b\n", ".^.^i^");
    check(&rt, alloc, "> [x]: /a\n\nb\n\n[^X]: c\n", ".x^.x^.x^.x^.x^");
}
