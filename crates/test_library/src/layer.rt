// Documents whose text parts `Inlines` reads, with expected values from the standards (CommonMark 0.31, GFM).

ghost use Rattle.std.specs.Prelude.{refl};
ghost use Rattle.markdown_blocks.specs.Parsed.{IsSmall};
ghost use Rattle.markdown_inlines.specs.Layer as spec;
ghost use Rattle.proof_inlines.proofs.ReadLemmas.{read-keeps};

use markdown_blocks::parser::parse_with;
use markdown_blocks::seam::{Chunk, Inline, PartKind};
use markdown_inlines::Inlines;
use md_engine::configuration::ParseOptions;
use md_engine::event::{Event, Kind, Name};
use md_engine::message::Message;
use md_engine::parse_state::ParseState;
use std::alloc::Global;
use std::process::Abort;

/// Texts, and what is in their paragraphs, cells and titles: `+` is where a part begins and `-` where it ends, a piece
/// has its bytes, and `;` is after each.
const GFM: [(&str, &str); 9] = [
    // GFM 5.3: a check is in the first paragraph of an item alone
    (
        "- [x] a\n\n  [x] b\n",
        " +GfmTaskListItemCheck GfmTaskListItemMarker '[' GfmTaskListItemValueChecked 'x' \
            GfmTaskListItemMarker ']' -GfmTaskListItemCheck Data ' a'; Data '[x] b';",
    ),
    ("[x] a\n", " Data '[x] a';"),
    // 4.7: a definition may come later
    (
        "[a]\n\n[A]: b\n",
        " +Link +Label +LabelLink LabelMarker '[' -LabelLink +LabelText Data 'a' -LabelText +LabelEnd \
            LabelMarker ']' -LabelEnd -Label -Link;",
    ),
    ("[a]\n\n[b]: c\n", " Data '[a]';"),
    // GFM 4.10
    (
        "a\\|*b*|c\n-|-\n",
        " Data 'a' +CharacterEscape CharacterEscapeMarker '\\' CharacterEscapeValue '|' -CharacterEscape \
            +Emphasis EmphasisSequence '*' +EmphasisText Data 'b' -EmphasisText EmphasisSequence '*' \
            -Emphasis; Data 'c';",
    ),
    // 5.1: a line of a quote, and a lazy one
    (
        "> *a\n> b*\n",
        " +Emphasis EmphasisSequence '*' +EmphasisText Data 'a' LineEnding '\n' +BlockQuotePrefix \
            BlockQuoteMarker '>' SpaceOrTab ' ' -BlockQuotePrefix Data 'b' -EmphasisText EmphasisSequence \
            '*' -Emphasis;",
    ),
    (
        "> *a\nb*\n",
        " +Emphasis EmphasisSequence '*' +EmphasisText Data 'a' LineEnding '\n' Data 'b' -EmphasisText \
            EmphasisSequence '*' -Emphasis;",
    ),
    // 2.5: in a title, in which nothing else is
    (
        "[a]: b 'c&amp;*d*'\n",
        " Data 'c' +CharacterReference CharacterReferenceMarker '&' CharacterReferenceValue 'amp' \
            CharacterReferenceMarkerSemi ';' -CharacterReference Data '*d*';",
    ),
    // GFM 6.5
    (
        "~~a~~\n",
        " +GfmStrikethrough GfmStrikethroughSequence '~~' +GfmStrikethroughText Data 'a' \
            -GfmStrikethroughText GfmStrikethroughSequence '~~' -GfmStrikethrough;",
    ),
];

/// Whether it is shown what is in a part of this name.
fn is_shown(name: Name) -> bool {
    matches!(
        name,
        Name::Paragraph | Name::GfmTableCellText | Name::DefinitionTitleString
    )
}

/// Whether an event and the one after it are a piece.
fn is_piece(event: &Event, next: &Event) -> bool {
    event.name == next.name && event.kind == Kind::Enter && next.kind == Kind::Exit
}

/// Adds a piece to a list.
fn write_piece(list: &mut String, name: Name, bytes: &[u8]) -> Result<(), Message> {
    let text = str::from_utf8(bytes).unwrap_or("?");
    if write!(list, " {name:?} '{text}'").is_err() {
        return Err(Message);
    }
    Ok(())
}

/// Adds where a part begins or ends to a list.
fn write_event(list: &mut String, event: &Event) -> Result<(), Message> {
    let sign = if event.kind == Kind::Enter { '+' } else { '-' };
    if write!(list, " {sign}{:?}", event.name).is_err() {
        return Err(Message);
    }
    Ok(())
}

/// The list of what is in the parts that are shown. The end of a piece is listed with its begin.
fn listed(alloc: Global, events: &[Event], bytes: &[u8]) -> Result<String, Message> {
    let mut list = String::new(alloc);
    let mut is_inside = false;
    let mut is_listed = false;
    for (at, event) in events.iter().enumerate() {
        if is_listed {
            is_listed = false;
        } else if is_shown(event.name) {
            is_inside = event.kind == Kind::Enter;
            list.push_str(if is_inside { "" } else { ";" })?;
        } else if is_inside {
            match events.get(at.saturating_add(1)) {
                Some(next) if is_piece(event, next) => {
                    let piece = bytes.get(event.point.index..next.point.index);
                    write_piece(&mut list, event.name, piece.unwrap_or(&[]))?;
                    is_listed = true;
                }
                _ => write_event(&mut list, event)?,
            }
        }
    }
    Ok(list)
}

/// `Inlines`, which is not given where a part is: it has to find that out.
struct Placeless(Inlines);

impl Inline for Placeless {
    ghost reads = { λ layer document part events. spec.AreEvents layer.0.options document part events };

    fn read(
        &self,
        alloc: Global,
        kind: PartKind,
        chunks: &[Chunk],
        state: &ParseState,
    ) -> Result<Vec<Event>, Message> {
        self.0.read(alloc, kind, chunks, state)
    }

    ghost keeps_frame = { λ layer document part events is answer.
        read-keeps layer.0.options (spec.labels_in document) (spec.may_have_check answer.place)
        (spec.part_forest layer.0.options (spec.labels_in document) answer.place) (λ text. refl) (λ text. refl)
        document.bytes part events is answer.same };
}

/// What is shown of a text, as a layer reads it.
fn read(alloc: Global, layer: &impl Inline, text: &str) -> Result<String, Message>
    requires { IsSmall text.now }
{
    let (events, state) = parse_with(alloc, layer, text, &ParseOptions::GFM)?;
    listed(alloc, &events, state.bytes)
}

/// Compares what is shown of a text with what is wanted. Where memory runs out it is tried again, as one request is
/// refused in a run.
fn check(rt: &impl Abort, alloc: Global, layer: &impl Inline, text: &str, want: &str) {
    assert!(rt; text.len() <= usize::MAX / 8);
    let list = match read(alloc, layer, text) {
        Ok(list) => Ok(list),
        Err(Message) => read(alloc, layer, text),
    };
    assert!(rt;
        matches!(list, Ok(ref all) if all.as_str() == want),
        "{text}: {list:?}"
    );
}

#[test]
fn parts_of_a_document_are_read(rt: HostRuntime) {
    for (text, want) in &GFM {
        check(&rt, rt.alloc(), &Inlines::GFM, text, want);
    }
}

#[test]
fn parts_are_read_without_their_places(rt: HostRuntime) {
    for (text, want) in &GFM {
        check(&rt, rt.alloc(), &Placeless(Inlines::GFM), text, want);
    }
}

// GFM 6.5 and 6.9 are no constructs of CommonMark.
#[test]
fn extensions_are_text_in_commonmark(rt: HostRuntime) {
    let alloc = rt.alloc();
    check(
        &rt,
        alloc,
        &Inlines::COMMONMARK,
        "~~a~~\n",
        " Data '~~a~~';",
    );
    check(
        &rt,
        alloc,
        &Inlines::COMMONMARK,
        "- [x] www.a.co\n",
        " Data '[x] www.a.co';",
    );
}
