// Shortcut references, which an inline layer marks.
ghost use Rattle.markdown_blocks.specs.Parsed.{IsSmall};

use examples_layer::References;
use markdown_blocks::parser::parse_with;
use md_engine::configuration::ParseOptions;
use md_engine::event::{Event, Kind, Name};
use md_engine::message::Message;
use std::alloc::Global;
use std::test::Fail;

/// Whether a part of this name is read by the layer. Of definitions nothing is shown.
fn is_shown(name: Name) -> bool {
    matches!(
        name,
        Name::Paragraph
            | Name::HeadingAtxText
            | Name::HeadingSetextText
            | Name::GfmTableCellText
            | Name::CodeFencedFenceInfo
    )
}

/// What shows an event: `{` and `}` a link, `<` and `>` the text of its label, `/` a line ending, and `;` the end of a
/// part.
fn sign_of(event: &Event) -> &'static [u8] {
    match (event.name, event.kind) {
        (Name::Link, Kind::Enter) => b"{",
        (Name::Link, Kind::Exit) => b"}",
        (Name::LabelText, Kind::Enter) => b"<",
        (Name::LabelText, Kind::Exit) => b">",
        (Name::LineEnding, Kind::Enter) => b"/",
        (name, Kind::Exit) if is_shown(name) => b";",
        _ => b"",
    }
}

/// The bytes of a piece that begins with an event, if they are shown.
fn bytes_of<'a>(bytes: &'a [u8], event: &Event, next: Option<&Event>) -> &'a [u8] {
    match next {
        Some(next)
            if matches!(event.kind, Kind::Enter)
                && matches!(event.name, Name::Data | Name::LabelMarker) => {
            bytes
                .get(event.point.index..next.point.index)
                .unwrap_or(&[])
        }
        _ => &[],
    }
}

/// The text parts of a text, as the layer reads them.
fn shown(alloc: Global, text: &str) -> Result<Vec<u8>, Message>
    requires { IsSmall text.now }
{
    let (events, state) = parse_with(alloc, &References, text, &ParseOptions::ALL)?;
    let mut all = Vec::new(alloc);
    let mut is_inside = false;
    for (at, event) in events.iter().enumerate() {
        is_inside |= is_shown(event.name) && matches!(event.kind, Kind::Enter);
        if is_inside {
            let bytes = bytes_of(state.bytes, event, events.get(at + 1));
            if all.extend_from_slice(bytes).is_err()
                || all.extend_from_slice(sign_of(event)).is_err()
            {
                return Err(Message);
            }
        }
        is_inside &= !(is_shown(event.name) && matches!(event.kind, Kind::Exit));
    }
    Ok(all)
}

/// Whether a text is read so.
fn is_read(alloc: Global, text: &str, want: &str) -> Result<bool, Message> {
    if text.len() > usize::MAX / 8 {
        return Ok(false);
    }
    Ok(shown(alloc, text)?.as_slice() == want.as_bytes())
}

#[test]
fn references_are_marked(rt: HostRuntime) -> Result<(), Fail> {
    let alloc = rt.alloc();
    let rows = [
        // A definition may come later, and be in a container
        ("[a]\n\n[a]: /b", "{[<a>]};"),
        (
            "x [a] y [b]\n\n> [b]: /c\n\n[a]: /d",
            "x {[<a>]} y {[<b>]};",
        ),
        // A label without a definition is text, and so is one that is blank
        ("[a]", "[a];"),
        ("[a] [b]\n\n[b]: /c", "[a] {[<b>]};"),
        ("[ ]\n\n[a]: /c", "[ ];"),
        // Normal forms are compared
        ("[ A\u{df}  b\t]\n\n[ass B]: /c", "{[< A\u{df}  b\t>]};"),
        // Over a line ending, and where a line begins or ends with a bracket
        ("[a\nb]\n\n[a b]: /c", "{[<a/b>]};"),
        ("[\na b\n]\n\n[a b]: /c", "{[</a b/>]};"),
        ("x[\r\na\r\n]\r\ny\r\n\r\n[a]: /c", "x{[</a/>]}/y;"),
        // Over a prefix of a container
        ("> [a\n> b]\n\n[a b]: /c", "{[<a/b>]};"),
        ("> [a\n> ]\n\n[a]: /c", "{[<a/>]};"),
        ("- [a\n  b]\n\n[a b]: /c", "{[<a/b>]};"),
        // Escapes
        ("[a\\]b]\n\n[a\\]b]: /c", "{[<a\\]b>]};"),
        ("\\[a]\n\n[a]: /c", "\\[a];"),
        ("\\\\[a]\n\n[a]: /c", "\\\\{[<a>]};"),
        ("[a\\]\n\n[a]: /c", "[a\\];"),
        ("[a\\\\]\n\n[a\\\\]: /c", "{[<a\\\\>]};"),
        // A bracket inside ends the look for a label before it
        ("[[a]]\n\n[a]: /c", "[{[<a>]}];"),
        ("[a [a]\n\n[a]: /c", "[a {[<a>]};"),
        // Headings and cells
        ("# [a] #\n\n[a]\n=\n\n[a]: /c", "{[<a>]};{[<a>]};"),
        (
            "|[a]|b|\n|-|-|\n|[b]|[a]|\n\n[a]: /c",
            "{[<a>]};b;[b];{[<a>]};",
        ),
        // None in an info string
        ("~~~ [a]\n~~~\n\n[a]: /c", "[a];"),
    ];
    for (text, want) in rows {
        assert!(rt; is_read(alloc, text, want)?, "{text}");
    }
    Ok(())
}
