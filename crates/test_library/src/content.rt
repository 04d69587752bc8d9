// What is found in the text of a part, with expected values from the standards (CommonMark 6, GFM 5.3, 6.5 and 6.9).
// `a` has a definition, and `f` is a footnote's label.
//
// In the rows `+` is where a part begins and `-` where it ends; a piece has how many bytes it is over.

use markdown_inlines::attention::push_run;
use markdown_inlines::content::content_tokens;
use md_engine::message::Message;
use md_events::labels::Labels;
use md_inline_events::token::Token;
use md_inlines::{InlineConstructs, InlineOptions, Run};
use md_scan::memory::push;
use std::alloc::Global;
use std::process::Abort;
use std::test::Fail;

/// What is asked for: all constructs.
const OPTIONS: InlineOptions = InlineOptions {
    constructs: InlineConstructs::ALL,
    gfm_strikethrough_single_tilde: true,
    math_text_single_dollar: true,
};

/// Texts with escapes and references (2.4, 2.5), code and math (6.1), autolinks (6.5), HTML (6.6), line breaks (6.7).
const ATOMS: [(&str, &str); 11] = [
    ("", ""),
    ("plain", "Data 5"),
    // 2.4, 2.5
    (
        "a\\*b",
        "Data 1, +CharacterEscape, CharacterEscapeMarker 1, CharacterEscapeValue 1, -CharacterEscape, Data 1",
    ),
    (
        "&amp;&#X2a;",
        "+CharacterReference, CharacterReferenceMarker 1, CharacterReferenceValue 3, \
            CharacterReferenceMarkerSemi 1, -CharacterReference, +CharacterReference, \
            CharacterReferenceMarker 1, CharacterReferenceMarkerNumeric 1, \
            CharacterReferenceMarkerHexadecimal 1, CharacterReferenceValue 2, CharacterReferenceMarkerSemi 1, \
            -CharacterReference",
    ),
    // 6.1: a run that no other closes is text
    (
        "``a`b`` `",
        "+CodeText, CodeTextSequence 2, CodeTextData 3, CodeTextSequence 2, -CodeText, Data 2",
    ),
    (
        "$x$",
        "+MathText, MathTextSequence 1, MathTextData 1, MathTextSequence 1, -MathText",
    ),
    // 6.5: a scheme has two letters or more
    ("<a:b>", "Data 5"),
    (
        "<ab:c> <a@b>",
        "+Autolink, AutolinkMarker 1, AutolinkProtocol 4, AutolinkMarker 1, -Autolink, Data 1, +Autolink, \
            AutolinkMarker 1, AutolinkEmail 3, AutolinkMarker 1, -Autolink",
    ),
    // 6.6
    ("a<b c>", "Data 1, +HtmlText, HtmlTextData 5, -HtmlText"),
    // 6.7, 6.8: a line ending is in the text around it
    (
        "a \t  \nb\\\nc",
        "Data 1, SpaceOrTab 2, HardBreakTrailing 2, Data 2, HardBreakEscape 1, Data 2",
    ),
    ("a \nb", "Data 1, SpaceOrTab 1, Data 2"),
];

/// Texts with links and images.
const BRACKETS: [(&str, &str); 7] = [
    // 6.3
    (
        "[b](c)",
        "+Link, +Label, +LabelLink, LabelMarker 1, -LabelLink, +LabelText, Data 1, -LabelText, +LabelEnd, \
            LabelMarker 1, -LabelEnd, -Label, +Resource, ResourceMarker 1, +ResourceDestination, \
            +ResourceDestinationRaw, +ResourceDestinationString, Data 1, -ResourceDestinationString, \
            -ResourceDestinationRaw, -ResourceDestination, ResourceMarker 1, -Resource, -Link",
    ),
    (
        "[]( <> 'b\\*' )",
        "+Link, +Label, +LabelLink, LabelMarker 1, -LabelLink, +LabelEnd, LabelMarker 1, -LabelEnd, -Label, \
            +Resource, ResourceMarker 1, SpaceOrTab 1, +ResourceDestination, +ResourceDestinationLiteral, \
            ResourceDestinationLiteralMarker 1, ResourceDestinationLiteralMarker 1, \
            -ResourceDestinationLiteral, -ResourceDestination, SpaceOrTab 1, +ResourceTitle, \
            ResourceTitleMarker 1, +ResourceTitleString, Data 1, +CharacterEscape, CharacterEscapeMarker 1, \
            CharacterEscapeValue 1, -CharacterEscape, -ResourceTitleString, ResourceTitleMarker 1, \
            -ResourceTitle, SpaceOrTab 1, ResourceMarker 1, -Resource, -Link",
    ),
    // no destination, and no text
    (
        "[b]()",
        "+Link, +Label, +LabelLink, LabelMarker 1, -LabelLink, +LabelText, Data 1, -LabelText, +LabelEnd, \
            LabelMarker 1, -LabelEnd, -Label, +Resource, ResourceMarker 1, ResourceMarker 1, -Resource, -Link",
    ),
    (
        "[](x)",
        "+Link, +Label, +LabelLink, LabelMarker 1, -LabelLink, +LabelEnd, LabelMarker 1, -LabelEnd, -Label, \
            +Resource, ResourceMarker 1, +ResourceDestination, +ResourceDestinationRaw, \
            +ResourceDestinationString, Data 1, -ResourceDestinationString, -ResourceDestinationRaw, \
            -ResourceDestination, ResourceMarker 1, -Resource, -Link",
    ),
    (
        "[]()",
        "+Link, +Label, +LabelLink, LabelMarker 1, -LabelLink, +LabelEnd, LabelMarker 1, -LabelEnd, -Label, \
            +Resource, ResourceMarker 1, ResourceMarker 1, -Resource, -Link",
    ),
    // 6.4, with a full reference
    (
        "![b][A]",
        "+Image, +Label, +LabelImage, LabelImageMarker 1, LabelMarker 1, -LabelImage, +LabelText, Data 1, \
            -LabelText, +LabelEnd, LabelMarker 1, -LabelEnd, -Label, +Reference, ReferenceMarker 1, \
            +ReferenceString, Data 1, -ReferenceString, ReferenceMarker 1, -Reference, -Image",
    ),
    // a collapsed reference and a shortcut
    (
        "[a][] [a]",
        "+Link, +Label, +LabelLink, LabelMarker 1, -LabelLink, +LabelText, Data 1, -LabelText, +LabelEnd, \
            LabelMarker 1, -LabelEnd, -Label, +Reference, ReferenceMarker 1, ReferenceMarker 1, -Reference, \
            -Link, Data 1, +Link, +Label, +LabelLink, LabelMarker 1, -LabelLink, +LabelText, Data 1, \
            -LabelText, +LabelEnd, LabelMarker 1, -LabelEnd, -Label, -Link",
    ),
];

/// Texts with brackets in brackets, and with emphasis around them and in them.
const INSIDE: [(&str, &str); 7] = [
    // no link is around a link
    (
        "[b [a] c](d)",
        "Data 3, +Link, +Label, +LabelLink, LabelMarker 1, -LabelLink, +LabelText, Data 1, -LabelText, \
            +LabelEnd, LabelMarker 1, -LabelEnd, -Label, -Link, Data 6",
    ),
    // brackets bind tighter than emphasis
    (
        "*[b*](c)",
        "Data 1, +Link, +Label, +LabelLink, LabelMarker 1, -LabelLink, +LabelText, Data 2, -LabelText, \
            +LabelEnd, LabelMarker 1, -LabelEnd, -Label, +Resource, ResourceMarker 1, +ResourceDestination, \
            +ResourceDestinationRaw, +ResourceDestinationString, Data 1, -ResourceDestinationString, \
            -ResourceDestinationRaw, -ResourceDestination, ResourceMarker 1, -Resource, -Link",
    ),
    // emphasis in a link, after a bracket that is text
    (
        "[[*b*](c)",
        "Data 1, +Link, +Label, +LabelLink, LabelMarker 1, -LabelLink, +LabelText, +Emphasis, \
            EmphasisSequence 1, +EmphasisText, Data 1, -EmphasisText, EmphasisSequence 1, -Emphasis, \
            -LabelText, +LabelEnd, LabelMarker 1, -LabelEnd, -Label, +Resource, ResourceMarker 1, \
            +ResourceDestination, +ResourceDestinationRaw, +ResourceDestinationString, Data 1, \
            -ResourceDestinationString, -ResourceDestinationRaw, -ResourceDestination, ResourceMarker 1, \
            -Resource, -Link",
    ),
    // text before the end of a part
    (
        "*a **b** c*d",
        "+Emphasis, EmphasisSequence 1, +EmphasisText, Data 2, +Strong, StrongSequence 2, +StrongText, Data 1, \
            -StrongText, StrongSequence 2, -Strong, Data 2, -EmphasisText, EmphasisSequence 1, -Emphasis, Data 1",
    ),
    (
        "[`b` c](d)e",
        "+Link, +Label, +LabelLink, LabelMarker 1, -LabelLink, +LabelText, +CodeText, CodeTextSequence 1, \
            CodeTextData 1, CodeTextSequence 1, -CodeText, Data 2, -LabelText, +LabelEnd, LabelMarker 1, \
            -LabelEnd, -Label, +Resource, ResourceMarker 1, +ResourceDestination, +ResourceDestinationRaw, \
            +ResourceDestinationString, Data 1, -ResourceDestinationString, -ResourceDestinationRaw, \
            -ResourceDestination, ResourceMarker 1, -Resource, -Link, Data 1",
    ),
    // a footnote call, in which nothing else is
    (
        "*[^f]*",
        "+Emphasis, EmphasisSequence 1, +EmphasisText, +GfmFootnoteCall, +Label, +GfmFootnoteCallLabel, \
            LabelMarker 1, GfmFootnoteCallMarker 1, -GfmFootnoteCallLabel, +LabelText, Data 1, -LabelText, \
            +LabelEnd, LabelMarker 1, -LabelEnd, -Label, -GfmFootnoteCall, -EmphasisText, EmphasisSequence 1, \
            -Emphasis",
    ),
    // brackets that are text
    ("[b] ]", "Data 5"),
];

/// Texts with addresses without angle brackets (GFM 6.9).
const ADDRESSES: [(&str, &str); 11] = [
    // after whitespace, a mark or the begin; up to whitespace or `<`, without what ends a sentence
    ("www.a.co", "GfmAutolinkLiteralWww 8"),
    (
        "b www.a.co/c. d",
        "Data 2, GfmAutolinkLiteralWww 10, Data 3",
    ),
    ("bwww.a.co", "Data 9"),
    (
        "(http://a.co)",
        "Data 1, GfmAutolinkLiteralProtocol 11, Data 1",
    ),
    // the text before an address is not in pieces
    ("a@b.co", "GfmAutolinkLiteralEmail 6"),
    ("c d+a@b.co.", "Data 2, GfmAutolinkLiteralEmail 8, Data 1"),
    ("c mailto:a@b.co", "Data 2, GfmAutolinkLiteralMailto 13"),
    // none in a link
    (
        "[www.a.co](c)",
        "+Link, +Label, +LabelLink, LabelMarker 1, -LabelLink, +LabelText, Data 8, -LabelText, +LabelEnd, \
            LabelMarker 1, -LabelEnd, -Label, +Resource, ResourceMarker 1, +ResourceDestination, \
            +ResourceDestinationRaw, +ResourceDestinationString, Data 1, -ResourceDestinationString, \
            -ResourceDestinationRaw, -ResourceDestination, ResourceMarker 1, -Resource, -Link",
    ),
    (
        "[a@b.co](c) a@b.co",
        "+Link, +Label, +LabelLink, LabelMarker 1, -LabelLink, +LabelText, Data 6, -LabelText, +LabelEnd, \
            LabelMarker 1, -LabelEnd, -Label, +Resource, ResourceMarker 1, +ResourceDestination, \
            +ResourceDestinationRaw, +ResourceDestinationString, Data 1, -ResourceDestinationString, \
            -ResourceDestinationRaw, -ResourceDestination, ResourceMarker 1, -Resource, -Link, Data 1, \
            GfmAutolinkLiteralEmail 6",
    ),
    // in emphasis, and the end of that is not in them
    (
        "*a@b.co*",
        "+Emphasis, EmphasisSequence 1, +EmphasisText, GfmAutolinkLiteralEmail 6, -EmphasisText, \
            EmphasisSequence 1, -Emphasis",
    ),
    (
        "**b www.a.co** c",
        "+Strong, StrongSequence 2, +StrongText, Data 2, GfmAutolinkLiteralWww 8, -StrongText, StrongSequence 2, \
            -Strong, Data 2",
    ),
];

/// A check, and then `~b~`.
const CHECKED: &str =
    "+GfmTaskListItemCheck, GfmTaskListItemMarker 1, GfmTaskListItemValueChecked 1, \
    GfmTaskListItemMarker 1, -GfmTaskListItemCheck, Data 1, +GfmStrikethrough, GfmStrikethroughSequence 1, \
    +GfmStrikethroughText, Data 1, -GfmStrikethroughText, GfmStrikethroughSequence 1, -GfmStrikethrough";

/// The text with the strikethrough alone.
const UNCHECKED: &str =
    "Data 4, +GfmStrikethrough, GfmStrikethroughSequence 1, +GfmStrikethroughText, Data 1, \
    -GfmStrikethroughText, GfmStrikethroughSequence 1, -GfmStrikethrough";

/// A list of one label.
fn one_label(alloc: Global, label: &str) -> Result<Vec<String>, Message> {
    let mut list = Vec::new(alloc);
    push(&mut list, String::from_str(alloc, label)?)?;
    Ok(list)
}

/// What is found in a text. `first` says that it is that of the first paragraph of an item.
fn found(alloc: Global, first: bool, text: &str) -> Result<Vec<Token>, Message> {
    let definitions = one_label(alloc, "a")?;
    let footnotes = one_label(alloc, "f")?;
    let labels = Labels::new(alloc, &definitions, &footnotes)?;
    content_tokens(alloc, &OPTIONS, &labels, first, text.as_bytes())
}

/// Adds a token to a list.
fn write_token(list: &mut String, token: Token) -> Result<(), Message> {
    let comma = if list.is_empty() { "" } else { ", " };
    let written = match token {
        Token::Enters(name) => write!(list, "{comma}+{name:?}"),
        Token::Leaves(name) => write!(list, "{comma}-{name:?}"),
        Token::Over(name, len) => write!(list, "{comma}{name:?} {len}"),
    };
    match written {
        Ok(()) => Ok(()),
        Err(_) => Err(Message),
    }
}

/// The list of what is found in a text.
fn listed(alloc: Global, first: bool, text: &str) -> Result<String, Message> {
    let mut list = String::new(alloc);
    for token in &found(alloc, first, text)? {
        write_token(&mut list, *token)?;
    }
    Ok(list)
}

/// Compares what is found in texts with what is wanted.
fn check(rt: &impl Abort, alloc: Global, rows: &[(&str, &str)]) -> Result<(), Message> {
    for (text, want) in rows {
        let list = listed(alloc, false, text)?;
        assert!(rt; list.as_str() == *want, "{text}: {list}");
    }
    Ok(())
}

#[test]
fn atoms_are_found(rt: HostRuntime) -> Result<(), Message> {
    check(&rt, rt.alloc(), &ATOMS)
}

#[test]
fn brackets_are_found(rt: HostRuntime) -> Result<(), Message> {
    check(&rt, rt.alloc(), &BRACKETS)
}

#[test]
fn brackets_bind_tighter_than_emphasis(rt: HostRuntime) -> Result<(), Message> {
    check(&rt, rt.alloc(), &INSIDE)
}

#[test]
fn addresses_are_found(rt: HostRuntime) -> Result<(), Message> {
    check(&rt, rt.alloc(), &ADDRESSES)
}

#[test]
fn a_task_item_has_a_check(rt: HostRuntime) -> Result<(), Fail> {
    let text = "[x] ~b~";
    assert!(rt; listed(rt.alloc(), true, text)?.as_str() == CHECKED);
    assert!(rt; listed(rt.alloc(), false, text)?.as_str() == UNCHECKED);
    Ok(())
}

#[test]
fn places_are_kept_for_a_run(rt: HostRuntime) -> Result<(), Fail> {
    let alloc = rt.alloc();
    let mut spans = Vec::new(alloc);
    let mut runs = Vec::new(alloc);
    let run = Run {
        mark: b'*',
        size: 2,
        left: 2,
        opens: true,
        closes: true,
    };
    push_run(&mut spans, &mut runs, run, 0)?;
    push_run(
        &mut spans,
        &mut runs,
        Run {
            opens: false,
            ..run
        },
        5,
    )?;
    assert!(rt; spans.len() == 8);
    assert!(rt; runs.len() == 2);
    assert!(rt; runs[1].place == 6);
    Ok(())
}
