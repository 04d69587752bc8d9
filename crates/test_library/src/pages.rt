// The HTML of texts: that of the rows, options, and what has a limit or none.

use crate::page_rows::{
    BLOCKS, DANGEROUS, EMPHASIS, FOOTNOTES, GITHUB, IMAGES, LINKS, LISTS, OTHERS, SAFE, TABLES,
    TEXTS,
};
use markdown_blocks::message::Message;
use markdown_blocks::parser::parse_with;
use markdown_html::{HtmlOptions, LineEnding, html, html_with_ids, html_with_least};
use markdown_inlines::Inlines;
use md_program::body::{Body, MOST};
use md_program::set::{Set, options};
use printing::blocks::Blocks;
use std::alloc::Global;
use std::process::Abort;
use std::test::Fail;

/// The inline constructs of a set.
fn inlines_of(set: Set) -> Inlines {
    match set {
        Set::CommonMark => Inlines::COMMONMARK,
        Set::Gfm => Inlines::GFM,
        Set::All | Set::Alerts => Inlines::ALL,
    }
}

/// The HTML of a text.
fn page(alloc: Global, text: &str, set: Set, asked: &HtmlOptions) -> Result<String, Message> {
    if text.len() > MOST {
        return Err(Message);
    }
    let options = Blocks::built(options(set));
    let inlines = inlines_of(set);
    let (events, state) = parse_with(alloc, &inlines, text, &options)?;
    html(alloc, &events, &state, asked)
}

/// The HTML of a text that is written as its events are handed over, and whose blocks are read in parts that end as soon
/// as they may.
fn page_by_parts(
    alloc: Global,
    text: &str,
    set: Set,
    asked: &HtmlOptions,
) -> Result<Vec<u8>, Message> {
    if text.len() > MOST {
        return Err(Message);
    }
    let options = Blocks::built(options(set));
    let inlines = inlines_of(set);
    html_with_least(alloc, &inlines, text, &options, asked, 1)
}

/// Compares the HTML of texts with what is wanted: of all their events at once, and part by part.
fn check(
    rt: &impl Abort,
    alloc: Global,
    set: Set,
    asked: &HtmlOptions,
    rows: &[(&str, &str)],
) -> Result<(), Message> {
    for (text, want) in rows {
        let found = page(alloc, text, set, asked)?;
        assert!(rt; found.as_str() == *want, "{text}: {found}");
        let by_parts = page_by_parts(alloc, text, set, asked)?;
        assert!(rt; by_parts.as_slice() == want.as_bytes(), "{text}, by parts");
    }
    Ok(())
}

#[test]
fn blocks_are_written(rt: HostRuntime) -> Result<(), Message> {
    check(
        &rt,
        rt.alloc(),
        Set::CommonMark,
        &HtmlOptions::SAFE,
        &BLOCKS,
    )
}

#[test]
fn lists_are_tight_or_loose(rt: HostRuntime) -> Result<(), Message> {
    check(&rt, rt.alloc(), Set::CommonMark, &HtmlOptions::SAFE, &LISTS)
}

#[test]
fn texts_are_escaped_once(rt: HostRuntime) -> Result<(), Message> {
    check(&rt, rt.alloc(), Set::CommonMark, &HtmlOptions::SAFE, &TEXTS)
}

#[test]
fn emphasis_is_written(rt: HostRuntime) -> Result<(), Message> {
    check(
        &rt,
        rt.alloc(),
        Set::CommonMark,
        &HtmlOptions::SAFE,
        &EMPHASIS,
    )
}

#[test]
fn links_lead_somewhere(rt: HostRuntime) -> Result<(), Message> {
    check(&rt, rt.alloc(), Set::CommonMark, &HtmlOptions::SAFE, &LINKS)
}

#[test]
fn images_have_plain_texts(rt: HostRuntime) -> Result<(), Message> {
    check(
        &rt,
        rt.alloc(),
        Set::CommonMark,
        &HtmlOptions::SAFE,
        &IMAGES,
    )
}

#[test]
fn nothing_dangerous_is_written(rt: HostRuntime) -> Result<(), Message> {
    check(&rt, rt.alloc(), Set::CommonMark, &HtmlOptions::SAFE, &SAFE)
}

#[test]
fn dangerous_things_may_be_allowed(rt: HostRuntime) -> Result<(), Message> {
    check(
        &rt,
        rt.alloc(),
        Set::CommonMark,
        &HtmlOptions::DANGEROUS,
        &DANGEROUS,
    )
}

#[test]
fn tables_are_written(rt: HostRuntime) -> Result<(), Message> {
    check(&rt, rt.alloc(), Set::Gfm, &HtmlOptions::SAFE, &TABLES)
}

#[test]
fn extensions_are_written(rt: HostRuntime) -> Result<(), Message> {
    check(&rt, rt.alloc(), Set::Gfm, &HtmlOptions::SAFE, &GITHUB)
}

#[test]
fn footnotes_are_a_section(rt: HostRuntime) -> Result<(), Message> {
    check(&rt, rt.alloc(), Set::Gfm, &HtmlOptions::SAFE, &FOOTNOTES)
}

#[test]
fn the_others_are_written(rt: HostRuntime) -> Result<(), Message> {
    check(&rt, rt.alloc(), Set::Alerts, &HtmlOptions::SAFE, &OTHERS)
}

/// Options of all kinds.
const ASKED: HtmlOptions<'static> = HtmlOptions {
    default_line_ending: LineEnding::CarriageReturnLineFeed,
    gfm_footnote_label: "Notes & more",
    gfm_footnote_label_tag_name: "h3",
    gfm_footnote_label_attributes: "",
    gfm_footnote_back_label: "Back",
    gfm_footnote_clobber_prefix: "p-",
    ..HtmlOptions::SAFE
};

const CALLED: &str =
    "<p><sup><a href=\"#p-fn-a\" id=\"p-fnref-a\" data-footnote-ref=\"\" aria-describedby=\"footnote-label\">1</a\
        ></sup></p>\n<section data-footnotes=\"\" class=\"footnotes\"><h3 id=\"footnote-label\">Notes &amp; more</h3\
        >\n<ol>\n<li id=\"p-fn-a\">\n<p>b <a href=\"#p-fnref-a\" data-footnote-backref=\"\" aria-label=\"Back\" clas\
        s=\"data-footnote-backref\">\u{21a9}</a></p>\n</li>\n</ol>\n</section>\n";

#[test]
fn options_are_taken(rt: HostRuntime) -> Result<(), Fail> {
    let alloc = rt.alloc();
    assert!(rt; page(alloc, "# a", Set::CommonMark, &ASKED)?.as_str() == "<h1>a</h1>\r\n");
    assert!(rt; page(alloc, "[^a]\n\n[^a]: b", Set::Gfm, &ASKED)?.as_str() == CALLED);
    Ok(())
}

/// The HTML of a text of GFM, with the `id` of each heading.
fn page_with_ids(alloc: Global, text: &str, ids: &[String]) -> Result<String, Message> {
    if text.len() > MOST {
        return Err(Message);
    }
    let options = Blocks::built(options(Set::Gfm));
    let (events, state) = parse_with(alloc, &Inlines::GFM, text, &options)?;
    html_with_ids(alloc, &events, &state, &HtmlOptions::SAFE, ids)
}

const HEADINGS: &str = "# a\n> b\n> -\n\n# c\n# d";

const WITH_IDS: &str =
    "<h1 id=\"e\">a</h1>\n<blockquote>\n<h2>b</h2>\n</blockquote>\n<h1 id=\"f&quot;\">c</h1>\n<h1>d</h1>\n";

// An empty `id` is none, and a heading after the last has none.
#[test]
fn headings_have_ids(rt: HostRuntime) -> Result<(), Fail> {
    let alloc = rt.alloc();
    let mut ids = Vec::new(alloc);
    for id in ["e", "", "f\""] {
        ids.push(String::from_str(alloc, id)?)?;
    }
    assert!(rt; page_with_ids(alloc, HEADINGS, &ids)?.as_str() == WITH_IDS);
    Ok(())
}

/// So many of a text, between two others.
fn repeated(
    alloc: Global,
    before: &str,
    text: &str,
    count: usize,
    after: &str,
) -> Result<String, Message> {
    let mut whole = String::from_str(alloc, before)?;
    for _ in 0..count {
        whole.push_str(text)?;
    }
    whole.push_str(after)?;
    Ok(whole)
}

// What is in one another takes no stack.
#[test]
fn quotes_have_no_limit(rt: HostRuntime) -> Result<(), Fail> {
    let alloc = rt.alloc();
    let quotes = repeated(alloc, "", ">", 20_000, "a")?;
    let found = page(alloc, quotes.as_str(), Set::CommonMark, &HtmlOptions::SAFE)?;
    // `<p>a</p>`, and around it `<blockquote>` and `</blockquote>`, each with a line ending
    assert!(rt; found.len() == 9 + 20_000 * 27);
    Ok(())
}

#[test]
fn images_have_no_limit(rt: HostRuntime) -> Result<(), Fail> {
    let alloc = rt.alloc();
    let ends = repeated(alloc, "a", "](b)", 10_000, "")?;
    let images = repeated(alloc, "", "![", 10_000, ends.as_str())?;
    let found = page(alloc, images.as_str(), Set::CommonMark, &HtmlOptions::SAFE)?;
    assert!(rt; found.as_str() == "<p><img src=\"b\" alt=\"a\" /></p>\n");
    Ok(())
}

// Many references to one long destination: after 100,000 bytes they lead nowhere.
#[test]
fn references_have_a_limit(rt: HostRuntime) -> Result<(), Fail> {
    let alloc = rt.alloc();
    let defined = repeated(alloc, "\n\n[a]: ", "b", 20_000, "")?;
    let text = repeated(alloc, "", "[a].", 1000, defined.as_str())?;
    let found = page(alloc, text.as_str(), Set::CommonMark, &HtmlOptions::SAFE)?;
    // `<p></p>` with a line ending; `<a href="..">a</a>.`; `a.`
    assert!(rt; found.len() == 8 + 5 * 20_017 + 995 * 2);
    Ok(())
}

// Many rows of one cell in a wide table: after 100,000 empty cells rows are short.
#[test]
fn empty_cells_have_a_limit(rt: HostRuntime) -> Result<(), Fail> {
    let alloc = rt.alloc();
    let head = repeated(alloc, "|", "a|", 1001, "\n|")?;
    let delimiters = repeated(alloc, head.as_str(), "-|", 1001, "\n")?;
    let text = repeated(alloc, delimiters.as_str(), "|b|\n", 1000, "")?;
    let found = page(alloc, text.as_str(), Set::Gfm, &HtmlOptions::SAFE)?;
    // the tags of the table, its head, its body and the row in its head; `<th>a</th>`; a row with `<td>b</td>`;
    // `<td></td>`; each with a line ending
    assert!(rt; found.len() == 62 + 1001 * 11 + 1000 * 22 + 100_000 * 10);
    Ok(())
}
