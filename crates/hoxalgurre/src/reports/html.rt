// A text as HTML: what is in a page, or all of it.

ghost use Rattle.markdown_blocks.specs.Parsed.{IsSmall, IsWithoutMdx};

use crate::reports::anchors::{Anchor, anchors};
use crate::reports::builder::nodes_of;
use crate::reports::layer::{layer_of, parse_inlines};
use markdown_blocks::configuration::ParseOptions;
use markdown_blocks::event::Event;
use markdown_blocks::message::Message;
use markdown_blocks::parser::ParseState;
use markdown_html::texts::push_escaped;
use markdown_html::{HtmlOptions, html_bytes};
use std::alloc::{AllocError, Global};
use std::collections::BTreeSet;

/// What is asked of HTML.
#[derive(Clone, Copy, Debug, PartialEq, Eq)]
pub struct Asked {
    /// Whether raw HTML is written as it is, and addresses with any protocol.
    pub is_unsafe: bool,
    /// Whether headings have their anchors as `id`.
    pub has_anchors: bool,
    /// Whether the HTML is a whole page.
    pub is_page: bool,
}

const BEGIN: &str = "<!DOCTYPE html>
<html>
<head>
<meta charset=\"utf-8\" />
<meta name=\"viewport\" content=\"width=device-width, initial-scale=1\" />
<title>";

/// The HTML of a text. A page has the text of its first heading as its title, or the name of the file.
///
/// An `Err` says that memory ran out.
pub(crate) fn html_of(
    alloc: Global,
    asked: Asked,
    file: &str,
    text: &str,
    options: &ParseOptions,
) -> Result<Vec<u8>, Message>
    requires size { IsSmall text.now }
    requires built { IsWithoutMdx options.now }
{
    if !asked.has_anchors && !asked.is_page {
        return markdown_html::html_of(alloc, &layer_of(options), text, options, written(asked));
    }
    let (events, state) = parse_inlines(alloc, text, options)?;
    let nodes = nodes_of(alloc, &events, &state)?;
    let anchors = anchors(alloc, &nodes)?;
    let body = body_of(alloc, asked, &events, &state, &anchors)?;
    if asked.is_page {
        page(alloc, title_of(&anchors, file), &body)
    } else {
        Ok(body)
    }
}

fn written(asked: Asked) -> &'static HtmlOptions<'static> {
    if asked.is_unsafe {
        &HtmlOptions::DANGEROUS
    } else {
        &HtmlOptions::SAFE
    }
}

/// The HTML within a page.
fn body_of(
    alloc: Global,
    asked: Asked,
    events: &[Event],
    state: &ParseState<'_>,
    anchors: &[Anchor],
) -> Result<Vec<u8>, Message> {
    let ids = if asked.has_anchors {
        ids_of(alloc, anchors)?
    } else {
        Vec::new(alloc)
    };
    html_bytes(alloc, events, state, written(asked), &ids)
}

/// The anchor of each heading, or none if a heading before has the same one, or a footnote may have it.
fn ids_of(alloc: Global, anchors: &[Anchor]) -> Result<Vec<String>, AllocError> {
    let mut ids = Vec::new(alloc);
    let mut seen: BTreeSet<&str> = BTreeSet::new(alloc);
    for it in anchors {
        let anchor = it.anchor.as_str();
        let is_new = seen.insert(anchor)?;
        let is_id = is_new && !is_of_footnotes(anchor);
        ids.push(String::from_str(alloc, if is_id { anchor } else { "" })?)?;
    }
    Ok(ids)
}

/// Whether the section of footnotes may have this `id`.
fn is_of_footnotes(anchor: &str) -> bool {
    anchor == "footnote-label" || anchor.starts_with(HtmlOptions::SAFE.gfm_footnote_clobber_prefix)
}

fn title_of<'a>(anchors: &'a [Anchor], file: &'a str) -> &'a str {
    match anchors.first() {
        Some(first) if !first.text.is_empty() => first.text.as_str(),
        _ => file,
    }
}

fn page(alloc: Global, title: &str, body: &[u8]) -> Result<Vec<u8>, Message> {
    let mut page = Vec::new(alloc);
    page.extend_from_slice(BEGIN.as_bytes())?;
    push_escaped(&mut page, title.as_bytes())?;
    page.extend_from_slice(b"</title>\n</head>\n<body>\n")?;
    page.extend_from_slice(body)?;
    page.extend_from_slice(b"</body>\n</html>\n")?;
    Ok(page)
}
