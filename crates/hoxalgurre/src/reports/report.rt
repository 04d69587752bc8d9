// A report of one text, in one of two formats.

ghost use Rattle.markdown_blocks.specs.Parsed.{IsSmall, IsWithoutMdx};

use crate::reports::anchors::anchors;
use crate::reports::builder::nodes_of;
use crate::reports::events::{Record, records};
use crate::reports::headings::{
    Heading, Headings, end_sections, push_headings, set_heading_columns,
};
pub use crate::reports::html::Asked;
use crate::reports::html::html_of;
use crate::reports::labels::{Finding, Wanted, findings, push_findings, set_finding_columns};
use crate::reports::layer::parse_inlines;
use crate::reports::links::{LinkRecord, count_broken, links, push_links, set_link_columns};
use crate::reports::nodes::{Node, set_node_columns};
use crate::reports::outline::{Block, OutlineBlocks, OutlineText, set_block_columns};
use crate::reports::parts::hand_out;
use crate::reports::position::Columns;
use crate::reports::spans::{OutlineSpans, Span, set_span_columns, spans};
use crate::reports::toc::{Entry, entries, push_entries, set_entry_columns};
use crate::reports::tree::push_tree;
use markdown_blocks::configuration::ParseOptions;
use markdown_blocks::event::Event;
use markdown_blocks::message::Message;
use markdown_blocks::parser::parse;
use printing::print::print;
use serde::Serialize;
use std::alloc::Global;
use std::str;

/// What is reported.
#[derive(Clone, Copy, Debug, PartialEq, Eq)]
pub enum Task {
    /// The blocks, each with its place.
    Outline,
    /// The events.
    Events,
    /// The text as HTML.
    Html,
    /// The table of contents.
    Headings,
    /// What is wrong with labels.
    Labels,
    /// The links.
    Links,
    /// The syntax tree.
    Tree,
}

/// What is asked of a report.
#[derive(Clone, Copy)]
pub struct Wish<'a> {
    pub task: Task,
    pub format: Format,
    /// Whether outline and events show inline content.
    pub has_inlines: bool,
    /// Whether headings are a table of links.
    pub has_toc: bool,
    /// Whether a label in brackets alone is a reference.
    pub has_shortcuts: bool,
    /// Labels that may be undefined.
    pub ignored: &'a [&'a str],
    pub html: Asked,
}

/// How a report is written.
#[derive(Clone, Copy, Debug, PartialEq, Eq)]
pub enum Format {
    /// Lines for people.
    Text,
    /// A JSON object.
    Json,
}

/// A report of a text.
#[derive(Drop)]
pub struct Report {
    /// What is printed, as UTF-8.
    pub text: Vec<u8>,
    /// How many things are wrong: 0 but where labels or links are looked at.
    pub findings: usize,
}

/// The version of the JSON of all reports (`docs/json.md`).
const VERSION: u32 = 1;

#[derive(Drop, Serialize)]
struct OutlineReport<'f, 't, 'l> {
    version: u32,
    file: &'f str,
    blocks: Vec<Block<'t>>,
    definitions: &'l [String],
    footnotes: &'l [String],
}

#[derive(Drop, Serialize)]
struct EventsReport<'a> {
    version: u32,
    file: &'a str,
    events: Vec<Record>,
}

#[derive(Drop, Serialize)]
struct HtmlReport<'a> {
    version: u32,
    file: &'a str,
    html: &'a str,
}

#[derive(Drop, Serialize)]
struct HeadingsReport<'a> {
    version: u32,
    file: &'a str,
    headings: Vec<Heading>,
}

#[derive(Drop, Serialize)]
struct LabelsReport<'a> {
    version: u32,
    file: &'a str,
    findings: Vec<Finding>,
}

#[derive(Drop, Serialize)]
struct LinksReport<'f, 'n> {
    version: u32,
    file: &'f str,
    links: Vec<LinkRecord<'n>>,
}

#[derive(Drop, Serialize)]
struct TocReport<'f, 'n> {
    version: u32,
    file: &'f str,
    toc: Vec<Entry<'n>>,
}

#[derive(Drop, Serialize)]
struct SpansReport<'f, 't, 'l, 'n> {
    version: u32,
    file: &'f str,
    blocks: Vec<Block<'t>>,
    definitions: &'l [String],
    footnotes: &'l [String],
    inlines: Vec<Span<'n>>,
}

/// Reads the text of a file and reports of it, part by part where no inline content is read and not all events are
/// reported. An `Err` says that memory ran out.
pub fn report_on(
    alloc: Global,
    wish: Wish<'_>,
    file: &str,
    text: &str,
    options: &ParseOptions,
) -> Result<Report, Message>
    requires size { IsSmall text.now }
    requires built { IsWithoutMdx options.now }
{
    let format = wish.format;
    match wish.task {
        Task::Labels => report_labels(alloc, wish, file, text, options),
        Task::Links => report_links(alloc, format, file, text, options),
        Task::Html => {
            let text = report_html(alloc, wish, file, text, options)?;
            Ok(Report { text, findings: 0 })
        }
        _ => {
            let text = report_text(alloc, wish, file, text, options)?.into_bytes();
            Ok(Report { text, findings: 0 })
        }
    }
}

/// A report that finds nothing wrong.
fn report_text(
    alloc: Global,
    wish: Wish<'_>,
    file: &str,
    text: &str,
    options: &ParseOptions,
) -> Result<String, Message>
    requires size { IsSmall text.now }
    requires built { IsWithoutMdx options.now }
{
    let format = wish.format;
    match wish.task {
        Task::Outline => report_outline(alloc, wish, file, text, options),
        Task::Events => report_events(alloc, wish, file, text, options),
        Task::Tree => report_tree(alloc, format, file, text, options),
        _ if wish.has_toc => report_toc(alloc, format, file, text, options),
        _ => report_headings(alloc, format, file, text, options),
    }
}

fn report_outline(
    alloc: Global,
    wish: Wish<'_>,
    file: &str,
    text: &str,
    options: &ParseOptions,
) -> Result<String, Message>
    requires size { IsSmall text.now }
    requires built { IsWithoutMdx options.now }
{
    let is_json = wish.format == Format::Json;
    if wish.has_inlines {
        return outline_inlines(alloc, is_json, file, text, options);
    }
    if is_json {
        outline_json(alloc, file, text, options)
    } else {
        outline_text(alloc, text, options)
    }
}

/// The JSON of a report, on one line.
fn json<T: Serialize>(alloc: Global, value: &T) -> Result<String, Message> {
    match serde_json::to_string(alloc, value) {
        Ok(text) => Ok(text),
        Err(_) => Err(Message),
    }
}

fn outline_text(alloc: Global, text: &str, options: &ParseOptions) -> Result<String, Message>
    requires size { IsSmall text.now }
    requires built { IsWithoutMdx options.now }
{
    let mut lines = OutlineText {
        alloc,
        text: String::new(alloc),
    };
    hand_out(alloc, text, options, &mut lines)?;
    Ok(lines.text)
}

fn outline_blocks<'a>(
    alloc: Global,
    text: &'a str,
    options: &'a ParseOptions,
) -> Result<OutlineBlocks<'a>, Message>
    requires size { IsSmall text.now }
    requires built { IsWithoutMdx options.now }
{
    let mut all = OutlineBlocks {
        alloc,
        blocks: Vec::new(alloc),
        definitions: Vec::new(alloc),
        footnotes: Vec::new(alloc),
    };
    hand_out(alloc, text, options, &mut all)?;
    Ok(all)
}

fn outline_json(
    alloc: Global,
    file: &str,
    text: &str,
    options: &ParseOptions,
) -> Result<String, Message>
    requires size { IsSmall text.now }
    requires built { IsWithoutMdx options.now }
{
    let mut all = outline_blocks(alloc, text, options)?;
    let columns = Columns::new(alloc, text.as_bytes())?;
    set_block_columns(&columns, all.blocks.as_mut_slice());
    json(
        alloc,
        &OutlineReport {
            version: VERSION,
            file,
            blocks: all.blocks,
            definitions: &all.definitions,
            footnotes: &all.footnotes,
        },
    )
}

/// The outline with what is in its blocks.
fn outline_inlines(
    alloc: Global,
    is_json: bool,
    file: &str,
    text: &str,
    options: &ParseOptions,
) -> Result<String, Message>
    requires size { IsSmall text.now }
    requires built { IsWithoutMdx options.now }
{
    let nodes = read_nodes(alloc, text, options)?;
    let spans = spans(alloc, &nodes)?;
    if is_json {
        spans_json(alloc, file, text, options, spans)
    } else {
        spans_text(alloc, text, options, &spans)
    }
}

fn spans_text(
    alloc: Global,
    text: &str,
    options: &ParseOptions,
    spans: &[Span<'_>],
) -> Result<String, Message>
    requires size { IsSmall text.now }
    requires built { IsWithoutMdx options.now }
{
    let mut lines = OutlineSpans {
        alloc,
        text: String::new(alloc),
        spans,
        blocks: 0,
        shown: 0,
    };
    hand_out(alloc, text, options, &mut lines)?;
    Ok(lines.text)
}

fn spans_json(
    alloc: Global,
    file: &str,
    text: &str,
    options: &ParseOptions,
    found: Vec<Span<'_>>,
) -> Result<String, Message>
    requires size { IsSmall text.now }
    requires built { IsWithoutMdx options.now }
{
    let mut inlines = found;
    let mut all = outline_blocks(alloc, text, options)?;
    let columns = Columns::new(alloc, text.as_bytes())?;
    set_block_columns(&columns, all.blocks.as_mut_slice());
    set_span_columns(&columns, inlines.as_mut_slice());
    json(
        alloc,
        &SpansReport {
            version: VERSION,
            file,
            blocks: all.blocks,
            definitions: &all.definitions,
            footnotes: &all.footnotes,
            inlines,
        },
    )
}

/// The syntax tree of a text.
fn read_nodes(alloc: Global, text: &str, options: &ParseOptions) -> Result<Vec<Node>, Message>
    requires size { IsSmall text.now }
    requires built { IsWithoutMdx options.now }
{
    let (events, state) = parse_inlines(alloc, text, options)?;
    nodes_of(alloc, &events, &state)
}

fn read_events(
    alloc: Global,
    has_inlines: bool,
    text: &str,
    options: &ParseOptions,
) -> Result<Vec<Event>, Message>
    requires size { IsSmall text.now }
    requires built { IsWithoutMdx options.now }
{
    let (events, _state) = if has_inlines {
        parse_inlines(alloc, text, options)?
    } else {
        parse(alloc, text, options)?
    };
    Ok(events)
}

fn report_events(
    alloc: Global,
    wish: Wish<'_>,
    file: &str,
    text: &str,
    options: &ParseOptions,
) -> Result<String, Message>
    requires size { IsSmall text.now }
    requires built { IsWithoutMdx options.now }
{
    let events = read_events(alloc, wish.has_inlines, text, options)?;
    if wish.format == Format::Text {
        return print(alloc, &events);
    }
    let columns = Columns::new(alloc, text.as_bytes())?;
    let events = records(alloc, &columns, &events)?;
    json(
        alloc,
        &EventsReport {
            version: VERSION,
            file,
            events,
        },
    )
}

fn report_html(
    alloc: Global,
    wish: Wish<'_>,
    file: &str,
    text: &str,
    options: &ParseOptions,
) -> Result<Vec<u8>, Message>
    requires size { IsSmall text.now }
    requires built { IsWithoutMdx options.now }
{
    let bytes = html_of(alloc, wish.html, file, text, options)?;
    if wish.format == Format::Text {
        return Ok(bytes);
    }
    let html = str::from_utf8(&bytes).unwrap_or("");
    let report = json(
        alloc,
        &HtmlReport {
            version: VERSION,
            file,
            html,
        },
    )?;
    Ok(report.into_bytes())
}

fn report_headings(
    alloc: Global,
    format: Format,
    file: &str,
    text: &str,
    options: &ParseOptions,
) -> Result<String, Message>
    requires size { IsSmall text.now }
    requires built { IsWithoutMdx options.now }
{
    let mut all = Headings {
        alloc,
        found: Vec::new(alloc),
    };
    hand_out(alloc, text, options, &mut all)?;
    let mut headings = all.found;
    end_sections(&mut headings, text.len());
    if format == Format::Json {
        let columns = Columns::new(alloc, text.as_bytes())?;
        set_heading_columns(&columns, headings.as_mut_slice());
        return json(
            alloc,
            &HeadingsReport {
                version: VERSION,
                file,
                headings,
            },
        );
    }
    let mut lines = String::new(alloc);
    push_headings(&mut lines, &headings)?;
    Ok(lines)
}

fn report_toc(
    alloc: Global,
    format: Format,
    file: &str,
    text: &str,
    options: &ParseOptions,
) -> Result<String, Message>
    requires size { IsSmall text.now }
    requires built { IsWithoutMdx options.now }
{
    let nodes = read_nodes(alloc, text, options)?;
    let anchors = anchors(alloc, &nodes)?;
    let mut toc = entries(alloc, &nodes, &anchors)?;
    if format == Format::Json {
        let columns = Columns::new(alloc, text.as_bytes())?;
        set_entry_columns(&columns, toc.as_mut_slice());
        return json(
            alloc,
            &TocReport {
                version: VERSION,
                file,
                toc,
            },
        );
    }
    let mut lines = String::new(alloc);
    push_entries(&mut lines, &toc)?;
    Ok(lines)
}

/// The tree of a text alone, on a line, or as JSON with the name of the file.
fn report_tree(
    alloc: Global,
    format: Format,
    file: &str,
    text: &str,
    options: &ParseOptions,
) -> Result<String, Message>
    requires size { IsSmall text.now }
    requires built { IsWithoutMdx options.now }
{
    let mut nodes = read_nodes(alloc, text, options)?;
    let columns = Columns::new(alloc, text.as_bytes())?;
    set_node_columns(&columns, nodes.as_mut_slice());
    let mut tree = String::new(alloc);
    if format == Format::Text {
        push_tree(alloc, &mut tree, &nodes)?;
        tree.push_str("\n")?;
        return Ok(tree);
    }
    write!(tree, "{{\"version\":{VERSION},\"file\":")?;
    tree.push_str(json(alloc, &file)?.as_str())?;
    tree.push_str(",\"tree\":")?;
    push_tree(alloc, &mut tree, &nodes)?;
    tree.push_str("}")?;
    Ok(tree)
}

fn report_links(
    alloc: Global,
    format: Format,
    file: &str,
    text: &str,
    options: &ParseOptions,
) -> Result<Report, Message>
    requires size { IsSmall text.now }
    requires built { IsWithoutMdx options.now }
{
    let nodes = read_nodes(alloc, text, options)?;
    let anchors = anchors(alloc, &nodes)?;
    let links = links(alloc, &nodes, &anchors)?;
    let findings = count_broken(&links);
    let text = links_text(alloc, format, file, text, links)?;
    Ok(Report {
        text: text.into_bytes(),
        findings,
    })
}

fn links_text(
    alloc: Global,
    format: Format,
    file: &str,
    text: &str,
    found: Vec<LinkRecord<'_>>,
) -> Result<String, Message> {
    let mut links = found;
    if format == Format::Json {
        let columns = Columns::new(alloc, text.as_bytes())?;
        set_link_columns(&columns, links.as_mut_slice());
        return json(
            alloc,
            &LinksReport {
                version: VERSION,
                file,
                links,
            },
        );
    }
    let mut lines = String::new(alloc);
    push_links(&mut lines, &links)?;
    Ok(lines)
}

fn report_labels(
    alloc: Global,
    wish: Wish<'_>,
    file: &str,
    text: &str,
    options: &ParseOptions,
) -> Result<Report, Message>
    requires size { IsSmall text.now }
    requires built { IsWithoutMdx options.now }
{
    let wanted = Wanted::new(alloc, wish.has_shortcuts, wish.ignored)?;
    let (events, state) = parse_inlines(alloc, text, options)?;
    let found = findings(alloc, &events, &state, &wanted)?;
    let count = found.len();
    let text = labels_text(alloc, wish.format, file, text, found)?;
    Ok(Report {
        text: text.into_bytes(),
        findings: count,
    })
}

fn labels_text(
    alloc: Global,
    format: Format,
    file: &str,
    text: &str,
    found: Vec<Finding>,
) -> Result<String, Message> {
    let mut findings = found;
    if format == Format::Json {
        let columns = Columns::new(alloc, text.as_bytes())?;
        set_finding_columns(&columns, findings.as_mut_slice());
        return json(
            alloc,
            &LabelsReport {
                version: VERSION,
                file,
                findings,
            },
        );
    }
    let mut lines = String::new(alloc);
    push_findings(&mut lines, file, &findings)?;
    Ok(lines)
}
