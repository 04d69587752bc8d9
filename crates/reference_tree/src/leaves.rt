// Leaf blocks: where they start, and how they continue.

ghost use Rattle.std.specs.Prelude.{◌≡◌, ◌≤◌, ◌==◌, ◌||◌, ◌&&◌, not, length, map, count_by, nat_le, is_some};
ghost use Rattle.std.specs.Prelude.{if◌then◌else◌, IsFalse, IfOk};
ghost use Rattle.std.specs.List.{list_all, prefix_len};
ghost use Rattle.std.specs.Option.{option_copied, option_or};
ghost use Rattle.md_meaning.specs.Leaves as leaves;
ghost use Rattle.md_meaning.specs.Rest.{is_blank, is_white, is_parted};
ghost use Rattle.md_meaning.specs.State.{fence_block, OpenCode, OpenHtml, OpenTable};
ghost use Rattle.reference_tree.specs.Rests.{rest_meaning};
ghost use Rattle.reference_tree.specs.Trees.{meaning, line_meanings, slices};
ghost use Rattle.reference_tree.specs.States.{opening_meaning, result_meaning, result_option, against_meaning};
ghost use Rattle.reference_tree.specs.States.{leaf_meaning, proceeded_option, HandsBack};

use crate::html::{HtmlKind, html_ends, html_kind};
use crate::rest::Rest;
use crate::state::{Leaf, LeafResult, Opening, ParagraphContext};
use crate::table::row_cells;
use crate::tree::{Block, Line};
use md_engine::configuration::ParseOptions;
use md_engine::message::Message;
use md_meaning::outline::Word;
use md_scan::bytes::{is_blank, is_parted, is_white, run_len, trim_start};
use md_scan::heading::heading_text;
use md_scan::memory;
use std::alloc::Global;

/// Whether a line has only this byte, spaces and tabs.
fn has_only(marker: u8, bytes: &[u8]) -> bool
    ensures { result ≡ list_all (λ b. (b == marker) || is_white b) bytes.now }
{
    bytes.iter().all(|byte| *byte == marker || is_white(*byte))
}

/// How many of this byte there are.
fn count_of(marker: u8, bytes: &[u8]) -> usize
    ensures { result ≡ count_by (λ b. b == marker) bytes.now }
{
    bytes.iter().filter(|byte| **byte == marker).count()
}

/// Three or more of one of `*`, `-` and `_`, with spaces and tabs between and after (CommonMark 4.1).
pub fn is_rule(bytes: &[u8]) -> bool
    ensures { result ≡ leaves.is_rule bytes.now }
{
    match bytes {
        [] => false,
        [marker, others @ ..] => {
            (*marker == b'*' || *marker == b'-' || *marker == b'_')
                && has_only(*marker, others)
                && 2 <= count_of(*marker, others)
        }
    }
}

/// A thematic break (CommonMark 4.1).
#[tactic(auto, unfolding(md_meaning::specs::Leaves::break_at))]
fn break_at<'a>(options: &ParseOptions, rest: &Rest<'a>) -> Option<LeafResult<'a>>
    ensures { result_option result ≡ leaves.break_at options.now (rest_meaning rest.now) }
{
    if options.constructs.thematic_break && rest.has_small_indent(options) && is_rule(rest.text()) {
        Some(LeafResult::Finished(Block::Bare(Word::Break)))
    } else {
        None
    }
}

/// The lines of a heading: its text, if there is one.
fn heading_lines<'a>(alloc: Global, text: &'a [u8]) -> Result<Vec<&'a [u8]>, Message>
    ensures { IfOk result (λ v. slices v.items ≡ leaves.heading_lines text.now) }
{
    let mut lines = Vec::new(alloc);
    if !text.is_empty() {
        memory::push(&mut lines, text)?;
    }
    Ok(lines)
}

/// Whether so many `#` may open a heading.
fn is_depth(count: usize) -> bool
    ensures { result ≡ nat_le 1 count && nat_le count 6 }
{
    1 <= count && count <= 6
}

/// An ATX heading: a small indent, 1 to 6 `#`, and then whitespace or the end of the line (CommonMark 4.2).
#[tactic(auto, unfolding(md_meaning::specs::Leaves::heading_at))]
fn heading_at<'a>(
    alloc: Global,
    options: &ParseOptions,
    rest: &Rest<'a>,
) -> Result<Option<LeafResult<'a>>, Message>
    ensures { IfOk result (λ o. result_option o ≡ leaves.heading_at options.now (rest_meaning rest.now)) }
{
    let text = rest.text();
    let depth = run_len(b'#', text);
    let after = text.split_at(depth).1;
    if !options.constructs.heading_atx
        || !rest.has_small_indent(options)
        || !is_depth(depth)
        || !is_parted(after)
    {
        return Ok(None);
    }
    let lines = heading_lines(alloc, heading_text(after))?;
    Ok(Some(LeafResult::Finished(Block::Heading(depth as u8, lines))))
}

/// Indented code: an indent of 4 columns, and no open paragraph (CommonMark 4.4).
#[tactic(auto, unfolding(md_meaning::specs::Leaves::code_at))]
fn code_at<'a>(
    alloc: Global,
    options: &ParseOptions,
    against: ParagraphContext,
    rest: &Rest<'a>,
) -> Result<Option<LeafResult<'a>>, Message>
    ensures { IfOk result
        (λ o. result_option o ≡ leaves.code_at options.now (against_meaning against) (rest_meaning rest.now)) }
{
    if !options.constructs.code_indented
        || against != ParagraphContext::NoText
        || rest.indent() < 4
    {
        return Ok(None);
    }
    let mut lines = Vec::new(alloc);
    memory::push(&mut lines, rest.lose(4).line())?;
    Ok(Some(LeafResult::Opened(Leaf::Code(lines))))
}

/// A line of indented code; a line that is neither blank nor indented by 4 columns ends it.
#[tactic(auto, unfolding(md_meaning::specs::Leaves::code_continued))]
fn code_continued<'a>(lines: &mut Vec<Line<'a>>, rest: &Rest<'a>) -> Result<bool, Message>
    ensures on { IfOk result
        (λ b.
        (if b then Some (leaves.Opened (OpenCode (line_meanings lines.new.items))) else None) ≡
        leaves.code_continued (line_meanings lines.old.items) (rest_meaning rest.now)) }
    ensures off { IfOk result (λ b. IsFalse b → lines.new.items ≡ lines.old.items) }
{
    if !is_blank(rest.bytes) && rest.indent() < 4 {
        return Ok(false);
    }
    memory::push(lines, rest.lose(4).line())?;
    Ok(true)
}

/// Whether this byte fences code or math, in these options.
fn is_fence_marker(options: &ParseOptions, marker: u8) -> bool
    ensures { result ≡ leaves.is_fence_marker options.now marker }
{
    if marker == b'$' {
        options.constructs.math_flow
    } else {
        options.constructs.code_fenced && (marker == b'`' || marker == b'~')
    }
}

fn nonempty(bytes: &[u8]) -> Option<&[u8]>
    ensures { option_copied result ≡ leaves.nonempty bytes.now }
{
    if bytes.is_empty() { None } else { Some(bytes) }
}

/// How many bytes the first word has.
fn word_len(text: &[u8]) -> usize
    ensures value { result ≡ prefix_len (λ b. not (is_white b)) text.now }
    ensures bound { result ≤ length text.now }
{
    text.iter().take_while(|byte| !is_white(**byte)).count()
}

/// An opening fence with this text after it: the first word is `info`, and the others are `meta`; math has no `info`.
fn opening<'a>(marker: u8, size: usize, indent: usize, text: &'a [u8]) -> Opening<'a>
    ensures { opening_meaning result ≡ leaves.opening marker size indent text.now }
{
    if marker == b'$' {
        return Opening {
            marker,
            size,
            indent,
            info: None,
            meta: nonempty(text),
        };
    }
    let (word, others) = text.split_at(word_len(text));
    Opening {
        marker,
        size,
        indent,
        info: nonempty(word),
        meta: nonempty(trim_start(others)),
    }
}

/// An opening fence: a small indent, a run of markers, and what may follow it (CommonMark 4.5; math is an own choice).
#[tactic(auto, unfolding(md_meaning::specs::Leaves::fence_at))]
fn fence_at<'a>(alloc: Global, options: &ParseOptions, rest: &Rest<'a>) -> Option<LeafResult<'a>>
    ensures { result_option result ≡ leaves.fence_at options.now (rest_meaning rest.now) }
{
    let text = rest.text();
    let marker = *text.first()?;
    let size = run_len(marker, text);
    let after = text.split_at(size).1;
    let least = if marker == b'$' { 2 } else { 3 };
    if !rest.has_small_indent(options)
        || !is_fence_marker(options, marker)
        || size < least
        || (marker != b'~' && after.contains(&marker))
    {
        return None;
    }
    Some(LeafResult::Opened(Leaf::Fence(
        opening(marker, size, rest.indent(), trim_start(after)),
        Vec::new(alloc),
    )))
}

/// Whether this line closes a fence: a small indent, at least as many of the same marker, and nothing else.
fn closes(options: &ParseOptions, opening: &Opening, rest: &Rest) -> bool
    ensures { result ≡ leaves.closes options.now (opening_meaning opening.now) (rest_meaning rest.now) }
{
    let text = rest.text();
    let size = run_len(opening.marker, text);
    rest.has_small_indent(options) && size >= opening.size && is_blank(text.split_at(size).1)
}

/// Fenced code or math, and whether it has a closing fence.
pub fn fence_block<'a>(opening: &Opening<'a>, lines: Vec<Line<'a>>, closed: bool) -> Block<'a>
    ensures { meaning result ≡ fence_block (opening_meaning opening.now) (line_meanings lines.entry.items) closed }
{
    if opening.marker == b'$' {
        Block::Math(opening.meta, lines, closed)
    } else {
        Block::Fence(opening.marker, opening.info, opening.meta, lines, closed)
    }
}

/// A line of fenced code or math: the closing fence, or a line that loses at most the indent of the opening one.
#[tactic(auto, unfolding(md_meaning::specs::Leaves::fence_continued))]
pub fn fence_continued<'a>(
    options: &ParseOptions,
    opening: &Opening<'a>,
    lines: Vec<Line<'a>>,
    rest: &Rest<'a>,
) -> Result<LeafResult<'a>, Message>
    ensures { IfOk result
        (λ x.
        result_meaning x ≡
        leaves.fence_continued options.now (opening_meaning opening.now) (line_meanings lines.entry.items)
        (rest_meaning rest.now)) }
{
    if closes(options, opening, rest) {
        return Ok(LeafResult::Finished(fence_block(opening, lines, true)));
    }
    let mut lines = lines;
    memory::push(&mut lines, rest.lose(opening.indent).line())?;
    Ok(LeafResult::Opened(Leaf::Fence(*opening, lines)))
}

/// A line of HTML, which may hold its end.
fn html_line<'a>(
    kind: HtmlKind,
    lines: Vec<Line<'a>>,
    rest: &Rest<'a>,
) -> Result<LeafResult<'a>, Message>
    ensures { IfOk result
        (λ x.
        result_meaning x ≡ leaves.html_line kind (line_meanings lines.entry.items)
        (rest_meaning rest.now)) }
{
    let mut lines = lines;
    memory::push(&mut lines, rest.line())?;
    if html_ends(kind, rest.bytes) {
        Ok(LeafResult::Finished(Block::Html(lines)))
    } else {
        Ok(LeafResult::Opened(Leaf::Html(kind, lines)))
    }
}

/// HTML: a small indent, and then one of the seven beginnings (CommonMark 4.6).
#[tactic(auto, unfolding(md_meaning::specs::Leaves::html_at))]
fn html_at<'a>(
    alloc: Global,
    options: &ParseOptions,
    against: ParagraphContext,
    rest: &Rest<'a>,
) -> Result<Option<LeafResult<'a>>, Message>
    ensures { IfOk result
        (λ o. result_option o ≡ leaves.html_at options.now (against_meaning against) (rest_meaning rest.now)) }
{
    if !options.constructs.html_flow || !rest.has_small_indent(options) {
        return Ok(None);
    }
    let Some(kind) = html_kind(rest.text()) else {
        return Ok(None);
    };
    if matches!(kind, HtmlKind::Complete) && against == ParagraphContext::Text {
        return Ok(None);
    }
    Ok(Some(html_line(kind, Vec::new(alloc), rest)?))
}

/// The first of HTML, a heading and a break that starts at this rest.
fn marked_starts<'a>(
    alloc: Global,
    options: &ParseOptions,
    against: ParagraphContext,
    rest: &Rest<'a>,
) -> Result<Option<LeafResult<'a>>, Message>
    ensures { IfOk result
        (λ o.
        result_option o ≡
        option_or (leaves.html_at options.now (against_meaning against) (rest_meaning rest.now))
        (option_or (leaves.heading_at options.now (rest_meaning rest.now))
        (leaves.break_at options.now (rest_meaning rest.now)))) }
{
    if let Some(became) = html_at(alloc, options, against, rest)? {
        return Ok(Some(became));
    }
    if let Some(became) = heading_at(alloc, options, rest)? {
        return Ok(Some(became));
    }
    Ok(break_at(options, rest))
}

/// The first leaf, other than a paragraph, that starts at this rest.
#[tactic(auto, unfolding(md_meaning::specs::Leaves::starts))]
pub fn starts<'a>(
    alloc: Global,
    options: &ParseOptions,
    against: ParagraphContext,
    rest: &Rest<'a>,
) -> Result<Option<LeafResult<'a>>, Message>
    ensures { IfOk result
        (λ o. result_option o ≡ leaves.starts options.now (against_meaning against) (rest_meaning rest.now)) }
{
    if let Some(became) = code_at(alloc, options, against, rest)? {
        return Ok(Some(became));
    }
    if let Some(became) = fence_at(alloc, options, rest) {
        return Ok(Some(became));
    }
    marked_starts(alloc, options, against, rest)
}

/// What an open leaf that is no paragraph becomes with this line: it has become something, or ends before the line.
#[derive(Drop)]
pub enum Transition<'a> {
    On(LeafResult<'a>),
    Ends(Leaf<'a>),
}

/// Whether there is one, which is let go.
pub fn is_found<T: Drop>(found: Option<T>) -> bool
    ensures { result ≡ is_some found }
{
    found.is_some()
}

/// A line of HTML, which ends before a blank one if it is of one of the last two kinds.
#[tactic(auto, unfolding(md_meaning::specs::Leaves::html_continued))]
fn html_continued<'a>(
    kind: HtmlKind,
    lines: Vec<Line<'a>>,
    rest: &Rest<'a>,
) -> Result<Transition<'a>, Message>
    ensures value { IfOk result
        (λ w.
        proceeded_option w ≡
        leaves.html_continued kind (line_meanings lines.entry.items) (rest_meaning rest.now)) }
    ensures ends { IfOk result (λ w. HandsBack w (OpenHtml kind (line_meanings lines.entry.items))) }
{
    if matches!(kind, HtmlKind::Basic | HtmlKind::Complete) && is_blank(rest.bytes) {
        Ok(Transition::Ends(Leaf::Html(kind, lines)))
    } else {
        Ok(Transition::On(html_line(kind, lines, rest)?))
    }
}

/// Whether a table ends before this line: it is blank, or another leaf starts there.
fn ends_table(alloc: Global, options: &ParseOptions, rest: &Rest) -> Result<bool, Message>
    ensures { IfOk result
        (λ b.
        b ≡
        (is_blank rest.now.bytes.now || is_some (leaves.starts options.now leaves.NoText (rest_meaning rest.now)))) }
{
    Ok(is_blank(rest.bytes) || is_found(starts(alloc, options, ParagraphContext::NoText, rest)?))
}

/// A row of a table, or the line before which it ends.
#[tactic(auto, unfolding(md_meaning::specs::Leaves::table_continued))]
fn table_continued<'a>(
    alloc: Global,
    options: &ParseOptions,
    delimiter: &'a [u8],
    rows: Vec<Vec<&'a [u8]>>,
    rest: &Rest<'a>,
) -> Result<Transition<'a>, Message>
    ensures value { IfOk result
        (λ w.
        proceeded_option w ≡
        leaves.table_continued options.now delimiter.now (map (λ row. slices row.items) rows.entry.items)
        (rest_meaning rest.now)) }
    ensures ends { IfOk result
        (λ w. HandsBack w (OpenTable delimiter.now (map (λ row. slices row.items) rows.entry.items))) }
{
    if ends_table(alloc, options, rest)? {
        return Ok(Transition::Ends(Leaf::Table(delimiter, rows)));
    }
    let mut rows = rows;
    memory::push(&mut rows, row_cells(alloc, rest.bytes)?)?;
    Ok(Transition::On(LeafResult::Opened(Leaf::Table(delimiter, rows))))
}

/// How an open leaf continues.
pub fn is_continued<'a>(
    alloc: Global,
    options: &ParseOptions,
    leaf: Leaf<'a>,
    rest: &Rest<'a>,
) -> Result<Transition<'a>, Message>
    ensures value { IfOk result
        (λ w. proceeded_option w ≡ leaves.is_continued options.now (leaf_meaning leaf.entry) (rest_meaning rest.now)) }
    ensures ends { IfOk result (λ w. HandsBack w (leaf_meaning leaf.entry)) }
{
    match leaf {
        Leaf::Code(mut lines) => {
            if code_continued(&mut lines, rest)? {
                Ok(Transition::On(LeafResult::Opened(Leaf::Code(lines))))
            } else {
                Ok(Transition::Ends(Leaf::Code(lines)))
            }
        }
        Leaf::Fence(opening, lines) => Ok(Transition::On(fence_continued(
            options, &opening, lines, rest,
        )?)),
        Leaf::Html(kind, lines) => html_continued(kind, lines, rest),
        Leaf::Table(delimiter, rows) => table_continued(alloc, options, delimiter, rows, rest),
        other => Ok(Transition::Ends(other)),
    }
}
