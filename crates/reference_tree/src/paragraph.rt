// Paragraphs, and the lines that turn them into headings and tables.

ghost use Rattle.std.specs.Prelude.{◌≡◌, ◌==◌, length, OnOk, IfOk};
ghost use Rattle.md_meaning.specs.State as state;
ghost use Rattle.md_meaning.specs.Leaves as leaves;
ghost use Rattle.reference_tree.specs.Definitions.{cut_meaning, defined_meaning};
ghost use Rattle.reference_tree.specs.Rests.{rest_meaning};
ghost use Rattle.reference_tree.specs.Trees.{meaning, slices};
ghost use Rattle.reference_tree.specs.Held.{blocks_meaning};
ghost use Rattle.reference_tree.specs.States.{kept_meaning, kept_meanings, spot_meaning};
ghost use Rattle.reference_tree.specs.Paragraphs.{block_of, definitions_of, head_of, table_spot};
ghost use Rattle.md_meaning.specs.Table as table;
ghost use Rattle.std.specs.List.{list_all};
ghost use Rattle.std.specs.Option.{option_map};

use crate::blocks::{Blocks, push_block, push_paragraph};
use crate::definition::{Cut, Defined, cut_definitions};
use crate::rest::Rest;
use crate::state::{Innermost, Leaf, ParagraphLine};
use crate::table::{delimiter_columns, row_cells};
use crate::tree::Block;
use md_engine::configuration::ParseOptions;
use md_engine::message::Message;
use md_scan::bytes::trim;
use md_scan::columns::is_small;
use md_scan::memory;
use md_scan::table::is_head;
use std::alloc::Global;

/// The texts of these lines.
fn texts<'a>(alloc: Global, lines: &[ParagraphLine<'a>]) -> Result<Vec<&'a [u8]>, Message>
    ensures { IfOk result (λ v. slices v.items ≡ state.texts (kept_meanings lines.now)) }
{
    let mut texts = Vec::new(alloc);
    for kept in lines {
        memory::push(&mut texts, kept.text)?;
    }
    Ok(texts)
}

/// The definitions at the front of a paragraph, and the lines that remain (CommonMark 4.7).
fn cut<'a>(
    alloc: Global,
    options: &ParseOptions,
    lines: &[ParagraphLine<'a>],
) -> Result<Cut<'a>, Message>
    ensures { IfOk result (λ c. cut_meaning c ≡ state.cut options.now (state.texts (kept_meanings lines.now))) }
{
    let texts = texts(alloc, lines)?;
    if options.constructs.definition {
        cut_definitions(alloc, &texts)
    } else {
        Ok(Cut {
            definitions: Vec::new(alloc),
            remaining: texts,
        })
    }
}

/// The block of a definition.
fn definition_block<'a>(defined: Defined<'a>) -> Block<'a>
    ensures { meaning result ≡ block_of (defined_meaning defined.entry) }
{
    Block::Definition(defined.label, defined.destination, defined.title)
}

fn push_definitions<'a>(
    blocks: &mut Blocks<'a>,
    definitions: Vec<Defined<'a>>,
) -> Result<(), Message>
    ensures { OnOk result
        (blocks_meaning blocks.new ≡
        state.then_definitions (blocks_meaning blocks.old) (definitions_of definitions.entry.items)) }
{
    for defined in definitions {
        push_block(blocks, definition_block(defined))?;
    }
    Ok(())
}

/// Closes a paragraph: its definitions, and then what remains, if anything does.
#[tactic(auto, unfolding(md_meaning::specs::State::shut_paragraph))]
fn shut_paragraph<'a>(
    alloc: Global,
    options: &ParseOptions,
    blocks: &mut Blocks<'a>,
    lines: &[ParagraphLine<'a>],
) -> Result<(), Message>
    ensures { OnOk result
        (blocks_meaning blocks.new ≡
        state.shut_paragraph options.now (blocks_meaning blocks.old) (state.texts (kept_meanings lines.now))) }
{
    let cut = cut(alloc, options, lines)?;
    push_definitions(blocks, cut.definitions)?;
    push_paragraph(blocks, cut.remaining)
}

/// These blocks, and after them the closed paragraph.
pub fn with_paragraph<'a>(
    alloc: Global,
    options: &ParseOptions,
    here: Blocks<'a>,
    lines: Vec<ParagraphLine<'a>>,
) -> Result<Blocks<'a>, Message>
    ensures { IfOk result
        (λ bs.
        blocks_meaning bs ≡
        state.shut_paragraph options.now (blocks_meaning here.entry) (state.texts (kept_meanings lines.entry.items))) }
{
    let mut here = here;
    shut_paragraph(alloc, options, &mut here, &lines)?;
    Ok(here)
}

/// A line of a paragraph, from the rest that it is.
pub fn kept<'a>(rest: &Rest<'a>) -> ParagraphLine<'a>
    ensures { kept_meaning result ≡ state.kept (rest_meaning rest.now) }
{
    ParagraphLine {
        indent: rest.indent(),
        text: rest.text(),
    }
}

/// An open paragraph with one line more.
pub fn with_line<'a>(
    here: Blocks<'a>,
    lines: Vec<ParagraphLine<'a>>,
    rest: &Rest<'a>,
) -> Result<Innermost<'a>, Message>
    ensures { IfOk result
        (λ s.
        spot_meaning s ≡
        leaves.with_line (blocks_meaning here.entry) (kept_meanings lines.entry.items) (rest_meaning rest.now)) }
{
    let mut lines = lines;
    memory::push(&mut lines, kept(rest))?;
    Ok(Innermost {
        here,
        leaf: Leaf::Paragraph(lines),
    })
}

/// Whether all of these are this byte.
fn are_all(marker: u8, bytes: &[u8]) -> bool
    ensures { result ≡ list_all (λ b. b == marker) bytes.now }
{
    bytes.iter().all(|byte| *byte == marker)
}

/// Whether these bytes are this one alone, at least once.
fn is_run(marker: u8, bytes: &[u8]) -> bool
    ensures { result ≡ leaves.is_run marker bytes.now }
{
    match bytes {
        [] => false,
        [_, ..] => are_all(marker, bytes),
    }
}

/// The depth of the heading that this line underlines (CommonMark 4.3).
#[tactic(auto, unfolding(md_meaning::specs::Leaves::underline_depth))]
pub fn underline_depth(options: &ParseOptions, rest: &Rest) -> Option<u8>
    ensures { result ≡ leaves.underline_depth options.now (rest_meaning rest.now) }
{
    let text = trim(rest.bytes);
    if !options.constructs.heading_setext || !rest.has_small_indent(options) {
        None
    } else if is_run(b'=', text) {
        Some(1)
    } else if is_run(b'-', text) {
        Some(2)
    } else {
        None
    }
}

/// A paragraph with an underline, and what its definitions leave of it: that becomes a heading; an underline with
/// nothing to underline is an ordinary line.
fn underlined_by<'a>(
    here: Blocks<'a>,
    lines: Vec<ParagraphLine<'a>>,
    rest: &Rest<'a>,
    depth: u8,
    cut: Cut<'a>,
) -> Result<Innermost<'a>, Message>
    ensures { IfOk result
        (λ s.
        spot_meaning s ≡
        leaves.underlined_by (blocks_meaning here.entry) (kept_meanings lines.entry.items) (rest_meaning rest.now) depth
        (state.then_definitions (blocks_meaning here.entry) (definitions_of cut.entry.definitions.items))
        (slices cut.entry.remaining.items)) }
{
    let Cut {
        definitions,
        remaining,
    } = cut;
    match remaining.as_slice() {
        [] => with_line(here, lines, rest),
        [_, ..] => {
            let mut here = here;
            push_definitions(&mut here, definitions)?;
            push_block(&mut here, Block::Heading(depth, remaining))?;
            Ok(Innermost {
                here,
                leaf: Leaf::None,
            })
        }
    }
}

/// A paragraph with an underline.
#[tactic(auto, unfolding(md_meaning::specs::Leaves::underlined))]
pub fn underlined<'a>(
    alloc: Global,
    options: &ParseOptions,
    here: Blocks<'a>,
    lines: Vec<ParagraphLine<'a>>,
    rest: &Rest<'a>,
    depth: u8,
) -> Result<Innermost<'a>, Message>
    ensures { IfOk result
        (λ s.
        spot_meaning s ≡
        leaves.underlined options.now (blocks_meaning here.entry) (kept_meanings lines.entry.items)
        (rest_meaning rest.now) depth) }
{
    let cut = cut(alloc, options, &lines)?;
    underlined_by(here, lines, rest, depth, cut)
}

/// Whether this line is the head of a table of so many columns.
fn is_head_of(options: &ParseOptions, kept: &ParagraphLine, count: usize, columns: usize) -> bool
    requires { count ≡ length (table.row_cells kept.now.text.now) }
    ensures { result ≡ leaves.is_head_of options.now (kept_meaning kept.now) columns }
{
    is_small(options, kept.indent) && is_head(kept.text) && count == columns
}

/// The cells of the head that this line is for this rest, if the rest is a delimiter row (GFM 4.10).
pub fn head_cells<'a>(
    alloc: Global,
    options: &ParseOptions,
    head: &ParagraphLine<'a>,
    rest: &Rest<'a>,
) -> Result<Option<Vec<&'a [u8]>>, Message>
    ensures { IfOk result
        (λ cells.
        option_map (λ v. slices v.items) cells ≡ head_of options.now (kept_meaning head.now) (rest_meaning rest.now)) }
{
    if !options.constructs.gfm_table || !rest.has_small_indent(options) {
        return Ok(None);
    }
    let Some(columns) = delimiter_columns(alloc, trim(rest.bytes))? else {
        return Ok(None);
    };
    let cells = row_cells(alloc, head.text)?;
    if is_head_of(options, head, cells.len(), columns) {
        Ok(Some(cells))
    } else {
        Ok(None)
    }
}

/// A table after these blocks, with these cells in its head; the lines before the head are closed as a paragraph.
pub fn with_table<'a>(
    alloc: Global,
    options: &ParseOptions,
    here: Blocks<'a>,
    earlier: &[ParagraphLine<'a>],
    cells: Vec<&'a [u8]>,
    rest: &Rest<'a>,
) -> Result<Innermost<'a>, Message>
    ensures { IfOk result
        (λ s.
        spot_meaning s ≡
        table_spot options.now (blocks_meaning here.entry) (kept_meanings earlier.now) (slices cells.entry.items)
        (rest_meaning rest.now)) }
{
    let mut here = here;
    shut_paragraph(alloc, options, &mut here, earlier)?;
    let mut rows = Vec::new(alloc);
    memory::push(&mut rows, cells)?;
    Ok(Innermost {
        here,
        leaf: Leaf::Table(trim(rest.bytes), rows),
    })
}
