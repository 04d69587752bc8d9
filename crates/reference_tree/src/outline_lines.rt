// The outline of a tree: its lines from the first to the last.

ghost use Rattle.std.specs.Prelude.{◌≡◌, ◌+◌, [], ◌∷◌, ◌++◌, map, IfOk, OnOk};
ghost use Rattle.std.specs.Option.{option_copied, option_map};
ghost use Rattle.md_meaning.specs.Outline as spec;
ghost use Rattle.md_meaning.specs.declared.outline.Word.TheVariants as words;
ghost use Rattle.reference_tree.specs.Trees.{meaning, line_meanings, slices};
ghost use Rattle.reference_tree.specs.Held.{blocks_meaning};
ghost use Rattle.reference_tree.specs.Outlined.{entry_as, own_entries, own_lines};
ghost use Rattle.reference_tree.specs.Placed.{places};
ghost use Rattle.md_meaning.specs.Outline.{entries_of};

use crate::blocks::Blocks;
use crate::order::{Place, deeper, in_order};
use crate::tree::{Block, Line};
use md_engine::message::Message;
use md_meaning::alert::AlertKind;
use md_meaning::outline::{OutlineLine, Word};
use md_scan::memory;
use std::alloc::Global;

/// Adds a line with this text, which is UTF-8 since the tree is cut beside ASCII bytes.
#[tactic(auto, using(crate::proofs::OutlineLemmas::entries_push))]
fn push_line<'a>(
    outline: &mut Vec<OutlineLine<'a>>,
    depth: usize,
    word: Word,
    spaces: usize,
    bytes: &'a [u8],
) -> Result<(), Message>
    ensures { OnOk result
        (entries_of outline.new.items ≡ entries_of outline.old.items ++ entry_as depth word spaces bytes.now ∷ []) }
{
    match str::from_utf8(bytes) {
        Ok(text) => memory::push(
            outline,
            OutlineLine {
                depth,
                word,
                spaces,
                text,
            },
        ),
        Err(_) => Err(Message),
    }
}

/// Adds a word without text.
#[tactic(auto, using(crate::proofs::OutlineLemmas::entries_push))]
fn push_word<'a>(
    outline: &mut Vec<OutlineLine<'a>>,
    depth: usize,
    word: Word,
) -> Result<(), Message>
    ensures { OnOk result (entries_of outline.new.items ≡ entries_of outline.old.items ++ spec.entry depth word ∷ []) }
{
    memory::push(
        outline,
        OutlineLine {
            depth,
            word,
            spaces: 0,
            text: "",
        },
    )
}

/// Adds a line for each text.
fn push_texts<'a>(
    outline: &mut Vec<OutlineLine<'a>>,
    depth: usize,
    word: Word,
    texts: &[&'a [u8]],
) -> Result<(), Message>
    ensures { OnOk result
        (entries_of outline.new.items ≡ entries_of outline.old.items ++ spec.entries depth word (slices texts.now)) }
{
    for text in texts {
        push_line(outline, depth, word, 0, text)?;
    }
    Ok(())
}

/// Adds a line for each line, with its spaces.
fn push_lines<'a>(
    outline: &mut Vec<OutlineLine<'a>>,
    depth: usize,
    lines: &[Line<'a>],
) -> Result<(), Message>
    ensures { OnOk result
        (entries_of outline.new.items ≡
        entries_of outline.old.items ++ spec.line_entries depth (line_meanings lines.now)) }
{
    for line in lines {
        push_line(outline, depth, Word::Line, line.spaces, line.text)?;
    }
    Ok(())
}

/// Adds a line for a text, if there is one.
fn push_part<'a>(
    outline: &mut Vec<OutlineLine<'a>>,
    depth: usize,
    word: Word,
    part: Option<&'a [u8]>,
) -> Result<(), Message>
    ensures { OnOk result
        (entries_of outline.new.items ≡
        entries_of outline.old.items ++ spec.part_entry depth word (option_copied part.entry)) }
{
    match part {
        Some(text) => push_line(outline, depth, word, 0, text),
        None => Ok(()),
    }
}

/// Adds the lines of a title, if there is one.
fn push_title<'a>(
    outline: &mut Vec<OutlineLine<'a>>,
    depth: usize,
    title: &Option<Vec<&'a [u8]>>,
) -> Result<(), Message>
    ensures { OnOk result
        (entries_of outline.new.items ≡
        entries_of outline.old.items ++ spec.title_entries depth (option_map (λ v. slices v.items) title.now)) }
{
    match title {
        Some(lines) => push_texts(outline, depth, Word::Title, lines),
        None => Ok(()),
    }
}

/// Adds a row and its cells.
fn push_row<'a>(
    outline: &mut Vec<OutlineLine<'a>>,
    depth: usize,
    cells: &[&'a [u8]],
) -> Result<(), Message>
    ensures { OnOk result
        (entries_of outline.new.items ≡ entries_of outline.old.items ++ spec.row_entries depth (slices cells.now)) }
{
    let inner = deeper(depth)?;
    push_word(outline, depth, Word::Row)?;
    push_texts(outline, inner, Word::Cell, cells)
}

/// Adds rows.
fn push_rows<'a>(
    outline: &mut Vec<OutlineLine<'a>>,
    depth: usize,
    rows: &[Vec<&'a [u8]>],
) -> Result<(), Message>
    ensures { OnOk result
        (entries_of outline.new.items ≡
        entries_of outline.old.items ++ spec.rows_entries depth (map (λ row. slices row.items) rows.now)) }
{
    for row in rows {
        push_row(outline, depth, row)?;
    }
    Ok(())
}

/// Adds the head of a table, the delimiter row, and the other rows.
fn push_table<'a>(
    outline: &mut Vec<OutlineLine<'a>>,
    depth: usize,
    delimiter: &'a [u8],
    rows: &[Vec<&'a [u8]>],
) -> Result<(), Message>
    ensures { OnOk result
        (entries_of outline.new.items ≡
        entries_of outline.old.items
        ++ spec.table_entries depth delimiter.now (map (λ row. slices row.items) rows.now)) }
{
    let inner = deeper(depth)?;
    let Some((head, others)) = rows.split_first() else {
        push_word(outline, depth, Word::Table(0))?;
        return push_line(outline, inner, Word::Delimiter, 0, delimiter);
    };
    push_word(outline, depth, Word::Table(head.len()))?;
    push_row(outline, inner, head)?;
    push_line(outline, inner, Word::Delimiter, 0, delimiter)?;
    push_rows(outline, inner, others)
}

/// Adds a block that holds texts.
fn push_lined<'a>(
    outline: &mut Vec<OutlineLine<'a>>,
    depth: usize,
    word: Word,
    lines: &[&'a [u8]],
) -> Result<(), Message>
    ensures { OnOk result
        (entries_of outline.new.items ≡
        entries_of outline.old.items
        ++ spec.entry depth word ∷ spec.entries (depth + 1) words.Line (slices lines.now)) }
{
    let inner = deeper(depth)?;
    push_word(outline, depth, word)?;
    push_texts(outline, inner, Word::Line, lines)
}

/// Adds a block that holds lines with spaces: code or HTML.
fn push_spaced<'a>(
    outline: &mut Vec<OutlineLine<'a>>,
    depth: usize,
    word: Word,
    lines: &[Line<'a>],
) -> Result<(), Message>
    ensures { OnOk result
        (entries_of outline.new.items ≡
        entries_of outline.old.items
        ++ spec.entry depth word ∷ spec.line_entries (depth + 1) (line_meanings lines.now)) }
{
    let inner = deeper(depth)?;
    push_word(outline, depth, word)?;
    push_lines(outline, inner, lines)
}

/// Adds fenced code or math: info and meta, where they are, and the lines.
fn push_fenced<'a>(
    outline: &mut Vec<OutlineLine<'a>>,
    depth: usize,
    word: Word,
    info: Option<&'a [u8]>,
    meta: Option<&'a [u8]>,
    lines: &[Line<'a>],
) -> Result<(), Message>
    ensures { OnOk result
        (entries_of outline.new.items ≡
        entries_of outline.old.items ++ spec.entry depth word
        ∷ (spec.part_entry (depth + 1) words.Info (option_copied info.entry)
        ++ spec.part_entry (depth + 1) words.Meta (option_copied meta.entry)
        ++ spec.line_entries (depth + 1) (line_meanings lines.now))) }
{
    let inner = deeper(depth)?;
    push_word(outline, depth, word)?;
    push_part(outline, inner, Word::Info, info)?;
    push_part(outline, inner, Word::Meta, meta)?;
    push_lines(outline, inner, lines)
}

/// Adds a definition: its label, its destination, and its title.
fn push_definition<'a>(
    outline: &mut Vec<OutlineLine<'a>>,
    depth: usize,
    label: &[&'a [u8]],
    destination: &'a [u8],
    title: &Option<Vec<&'a [u8]>>,
) -> Result<(), Message>
    ensures { OnOk result
        (entries_of outline.new.items ≡
        entries_of outline.old.items ++ spec.entry depth words.Definition
        ∷ (spec.entries (depth + 1) words.Label (slices label.now)
        ++ spec.entry_with (depth + 1) words.Destination destination.now
        ∷ spec.title_entries (depth + 1) (option_map (λ v. slices v.items) title.now))) }
{
    let inner = deeper(depth)?;
    push_word(outline, depth, Word::Definition)?;
    push_texts(outline, inner, Word::Label, label)?;
    push_line(outline, inner, Word::Destination, 0, destination)?;
    push_title(outline, inner, title)
}

fn quote_word(kind: Option<AlertKind>) -> Word
    ensures { result ≡ spec.quote_word kind }
{
    match kind {
        None => Word::Quote,
        Some(kind) => Word::Alert(kind),
    }
}

/// Adds the lines of a block at this depth, without those of the blocks in it.
fn push_block<'a>(
    outline: &mut Vec<OutlineLine<'a>>,
    depth: usize,
    block: &Block<'a>,
) -> Result<(), Message>
    ensures { OnOk result
        (entries_of outline.new.items ≡ entries_of outline.old.items ++ own_entries depth (meaning block.now)) }
{
    match block {
        Block::Frontmatter(marker, lines) => {
            push_lined(outline, depth, Word::Frontmatter(*marker), lines)
        }
        Block::Quote(kind, _) => push_word(outline, depth, quote_word(*kind)),
        Block::ListOf(marker, _) => push_word(outline, depth, Word::List(*marker)),
        Block::Item(_, _, _) => push_word(outline, depth, Word::Item),
        Block::Footnote(label, _) => push_footnote(outline, depth, label),
        Block::Heading(level, lines) => push_lined(outline, depth, Word::Heading(*level), lines),
        Block::Bare(word) => push_word(outline, depth, *word),
        Block::Code(lines) => push_spaced(outline, depth, Word::Code, lines),
        Block::Html(lines) => push_spaced(outline, depth, Word::Html, lines),
        Block::Fence(marker, info, meta, lines, closed) => {
            let word = Word::Fence {
                marker: *marker,
                closed: *closed,
            };
            push_fenced(outline, depth, word, *info, *meta, lines)
        }
        Block::Math(meta, lines, closed) => {
            let word = Word::Math { closed: *closed };
            push_fenced(outline, depth, word, None, *meta, lines)
        }
        Block::Definition(label, destination, title) => {
            push_definition(outline, depth, label, destination, title)
        }
        Block::Paragraph(lines) => push_lined(outline, depth, Word::Paragraph, lines),
        Block::Table(delimiter, rows) => push_table(outline, depth, delimiter, rows),
    }
}

/// Adds a footnote definition: its word and its label.
fn push_footnote<'a>(
    outline: &mut Vec<OutlineLine<'a>>,
    depth: usize,
    label: &'a [u8],
) -> Result<(), Message>
    ensures { OnOk result
        (entries_of outline.new.items ≡
        entries_of outline.old.items ++ spec.entry depth words.Footnote
        ∷ spec.entry_with (depth + 1) words.Label label.now ∷ []) }
{
    let inner = deeper(depth)?;
    push_word(outline, depth, Word::Footnote)?;
    push_line(outline, inner, Word::Label, 0, label)
}

/// Adds the lines of these blocks, each at its depth.
fn push_places<'a>(
    outline: &mut Vec<OutlineLine<'a>>,
    found: &[Place<'_, 'a>],
) -> Result<(), Message>
    ensures { OnOk result
        (entries_of outline.new.items ≡ entries_of outline.old.items ++ own_lines (places found.now)) }
{
    for place in found {
        push_block(outline, place.depth, place.block)?;
    }
    Ok(())
}

/// The lines of the outline of a tree.
#[tactic(auto, using(crate::proofs::PlacedLemmas::outline_placed))]
pub fn outline<'a>(alloc: Global, tree: &Blocks<'a>) -> Result<Vec<OutlineLine<'a>>, Message>
    ensures { IfOk result (λ lines. entries_of lines.items ≡ spec.outline 0 (blocks_meaning tree.now)) }
{
    let found = in_order(alloc, &tree.list)?;
    let mut outline = Vec::new(alloc);
    push_places(&mut outline, &found)?;
    Ok(outline)
}
