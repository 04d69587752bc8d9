// The printed form of an outline.
ghost use Rattle.std.specs.Prelude.{◌≡◌, ◌++◌, OnOk, IfOk, [], map, codes, string_bytes, encode_utf8};
ghost use Rattle.std.specs.List.{flat_map, repeat};
ghost use Rattle.md_program.specs.Listing.{listing_of};
ghost use Rattle.md_meaning.specs.Outline.{entry_of};
ghost use Rattle.md_program.specs.Page.{written_on};
ghost use Rattle.md_program.specs.Printed.{alert_head, head, open_mark, printed, printed_end};
ghost use Rattle.md_program.specs.Printed.{printed_labels, printed_line};

use crate::body::Outlined;
use crate::output::{Output, Page};
use crate::streams::ROOM;
use md_engine::message::Message;
use md_meaning::alert::AlertKind;
use md_meaning::outline::{OutlineLine, Word};
use std::alloc::{AllocError, Global};

/// The whole output: the outline with two spaces a depth, an empty line, and the two lists of labels.
///
/// It refuses only for want of memory.
pub fn print(alloc: Global, outlined: &Outlined) -> Result<String, Message>
    ensures { IfOk result (λ text. string_bytes text ≡ printed (listing_of outlined.now)) }
{
    let mut text = empty(alloc)?;
    match push_all(&mut text, outlined) {
        Ok(()) => Ok(text),
        Err(_) => Err(Message),
    }
}

/// An empty text with room for a short output.
pub fn empty(alloc: Global) -> Result<String, Message>
    ensures { IfOk result (λ text. string_bytes text ≡ []) }
{
    match String::with_capacity(alloc, ROOM) {
        Ok(text) => Ok(text),
        Err(_) => Err(Message),
    }
}

/// An empty page with room for the outline of a text. Two bytes for each byte of the text are mostly enough, so that
/// what is written is not copied as it grows.
pub fn with_room(alloc: Global, text: &str) -> Result<Page, Message>
    ensures { IfOk result (λ page. written_on page ≡ []) }
{
    match Page::with_capacity(alloc, text.len().saturating_mul(2)) {
        Ok(page) => Ok(page),
        Err(_) => Err(Message),
    }
}

#[tactic(auto, unfolding(crate::specs::Printed::printed))]
fn push_all<W: Output>(text: &mut W, outlined: &Outlined) -> Result<(), AllocError>
    ensures { OnOk result (W.bytes text.new ≡ W.bytes text.old ++ printed (listing_of outlined.now)) }
{
    push_lines(text, outlined.lines.as_slice())?;
    push_end(
        text,
        outlined.definitions.as_slice(),
        outlined.footnotes.as_slice(),
    )
}

/// Puts after the text what is printed after the lines: an empty line, and the two lists of labels.
#[tactic(auto, unfolding(crate::specs::Printed::printed_end))]
pub fn push_end<W: Output>(
    text: &mut W,
    definitions: &[String],
    footnotes: &[String],
) -> Result<(), AllocError>
    ensures { OnOk result (W.bytes text.new ≡ W.bytes text.old
        ++ printed_end (map string_bytes definitions.now) (map string_bytes footnotes.now)) }
{
    text.put("\n")?;
    push_labels(text, "definitions ", definitions)?;
    push_labels(text, "footnotes ", footnotes)
}

/// Puts the lines of an outline after the text.
#[inline(never)]
pub fn push_lines<W: Output>(text: &mut W, lines: &[OutlineLine]) -> Result<(), AllocError>
    ensures { OnOk result
        (W.bytes text.new ≡ W.bytes text.old ++ flat_map printed_line (map entry_of lines.now)) }
{
    for line in lines {
        push_line(text, line)?;
    }
    Ok(())
}

/// Puts a line of an outline after the text.
#[tactic(auto, unfolding(crate::specs::Printed::printed_line))]
#[inline(always)]
pub fn push_line<W: Output>(text: &mut W, line: &OutlineLine) -> Result<(), AllocError>
    ensures { OnOk result (W.bytes text.new ≡ W.bytes text.old ++ printed_line (entry_of line.now)) }
{
    push_front(text, line.depth, line.word)?;
    push_repeated(text, " ", line.spaces)?;
    if !line.text.is_empty() {
        text.put(line.text)?;
    }
    text.put("\n")
}

/// Puts two spaces a depth after the text, and a word: at once for the lines of blocks that are not deep, which are
/// the most.
#[inline(always)]
pub fn push_front<W: Output>(text: &mut W, depth: usize, word: Word) -> Result<(), AllocError>
    ensures { OnOk result
        (W.bytes text.new ≡ W.bytes text.old ++ (repeat depth (codes "  ") ++ head word)) }
{
    match (word, depth) {
        (Word::Line, 1) => text.put("  | "),
        (Word::Line, 2) => text.put("    | "),
        (Word::Line, 3) => text.put("      | "),
        (Word::Heading(level), 0) => push_heading(text, level),
        _ => {
            push_indent(text, depth)?;
            push_head(text, word)
        }
    }
}

/// Puts two spaces a depth after the text: at once for as few depths as most lines have.
#[inline(always)]
fn push_few<W: Output>(text: &mut W, depth: usize) -> Result<(), AllocError>
    ensures { OnOk result (W.bytes text.new ≡ W.bytes text.old ++ repeat depth (codes "  ")) }
{
    match depth {
        0 => Ok(()),
        1 => text.put("  "),
        2 => text.put("    "),
        3 => text.put("      "),
        _ => push_repeated(text, "  ", depth),
    }
}

/// Puts two spaces a depth after the text, those of four depths at once.
fn push_indent<W: Output>(text: &mut W, depth: usize) -> Result<(), AllocError>
    ensures { OnOk result (W.bytes text.new ≡ W.bytes text.old ++ repeat depth (codes "  ")) }
{
    if depth < 4 {
        return push_few(text, depth);
    }
    push_repeated(text, "        ", depth / 4)?;
    push_few(text, depth % 4)
}

/// Puts `piece` after the text, so many times.
#[inline(always)]
pub fn push_repeated<W: Output>(text: &mut W, piece: &str, count: usize) -> Result<(), AllocError>
    ensures { OnOk result (W.bytes text.new ≡ W.bytes text.old ++ repeat count piece.now) }
{
    for _done in 0..count {
        text.put(piece)?;
    }
    Ok(())
}

/// Puts the word of a heading after the text: at once for the levels that most headings have.
#[inline(always)]
fn push_heading<W: Output>(text: &mut W, level: u8) -> Result<(), AllocError>
    ensures { OnOk result
        (W.bytes text.new ≡ W.bytes text.old ++ (codes "heading " ++ Rattle.std.specs.Fmt.decimal level)) }
{
    match level {
        1 => text.put("heading 1"),
        2 => text.put("heading 2"),
        3 => text.put("heading 3"),
        _ => push_counted(text, "heading ", level as usize),
    }
}

/// Puts a word after the text, as `heading 1`: of a line that has a text, all that is before that, as `info | `.
pub fn push_head<W: Output>(text: &mut W, word: Word) -> Result<(), AllocError>
    ensures { OnOk result (W.bytes text.new ≡ W.bytes text.old ++ head word) }
{
    match word {
        Word::Frontmatter(marker) => push_marked(text, "frontmatter ", marker),
        Word::Heading(level) => push_heading(text, level),
        Word::Break => text.put("break"),
        Word::Code => text.put("code"),
        Word::Fence { marker, closed } => {
            push_marked(text, "fence ", marker)?;
            push_open(text, closed)
        }
        Word::Math { closed } => {
            text.put("math")?;
            push_open(text, closed)
        }
        Word::Html => text.put("html"),
        Word::Definition => text.put("definition"),
        Word::Paragraph => text.put("paragraph"),
        Word::Table(columns) => push_counted(text, "table ", columns),
        Word::Row => text.put("row"),
        Word::Quote => text.put("quote"),
        Word::Alert(kind) => text.put(alert_name(kind)),
        Word::List(marker) => push_marked(text, "list ", marker),
        Word::Item => text.put("item"),
        Word::Footnote => text.put("footnote"),
        Word::Line => text.put("| "),
        Word::Info => text.put("info | "),
        Word::Meta => text.put("meta | "),
        Word::Label => text.put("label | "),
        Word::Destination => text.put("destination | "),
        Word::Title => text.put("title | "),
        Word::Delimiter => text.put("delimiter | "),
        Word::Cell => text.put("cell | "),
    }
}

fn alert_name(kind: AlertKind) -> &'static str
    ensures { result.now ≡ alert_head kind }
{
    match kind {
        AlertKind::Note => "alert note",
        AlertKind::Tip => "alert tip",
        AlertKind::Important => "alert important",
        AlertKind::Warning => "alert warning",
        AlertKind::Caution => "alert caution",
    }
}

fn push_marked<W: Output>(text: &mut W, name: &str, marker: u8) -> Result<(), AllocError>
    ensures { OnOk result (W.bytes text.new ≡ W.bytes text.old ++ (name.now ++ encode_utf8 marker)) }
{
    text.put(name)?;
    text.put_char(char::from(marker))
}

/// Puts `name` after the text, and then a number.
pub fn push_counted<W: Output>(text: &mut W, name: &str, count: usize) -> Result<(), AllocError>
    ensures { OnOk result
        (W.bytes text.new ≡ W.bytes text.old ++ (name.now ++ Rattle.std.specs.Fmt.decimal count)) }
{
    text.put(name)?;
    text.put_number(count)
}

fn push_open<W: Output>(text: &mut W, closed: bool) -> Result<(), AllocError>
    ensures { OnOk result (W.bytes text.new ≡ W.bytes text.old ++ open_mark closed) }
{
    if closed {
        return Ok(());
    }
    text.put(" open")
}

#[tactic(auto, unfolding(crate::specs::Printed::printed_labels))]
fn push_labels<W: Output>(text: &mut W, name: &str, labels: &[String]) -> Result<(), AllocError>
    ensures { OnOk result
        (W.bytes text.new ≡ W.bytes text.old ++ printed_labels name.now (map string_bytes labels.now)) }
{
    push_counted(text, name, labels.len())?;
    text.put("\n")?;
    for label in labels {
        text.put("= ")?;
        text.put(label.as_str())?;
        text.put("\n")?;
    }
    Ok(())
}
