// Link reference definitions (CommonMark 4.7).
ghost use Rattle.std.specs.Prelude.{◌≡◌, ℕ, ◌+◌, ◌<◌, ◌&&◌, not, false, List, length, drop, nat_le, sum_by};
ghost use Rattle.std.specs.Prelude.{option_map, IfOk};
ghost use Rattle.std.specs.Borrow.{Bor};
ghost use Rattle.std.specs.List.{list_all};
ghost use Rattle.md_meaning.specs.Definition as definition;
ghost use Rattle.md_meaning.specs.Enclosed as text;
ghost use Rattle.md_meaning.specs.Rest.{is_blank};
ghost use Rattle.reference_tree.specs.Definitions as m;
ghost use Rattle.md_scan.specs.Definitions as scan;

use md_engine::message::Message;
use md_scan::ahead::{after_optional, begins_with};
use md_scan::bytes::{is_blank, is_parted, trim_start};
use md_scan::definition::{Destination, Enclosed, destination_at, title_closer, up_to_mark};
use md_scan::memory;
use std::alloc::Global;

/// A definition. Texts are as written, without their marks.
#[derive(Drop)]
pub struct Defined<'a> {
    pub label: Vec<&'a [u8]>,
    pub destination: &'a [u8],
    pub title: Option<Vec<&'a [u8]>>,
}

/// The definitions at the front of a paragraph, and the lines that remain.
#[derive(Drop)]
pub struct Cut<'a> {
    pub definitions: Vec<Defined<'a>>,
    pub remaining: Vec<&'a [u8]>,
}

/// What is still to come: the rest of a line, and the index of the line after it.
#[derive(Clone, Copy)]
struct Ahead<'a> {
    rest: &'a [u8],
    next: usize,
}

/// A text over lines, and what is still to come after its closing mark.
#[derive(Drop)]
struct Text<'a> {
    lines: Vec<&'a [u8]>,
    ahead: Ahead<'a>,
}

/// A title, and the index of the line after it.
#[derive(Drop)]
struct Title<'a> {
    lines: Vec<&'a [u8]>,
    next: usize,
}

/// A definition, and the index of the line after it.
#[derive(Drop)]
struct Found<'a> {
    defined: Defined<'a>,
    next: usize,
}

/// The text up to the closing mark, over as many lines as it takes.
fn enclosed_lines<'a>(
    alloc: Global,
    opener: u8,
    closer: u8,
    lines: &[&'a [u8]],
    ahead: Ahead<'a>,
) -> Result<Option<Text<'a>>, Message>
    ensures { IfOk result
        (λ found.
        option_map (m.text_meaning lines.now) found ≡
        text.enclosed_lines opener closer (m.ahead_meaning lines.now ahead.entry)) }
{
    let mut text = Vec::new(alloc);
    let mut rest = ahead.rest;
    let mut next = ahead.next;
    'lines: loop {
        match up_to_mark(opener, closer, rest) {
            Enclosed::Broken => return Ok(None),
            Enclosed::Closed(last, after) => {
                memory::push(&mut text, last)?;
                return Ok(Some(Text {
                    lines: text,
                    ahead: Ahead { rest: after, next },
                }));
            }
            Enclosed::Open => memory::push(&mut text, rest)?,
        }
        if next >= lines.len() {
            return Ok(None);
        }
        rest = lines[next];
        next += 1;
    }
}

/// Whether these lines have at most 999 bytes.
fn is_short(lines: &[&[u8]]) -> bool
    ensures { result ≡ nat_le (sum_by length (scan.texts lines.now)) 999 }
{
    let mut left = 999;
    for line in lines {
        if line.len() > left {
            return false;
        }
        left -= line.len();
    }
    true
}

/// Whether all these lines are blank.
fn are_blank(lines: &[&[u8]]) -> bool
    ensures { result ≡ list_all (λ line. is_blank line.now) lines.now }
{
    lines.iter().all(|line| is_blank(line))
}

/// Whether these lines are a label: not blank, and not too long.
#[tactic(auto, using(crate::proofs::DefinitionLemmas::list_all_texts))]
fn is_label(lines: &[&[u8]]) -> bool
    ensures { result ≡ definition.is_label (scan.texts lines.now) }
{
    !are_blank(lines) && is_short(lines)
}

/// The label whose `[` comes first, and what follows its `]` (CommonMark 6.3).
#[tactic(auto, unfolding(md_meaning::specs::Definition::label_at))]
fn label_at<'a>(
    alloc: Global,
    lines: &[&'a [u8]],
    ahead: Ahead<'a>,
) -> Result<Option<Text<'a>>, Message>
    ensures { IfOk result
        (λ found.
        option_map (m.text_meaning lines.now) found ≡ definition.label_at (m.ahead_meaning lines.now ahead.entry)) }
{
    if !begins_with(b'[', ahead.rest) {
        return Ok(None);
    }
    let rest = after_optional(b'[', ahead.rest);
    let Some(label) = enclosed_lines(
        alloc,
        b'[',
        b']',
        lines,
        Ahead {
            rest,
            next: ahead.next,
        },
    )?
    else {
        return Ok(None);
    };
    if is_label(&label.lines) {
        Ok(Some(label))
    } else {
        Ok(None)
    }
}

/// What follows the `:` that comes first.
fn after_colon<'a>(ahead: Ahead<'a>) -> Option<Ahead<'a>>
    ensures { (lines : List (Bor (List ℕ))) →
        option_map (m.ahead_meaning lines) result ≡ definition.after_colon (m.ahead_meaning lines ahead.entry) }
{
    if begins_with(b':', ahead.rest) {
        Some(Ahead {
            rest: after_optional(b':', ahead.rest),
            next: ahead.next,
        })
    } else {
        None
    }
}

/// What follows spaces and tabs with at most one line ending, unless all lines end there.
fn after_gap<'a>(lines: &[&'a [u8]], ahead: Ahead<'a>) -> Option<Ahead<'a>>
    ensures { m.gap_meaning lines.now result ≡ definition.after_gap (m.ahead_meaning lines.now ahead.entry) }
{
    if !is_blank(ahead.rest) {
        return Some(Ahead {
            rest: trim_start(ahead.rest),
            next: ahead.next,
        });
    }
    if ahead.next >= lines.len() {
        return None;
    }
    Some(Ahead {
        rest: lines[ahead.next],
        next: ahead.next + 1,
    })
}

/// The title that comes first, and the lines after it (CommonMark 6.3).
#[tactic(auto, unfolding(md_meaning::specs::Definition::title_at))]
fn title_at<'a>(
    alloc: Global,
    lines: &[&'a [u8]],
    ahead: Ahead<'a>,
) -> Result<Option<Title<'a>>, Message>
    ensures { IfOk result
        (λ found.
        option_map (m.title_meaning lines.now) found ≡ definition.title_at (m.ahead_meaning lines.now ahead.entry)) }
{
    let Some((opener, rest)) = ahead.rest.split_first() else {
        return Ok(None);
    };
    let Some(closer) = title_closer(*opener) else {
        return Ok(None);
    };
    let Some(text) = enclosed_lines(
        alloc,
        *opener,
        closer,
        lines,
        Ahead {
            rest,
            next: ahead.next,
        },
    )?
    else {
        return Ok(None);
    };
    if !is_blank(text.ahead.rest) {
        return Ok(None);
    }
    Ok(Some(Title {
        lines: text.lines,
        next: text.ahead.next,
    }))
}

/// The title after a destination, after whitespace with at most one line ending.
#[tactic(auto, unfolding(md_meaning::specs::Definition::title_at))]
fn title_after<'a>(
    alloc: Global,
    lines: &[&'a [u8]],
    ahead: Ahead<'a>,
) -> Result<Option<Title<'a>>, Message>
    ensures { IfOk result
        (λ found.
        option_map (m.title_meaning lines.now) found ≡
        definition.title_after ahead.entry.rest.now (scan.texts (drop ahead.entry.next lines.now))) }
{
    if !is_parted(ahead.rest) {
        return Ok(None);
    }
    match after_gap(lines, ahead) {
        Some(title) => title_at(alloc, lines, title),
        None => Ok(None),
    }
}

/// The definition with this label, whose destination comes first. Without a title it ends with the line of the
/// destination.
fn with_destination<'a>(
    alloc: Global,
    lines: &[&'a [u8]],
    label: Vec<&'a [u8]>,
    ahead: Ahead<'a>,
) -> Result<Option<Found<'a>>, Message>
    ensures { IfOk result
        (λ found.
        option_map (m.found_meaning lines.now) found ≡
        definition.with_destination (scan.texts label.entry.items) (m.ahead_meaning lines.now ahead.entry)) }
{
    let Some(destination) = destination_at(ahead.rest) else {
        return Ok(None);
    };
    let Destination { text, rest } = destination;
    match title_after(
        alloc,
        lines,
        Ahead {
            rest,
            next: ahead.next,
        },
    )? {
        Some(title) => {
            let defined = Defined {
                label,
                destination: text,
                title: Some(title.lines),
            };
            Ok(Some(Found {
                defined,
                next: title.next,
            }))
        }
        None if is_blank(rest) => {
            let defined = Defined {
                label,
                destination: text,
                title: None,
            };
            Ok(Some(Found {
                defined,
                next: ahead.next,
            }))
        }
        None => Ok(None),
    }
}

/// The definition that begins with this line.
#[tactic(auto, unfolding(md_meaning::specs::Definition::definition_at))]
fn definition_at<'a>(
    alloc: Global,
    lines: &[&'a [u8]],
    next: usize,
) -> Result<Option<Found<'a>>, Message>
    ensures { IfOk result
        (λ found.
        option_map (m.found_meaning lines.now) found ≡ definition.definition_at (scan.texts (drop next lines.now))) }
{
    if next >= lines.len() {
        return Ok(None);
    }
    let Some(label) = label_at(
        alloc,
        lines,
        Ahead {
            rest: lines[next],
            next: next + 1,
        },
    )?
    else {
        return Ok(None);
    };
    let Some(gap) = after_colon(label.ahead) else {
        return Ok(None);
    };
    match after_gap(lines, gap) {
        Some(destination) => with_destination(alloc, lines, label.lines, destination),
        None => Ok(None),
    }
}

/// The definitions at the front of a paragraph, and the lines that remain. The lines are given without leading spaces
/// and tabs.
pub fn cut_definitions<'a>(alloc: Global, lines: &[&'a [u8]]) -> Result<Cut<'a>, Message>
    ensures { IfOk result (λ cut. m.cut_meaning cut ≡ definition.cut_definitions (scan.texts lines.now)) }
{
    let mut definitions = Vec::new(alloc);
    let mut next = 0;
    while let Some(found) = definition_at(alloc, lines, next)? {
        memory::push(&mut definitions, found.defined)?;
        next = found.next;
    }
    let mut remaining = Vec::new(alloc);
    while next < lines.len() {
        memory::push(&mut remaining, lines[next])?;
        next += 1;
    }
    Ok(Cut {
        definitions,
        remaining,
    })
}
