// A row, read.

use crate::constructs::{both, named};
use md_engine::configuration::Constructs;
use std::alloc::{AllocError, Global};

/// A text and what it must give.
#[derive(Drop)]
pub struct Case<'a> {
    /// Where the standard says it.
    pub section: &'a str,
    /// The constructs that are on.
    pub constructs: Constructs,
    /// Those of them that the row is about: with any of the others off it gives the same.
    pub needed: Constructs,
    pub text: String,
    /// The whole output of the program, with the labels.
    pub output: String,
}

/// Why a row can't be read.
#[derive(Clone, Copy)]
pub enum CaseError {
    /// Memory ran out.
    Memory,
    /// It is not written as a row.
    Form,
}

impl From<AllocError> for CaseError {
    fn from(_error: AllocError) -> Self {
        CaseError::Memory
    }
}

/// The first line of a row in its parts, and the lines after it.
#[derive(Clone, Copy)]
pub(crate) struct Head<'a> {
    pub(crate) section: &'a str,
    pub(crate) set: &'a str,
    /// What is written after the set; nothing if it is left out.
    pub(crate) about: &'a str,
    pub(crate) lines: &'a str,
}

impl<'a> Head<'a> {
    /// Reads it of a row.
    pub(crate) fn read(row: &'a str) -> Option<Head<'a>> {
        let (head, lines) = row.split_once('\n')?;
        let (section, sets) = head.split_once(" | ")?;
        let (set, about) = sets.split_once(" | ").unwrap_or((sets, ""));
        Some(Head {
            section,
            set,
            about,
            lines,
        })
    }
}

/// The constructs of a set that a row is about.
fn needed_of(about: &str, constructs: &Constructs) -> Option<Constructs> {
    match about {
        "" => Some(*constructs),
        "nothing" => Some(Constructs::NONE),
        names => named(names),
    }
}

impl<'a> Case<'a> {
    /// Reads one row, without the empty line after it.
    pub fn read(alloc: Global, row: &'a str) -> Result<Case<'a>, CaseError> {
        let head = Head::read(row).ok_or(CaseError::Form)?;
        let constructs = constructs_of(head.set).ok_or(CaseError::Form)?;
        let needed = needed_of(head.about, &constructs).ok_or(CaseError::Form)?;
        let (text, outline) = head.lines.split_once('\n').unwrap_or((head.lines, ""));
        Ok(Case {
            section: head.section,
            constructs,
            needed,
            text: unquoted(alloc, text)?,
            output: output_of(alloc, outline)?,
        })
    }

    /// Whether the row holds of a parser that has these constructs alone.
    pub fn holds_with(&self, built: &Constructs) -> bool {
        both(&self.needed, built) == self.needed
    }
}

/// The constructs that a row's set names.
pub(crate) fn constructs_of(set: &str) -> Option<Constructs> {
    match set {
        "commonmark" => Some(Constructs::COMMONMARK),
        "gfm" => Some(Constructs::GFM),
        "all" => Some(Constructs::ALL),
        "alerts" => Some(Constructs::ALERTS),
        _ => named(set.strip_prefix("exactly")?),
    }
}

/// The output that a row's outline represents: an empty line goes before the labels, and where they are left out there
/// are none.
fn output_of(alloc: Global, outline: &str) -> Result<String, AllocError> {
    let (blocks, labels) = outline
        .split_once("definitions ")
        .unwrap_or((outline, "0\nfootnotes 0"));
    let blocks = blocks.trim_end_matches('\n');
    let end = if blocks.is_empty() { "" } else { "\n" };
    let written = format!(in alloc;
        "{}{}\ndefinitions {}\n",
        blocks,
        end,
        labels.trim_end_matches('\n')
    )?;
    unescaped(alloc, written.as_str())
}

/// The text that is written between quotes, with the escapes of Rust's strings.
pub fn unquoted(alloc: Global, written: &str) -> Result<String, CaseError> {
    let begun = written.strip_prefix('"').ok_or(CaseError::Form)?;
    let inner = begun.strip_suffix('"').ok_or(CaseError::Form)?;
    Ok(unescaped(alloc, inner)?)
}

/// Where the reading of an escape is.
#[derive(Clone, Copy)]
enum Escape {
    /// In no escape.
    Outside,
    /// After the backslash.
    Begun,
    /// Inside `\u{..}`, with the number read so far.
    Number(u32),
}

/// What a character is for the text, and where the reading of an escape is after it.
fn taken(escape: Escape, c: char) -> (Option<char>, Escape) {
    match escape {
        Escape::Outside if c == '\\' => (None, Escape::Begun),
        Escape::Outside => (Some(c), Escape::Outside),
        Escape::Begun if c == 'u' => (None, Escape::Number(0)),
        Escape::Begun => (Some(named_character(c)), Escape::Outside),
        Escape::Number(_) if c == '{' => (None, Escape::Number(0)),
        Escape::Number(number) if c == '}' => {
            let named = char::from_u32(number).unwrap_or(char::REPLACEMENT_CHARACTER);
            (Some(named), Escape::Outside)
        }
        Escape::Number(number) => {
            let digit = c.to_digit(16).unwrap_or(0);
            let further = number.wrapping_mul(16).wrapping_add(digit);
            (None, Escape::Number(further))
        }
    }
}

/// The text that is written with the escapes of Rust's strings.
pub(crate) fn unescaped(alloc: Global, written: &str) -> Result<String, AllocError> {
    let mut text = String::new(alloc);
    let mut escape = Escape::Outside;
    for c in written.chars() {
        let (named, after) = taken(escape, c);
        escape = after;
        if let Some(named) = named {
            text.push(named)?;
        }
    }
    Ok(text)
}

/// What a letter after a backslash represents.
fn named_character(letter: char) -> char {
    match letter {
        'n' => '\n',
        'r' => '\r',
        't' => '\t',
        '0' => '\0',
        other => other,
    }
}
