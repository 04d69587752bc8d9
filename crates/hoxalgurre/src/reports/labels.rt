// What is wrong with the labels of a text.
//
// A definition whose label one before it has is a duplicate, and is never used (CommonMark 6.3). A reference that no
// definition, or no footnote definition, answers is text. A definition that no reference names shows nothing.

use crate::reports::position::{Columns, Place, Position};
use crate::reports::references::{Form, Reference, references};
use markdown_blocks::event::{Event, Kind, Name};
use markdown_blocks::label::normal_form;
use markdown_blocks::message::Message;
use markdown_blocks::parser::ParseState;
use serde::Serialize;
use std::alloc::{AllocError, Global};
use std::collections::{BTreeMap, BTreeSet};

/// Something that is wrong.
#[derive(Drop, Serialize)]
pub(crate) struct Finding {
    /// What is wrong, as `duplicate definition`.
    problem: &'static str,
    /// The label in its normal form, of a footnote without the `^`.
    label: String,
    /// Of a duplicate, the line of the first definition.
    first_line: Option<usize>,
    /// The label with its brackets.
    position: Position,
}

/// How findings of definitions, or of footnotes, are named.
#[derive(Clone, Copy)]
struct Names {
    is_footnote: bool,
    duplicate: &'static str,
    undefined: &'static str,
    unused: &'static str,
}

const DEFINITIONS: Names = Names {
    is_footnote: false,
    duplicate: "duplicate definition",
    undefined: "undefined reference",
    unused: "unused definition",
};

const FOOTNOTES: Names = Names {
    is_footnote: true,
    duplicate: "duplicate footnote",
    undefined: "undefined footnote",
    unused: "unused footnote",
};

/// Definitions of links or of footnotes, in the order of the text.
#[derive(Drop)]
struct Defined<'a> {
    /// Where their labels are.
    positions: Vec<Position>,
    /// These in their normal forms.
    labels: &'a [String],
}

/// Which references are findings.
#[derive(Drop)]
pub(crate) struct Wanted {
    has_shortcuts: bool,
    /// The normal forms of labels that may be undefined, of footnotes with the `^`.
    ignored: BTreeSet<String>,
}

impl Wanted {
    /// Findings but for references with these labels. An `Err` says that memory ran out.
    pub(crate) fn new(
        alloc: Global,
        has_shortcuts: bool,
        ignored: &[&str],
    ) -> Result<Wanted, Message> {
        let mut forms = BTreeSet::new(alloc);
        for label in ignored {
            insert(&mut forms, normal_form(alloc, &[*label])?)?;
        }
        Ok(Wanted {
            has_shortcuts,
            ignored: forms,
        })
    }

    /// Whether a reference that nothing defines is a finding.
    fn wants(&self, alloc: Global, reference: &Reference) -> Result<bool, AllocError> {
        if reference.form == Form::Shortcut && !self.has_shortcuts {
            return Ok(false);
        }
        if reference.form != Form::Footnote {
            return Ok(!self.ignored.contains(reference.label.as_str()));
        }
        let mut called = String::from_str(alloc, "^")?;
        called.push_str(reference.label.as_str())?;
        Ok(!self.ignored.contains(called.as_str()))
    }
}

fn insert(forms: &mut BTreeSet<String>, form: String) -> Result<(), Message> {
    match forms.insert(form) {
        Ok(_) => Ok(()),
        Err(_) => Err(Message),
    }
}

/// All that is wrong with the labels of a text, in its order. An `Err` says that memory ran out.
pub(crate) fn findings(
    alloc: Global,
    events: &[Event],
    state: &ParseState<'_>,
    wanted: &Wanted,
) -> Result<Vec<Finding>, Message> {
    let has_footnotes = state.options.constructs.gfm_footnote_definition;
    let references = references(alloc, events, state.bytes, has_footnotes)?;
    let links = Defined {
        positions: positions(alloc, events, Name::DefinitionLabel)?,
        labels: &state.definitions,
    };
    let notes = Defined {
        positions: positions(alloc, events, Name::GfmFootnoteDefinitionLabel)?,
        labels: &state.gfm_footnote_definitions,
    };
    let mut found = Vec::new(alloc);
    check(alloc, &mut found, &DEFINITIONS, &links, &references, wanted)?;
    check(alloc, &mut found, &FOOTNOTES, &notes, &references, wanted)?;
    found.sort_by_key(|finding| finding.position.start.offset)?;
    Ok(found)
}

/// Sets the columns of findings.
pub(crate) fn set_finding_columns(columns: &Columns, findings: &mut [Finding]) {
    for finding in findings.iter_mut() {
        columns.set_both(&mut finding.position);
    }
}

/// Where the parts of this name are, in the order of the text.
fn positions(alloc: Global, events: &[Event], name: Name) -> Result<Vec<Position>, AllocError> {
    let mut positions = Vec::new(alloc);
    let mut start = Place::FIRST;
    for event in events.iter().filter(|event| event.name == name) {
        let here = Place::of(event.point);
        match event.kind {
            Kind::Enter => start = here,
            Kind::Exit => positions.push(Position { start, end: here })?,
        }
    }
    Ok(positions)
}

/// A definition that is the first with its label.
#[derive(Clone, Copy)]
struct First {
    position: Position,
    is_used: bool,
}

/// The first definition of each label. A further one is a finding.
fn firsts<'a>(
    alloc: Global,
    found: &mut Vec<Finding>,
    names: &Names,
    defined: &Defined<'a>,
) -> Result<BTreeMap<&'a str, First>, AllocError> {
    let mut firsts: BTreeMap<&'a str, First> = BTreeMap::new(alloc);
    for (position, label) in defined.positions.iter().zip(defined.labels.iter()) {
        match firsts.get(label.as_str()) {
            Some(first) => found.push(Finding {
                problem: names.duplicate,
                label: label.clone()?,
                first_line: Some(first.position.start.line),
                position: *position,
            })?,
            None => {
                let first = First {
                    position: *position,
                    is_used: false,
                };
                firsts.insert(label.as_str(), first)?;
            }
        }
    }
    Ok(firsts)
}

/// Appends what is wrong with these definitions and with the references to them.
fn check(
    alloc: Global,
    found: &mut Vec<Finding>,
    names: &Names,
    defined: &Defined<'_>,
    references: &[Reference],
    wanted: &Wanted,
) -> Result<(), AllocError> {
    let mut firsts = firsts(alloc, found, names, defined)?;
    for reference in references {
        if (reference.form == Form::Footnote) != names.is_footnote {
            continue;
        }
        match firsts.get_mut(reference.label.as_str()) {
            Some(first) => first.is_used = true,
            None => push_undefined(alloc, found, names, reference, wanted)?,
        }
    }
    for (label, first) in firsts.iter().filter(|(_, first)| !first.is_used) {
        found.push(Finding {
            problem: names.unused,
            label: String::from_str(alloc, label)?,
            first_line: None,
            position: first.position,
        })?;
    }
    Ok(())
}

/// Appends a reference that nothing defines, if it is a finding.
fn push_undefined(
    alloc: Global,
    found: &mut Vec<Finding>,
    names: &Names,
    reference: &Reference,
    wanted: &Wanted,
) -> Result<(), AllocError> {
    let Some(position) = reference.position else {
        return Ok(());
    };
    if !wanted.wants(alloc, reference)? {
        return Ok(());
    }
    found.push(Finding {
        problem: names.undefined,
        label: reference.label.clone()?,
        first_line: None,
        position,
    })?;
    Ok(())
}

/// Appends a line for each finding, as `a.md:3:1: undefined reference [b]`.
pub(crate) fn push_findings(
    text: &mut String,
    file: &str,
    findings: &[Finding],
) -> Result<(), AllocError> {
    for finding in findings {
        let start = finding.position.start;
        write!(
            text,
            "{file}:{}:{}: {} [{}]",
            start.line, start.column, finding.problem, finding.label
        )?;
        if let Some(line) = finding.first_line {
            write!(text, ", first in line {line}")?;
        }
        text.push_str("\n")?;
    }
    Ok(())
}
