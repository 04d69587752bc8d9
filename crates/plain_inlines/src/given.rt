// What the program is given: a text, and what it is in.

ghost use Rattle.std.specs.Prelude.{◌≡◌, ◌++◌, IfOk, OnOk, map, string_bytes};
ghost use Rattle.md_scan.specs.Definitions.{texts};
ghost use Rattle.plain_inlines.specs.Given as spec;

use md_engine::configuration::{Constructs, ParseOptions};
use md_engine::message::Message;
use md_inlines::{InlineConstructs, InlineOptions};
use md_scan::ahead::begins_with;
use md_scan::label::form_of_bytes;
use md_scan::memory::push;
use reference_inlines::slices::{after, front};
use std::alloc::Global;

/// Whether the text ends here: before an empty line or the end, with a line ending before that.
fn ends_here(input: &[u8]) -> bool
    ensures { result ≡ spec.ends_here input.now }
{
    match input {
        [b'\n', rest @ ..] => rest.is_empty() || begins_with(b'\n', rest),
        _ => false,
    }
}

/// The input from where its text ends.
#[tactic(auto, using(crate::proofs::GivenLemmas::left_end, crate::proofs::GivenLemmas::left_more))]
fn left(input: &[u8]) -> &[u8]
    ensures { result.now ≡ spec.left input.now }
{
    let mut rest = input;
    while let Some((_first, more)) = rest.split_first() {
        if ends_here(rest) {
            return rest;
        }
        rest = more;
    }
    rest
}

/// The text, up to the first empty line.
pub(crate) fn text_in(input: &[u8]) -> &[u8]
    ensures { result.now ≡ spec.text_in input.now }
{
    front(input, input.len().saturating_sub(left(input).len()))
}

/// What follows the first empty line.
pub(crate) fn further_in(input: &[u8]) -> &[u8]
    ensures { result.now ≡ spec.further_in input.now }
{
    after(left(input), 2)
}

/// Whether one of these lines begins with this byte.
pub(crate) fn is_marked(mark: u8, lines: &[&[u8]]) -> bool
    ensures { result ≡ spec.is_marked mark (texts lines.now) }
{
    for line in lines {
        if begins_with(mark, line) {
            return true;
        }
    }
    false
}

/// Adds the normal form of the label in a line, if the line begins with this byte.
///
/// An `Err` says that memory ran out.
fn push_label(alloc: Global, labels: &mut Vec<String>, mark: u8, line: &[u8]) -> Result<(), Message>
    ensures { OnOk result (map string_bytes labels.new.items ≡
        map string_bytes labels.old.items ++ spec.label_in mark line.now) }
{
    match line {
        [first, label @ ..] => {
            if *first == mark {
                let form = form_of_bytes(alloc, &[label])?;
                push(labels, form)
            } else {
                Ok(())
            }
        }
        [] => Ok(()),
    }
}

/// The normal forms of the labels in the lines that begin with this byte.
///
/// An `Err` says that memory ran out.
pub(crate) fn labels_of(alloc: Global, mark: u8, lines: &[&[u8]]) -> Result<Vec<String>, Message>
    ensures { IfOk result
        (λ made. map string_bytes made.items ≡ spec.labels_in mark (texts lines.now)) }
{
    let mut made = Vec::new(alloc);
    for line in lines {
        push_label(alloc, &mut made, mark, line)?;
    }
    Ok(made)
}

/// The inline constructs that belong to constructs of blocks.
fn inline_constructs(on: Constructs) -> InlineConstructs
    ensures { result ≡ spec.inline_constructs on }
{
    InlineConstructs {
        gfm_autolink_literal: on.gfm_table,
        gfm_footnote_call: on.gfm_footnote_definition,
        gfm_strikethrough: on.gfm_table,
        gfm_task_list_item: on.gfm_table,
        math_text: on.math_flow,
        ..InlineConstructs::COMMONMARK
    }
}

/// What the inline content is asked for.
pub(crate) fn inline_options(options: ParseOptions, lines: &[&[u8]]) -> InlineOptions
    ensures { result ≡ spec.inline_options options (texts lines.now) }
{
    InlineOptions {
        constructs: inline_constructs(options.constructs),
        gfm_strikethrough_single_tilde: !is_marked(b'~', lines),
        math_text_single_dollar: !is_marked(b'$', lines),
    }
}
