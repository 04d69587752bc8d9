// Calls of footnotes, and the section that footnotes are in.
//
// Each call has an `id` that the footnote leads back to. The first one has that of the label, and further ones have the
// number of the call after it. Where that is a label too, as `a-2`, zeros are between, so that no `id` is there twice.

use crate::address::push_id;
use crate::known::Known;
use crate::notes::Call;
use crate::writer::Writer;

/// Whether a footnote has the label that is this text with a number after it.
fn is_label(known: &Known, out: &mut Writer, text: &str, number: usize) -> bool {
    let mut label = Writer::new(known.whole.alloc);
    label.push(text);
    label.push_number(number);
    out.refuse(label.is_refused());
    known.labels.footnote_definition(label.as_str()).is_some()
}

/// Writes the `id` of a call, but for what all have.
fn push_call_id(known: &Known, out: &mut Writer, form: &str, nth: usize) {
    if nth <= 1 {
        push_id(out, form.as_bytes());
        return;
    }
    let mut id = Writer::new(known.whole.alloc);
    id.push(form);
    id.push("-");
    for _ in 0..known.whole.forms.len() {
        if !is_label(known, out, id.as_str(), nth) {
            break;
        }
        id.push("0");
    }
    out.refuse(id.is_refused());
    push_id(out, id.bytes());
    out.push_number(nth);
}

/// The normal form of the label of a footnote.
fn form_of<'a>(known: &Known<'a, '_>, note: usize) -> &'a str {
    match known.whole.forms.get(note) {
        Some(form) => form.as_str(),
        None => "",
    }
}

fn push_prefix(known: &Known, out: &mut Writer) {
    out.push_escaped(known.whole.options.gfm_footnote_clobber_prefix.as_bytes());
}

/// Writes a call.
pub(crate) fn push_call(known: &Known, out: &mut Writer, call: Call) {
    let form = form_of(known, call.note);
    out.push("<sup><a href=\"#");
    push_prefix(known, out);
    out.push("fn-");
    push_id(out, form.as_bytes());
    out.push("\" id=\"");
    push_prefix(known, out);
    out.push("fnref-");
    push_call_id(known, out, form, call.nth);
    out.push("\" data-footnote-ref=\"\" aria-describedby=\"footnote-label\">");
    out.push_number(call.number);
    out.push("</a></sup>");
}

/// Writes the link back to a call.
fn push_back(known: &Known, out: &mut Writer, form: &str, nth: usize) {
    out.push("<a href=\"#");
    push_prefix(known, out);
    out.push("fnref-");
    push_call_id(known, out, form, nth);
    out.push("\" data-footnote-backref=\"\" aria-label=\"");
    out.push_escaped(known.whole.options.gfm_footnote_back_label.as_bytes());
    out.push("\" class=\"data-footnote-backref\">\u{21a9}");
    if nth > 1 {
        out.push("<sup>");
        out.push_number(nth);
        out.push("</sup>");
    }
    out.push("</a>");
}

/// Writes the links back to all calls of a footnote.
fn push_backs(known: &Known, out: &mut Writer, note: usize) {
    let form = form_of(known, note);
    let count = known.whole.notes.counts.get(note).copied().unwrap_or(0);
    for before in 0..count {
        if before > 0 {
            out.push(" ");
        }
        push_back(known, out, form, before.saturating_add(1));
    }
}

/// Writes a footnote, given what is in it. The links back are at the end of its last paragraph, if that is its last block.
pub(crate) fn push_note(known: &Known, out: &mut Writer, note: usize, body: &[u8]) {
    out.push("<li id=\"");
    push_prefix(known, out);
    out.push("fn-");
    push_id(out, form_of(known, note).as_bytes());
    out.push("\">");
    out.push(known.whole.ending);
    let text = body
        .strip_suffix(known.whole.ending.as_bytes())
        .unwrap_or(body);
    match text.strip_suffix(b"</p>") {
        Some(before) => {
            out.push_bytes(before);
            out.push(" ");
            push_backs(known, out, note);
            out.push("</p>");
        }
        None => {
            out.push_bytes(body);
            push_backs(known, out, note);
        }
    }
    out.push(known.whole.ending);
    out.push("</li>");
    out.push(known.whole.ending);
}

/// Begins the section of footnotes.
pub(crate) fn begin_section(known: &Known, out: &mut Writer) {
    let tag = known.whole.options.gfm_footnote_label_tag_name.as_bytes();
    let attributes = known.whole.options.gfm_footnote_label_attributes;
    out.push("<section data-footnotes=\"\" class=\"footnotes\"><");
    out.push_escaped(tag);
    out.push(" id=\"footnote-label\"");
    if !attributes.is_empty() {
        out.push(" ");
        out.push(attributes);
    }
    out.push(">");
    out.push_escaped(known.whole.options.gfm_footnote_label.as_bytes());
    out.push("</");
    out.push_escaped(tag);
    out.push(">");
    out.push(known.whole.ending);
    out.push("<ol>");
    out.push(known.whole.ending);
}

pub(crate) fn end_section(known: &Known, out: &mut Writer) {
    out.push("</ol>");
    out.push(known.whole.ending);
    out.push("</section>");
    out.push(known.whole.ending);
}
