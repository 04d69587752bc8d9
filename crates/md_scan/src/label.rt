// The normal forms of labels (CommonMark 6.3).
ghost use Rattle.std.specs.Prelude.{◌≡◌, ◌≤◌, not, [], chars, encode_utf8_all, length, string_bytes, IfOk, OnOk};
ghost use Rattle.std.specs.List.{prefix_len};
ghost use Rattle.std.specs.Str.{IsUtf8};
ghost use Rattle.caseless.specs.Caseless.{default_case_fold};
ghost use Rattle.md_meaning.specs.Label as label;
ghost use Rattle.md_meaning.specs.Rest.{is_white};
ghost use Rattle.md_scan.specs.Definitions.{texts};
ghost use Rattle.md_scan.specs.Words as words;

use crate::bytes::is_white;
use crate::memory;
use caseless::default_case_fold_str;
use md_engine::message::Message;
use std::alloc::Global;

/// How many bytes come first that are neither spaces nor tabs.
fn word_len(rest: &[u8]) -> usize
    ensures value { result ≡ prefix_len (λ b. not (is_white b)) rest.now }
    ensures bound { result ≤ length rest.now }
{
    rest.iter().take_while(|b| !is_white(**b)).count()
}

/// Adds a word, after a space unless it is the first. After an `Err` the text is cut off.
fn push_word(text: &mut Vec<u8>, word: &[u8]) -> Result<(), Message>
    ensures { OnOk result (text.new.items ≡ words.with_word text.old.items word.now) }
{
    if !text.is_empty() {
        memory::push(text, b' ')?;
    }
    match text.extend_from_slice(word) {
        Ok(()) => Ok(()),
        Err(_) => Err(Message),
    }
}

/// Adds the words of a line. After an `Err` the text is cut off.
fn push_words(text: &mut Vec<u8>, line: &[u8]) -> Result<(), Message>
    ensures words { OnOk result (text.new.items ≡ words.with_words text.old.items (label.words line.now)) }
    ensures utf8 { OnOk result (IsUtf8 text.old.items → IsUtf8 line.now → IsUtf8 text.new.items) }
{
    let mut rest = line;
    while let Some((first, others)) = rest.split_first() {
        if is_white(*first) {
            rest = others;
        } else {
            let (word, following) = rest.split_at(word_len(rest));
            push_word(text, word)?;
            rest = following;
        }
    }
    Ok(())
}

/// An empty text with room for so many bytes: a label on one line has no more in its normal form but where case folding
/// makes it longer.
fn with_room(alloc: Global, room: usize) -> Result<Vec<u8>, Message>
    ensures { IfOk result (λ text. text.items ≡ []) }
{
    match Vec::with_capacity(alloc, room) {
        Ok(text) => Ok(text),
        Err(_) => Err(Message),
    }
}

/// The lines as one, with a single space for each run of spaces, tabs and endings, and none at the ends.
fn spaced(alloc: Global, lines: &[&[u8]]) -> Result<Vec<u8>, Message>
    ensures { IfOk result (λ text. text.items ≡ label.spaced (texts lines.now)) }
{
    let room = match lines {
        [first, ..] => first.len(),
        [] => 0,
    };
    let mut text = with_room(alloc, room)?;
    for line in lines {
        push_words(&mut text, line)?;
    }
    Ok(text)
}

/// The same of lines that are UTF-8, and so is the text.
fn spaced_text(alloc: Global, lines: &[&str]) -> Result<Vec<u8>, Message>
    ensures words { IfOk result (λ text. text.items ≡ label.spaced (texts lines.now)) }
    ensures utf8 { IfOk result (λ text. IsUtf8 text.items) }
{
    let room = match lines {
        [first, ..] => first.len(),
        [] => 0,
    };
    let mut text = with_room(alloc, room)?;
    for line in lines {
        push_words(&mut text, line.as_bytes())?;
    }
    Ok(text)
}

/// A text with Unicode full case folding, which of ASCII is that to lower case.
///
/// An `Err` says that memory ran out.
fn fold(alloc: Global, text: &str) -> Result<String, Message>
    ensures { IfOk result
        (λ form. string_bytes form ≡ encode_utf8_all (default_case_fold (chars text.now))) }
{
    if text.is_ascii() {
        return match text.to_ascii_lowercase(alloc) {
            Ok(form) => Ok(form),
            Err(_) => Err(Message),
        };
    }
    match default_case_fold_str(alloc, text) {
        Ok(form) => Ok(form),
        Err(_) => Err(Message),
    }
}

/// The normal form of a label (CommonMark 6.3), given its lines without the prefixes of containers: one space for each
/// run of spaces, tabs and line endings, none at the ends, and Unicode full case folding. An `Err` says that memory ran
/// out.
#[tactic(auto, unfolding(md_meaning::specs::Label::normal_form))]
pub fn normal_form(alloc: Global, lines: &[&str]) -> Result<String, Message>
    ensures { IfOk result (λ form. string_bytes form ≡ label.normal_form (texts lines.now)) }
{
    let bytes = spaced_text(alloc, lines)?;
    fold(alloc, str::from_utf8(&bytes).unwrap())
}

/// The same, given the bytes of the lines. Of bytes that are no UTF-8, which no label of a text has, it says that memory
/// ran out.
#[tactic(auto, unfolding(md_meaning::specs::Label::normal_form))]
pub fn form_of_bytes(alloc: Global, lines: &[&[u8]]) -> Result<String, Message>
    ensures { IfOk result (λ form. string_bytes form ≡ label.normal_form (texts lines.now)) }
{
    let bytes = spaced(alloc, lines)?;
    let Ok(text) = str::from_utf8(&bytes) else {
        return Err(Message);
    };
    fold(alloc, text)
}
