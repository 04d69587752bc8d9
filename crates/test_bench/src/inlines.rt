// The reader of inline content against the plain definition: on all short texts of three alphabets, and on random texts
// of their letters and of fragments. What a task is, by its arguments:
//
//     letters MOST         all texts of at most so many letters, with all constructs
//     random SEED COUNT    so many random texts, in turn with all constructs and with any set of them, every third as
//                          that of the first paragraph of an item
//
// `a` is the label of a definition, and `b` that of a footnote.

use markdown_inlines::content::content_tokens;
use md_engine::event::Name;
use md_engine::message::Message;
use md_events::labels::Labels;
use md_inline_events::token::Token;
use md_inlines::{InlineConstructs, InlineOptions};
use md_scan::memory::push;
use rand_core::utils::NextWord;
use rand_pcg::Pcg32;
use reference_inlines::content::content;
use reference_inlines::labels::Defined;
use reference_inlines::node::Node;
use std::alloc::{AllocError, Global};
use test_rows::case::CaseError;
use test_rows::runner::report::Report;
use test_rows::runner::texts::{numbered, random};

/// Marks of emphasis and strikethrough, and what they are beside: a letter, whitespace, punctuation.
const MARKS: [&str; 6] = ["*", "_", "~", "a", " ", "."];

/// Brackets, and what is in them.
const BRACKETS: [&str; 6] = ["[", "]", "(", ")", "!", "a"];

/// Letters of code, autolinks, HTML, character references, escapes and lines.
const ATOMS: [&str; 8] = ["`", "<", ">", "&", ";", "\\", "\n", "a"];

/// These letters, and fragments of all constructs.
const FRAGMENTS: [&str; 64] = [
    "*",
    "_",
    "~",
    "a",
    " ",
    ".",
    "[",
    "]",
    "(",
    ")",
    "!",
    "`",
    "<",
    ">",
    "&",
    ";",
    "\\",
    "\n",
    "b",
    "$",
    "**",
    "***",
    "__",
    "~~",
    "``",
    "$$",
    "\u{e9}",
    "\u{201c}",
    "\u{a0}",
    "\t",
    "  \n",
    "\\\n",
    "www.",
    "www.a.co",
    "http://",
    "https://a.b",
    "a@b.co",
    "mailto:",
    "xmpp:",
    "/c",
    "&amp;",
    "&#35;",
    "&#x2A;",
    "<a>",
    "<a b='c'>",
    "</a>",
    "<!--",
    "-->",
    "<a:b>",
    "<ab:c>",
    "<a@b.co>",
    "[a]",
    "[^b]",
    "[^",
    "][a]",
    "][]",
    "](b)",
    "](<",
    ">)",
    "![",
    " \"",
    "\")",
    "[x] ",
    "[ ] ",
];

/// The most fragments of a random text.
const MOST_FRAGMENTS: u32 = 16;

/// All constructs.
const ALL: InlineOptions = InlineOptions {
    constructs: InlineConstructs::ALL,
    gfm_strikethrough_single_tilde: true,
    math_text_single_dollar: true,
};

/// Texts on which both are tried.
#[derive(Clone, Copy, Debug, PartialEq, Eq)]
pub enum Inlines {
    Letters { most: usize },
    Random { seed: u64, count: u64 },
}

impl Inlines {
    /// The letters where no argument says how many.
    pub const LETTERS: Inlines = Inlines::Letters { most: 5 };

    /// The random texts where no argument says how many.
    pub const RANDOM: Inlines = Inlines::Random {
        seed: 1,
        count: 200_000,
    };

    /// What these arguments name, or `None` where they name nothing.
    pub fn asked_for(args: &[String]) -> Option<Inlines> {
        match args {
            [word, most] if word.as_str() == "letters" => {
                let most = most.as_str().parse().ok()?;
                Some(Inlines::Letters { most })
            }
            [word, seed, count] if word.as_str() == "random" => {
                let seed = seed.as_str().parse().ok()?;
                let count = count.as_str().parse().ok()?;
                Some(Inlines::Random { seed, count })
            }
            _ => None,
        }
    }

    /// Tries both on these texts.
    pub fn perform(self, alloc: Global, report: &mut Report) -> Result<(), CaseError> {
        let definitions = one_label(alloc, "a")?;
        let footnotes = one_label(alloc, "b")?;
        let defined = Defined {
            definitions: &definitions,
            footnotes: &footnotes,
        };
        match self {
            Inlines::Letters { most } => {
                try_letters(alloc, defined, &MARKS, most, report)?;
                try_letters(alloc, defined, &BRACKETS, most, report)?;
                try_letters(alloc, defined, &ATOMS, most, report)
            }
            Inlines::Random { seed, count } => try_random(alloc, defined, seed, count, report),
        }
    }
}

/// A list of one label.
fn one_label(alloc: Global, label: &str) -> Result<Vec<String>, AllocError> {
    let mut list = Vec::new(alloc);
    list.push(String::from_str(alloc, label)?)?;
    Ok(list)
}

/// Tries both on all texts of at most so many of these letters.
fn try_letters(
    alloc: Global,
    defined: Defined<'_>,
    letters: &[&str],
    most: usize,
    report: &mut Report,
) -> Result<(), CaseError> {
    let mut count: usize = 1;
    for length in 0..=most {
        for number in 0..count {
            let text = numbered(alloc, letters, length, number)?;
            try_text(alloc, &ALL, defined, false, text.as_str(), report)?;
        }
        count = count.wrapping_mul(letters.len());
    }
    Ok(())
}

/// Whether a bit of a random number is set.
fn bit(word: u32, place: u32) -> bool {
    word.wrapping_shr(place) % 2 == 1
}

/// The options that a random number says.
fn options_of(word: u32) -> InlineOptions {
    let constructs = InlineConstructs {
        attention: bit(word, 0),
        autolink: bit(word, 1),
        character_escape: bit(word, 2),
        character_reference: bit(word, 3),
        code_text: bit(word, 4),
        gfm_autolink_literal: bit(word, 5),
        gfm_footnote_call: bit(word, 6),
        gfm_strikethrough: bit(word, 7),
        gfm_task_list_item: bit(word, 8),
        hard_break_escape: bit(word, 9),
        hard_break_trailing: bit(word, 10),
        html_text: bit(word, 11),
        label_start_image: bit(word, 12),
        label_start_link: bit(word, 13),
        math_text: bit(word, 14),
    };
    InlineOptions {
        constructs,
        gfm_strikethrough_single_tilde: bit(word, 15),
        math_text_single_dollar: bit(word, 16),
    }
}

/// Tries both on so many random texts.
fn try_random(
    alloc: Global,
    defined: Defined<'_>,
    seed: u64,
    count: u64,
    report: &mut Report,
) -> Result<(), CaseError> {
    let mut source = Pcg32::new(seed, 0);
    for number in 0..count {
        let text = random(alloc, &mut source, &FRAGMENTS, MOST_FRAGMENTS)?;
        let any = options_of(source.next_word());
        let options = if number % 2 == 0 { ALL } else { any };
        try_text(
            alloc,
            &options,
            defined,
            number % 3 == 0,
            text.as_str(),
            report,
        )?;
    }
    Ok(())
}

/// Tries whether both find the same in a text.
fn try_text(
    alloc: Global,
    options: &InlineOptions,
    defined: Defined<'_>,
    first: bool,
    text: &str,
    report: &mut Report,
) -> Result<(), CaseError> {
    let (Ok(wanted), Ok(got)) = (
        wanted_tokens(alloc, options, defined, first, text.as_bytes()),
        read_tokens(alloc, options, defined, first, text.as_bytes()),
    ) else {
        return Err(CaseError::Memory);
    };
    if wanted == got {
        return Ok(report.add("", text, "", "")?);
    }
    let title = format!(in alloc; "inlines, first {first}, {options:?}")?;
    let wanted = format!(in alloc; "{wanted:?}")?;
    let got = format!(in alloc; "{got:?}")?;
    Ok(report.add(title.as_str(), text, wanted.as_str(), got.as_str())?)
}

/// What the reader finds.
fn read_tokens(
    alloc: Global,
    options: &InlineOptions,
    defined: Defined<'_>,
    first: bool,
    text: &[u8],
) -> Result<Vec<Token>, Message> {
    let labels = Labels::new(alloc, defined.definitions, defined.footnotes)?;
    content_tokens(alloc, options, &labels, first, text)
}

/// What the definition finds.
fn wanted_tokens(
    alloc: Global,
    options: &InlineOptions,
    defined: Defined<'_>,
    first: bool,
    text: &[u8],
) -> Result<Vec<Token>, Message> {
    let nodes = content(alloc, options, defined, first, text)?;
    let mut tokens = Vec::new(alloc);
    let mut parts = Vec::new(alloc);
    for node in &nodes {
        push_node(&mut tokens, &mut parts, *node)?;
    }
    Ok(tokens)
}

/// Adds the token of a node; these parts are open. A part over no byte has none.
fn push_node(tokens: &mut Vec<Token>, parts: &mut Vec<Name>, node: Node) -> Result<(), Message> {
    match node {
        Node::Begin(name) => {
            push(parts, name)?;
            push(tokens, Token::Enters(name))
        }
        Node::End => end_part(tokens, parts),
        Node::Piece(_, 0) => Ok(()),
        Node::Piece(name, len) => push(tokens, Token::Over(name, len)),
        Node::Run(run) => push(tokens, Token::Over(Name::Data, run.left)),
    }
}

/// Ends the innermost part that is open.
fn end_part(tokens: &mut Vec<Token>, parts: &mut Vec<Name>) -> Result<(), Message> {
    let Some(name) = parts.pop() else {
        return Ok(());
    };
    if tokens.last() == Some(&Token::Enters(name)) {
        let _begin = tokens.pop();
        return Ok(());
    }
    push(tokens, Token::Leaves(name))
}
