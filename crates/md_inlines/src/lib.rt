// What the text of a part means (CommonMark 6, GFM 5.3, 6.5 and 6.9): inline constructs by their bytes, and the forest of
// a text. The definitions are in `specs`. Here are the options, the values that definitions give, and each construct as
// a plain function over bytes, which returns what its definition gives.
#![tactic(auto)]

pub mod address;
pub mod autolink;
pub mod breaks;
pub mod class;
pub mod code;
pub mod email;
pub mod escape;
pub mod flanking;
pub mod html;
pub mod target;
pub mod task;

/// Which inline constructs are on.
///
/// A construct that is off leaves its bytes to the others, and else they are text.
#[derive(Clone, Copy, Debug, PartialEq, Eq)]
pub struct InlineConstructs {
    /// Emphasis and strong emphasis (CommonMark 6.2).
    pub attention: bool,
    /// Autolinks between angle brackets (CommonMark 6.5).
    pub autolink: bool,
    /// Escapes (CommonMark 2.4).
    pub character_escape: bool,
    /// Character references (CommonMark 2.5).
    pub character_reference: bool,
    /// Code spans (CommonMark 6.1).
    pub code_text: bool,
    /// Addresses without angle brackets (GFM 6.9).
    pub gfm_autolink_literal: bool,
    /// Footnote calls, as on GitHub.
    pub gfm_footnote_call: bool,
    /// Strikethrough (GFM 6.5).
    pub gfm_strikethrough: bool,
    /// Checks of task items (GFM 5.3).
    pub gfm_task_list_item: bool,
    /// Hard line breaks by a backslash (CommonMark 6.7).
    pub hard_break_escape: bool,
    /// Hard line breaks by spaces (CommonMark 6.7).
    pub hard_break_trailing: bool,
    /// Raw HTML (CommonMark 6.6).
    pub html_text: bool,
    /// Images (CommonMark 6.4).
    pub label_start_image: bool,
    /// Links (CommonMark 6.3).
    pub label_start_link: bool,
    /// Math between dollars.
    pub math_text: bool,
}

impl InlineConstructs {
    /// The constructs of CommonMark.
    pub const COMMONMARK: InlineConstructs = InlineConstructs {
        attention: true,
        autolink: true,
        character_escape: true,
        character_reference: true,
        code_text: true,
        gfm_autolink_literal: false,
        gfm_footnote_call: false,
        gfm_strikethrough: false,
        gfm_task_list_item: false,
        hard_break_escape: true,
        hard_break_trailing: true,
        html_text: true,
        label_start_image: true,
        label_start_link: true,
        math_text: false,
    };

    /// CommonMark with the extensions of GitHub.
    pub const GFM: InlineConstructs = InlineConstructs {
        gfm_autolink_literal: true,
        gfm_footnote_call: true,
        gfm_strikethrough: true,
        gfm_task_list_item: true,
        ..InlineConstructs::COMMONMARK
    };

    /// Every construct: those of `GFM`, and math.
    pub const ALL: InlineConstructs = InlineConstructs {
        math_text: true,
        ..InlineConstructs::GFM
    };
}

/// What the inline content of a text is asked for.
#[derive(Clone, Copy, Debug, PartialEq, Eq)]
pub struct InlineOptions {
    pub constructs: InlineConstructs,
    /// Whether one tilde is a mark of strikethrough, as two are.
    pub gfm_strikethrough_single_tilde: bool,
    /// Whether one dollar is a mark of math, as two and more are.
    pub math_text_single_dollar: bool,
}

/// A character reference, after its `&`.
#[derive(Clone, Copy, Debug, PartialEq, Eq)]
pub struct Reference {
    /// How many bytes its markers have: 0 for a name, 1 for `#`, 2 for `#x`.
    pub markers: usize,
    /// How many bytes its name or number has.
    pub value: usize,
}

/// A text between two runs of one byte.
#[derive(Clone, Copy, Debug, PartialEq, Eq)]
pub struct Raw {
    /// How many bytes each run has.
    pub size: usize,
    /// How many bytes are between them.
    pub inside: usize,
}

/// What is beside a delimiter run: on each side whitespace or an end of the text, punctuation, or neither.
#[derive(Clone, Copy, Debug, PartialEq, Eq)]
pub enum Side {
    White,
    Punctuation,
    Other,
}

/// A delimiter run, or what is left of it.
#[derive(Clone, Copy, Debug, PartialEq, Eq)]
pub struct Run {
    /// The byte that it has.
    pub mark: u8,
    /// How many bytes it had.
    pub size: usize,
    /// How many are left.
    pub left: usize,
    pub opens: bool,
    pub closes: bool,
}

/// What a link or an image leads to, in parentheses after its text.
#[derive(Clone, Copy, Debug, PartialEq, Eq)]
pub struct Resource {
    /// How much whitespace is before the destination.
    pub before: usize,
    /// How many bytes the destination has, with its angle brackets.
    pub destination: usize,
    /// Whether it has angle brackets.
    pub is_literal: bool,
    /// How much whitespace is after the destination.
    pub between: usize,
    /// How many bytes the title has, with its marks; 0 where there is none.
    pub title: usize,
    /// How much whitespace is after the title.
    pub after: usize,
}

/// An address without angle brackets.
#[derive(Clone, Copy, Debug, PartialEq, Eq)]
pub enum LiteralKind {
    Www,
    Protocol,
    Email,
    Mailto,
    Xmpp,
}

/// An address without angle brackets: what it is, and how many bytes it has.
#[derive(Clone, Copy, Debug, PartialEq, Eq)]
pub struct Literal {
    pub kind: LiteralKind,
    pub len: usize,
}
