// The bits of constructs, for C. Made by `scripts/c_header.py`.

pub(crate) const BLOCK_QUOTE: u64 = 1 << 0;

pub(crate) const CODE_FENCED: u64 = 1 << 1;

pub(crate) const CODE_INDENTED: u64 = 1 << 2;

pub(crate) const DEFINITION: u64 = 1 << 3;

pub(crate) const HEADING_ATX: u64 = 1 << 4;

pub(crate) const HEADING_SETEXT: u64 = 1 << 5;

pub(crate) const HTML_FLOW: u64 = 1 << 6;

pub(crate) const LIST_ITEM: u64 = 1 << 7;

pub(crate) const THEMATIC_BREAK: u64 = 1 << 8;

pub(crate) const GFM_FOOTNOTE_DEFINITION: u64 = 1 << 9;

pub(crate) const GFM_TABLE: u64 = 1 << 10;

pub(crate) const FRONTMATTER: u64 = 1 << 11;

pub(crate) const MATH_FLOW: u64 = 1 << 12;

pub(crate) const ALERTS: u64 = 1 << 13;

/// All of these.
pub(crate) const BLOCKS: u64 = 0x3fff;

pub(crate) const ATTENTION: u64 = 1 << 32;

pub(crate) const AUTOLINK: u64 = 1 << 33;

pub(crate) const CHARACTER_ESCAPE: u64 = 1 << 34;

pub(crate) const CHARACTER_REFERENCE: u64 = 1 << 35;

pub(crate) const CODE_TEXT: u64 = 1 << 36;

pub(crate) const HARD_BREAK_ESCAPE: u64 = 1 << 37;

pub(crate) const HARD_BREAK_TRAILING: u64 = 1 << 38;

pub(crate) const HTML_TEXT: u64 = 1 << 39;

pub(crate) const LABEL_START_IMAGE: u64 = 1 << 40;

pub(crate) const LABEL_START_LINK: u64 = 1 << 41;

pub(crate) const GFM_AUTOLINK_LITERAL: u64 = 1 << 42;

pub(crate) const GFM_FOOTNOTE_CALL: u64 = 1 << 43;

pub(crate) const GFM_STRIKETHROUGH: u64 = 1 << 44;

pub(crate) const GFM_TASK_LIST_ITEM: u64 = 1 << 45;

pub(crate) const MATH_TEXT: u64 = 1 << 46;

pub(crate) const GFM_STRIKETHROUGH_SINGLE_TILDE: u64 = 1 << 47;

pub(crate) const MATH_TEXT_SINGLE_DOLLAR: u64 = 1 << 48;

/// All of these.
pub(crate) const INLINES: u64 = 0x1ffff00000000;
