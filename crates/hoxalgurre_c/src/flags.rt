// What C asks for, as bits: which constructs are on, and what is wanted of a text.
ghost use Rattle.markdown_blocks.specs.Parsed.{IsWithoutMdx};

use crate::bits::*;
use markdown_blocks::configuration::{Constructs, ParseOptions};
use markdown_inlines::Inlines;
use md_inlines::{InlineConstructs, InlineOptions};

pub(crate) const EVENTS: u32 = 1;

pub(crate) const LABELS: u32 = 2;

pub(crate) const OUTLINE: u32 = 4;

pub(crate) const HTML: u32 = 8;

pub(crate) const UNSAFE: u32 = 16;

/// The options for blocks by these bits: those that are of no block change nothing.
pub(crate) fn block_options(bits: u64) -> ParseOptions
    ensures { IsWithoutMdx result }
{
    ParseOptions {
        constructs: Constructs {
            alerts: bits & ALERTS != 0,
            block_quote: bits & BLOCK_QUOTE != 0,
            code_fenced: bits & CODE_FENCED != 0,
            code_indented: bits & CODE_INDENTED != 0,
            definition: bits & DEFINITION != 0,
            frontmatter: bits & FRONTMATTER != 0,
            gfm_footnote_definition: bits & GFM_FOOTNOTE_DEFINITION != 0,
            gfm_table: bits & GFM_TABLE != 0,
            heading_atx: bits & HEADING_ATX != 0,
            heading_setext: bits & HEADING_SETEXT != 0,
            html_flow: bits & HTML_FLOW != 0,
            list_item: bits & LIST_ITEM != 0,
            math_flow: bits & MATH_FLOW != 0,
            thematic_break: bits & THEMATIC_BREAK != 0,
            ..Constructs::NONE
        },
    }
}

/// The layer for texts by these bits, or `None` where none of them is of texts.
pub(crate) fn inline_layer(bits: u64) -> Option<Inlines> {
    if bits & INLINES == 0 {
        return None;
    }
    Some(Inlines::new(InlineOptions {
        constructs: inline_constructs(bits),
        gfm_strikethrough_single_tilde: bits & GFM_STRIKETHROUGH_SINGLE_TILDE != 0,
        math_text_single_dollar: bits & MATH_TEXT_SINGLE_DOLLAR != 0,
    }))
}

fn inline_constructs(bits: u64) -> InlineConstructs {
    InlineConstructs {
        attention: bits & ATTENTION != 0,
        autolink: bits & AUTOLINK != 0,
        character_escape: bits & CHARACTER_ESCAPE != 0,
        character_reference: bits & CHARACTER_REFERENCE != 0,
        code_text: bits & CODE_TEXT != 0,
        gfm_autolink_literal: bits & GFM_AUTOLINK_LITERAL != 0,
        gfm_footnote_call: bits & GFM_FOOTNOTE_CALL != 0,
        gfm_strikethrough: bits & GFM_STRIKETHROUGH != 0,
        gfm_task_list_item: bits & GFM_TASK_LIST_ITEM != 0,
        hard_break_escape: bits & HARD_BREAK_ESCAPE != 0,
        hard_break_trailing: bits & HARD_BREAK_TRAILING != 0,
        html_text: bits & HTML_TEXT != 0,
        label_start_image: bits & LABEL_START_IMAGE != 0,
        label_start_link: bits & LABEL_START_LINK != 0,
        math_text: bits & MATH_TEXT != 0,
    }
}
