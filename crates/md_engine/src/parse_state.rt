// What a parse knows beside its events.

use crate::configuration::ParseOptions;

/// The text, what was asked for, and the labels that the text defines.
#[derive(Drop)]
pub struct ParseState<'a> {
    pub options: &'a ParseOptions,
    /// The whole text, with its byte order mark.
    pub bytes: &'a [u8],
    /// Normal forms of the labels of definitions, in the order of the text, repeats kept.
    pub definitions: Vec<String>,
    /// Normal forms of the labels of footnote definitions, in the order of the text, repeats kept.
    pub gfm_footnote_definitions: Vec<String>,
}
