// The exact list of a text is its list by rows, and its rows are those of the lines of the text. Where a text may be
// cut, its events, its tree, its labels and its outline are those of its parts, one after the other. Its text parts are
// of lines that are not blank.
#![tactic(auto)]

ghost use Rattle.std.specs.Prelude.{◌≡◌, true};
ghost use Rattle.std.specs.List.{list_all};
ghost use Rattle.md_events.specs.Events.Tiles.{parts};
ghost use Rattle.md_events.specs.Exact.Blocks.{exact};
ghost use Rattle.md_inline_events.specs.TreeTexts.{is_filled_part};
ghost use Rattle.proof_exact.specs.Parts.{PartsOneByOne, ReadsOn, ReadsOnAfterText, TreesOneByOne};

use md_engine::configuration::ParseOptions;

/// The law of cuts, of these bytes and those after them.
pub fn cut_law(options: &ParseOptions, bytes: &[u8], following: &[u8])
    ensures { PartsOneByOne options.now bytes.now following.now }
{}

/// The law of cuts, of a text from which these bytes are read next.
pub fn next_law(options: &ParseOptions, text: &[u8], bytes: &[u8])
    ensures { ReadsOn options.now text.now bytes.now }
{}

/// The law of cuts before an empty line that ends a paragraph.
pub fn text_law(options: &ParseOptions, text: &[u8], bytes: &[u8])
    ensures { ReadsOnAfterText options.now text.now bytes.now }
{}

/// The trees of the parts, their labels and their outlines are those of the whole, one after the other.
pub fn tree_law(options: &ParseOptions)
    ensures { TreesOneByOne options.now }
{}

/// The law of filled parts: no line of a paragraph, a heading or a cell is blank, and the last has no ending.
pub fn filled_law(options: &ParseOptions, bytes: &[u8])
    ensures { list_all (is_filled_part bytes.now) (parts (exact options.now bytes.now)) ≡ true }
{}
