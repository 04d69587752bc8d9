// Laws of the inline layer, as functions whose contracts are the laws. The text of a part is what its leaf has in the
// block tree: its lines without container prefixes and indents. What a part means depends on its text, on its kind, and
// on the labels of its document; where the text begins with the check of a task (GFM 5.3), also on whether it may have
// one, as the first paragraph of an item may. So a text in a container has the inline content that it has by itself.

ghost use Rattle.std.specs.Prelude.{◌≡◌, ℕ, true, List};
ghost use Rattle.md_engine.specs.declared.configuration.ParseOptions as blocks;
ghost use Rattle.md_engine.specs.declared.event.Event as event;
ghost use Rattle.md_engine.specs.declared.parse_state.ParseState as parsed;
ghost use Rattle.md_events.specs.Events.Inline as inline;
ghost use Rattle.md_events.specs.Events.Tiles.{parts};
ghost use Rattle.md_events.specs.TextPart.{AreBlocks, Document, document_of};
ghost use Rattle.md_inline_events.specs.TreeTexts.{part_texts, tree_texts};
ghost use Rattle.md_inlines.specs.declared.InlineOptions as given;
ghost use Rattle.md_meaning.specs.Meaning.{tree};
ghost use Rattle.md_meaning.specs.Wrapped.{IsItemable, IsQuotable, itemised, quoted};
ghost use Rattle.md_wrap.specs.Footnoted.{footnoted, x_label};
ghost use Rattle.markdown_inlines.specs.Alike.{HaveSameContent, HaveSameLabels, IsReadBy, MeanAlike, has_footnote};
ghost use Rattle.markdown_inlines.specs.Layer.{AreEvents};

/// A text part of a document has one list of events: it is at one place of the exact list, and `reads` of `Inlines` is
/// by that place.
pub fn a_part_has_one_list_of_events()
    ensures { (inlines : given.InlineOptions) (document : Document) (held : inline.Part) (events found : List event.Event)
        → AreEvents inlines document held events → AreEvents inlines document held found → events ≡ found }
{}

/// What is read of the text parts of a document that hold content, those of its paragraphs, headings and cells, are the
/// texts of these in its block tree, one for one and in order.
pub fn parts_have_the_texts_of_their_leaves()
    ensures { (document : Document) (blocks : List event.Event) → AreBlocks document blocks →
        part_texts document.bytes (parts blocks) ≡ tree_texts (tree document.options document.bytes) }
{}

/// In documents with the same labels, parts of one kind with the same text mean the same, whatever else the documents
/// have.
pub fn parts_mean_what_their_texts_do()
    ensures { (inlines : given.InlineOptions) (document other : Document)
        → HaveSameLabels document other → MeanAlike inlines document other }
{}

/// So a text has the inline content of that text with `> ` before each line, where `parse_with` has read both with one
/// layer.
pub fn parts_in_a_quote_mean_the_same()
    ensures { (inlines : given.InlineOptions) (options : blocks.ParseOptions) (text : List ℕ)
        (events found : List event.Event) (state quote : parsed.ParseState)
        → options.constructs.block_quote ≡ true → IsQuotable options text
        → IsReadBy inlines text options events state → IsReadBy inlines (quoted text) options found quote
        → HaveSameContent inlines (document_of state) (document_of quote) }
{}

/// So it has that of the text with `+ ` before its first line and two spaces before each other.
pub fn parts_in_an_item_mean_the_same()
    ensures { (inlines : given.InlineOptions) (options : blocks.ParseOptions) (text : List ℕ)
        (events found : List event.Event) (state item : parsed.ParseState)
        → options.constructs.list_item ≡ true → IsItemable options text
        → IsReadBy inlines text options events state → IsReadBy inlines (itemised text) options found item
        → HaveSameContent inlines (document_of state) (document_of item) }
{}

/// So it has that of the text with `[^x]: ` before its first line and four spaces before each other, where `x` is the
/// label of a footnote in the text too: otherwise a call of it is one in the second alone.
pub fn parts_in_a_footnote_mean_the_same()
    ensures { (inlines : given.InlineOptions) (options : blocks.ParseOptions) (text : List ℕ)
        (events found : List event.Event) (state footnote : parsed.ParseState)
        → options.constructs.gfm_footnote_definition ≡ true → IsItemable options text
        → IsReadBy inlines text options events state → IsReadBy inlines (footnoted text) options found footnote
        → has_footnote x_label (document_of state) ≡ true
        → HaveSameContent inlines (document_of state) (document_of footnote) }
{}
