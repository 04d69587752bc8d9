// Names of resolvers: what they set right.

/// Names of resolvers.
#[derive(Clone, Copy, Debug, PartialEq, Eq)]
pub enum Name {
    /// Labels of links and images, of an inline layer.
    Label,
    /// Emphasis, of an inline layer.
    Attention,
    /// Groups rows, cells and tables.
    GfmTable,
    /// Sets the text of an ATX heading.
    HeadingAtx,
    /// Makes the heading above an underline.
    HeadingSetext,
    /// Groups items into lists.
    ListItem,
    /// Joins the lines of content, and reads them.
    Content,
    /// Plain data, of an inline layer.
    Data,
    /// Whitespace in a string, of an inline layer.
    String,
    /// Whitespace in text, of an inline layer.
    Text,
}
