// Rows of events: lists that no outline shows, from `docs/events.md` and, with references, `docs/inline-layers.md`.

/// Rows of events.
pub fn rows() -> &'static str {
    r##"points of a text begin at line 1 and column 1 | commonmark
"a\n\tb\u{e9} c\r\nd"
Paragraph
  Data "a"
  LineEnding "\n"
  Data "\tb\u{e9} c"
  LineEnding "\r\n"
  Data "d"

a quote ends before the ending of its last line | commonmark
"> a\n>\n***"
BlockQuote
  BlockQuotePrefix
    BlockQuoteMarker ">"
    SpaceOrTab " "
  Paragraph
    Data "a"
  LineEnding "\n"
  BlockQuotePrefix
    BlockQuoteMarker ">"
BlankLineEnding "\n"
ThematicBreak
  ThematicBreakSequence "***"

a quote ends before the ending of a line of text | commonmark
"> a\n\nb"
BlockQuote
  BlockQuotePrefix
    BlockQuoteMarker ">"
    SpaceOrTab " "
  Paragraph
    Data "a"
LineEnding "\n"
BlankLineEnding "\n"
Paragraph
  Data "b"

whitespace after the marker of an alert is in its prefix | alerts
"> [!Tip] \n>\tm"
BlockQuote
  BlockQuotePrefix
    BlockQuoteMarker ">"
    SpaceOrTab " "
    BlockQuoteMarker "[!Tip]"
    SpaceOrTab " "
  BlankLineEnding "\n"
  BlockQuotePrefix
    BlockQuoteMarker ">"
    SpaceOrTab "" 1
  Paragraph
    Data "\tm"

the digits of an item are a part of its prefix | commonmark
"12. a"
ListOrdered
  ListItem
    ListItemPrefix
      ListItemValue "12"
      ListItemMarker "."
      SpaceOrTab " "
    Paragraph
      Data "a"

all digits of an item are its value | commonmark
"1) a\n012) b"
ListOrdered
  ListItem
    ListItemPrefix
      ListItemValue "1"
      ListItemMarker ")"
      SpaceOrTab " "
    Paragraph
      Data "a"
  LineEnding "\n"
  ListItem
    ListItemPrefix
      ListItemValue "012"
      ListItemMarker ")"
      SpaceOrTab " "
    Paragraph
      Data "b"

an item that begins blank takes two columns of each further line | commonmark
"-\n\tg\n\n\th"
ListUnordered
  ListItem
    ListItemPrefix
      ListItemMarker "-"
    BlankLineEnding "\n"
    SpaceOrTab "" 2
    Paragraph
      Data "\tg"
    LineEnding "\n"
    BlankLineEnding "\n"
    SpaceOrTab "" 2
    Paragraph
      Data "\th"

the text of a heading ends before the whitespace of its closing sequence | commonmark
"#\tc  # "
HeadingAtx
  HeadingAtxSequence "#"
  SpaceOrTab "\t"
  HeadingAtxText
    Data "c"
  SpaceOrTab "  "
  HeadingAtxSequence "#"
  SpaceOrTab " "

the body of a table begins after its delimiter row | gfm
"a|b\n-|-\nc d|"
GfmTable
  GfmTableHead
    GfmTableRow
      GfmTableCell
        GfmTableCellText
          Data "a"
      GfmTableCell
        GfmTableCellDivider "|"
        GfmTableCellText
          Data "b"
    LineEnding "\n"
    GfmTableDelimiterRow
      GfmTableDelimiterCell
        GfmTableDelimiterCellValue
          GfmTableDelimiterFiller "-"
      GfmTableDelimiterCell
        GfmTableCellDivider "|"
        GfmTableDelimiterCellValue
          GfmTableDelimiterFiller "-"
  LineEnding "\n"
  GfmTableBody
    GfmTableRow
      GfmTableCell
        GfmTableCellText
          Data "c d"
        GfmTableCellDivider "|"

the prefix of an alert's first line has the marker, that of the second has none | alerts
"> [!TIP]\n> a"
BlockQuote
  BlockQuotePrefix
    BlockQuoteMarker ">"
    SpaceOrTab " "
    BlockQuoteMarker "[!TIP]"
  BlankLineEnding "\n"
  BlockQuotePrefix
    BlockQuoteMarker ">"
    SpaceOrTab " "
  Paragraph
    Data "a"

whitespace after the marker of an alert belongs to the prefix | alerts
">[!note] \t"
BlockQuote
  BlockQuotePrefix
    BlockQuoteMarker ">"
    BlockQuoteMarker "[!note]"
    SpaceOrTab " \t"

an indent before an alert, and whitespace after its `>` | alerts
" >  [!TIP]\n"
BlockQuote
  SpaceOrTab " "
  BlockQuotePrefix
    BlockQuoteMarker ">"
    SpaceOrTab " "
    SpaceOrTab " "
    BlockQuoteMarker "[!TIP]"
BlankLineEnding "\n"

the columns of a tab before the marker of an alert | alerts
">\t[!TIP]"
BlockQuote
  BlockQuotePrefix
    BlockQuoteMarker ">"
    SpaceOrTab "" 1
    SpaceOrTab "\t"
    BlockQuoteMarker "[!TIP]"

each of two quotes has its own prefix, the inner one with the marker of an alert | alerts
">>[!TIP]"
BlockQuote
  BlockQuotePrefix
    BlockQuoteMarker ">"
  BlockQuote
    BlockQuotePrefix
      BlockQuoteMarker ">"
      BlockQuoteMarker "[!TIP]"

text after the marker makes a quote | alerts
"> [!TIP] a"
BlockQuote
  BlockQuotePrefix
    BlockQuoteMarker ">"
    SpaceOrTab " "
  Paragraph
    Data "[!TIP] a"

a further line has no marker of an alert | alerts
">a\n>[!TIP]"
BlockQuote
  BlockQuotePrefix
    BlockQuoteMarker ">"
  Paragraph
    Data "a"
    LineEnding "\n"
    BlockQuotePrefix
      BlockQuoteMarker ">"
    Data "[!TIP]"

without alerts a marker is text | gfm
"> [!TIP]\n> a"
BlockQuote
  BlockQuotePrefix
    BlockQuoteMarker ">"
    SpaceOrTab " "
  Paragraph
    Data "[!TIP]"
    LineEnding "\n"
    BlockQuotePrefix
      BlockQuoteMarker ">"
      SpaceOrTab " "
    Data "a"

a head of one cell without a body | gfm
"a\n:-"
GfmTable
  GfmTableHead
    GfmTableRow
      GfmTableCell
        GfmTableCellText
          Data "a"
    LineEnding "\n"
    GfmTableDelimiterRow
      GfmTableDelimiterCell
        GfmTableDelimiterCellValue
          GfmTableDelimiterMarker ":"
          GfmTableDelimiterFiller "-"

pipes around a row, and words with a space between them | gfm
"a|b\n-|-\n|c d|"
GfmTable
  GfmTableHead
    GfmTableRow
      GfmTableCell
        GfmTableCellText
          Data "a"
      GfmTableCell
        GfmTableCellDivider "|"
        GfmTableCellText
          Data "b"
    LineEnding "\n"
    GfmTableDelimiterRow
      GfmTableDelimiterCell
        GfmTableDelimiterCellValue
          GfmTableDelimiterFiller "-"
      GfmTableDelimiterCell
        GfmTableCellDivider "|"
        GfmTableDelimiterCellValue
          GfmTableDelimiterFiller "-"
  LineEnding "\n"
  GfmTableBody
    GfmTableRow
      GfmTableCell
        GfmTableCellDivider "|"
        GfmTableCellText
          Data "c d"
        GfmTableCellDivider "|"

text before a head, a pipe after a backslash, and a paragraph after the table | gfm
"a\nb\n|-\n\\|\n\nc"
Paragraph
  Data "a"
LineEnding "\n"
GfmTable
  GfmTableHead
    GfmTableRow
      GfmTableCell
        GfmTableCellText
          Data "b"
    LineEnding "\n"
    GfmTableDelimiterRow
      GfmTableDelimiterCell
        GfmTableCellDivider "|"
        GfmTableDelimiterCellValue
          GfmTableDelimiterFiller "-"
  LineEnding "\n"
  GfmTableBody
    GfmTableRow
      GfmTableCell
        GfmTableCellText
          Data "\\|"
LineEnding "\n"
BlankLineEnding "\n"
Paragraph
  Data "c"

a head on a lazy line | gfm
"> a\nb\n> :-"
BlockQuote
  BlockQuotePrefix
    BlockQuoteMarker ">"
    SpaceOrTab " "
  Paragraph
    Data "a"
  LineEnding "\n"
  GfmTable
    GfmTableHead
      GfmTableRow
        GfmTableCell
          GfmTableCellText
            Data "b"
      LineEnding "\n"
      BlockQuotePrefix
        BlockQuoteMarker ">"
        SpaceOrTab " "
      GfmTableDelimiterRow
        GfmTableDelimiterCell
          GfmTableDelimiterCellValue
            GfmTableDelimiterMarker ":"
            GfmTableDelimiterFiller "-"

a lazy line is no delimiter row | gfm
"> a\n:-"
BlockQuote
  BlockQuotePrefix
    BlockQuoteMarker ">"
    SpaceOrTab " "
  Paragraph
    Data "a"
    LineEnding "\n"
    Data ":-"

a heading of its sequence alone has no text | commonmark
"#"
HeadingAtx
  HeadingAtxSequence "#"

an inner run of a heading is text | commonmark
"# # a"
HeadingAtx
  HeadingAtxSequence "#"
  SpaceOrTab " "
  HeadingAtxText
    Data "# a"

each heading has its own text | commonmark
"# a #\n# b"
HeadingAtx
  HeadingAtxSequence "#"
  SpaceOrTab " "
  HeadingAtxText
    Data "a"
  SpaceOrTab " "
  HeadingAtxSequence "#"
LineEnding "\n"
HeadingAtx
  HeadingAtxSequence "#"
  SpaceOrTab " "
  HeadingAtxText
    Data "b"

of two runs only the last one closes a heading | commonmark
"# # # "
HeadingAtx
  HeadingAtxSequence "#"
  SpaceOrTab " "
  HeadingAtxText
    Data "#"
  SpaceOrTab " "
  HeadingAtxSequence "#"
  SpaceOrTab " "

a bracket after a backslash opens no reference | commonmark | references
"\\[q] [q]\n\n[q]: r"
Paragraph
  Data "\\[q] "
  Link
    LabelMarker "["
    LabelText
      Data "q"
    LabelMarker "]"
LineEnding "\n"
BlankLineEnding "\n"
Definition
  DefinitionLabel
    DefinitionLabelMarker "["
    DefinitionLabelString
      Data "q"
    DefinitionLabelMarker "]"
  DefinitionMarker ":"
  SpaceOrTab " "
  DefinitionDestination
    DefinitionDestinationRaw
      DefinitionDestinationString
        Data "r"

the case of a label does not matter | commonmark | references
"[q]: r\n\n[Q]"
Definition
  DefinitionLabel
    DefinitionLabelMarker "["
    DefinitionLabelString
      Data "q"
    DefinitionLabelMarker "]"
  DefinitionMarker ":"
  SpaceOrTab " "
  DefinitionDestination
    DefinitionDestinationRaw
      DefinitionDestinationString
        Data "r"
LineEnding "\n"
BlankLineEnding "\n"
Paragraph
  Link
    LabelMarker "["
    LabelText
      Data "Q"
    LabelMarker "]"

a label that nothing defines is text | commonmark | references
"[s][]"
Paragraph
  Data "[s][]"

an info string has no reference | commonmark | references
"[q]: r\n~~~ [q]"
Definition
  DefinitionLabel
    DefinitionLabelMarker "["
    DefinitionLabelString
      Data "q"
    DefinitionLabelMarker "]"
  DefinitionMarker ":"
  SpaceOrTab " "
  DefinitionDestination
    DefinitionDestinationRaw
      DefinitionDestinationString
        Data "r"
LineEnding "\n"
CodeFenced
  CodeFencedFence
    CodeFencedFenceSequence "~~~"
    SpaceOrTab " "
    CodeFencedFenceInfo
      Data "[q]"

the text of a heading is read by the layer | commonmark | references
"[q]: r\n# [q] a"
Definition
  DefinitionLabel
    DefinitionLabelMarker "["
    DefinitionLabelString
      Data "q"
    DefinitionLabelMarker "]"
  DefinitionMarker ":"
  SpaceOrTab " "
  DefinitionDestination
    DefinitionDestinationRaw
      DefinitionDestinationString
        Data "r"
LineEnding "\n"
HeadingAtx
  HeadingAtxSequence "#"
  SpaceOrTab " "
  HeadingAtxText
    Link
      LabelMarker "["
      LabelText
        Data "q"
      LabelMarker "]"
    Data " a"

a reference over two lines has the prefix between them inside | commonmark | references
"> [a\n> b] c\n\n[A  b]: d"
BlockQuote
  BlockQuotePrefix
    BlockQuoteMarker ">"
    SpaceOrTab " "
  Paragraph
    Link
      LabelMarker "["
      LabelText
        Data "a"
        LineEnding "\n"
        BlockQuotePrefix
          BlockQuoteMarker ">"
          SpaceOrTab " "
        Data "b"
      LabelMarker "]"
    Data " c"
LineEnding "\n"
BlankLineEnding "\n"
Definition
  DefinitionLabel
    DefinitionLabelMarker "["
    DefinitionLabelString
      Data "A  b"
    DefinitionLabelMarker "]"
  DefinitionMarker ":"
  SpaceOrTab " "
  DefinitionDestination
    DefinitionDestinationRaw
      DefinitionDestinationString
        Data "d"

an indent and whitespace after the text are within what is open, and no part of it | commonmark | references
"[q\r\n \t] \t\n\n[q]: r"
Paragraph
  Link
    LabelMarker "["
    LabelText
      Data "q"
      LineEnding "\r\n"
    SpaceOrTab " \t"
    LabelMarker "]"
  SpaceOrTab " \t"
LineEnding "\n"
BlankLineEnding "\n"
Definition
  DefinitionLabel
    DefinitionLabelMarker "["
    DefinitionLabelString
      Data "q"
    DefinitionLabelMarker "]"
  DefinitionMarker ":"
  SpaceOrTab " "
  DefinitionDestination
    DefinitionDestinationRaw
      DefinitionDestinationString
        Data "r"

the rest of a cut tab is an indent | commonmark | references
">\t[q]\n\n[q]: r"
BlockQuote
  BlockQuotePrefix
    BlockQuoteMarker ">"
    SpaceOrTab "" 1
  Paragraph
    SpaceOrTab "\t"
    Link
      LabelMarker "["
      LabelText
        Data "q"
      LabelMarker "]"
LineEnding "\n"
BlankLineEnding "\n"
Definition
  DefinitionLabel
    DefinitionLabelMarker "["
    DefinitionLabelString
      Data "q"
    DefinitionLabelMarker "]"
  DefinitionMarker ":"
  SpaceOrTab " "
  DefinitionDestination
    DefinitionDestinationRaw
      DefinitionDestinationString
        Data "r"

a string begins with its whitespace, and has the indents of its further lines beside its text | commonmark | references
"[q]: r ' [q]\n  s '"
Definition
  DefinitionLabel
    DefinitionLabelMarker "["
    DefinitionLabelString
      Data "q"
    DefinitionLabelMarker "]"
  DefinitionMarker ":"
  SpaceOrTab " "
  DefinitionDestination
    DefinitionDestinationRaw
      DefinitionDestinationString
        Data "r"
  SpaceOrTab " "
  DefinitionTitle
    DefinitionTitleMarker "'"
    DefinitionTitleString
      Data " [q]"
      LineEnding "\n"
      SpaceOrTab "  "
      Data "s "
    DefinitionTitleMarker "'"

a cell is read by the layer | gfm | references
"[q]|x\n-|-\n\n[q]: r"
GfmTable
  GfmTableHead
    GfmTableRow
      GfmTableCell
        GfmTableCellText
          Link
            LabelMarker "["
            LabelText
              Data "q"
            LabelMarker "]"
      GfmTableCell
        GfmTableCellDivider "|"
        GfmTableCellText
          Data "x"
    LineEnding "\n"
    GfmTableDelimiterRow
      GfmTableDelimiterCell
        GfmTableDelimiterCellValue
          GfmTableDelimiterFiller "-"
      GfmTableDelimiterCell
        GfmTableCellDivider "|"
        GfmTableDelimiterCellValue
          GfmTableDelimiterFiller "-"
LineEnding "\n"
BlankLineEnding "\n"
Definition
  DefinitionLabel
    DefinitionLabelMarker "["
    DefinitionLabelString
      Data "q"
    DefinitionLabelMarker "]"
  DefinitionMarker ":"
  SpaceOrTab " "
  DefinitionDestination
    DefinitionDestinationRaw
      DefinitionDestinationString
        Data "r"
"##
}
