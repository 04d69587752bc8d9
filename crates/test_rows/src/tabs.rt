// Rows on tabs whose columns several pieces share (CommonMark 2.2): prefixes of containers, indents, and the text of a
// line.
//
// A tab extends to the next multiple of 4 columns. A quote takes one column after its marker, an item as many columns
// of each line as its marker and the whitespace after it have, a footnote definition four, code four, and a fence as
// many as the opening fence has before it. What is left of a tab is as many spaces.

/// Rows on tabs whose columns several pieces share (CommonMark 2.2).
pub fn rows() -> &'static str {
    r##"CommonMark 2.2 | commonmark
">\t- a"
quote
  list -
    item
      paragraph
        | a

CommonMark 2.2 | commonmark
"- -\ta\n\n\t  b"
list -
  item
    list -
      item
        paragraph
          | a
        paragraph
          | b

CommonMark 2.2 | commonmark
"- - a\n\n\t\tb"
list -
  item
    list -
      item
        paragraph
          | a
        code
          | b

CommonMark 2.2 | commonmark
"- - - a\n\n\t\tb"
list -
  item
    list -
      item
        list -
          item
            paragraph
              | a
            paragraph
              | b

CommonMark 2.2 | commonmark
"> -\ta\n>\n>\t\tb"
quote
  list -
    item
      paragraph
        | a
      code
        | b

CommonMark 2.2 | commonmark
"> - a\n>\n>\tb"
quote
  list -
    item
      paragraph
        | a
      paragraph
        | b

CommonMark 2.2 | commonmark
">\t1. a\n>\n>\t\tb"
quote
  list .
    item
      paragraph
        | a
      paragraph
        | b

CommonMark 2.2 | commonmark
">\t>\ta"
quote
  quote
    paragraph
      | a

CommonMark 2.2 | commonmark
">\t>\t\ta"
quote
  quote
    code
      |   a

CommonMark 2.2 | commonmark
"-\t>\ta"
list -
  item
    quote
      paragraph
        | a

CommonMark 2.2 | commonmark
"+\t\t\ta"
list +
  item
    code
      |   \ta

CommonMark 2.2 | commonmark
"1.\t\ta"
list .
  item
    code
      |  a

CommonMark 2.2 | commonmark
"-\t\n\ta"
list -
  item
    paragraph
      | a

CommonMark 2.2 | commonmark
"-\t\n\t\ta"
list -
  item
    code
      |   a

CommonMark 4.5 | commonmark
">\t~~~\n>\t\ta\n>\t~~~"
quote
  fence ~
    | \ta

CommonMark 4.5 | commonmark
"> ~~~\n>\ta\n>\t\tb"
quote
  fence ~ open
    |   a
    |   \tb

CommonMark 4.5 | commonmark
" ~~~\n\ta\n  \tb\n"
fence ~ open
  |    a
  |  \tb

CommonMark 4.5 | commonmark
"   ~~~\n \ta\n   \tb"
fence ~ open
  |  a
  | \tb

CommonMark 5.1 | commonmark
"* a\n\n\t> b\n\t>\tc"
list *
  item
    paragraph
      | a
    quote
      paragraph
        | b
        | c

CommonMark 4.2 | commonmark
"- a\n\t# b"
list -
  item
    paragraph
      | a
    heading 1
      | b

CommonMark 4.1 | commonmark
"- a\n\t***"
list -
  item
    paragraph
      | a
    break

CommonMark 4.3 | commonmark
"- a\n\t---"
list -
  item
    heading 2
      | a

CommonMark 4.3 | commonmark
"- > a\n\t>\t==="
list -
  item
    quote
      heading 1
        | a

CommonMark 4.6 | commonmark
"- <div>\n\tb"
list -
  item
    html
      | <div>
      |   b

CommonMark 4.4 | commonmark
"- a\n\n\t\tb\n\n\t\tc"
list -
  item
    paragraph
      | a
    code
      |   b
      |\u{20}
      |   c

CommonMark 4.7 | commonmark
">\t[a]:\tb\n>\t'c'"
quote
  definition
    label | a
    destination | b
    title | c
definitions 1
= a
footnotes 0

GFM 4.10 | gfm
"- a | b\n\t--|--\n\tc | d"
list -
  item
    table 2
      row
        cell | a
        cell | b
      delimiter | --|--
      row
        cell | c
        cell | d

own choice: a footnote definition takes four columns | gfm
"> [^a]: b\n>\n>\t\tc"
quote
  footnote
    label | a
    paragraph
      | b
    paragraph
      | c
definitions 0
footnotes 1
= a

own choice: math loses the indent of its fence | all
"- $$\n\ta\n\t$$"
list -
  item
    math
      |   a

CommonMark 2.2: what is left of a cut tab is whitespace | gfm | block_quote heading_atx
">\t# a"
quote
  heading 1
    | a

CommonMark 2.2: what is left of a cut tab is whitespace | gfm | block_quote thematic_break
">\t***"
quote
  break

CommonMark 2.2 and 5.1: a tab has fewer columns after a prefix | exactly block_quote code_indented gfm_footnote_definition list_item
"> \ta"
quote
  paragraph
    | a

CommonMark 2.2 and 5.2: a tab has fewer columns after a prefix | exactly block_quote code_indented gfm_footnote_definition list_item
"+ \ta"
list +
  item
    paragraph
      | a

CommonMark 2.2: after the columns that a footnote asks for, a tab is no indent | exactly block_quote code_indented gfm_footnote_definition list_item
"[^x]: \ta"
footnote
  label | x
  paragraph
    | a
definitions 0
footnotes 1
= x
"##
}
