// Rows on alerts beside other blocks, in them and around them (own choice, as on GitHub).

/// Rows on alerts beside other blocks, in them and around them (own choice, as on GitHub).
pub fn rows() -> &'static str {
    r##"own choice: alerts; it interrupts a paragraph | alerts | alerts block_quote
"a\n> [!WARNING]\n> b\nc"
paragraph
  | a
alert warning
  paragraph
    | b
    | c

own choice: alerts; it interrupts a paragraph | alerts | alerts block_quote definition
"[a]: /b\n'\n> [!WARNING]\nc"
definition
  label | a
  destination | /b
paragraph
  | '
alert warning
paragraph
  | c
definitions 1
= a
footnotes 0

own choice: alerts; it interrupts a paragraph | alerts | alerts block_quote list_item
"- a\n> [!WARNING]\n> b"
list -
  item
    paragraph
      | a
alert warning
  paragraph
    | b

own choice: alerts; it ends a table | alerts | alerts block_quote gfm_table
"a\n:-\n> [!WARNING]\nb"
table 1
  row
    cell | a
  delimiter | :-
alert warning
paragraph
  | b

own choice: alerts; blocks in it | alerts | alerts block_quote heading_atx list_item code_fenced
"> [!NOTE]\n> # a\n> - b\n> - > [!TIP]\n> ```\n> [!NOTE]"
alert note
  heading 1
    | a
  list -
    item
      paragraph
        | b
    item
      alert tip
  fence ` open
    | [!NOTE]

own choice: alerts; indented code in it | alerts | alerts block_quote code_indented
"> [!NOTE]\n>     a"
alert note
  code
    | a

own choice: alerts; a quote in a quote | alerts | alerts block_quote
">>[!NOTE]\n>>a\n>b\nc"
quote
  alert note
    paragraph
      | a
      | b
      | c

own choice: alerts; a quote in a quote | alerts | alerts block_quote
"> > > [!NOTE]  \n> > a"
quote
  quote
    alert note
    paragraph
      | a

own choice: alerts; an alert in an alert | alerts | alerts block_quote
"> [!NOTE]\n>> [!TIP]\n>> a\n>>> [!TIP]"
alert note
  alert tip
    paragraph
      | a
    alert tip

own choice: alerts; each quote is asked for itself | alerts | alerts block_quote
"> > a\n\n> > [!TIP]\n> [!NOTE]"
quote
  quote
    paragraph
      | a
quote
  alert tip
  paragraph
    | [!NOTE]

own choice: alerts; no item has a kind | alerts | alerts block_quote list_item
"- [!NOTE]\n+ > [!NOTE]\n  a"
list -
  item
    paragraph
      | [!NOTE]
list +
  item
    alert note
    paragraph
      | a

own choice: alerts; in an item that begins with a blank line | alerts | alerts block_quote list_item
"1.\n   > [!NOTE]\n   > a\n2. > [!TIP]"
list .
  item
    alert note
      paragraph
        | a
  item
    alert tip

own choice: alerts; in an item, after four columns | alerts | alerts block_quote code_indented list_item
"- >     [!NOTE]\n-     > [!NOTE]"
list -
  item
    quote
      code
        | [!NOTE]
  item
    code
      | > [!NOTE]

own choice: alerts; in a footnote definition | alerts | alerts block_quote gfm_footnote_definition
"[^a]: > [!note]\n    > b"
footnote
  label | a
  alert note
    paragraph
      | b
definitions 0
footnotes 1
= a

own choice: alerts; in a footnote definition | alerts | alerts block_quote gfm_footnote_definition
"> [!NOTE]\n> [^a]:\n>     > [!TIP]\nb"
alert note
  footnote
    label | a
    alert tip
paragraph
  | b
definitions 0
footnotes 1
= a

own choice: alerts; no text of a fence | alerts | alerts block_quote code_fenced
"> ```\n> [!NOTE]\n> > [!TIP]"
quote
  fence ` open
    | [!NOTE]
    | > [!TIP]

own choice: alerts; no text of HTML | alerts | alerts block_quote html_flow
"<div>\n> [!NOTE]\n\n> [!NOTE]"
html
  | <div>
  | > [!NOTE]
alert note

own choice: alerts; after a byte order mark | alerts | alerts block_quote
"\u{feff}> [!NOTE]"
alert note

own choice: alerts; after frontmatter | alerts | alerts block_quote frontmatter
"+++\n+++\n> [!NOTE]\n> +++"
frontmatter +
alert note
  paragraph
    | +++

own choice: alerts are of quotes alone | alerts | list_item
"+ [!NOTE]\n  a"
list +
  item
    paragraph
      | [!NOTE]
      | a

own choice: alerts are of quotes alone | alerts | gfm_footnote_definition
"[^x]: [!NOTE]\n    a"
footnote
  label | x
  paragraph
    | [!NOTE]
    | a
definitions 0
footnotes 1
= x

own choice: alerts | alerts | nothing
"[!NOTE]\na"
paragraph
  | [!NOTE]
  | a

own choice: alerts | alerts | alerts block_quote
">[!note] \t"
alert note

own choice: alerts | alerts | alerts block_quote
" >  [!TIP]\n"
alert tip

own choice: alerts | alerts | alerts block_quote
">\t[!TIP]"
alert tip

own choice: alerts | alerts | alerts block_quote
">>[!TIP]"
quote
  alert tip

own choice: alerts | alerts | alerts block_quote
"> [!TIP] a"
quote
  paragraph
    | [!TIP] a
"##
}
