// Rows on alerts: quotes that have the marker of a kind alone on their first line (own choice, as on GitHub).
//
// An alert is a quote that opens on a line whose rest, after `>` and one column, is a small indent, the marker of a
// kind in any ASCII case, and spaces and tabs up to the end. That rest belongs to the prefix of the quote, so it is
// empty for all that may open on it. A further line of a quote is never asked for a marker.

/// Rows on alerts: quotes that have the marker of a kind alone on their first line (own choice, as on GitHub).
pub fn rows() -> &'static str {
    r##"own choice: alerts | alerts | alerts block_quote
"> [!note]  \n> a"
alert note
  paragraph
    | a

own choice: alerts | alerts | alerts block_quote
"> [!NOTE]\nb"
alert note
paragraph
  | b

own choice: alerts | alerts | alerts block_quote
"> [!NOTE] a"
quote
  paragraph
    | [!NOTE] a

own choice: alerts; a further line is never asked | alerts | alerts block_quote
"> a\n> [!TIP]"
quote
  paragraph
    | a
    | [!TIP]

own choice: alerts; a further line is never asked | alerts | alerts block_quote
"> [!NOTE]\n> [!TIP]"
alert note
  paragraph
    | [!TIP]

own choice: alerts | alerts | alerts block_quote
">    [!NOTE]"
alert note

own choice: alerts | alerts | alerts block_quote code_indented
">     [!NOTE]"
quote
  code
    | [!NOTE]

own choice: alerts | alerts | alerts block_quote list_item
"- > [!tip]\n  > b"
list -
  item
    alert tip
      paragraph
        | b

own choice: alerts; where they are off | commonmark | block_quote
"> [!NOTE]\n> a"
quote
  paragraph
    | [!NOTE]
    | a

own choice: alerts; where they are off | gfm | block_quote
"> [!NOTE]\n> a"
quote
  paragraph
    | [!NOTE]
    | a

own choice: alerts; where they are off | all | block_quote
"> [!NOTE]\n> a"
quote
  paragraph
    | [!NOTE]
    | a

own choice: alerts; where they are off | all | block_quote
"> [!note]  "
quote
  paragraph
    | [!note] \u{20}

own choice: alerts; where they are off | all | block_quote
"> [!NOTE]\nb"
quote
  paragraph
    | [!NOTE]
    | b

own choice: alerts; where they are off | exactly block_quote | block_quote
"> [!TIP]"
quote
  paragraph
    | [!TIP]

own choice: alerts; where quotes are off | exactly alerts | nothing
"> [!NOTE]\n> a"
paragraph
  | > [!NOTE]
  | > a

own choice: alerts; with quotes alone | exactly alerts block_quote | alerts block_quote
"> [!NOTE]\n> a"
alert note
  paragraph
    | a

own choice: alerts; ASCII case is ignored | alerts | alerts block_quote
"> [!NoTe]"
alert note

own choice: alerts; ASCII case is ignored | alerts | alerts block_quote
">[!tIP]"
alert tip

own choice: alerts; ASCII case is ignored | alerts | alerts block_quote
"> [!iMPORTANt]"
alert important

own choice: alerts; ASCII case is ignored | alerts | alerts block_quote
"> [!WARNING]"
alert warning

own choice: alerts; ASCII case is ignored | alerts | alerts block_quote
"> [!cAuTiOn]"
alert caution

own choice: alerts; ASCII case is ignored | alerts | alerts block_quote
"> [!important]\r\n"
alert important

own choice: alerts; ASCII case is ignored | alerts | alerts block_quote
"> [!Warning] \t "
alert warning

own choice: alerts; no kind | alerts | alerts block_quote
"> [!NOTES]"
quote
  paragraph
    | [!NOTES]

own choice: alerts; no kind | alerts | alerts block_quote
"> [!NOT]"
quote
  paragraph
    | [!NOT]

own choice: alerts; no kind | alerts | alerts block_quote
"> [!TIPP]"
quote
  paragraph
    | [!TIPP]

own choice: alerts; no kind | alerts | alerts block_quote
"> [!INFO]"
quote
  paragraph
    | [!INFO]

own choice: alerts; no kind | alerts | alerts block_quote
"> [!DANGER]"
quote
  paragraph
    | [!DANGER]

own choice: alerts; no kind | alerts | alerts block_quote
"> [!]"
quote
  paragraph
    | [!]

own choice: alerts; no kind | alerts | alerts block_quote
"> [!NOTE"
quote
  paragraph
    | [!NOTE

own choice: alerts; no kind | alerts | alerts block_quote
"> [!IMPORTANT\n> ]"
quote
  paragraph
    | [!IMPORTANT
    | ]

own choice: alerts; a marker has no whitespace | alerts | alerts block_quote
"> [! NOTE]"
quote
  paragraph
    | [! NOTE]

own choice: alerts; a marker has no whitespace | alerts | alerts block_quote
"> [!NOTE ]"
quote
  paragraph
    | [!NOTE ]

own choice: alerts; a marker has no whitespace | alerts | alerts block_quote
"> [ !NOTE]"
quote
  paragraph
    | [ !NOTE]

own choice: alerts; a marker has its marks | alerts | alerts block_quote
"> [NOTE]"
quote
  paragraph
    | [NOTE]

own choice: alerts; a marker has its marks | alerts | alerts block_quote
"> !NOTE]"
quote
  paragraph
    | !NOTE]

own choice: alerts; a marker has its marks | alerts | alerts block_quote
"> [[!NOTE]]"
quote
  paragraph
    | [[!NOTE]]

own choice: alerts; a marker has its marks | alerts | alerts block_quote
"> \\[!NOTE]"
quote
  paragraph
    | \\[!NOTE]

own choice: alerts; marks have no case | alerts | alerts block_quote
"> {!NOTE}"
quote
  paragraph
    | {!NOTE}

own choice: alerts; marks have no case | alerts | alerts block_quote
"> [\u{1}NOTE]"
quote
  paragraph
    | [\u{1}NOTE]

own choice: alerts; marks have no case | alerts | alerts block_quote
"> [!NOTE}"
quote
  paragraph
    | [!NOTE}

own choice: alerts; other letters have no case | alerts | alerts block_quote
"> [!T\u{130}P]"
quote
  paragraph
    | [!T\u{130}P]

own choice: alerts; other letters have no case | alerts | alerts block_quote
"> [!T\u{131}P]"
quote
  paragraph
    | [!T\u{131}P]

own choice: alerts; text after the marker | alerts | alerts block_quote
"> [!NOTE]."
quote
  paragraph
    | [!NOTE].

own choice: alerts; text after the marker | alerts | alerts block_quote
"> [!NOTE]]"
quote
  paragraph
    | [!NOTE]]

own choice: alerts; text after the marker | alerts | alerts block_quote
"> [!NOTE] [!TIP]"
quote
  paragraph
    | [!NOTE] [!TIP]

own choice: alerts; text after the marker | alerts | alerts block_quote
"> [!NOTE]\\"
quote
  paragraph
    | [!NOTE]\\

own choice: alerts; text after the marker | alerts | alerts block_quote
"> [!NOTE]\u{a0}"
quote
  paragraph
    | [!NOTE]\u{a0}

own choice: alerts; text after the marker | alerts | alerts block_quote
"> [!NOTE]\u{c}"
quote
  paragraph
    | [!NOTE]\u{c}

own choice: alerts; text after the marker | alerts | alerts block_quote
"> [!NOTE]\0"
quote
  paragraph
    | [!NOTE]\0

own choice: alerts; text before the marker | alerts | alerts block_quote
"> \u{feff}[!NOTE]"
quote
  paragraph
    | \u{feff}[!NOTE]

own choice: alerts; text before the marker | alerts | alerts block_quote
"> a [!NOTE]"
quote
  paragraph
    | a [!NOTE]

own choice: alerts; text after the marker | alerts | alerts block_quote definition
"> [!NOTE]: /a"
quote
  definition
    label | !NOTE
    destination | /a
definitions 1
= !note
footnotes 0

own choice: alerts; text after the marker | alerts | alerts block_quote gfm_table
"> [!NOTE] | a\n> -|-"
quote
  table 2
    row
      cell | [!NOTE]
      cell | a
    delimiter | -|-

own choice: alerts; the end of the text after the marker | alerts | alerts block_quote
"> [!NOTE]"
alert note

own choice: alerts; the end of the text after the marker | alerts | alerts block_quote
">[!NOTE]"
alert note

own choice: alerts; the end of the text after the marker | alerts | alerts block_quote
"> [!NOTE]\n"
alert note

own choice: alerts; the end of the text after the marker | alerts | alerts block_quote
"> [!CAUTION]\t"
alert caution

own choice: alerts; the indent of a quote | alerts | alerts block_quote
"   > [!TIP]\n> a"
alert tip
  paragraph
    | a

own choice: alerts; the indent of a quote | alerts | alerts block_quote code_indented
"    > [!TIP]"
code
  | > [!TIP]

own choice: alerts; an indent of any size where indented code is off | exactly alerts block_quote | alerts block_quote
">       [!TIP]"
alert tip

own choice: alerts; an indent of any size where indented code is off | exactly alerts block_quote | alerts block_quote
"     >\t\t[!TIP]\t\n>\t\ta"
alert tip
  paragraph
    | a

own choice: alerts; a tab of which two columns are left | alerts | alerts block_quote
">\t[!NOTE]\n>\ta"
alert note
  paragraph
    | a

own choice: alerts; a tab of which two columns are left, and a space | alerts | alerts block_quote
">\t [!NOTE]"
alert note

own choice: alerts; a tab of which two columns are left, and two spaces | alerts | alerts block_quote code_indented
">\t  [!NOTE]"
quote
  code
    | [!NOTE]

own choice: alerts; a tab of which two columns are left, and another | alerts | alerts block_quote code_indented
">\t\t[!NOTE]"
quote
  code
    |   [!NOTE]

own choice: alerts; a tab of which one column is left | alerts | alerts block_quote
" >\t[!NOTE]"
alert note

own choice: alerts; a tab of which one column is left, and another | alerts | alerts block_quote code_indented
" >\t\t[!NOTE]"
quote
  code
    |  [!NOTE]

own choice: alerts; a tab of which no column is left | alerts | alerts block_quote
"  >\t[!NOTE]"
alert note

own choice: alerts; a tab of which no column is left, and another | alerts | alerts block_quote code_indented
"  >\t\t[!NOTE]"
quote
  code
    | [!NOTE]

own choice: alerts; a tab of which three columns are left | alerts | alerts block_quote
"   >\t[!NOTE]"
alert note

own choice: alerts; a tab of which three columns are left, and a space | alerts | alerts block_quote code_indented
"   >\t [!NOTE]"
quote
  code
    | [!NOTE]

own choice: alerts; a whole tab after the space | alerts | alerts block_quote
"> \t[!NOTE]"
alert note

own choice: alerts; a tab after two spaces | alerts | alerts block_quote
">  \t[!NOTE]"
alert note

own choice: alerts; a tab after three spaces | alerts | alerts block_quote code_indented
">   \t[!NOTE]"
quote
  code
    |   [!NOTE]

own choice: alerts; tabs after the marker | alerts | alerts block_quote
">[!NOTE]\t\t \n> a"
alert note
  paragraph
    | a

own choice: alerts; a cut tab in an item | alerts | alerts block_quote list_item
"-\t>\t[!TIP]\n\t>\ta"
list -
  item
    alert tip
      paragraph
        | a

own choice: alerts; CR ends a line | alerts | alerts block_quote
"> [!NOTE]\r> a\rb"
alert note
  paragraph
    | a
    | b

own choice: alerts; CR LF ends a line | alerts | alerts block_quote
"> [!NOTE]\t\r\n> a\r\n\r\n> b"
alert note
  paragraph
    | a
quote
  paragraph
    | b

own choice: alerts; LF CR ends two lines | alerts | alerts block_quote
"> [!NOTE]\n\r> a"
alert note
quote
  paragraph
    | a

own choice: alerts; CR CR ends two lines | alerts | alerts block_quote
"> [!NOTE]\r\r> [!TIP]\r"
alert note
alert tip

own choice: alerts; a lazy line needs an open paragraph | alerts | alerts block_quote
"> [!NOTE]\n> a\nb"
alert note
  paragraph
    | a
    | b

own choice: alerts; a lazy line needs an open paragraph | alerts | alerts block_quote code_indented
"> [!NOTE]\n    a"
alert note
code
  | a

own choice: alerts; a lazy line needs an open paragraph | alerts | alerts block_quote code_indented
"> [!NOTE]\n    > a"
alert note
code
  | > a

own choice: alerts; a lazy line needs an open paragraph | alerts | alerts block_quote
"> > [!NOTE]\n> a\nb"
quote
  alert note
  paragraph
    | a
    | b

own choice: alerts; a lazy line needs an open paragraph | alerts | alerts block_quote
"> a\n> > [!NOTE]\n> b"
quote
  paragraph
    | a
  alert note
  paragraph
    | b

own choice: alerts; a further line is never asked | alerts | alerts block_quote
">a\n>[!TIP]"
quote
  paragraph
    | a
    | [!TIP]

own choice: alerts; a further line is never asked | alerts | alerts block_quote
">\n >\t[!TIP]\t\n>a"
quote
  paragraph
    | [!TIP]\t
    | a

own choice: alerts; a lazy line is no first line | alerts | alerts block_quote
"> a\n[!NOTE]"
quote
  paragraph
    | a
    | [!NOTE]

own choice: alerts; a lazy line is no first line | alerts | alerts block_quote
"> > a\n> [!NOTE]\n> > b"
quote
  quote
    paragraph
      | a
      | [!NOTE]
      | b

own choice: alerts; its rest is empty, and no text of a heading | alerts | alerts block_quote heading_setext
"> [!CAUTION]\n="
alert caution
paragraph
  | =

own choice: alerts; its rest is empty, and no text of a heading | alerts | alerts block_quote heading_setext
"> [!CAUTION]\n> ="
alert caution
  paragraph
    | =

own choice: alerts; a further line is never asked | alerts | alerts block_quote heading_setext
"> a\n> [!CAUTION]\n> ="
quote
  heading 1
    | a
    | [!CAUTION]

own choice: alerts; its rest is empty, and no head of a table | alerts | alerts block_quote gfm_table
"> [!TIP]\n> -|-"
alert tip
  paragraph
    | -|-

own choice: alerts; a break after it | alerts | alerts block_quote thematic_break
"> [!TIP]\n---"
alert tip
break

own choice: alerts; an empty item after it | alerts | alerts block_quote list_item
"> [!TIP]\n-"
alert tip
list -
  item

own choice: alerts; a blank line after it | alerts | alerts block_quote
"> [!TIP]\n>\n> a"
alert tip
  paragraph
    | a

own choice: alerts; a blank line after it | alerts | alerts block_quote
"> [!TIP]\n\n> a"
alert tip
quote
  paragraph
    | a

own choice: alerts; a further line is never asked | alerts | alerts block_quote
">\n> [!TIP]"
quote
  paragraph
    | [!TIP]

own choice: alerts; a further line is never asked | alerts | alerts block_quote
"> [!TIP]\n>\n> [!NOTE]\n> a"
alert tip
  paragraph
    | [!NOTE]
    | a
"##
}
