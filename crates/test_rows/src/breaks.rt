// Rows on thematic breaks and paragraphs (CommonMark 4.1 and 4.8).

/// Rows on thematic breaks and paragraphs (CommonMark 4.1 and 4.8).
pub fn rows() -> &'static str {
    r#"CommonMark 4.1 | commonmark | thematic_break
"***\n---\n___"
break
break
break

CommonMark 4.1 | commonmark | nothing
"+++"
paragraph
  | +++

CommonMark 4.1 | commonmark | nothing
"==="
paragraph
  | ===

CommonMark 4.1 | commonmark | nothing
"--"
paragraph
  | --

CommonMark 4.1 | commonmark | nothing
"**\n__"
paragraph
  | **
  | __

CommonMark 4.1 | commonmark | nothing
"**\n  *a"
paragraph
  | **
  | *a

CommonMark 4.1 | commonmark | thematic_break
" ***\n  ***\n   ***"
break
break
break

CommonMark 4.1 | commonmark | code_indented
"    ***"
code
  | ***

CommonMark 4.1 | commonmark | code_indented
"a\n    ***"
paragraph
  | a
  | ***

CommonMark 4.1 | commonmark | thematic_break
"__________________________"
break

CommonMark 4.1 | commonmark | thematic_break
"- - -"
break

CommonMark 4.1 | commonmark | thematic_break
" **  * ** * ** * **"
break

CommonMark 4.1 | commonmark | thematic_break
"-     -\t  -  \t"
break

CommonMark 4.1 | commonmark | nothing
"_ _ _ a"
paragraph
  | _ _ _ a

CommonMark 4.1 | commonmark | nothing
"a------\n\n---b---"
paragraph
  | a------
paragraph
  | ---b---

CommonMark 4.1 | commonmark | nothing
" *-*"
paragraph
  | *-*

CommonMark 4.1 | commonmark | thematic_break
"a\n\n***"
paragraph
  | a
break

CommonMark 4.1 | commonmark | thematic_break
"a\n***\nb"
paragraph
  | a
break
paragraph
  | b

CommonMark 4.1 | commonmark | heading_setext
"a\n---\nb"
heading 2
  | a
paragraph
  | b

CommonMark 4.1 | commonmark | list_item thematic_break
"- a\n***\n- b"
list -
  item
    paragraph
      | a
break
list -
  item
    paragraph
      | b

CommonMark 4.1 | commonmark | list_item thematic_break
"* a\n* * *\n* b"
list *
  item
    paragraph
      | a
break
list *
  item
    paragraph
      | b

CommonMark 4.1 | commonmark | list_item thematic_break
"- a\n- * * *"
list -
  item
    paragraph
      | a
  item
    break

CommonMark 4.1 | commonmark | thematic_break
"* * *"
break

CommonMark 4.1 | commonmark | thematic_break
"- ---"
break

CommonMark 4.1 | commonmark | list_item thematic_break
"+ ---"
list +
  item
    break

CommonMark 4.1 | commonmark | list_item thematic_break
"- a\n - - -"
list -
  item
    paragraph
      | a
break

CommonMark 4.1 | commonmark | block_quote thematic_break
">---"
quote
  break

CommonMark 4.1 | exactly thematic_break
"a\n---"
paragraph
  | a
break

CommonMark 4.1, own choice: without indented code any indent is small | exactly thematic_break
"     * * *\nb"
break
paragraph
  | b

CommonMark 4.1, own choice: without indented code any indent is small | exactly thematic_break
" \t***"
break

CommonMark 4.1 | exactly thematic_break
"a\r\n\rb"
paragraph
  | a
paragraph
  | b

CommonMark 4.1 | exactly thematic_break
"***\r"
break

CommonMark 4.1 | exactly thematic_break
"\0\n***\n\0"
paragraph
  | \0
break
paragraph
  | \0

own choice: a construct that is off accepts no line | exactly
"***\n\n# a\n> b\n- c\n~~~\n<div>\n==="
paragraph
  | ***
paragraph
  | # a
  | > b
  | - c
  | ~~~
  | <div>
  | ===

CommonMark 4.8 | commonmark | nothing
"a\n\nb"
paragraph
  | a
paragraph
  | b

CommonMark 4.8 | commonmark | nothing
"a\nb\n\nc\nd"
paragraph
  | a
  | b
paragraph
  | c
  | d

CommonMark 4.8 | commonmark | nothing
"a\n\n\nb"
paragraph
  | a
paragraph
  | b

CommonMark 4.8 | commonmark | nothing
"  a\n b"
paragraph
  | a
  | b

CommonMark 4.8 | commonmark | nothing
"a\n             b\n  \t                              c"
paragraph
  | a
  | b
  | c

CommonMark 4.8 | commonmark | nothing
"   a\nb"
paragraph
  | a
  | b

CommonMark 4.8 | commonmark | code_indented
"    a\nb"
code
  | a
paragraph
  | b

CommonMark 4.8, own choice: whitespace at the end of a line stays | commonmark | nothing
"a \nb\t "
paragraph
  | a\u{20}
  | b\t\u{20}

CommonMark 4.8 | commonmark | nothing
"a"
paragraph
  | a

CommonMark 4.8, own choice: whitespace at the end of a line stays | commonmark | nothing
"a "
paragraph
  | a\u{20}

CommonMark 4.8 | commonmark | nothing
"quote\n  | row"
paragraph
  | quote
  | | row

CommonMark 4.1: no underline, but a break | gfm | thematic_break
"a\n- - -"
paragraph
  | a
break

CommonMark 4.1: a break where no text is open | gfm | thematic_break
"---"
break

CommonMark 4.1 | exactly thematic_break
"--\n-- -\n_ _\t_\n* _ *"
paragraph
  | --
break
break
paragraph
  | * _ *
"#
}
