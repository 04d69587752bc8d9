// Rows on underlines (CommonMark 4.3): in containers, on lazy lines, after other leaves, and where constructs are off.

/// Rows on underlines in containers, on lazy lines, after other leaves, and where constructs are off.
pub fn rows() -> &'static str {
    r##"CommonMark 4.3: an underline holds one kind of marker and nothing else | commonmark | nothing
"a\n---x"
paragraph
  | a
  | ---x

CommonMark 4.3: an underline holds one kind of marker and nothing else | commonmark | nothing
"a\n-x\n=x=\n--- x"
paragraph
  | a
  | -x
  | =x=
  | --- x

CommonMark 2.1 and 4.3: only spaces and tabs may follow the markers | commonmark | nothing
"a\n=\u{a0}\n-\u{c}\n=\0"
paragraph
  | a
  | =\u{a0}
  | -\u{c}
  | =\0

CommonMark 4.3 | commonmark | thematic_break
"a\n- - -"
paragraph
  | a
break

CommonMark 4.3 | commonmark | thematic_break
"a\n--\t-\nb\n==\t="
paragraph
  | a
break
paragraph
  | b
  | ==\t=

CommonMark 4.3 and 5.2 | commonmark | list_item
"a\n- -"
paragraph
  | a
list -
  item
    list -
      item

CommonMark 4.3 and 5.2 | commonmark | list_item
"a\n- ="
paragraph
  | a
list -
  item
    paragraph
      | =

CommonMark 4.3 and 5.2: an empty item interrupts no paragraph | commonmark | heading_setext
"a\n=\t\n\nb\n- \t "
heading 1
  | a
heading 2
  | b

CommonMark 4.3 and 5.2: an empty item interrupts no paragraph | commonmark | heading_setext
"a\n*\n2. b\n="
heading 1
  | a
  | *
  | 2. b

CommonMark 4.3 | commonmark | heading_setext
"=\n=\n\n--\n--"
heading 1
  | =
heading 2
  | --

CommonMark 4.3 | commonmark | code_indented heading_setext
"a\n    # b\n\t> c\n-"
heading 2
  | a
  | # b
  | > c

CommonMark 2.2 and 4.3: an indent of four columns | commonmark | code_indented
"a\n\t=\nb\n  \t-"
paragraph
  | a
  | =
  | b
  | -

CommonMark 2.2 and 4.3 | commonmark | block_quote heading_setext
"> a\n>\t ="
quote
  heading 1
    | a

CommonMark 2.2 and 4.3: an indent of four columns | commonmark | block_quote code_indented
"> a\n>\t  -"
quote
  paragraph
    | a
    | -

CommonMark 2.2 and 4.3: an indent of four columns | commonmark | block_quote code_indented
"> a\n>\t\t=\n>     ---"
quote
  paragraph
    | a
    | =
    | ---

CommonMark 4.3 and 5.1: a lazy line is no underline, of any indent | commonmark | block_quote
"> a\n    ="
quote
  paragraph
    | a
    | =

CommonMark 2.2 and 4.3 | commonmark | heading_setext list_item
"-\ta\n\t="
list -
  item
    heading 1
      | a

CommonMark 2.2 and 4.3 | commonmark | heading_setext list_item
"1. a\n    b\n   \t="
list .
  item
    heading 1
      | a
      | b

CommonMark 4.3 and 5.2: a lazy line is no underline | commonmark | list_item
"-\ta\n  ="
list -
  item
    paragraph
      | a
      | =

CommonMark 4.3 and 5.2 | commonmark | heading_setext list_item
"- a\n     ="
list -
  item
    heading 1
      | a

CommonMark 4.3 and 5.2: an indent of four columns | commonmark | code_indented list_item
"- a\n      ="
list -
  item
    paragraph
      | a
      | =

CommonMark 4.3 and 5.2: an empty item interrupts no paragraph | commonmark | heading_setext list_item
"- a\n  -\n- b\n  ="
list -
  item
    heading 2
      | a
  item
    heading 1
      | b

CommonMark 4.3 and 5.2: an empty item interrupts no paragraph | commonmark | heading_setext list_item
"10) a\n    -"
list )
  item
    heading 2
      | a

CommonMark 4.3 and 5.2 | commonmark | heading_setext list_item
"-\n  a\n  ="
list -
  item
    heading 1
      | a

CommonMark 4.3 and 5.2 | commonmark | list_item
"-\n="
list -
  item
paragraph
  | =

CommonMark 4.3 and 5.2 | commonmark | heading_setext list_item
"- - a\n    =\n  ="
list -
  item
    list -
      item
        heading 1
          | a
    paragraph
      | =

CommonMark 4.3 and 5.2: text may go on lazily before its underline | commonmark | heading_setext list_item
"- a\nb\n  ==="
list -
  item
    heading 1
      | a
      | b

CommonMark 4.3 and 5.2: a heading takes no lazy line | commonmark | heading_setext list_item
"- a\n  =\nb"
list -
  item
    heading 1
      | a
paragraph
  | b

CommonMark 4.3 and 5.1: text may go on lazily before its underline | commonmark | block_quote heading_setext
"> a\nb\n> ---"
quote
  heading 2
    | a
    | b

CommonMark 4.3 and 5.1: text may go on lazily before its underline | commonmark | block_quote heading_setext
"> a\n=\n--\n> ="
quote
  heading 1
    | a
    | =
    | --

CommonMark 4.3 and 5.1: a lazy line is no underline | commonmark | block_quote thematic_break
"> a\nb\n---"
quote
  paragraph
    | a
    | b
break

CommonMark 4.3 and 5.1 | commonmark | block_quote heading_setext
">a\n > b\n  >\tc\n>="
quote
  heading 1
    | a
    | b
    | c

CommonMark 4.3 and 5.1 | commonmark | block_quote heading_setext
"> > a\n>> b\n> > ="
quote
  quote
    heading 1
      | a
      | b

CommonMark 4.3 and 5.1: a lazy line is no underline | commonmark | block_quote
"> > a\n> ="
quote
  quote
    paragraph
      | a
      | =

CommonMark 4.3 and 5.1: a lazy line is no underline | commonmark | block_quote thematic_break
"> > a\n> ---"
quote
  quote
    paragraph
      | a
  break

CommonMark 4.3, 5.1 and 5.2: an empty item interrupts no paragraph | commonmark | block_quote heading_setext
"> a\n> -"
quote
  heading 2
    | a

CommonMark 4.3, 5.1 and 5.2 | commonmark | block_quote list_item
"> > a\n> -"
quote
  quote
    paragraph
      | a
  list -
    item

CommonMark 4.3 and 5.1: an underline in a container of its own | commonmark | block_quote
"a\n> ="
paragraph
  | a
quote
  paragraph
    | =

CommonMark 4.3 and 5.1: an underline in a container of its own | commonmark | block_quote thematic_break
"> a\n> > ---"
quote
  paragraph
    | a
  quote
    break

CommonMark 4.3, 5.1 and 5.2 | commonmark | block_quote heading_setext list_item
"> - a\n>   ="
quote
  list -
    item
      heading 1
        | a

CommonMark 4.3, 5.1 and 5.2: a lazy line is no underline | commonmark | block_quote list_item
"> - a\n> ="
quote
  list -
    item
      paragraph
        | a
        | =

CommonMark 4.3, 5.1 and 5.2 | commonmark | block_quote heading_setext list_item
"- > a\n  > -"
list -
  item
    quote
      heading 2
        | a

CommonMark 4.3, 5.1 and 5.2: a lazy line is no underline | commonmark | block_quote list_item
"- > a\n  ="
list -
  item
    quote
      paragraph
        | a
        | =

CommonMark 4.3, 5.1 and 5.2: an underline in a container of its own | commonmark | block_quote list_item
"- > a\n> ="
list -
  item
    quote
      paragraph
        | a
quote
  paragraph
    | =

CommonMark 4.3 and 5.1 | commonmark | block_quote heading_setext
"> a\n> =\n="
quote
  heading 1
    | a
paragraph
  | =

CommonMark 4.3 and 5.1 | commonmark | block_quote heading_setext thematic_break
"> a\n> -\n---"
quote
  heading 2
    | a
break

CommonMark 4.3 and 5.1: a heading takes no lazy line | commonmark | block_quote heading_setext
"> a\n> ---\nb\n---"
quote
  heading 2
    | a
heading 2
  | b

CommonMark 4.3 | commonmark | nothing
"a\n\n="
paragraph
  | a
paragraph
  | =

CommonMark 4.3 and 5.2 | commonmark | list_item
"a\n\n-"
paragraph
  | a
list -
  item

CommonMark 4.3 | commonmark | heading_setext
"a\n \t\n--\n="
paragraph
  | a
heading 1
  | --

CommonMark 4.3 and 5.1 | commonmark | block_quote
"> a\n>\n> ="
quote
  paragraph
    | a
  paragraph
    | =

CommonMark 4.3 and 5.1 | commonmark | block_quote thematic_break
"> a\n\n> ---"
quote
  paragraph
    | a
quote
  break

CommonMark 4.3 and 5.2 | commonmark | list_item
"- a\n\n  ="
list -
  item
    paragraph
      | a
    paragraph
      | =

CommonMark 4.3 | commonmark | heading_setext
"a\n=\n=\n="
heading 1
  | a
heading 1
  | =

CommonMark 4.3 | commonmark | heading_setext
"a\n=\nb\n-\nc"
heading 1
  | a
heading 2
  | b
paragraph
  | c

CommonMark 4.3 and 5.2: after a heading no paragraph is open | commonmark | heading_setext list_item
"a\n=\n-"
heading 1
  | a
list -
  item

CommonMark 4.3 and 5.2: after a heading no paragraph is open | commonmark | heading_setext list_item
"a\n=\n2. b"
heading 1
  | a
list .
  item
    paragraph
      | b

CommonMark 4.3 and 4.4: after a heading no paragraph is open | commonmark | code_indented heading_setext
"a\n-\n    b"
heading 2
  | a
code
  | b

CommonMark 4.3 and 4.6: after a heading no paragraph is open | commonmark | heading_setext html_flow
"a\n=\n<x>\n="
heading 1
  | a
html
  | <x>
  | =

CommonMark 4.3 and 4.6: the seventh kind interrupts no paragraph | commonmark | heading_setext
"a\n<x>\n---"
heading 2
  | a
  | <x>

CommonMark 4.3 and 4.6 | commonmark | html_flow
"a\n<div>\n-"
paragraph
  | a
html
  | <div>
  | -

CommonMark 4.3 and 4.6 | commonmark | html_flow
"<div>\na\n=\n\n="
html
  | <div>
  | a
  | =
paragraph
  | =

CommonMark 4.3 and 4.6 | commonmark | html_flow thematic_break
"<!-- a -->\n---\n="
html
  | <!-- a -->
break
paragraph
  | =

CommonMark 4.3 and 4.5 | commonmark | code_fenced thematic_break
"```\na\n=\n```\n---\n="
fence `
  | a
  | =
break
paragraph
  | =

CommonMark 4.3 and 4.5 | commonmark | code_fenced heading_setext
"~~~\na\n-\n~~~\n=\n-"
fence ~
  | a
  | -
heading 2
  | =

CommonMark 4.3 and 4.5 | commonmark | code_fenced
"a\n```\n=\n```\n--"
paragraph
  | a
fence `
  | =
paragraph
  | --

CommonMark 4.3, own choice: math between dollars | all | math_flow
"$$\na\n=\n$$\n="
math
  | a
  | =
paragraph
  | =

CommonMark 4.3 and 4.4 | commonmark | code_indented
"    a\n    =\n=\nb"
code
  | a
  | =
paragraph
  | =
  | b

CommonMark 4.3, 4.4 and 5.2 | commonmark | code_indented list_item
"    a\n-"
code
  | a
list -
  item

CommonMark 4.2 and 4.3 | commonmark | heading_atx heading_setext
"# a\n=\n-"
heading 1
  | a
heading 2
  | =

CommonMark 4.1 and 4.3 | commonmark | heading_setext thematic_break
"***\n=\n---"
break
heading 2
  | =

CommonMark 2.1 and 4.3 | commonmark | heading_setext
"a\r\n=\r\nb\r\n---\t\r\n"
heading 1
  | a
heading 2
  | b

CommonMark 2.1 and 4.3 | commonmark | heading_setext
"a\r=\rb\r-"
heading 1
  | a
heading 2
  | b

CommonMark 2.1 and 4.3 | commonmark | nothing
"a\n\r="
paragraph
  | a
paragraph
  | =

CommonMark 2.1, 4.3 and 5.1 | commonmark | block_quote heading_setext
"> a\r\n> b\r\n> -\r\nc"
quote
  heading 2
    | a
    | b
paragraph
  | c

CommonMark 4.3, own choice: a byte order mark is taken off | commonmark | heading_setext
"\u{feff}a\n=\n\nb\n\u{feff}="
heading 1
  | a
paragraph
  | b
  | \u{feff}=

CommonMark 4.3, own choice: without indented code any indent is small | exactly heading_setext thematic_break
"a\n\t---\n\t---"
heading 2
  | a
break

CommonMark 4.3, own choice: without indented code any indent is small | exactly block_quote heading_setext
"> a\n>      -"
quote
  heading 2
    | a

CommonMark 4.3, own choice: without indented code any indent is small | exactly heading_setext list_item
"- a\n        -"
list -
  item
    heading 2
      | a

own choice: a construct that is off accepts no line | exactly heading_setext
"a\n---\n***\n="
heading 2
  | a
heading 1
  | ***

own choice: a construct that is off accepts no line | exactly heading_setext
"# a\n---\n> b\n- c\n="
heading 2
  | # a
heading 1
  | > b
  | - c

own choice: a construct that is off accepts no line | exactly heading_setext
"---\n---\n~~~\n<div>\n="
heading 2
  | ---
heading 1
  | ~~~
  | <div>

own choice: a construct that is off accepts no line | exactly heading_setext
"a\n- - -"
paragraph
  | a
  | - - -

own choice: a construct that is off accepts no line | exactly heading_setext list_item
"a\n- - -"
paragraph
  | a
list -
  item
    list -
      item
        list -
          item

own choice: a construct that is off accepts no line | exactly block_quote heading_setext
"> a\n---"
quote
  paragraph
    | a
    | ---

own choice: a construct that is off accepts no line | exactly heading_setext list_item
"- a\n---"
list -
  item
    paragraph
      | a
      | ---

own choice: a construct that is off accepts no line | exactly heading_setext thematic_break
"# a\nb\n==="
heading 1
  | # a
  | b

own choice: a construct that is off accepts no line | exactly list_item
"a\n-\n="
paragraph
  | a
  | -
  | =

CommonMark 4.3 and 4.7: text may go on lazily before its underline | commonmark | block_quote definition heading_setext
"> [a]: b\nc\n> ="
quote
  definition
    label | a
    destination | b
  heading 1
    | c
definitions 1
= a
footnotes 0

CommonMark 4.3, own choice: footnotes as on GitHub | gfm | gfm_footnote_definition heading_setext
"[^a]: b\n    -"
footnote
  label | a
  heading 2
    | b
definitions 0
footnotes 1
= a

CommonMark 4.3, own choice: footnotes as on GitHub | gfm | gfm_footnote_definition
"[^a]: b\n="
footnote
  label | a
  paragraph
    | b
    | =
definitions 0
footnotes 1
= a

CommonMark 4.3 | commonmark | heading_setext
"a\n="
heading 1
  | a

CommonMark 4.3 | commonmark | heading_setext
"a\n  b\n---\nc"
heading 2
  | a
  | b
paragraph
  | c

CommonMark 4.3 and 5.1 | commonmark | block_quote heading_setext
"> a\n> b\n> ="
quote
  heading 1
    | a
    | b

CommonMark 4.3 and 5.1 | commonmark | block_quote heading_setext
">>a\n>>b\n>>-"
quote
  quote
    heading 2
      | a
      | b
"##
}
