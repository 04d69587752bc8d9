// Rows on link reference definitions (CommonMark 4.7).

/// Rows on link reference definitions (CommonMark 4.7).
pub fn rows() -> &'static str {
    r##"CommonMark 4.7 | commonmark | definition
"[a]: /u \"t\"\n\n[a]"
definition
  label | a
  destination | /u
  title | t
paragraph
  | [a]
definitions 1
= a
footnotes 0

CommonMark 4.7 | commonmark | definition
"   [a]: \n      /u  \n           't'  \n\n[a]"
definition
  label | a
  destination | /u
  title | t
paragraph
  | [a]
definitions 1
= a
footnotes 0

CommonMark 4.7 | commonmark | definition
"[a b*]:\n<c d>\n't'"
definition
  label | a b*
  destination | c d
  title | t
definitions 1
= a b*
footnotes 0

CommonMark 4.7, own choice: an empty line of a title counts | commonmark | definition
"[a]: /u '\nx\ny\n'\n"
definition
  label | a
  destination | /u
  title |\u{20}
  title | x
  title | y
  title |\u{20}
definitions 1
= a
footnotes 0

CommonMark 4.7 | commonmark | nothing
"[a]: /u 't\n\nb'"
paragraph
  | [a]: /u 't
paragraph
  | b'

CommonMark 4.7 | commonmark | definition
"[a]:\n/u"
definition
  label | a
  destination | /u
definitions 1
= a
footnotes 0

CommonMark 4.7 | commonmark | nothing
"[a]:\n\n[b]:  \n\nc"
paragraph
  | [a]:
paragraph
  | [b]: \u{20}
paragraph
  | c

CommonMark 4.7 | commonmark | definition
"[a]: <>"
definition
  label | a
  destination |\u{20}
definitions 1
= a
footnotes 0

CommonMark 4.7 | commonmark | nothing
"[a]: <b>(c)"
paragraph
  | [a]: <b>(c)

CommonMark 4.7, own choice: texts are not decoded | commonmark | definition
"[a]: /u\\b*c&amp; \"d\\\"e\\f\""
definition
  label | a
  destination | /u\\b*c&amp;
  title | d\\\"e\\f
definitions 1
= a
footnotes 0

CommonMark 4.7 | commonmark | definition
"[a]\n\n[A]: b"
paragraph
  | [a]
definition
  label | A
  destination | b
definitions 1
= a
footnotes 0

CommonMark 4.7 | commonmark | definition
"[a]: b\n[a]: c"
definition
  label | a
  destination | b
definition
  label | a
  destination | c
definitions 2
= a
= a
footnotes 0

CommonMark 4.7 | commonmark | definition
"[\u{391}\u{393}\u{3a9}]: /\u{3c6}"
definition
  label | \u{391}\u{393}\u{3a9}
  destination | /\u{3c6}
definitions 1
= \u{3b1}\u{3b3}\u{3c9}
footnotes 0

CommonMark 4.7 | commonmark | definition
"[A]: x\n[\u{df}]: y 'z'\n\n[a]"
definition
  label | A
  destination | x
definition
  label | \u{df}
  destination | y
  title | z
paragraph
  | [a]
definitions 2
= a
= ss
footnotes 0

CommonMark 4.7 | commonmark | definition
"[\u{1e9e}]: x\n[SS]: y"
definition
  label | \u{1e9e}
  destination | x
definition
  label | SS
  destination | y
definitions 2
= ss
= ss
footnotes 0

CommonMark 4.7 | commonmark | definition
"[\na\n]: /u\nb"
definition
  label |\u{20}
  label | a
  label |\u{20}
  destination | /u
paragraph
  | b
definitions 1
= a
footnotes 0

CommonMark 4.7 | commonmark | nothing
"[a]: /u \"t\" b"
paragraph
  | [a]: /u \"t\" b

CommonMark 4.7 | commonmark | definition
"[a]: /u\n\"t\" b"
definition
  label | a
  destination | /u
paragraph
  | \"t\" b
definitions 1
= a
footnotes 0

CommonMark 4.7 | commonmark | definition
"[a]: b\n'c' d"
definition
  label | a
  destination | b
paragraph
  | 'c' d
definitions 1
= a
footnotes 0

CommonMark 4.7 | commonmark | nothing
"[a]: b 'c' d"
paragraph
  | [a]: b 'c' d

CommonMark 4.7 | commonmark | code_indented
"    [a]: b"
code
  | [a]: b

CommonMark 4.7 | commonmark | code_fenced
"```\n[a]: b\n```"
fence `
  | [a]: b

CommonMark 4.7 | commonmark | nothing
"a\n[b]: c"
paragraph
  | a
  | [b]: c

CommonMark 4.7 | commonmark | heading_atx definition block_quote
"# [a]\n[a]: b\n> c"
heading 1
  | [a]
definition
  label | a
  destination | b
quote
  paragraph
    | c
definitions 1
= a
footnotes 0

CommonMark 4.7 | commonmark | definition heading_setext
"[a]: b\nc\n==="
definition
  label | a
  destination | b
heading 1
  | c
definitions 1
= a
footnotes 0

CommonMark 4.7 | commonmark | definition heading_setext
"[a]: b\n=\nc\n="
definition
  label | a
  destination | b
heading 1
  | =
  | c
definitions 1
= a
footnotes 0

CommonMark 4.7, own choice: an underline below definitions alone is a line | commonmark | definition heading_setext
"[a]: b\n---"
definition
  label | a
  destination | b
paragraph
  | ---
definitions 1
= a
footnotes 0

CommonMark 4.7 | commonmark | definition heading_setext
"[a]: b\n=\n[c]: d"
definition
  label | a
  destination | b
paragraph
  | =
  | [c]: d
definitions 1
= a
footnotes 0

CommonMark 4.7 | commonmark | definition heading_setext
"[a]: b\n=\n    c"
definition
  label | a
  destination | b
paragraph
  | =
  | c
definitions 1
= a
footnotes 0

CommonMark 4.7 | commonmark | block_quote definition heading_setext
"> [a]: b\n> =\nc"
quote
  definition
    label | a
    destination | b
  paragraph
    | =
    | c
definitions 1
= a
footnotes 0

CommonMark 4.7 | commonmark | block_quote definition heading_setext
"> [a]: b\n> =\n> c\n> ="
quote
  definition
    label | a
    destination | b
  heading 1
    | =
    | c
definitions 1
= a
footnotes 0

CommonMark 4.7 | commonmark | heading_setext
"[a]:\n="
heading 1
  | [a]:

CommonMark 4.7 | commonmark | definition
"[a]: <b c>\n'x\ny'"
definition
  label | a
  destination | b c
  title | x
  title | y
definitions 1
= a
footnotes 0

CommonMark 4.7 | commonmark | definition
"[a]: b \"c\"\n[d]: e\n  'f'\n[g]: h\n[a]"
definition
  label | a
  destination | b
  title | c
definition
  label | d
  destination | e
  title | f
definition
  label | g
  destination | h
paragraph
  | [a]
definitions 3
= a
= d
= g
footnotes 0

CommonMark 4.7 | commonmark | block_quote definition
"> [a]: b\n\n[a]"
quote
  definition
    label | a
    destination | b
paragraph
  | [a]
definitions 1
= a
footnotes 0

CommonMark 4.7 | commonmark | block_quote definition
"> [a\n> b]: c"
quote
  definition
    label | a
    label | b
    destination | c
definitions 1
= a b
footnotes 0

CommonMark 4.7 | commonmark | block_quote definition
"> [a]: b\nc"
quote
  definition
    label | a
    destination | b
  paragraph
    | c
definitions 1
= a
footnotes 0

CommonMark 4.7 | commonmark | block_quote definition
"> [a]:\nb\n'c"
quote
  definition
    label | a
    destination | b
  paragraph
    | 'c
definitions 1
= a
footnotes 0

CommonMark 4.7 | commonmark | definition list_item
"- [a]: b\n- [c]: d"
list -
  item
    definition
      label | a
      destination | b
  item
    definition
      label | c
      destination | d
definitions 2
= a
= c
footnotes 0

CommonMark 4.7 | commonmark | block_quote list_item definition
"[b][a]\n\n> - [a]: x\n\n[A]: y"
paragraph
  | [b][a]
quote
  list -
    item
      definition
        label | a
        destination | x
definition
  label | A
  destination | y
definitions 2
= a
= a
footnotes 0

CommonMark 4.7 | commonmark | definition
"[a]: b\nc"
definition
  label | a
  destination | b
paragraph
  | c
definitions 1
= a
footnotes 0

CommonMark 4.7 | commonmark | definition
"[a]: b \"c\""
definition
  label | a
  destination | b
  title | c
definitions 1
= a
footnotes 0

CommonMark 4.7 | commonmark | definition
"[a]: <> ''"
definition
  label | a
  destination |\u{20}
  title |\u{20}
definitions 1
= a
footnotes 0

CommonMark 4.7 | commonmark | definition
"[ a\n b]: c"
definition
  label |  a
  label | b
  destination | c
definitions 1
= a b
footnotes 0

CommonMark 4.7 | commonmark | definition
"[a\n  b]:\nc\n'd\n e\n'"
definition
  label | a
  label | b
  destination | c
  title | d
  title | e
  title |\u{20}
definitions 1
= a b
footnotes 0

CommonMark 4.7 and 5.1 | commonmark | block_quote definition
"> [a\n> b]: c\n> 'd\n> e'"
quote
  definition
    label | a
    label | b
    destination | c
    title | d
    title | e
definitions 1
= a b
footnotes 0

CommonMark 4.7 and 5.1 | commonmark | block_quote definition
"> [\n> a\n> ]: b"
quote
  definition
    label |\u{20}
    label | a
    label |\u{20}
    destination | b
definitions 1
= a
footnotes 0

CommonMark 4.7: a label is compared without case and with one space between words | commonmark | definition
"[  \u{1e9e} \t A\nb ]: c"
definition
  label |   \u{1e9e} \t A
  label | b\u{20}
  destination | c
definitions 1
= ss a b
footnotes 0
"##
}
