// Rows on the parts of link reference definitions (CommonMark 4.7).

/// Rows on the parts of link reference definitions (CommonMark 4.7).
pub fn rows() -> &'static str {
    r#"CommonMark 4.7, labels | commonmark | nothing
"[a] : b\n\n[]: b\n\n[ \t]: b\n\n[a]b]: c\n\n[a[b]: c\n\n[a\\]: b"
paragraph
  | [a] : b
paragraph
  | []: b
paragraph
  | [ \t]: b
paragraph
  | [a]b]: c
paragraph
  | [a[b]: c
paragraph
  | [a\\]: b

CommonMark 4.7, labels | commonmark | definition
"[a\\]b]: c\n[\\[]: d\n[\\\\]: e\n[\\f]: g"
definition
  label | a\\]b
  destination | c
definition
  label | \\[
  destination | d
definition
  label | \\\\
  destination | e
definition
  label | \\f
  destination | g
definitions 4
= a\\]b
= \\[
= \\\\
= \\f
footnotes 0

CommonMark 4.7, labels | commonmark | definition
"[ a  b ]: c\n[d\t\n  e]: f"
definition
  label |  a  b\u{20}
  destination | c
definition
  label | d\t
  label | e
  destination | f
definitions 2
= a b
= d e
footnotes 0

CommonMark 4.7, labels: only spaces, tabs and endings are folded, own choice | commonmark | definition
"[\u{b}]:a"
definition
  label | \u{b}
  destination | a
definitions 1
= \u{b}
footnotes 0

CommonMark 4.7, labels | commonmark | nothing
"[a\n\nb]: c"
paragraph
  | [a
paragraph
  | b]: c

CommonMark 4.7, destinations | commonmark | nothing
"[a]: b c\n\n[a]: b\\ c\n\n[a]: b(c\n\n[a]: b)c\n\n[a]: <b\n\n[a]: <b<c>\n\n[a]: <b\\>"
paragraph
  | [a]: b c
paragraph
  | [a]: b\\ c
paragraph
  | [a]: b(c
paragraph
  | [a]: b)c
paragraph
  | [a]: <b
paragraph
  | [a]: <b<c>
paragraph
  | [a]: <b\\>

CommonMark 4.7, destinations | commonmark | definition
"[a]:b\n[a]: b(c(d)e)\n[a]: b\\(c\n[a]: <b\\>c\\<>\n[a]: b<c\n[a]: b\\"
definition
  label | a
  destination | b
definition
  label | a
  destination | b(c(d)e)
definition
  label | a
  destination | b\\(c
definition
  label | a
  destination | b\\>c\\<
definition
  label | a
  destination | b<c
definition
  label | a
  destination | b\\
definitions 6
= a
= a
= a
= a
= a
= a
footnotes 0

CommonMark 4.7, destinations: control characters end one | commonmark | nothing
"[a]: \u{1}\n\n[a]: b\u{7f}"
paragraph
  | [a]: \u{1}
paragraph
  | [a]: b\u{7f}

CommonMark 4.7, destinations: these are ordinary, own choice | commonmark | definition
"[a]: b\0c\n[d]: \u{a0}"
definition
  label | a
  destination | b\0c
definition
  label | d
  destination | \u{a0}
definitions 2
= a
= d
footnotes 0

CommonMark 4.7, titles | commonmark | nothing
"[a]: b (c(d)\n\n[a]: b 'c'd'\n\n[a]: b 'c\n\n[a]: b (c\\)"
paragraph
  | [a]: b (c(d)
paragraph
  | [a]: b 'c'd'
paragraph
  | [a]: b 'c
paragraph
  | [a]: b (c\\)

CommonMark 4.7, titles: pairs are read from left to right, own choice | commonmark | nothing
"[a]:b '\\'"
paragraph
  | [a]:b '\\'

CommonMark 4.7, titles: pairs are read from left to right, own choice | commonmark | definition
"[a]:b '\\\\'"
definition
  label | a
  destination | b
  title | \\\\
definitions 1
= a
footnotes 0

CommonMark 4.7, titles | commonmark | definition
"[a]: b (c\\(d)\n[a]: b ''\n[a]: b \"'\""
definition
  label | a
  destination | b
  title | c\\(d
definition
  label | a
  destination | b
  title |\u{20}
definition
  label | a
  destination | b
  title | '
definitions 3
= a
= a
= a
footnotes 0

CommonMark 4.7, titles | commonmark | definition
"[a]: b\n'c'\n'd'"
definition
  label | a
  destination | b
  title | c
paragraph
  | 'd'
definitions 1
= a
footnotes 0

CommonMark 4.7, titles | commonmark | definition
"[a]: b\n 'c \n  d' \ne"
definition
  label | a
  destination | b
  title | c\u{20}
  title | d
paragraph
  | e
definitions 1
= a
footnotes 0

CommonMark 4.7, labels: an empty line counts, own choice | commonmark | definition
"[\na]:b"
definition
  label |\u{20}
  label | a
  destination | b
definitions 1
= a
footnotes 0

CommonMark 4.7, labels: an empty line counts, own choice | commonmark | definition
"[a\n]:b"
definition
  label | a
  label |\u{20}
  destination | b
definitions 1
= a
footnotes 0

CommonMark 4.7, titles: an empty line counts, own choice | commonmark | definition
"[a]:b '\na'"
definition
  label | a
  destination | b
  title |\u{20}
  title | a
definitions 1
= a
footnotes 0

CommonMark 4.7, titles: an empty line counts, own choice | commonmark | definition
"[a]:b '\n'"
definition
  label | a
  destination | b
  title |\u{20}
  title |\u{20}
definitions 1
= a
footnotes 0

CommonMark 4.7, labels: late letters are folded, own choice | commonmark | definition
"[\u{1c90}]:b"
definition
  label | \u{1c90}
  destination | b
definitions 1
= \u{10d0}
footnotes 0

CommonMark 4.7, labels: late letters are folded, own choice | commonmark | definition
"[\u{a7c0}]:b"
definition
  label | \u{a7c0}
  destination | b
definitions 1
= \u{a7c1}
footnotes 0

CommonMark 4.7, labels: late letters are folded, own choice | commonmark | definition
"[\u{a7cb}]:b"
definition
  label | \u{a7cb}
  destination | b
definitions 1
= \u{264}
footnotes 0

CommonMark 4.7, labels: late letters are folded, own choice | commonmark | definition
"[\u{ab70}]:b"
definition
  label | \u{ab70}
  destination | b
definitions 1
= \u{13a0}
footnotes 0

CommonMark 4.7, labels: late letters are folded, own choice | commonmark | definition
"[\u{13f8}]:b"
definition
  label | \u{13f8}
  destination | b
definitions 1
= \u{13f0}
footnotes 0

CommonMark 4.7, labels: combining marks stay as they are, own choice | commonmark | definition
"[e\u{301}]:b"
definition
  label | e\u{301}
  destination | b
definitions 1
= e\u{301}
footnotes 0

CommonMark 4.7, destinations: pairs are read from left to right, own choice | commonmark | nothing
"[a]: <b\\>"
paragraph
  | [a]: <b\\>

CommonMark 4.7, destinations: pairs are read from left to right, own choice | commonmark | nothing
"[a]: (\\)"
paragraph
  | [a]: (\\)

CommonMark 4.7, destinations: parentheses are nested, own choice | commonmark | nothing
"[a]:)("
paragraph
  | [a]:)(

CommonMark 4.7, destinations: an ordinary backslash, own choice | commonmark | definition
"[a]: b\\"
definition
  label | a
  destination | b\\
definitions 1
= a
footnotes 0

CommonMark 4.7, destinations: other white space is ordinary, own choice | commonmark | definition
"[a]: \u{a0}"
definition
  label | a
  destination | \u{a0}
definitions 1
= a
footnotes 0

CommonMark 4.7, titles: pairs are read from left to right, own choice | commonmark | nothing
"[a]: b (c\\)"
paragraph
  | [a]: b (c\\)
"#
}
