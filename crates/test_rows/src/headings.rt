// Rows on headings (CommonMark 4.2 and 4.3).

/// Rows on headings (CommonMark 4.2 and 4.3).
pub fn rows() -> &'static str {
    r########"CommonMark 4.2 | commonmark | heading_atx
"# a\n## b\n### c\n#### d\n##### e\n###### f"
heading 1
  | a
heading 2
  | b
heading 3
  | c
heading 4
  | d
heading 5
  | e
heading 6
  | f

CommonMark 4.2 | commonmark | nothing
"#######  a"
paragraph
  | #######  a

CommonMark 4.2 | commonmark | nothing
"#a"
paragraph
  | #a

CommonMark 4.2 | commonmark | heading_atx
"#"
heading 1

CommonMark 4.2 | commonmark | heading_atx
"# "
heading 1

CommonMark 4.2 | commonmark | nothing
"#5 a\n\n#b"
paragraph
  | #5 a
paragraph
  | #b

CommonMark 4.2 | commonmark | nothing
"#\u{a0}a"
paragraph
  | #\u{a0}a

CommonMark 4.2 | commonmark | nothing
"\\## a"
paragraph
  | \\## a

CommonMark 4.2 | commonmark | heading_atx
"#    a    "
heading 1
  | a

CommonMark 4.2 | commonmark | heading_atx
" # a\n  # b\n   # c"
heading 1
  | a
heading 1
  | b
heading 1
  | c

CommonMark 4.2 | commonmark | code_indented
"    # a"
code
  | # a

CommonMark 4.2 | commonmark | code_indented
"a\n    # b"
paragraph
  | a
  | # b

CommonMark 4.2 | commonmark | heading_atx
"## a ##\n  ###   b    ###"
heading 2
  | a
heading 3
  | b

CommonMark 4.2 | commonmark | heading_atx
"# a ###############\n##### b ##"
heading 1
  | a
heading 5
  | b

CommonMark 4.2 | commonmark | heading_atx
"### a ###     "
heading 3
  | a

CommonMark 4.2 | commonmark | heading_atx
"### a ### b"
heading 3
  | a ### b

CommonMark 4.2 | commonmark | heading_atx
"## a#"
heading 2
  | a#

CommonMark 4.2 | commonmark | heading_atx
"# a \\#"
heading 1
  | a \\#

CommonMark 4.2 | commonmark | heading_atx
"### a \\###\n## b #\\##"
heading 3
  | a \\###
heading 2
  | b #\\##

CommonMark 4.2 | commonmark | heading_atx thematic_break
"***\n## a\n***"
break
heading 2
  | a
break

CommonMark 4.2 | commonmark | heading_atx
"a\n# b\nc"
paragraph
  | a
heading 1
  | b
paragraph
  | c

CommonMark 4.2 | commonmark | heading_atx
"## \n#\n### ###"
heading 2
heading 1
heading 3

CommonMark 4.2 | commonmark | heading_atx
"#\t\n# "
heading 1
heading 1

CommonMark 4.2 | commonmark | heading_atx
"# #\n#  ##\t"
heading 1
heading 1

CommonMark 4.2 | commonmark | heading_atx
"# ##a"
heading 1
  | ##a

CommonMark 4.2 | commonmark | heading_atx
"#\ta ##\t"
heading 1
  | a

CommonMark 4.2 | commonmark | heading_atx
"# a \t#\t"
heading 1
  | a

CommonMark 4.2 | commonmark | heading_atx
"# # a"
heading 1
  | # a

CommonMark 4.2 | commonmark | heading_atx
"# # #"
heading 1
  | #

CommonMark 4.2 | commonmark | heading_atx
"# a # #"
heading 1
  | a #

CommonMark 4.2 | commonmark | heading_atx
"# a #b"
heading 1
  | a #b

CommonMark 4.2 | commonmark | heading_atx
"###### a ###### \t"
heading 6
  | a

CommonMark 4.2 | commonmark | heading_atx list_item
"- # a"
list -
  item
    heading 1
      | a

CommonMark 4.2, own choice: without indented code any indent is small | exactly heading_atx
"     # a"
heading 1
  | a

CommonMark 4.3 | commonmark | heading_setext
"a\n=\n\nb\n--"
heading 1
  | a
heading 2
  | b

CommonMark 4.3 | commonmark | heading_setext thematic_break
"a\n=\n---"
heading 1
  | a
break

CommonMark 4.3 | commonmark | heading_setext
"a\nb\n==="
heading 1
  | a
  | b

CommonMark 4.3, own choice: whitespace at the end of a line stays | commonmark | heading_setext
"  a\n\tb\t\n===="
heading 1
  | a
  | b\t

CommonMark 4.3, own choice: whitespace at the end of a line stays | commonmark | heading_setext
"a \n="
heading 1
  | a\u{20}

CommonMark 4.3 | commonmark | heading_setext
"a\n-------------------------\n\nb\n=========================="
heading 2
  | a
heading 1
  | b

CommonMark 4.3 | commonmark | heading_setext
"   a\n---\n\n  b\n   -----\n\n c\n  ==="
heading 2
  | a
heading 2
  | b
heading 1
  | c

CommonMark 4.3 | commonmark | code_indented thematic_break
"    a\n    ---\n\n    b\n---"
code
  | a
  | ---
  |\u{20}
  | b
break

CommonMark 4.3 | commonmark | heading_setext
"a\n   ----   \t"
heading 2
  | a

CommonMark 4.3 | commonmark | code_indented
"a\n    ---"
paragraph
  | a
  | ---

CommonMark 4.3 | commonmark | thematic_break
"a\n= =\n\nb\n--- -"
paragraph
  | a
  | = =
paragraph
  | b
break

CommonMark 4.3 | commonmark | nothing
"a\n=-\n== b"
paragraph
  | a
  | =-
  | == b

CommonMark 4.3 | commonmark | heading_setext
"a\\\n----"
heading 2
  | a\\

CommonMark 4.3 | commonmark | heading_setext
"`a\n----\n`"
heading 2
  | `a
paragraph
  | `

CommonMark 4.3 | commonmark | block_quote thematic_break
"> a\n---"
quote
  paragraph
    | a
break

CommonMark 4.3 | commonmark | block_quote
"> a\nb\n==="
quote
  paragraph
    | a
    | b
    | ===

CommonMark 4.3 | commonmark | block_quote heading_setext
"> a\n> =\nb"
quote
  heading 1
    | a
paragraph
  | b

CommonMark 4.3 | commonmark | list_item thematic_break
"- a\n---"
list -
  item
    paragraph
      | a
break

CommonMark 4.3 | commonmark | heading_setext
"a\nb\n---"
heading 2
  | a
  | b

CommonMark 4.3 | commonmark | heading_setext thematic_break
"---\na\n---\nb\n---\nc"
break
heading 2
  | a
heading 2
  | b
paragraph
  | c

CommonMark 4.3 | commonmark | nothing
"\n===="
paragraph
  | ====

CommonMark 4.3 | commonmark | thematic_break
"---\n---"
break
break

CommonMark 4.3 | commonmark | code_indented thematic_break
"    a\n---"
code
  | a
break

CommonMark 4.3 | commonmark | heading_setext
"\\> a\n------"
heading 2
  | \\> a

CommonMark 4.3 | commonmark | heading_setext
"a\n\nb\n---\nc"
paragraph
  | a
heading 2
  | b
paragraph
  | c

CommonMark 4.3 | commonmark | thematic_break
"a\nb\n\n---\n\nc"
paragraph
  | a
  | b
break
paragraph
  | c

CommonMark 4.3 | commonmark | thematic_break
"a\nb\n* * *\nc"
paragraph
  | a
  | b
break
paragraph
  | c

CommonMark 4.3 | commonmark | nothing
"a\n\\---"
paragraph
  | a
  | \\---

CommonMark 4.3 | commonmark | heading_setext
"a\n-"
heading 2
  | a

CommonMark 4.3 | commonmark | heading_atx thematic_break
"# a\n---"
heading 1
  | a
break

CommonMark 4.3 | commonmark | heading_setext
"a\n===\n==="
heading 1
  | a
paragraph
  | ===

CommonMark 4.3 | commonmark | heading_setext list_item
"- a\n  ==="
list -
  item
    heading 1
      | a

CommonMark 4.3 | commonmark | list_item
"- a\n==="
list -
  item
    paragraph
      | a
      | ===

CommonMark 4.3 | commonmark | heading_setext list_item
"1. a\n   ---"
list .
  item
    heading 2
      | a

CommonMark 4.3, own choice: without indented code any indent is small | exactly heading_setext
"a\n      ==="
heading 1
  | a

CommonMark 4.3 | exactly heading_setext
"[a]: b\n="
heading 1
  | [a]: b

CommonMark 4.2 | commonmark | heading_atx
"### ###"
heading 3

CommonMark 4.2 | commonmark | heading_atx
"a\n# \u{e9}\nb"
paragraph
  | a
heading 1
  | \u{e9}
paragraph
  | b
"########
}
