// Rows on HTML blocks (CommonMark 4.6) of kinds 6 and 7, which begin with a tag and end at a blank line.

/// Rows on HTML blocks (CommonMark 4.6) of kinds 6 and 7, which begin with a tag and end at a blank line.
pub fn rows() -> &'static str {
    r##"CommonMark 4.6, own choice: these two forms of the four names are of kind 7 | commonmark | html_flow
"<pre/>\na"
html
  | <pre/>
  | a

CommonMark 4.6, own choice: these two forms of the four names are of kind 7 | commonmark | html_flow
"</pre>\na\n\nb"
html
  | </pre>
  | a
paragraph
  | b

CommonMark 4.6, own choice: these two forms of the four names are of kind 7 | commonmark | html_flow
"</style >\n\na"
html
  | </style >
paragraph
  | a

CommonMark 4.6, own choice: these two forms of the four names are of kind 7 | commonmark | nothing
"a\n</pre>"
paragraph
  | a
  | </pre>

CommonMark 4.6, own choice: these two forms of the four names are of kind 7 | commonmark | nothing
"a\n<script/>"
paragraph
  | a
  | <script/>

CommonMark 4.6 | commonmark | nothing
"<pre/ >\n\n</pre"
paragraph
  | <pre/ >
paragraph
  | </pre

CommonMark 4.6, kind 6 | commonmark | html_flow
"<div>\na\n\nb"
html
  | <div>
  | a
paragraph
  | b

CommonMark 4.6, kind 6 | commonmark | html_flow
"</div\n# a\n\nb"
html
  | </div
  | # a
paragraph
  | b

CommonMark 4.6, kind 6 | commonmark | html_flow
"<div"
html
  | <div

CommonMark 4.6, kind 6 | commonmark | html_flow
"<DIV\n> a\n\nb"
html
  | <DIV
  | > a
paragraph
  | b

CommonMark 4.6, kind 6 | commonmark | html_flow
"<hr/>*a*\n\n</hr/>*b*"
html
  | <hr/>*a*
html
  | </hr/>*b*

CommonMark 4.6, kind 6 | commonmark | nothing
"<div/\n\n<div*"
paragraph
  | <div/
paragraph
  | <div*

CommonMark 4.6, kind 6 | commonmark | html_flow
"</div / >"
html
  | </div / >

CommonMark 4.6, kind 6 | commonmark | html_flow
"<h1><b\n\n<search>a"
html
  | <h1><b
html
  | <search>a

CommonMark 4.6, kind 6 | commonmark | html_flow
"a\n</p>\nb"
paragraph
  | a
html
  | </p>
  | b

CommonMark 4.6, kind 6 | commonmark | html_flow
"a\n<div>"
paragraph
  | a
html
  | <div>

CommonMark 4.6, kind 6 | commonmark | html_flow
"<div a=\"\nb"
html
  | <div a=\"
  | b

CommonMark 4.6, kind 6 | commonmark | html_flow
"  <div\tx\n    a\n  "
html
  |   <div\tx
  |     a

CommonMark 4.6, kind 6 | commonmark | nothing
"<>\n\n< div>"
paragraph
  | <>
paragraph
  | < div>

CommonMark 4.6, kind 6 | commonmark | block_quote html_flow
"> <div>\n> a\n\nb"
quote
  html
    | <div>
    | a
paragraph
  | b

CommonMark 4.6, kind 6 | commonmark | block_quote html_flow
"> <div>\na"
quote
  html
    | <div>
paragraph
  | a

CommonMark 4.6, kind 6 | commonmark | html_flow list_item
"- <div>\n- a"
list -
  item
    html
      | <div>
  item
    paragraph
      | a

CommonMark 4.6, kind 7 | commonmark | html_flow
"<x>\na\n\nb"
html
  | <x>
  | a
paragraph
  | b

CommonMark 4.6, kind 7 | commonmark | html_flow
"<x a b='c<' d=\"e>\" f=g/>\n\n<x a =\tb/>\n\n<x />"
html
  | <x a b='c<' d=\"e>\" f=g/>
html
  | <x a =\tb/>
html
  | <x />

CommonMark 4.6, kind 7 | commonmark | html_flow
"<x y=/z>\n*"
html
  | <x y=/z>
  | *

CommonMark 4.6, kind 7 | commonmark | html_flow
"<x _a:b.c-d>\n\n<x :e>\n\n<x-1>\n\n</x-1 >"
html
  | <x _a:b.c-d>
html
  | <x :e>
html
  | <x-1>
html
  | </x-1 >

CommonMark 4.6, kind 7 | commonmark | html_flow
"<x>\t \na"
html
  | <x>\t\u{20}
  | a

CommonMark 4.6, kind 7 | commonmark | nothing
"<x> a"
paragraph
  | <x> a

CommonMark 4.6, kind 7 | commonmark | nothing
"a\n<x>"
paragraph
  | a
  | <x>

CommonMark 4.6, kind 7 | commonmark | block_quote html_flow
"> a\n<x>"
quote
  paragraph
    | a
html
  | <x>

CommonMark 4.6, kind 7 | commonmark | html_flow heading_atx
"# a\n<x>"
heading 1
  | a
html
  | <x>

CommonMark 4.6, kind 7 | commonmark | nothing
"<a 1b>"
paragraph
  | <a 1b>

CommonMark 4.6, kind 7 | commonmark | nothing
"<a b=c=d>"
paragraph
  | <a b=c=d>

CommonMark 4.6, kind 7 | commonmark | nothing
"<x a=>\n\n<x a='b'c>\n\n<x a`b>\n\n<x a=b`c>\n\n<x a='b>"
paragraph
  | <x a=>
paragraph
  | <x a='b'c>
paragraph
  | <x a`b>
paragraph
  | <x a=b`c>
paragraph
  | <x a='b>

CommonMark 4.6, kind 7 | commonmark | nothing
"</x a>\n\n</x/>\n\n<1x>\n\n< x>\n\n<x:y>\n\n<x/ >\n\n<x / >"
paragraph
  | </x a>
paragraph
  | </x/>
paragraph
  | <1x>
paragraph
  | < x>
paragraph
  | <x:y>
paragraph
  | <x/ >
paragraph
  | <x / >

CommonMark 4.6, kind 7 | commonmark | nothing
"<x a='b\nc'>"
paragraph
  | <x a='b
  | c'>

CommonMark 4.6, own choice: letters are those of ASCII | commonmark | nothing
"<a \u{e9}>"
paragraph
  | <a \u{e9}>

CommonMark 4.6, own choice: letters are those of ASCII | commonmark | nothing
"<a\u{e9}>"
paragraph
  | <a\u{e9}>

CommonMark 4.6, kind 7 | commonmark | html_flow
"<a b=\u{e9}>"
html
  | <a b=\u{e9}>

CommonMark 4.6, kind 6 | commonmark | html_flow
"<div/>\na\n\n<div\t/ x\n\n<div/x>\n\n<div/ >\n\n<div//>"
html
  | <div/>
  | a
html
  | <div\t/ x
paragraph
  | <div/x>
paragraph
  | <div/ >
paragraph
  | <div//>

CommonMark 4.6, kind 6: its closing tags may have anything after whitespace | commonmark | html_flow
"</div a='b\n>c\n\n</DIV/>\na"
html
  | </div a='b
  | >c
html
  | </DIV/>
  | a

CommonMark 4.6, kind 6: an indent of three columns, and one of four | commonmark | code_indented html_flow
"   <div>\n    a\n\n    <div>\n<b>"
html
  |    <div>
  |     a
code
  | <div>
html
  | <b>

CommonMark 4.6, kind 6: an indent of four columns | commonmark | block_quote code_indented
"    <?>\n\n  \t<!a>\na\n    <hr>\n\n> b\n    <hr>"
code
  | <?>
  |\u{20}
  | <!a>
paragraph
  | a
  | <hr>
quote
  paragraph
    | b
    | <hr>

CommonMark 2.1 and 4.6, kinds 6 and 7 | commonmark | html_flow
"<div\r\r<b>\r\nc\r\n \r<x a=b\r\r\n<x a='b\rc"
html
  | <div
html
  | <b>
  | c
paragraph
  | <x a=b
paragraph
  | <x a='b
  | c

CommonMark 4.6, kind 6: a line that is blank in its container | commonmark | block_quote html_flow list_item
"> <div>\n> \t\n> a\n\n- <div>\n\n  b"
quote
  html
    | <div>
  paragraph
    | a
list -
  item
    html
      | <div>
    paragraph
      | b

CommonMark 2.2 and 4.6, kind 7 | commonmark | block_quote html_flow
">\t<b>\n>\t\ta\n> \tb"
quote
  html
    |   <b>
    |   \ta
    | \tb

CommonMark 4.6, kind 7: an indent of three columns, and one of four | commonmark | block_quote code_indented html_flow
">    <b>\n>     c\n\n>     <d>"
quote
  html
    |    <b>
    |     c
quote
  code
    | <d>

CommonMark 4.6, kind 7 | commonmark | html_flow
"<b>\n---\n# a\n- b\n> c\n    d\n<!--\n\n==="
html
  | <b>
  | ---
  | # a
  | - b
  | > c
  |     d
  | <!--
paragraph
  | ===

CommonMark 4.6, kind 7: after HTML that has ended | commonmark | html_flow
"<!--a-->\n<!--b-->\n</c>\nd"
html
  | <!--a-->
html
  | <!--b-->
html
  | </c>
  | d

CommonMark 4.6, kind 7: against text where all containers went on | commonmark | block_quote
"> a\n> <b>"
quote
  paragraph
    | a
    | <b>

CommonMark 4.6, kind 7: in a container that opens | commonmark | block_quote html_flow list_item
"a\n> <b>\n\n- c\n- <d>\n\n> e\n> > <f>"
paragraph
  | a
quote
  html
    | <b>
list -
  item
    paragraph
      | c
  item
    html
      | <d>
quote
  paragraph
    | e
  quote
    html
      | <f>

CommonMark 5.1 and 4.6, own choice: on a lazy line kind 7 may begin | commonmark | block_quote html_flow
"> > a\n> <b>\n> c\n\nd"
quote
  quote
    paragraph
      | a
  html
    | <b>
    | c
paragraph
  | d

CommonMark 4.6, kind 7: closing tags have no attributes | commonmark | nothing
"</pre a>\n\n</x\ty='z'>\n\n</x /b>"
paragraph
  | </pre a>
paragraph
  | </x\ty='z'>
paragraph
  | </x /b>

CommonMark 4.6, kind 7 | commonmark | html_flow
"<x a='\">' b=\"'\" c=''>\n\n<x a='b' c>\n\n<x a = 'b'\t/>"
html
  | <x a='\">' b=\"'\" c=''>
html
  | <x a='b' c>
html
  | <x a = 'b'\t/>

CommonMark 4.6, kind 7: a slash may be of a value | commonmark | html_flow
"<x a=/>\n\n<x a= />\n\n<x a=b/ >\n\n<x a />"
html
  | <x a=/>
html
  | <x a= />
html
  | <x a=b/ >
html
  | <x a />

CommonMark 4.6, kind 7 | commonmark | nothing
"<x a=b'>\n\n<x a='b''c>\n\n<x 'a'>\n\n<x a='b\"c>\n\n<x a=b\n\n<x a='b'\n\n<x a="
paragraph
  | <x a=b'>
paragraph
  | <x a='b''c>
paragraph
  | <x 'a'>
paragraph
  | <x a='b\"c>
paragraph
  | <x a=b
paragraph
  | <x a='b'
paragraph
  | <x a=

CommonMark 4.6, kind 7 | commonmark | nothing
"<a/b>\n\n< a>\n\n<a:b>\n\n<a.b>\n\n<a_b>\n\n</ a>\n\n<-a>\n\n<a</>"
paragraph
  | <a/b>
paragraph
  | < a>
paragraph
  | <a:b>
paragraph
  | <a.b>
paragraph
  | <a_b>
paragraph
  | </ a>
paragraph
  | <-a>
paragraph
  | <a</>

own choice: a byte order mark is taken off | commonmark | html_flow
"\u{feff}<b>\na"
html
  | <b>
  | a
"##
}
