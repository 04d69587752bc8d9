// Rows on HTML blocks (CommonMark 4.6) of kinds 1 to 5, which end after a text of their own.

/// Rows on HTML blocks (CommonMark 4.6) of kinds 1 to 5, which end after a text of their own.
pub fn rows() -> &'static str {
    r##"CommonMark 4.6, kind 1 | commonmark | html_flow
"<script>\na\n\nb\n</script>\nc"
html
  | <script>
  | a
  |\u{20}
  | b
  | </script>
paragraph
  | c

CommonMark 4.6, kind 1 | commonmark | html_flow
"<style\n  x>\n\na"
html
  | <style
  |   x>
  |\u{20}
  | a

CommonMark 4.6, kind 1 | commonmark | html_flow
"<textarea a\n*b*\n\n</TEXTAREA>c\nd"
html
  | <textarea a
  | *b*
  |\u{20}
  | </TEXTAREA>c
paragraph
  | d

CommonMark 4.6, kind 1 | commonmark | html_flow
"<PRE>a</pre>\nb"
html
  | <PRE>a</pre>
paragraph
  | b

CommonMark 4.6, kind 1 | commonmark | html_flow
"<pre>\n\n</PRE> x\na"
html
  | <pre>
  |\u{20}
  | </PRE> x
paragraph
  | a

CommonMark 4.6, kind 1: any of the four names ends it | commonmark | html_flow
"<script>a</style>\nb"
html
  | <script>a</style>
paragraph
  | b

CommonMark 4.6, kind 1 | commonmark | html_flow
"<prex>\n\na"
html
  | <prex>
paragraph
  | a

CommonMark 4.6, kind 1 | commonmark | html_flow
"a\n<pre>\n</pre>\nb"
paragraph
  | a
html
  | <pre>
  | </pre>
paragraph
  | b

CommonMark 4.6, kind 1 | commonmark | html_flow
"<pre />\n\na"
html
  | <pre />
  |\u{20}
  | a

CommonMark 4.6, kind 2 | commonmark | html_flow
"<!-- a\n\nb --> c\nd"
html
  | <!-- a
  |\u{20}
  | b --> c
paragraph
  | d

CommonMark 4.6, kind 2 | commonmark | html_flow
"<!-->\na"
html
  | <!-->
paragraph
  | a

CommonMark 4.6, kind 2 | commonmark | html_flow
"<!--->\na"
html
  | <!--->
paragraph
  | a

CommonMark 4.6, kind 2 | commonmark | html_flow
"<!--"
html
  | <!--

CommonMark 4.6, kind 2 | commonmark | html_flow
"  <!--x\n  -->"
html
  |   <!--x
  |   -->

CommonMark 4.6, kind 2 | commonmark | html_flow
"<!--\n\n> a"
html
  | <!--
  |\u{20}
  | > a

CommonMark 4.6, kind 2 | commonmark | code_indented
"    <!-- a -->"
code
  | <!-- a -->

CommonMark 4.6, kind 2 | commonmark | html_flow list_item
"- <!--\n\nb"
list -
  item
    html
      | <!--
      |\u{20}
paragraph
  | b

CommonMark 4.6, kind 2 | commonmark | nothing
"<!-a"
paragraph
  | <!-a

CommonMark 4.6, kind 3 | commonmark | html_flow
"<?php\n\na ?>b\nc"
html
  | <?php
  |\u{20}
  | a ?>b
paragraph
  | c

CommonMark 4.6, kind 3 | commonmark | html_flow
"<?>\na"
html
  | <?>
paragraph
  | a

CommonMark 4.6, kind 3 | commonmark | html_flow
"<?\n\n"
html
  | <?
  |\u{20}

CommonMark 4.6, kind 4 | commonmark | html_flow
"<!A\n\n>b\nc"
html
  | <!A
  |\u{20}
  | >b
paragraph
  | c

CommonMark 4.6, kind 4 | commonmark | html_flow
"<!a>\nb"
html
  | <!a>
paragraph
  | b

CommonMark 4.6, kind 4 | commonmark | nothing
"<!1>\n\n<!>"
paragraph
  | <!1>
paragraph
  | <!>

CommonMark 4.6, kind 5 | commonmark | html_flow
"<![CDATA[\na\n\n]] >]]>b\nc"
html
  | <![CDATA[
  | a
  |\u{20}
  | ]] >]]>b
paragraph
  | c

CommonMark 4.6, kind 5 | commonmark | html_flow
"<![CDATA[a]]]>\nb"
html
  | <![CDATA[a]]]>
paragraph
  | b

CommonMark 4.6, kind 5: its letters are capitals | commonmark | nothing
"<![cdata[\n\na"
paragraph
  | <![cdata[
paragraph
  | a

CommonMark 4.6, kind 1: whitespace before the `>` ends nothing | commonmark | html_flow
"<script\na\n</sCript >\nb</script\n>\n</Script>c\nd"
html
  | <script
  | a
  | </sCript >
  | b</script
  | >
  | </Script>c
paragraph
  | d

CommonMark 4.6, kind 1: an end after what only begins like one | commonmark | html_flow
"<pre></</pre>\n<pre><</a</STYLE>\n<pre></prex></pre\n</>\n</script></pre>a\nb"
html
  | <pre></</pre>
html
  | <pre><</a</STYLE>
html
  | <pre></prex></pre
  | </>
  | </script></pre>a
paragraph
  | b

CommonMark 4.6, kind 1 | commonmark | block_quote html_flow
"> <pre>\n>\n> \ta\n> </pre>\n> b"
quote
  html
    | <pre>
    |\u{20}
    | \ta
    | </pre>
  paragraph
    | b

CommonMark 4.6, kind 1: it ends with its container | commonmark | block_quote html_flow
"> <pre>\n\na\n\n> <style>\nb"
quote
  html
    | <pre>
paragraph
  | a
quote
  html
    | <style>
paragraph
  | b

CommonMark 4.6, kind 2 | commonmark | html_flow
"<!---\na--\n>\n->\n--->b\nc"
html
  | <!---
  | a--
  | >
  | ->
  | --->b
paragraph
  | c

CommonMark 4.6, kind 2: it ends with its container | commonmark | block_quote html_flow list_item
"> - <!--\n>\n> -->\na"
quote
  list -
    item
      html
        | <!--
        |\u{20}
  paragraph
    | -->
    | a

CommonMark 4.6, kind 2 | commonmark | html_flow list_item
"-\n  <!--\n\n  a\n\n\tb -->\nc"
list -
  item
    html
      | <!--
      |\u{20}
      | a
      |\u{20}
      |   b -->
paragraph
  | c

CommonMark 2.1 and 4.6, kind 2 | commonmark | html_flow
"<!--\ra\r\n\r-->\rb"
html
  | <!--
  | a
  |\u{20}
  | -->
paragraph
  | b

CommonMark 2.2 and 4.6, kind 2 | commonmark | html_flow list_item
"- <!--\n\ta\n\t\n\t-->b\n  c"
list -
  item
    html
      | <!--
      |   a
      |  \u{20}
      |   -->b
    paragraph
      | c

CommonMark 4.6, kind 3 | commonmark | html_flow
"<?x?>\n<??>\n<?a? >\n?\n>?>\nb"
html
  | <?x?>
html
  | <??>
html
  | <?a? >
  | ?
  | >?>
paragraph
  | b

CommonMark 4.6, kind 3 | commonmark | html_flow list_item
"- <?\n\n  ?>\n  a"
list -
  item
    html
      | <?
      |\u{20}
      | ?>
    paragraph
      | a

CommonMark 4.6, kind 4: it ends with its container, and none opens in it | commonmark | block_quote html_flow list_item
"- <!a\n\n  - b\n> c"
list -
  item
    html
      | <!a
      |\u{20}
      | - b
quote
  paragraph
    | c

CommonMark 4.6, kind 5 | commonmark | html_flow
"<![CDATA[] ]> ]]\n]>\n]]]]>a\n<![CDATA\n\n<![CDATA]>\n\n<! [CDATA[\n\n<![ CDATA["
html
  | <![CDATA[] ]> ]]
  | ]>
  | ]]]]>a
paragraph
  | <![CDATA
paragraph
  | <![CDATA]>
paragraph
  | <! [CDATA[
paragraph
  | <![ CDATA[

CommonMark 4.6, kind 5 | commonmark | html_flow list_item
"1. <![CDATA[\n\n    ]]\n   >\n   ]]>\n   a"
list .
  item
    html
      | <![CDATA[
      |\u{20}
      |  ]]
      | >
      | ]]>
    paragraph
      | a

CommonMark 5.1 and 4.6: each kind on a lazy line | commonmark | block_quote html_flow
"> a\n<pre></pre>\n> b\n<!-->\n> c\n<?>\n> d\n<!e>\n> f\n<![CDATA[]]>\n> g\n<hr>\n\n> h\n</i>"
quote
  paragraph
    | a
html
  | <pre></pre>
quote
  paragraph
    | b
html
  | <!-->
quote
  paragraph
    | c
html
  | <?>
quote
  paragraph
    | d
html
  | <!e>
quote
  paragraph
    | f
html
  | <![CDATA[]]>
quote
  paragraph
    | g
html
  | <hr>
quote
  paragraph
    | h
html
  | </i>

CommonMark 4.6, own choice: letters are those of ASCII | commonmark | nothing
"<\u{17f}cript>\n\n<lin\u{212a}>"
paragraph
  | <\u{17f}cript>
paragraph
  | <lin\u{212a}>
"##
}
