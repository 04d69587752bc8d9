// Texts and their HTML, with expected values from the standards (CommonMark 0.31.2, GFM). Footnotes and math are as the
// ported crate writes them.

/// Blocks (CommonMark 4, 5).
pub(crate) const BLOCKS: [(&str, &str); 23] = [
    ("", ""),
    ("\n\n", ""),
    ("a", "<p>a</p>\n"),
    ("a\nb", "<p>a\nb</p>\n"),
    ("  a\n\tb  \n", "<p>a\nb</p>\n"),
    ("a\n\nb", "<p>a</p>\n<p>b</p>\n"),
    ("# a #\n###### b", "<h1>a</h1>\n<h6>b</h6>\n"),
    ("#", "<h1></h1>\n"),
    ("a\nb\n===\nc\n---", "<h1>a\nb</h1>\n<h2>c</h2>\n"),
    ("***\na\n***", "<hr />\n<p>a</p>\n<hr />\n"),
    (
        "    a & b\n\n      c\n",
        "<pre><code>a &amp; b\n\n  c\n</code></pre>\n",
    ),
    (
        "```\n<a>\n\n b\n```\nc",
        "<pre><code>&lt;a&gt;\n\n b\n</code></pre>\n<p>c</p>\n",
    ),
    ("```", "<pre><code></code></pre>\n"),
    ("```\na", "<pre><code>a\n</code></pre>\n"),
    (
        "> ```\n> a\n\nb",
        "<blockquote>\n<pre><code>a\n</code></pre>\n</blockquote>\n<p>b</p>\n",
    ),
    (
        "~~~ a&amp;b\\* c d\n~~~",
        "<pre><code class=\"language-a&amp;b*\"></code></pre>\n",
    ),
    ("[a]: b\n", ""),
    (
        "> a\nb\n\nc",
        "<blockquote>\n<p>a\nb</p>\n</blockquote>\n<p>c</p>\n",
    ),
    (">", "<blockquote>\n</blockquote>\n"),
    (
        "> > a\n> b",
        "<blockquote>\n<blockquote>\n<p>a\nb</p>\n</blockquote>\n</blockquote>\n",
    ),
    ("a\0b", "<p>a\u{fffd}b</p>\n"),
    ("\t\ta", "<pre><code>\ta\n</code></pre>\n"),
    (
        "-\t\ta",
        "<ul>\n<li>\n<pre><code>  a\n</code></pre>\n</li>\n</ul>\n",
    ),
];

/// Lists, tight and loose (CommonMark 5.2, 5.3).
pub(crate) const LISTS: [(&str, &str); 18] = [
    ("- a\n- b", "<ul>\n<li>a</li>\n<li>b</li>\n</ul>\n"),
    (
        "- a\n\n- b",
        "<ul>\n<li>\n<p>a</p>\n</li>\n<li>\n<p>b</p>\n</li>\n</ul>\n",
    ),
    (
        "- a\n\n  b",
        "<ul>\n<li>\n<p>a</p>\n<p>b</p>\n</li>\n</ul>\n",
    ),
    (
        "- a\n  - b\n\n    c\n- d",
        "<ul>\n<li>a\n<ul>\n<li>\n<p>b</p>\n<p>c</p>\n</li>\n</ul>\n</li>\n<li>d</li>\n</ul>\n",
    ),
    (
        "7. a\n8. b",
        "<ol start=\"7\">\n<li>a</li>\n<li>b</li>\n</ol>\n",
    ),
    (
        "1) a\n1. b",
        "<ol>\n<li>a</li>\n</ol>\n<ol>\n<li>b</li>\n</ol>\n",
    ),
    ("0. a", "<ol start=\"0\">\n<li>a</li>\n</ol>\n"),
    ("-\n- a", "<ul>\n<li></li>\n<li>a</li>\n</ul>\n"),
    (
        "- # a\n- > b\n- ```\n  c\n  ```",
        "<ul>\n<li>\n<h1>a</h1>\n</li>\n<li>\n<blockquote>\n<p>b</p>\n</blockquote>\n</li>\n<li>\n<pre><code>c\n<\
            /code></pre>\n</li>\n</ul>\n",
    ),
    (
        "- a\n  > b\n\n  c",
        "<ul>\n<li>\n<p>a</p>\n<blockquote>\n<p>b</p>\n</blockquote>\n<p>c</p>\n</li>\n</ul>\n",
    ),
    (
        "- a\n  > b\n  >\n- c",
        "<ul>\n<li>a\n<blockquote>\n<p>b</p>\n</blockquote>\n</li>\n<li>c</li>\n</ul>\n",
    ),
    (
        "- ```\n\n  ```\n- a",
        "<ul>\n<li>\n<pre><code>\n</code></pre>\n</li>\n<li>a</li>\n</ul>\n",
    ),
    (
        "- a\n\n  [b]: /c\n- d",
        "<ul>\n<li>\n<p>a</p>\n</li>\n<li>\n<p>d</p>\n</li>\n</ul>\n",
    ),
    (
        "1. a\n2. b\n   - c",
        "<ol>\n<li>a</li>\n<li>b\n<ul>\n<li>c</li>\n</ul>\n</li>\n</ol>\n",
    ),
    (
        "> - a\n>\n> - b",
        "<blockquote>\n<ul>\n<li>\n<p>a</p>\n</li>\n<li>\n<p>b</p>\n</li>\n</ul>\n</blockquote>\n",
    ),
    (
        "- - - a",
        "<ul>\n<li>\n<ul>\n<li>\n<ul>\n<li>a</li>\n</ul>\n</li>\n</ul>\n</li>\n</ul>\n",
    ),
    ("- a\nb\n- c", "<ul>\n<li>a\nb</li>\n<li>c</li>\n</ul>\n"),
    (
        "- ***\n- b",
        "<ul>\n<li>\n<hr />\n</li>\n<li>b</li>\n</ul>\n",
    ),
];

/// Escapes, references, code, breaks and what is escaped (CommonMark 2.4, 2.5, 6.1, 6.7).
pub(crate) const TEXTS: [(&str, &str); 26] = [
    ("\\*a\\* \\a \\\\ \\&amp;", "<p>*a* \\a \\ &amp;amp;</p>\n"),
    ("\\<\\>\\\"\\&", "<p>&lt;&gt;&quot;&amp;</p>\n"),
    (
        "a \"b\" & 'c' > d",
        "<p>a &quot;b&quot; &amp; 'c' &gt; d</p>\n",
    ),
    (
        "&lt;&amp;&quot;&copy;&auml;",
        "<p>&lt;&amp;&quot;\u{a9}\u{e4}</p>\n",
    ),
    (
        "&#35; &#1234; &#x22; &#XD06;",
        "<p># \u{4d2} &quot; \u{d06}</p>\n",
    ),
    (
        "&#0; &#x110000; &#xD800;",
        "<p>\u{fffd} \u{fffd} \u{fffd}</p>\n",
    ),
    (
        "&ngE; &NotEqualTilde;",
        "<p>\u{2267}\u{338} \u{2242}\u{338}</p>\n",
    ),
    (
        "&copy &x; &#; &#x; &#87654321;",
        "<p>&amp;copy &amp;x; &amp;#; &amp;#x; &amp;#87654321;</p>\n",
    ),
    ("&#42;a&#42;", "<p>*a*</p>\n"),
    ("&Tab;a", "<p>\ta</p>\n"),
    ("`a`", "<p><code>a</code></p>\n"),
    ("`` a`b ``", "<p><code>a`b</code></p>\n"),
    ("`  a  `", "<p><code> a </code></p>\n"),
    ("`  `", "<p><code>  </code></p>\n"),
    ("` a`", "<p><code> a</code></p>\n"),
    ("`a\n  b\nc `", "<p><code>a b c </code></p>\n"),
    ("`<a>&amp;\\`", "<p><code>&lt;a&gt;&amp;amp;\\</code></p>\n"),
    ("``a`", "<p>``a`</p>\n"),
    (
        "> `a\n> b`",
        "<blockquote>\n<p><code>a b</code></p>\n</blockquote>\n",
    ),
    ("a  \nb", "<p>a<br />\nb</p>\n"),
    ("a\\\nb", "<p>a<br />\nb</p>\n"),
    ("a \nb", "<p>a\nb</p>\n"),
    ("a  ", "<p>a</p>\n"),
    ("a\\", "<p>a\\</p>\n"),
    ("# a  \nb", "<h1>a</h1>\n<p>b</p>\n"),
    ("*a  \nb*", "<p><em>a<br />\nb</em></p>\n"),
];

/// Emphasis (CommonMark 6.2).
pub(crate) const EMPHASIS: [(&str, &str); 12] = [
    (
        "*a* _b_ **c** __d__",
        "<p><em>a</em> <em>b</em> <strong>c</strong> <strong>d</strong></p>\n",
    ),
    ("***a***", "<p><em><strong>a</strong></em></p>\n"),
    ("*a **b** c*", "<p><em>a <strong>b</strong> c</em></p>\n"),
    ("*a*b a_b_c", "<p><em>a</em>b a_b_c</p>\n"),
    ("**a*", "<p>*<em>a</em></p>\n"),
    ("*a**b*", "<p><em>a**b</em></p>\n"),
    ("* a *", "<ul>\n<li>a *</li>\n</ul>\n"),
    ("*a _b* c_", "<p><em>a _b</em> c_</p>\n"),
    ("*a `b*` c*", "<p><em>a <code>b*</code> c</em></p>\n"),
    (
        "# *a*\n\n*b*\n===",
        "<h1><em>a</em></h1>\n<h1><em>b</em></h1>\n",
    ),
    ("*a\nb*", "<p><em>a\nb</em></p>\n"),
    ("****a****", "<p><strong><strong>a</strong></strong></p>\n"),
];

/// Links (CommonMark 6.3, 4.7).
pub(crate) const LINKS: [(&str, &str); 29] = [
    ("[a](b)", "<p><a href=\"b\">a</a></p>\n"),
    ("[a](b \"c\")", "<p><a href=\"b\" title=\"c\">a</a></p>\n"),
    (
        "[a](b 'c \"d\" &amp; \\*')",
        "<p><a href=\"b\" title=\"c &quot;d&quot; &amp; *\">a</a></p>\n",
    ),
    (
        "[a](b (c\nd))",
        "<p><a href=\"b\" title=\"c\nd\">a</a></p>\n",
    ),
    ("[a]()", "<p><a href=\"\">a</a></p>\n"),
    ("[](b)", "<p><a href=\"b\"></a></p>\n"),
    ("[a](<b c>)", "<p><a href=\"b%20c\">a</a></p>\n"),
    (
        "[a](b\\)c&auml;%20%)",
        "<p><a href=\"b)c%C3%A4%20%\">a</a></p>\n",
    ),
    (
        "[a](b&c\"d`e[f\\g)",
        "<p><a href=\"b&amp;c%22d%60e%5Bf%5Cg\">a</a></p>\n",
    ),
    ("[a](b'c)", "<p><a href=\"b&#x27;c\">a</a></p>\n"),
    (
        "[a *b* `c`](d)",
        "<p><a href=\"d\">a <em>b</em> <code>c</code></a></p>\n",
    ),
    ("*[a*](b)", "<p>*<a href=\"b\">a*</a></p>\n"),
    ("[a [b](c) d](e)", "<p>[a <a href=\"c\">b</a> d](e)</p>\n"),
    (
        "[a](b) [c](d)",
        "<p><a href=\"b\">a</a> <a href=\"d\">c</a></p>\n",
    ),
    (
        "[a][b]\n\n[b]: c 'd'",
        "<p><a href=\"c\" title=\"d\">a</a></p>\n",
    ),
    ("[a][]\n\n[A]: c", "<p><a href=\"c\">a</a></p>\n"),
    (
        "[a]\n\n[a]: <c d> \"e&lt;\"",
        "<p><a href=\"c%20d\" title=\"e&lt;\">a</a></p>\n",
    ),
    ("[a]: b\n[a]: c\n\n[a]", "<p><a href=\"b\">a</a></p>\n"),
    (
        "[a][b][c]\n\n[b]: /d\n[c]: /e",
        "<p><a href=\"/d\">a</a><a href=\"/e\">c</a></p>\n",
    ),
    (
        "[a\nb][c  \nd]\n\n[C D]: e",
        "<p><a href=\"e\">a\nb</a></p>\n",
    ),
    (
        "> [a\n> b]\n\n[A B]: c",
        "<blockquote>\n<p><a href=\"c\">a\nb</a></p>\n</blockquote>\n",
    ),
    (
        "> [a]: b\n> 'c\n> d'\n\n[a]",
        "<blockquote>\n</blockquote>\n<p><a href=\"b\" title=\"c\nd\">a</a></p>\n",
    ),
    ("[*a*]\n\n[*a*]: b", "<p><a href=\"b\"><em>a</em></a></p>\n"),
    ("[a\\]b]\n\n[a\\]b]: c", "<p><a href=\"c\">a]b</a></p>\n"),
    ("[a]\n\n[b]: c", "<p>[a]</p>\n"),
    (
        "[\u{c4}]\n\n[\u{e4}]: b",
        "<p><a href=\"b\">\u{c4}</a></p>\n",
    ),
    (
        "[a](/b) [a](#b) [a](?b:c) [a](b/c:d)",
        "<p><a href=\"/b\">a</a> <a href=\"#b\">a</a> <a href=\"?b:c\">a</a> <a href=\"b/c:d\">a</a></p>\n",
    ),
    (
        "- [a]\n- [b]: c\n\n[a]: d",
        "<ul>\n<li><a href=\"d\">a</a></li>\n<li></li>\n</ul>\n",
    ),
    (
        "# [a](b)\n\n[c]: d\n===",
        "<h1><a href=\"b\">a</a></h1>\n<p>===</p>\n",
    ),
];

/// Images: their text is plain (CommonMark 6.4).
pub(crate) const IMAGES: [(&str, &str); 13] = [
    ("![a](b)", "<p><img src=\"b\" alt=\"a\" /></p>\n"),
    (
        "![a](b \"c\")",
        "<p><img src=\"b\" alt=\"a\" title=\"c\" /></p>\n",
    ),
    ("![](b)", "<p><img src=\"b\" alt=\"\" /></p>\n"),
    (
        "![*a* **b** `c` d&amp;\"](e)",
        "<p><img src=\"e\" alt=\"a b c d&amp;&quot;\" /></p>\n",
    ),
    (
        "![a [b](c) d](e)",
        "<p><img src=\"e\" alt=\"a b d\" /></p>\n",
    ),
    (
        "![a ![b](c) d](e 'f')",
        "<p><img src=\"e\" alt=\"a b d\" title=\"f\" /></p>\n",
    ),
    (
        "![a <b@c.d> <ab:c>](e)",
        "<p><img src=\"e\" alt=\"a b@c.d ab:c\" /></p>\n",
    ),
    (
        "![a\nb  \nc](d)",
        "<p><img src=\"d\" alt=\"a b c\" /></p>\n",
    ),
    (
        "![a][b] ![b][] ![b]\n\n[b]: c",
        "<p><img src=\"c\" alt=\"a\" /> <img src=\"c\" alt=\"b\" /> <img src=\"c\" alt=\"b\" /></p>\n",
    ),
    (
        "[![a](b)](c)",
        "<p><a href=\"c\"><img src=\"b\" alt=\"a\" /></a></p>\n",
    ),
    ("![[a](b)](c)", "<p><img src=\"c\" alt=\"a\" /></p>\n"),
    (
        "!\\[a](b) \\![a](b)",
        "<p>![a](b) !<a href=\"b\">a</a></p>\n",
    ),
    ("*![a*](b)", "<p>*<img src=\"b\" alt=\"a*\" /></p>\n"),
];

/// What is not allowed by default: raw HTML (CommonMark 4.6, 6.6) and protocols (6.5).
pub(crate) const SAFE: [(&str, &str); 14] = [
    ("<div>\na\n</div>", "&lt;div&gt;\na\n&lt;/div&gt;\n"),
    ("a <b c=\"d\"> e", "<p>a &lt;b c=&quot;d&quot;&gt; e</p>\n"),
    ("<!-- a -->", "&lt;!-- a --&gt;\n"),
    ("![<b>](c)", "<p><img src=\"c\" alt=\"&lt;b&gt;\" /></p>\n"),
    (
        "<http://a?b=c&d>",
        "<p><a href=\"http://a?b=c&amp;d\">http://a?b=c&amp;d</a></p>\n",
    ),
    ("<a@b.c>", "<p><a href=\"mailto:a@b.c\">a@b.c</a></p>\n"),
    (
        "<http://a\\b>",
        "<p><a href=\"http://a%5Cb\">http://a\\b</a></p>\n",
    ),
    ("<ab:c>", "<p><a href=\"\">ab:c</a></p>\n"),
    (
        "[a](javascript:b) ![c](javascript:d)",
        "<p><a href=\"\">a</a> <img src=\"\" alt=\"c\" /></p>\n",
    ),
    ("[a](java&#115;cript:b)", "<p><a href=\"\">a</a></p>\n"),
    (
        "[a](HTTPS:b) [a](irc:b) [a](mailto:b) [a](xmpp:b)",
        "<p><a href=\"HTTPS:b\">a</a> <a href=\"irc:b\">a</a> <a href=\"mailto:b\">a</a> <a href=\"xmpp:b\">a</a>\
            </p>\n",
    ),
    (
        "![a](http:b) ![a](mailto:b)",
        "<p><img src=\"http:b\" alt=\"a\" /> <img src=\"\" alt=\"a\" /></p>\n",
    ),
    ("[a]\n\n[a]: data:b", "<p><a href=\"\">a</a></p>\n"),
    ("[a](<&#1;javascript:b>)", "<p><a href=\"\">a</a></p>\n"),
];

/// The same where it is allowed.
pub(crate) const DANGEROUS: [(&str, &str); 12] = [
    (
        "<div>\n*a* &amp;\n\n*b*",
        "<div>\n*a* &amp;\n<p><em>b</em></p>\n",
    ),
    ("a <b c=\"d\"> e</b>", "<p>a <b c=\"d\"> e</b></p>\n"),
    ("<!-- a\n\nb -->\nc", "<!-- a\n\nb -->\n<p>c</p>\n"),
    (
        "> <div>\n> a\nb",
        "<blockquote>\n<div>\na\n</blockquote>\n<p>b</p>\n",
    ),
    (
        "- <div>\n\n  a",
        "<ul>\n<li>\n<div>\n<p>a</p>\n</li>\n</ul>\n",
    ),
    ("a <b\n  c> d", "<p>a <b\nc> d</p>\n"),
    ("*a <b c=\"*\"> d*", "<p><em>a <b c=\"*\"> d</em></p>\n"),
    (
        "![<b \"c\">](d)",
        "<p><img src=\"d\" alt=\"&lt;b &quot;c&quot;&gt;\" /></p>\n",
    ),
    ("<ab:c>", "<p><a href=\"ab:c\">ab:c</a></p>\n"),
    (
        "[a](javascript:b)",
        "<p><a href=\"javascript:b\">a</a></p>\n",
    ),
    (
        "a <!-- b --> <?c?> <!D> <![CDATA[e]]>",
        "<p>a <!-- b --> <?c?> <!D> <![CDATA[e]]></p>\n",
    ),
    ("<p>\0", "<p>\u{fffd}\n"),
];

/// Tables (GFM 4.10).
pub(crate) const TABLES: [(&str, &str); 7] = [
    (
        "| a | b |\n|---|:-:|\n| c | d |",
        "<table>\n<thead>\n<tr>\n<th>a</th>\n<th align=\"center\">b</th>\n</tr>\n</thead>\n<tbody>\n<tr>\n<td>c</\
            td>\n<td align=\"center\">d</td>\n</tr>\n</tbody>\n</table>\n",
    ),
    (
        "a|b\n:-|-:",
        "<table>\n<thead>\n<tr>\n<th align=\"left\">a</th>\n<th align=\"right\">b</th>\n</tr>\n</thead>\n</table>\n",
    ),
    (
        "a|b\n-|-\nc\nd|e|f",
        "<table>\n<thead>\n<tr>\n<th>a</th>\n<th>b</th>\n</tr>\n</thead>\n<tbody>\n<tr>\n<td>c</td>\n<td></td>\n<\
            /tr>\n<tr>\n<td>d</td>\n<td>e</td>\n</tr>\n</tbody>\n</table>\n",
    ),
    (
        "|*a*|\n|-|\n|b\\|c|\n|`d\\|e`|",
        "<table>\n<thead>\n<tr>\n<th><em>a</em></th>\n</tr>\n</thead>\n<tbody>\n<tr>\n<td>b|c</td>\n</tr>\n<tr>\n\
            <td><code>d|e</code></td>\n</tr>\n</tbody>\n</table>\n",
    ),
    (
        "|a|\n|-|\n|[b][c]|\n|`\\d`|\n\n[c]: e",
        "<table>\n<thead>\n<tr>\n<th>a</th>\n</tr>\n</thead>\n<tbody>\n<tr>\n<td><a href=\"e\">b</a></td>\n</tr>\
            \n<tr>\n<td><code>\\d</code></td>\n</tr>\n</tbody>\n</table>\n",
    ),
    (
        "> a|b\n> -|-\n\nc",
        "<blockquote>\n<table>\n<thead>\n<tr>\n<th>a</th>\n<th>b</th>\n</tr>\n</thead>\n</table>\n</blockquote>\n\
            <p>c</p>\n",
    ),
    (
        "|a|\n|-|\n||\nb",
        "<table>\n<thead>\n<tr>\n<th>a</th>\n</tr>\n</thead>\n<tbody>\n<tr>\n<td></td>\n</tr>\n<tr>\n<td>b</td>\n\
            </tr>\n</tbody>\n</table>\n",
    ),
];

/// Strikethrough, tasks and addresses (GFM 6.5, 5.3, 6.9).
pub(crate) const GITHUB: [(&str, &str); 11] = [
    ("~a~ ~~b~~", "<p><del>a</del> <del>b</del></p>\n"),
    (
        "~~*a*~~ *~b~*",
        "<p><del><em>a</em></del> <em><del>b</del></em></p>\n",
    ),
    ("![~~a~~](b)", "<p><img src=\"b\" alt=\"a\" /></p>\n"),
    (
        "- [ ] a\n- [x] b\n- [X] *c*",
        "<ul>\n<li><input type=\"checkbox\" disabled=\"\" /> a</li>\n<li><input type=\"checkbox\" disabled=\"\" c\
            hecked=\"\" /> b</li>\n<li><input type=\"checkbox\" disabled=\"\" checked=\"\" /> <em>c</em></li>\n</ul>\
            \n",
    ),
    (
        "1. [x] a\n\n2. [ ] b",
        "<ol>\n<li>\n<p><input type=\"checkbox\" disabled=\"\" checked=\"\" /> a</p>\n</li>\n<li>\n<p><input type\
            =\"checkbox\" disabled=\"\" /> b</p>\n</li>\n</ol>\n",
    ),
    (
        "[ ] a\n\n- b\n\n  [ ] c",
        "<p>[ ] a</p>\n<ul>\n<li>\n<p>b</p>\n<p>[ ] c</p>\n</li>\n</ul>\n",
    ),
    (
        "www.a.co http://b.co/c?d&e a@b.co",
        "<p><a href=\"http://www.a.co\">www.a.co</a> <a href=\"http://b.co/c?d&amp;e\">http://b.co/c?d&amp;e</a> \
            <a href=\"mailto:a@b.co\">a@b.co</a></p>\n",
    ),
    (
        "(https://a.co/b). mailto:a@b.co",
        "<p>(<a href=\"https://a.co/b\">https://a.co/b</a>). <a href=\"mailto:a@b.co\">mailto:a@b.co</a></p>\n",
    ),
    (
        "*www.a.co*",
        "<p><em><a href=\"http://www.a.co\">www.a.co</a></em></p>\n",
    ),
    ("[a@b.co](c)", "<p><a href=\"c\">a@b.co</a></p>\n"),
    (
        "![www.a.co](b)",
        "<p><img src=\"b\" alt=\"www.a.co\" /></p>\n",
    ),
];

/// Footnotes, as on GitHub.
pub(crate) const FOOTNOTES: [(&str, &str); 17] = [
    (
        "[^a]\n\n[^a]: b",
        "<p><sup><a href=\"#user-content-fn-a\" id=\"user-content-fnref-a\" data-footnote-ref=\"\" aria-described\
            by=\"footnote-label\">1</a></sup></p>\n<section data-footnotes=\"\" class=\"footnotes\"><h2 id=\"footnot\
            e-label\" class=\"sr-only\">Footnotes</h2>\n<ol>\n<li id=\"user-content-fn-a\">\n<p>b <a href=\"#user-co\
            ntent-fnref-a\" data-footnote-backref=\"\" aria-label=\"Back to content\" class=\"data-footnote-backref\
            \">\u{21a9}</a></p>\n</li>\n</ol>\n</section>\n",
    ),
    (
        "[^b] [^a]\n\n[^a]: c\n[^b]: d",
        "<p><sup><a href=\"#user-content-fn-b\" id=\"user-content-fnref-b\" data-footnote-ref=\"\" aria-described\
            by=\"footnote-label\">1</a></sup> <sup><a href=\"#user-content-fn-a\" id=\"user-content-fnref-a\" data-f\
            ootnote-ref=\"\" aria-describedby=\"footnote-label\">2</a></sup></p>\n<section data-footnotes=\"\" class\
            =\"footnotes\"><h2 id=\"footnote-label\" class=\"sr-only\">Footnotes</h2>\n<ol>\n<li id=\"user-content-f\
            n-b\">\n<p>d <a href=\"#user-content-fnref-b\" data-footnote-backref=\"\" aria-label=\"Back to content\" \
            class=\"data-footnote-backref\">\u{21a9}</a></p>\n</li>\n<li id=\"user-content-fn-a\">\n<p>c <a href=\"#\
            user-content-fnref-a\" data-footnote-backref=\"\" aria-label=\"Back to content\" class=\"data-footnote-b\
            ackref\">\u{21a9}</a></p>\n</li>\n</ol>\n</section>\n",
    ),
    (
        "[^a] [^a]\n\n[^a]: b",
        "<p><sup><a href=\"#user-content-fn-a\" id=\"user-content-fnref-a\" data-footnote-ref=\"\" aria-described\
            by=\"footnote-label\">1</a></sup> <sup><a href=\"#user-content-fn-a\" id=\"user-content-fnref-a-2\" data\
            -footnote-ref=\"\" aria-describedby=\"footnote-label\">1</a></sup></p>\n<section data-footnotes=\"\" cla\
            ss=\"footnotes\"><h2 id=\"footnote-label\" class=\"sr-only\">Footnotes</h2>\n<ol>\n<li id=\"user-content\
            -fn-a\">\n<p>b <a href=\"#user-content-fnref-a\" data-footnote-backref=\"\" aria-label=\"Back to content\
            \" class=\"data-footnote-backref\">\u{21a9}</a> <a href=\"#user-content-fnref-a-2\" data-footnote-backre\
            f=\"\" aria-label=\"Back to content\" class=\"data-footnote-backref\">\u{21a9}<sup>2</sup></a></p>\n</li\
            >\n</ol>\n</section>\n",
    ),
    (
        "[^a] [^a] [^a-2]\n\n[^a]: b\n\n[^a-2]: c",
        "<p><sup><a href=\"#user-content-fn-a\" id=\"user-content-fnref-a\" data-footnote-ref=\"\" aria-described\
            by=\"footnote-label\">1</a></sup> <sup><a href=\"#user-content-fn-a\" id=\"user-content-fnref-a-02\" dat\
            a-footnote-ref=\"\" aria-describedby=\"footnote-label\">1</a></sup> <sup><a href=\"#user-content-fn-a-2\
            \" id=\"user-content-fnref-a-2\" data-footnote-ref=\"\" aria-describedby=\"footnote-label\">2</a></sup><\
            /p>\n<section data-footnotes=\"\" class=\"footnotes\"><h2 id=\"footnote-label\" class=\"sr-only\">Footno\
            tes</h2>\n<ol>\n<li id=\"user-content-fn-a\">\n<p>b <a href=\"#user-content-fnref-a\" data-footnote-back\
            ref=\"\" aria-label=\"Back to content\" class=\"data-footnote-backref\">\u{21a9}</a> <a href=\"#user-con\
            tent-fnref-a-02\" data-footnote-backref=\"\" aria-label=\"Back to content\" class=\"data-footnote-backre\
            f\">\u{21a9}<sup>2</sup></a></p>\n</li>\n<li id=\"user-content-fn-a-2\">\n<p>c <a href=\"#user-content-f\
            nref-a-2\" data-footnote-backref=\"\" aria-label=\"Back to content\" class=\"data-footnote-backref\">\
            \u{21a9}</a></p>\n</li>\n</ol>\n</section>\n",
    ),
    (
        "[^A]\n\n[^a]: b\n\n[^a]: c",
        "<p><sup><a href=\"#user-content-fn-a\" id=\"user-content-fnref-a\" data-footnote-ref=\"\" aria-described\
            by=\"footnote-label\">1</a></sup></p>\n<section data-footnotes=\"\" class=\"footnotes\"><h2 id=\"footnot\
            e-label\" class=\"sr-only\">Footnotes</h2>\n<ol>\n<li id=\"user-content-fn-a\">\n<p>b <a href=\"#user-co\
            ntent-fnref-a\" data-footnote-backref=\"\" aria-label=\"Back to content\" class=\"data-footnote-backref\
            \">\u{21a9}</a></p>\n</li>\n</ol>\n</section>\n",
    ),
    (
        "[^a]\n\n[^a]: - b",
        "<p><sup><a href=\"#user-content-fn-a\" id=\"user-content-fnref-a\" data-footnote-ref=\"\" aria-described\
            by=\"footnote-label\">1</a></sup></p>\n<section data-footnotes=\"\" class=\"footnotes\"><h2 id=\"footnot\
            e-label\" class=\"sr-only\">Footnotes</h2>\n<ol>\n<li id=\"user-content-fn-a\">\n<ul>\n<li>b</li>\n</ul>\
            \n<a href=\"#user-content-fnref-a\" data-footnote-backref=\"\" aria-label=\"Back to content\" class=\"da\
            ta-footnote-backref\">\u{21a9}</a>\n</li>\n</ol>\n</section>\n",
    ),
    (
        "[^a]\n\n[^a]:\n",
        "<p><sup><a href=\"#user-content-fn-a\" id=\"user-content-fnref-a\" data-footnote-ref=\"\" aria-described\
            by=\"footnote-label\">1</a></sup></p>\n<section data-footnotes=\"\" class=\"footnotes\"><h2 id=\"footnot\
            e-label\" class=\"sr-only\">Footnotes</h2>\n<ol>\n<li id=\"user-content-fn-a\">\n<a href=\"#user-content\
            -fnref-a\" data-footnote-backref=\"\" aria-label=\"Back to content\" class=\"data-footnote-backref\">\
            \u{21a9}</a>\n</li>\n</ol>\n</section>\n",
    ),
    (
        "[^a]\n\n[^a]: b\n\n    c\n\nd",
        "<p><sup><a href=\"#user-content-fn-a\" id=\"user-content-fnref-a\" data-footnote-ref=\"\" aria-described\
            by=\"footnote-label\">1</a></sup></p>\n<p>d</p>\n<section data-footnotes=\"\" class=\"footnotes\"><h2 id\
            =\"footnote-label\" class=\"sr-only\">Footnotes</h2>\n<ol>\n<li id=\"user-content-fn-a\">\n<p>b</p>\n<p>\
            c <a href=\"#user-content-fnref-a\" data-footnote-backref=\"\" aria-label=\"Back to content\" class=\"da\
            ta-footnote-backref\">\u{21a9}</a></p>\n</li>\n</ol>\n</section>\n",
    ),
    ("a\n\n[^a]: b", "<p>a</p>\n"),
    ("[^a]", "<p>[^a]</p>\n"),
    (
        "[^a]\n\n[^a]: b [^b]\n\n[^b]: c [^a]",
        "<p><sup><a href=\"#user-content-fn-a\" id=\"user-content-fnref-a\" data-footnote-ref=\"\" aria-described\
            by=\"footnote-label\">1</a></sup></p>\n<section data-footnotes=\"\" class=\"footnotes\"><h2 id=\"footnot\
            e-label\" class=\"sr-only\">Footnotes</h2>\n<ol>\n<li id=\"user-content-fn-a\">\n<p>b <sup><a href=\"#us\
            er-content-fn-b\" id=\"user-content-fnref-b\" data-footnote-ref=\"\" aria-describedby=\"footnote-label\"\
            >2</a></sup> <a href=\"#user-content-fnref-a\" data-footnote-backref=\"\" aria-label=\"Back to content\" \
            class=\"data-footnote-backref\">\u{21a9}</a> <a href=\"#user-content-fnref-a-2\" data-footnote-backref=\
            \"\" aria-label=\"Back to content\" class=\"data-footnote-backref\">\u{21a9}<sup>2</sup></a></p>\n</li>\
            \n<li id=\"user-content-fn-b\">\n<p>c <sup><a href=\"#user-content-fn-a\" id=\"user-content-fnref-a-2\" \
            data-footnote-ref=\"\" aria-describedby=\"footnote-label\">1</a></sup> <a href=\"#user-content-fnref-b\" \
            data-footnote-backref=\"\" aria-label=\"Back to content\" class=\"data-footnote-backref\">\u{21a9}</a></\
            p>\n</li>\n</ol>\n</section>\n",
    ),
    ("a\n\n[^a]: [^b]\n\n[^b]: c", "<p>a</p>\n"),
    (
        "![[^a]](b)\n\n[^a]: c",
        "<p><img src=\"b\" alt=\"\" /></p>\n",
    ),
    (
        "*[^a]*\n\n[^a]: b",
        "<p><em><sup><a href=\"#user-content-fn-a\" id=\"user-content-fnref-a\" data-footnote-ref=\"\" aria-descr\
            ibedby=\"footnote-label\">1</a></sup></em></p>\n<section data-footnotes=\"\" class=\"footnotes\"><h2 id=\
            \"footnote-label\" class=\"sr-only\">Footnotes</h2>\n<ol>\n<li id=\"user-content-fn-a\">\n<p>b <a href=\
            \"#user-content-fnref-a\" data-footnote-backref=\"\" aria-label=\"Back to content\" class=\"data-footnot\
            e-backref\">\u{21a9}</a></p>\n</li>\n</ol>\n</section>\n",
    ),
    (
        "[^\u{e4}\"%22]\n\n[^\u{e4}\"%22]: b",
        "<p><sup><a href=\"#user-content-fn-%C3%A4%22%2522\" id=\"user-content-fnref-%C3%A4%22%2522\" data-footno\
            te-ref=\"\" aria-describedby=\"footnote-label\">1</a></sup></p>\n<section data-footnotes=\"\" class=\"fo\
            otnotes\"><h2 id=\"footnote-label\" class=\"sr-only\">Footnotes</h2>\n<ol>\n<li id=\"user-content-fn-%C3\
            %A4%22%2522\">\n<p>b <a href=\"#user-content-fnref-%C3%A4%22%2522\" data-footnote-backref=\"\" aria-labe\
            l=\"Back to content\" class=\"data-footnote-backref\">\u{21a9}</a></p>\n</li>\n</ol>\n</section>\n",
    ),
    (
        "> [^a]\n\n[^a]: > b",
        "<blockquote>\n<p><sup><a href=\"#user-content-fn-a\" id=\"user-content-fnref-a\" data-footnote-ref=\"\" \
            aria-describedby=\"footnote-label\">1</a></sup></p>\n</blockquote>\n<section data-footnotes=\"\" class=\
            \"footnotes\"><h2 id=\"footnote-label\" class=\"sr-only\">Footnotes</h2>\n<ol>\n<li id=\"user-content-fn\
            -a\">\n<blockquote>\n<p>b</p>\n</blockquote>\n<a href=\"#user-content-fnref-a\" data-footnote-backref=\"\
            \" aria-label=\"Back to content\" class=\"data-footnote-backref\">\u{21a9}</a>\n</li>\n</ol>\n</section>\
            \n",
    ),
    (
        "|[^a]|\n|-|\n|b|[^c]|\n\n[^a]: d\n[^c]: e",
        "<table>\n<thead>\n<tr>\n<th><sup><a href=\"#user-content-fn-a\" id=\"user-content-fnref-a\" data-footnot\
            e-ref=\"\" aria-describedby=\"footnote-label\">1</a></sup></th>\n</tr>\n</thead>\n<tbody>\n<tr>\n<td>b</\
            td>\n</tr>\n</tbody>\n</table>\n<section data-footnotes=\"\" class=\"footnotes\"><h2 id=\"footnote-label\
            \" class=\"sr-only\">Footnotes</h2>\n<ol>\n<li id=\"user-content-fn-a\">\n<p>d <a href=\"#user-content-f\
            nref-a\" data-footnote-backref=\"\" aria-label=\"Back to content\" class=\"data-footnote-backref\">\
            \u{21a9}</a></p>\n</li>\n</ol>\n</section>\n",
    ),
];

/// Math, frontmatter and alerts, and line endings of the text.
pub(crate) const OTHERS: [(&str, &str); 7] = [
    (
        "$a$ $$ b $$",
        "<p><code class=\"language-math math-inline\">a</code> <code class=\"language-math math-inline\">b</code>\
            </p>\n",
    ),
    (
        "$$\na < b\n$$",
        "<pre><code class=\"language-math math-display\">a &lt; b\n</code></pre>\n",
    ),
    ("---\na: b\n---\n# c", "<h1>c</h1>\n"),
    (
        "> [!NOTE]\n> a",
        "<div class=\"markdown-alert markdown-alert-note\">\n<p class=\"markdown-alert-title\">Note</p>\n<p>a</p>\
            \n</div>\n",
    ),
    (
        "> [!warning]\n> *a*\n>\n> - b",
        "<div class=\"markdown-alert markdown-alert-warning\">\n<p class=\"markdown-alert-title\">Warning</p>\n<p\
            ><em>a</em></p>\n<ul>\n<li>b</li>\n</ul>\n</div>\n",
    ),
    (
        "a\r\nb\r\n\r\n- c",
        "<p>a\r\nb</p>\r\n<ul>\r\n<li>c</li>\r\n</ul>\r\n",
    ),
    (
        "a  \rb\r\r```\rc",
        "<p>a<br />\rb</p>\r<pre><code>c\r</code></pre>\r",
    ),
];
