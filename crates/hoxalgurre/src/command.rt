// The arguments of the program, and what its help says. The manual page is made from the help.

use clap::{Arg, ArgAction, Command};
use std::alloc::{AllocError, Global};

const ABOUT: &str = "Reports what is in Markdown texts.";

const AFTER: &str =
    "Texts are UTF-8, and so are the names of files. Lines and columns count from 1, bytes from 0; a tab
reaches to the next multiple of 4 columns, and every other byte is one column. The JSON is one array
with an object for each file.

Status: 0 where nothing is wrong, 1 where `labels` or `links` has found something, 2 where an argument
or a text is not what the program takes, 3 where memory ran out, 4 where a file cannot be read or the
output not be written. Of several files the highest counts. Where the reader of a pipe has enough,
the program ends without a message, with the status of the files until then.";

const AFTER_HTML: &str =
    "Without `--unsafe` raw HTML is escaped, and a link has no address but with the protocol http, https,
irc, ircs, mailto or xmpp, an image but with http or https. `-c commonmark --unsafe` prints what
`cmark --unsafe` does. Footnotes that are called are at the end. A page has its first heading as its
title, or the name of the file.";

const AFTER_LABELS: &str =
    "A reference is text in brackets that a definition of its label alone would make a link, an image or
the call of a footnote.";

const AFTER_LINKS: &str =
    "A link to `#anchor` is wrong if no heading has that anchor, by the rule of GitHub: the text of the
heading in lower case, with `-` for each space, and without all but letters, marks, digits, `-` and
`_`; the second heading with the same has `-1` after it, the third `-2`. `#` and `#top` lead to the
top. Links in raw HTML are not read.";

const AFTER_TREE: &str =
    "The tree is that of mdast, with an object for each node. Blocks begin with their indent. With
`--format text` each tree is on a line of its own, without the name of the file.";

const SETS: [&str; 4] = ["commonmark", "gfm", "all", "alerts"];

const FORMATS: [&str; 2] = ["text", "json"];

/// The command with its subcommands.
pub(crate) fn command<'a>(alloc: Global) -> Result<Command<'a>, AllocError> {
    Command::new(alloc, "hoxalgurre")
        .version("0.1.0")
        .about(ABOUT)
        .after_help(AFTER)
        .subcommand_required(true)
        .arg_required_else_help(true)
        .subcommand(outline(alloc)?)?
        .subcommand(events(alloc)?)?
        .subcommand(html(alloc)?)?
        .subcommand(headings(alloc)?)?
        .subcommand(labels(alloc)?)?
        .subcommand(task(
            alloc,
            "links",
            "Prints links, images and autolinks, and which lead to no heading",
        )?
        .after_help(AFTER_LINKS))?
        .subcommand(task(alloc, "tree", "Prints the syntax tree as JSON")?.after_help(AFTER_TREE))
}

fn outline<'a>(alloc: Global) -> Result<Command<'a>, AllocError> {
    task(
        alloc,
        "outline",
        "Prints the blocks, each with its line, column and bytes, and their texts",
    )?
    .arg(flag(
        alloc,
        "inlines",
        "Prints what is in paragraphs, headings and cells too",
    ))
}

fn events<'a>(alloc: Global) -> Result<Command<'a>, AllocError> {
    task(
        alloc,
        "events",
        "Prints the events, each with line, column, byte, and the columns of a cut tab",
    )?
    .arg(flag(alloc, "inlines", "Prints those of inline content too"))
}

fn html<'a>(alloc: Global) -> Result<Command<'a>, AllocError> {
    let anchors = flag(
        alloc,
        "anchors",
        "Gives each heading the anchor by which `links` knows it",
    );
    let page = flag(alloc, "page", "Prints a whole page, and not what is in one");
    Ok(
        task(alloc, "html", "Prints the text as HTML")?
            .arg(flag(
                alloc,
                "unsafe",
                "Writes raw HTML as it is, and addresses with any protocol",
            ))?
            .arg(anchors)?
            .arg(page)?
            .after_help(AFTER_HTML),
    )
}

fn headings<'a>(alloc: Global) -> Result<Command<'a>, AllocError> {
    task(
        alloc,
        "headings",
        "Prints a table of contents: each heading with the bytes of its section",
    )?
    .arg(flag(
        alloc,
        "toc",
        "Prints it as a nested list of links in Markdown",
    ))
}

fn labels<'a>(alloc: Global) -> Result<Command<'a>, AllocError> {
    let ignore = Arg::new(alloc, "ignore")
        .long("ignore")
        .value_name("LABEL")
        .action(ArgAction::Append)
        .help("A label that may be undefined, of a footnote with its `^`");
    Ok(
        task(
            alloc,
            "labels",
            "Prints duplicate definitions, references without one, and unused definitions",
        )?
        .arg(flag(
            alloc,
            "shortcuts",
            "Takes `[a]` for a reference too, and not `[a][b]` and `[a][]` alone",
        ))?
        .arg(ignore)?
        .after_help(AFTER_LABELS),
    )
}

/// An argument that is given or not.
fn flag<'a>(alloc: Global, name: &'static str, help: &'static str) -> Arg<'a> {
    Arg::new(alloc, name)
        .long(name)
        .action(ArgAction::SetTrue)
        .help(help)
}

/// A subcommand, with the arguments that all of them have.
fn task<'a>(
    alloc: Global,
    name: &'static str,
    about: &'static str,
) -> Result<Command<'a>, AllocError> {
    let constructs = Arg::new(alloc, "constructs")
        .short('c')
        .long("constructs")
        .value_name("SET")
        .value_parser(SETS.as_slice())
        .default_value("gfm")
        .help("Which constructs are on");
    let frontmatter = flag(alloc, "no-frontmatter", "Reads no frontmatter");
    let format = Arg::new(alloc, "format")
        .short('f')
        .long("format")
        .value_name("FORMAT")
        .value_parser(FORMATS.as_slice())
        .default_value("text")
        .help("How the report is written");
    let files = Arg::new(alloc, "FILE")
        .num_args(0..)
        .help("Files to read; `-`, or none, is the standard input");
    Command::new(alloc, name)
        .about(about)
        .arg(constructs)?
        .arg(frontmatter)?
        .arg(format)?
        .arg(files)
}
