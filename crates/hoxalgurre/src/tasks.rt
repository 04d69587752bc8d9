// The reports of all files, one after another.

ghost use Rattle.markdown_blocks.specs.Parsed.{IsWithoutMdx};

use crate::input::{place_of, read};
use crate::reports::report::{Asked as HtmlAsked, Format, Report, Task, Wish, report_on};
use crate::trouble::Trouble;
use clap::ArgMatches;
use markdown_blocks::configuration::{Constructs, ParseOptions};
use markdown_blocks::parser::MAX_LEN;
use std::io::Write;
use std::str;

/// Why there is no report of a file.
#[derive(Clone, Copy)]
struct Refusal {
    trouble: Trouble,
    /// The line and the column, where it has some.
    place: Option<(usize, usize)>,
}

/// CommonMark with frontmatter.
const COMMONMARK: ParseOptions = ParseOptions {
    constructs: Constructs {
        frontmatter: true,
        ..Constructs::COMMONMARK
    },
};

/// GFM with frontmatter.
const GFM: ParseOptions = ParseOptions {
    constructs: Constructs {
        frontmatter: true,
        ..Constructs::GFM
    },
};

/// All but frontmatter.
const ALL: ParseOptions = ParseOptions {
    constructs: Constructs {
        frontmatter: false,
        ..Constructs::ALL
    },
};

/// Alerts and all but frontmatter.
const ALERTS: ParseOptions = ParseOptions {
    constructs: Constructs {
        frontmatter: false,
        ..Constructs::ALERTS
    },
};

/// The set of constructs of this name, or those of GFM, with frontmatter or without.
fn set_of(name: Option<&str>, has_frontmatter: bool) -> &'static ParseOptions
    ensures { IsWithoutMdx result.now }
{
    match (name, has_frontmatter) {
        (Some("commonmark"), true) => &COMMONMARK,
        (Some("commonmark"), false) => &ParseOptions::COMMONMARK,
        (Some("all"), true) => &ParseOptions::ALL,
        (Some("all"), false) => &ALL,
        (Some("alerts"), true) => &ParseOptions::ALERTS,
        (Some("alerts"), false) => &ALERTS,
        (_, true) => &GFM,
        (_, false) => &ParseOptions::GFM,
    }
}

fn task_of(name: &str) -> Task {
    match name {
        "outline" => Task::Outline,
        "events" => Task::Events,
        "html" => Task::Html,
        "headings" => Task::Headings,
        "links" => Task::Links,
        "tree" => Task::Tree,
        _ => Task::Labels,
    }
}

/// Whether the reports of several files are told apart by lines between them.
fn has_head(task: Task) -> bool {
    !matches!(task, Task::Html | Task::Labels | Task::Tree)
}

/// The report of a file.
fn report_file(rt: &HostRuntime, asked: Asked<'_>, file: &str) -> Result<Report, Refusal> {
    let bytes = match read(rt, file) {
        Ok(bytes) => bytes,
        Err(trouble) => return Err(refused(trouble)),
    };
    if bytes.len() > MAX_LEN {
        return Err(refused(Trouble::TooLong));
    }
    let text = match str::from_utf8(bytes.as_slice()) {
        Ok(text) => text,
        Err(error) => return Err(no_text(bytes.as_slice(), error.valid_up_to())),
    };
    let set = set_of(asked.constructs, asked.has_frontmatter);
    match report_on(rt.alloc(), asked.wish, file, text, set) {
        Ok(report) => Ok(report),
        Err(_) => Err(refused(Trouble::OutOfMemory)),
    }
}

fn refused(trouble: Trouble) -> Refusal {
    Refusal {
        trouble,
        place: None,
    }
}

/// Why bytes are no text: so many are UTF-8.
fn no_text(bytes: &[u8], valid: usize) -> Refusal {
    match bytes {
        [0xff, 0xfe, ..] | [0xfe, 0xff, ..] => refused(Trouble::Utf16),
        _ => Refusal {
            trouble: Trouble::NotUtf8,
            place: Some(place_of(bytes, valid)),
        },
    }
}

/// What is asked of all files.
#[derive(Clone, Copy)]
struct Asked<'a> {
    wish: Wish<'a>,
    constructs: Option<&'a str>,
    has_frontmatter: bool,
    /// Whether a line with the name is before each report.
    has_heads: bool,
}

/// Prints the reports of all files, and says of those that have none why. Answers the status, the highest of all: where
/// nobody reads on, that of the files until then.
pub(crate) fn run_all(
    rt: &HostRuntime,
    name: &str,
    chosen: &ArgMatches<'_>,
) -> Result<u8, Trouble> {
    let files = chosen.get_strs("FILE").unwrap_or(&[]);
    let files = if files.is_empty() { &["-"] } else { files };
    let is_json = chosen.get_str("format") == Some("json");
    let asked = Asked {
        wish: Wish {
            task: task_of(name),
            format: if is_json { Format::Json } else { Format::Text },
            has_inlines: chosen.get_flag("inlines"),
            has_toc: chosen.get_flag("toc"),
            has_shortcuts: chosen.get_flag("shortcuts"),
            ignored: chosen.get_strs("ignore").unwrap_or(&[]),
            html: HtmlAsked {
                is_unsafe: chosen.get_flag("unsafe"),
                has_anchors: chosen.get_flag("anchors"),
                is_page: chosen.get_flag("page"),
            },
        },
        constructs: chosen.get_str("constructs"),
        has_frontmatter: !chosen.get_flag("no-frontmatter"),
        has_heads: files.len() > 1 && !is_json && has_head(task_of(name)),
    };
    let mut status = 0;
    match print_all(rt, asked, files, &mut status) {
        Ok(()) | Err(Trouble::ClosedPipe) => Ok(status),
        Err(trouble) => Err(trouble),
    }
}

/// Prints the reports of all files, those in JSON as an array.
fn print_all(
    rt: &HostRuntime,
    asked: Asked<'_>,
    files: &[&str],
    status: &mut u8,
) -> Result<(), Trouble> {
    let is_json = asked.wish.format == Format::Json;
    let mut is_first = true;
    if is_json {
        print(rt, "[")?;
    }
    for file in files {
        match report_file(rt, asked, file) {
            Ok(report) => {
                *status = (*status).max(if report.findings > 0 { 1 } else { 0 });
                if asked.has_heads {
                    print_head(rt, file)?;
                }
                if is_json && !is_first {
                    print(rt, ",\n")?;
                }
                print_bytes(rt, &report.text)?;
                is_first = false;
            }
            Err(refusal) => {
                say(rt, file, &refusal);
                *status = (*status).max(refusal.trouble.status());
            }
        }
    }
    if is_json {
        print(rt, "]\n")?;
    }
    Ok(())
}

fn print_head(rt: &HostRuntime, file: &str) -> Result<(), Trouble> {
    print(rt, "==> ")?;
    print(rt, file)?;
    print(rt, " <==\n")
}

fn print(rt: &HostRuntime, text: &str) -> Result<(), Trouble> {
    print_bytes(rt, text.as_bytes())
}

fn print_bytes(rt: &HostRuntime, bytes: &[u8]) -> Result<(), Trouble> {
    rt.stdout().write_all(bytes)?;
    Ok(())
}

/// Says why there is no report of a file. Where that cannot be written, nothing else changes.
fn say(rt: &HostRuntime, file: &str, refusal: &Refusal) {
    let reason = refusal.trouble.reason();
    let _said = match refusal.place {
        Some((line, column)) => eprintln!(rt; "hoxalgurre: {file}:{line}:{column}: {reason}"),
        None => eprintln!(rt; "hoxalgurre: {file}: {reason}"),
    };
}
