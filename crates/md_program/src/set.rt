// The sets of constructs that the program's argument names.
ghost use Rattle.std.specs.Prelude.{◌≡◌, map, string_bytes};
ghost use Rattle.md_program.specs.Sets.{IsWithoutMdx, options_of, set_asked_for, set_named};

use md_engine::configuration::ParseOptions;

/// A set of constructs.
#[derive(Clone, Copy)]
pub enum Set {
    /// CommonMark alone.
    CommonMark,
    /// CommonMark, footnote definitions and tables.
    Gfm,
    /// All constructs but alerts and those of MDX.
    All,
    /// All constructs but those of MDX.
    Alerts,
}

/// The set that the arguments after the program's name ask for, or `None` where they are unknown.
pub fn asked_for(args: &[String]) -> Option<Set>
    ensures { result ≡ set_asked_for (map string_bytes args.now) }
{
    match args {
        [] => Some(Set::CommonMark),
        [name] => named(name.as_str()),
        _ => None,
    }
}

fn named(name: &str) -> Option<Set>
    ensures { result ≡ set_named name.now }
{
    match name {
        "commonmark" => Some(Set::CommonMark),
        "gfm" => Some(Set::Gfm),
        "all" => Some(Set::All),
        "alerts" => Some(Set::Alerts),
        _ => None,
    }
}

/// The options that a set represents.
pub fn options(set: Set) -> ParseOptions
    ensures value { result ≡ options_of set }
    ensures without_mdx { IsWithoutMdx result }
{
    match set {
        Set::CommonMark => ParseOptions::COMMONMARK,
        Set::Gfm => ParseOptions::GFM,
        Set::All => ParseOptions::ALL,
        Set::Alerts => ParseOptions::ALERTS,
    }
}
