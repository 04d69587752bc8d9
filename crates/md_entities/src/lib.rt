// The named character references of HTML (CommonMark 2.5): 2,125 names, and the characters that each represents.
#![tactic(auto)]

ghost use Rattle.std.specs.Prelude.{◌≡◌, ◌<◌, ◌≤◌, ◌==◌, not, length, drop, slice_index, IfSome};
ghost use Rattle.std.specs.List.{prefix_len};
ghost use Rattle.std.specs.Ordering.{nat_cmp};
ghost use Rattle.std.specs.Cmp.Lexicographic.{slice_cmp};
ghost use Rattle.md_entities.specs.Names as names;
ghost use Rattle.md_entities.specs.declared.table.TheConstants as table;

mod table;

use crate::table::{FIRST, NAMES, SECOND, STARTS};
use std::cmp::Ordering;

/// What a name represents: a character, or two.
#[derive(Clone, Copy, Debug, PartialEq, Eq)]
pub struct Characters {
    pub first: char,
    pub second: Option<char>,
}

/// How many bytes are before the first `;`.
fn name_len(text: &[u8]) -> usize
    ensures value { result ≡ prefix_len (λ b. not (names.is_semicolon b)) text.now }
    ensures bound { result ≤ length text.now }
{
    text.iter().take_while(|byte| **byte != b';').count()
}

/// The names from this byte on.
fn names_from(start: usize) -> &'static [u8]
    ensures { result.now ≡ drop start table.NAMES }
{
    if start < NAMES.len() {
        NAMES.split_at(start).1
    } else {
        &[]
    }
}

/// The order of the name that starts at this byte of the names, beside another.
fn order(start: u16, name: &[u8]) -> Ordering
    ensures { result ≡ slice_cmp nat_cmp (names.name_from table.NAMES start) name.now }
{
    let text = names_from(usize::from(start));
    text.split_at(name_len(text)).0.cmp(name)
}

/// The place of a name in the table, found by halving.
fn place_of(name: &[u8]) -> Option<usize>
    ensures value { result ≡ names.place_of name.now }
    ensures bound { IfSome result (λ place. place < 2125) }
{
    match STARTS.binary_search_by(|start| order(*start, name)) {
        Ok(place) => Some(place),
        Err(_gap) => None,
    }
}

/// This character, unless it is U+0000.
fn unless_null(c: char) -> Option<char>
    ensures { result ≡ names.unless_null c }
{
    if c == '\0' { None } else { Some(c) }
}

fn first_at(place: usize) -> char
    requires { place < 2125 }
    ensures { result ≡ slice_index table.FIRST place }
{
    FIRST[place]
}

fn second_at(place: usize) -> char
    requires { place < 2125 }
    ensures { result ≡ slice_index table.SECOND place }
{
    SECOND[place]
}

/// The characters of the name at this place.
fn characters_at(place: usize) -> Characters
    requires { place < 2125 }
    ensures { result ≡ names.characters_at place }
{
    let first = first_at(place);
    let second = unless_null(second_at(place));
    Characters { first, second }
}

/// Whether this is a name, without its `&` and `;`.
#[tactic(auto, unfolding(crate::specs::Names::is_name))]
pub fn is_name(name: &[u8]) -> bool
    ensures { result ≡ names.is_name name.now }
{
    place_of(name).is_some()
}

/// What a name represents, without its `&` and `;`; none if it is no name.
#[tactic(auto, unfolding(crate::specs::Names::characters_of))]
pub fn characters_of(name: &[u8]) -> Option<Characters>
    ensures { result ≡ names.characters_of name.now }
{
    match place_of(name) {
        Some(place) => Some(characters_at(place)),
        None => None,
    }
}
