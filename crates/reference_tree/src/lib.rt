// The line definition as a plain program: slow, ordinary functions, each of which computes one definition of
// `md_meaning`: its grammars (lines, frontmatter, HTML, definitions, tables and alerts), and the trees that they make.
#![tactic(auto)]

pub mod alert;
pub mod blocks;
pub mod close;
pub mod containers;
pub mod definition;
pub mod grouped;
pub mod html;
pub mod labels;
pub mod leaves;
pub mod lines;
pub mod meaning;
pub mod order;
pub mod outline_lines;
pub mod paragraph;
pub mod plain;
pub mod preamble;
pub mod rest;
pub mod state;
pub mod step;
pub mod table;
pub mod tree;
