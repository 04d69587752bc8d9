// Columns of whitespace (CommonMark 2.2).

ghost use Rattle.std.specs.Prelude.{◌≡◌, ◌+◌, ◌*◌, ◌^◌, ◌≤◌, length};
ghost use Rattle.md_meaning.specs.Rest as rest;

use md_engine::configuration::ParseOptions;

/// The columns of a tab: it reaches to the next multiple of 4.
pub fn tab_columns(column: usize) -> usize
    ensures value { result ≡ rest.tab_columns column }
    ensures low { 1 ≤ result }
    ensures high { result ≤ 4 }
{
    4 - column % 4
}

/// The columns of the spaces and tabs at the front, from this column on.
pub fn white_columns(column: usize, bytes: &[u8]) -> usize
    requires { column + 4 * length bytes.now ≤ 2 ^ 63 }
    ensures value { result ≡ rest.white_columns column bytes.now }
    ensures bound { result ≤ 4 * length bytes.now }
{
    let mut columns = 0;
    for byte in bytes {
        match *byte {
            b'\t' => columns += tab_columns(column + columns),
            b' ' => columns += 1,
            _ => break,
        }
    }
    columns
}

/// Whether an indent of so many columns is small.
pub fn is_small(options: &ParseOptions, columns: usize) -> bool
    ensures { result ≡ rest.is_small options.now columns }
{
    !options.constructs.code_indented || columns <= 3
}
