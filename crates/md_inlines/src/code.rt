// Code spans (CommonMark 6.1), and math, which is read as they are.
ghost use Rattle.std.specs.Prelude.{◌≡◌, false};
ghost use Rattle.md_inlines.specs.Code as code;

use crate::Raw;
use md_scan::bytes::run_len;

/// How many bytes are before the next run of exactly so many of a byte.
fn before_run(mark: u8, size: usize, text: &[u8]) -> Option<usize>
    ensures { result ≡ code.before_run mark size false text.now }
{
    let mut rest = text;
    while let Some((first, others)) = rest.split_first() {
        if *first == mark {
            let len = run_len(mark, rest);
            if len == size {
                return Some(text.len() - rest.len());
            }
            rest = rest.split_at(len).1;
        } else {
            rest = others;
        }
    }
    None
}

/// The run of this byte that comes first, and what is between it and the next of its size.
#[tactic(auto, unfolding(crate::specs::Code::raw_at))]
pub fn raw_at(mark: u8, text: &[u8]) -> Option<Raw>
    ensures { result ≡ code.raw_at mark text.now }
{
    let size = run_len(mark, text);
    match before_run(mark, size, text.split_at(size).1) {
        Some(inside) => Some(Raw { size, inside }),
        None => None,
    }
}
