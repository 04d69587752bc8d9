// Random sets of constructs.

use crate::constructs::{NAMES, switch};
use md_engine::configuration::Constructs;
use rand_core::utils::NextWord;
use rand_pcg::Pcg32;

/// The bits that are read of a word for each construct: it is off where all of them are zero. Here about one in two is.
pub const HALF: u32 = 1;

/// The same, where about one in eight is off.
pub const FEW: u32 = 7;

/// All constructs but those for which these bits of a random word are zero.
pub fn without_some(source: &mut Pcg32, bits: u32) -> Constructs {
    let mut constructs = Constructs::ALERTS;
    for name in &NAMES {
        if source.next_word() & bits == 0 {
            let _ = switch(&mut constructs, name, false);
        }
    }
    constructs
}
