// What was tried, and where a body did not give what it must.

use std::alloc::{AllocError, Global};

/// The list of a report grows no longer after so many bytes.
const LONGEST: usize = 500_000;

/// A count of what was tried, and a readable list of what disagreed.
#[derive(Drop)]
pub struct Report {
    /// How many rows or texts were tried.
    pub tried: u64,
    /// How many of them disagreed.
    pub wrong: u64,
    /// The list of those, as far as it is not too long.
    pub list: String,
}

impl Report {
    /// Nothing tried yet.
    pub fn new(alloc: Global) -> Report {
        Report {
            tried: 0,
            wrong: 0,
            list: String::new(alloc),
        }
    }

    /// Counts one more, and lists it if what came is not what must come and the list does not become too long.
    pub fn add(
        &mut self,
        title: &str,
        text: &str,
        wanted: &str,
        got: &str,
    ) -> Result<(), AllocError> {
        self.tried = self.tried.wrapping_add(1);
        if wanted == got {
            return Ok(());
        }
        self.wrong = self.wrong.wrapping_add(1);
        let written = wanted.len().saturating_add(got.len());
        if self.list.len().saturating_add(written) > LONGEST {
            return Ok(());
        }
        write!(
            self.list,
            "{title}\n{text:?}\nwanted:\n{wanted}\ngot:\n{got}\n"
        )
    }
}
