// The text of a file or of the standard input.

use crate::reports::position::Place;
use crate::trouble::Trouble;
use std::fs;
use std::io::{self, Read};

/// The bytes of a file, or of the standard input for `-`.
pub(crate) fn read(rt: &HostRuntime, file: &str) -> Result<Vec<u8>, Trouble> {
    let read = if file == "-" {
        read_stdin(rt)
    } else {
        fs::read(rt, file)
    };
    match read {
        Ok(bytes) => Ok(bytes),
        Err(error) => Err(Trouble::of_read(&error)),
    }
}

fn read_stdin(rt: &HostRuntime) -> io::Result<Vec<u8>> {
    let mut bytes = Vec::new(rt.alloc());
    let _count = rt.stdin().read_to_end(&mut bytes)?;
    Ok(bytes)
}

/// The line and the column of a byte, both from 1: a line ends with a line feed, a carriage return, or both.
pub(crate) fn place_of(bytes: &[u8], at: usize) -> (usize, usize) {
    let mut place = Place::FIRST;
    let mut is_return = false;
    for byte in bytes.iter().take(at) {
        if *byte == b'\n' || *byte == b'\r' {
            if !(is_return && *byte == b'\n') {
                place.line = place.line.saturating_add(1);
            }
            place.column = 1;
        } else {
            place = place.past(*byte);
        }
        is_return = *byte == b'\r';
    }
    (place.line, place.column)
}
