// Tables: their rows, read a line at a time.
#![tactic(auto)]

pub mod cells;
pub mod delimiter;
pub mod gfm_table;
pub mod giving;
pub mod heads;
pub mod parts;
pub mod row;
pub mod row_words;
pub mod tables;
