// A night's cases in one call: the pairs that say where the files are, with check 33, and the files one after the other.
#![tactic(auto)]

mod files;
mod pairs;

pub use files::check_night;
