// The library: what C and Rust programs call, and nothing else.
#![tactic(auto)]

mod exports;
