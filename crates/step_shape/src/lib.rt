// What a step is made of: its shape, its premises and what it cites, checks 12 to 16.
#![tactic(auto)]

mod citations;
mod premises;
mod rule_lines;
mod shape;

pub use citations::check_citation;
pub use premises::take_premises;
pub use rule_lines::{Effect, Names, Shape, shape_of};
pub use shape::misshapen;
