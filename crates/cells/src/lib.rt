// The cells of a line: what its bars part.
//
// A line is split once, in one pass, into the places where its 65 cells start and end; a cell is then a part of the line.
#![tactic(auto)]

mod line;
mod pass;

pub use line::SplitLine;
pub use pass::split;
