// What the bytes of a page, a path and a time say, by the definitions of the model.
#![tactic(auto)]

pub mod calendar;
pub mod entries;
pub mod kinds;
pub mod names;
pub mod numbers;
pub mod paths;
pub mod times;
pub mod writes;
