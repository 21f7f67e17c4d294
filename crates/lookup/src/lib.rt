// Finding a path, stepping through a directory and reading a file: what stands at a path of an image's tree.
#![tactic(auto)]

mod call;
pub mod finding;
pub mod reading;
pub mod stepping;
pub mod way;
