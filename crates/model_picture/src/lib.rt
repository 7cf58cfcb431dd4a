//! The picture of a model as a graph in the DOT language of Graphviz.
#![tactic(auto)]

mod drawing;
mod edges;
mod error;
mod functions;
mod words;

pub use drawing::picture;
pub use error::PictureError;
