//! The call graph of a program, its shapes, and its model (Wagner and Dean 2001), as code.
//!
//! - Which functions may be called at each site, and which may come to a system call; what the program says of functions, from which
//!   that is made.
//! - The shapes of the functions: what they do of system calls and of calls at sites, read off the typed tree.
//! - The graph of the shapes, and the model.
#![tactic(auto)]

mod arguments;
mod build_error;
mod building;
mod call_sites;
mod callers;
mod calls;
mod candidates;
mod constants;
mod edge;
mod expressions;
mod functions;
mod laying;
mod lists;
mod marks;
mod mention;
mod model;
mod model_functions;
mod naming;
mod nodes;
mod places;
mod programs;
mod reaching;
mod records;
mod saying;
mod sequence;
mod shape;
mod sites;
mod statements;
mod sys_types;
mod taken;
mod types;
mod width;

pub use build_error::BuildError;
pub use building::build;
pub use calls::Calls;
pub use functions::nodes_of;
pub use mention::Mention;
pub use model::model_of_shapes;
pub use programs::shapes_of_functions;
pub use saying::said_in;
pub use shape::Shape;
pub use width::width_of;
