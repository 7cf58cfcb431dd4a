//! The cells of an object of the C profile as its initialiser gives them (C99 6.7.8), over what its expressions give.
#![tactic(auto)]

mod constants;
mod scalars;
mod slots;
mod stores;
mod strings;
mod zeros;

pub use c_check_values::{
    C3, C7, C8, CheckError, TypedExpression, as_if_assigned, converted_to, is_void, number_of,
    promoted,
};
pub use constants::value_of_number;
pub use scalars::scalar_cells;
pub use slots::{Slots, add_zeros_behind, capacity, slot_at, slots_of_type, takes_list};
pub use stores::stores_of;
pub use strings::array_cells;
pub use zeros::zero_cells;
