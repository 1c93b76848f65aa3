//! The checker: whether a certificate's local conditions hold.
#![tactic(auto)]

mod bounds;
mod building;
mod checking;
mod failures;
mod filling;
mod flow;
mod following;
mod laws;
mod listers;
mod marks;
mod node;
mod packing;
mod reading;
mod successors;
mod verdict;

pub use checking::check;
pub use filling::fill;
pub use laws::{filling_undoes_packing, local_conditions_suffice, yes_exactly_where_local};
pub use node::check_node;
pub use packing::pack;
pub use verdict::{Bound, Place, Refusal, Verdict};
