//! Edits as plans: what an edit removes from a keeper's map and puts into it, and how that is carried out.
#![tactic(auto)]

mod carrying;
mod changing;
mod counting;
mod deleting;
mod differing;
mod inserting;
pub mod laws;
mod neighbours;
mod parting;
mod plan;
mod planting;
mod putting_in;
mod seeking;
mod sites;
mod taking_out;
mod weighing;

pub use carrying::carry_out;
pub use deleting::plan_delete;
pub use inserting::{plan_insert, plan_load, plan_replace};
pub use plan::{EditError, Plan};
