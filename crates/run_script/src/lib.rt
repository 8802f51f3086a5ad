//! The run script: what a run does to a mesh, and which boxes it asks about. And the job that a mesh and a script make.
#![tactic(auto)]

mod check;
mod fault;
mod job;
mod laws;
mod lists;
mod script;
mod turns;

pub use fault::{ScriptFault, ScriptKind};
pub use job::{AreaList, Job, SessionTurn};
pub use laws::{edits_without_fault_are_those_that_fit, turns_have_the_boxes_in_order};
pub use lists::{EditList, ItemList, PlanList, SessionList};
pub use script::{Item, LinedEdit, Plan, Script};

#[cfg(test)]
mod tests;
