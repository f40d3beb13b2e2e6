// The names of a policy, its constants and verbs: their form (3), and whether one is alike to an earlier one (4).
// That a place is near is about the place, not about the bytes, so each function asks it.
#![tactic(auto)]

pub mod constants;
mod named;
pub mod verbs;
