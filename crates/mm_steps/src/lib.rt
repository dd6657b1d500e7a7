// Steps that are counted in proofs, and cost nothing when they run.
#![tactic(auto)]

mod steps;

pub use steps::Steps;
