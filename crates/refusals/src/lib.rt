//! What refusals tell: definitions alone, which the contracts of all crates cite.
#![tactic(auto)]
