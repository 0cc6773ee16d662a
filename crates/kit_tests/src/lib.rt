//! The tests of the kit: edges, outside numbers, and calls one after another.
#![tactic(auto)]

#[cfg(test)]
mod audits;
#[cfg(test)]
mod box_maps;
#[cfg(test)]
mod cell_maps;
#[cfg(test)]
mod fault_texts;
#[cfg(test)]
mod job_files;
#[cfg(test)]
mod layers_on_plans;
#[cfg(test)]
mod listings_of_plans;
#[cfg(test)]
mod outside;
#[cfg(test)]
mod points;
#[cfg(test)]
mod step_maps;
#[cfg(test)]
mod surveys;
