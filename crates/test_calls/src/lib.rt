//! Tests of calls that take memory, run with ample memory against answers from outside or worked out by hand: of the
//! numeric crates and the planner, of the crates that read and write texts, and of whole calls of `polypar` by several
//! workers and over streams that fail. They stand in a crate of their own since a crate with tests is proved twice.
#![tactic(auto)]

#[cfg(test)]
mod cells;
#[cfg(test)]
mod commands;
#[cfg(test)]
mod conflicts;
#[cfg(test)]
mod error_texts;
#[cfg(test)]
mod expressions;
#[cfg(test)]
mod failing;
#[cfg(test)]
mod forms;
#[cfg(test)]
mod generated;
#[cfg(test)]
mod kernels;
#[cfg(test)]
mod loop_trees;
#[cfg(test)]
mod made;
#[cfg(test)]
mod outside_systems;
#[cfg(test)]
mod planning;
#[cfg(test)]
mod ports;
#[cfg(test)]
mod posed;
#[cfg(test)]
mod projections;
#[cfg(test)]
mod sets;
#[cfg(test)]
mod solver;
#[cfg(test)]
mod steps;
#[cfg(test)]
mod texts;
#[cfg(test)]
mod trees;
#[cfg(test)]
mod workers;
