//! Loop trees with less in them: bounds and tests lose common factors, loops that run at most once are gone, their
//! value standing in the forms within, turns are taken so many at once where a form is divided, and tests, parts of
//! bounds and pieces that what stands round them implies or denies are left out. Promises that the new tree shows
//! exactly what the old one shows for all parameters in 0..=65536 (C. Bastoul, "Code generation in the polyhedral model
//! is easier than you think", PACT 2004, section 4; C. Chen, "Polyhedra scanning revisited", PLDI 2012, overhead
//! removal).
#![tactic(auto)]

mod asking;
mod context;
mod copies;
mod entering;
mod implied;
mod rows;
mod simplifying;
mod single;
mod trimming;

pub use simplifying::simplified;
