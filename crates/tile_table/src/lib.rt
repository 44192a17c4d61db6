//! A table of a kernel's statements, made once for a run: for each access of each statement a form that tells the number
//! of the cell from the turns of an instance, and its right side as straight-line code, in which each affine part is such
//! a form, so that neither a cell nor a value costs a search for its statement, or the point at which it runs; and desks,
//! on which forms go on along equal steps of the turns by one sum each
//! (F. E. Allen, J. Cocke and K. Kennedy, "Reduction of operator strength", 1981).
//! Promises that the forms tell those numbers modulo 2^64 at all turns, and so exactly at the instances of the walk, that
//! the codes make what the statements store, and that a desk stands at both, instance after instance.
#![tactic(auto)]

mod code;
mod desk;
mod forms;
mod join;
mod lane;
mod loads;
mod numbers;
mod points;
mod table;

pub use code::{Change, Code, Step};
pub use desk::{Desk, MARGIN};
pub use join::{Join, JoinLanes};
pub use lane::Lane;
pub use table::{Row, Table};
