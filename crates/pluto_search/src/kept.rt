//! Why there is no schedule.
use integer_sets::System;
use pluto_systems::Stuck;
use thiserror::Error;

/// Why the order of a kernel is kept.
#[derive(Debug, Drop, Error)]
pub enum Kept {
    /// A question or an elimination stops; never for want of memory.
    #[error("{0}")]
    Stuck(Stuck),
    /// No row and no scalar item goes on. The posed set is that of the next row.
    #[error("no row")]
    NoRow { posed: System },
    /// Two statements of one component are left with equal rows.
    #[error("component {component} has no order")]
    NoOrder { component: usize },
    /// There is no memory.
    #[error("out of memory")]
    NoMemory,
    /// A coefficient or a shift of a row, counted from 1 among the items, is above 4,096.
    #[error("row {row} is too large")]
    Large { row: usize },
}
