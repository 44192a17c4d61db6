//! A dimension eliminated with its column, and rows that say less than others.

ghost use Rattle.std.specs.Prelude.{◌<◌};
ghost use Rattle.fm_projection.specs.Projecting.{Drops};

use crate::columns::without_column;
use crate::elimination::eliminate;
use crate::stop::FmStop;
use crate::tightest::tightened;
use integer_sets::System;
use std::alloc::Global;

/// The system without a dimension and its column; of rows with the same coefficients the tightest stays.
///
/// # Errors
/// Those of `eliminate` of the dimension.
pub fn without(alloc: Global, system: &System, dimension: usize) -> Result<System, FmStop>
    requires { dimension < system.now.dimensions }
    ensures { Drops dimension system.now result }
{
    match eliminate(alloc, system, dimension) {
        Err(stop) => Err(stop),
        Ok(left) => match without_column(alloc, &left, dimension) {
            Err(_) => Err(FmStop::NoMemory),
            Ok(narrow) => match tightened(alloc, narrow) {
                Err(_) => Err(FmStop::NoMemory),
                Ok(tight) => Ok(tight),
            },
        },
    }
}
