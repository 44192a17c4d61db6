//! Where the search begins.
ghost use Rattle.std.specs.Prelude.{◌≡◌, [], IfOk, map};
ghost use Rattle.null_space.specs.Narrowing.{kernel_vectors};
ghost use Rattle.schedule_rows.specs.Outcomes.{state};
ghost use Rattle.pluto_search.specs.steps.Steps.{state_of, IsOf};
ghost use Rattle.pluto_search.specs.Searching.{AreBetween};

use crate::state::{Progress, Search};
use iteration_domains::Dep;
use null_space::{Rows, kernel_vectors};
use std::alloc::{AllocError, Global};

/// The units of each statement's loops.
fn first_vectors(alloc: Global, search: &Search) -> Result<Vec<Rows>, AllocError>
    ensures { IfOk result (λ vs. map (λ v. map (λ u. u.items) v.items) vs.items
        ≡ map (λ l. kernel_vectors l []) search.now.loops.now) }
{
    let loops = search.loops;
    let mut vectors = Vec::new(alloc);
    for at in 0..loops.len() {
        let units = kernel_vectors(alloc, loops[at], &[])?;
        vectors.push(units)?;
    }
    Ok(vectors)
}

/// Nothing is done yet.
pub fn begin<'a>(
    alloc: Global,
    search: &'a Search<'a>,
    taken: Vec<Dep>,
) -> Result<Progress<'a>, AllocError>
    requires { AreBetween search.now.parameters search.now.loops.now taken.items }
    ensures first { IfOk result (λ p. state_of p ≡ state [] [] taken.items) }
    ensures own { IfOk result (IsOf search.now) }
{
    let vectors = first_vectors(alloc, search)?;
    Ok(Progress {
        search,
        closed: Vec::new(alloc),
        rows: Vec::new(alloc),
        ruled: Vec::new(alloc),
        bare: taken,
        vectors,
    })
}
