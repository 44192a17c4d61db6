//! What each error says.

use crate::made::{problem, system};
use affine_forms::FormStop;
use checked_tableau::TableauStop;
use fm_projection::FmStop;
use io_ports::Failed;
use pip_solver::Stop;
use polypar::{Kept, Stuck};
use std::alloc::Global;
use std::fmt::Display;
use std::test::Fail;
use wide_math::{Op, Wide};

/// A number that is too wide.
const WIDE: Wide = Wide {
    op: Op::Add,
    a: 1,
    b: -2,
};

/// What it says.
const WIDE_TEXT: &str = "the result of Add at 1 and -2 does not fit 128 bits";

/// What want of memory says.
const NO_MEMORY: &str = "out of memory";

/// Whether an error says this.
fn says<T: Display + Drop>(alloc: Global, error: T, text: &str) -> bool {
    match error.to_string(alloc) {
        Ok(said) => said.as_str() == text,
        Err(_) => false,
    }
}

#[test]
fn ports_and_forms(rt: HostRuntime) {
    let alloc = rt.alloc();
    assert!(rt; says(alloc, Failed, "the stream failed"));
    assert!(rt; says(alloc, WIDE, WIDE_TEXT));
    assert!(rt; says(alloc, FormStop::Wide(WIDE), WIDE_TEXT));
    assert!(rt; says(alloc, FormStop::NoMemory, NO_MEMORY));
    assert!(rt; says(alloc, TableauStop::Wide(WIDE), WIDE_TEXT));
    assert!(rt; says(alloc, TableauStop::NoMemory, NO_MEMORY));
}

#[test]
fn eliminations(rt: HostRuntime) {
    let alloc = rt.alloc();
    assert!(rt; says(alloc, FmStop::Wide(WIDE), WIDE_TEXT));
    assert!(rt; says(alloc, FmStop::Crowded { pairs: 4097 }, "4097 pairs of rows"));
    assert!(rt; says(alloc, FmStop::Large { number: -3 }, "the number -3"));
    assert!(rt; says(alloc, FmStop::NoMemory, NO_MEMORY));
    assert!(rt; says(alloc, Stuck::Elimination(FmStop::Wide(WIDE)), WIDE_TEXT));
    assert!(rt; says(alloc, Stuck::NoMemory, NO_MEMORY));
}

#[test]
fn the_solver(rt: HostRuntime) -> Result<(), Fail> {
    let alloc = rt.alloc();
    let posed = problem(alloc, 0, 0, &[], &[])?;
    let wide = Stop::Wide { posed, moves: 3 };
    assert!(rt; says(alloc, wide, "a number does not fit 128 bits after 3 moves"));
    let posed = problem(alloc, 0, 0, &[], &[])?;
    let spent = Stuck::Solver(Stop::Spent { posed, moves: 4 });
    assert!(rt; says(alloc, spent, "the budget is spent after 4 moves"));
    assert!(rt; says(alloc, Stop::NoMemory, NO_MEMORY));
    Ok(())
}

#[test]
fn kept_orders(rt: HostRuntime) -> Result<(), Fail> {
    let alloc = rt.alloc();
    let posed = system(alloc, 0, 0, &[], &[])?;
    assert!(rt; says(alloc, Kept::NoRow { posed }, "no row"));
    assert!(rt;
        says(
            alloc,
            Kept::NoOrder { component: 2 },
            "component 2 has no order"
        )
    );
    assert!(rt; says(alloc, Kept::Large { row: 1 }, "row 1 is too large"));
    assert!(rt;
        says(
            alloc,
            Kept::Stuck(Stuck::Elimination(FmStop::Wide(WIDE))),
            WIDE_TEXT
        )
    );
    assert!(rt; says(alloc, Kept::NoMemory, NO_MEMORY));
    Ok(())
}
