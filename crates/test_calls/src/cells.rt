//! Data whose arrays have as many cells as there may be, and more.

use data_text::{DataRefusal, DataStop, read_data};
use kernel_gen::cells_in;
use scop_parser::read_kernel;
use std::alloc::{AllocError, Global};
use std::test::Fail;

const LAST: &str = "void z(int64_t N, uint64_t A[N][64]) {}";

const PAST: &str = "void z(int64_t N, uint64_t A[N][65]) {}";

/// How many cells the case of a kernel has, or more than there may be.
#[derive(Clone, Copy)]
enum Found {
    Held(u64),
    TooMany(u128),
    Other,
}

/// The cells of the case that data says of a kernel.
fn cells_of(alloc: Global, text: &str, data: &str) -> Found {
    match read_kernel(alloc, text.as_bytes()) {
        Err(_) => Found::Other,
        Ok(kernel) => match read_data(alloc, &kernel, data.as_bytes()) {
            Err(DataStop::Refused(DataRefusal::Cells(cells))) => Found::TooMany(cells),
            Err(_) => Found::Other,
            Ok(case) => Found::Held(cells_in(&case)),
        },
    }
}

#[test]
fn arrays_have_so_many_cells(rt: HostRuntime) -> Result<(), Fail> {
    let last = cells_of(rt.alloc(), LAST, "N = 65536\n");
    assert!(rt; matches!(last, Found::Held(4_194_304)));
    let past = cells_of(rt.alloc(), PAST, "N = 65536\n");
    assert!(rt; matches!(past, Found::TooMany(4_259_840)));
    Ok(())
}
