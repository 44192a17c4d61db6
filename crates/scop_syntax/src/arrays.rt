//! The contents of a kernel's arrays and their extents, for each array in the order of declaration.
//! Contracts see both as lists of lists of numbers.
ghost use Rattle.std.specs.Prelude.{◌≡◌, ℕ, ◌<◌, List, [], length, map, slice_index_or, slice_set};

use std::marker::Model;

/// `cells[a][k]` is the cell at row-major offset `k` of array `a`, a number below 2^64.
#[derive(Drop)]
pub struct Arrays {
    pub cells: Vec<Vec<u64>>,
}

impl Model for Arrays {
    ghost Value = { List (List ℕ) };

    ghost view = { λ a. map (λ row. row.items) a.cells.items };
}

/// `sizes[a]` are the extents of array `a`, outermost first.
#[derive(Drop)]
pub struct Extents {
    pub sizes: Vec<Vec<u64>>,
}

impl Model for Extents {
    ghost Value = { List (List ℕ) };

    ghost view = { λ e. map (λ row. row.items) e.sizes.items };
}

impl Extents {
    /// How many arrays there are.
    pub fn count(&self) -> usize
        ensures { result ≡ length self.now }
    {
        self.sizes.len()
    }

    /// The extents of array `array`, outermost first.
    pub fn array(&self, array: usize) -> &[u64]
        requires { array < length self.now }
        ensures { result.now ≡ slice_index_or self.now array [] }
    {
        &self.sizes[array]
    }
}

impl Arrays {
    /// How many arrays there are.
    pub fn count(&self) -> usize
        ensures { result ≡ length self.now }
    {
        self.cells.len()
    }

    /// The cells of array `array`, row by row.
    pub fn array(&self, array: usize) -> &[u64]
        requires { array < length self.now }
        ensures { result.now ≡ slice_index_or self.now array [] }
    {
        &self.cells[array]
    }

    /// What the cell at row-major offset `offset` of array `array` holds.
    pub fn cell(&self, array: usize, offset: usize) -> u64
        requires array { array < length self.now }
        requires offset { offset < length (slice_index_or self.now array []) }
        ensures { result ≡ slice_index_or (slice_index_or self.now array []) offset 0 }
    {
        let row = &self.cells[array];
        row[offset]
    }

    /// Puts `value` into the cell at row-major offset `offset` of array `array`.
    pub fn set_cell(&mut self, array: usize, offset: usize, value: u64)
        requires array { array < length self.old }
        requires offset { offset < length (slice_index_or self.old array []) }
        ensures contents { self.new
            ≡ slice_set self.old array (slice_set (slice_index_or self.old array []) offset value) }
        ensures shape { map length self.new ≡ map length self.old }
    {
        self.cells[array][offset] = value;
    }
}
