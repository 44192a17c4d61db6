//! The limits of the language and of its data, each once. What bounds a text alone stands where texts are read (the
//! length of names in `scop_lexer`, brackets and operators in `scop_expressions`), and what bounds an algorithm with it.

/// Parameters of a kernel.
pub const MOST_PARAMETERS: usize = 4;

/// Arrays of a kernel.
pub const MOST_ARRAYS: usize = 16;

/// Extents of an array, which are its dimensions.
pub const MOST_EXTENTS: usize = 4;

/// Statements of a kernel.
pub const MOST_STATEMENTS: usize = 32;

/// Loops round a statement.
pub const MOST_LOOPS: usize = 5;

/// Comparisons round a statement.
pub const MOST_COMPARISONS: usize = 16;

/// Reads of a statement.
pub const MOST_READS: usize = 16;

/// Entries of a point: a value for each parameter and for each loop round a statement.
pub const MOST_ENTRIES: usize = MOST_PARAMETERS + MOST_LOOPS;

/// The largest coefficient of an affine form of the text, in absolute value.
pub const MOST_COEFFICIENT: u64 = 16;

/// The largest constant of such a form, in absolute value.
pub const MOST_CONSTANT: u64 = 1 << 20;

/// By how much a loop's iterator rises or falls in a turn.
pub const MOST_STRIDE: u64 = 16;

/// The largest value of a parameter (`most_parameter` in specs/). `fm_projection`, `traced_projections`, `lexmin_runs`
/// and `pip_solver`, which do not stand on this crate, have the number itself.
pub const MOST_PARAMETER_VALUE: u64 = 65536;

/// Cells of all arrays together; and instances of a walk of which each has a cell of its own.
pub const MOST_CELLS: usize = 1 << 22;
