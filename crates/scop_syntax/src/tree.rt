//! The tree of a kernel as code holds it. Contracts see `Aff`, `Access`, `Loop` and `Array` as the
//! plain data of specs/Tree.antt, and the rest through the folds of specs/View.antt: an `Expr` by
//! `expression_of`, a `Stmt` by `statement_of`, an `Item` by `tree_of`, a `Kernel` by `program_of`.
//! Static-control parts: Feautrier, "Dataflow analysis of array and scalar references" (1991).
ghost use Rattle.std.specs.Prelude.{◌≡◌, IfOk};
ghost use Rattle.whole_numbers.specs.Lists.{zeros};

use std::alloc::{AllocError, Global};
use std::marker::Model;

/// The bytes of a name, as the text spells it.
pub type Name = Vec<u8>;

/// An affine form: one coefficient for each parameter, then one for each iterator of the loops
/// round it, outermost first (in a loop's condition also the loop's own, last), and a constant.
#[derive(Drop)]
pub struct Aff {
    pub coefficients: Vec<i64>,
    pub constant: i64,
}

impl Model for Aff {
    ghost use Rattle.whole_numbers.specs.Affine.{Affine};

    ghost Value = { Affine };

    ghost view = { λ a. record { coefficients = a.coefficients.items; constant = a.constant } };
}

/// So many zeros: the coefficients of a constant.
///
/// # Errors
/// `AllocError` alone.
pub fn zeros(alloc: Global, count: usize) -> Result<Vec<i64>, AllocError>
    ensures { IfOk result (λ v. v.items ≡ zeros count) }
{
    vec![in alloc; 0; count]
}

/// A cell of an array: the array's number in the order of declaration, and a subscript for each
/// dimension.
#[derive(Drop)]
pub struct Access {
    pub array: usize,
    pub subscripts: Vec<Aff>,
}

impl Model for Access {
    ghost use Rattle.scop_syntax.specs.Tree.{Access as Place};

    ghost Value = { Place };

    ghost view = { λ a. record { array = a.array; subscripts = a.subscripts.items } };
}

/// `+ - * & | ^`, of values and of assignments.
#[derive(Clone, Copy)]
pub enum Operator {
    Plus,
    Minus,
    Times,
    And,
    Or,
    Xor,
}

/// Why a value is kept to 32 bits.
#[derive(Clone, Copy)]
pub enum Narrowing {
    /// A cast of the text, `(uint32_t)`.
    Explicit,
    /// The type of what an operator makes, or of what is stored.
    Implied,
    /// A signed part beside 32 bits.
    Converted,
}

/// A value: cells, constants and affine parts, and what C makes of them.
#[derive(Drop)]
pub enum Expr {
    Read(Access),
    Constant(u64),
    Affine(Aff),
    Negated(Box<Expr>),
    Complemented(Box<Expr>),
    Cast(Box<Expr>),
    Binary(Operator, Box<Expr>, Box<Expr>),
    ShiftedLeft(Box<Expr>, u8),
    ShiftedRight(Box<Expr>, u8),
    Narrowed(Narrowing, Box<Expr>),
}

/// What stands behind a place: `= e`, `op= e`, `<<= k` or `>>= k`; narrow where what is stored is kept
/// to 32 bits.
#[derive(Drop)]
pub enum Right {
    Assigned(Expr),
    Combined(Operator, Expr),
    ShiftedLeft(u8),
    ShiftedRight(u8),
    CombinedNarrow(Operator, Expr),
    ShiftedLeftNarrow(u8),
}

/// `place = value;` or `place op= value;`
#[derive(Drop)]
pub struct Stmt {
    pub place: Access,
    pub right: Right,
}

/// The head of a loop: `for (iterator = first; condition >= 0; iterator += stride)`.
/// `first` speaks of what stands round the loop, `condition` of the loop's own iterator too.
#[derive(Drop)]
pub struct Loop {
    pub iterator: Name,
    pub first: Aff,
    pub stride: i64,
    pub condition: Aff,
}

impl Model for Loop {
    ghost use Rattle.scop_syntax.specs.Tree.{Head};

    ghost Value = { Head };

    ghost view = { λ h.
        record { iterator = h.iterator.items; first = h.first; stride = h.stride; condition = h.condition } };
}

/// A comparison: `form >= 0` or `form == 0`.
#[derive(Drop)]
pub enum Test {
    AtLeast(Aff),
    Equal(Aff),
}

/// `if`: its body runs where all comparisons hold.
#[derive(Drop)]
pub struct Guard {
    pub tests: Vec<Test>,
}

/// A loop or a guard with its body, or a statement.
#[derive(Drop)]
pub enum Item {
    Loop(Loop, Vec<Item>),
    Guard(Guard, Vec<Item>),
    Stmt(Stmt),
}

/// An array's declaration: how many of the kernel's parameters stand before it in the text, whether
/// its cells are `uint32_t` in place of `uint64_t`, and an extent for each dimension, outermost first,
/// in the parameters alone.
#[derive(Drop)]
pub struct Array {
    pub name: Name,
    pub parameters_before: usize,
    pub narrow: bool,
    pub extents: Vec<Aff>,
}

impl Model for Array {
    ghost use Rattle.scop_syntax.specs.Tree.{Declaration};

    ghost Value = { Declaration };

    ghost view = { λ a.
        record {
          name = a.name.items;
          parameters_before = a.parameters_before;
          narrow = a.narrow;
          extents = a.extents.items;
        } };
}

/// A kernel: its items run one after another, over the arrays, for given parameters.
#[derive(Drop)]
pub struct Kernel {
    pub name: Name,
    pub parameters: Vec<Name>,
    pub arrays: Vec<Array>,
    pub items: Vec<Item>,
}
