//! What is known at a place of a tree: rows over the values of the loops round it and the parameters.

ghost use Rattle.std.specs.Prelude.{◌≡◌, ◌+◌, All};
ghost use Rattle.affine_forms.specs.Parts.{variables_of};

use affine_forms::Form;

/// So many loops and parameters, rows that are at least 0, and whether the loops' values are known to be at least 0.
#[derive(Drop)]
pub struct Context {
    pub loops: usize,
    pub parameters: usize,
    pub natural: bool,
    pub rows: Vec<Form>,
    ghost sized: { All (λ f. variables_of f ≡ loops + parameters) rows.items },
}
