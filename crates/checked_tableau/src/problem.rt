//! A problem of parametric integer programming.

use affine_forms::Form;

/// The whole unknowns that are at least 0 and satisfy the rows, for each parameters of the context.
#[derive(Debug, Drop)]
pub struct Problem {
    /// How many unknowns there are.
    pub unknowns: usize,
    /// How many parameters stand behind the unknowns.
    pub parameters: usize,
    /// Forms over unknowns and parameters that are at least 0.
    pub rows: Vec<Form>,
    /// Forms over the parameters that are at least 0.
    pub context: Vec<Form>,
}
