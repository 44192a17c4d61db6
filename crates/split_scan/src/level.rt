//! A node of the scan: the rows that hold within its loop.

ghost use Rattle.std.specs.Prelude.{◌≡◌, ◌+◌, ◌<◌, ◌^◌, All, IsTrue};
ghost use Rattle.affine_forms.specs.Parts.{variables_of};
ghost use Rattle.split_scan.specs.steps.Questions.{AreNatural};

use affine_forms::Form;

/// A node: rows over the outer values, the loop's value at `place` and the parameters, whether all these values are
/// known not to be negative there, and how many moves a question may make.
#[derive(Drop)]
pub struct Level {
    pub inside: Vec<Form>,
    pub place: usize,
    pub parameters: usize,
    pub natural: bool,
    pub budget: u64,
    ghost few: { place + 1 + parameters < 2 ^ 33 },
    ghost sized: { All (λ f. variables_of f ≡ place + 1 + parameters) inside.items },
    ghost not_negative: { IsTrue natural → AreNatural (place + 1) inside.items },
}
