//! What the columns of the objective are reckoned from.

ghost use Rattle.std.specs.Prelude.{◌≤◌, All};

/// So many parameters, and how many loops stand round each statement.
#[derive(Drop)]
pub struct Columns<'a> {
    pub parameters: usize,
    pub loops: &'a [usize],
    ghost few: { parameters ≤ 4 },
    ghost small: { All (λ l. l ≤ 5) loops.now },
}
