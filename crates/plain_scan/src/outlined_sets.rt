//! The sets of a scan with their outlines.

ghost use Rattle.std.specs.Prelude.{◌+◌, ◌<◌, ◌^◌, All, length};
ghost use Rattle.plain_scan.specs.Hulls.{sets_in};
ghost use Rattle.plain_scan.specs.Sets.{IsShaped};

use crate::set_outline::Outline;

/// Sets with their outlines, how many dimensions and parameters all of them have, and the dimension that they mark.
#[derive(Drop)]
pub struct Outlines<'a> {
    pub outlines: Vec<Outline<'a>>,
    pub dimensions: usize,
    pub parameters: usize,
    pub parallel: Option<usize>,
    ghost some: { 0 < length outlines.items },
    ghost few: { dimensions + parameters < 2 ^ 32 },
    ghost sets: { All (IsShaped dimensions parameters) (sets_in outlines.items) },
}
