//! What the type of numbers promises of them.
ghost use Rattle.std.specs.Prelude.{All, FitsSigned};
ghost use Rattle.std.specs.Int.{w128};

/// Each number has 128 bits, as its type says. Nothing is done: a compiler leaves the loop out.
#[inline]
pub fn held(numbers: &[i128])
    ensures { All (FitsSigned w128) numbers.now }
{
    for at in 0..numbers.len() {
        let _number = numbers[at];
    }
}
