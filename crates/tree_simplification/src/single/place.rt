//! Where the walk stands: what the values of the old loops round a node are, as forms over the new loops and the
//! parameters.
ghost use Rattle.std.specs.Prelude.{◌≡◌, ◌+◌, ◌-◌, ◌<◌, ◌≤◌, ◌^◌, ◌++◌, ◌∷◌, [], All, IfOk, OnOk, map};
ghost use Rattle.whole_numbers.specs.Affine.{widened};
ghost use Rattle.iteration_domains.specs.Rows.{variables};
ghost use Rattle.loop_tree.specs.Shape.{IsOver};
ghost use Rattle.tree_simplification.specs.steps.Inlined.{inside};

use crate::rows::widen_all;
use affine_forms::{Form, copies, push, push_copy};
use iteration_domains::variable_form;
use std::alloc::{AllocError, Global};

/// The forms of the old loops over so many new loops that were kept and so many parameters, and with those of the
/// parameters behind; and whether it is directly within a parallel loop, where what is tested is tested for each tile.
#[derive(Drop)]
pub struct Place {
    pub loops: Vec<Form>,
    pub forms: Vec<Form>,
    pub kept: usize,
    pub parameters: usize,
    pub within_tile: bool,
}

/// Appends the variables from `from` on to the last.
fn push_units(
    alloc: Global,
    forms: &mut Vec<Form>,
    of: usize,
    from: usize,
) -> Result<(), AllocError>
    requires { from ≤ of }
    ensures { OnOk result (forms.new.items ≡ forms.old.items ++ variables of from (of - from)) }
{
    for at in from..of {
        push(forms, variable_form(alloc, of, at)?)?;
    }
    Ok(())
}

/// The place at which the old loops have these forms over so many kept loops and parameters.
pub fn place_of(
    alloc: Global,
    loops: Vec<Form>,
    kept: usize,
    parameters: usize,
    within_tile: bool,
) -> Result<Place, AllocError>
    requires { kept + parameters ≤ 2 ^ 34 }
    ensures loops { IfOk result (λ p. p.loops.items ≡ loops.items) }
    ensures forms { IfOk result (λ p. p.forms.items ≡ loops.items ++ variables (kept + parameters) kept parameters) }
    ensures kept { IfOk result (λ p. p.kept ≡ kept) }
    ensures parameters { IfOk result (λ p. p.parameters ≡ parameters) }
{
    let mut forms = copies(alloc, loops.as_slice())?;
    push_units(alloc, &mut forms, kept + parameters, kept)?;
    Ok(Place {
        loops,
        forms,
        kept,
        parameters,
        within_tile,
    })
}

/// The place within a loop that stays, which is parallel or not.
pub fn within_loop(alloc: Global, place: &Place, parallel: bool) -> Result<Place, AllocError>
    requires few { place.now.kept + 1 + place.now.parameters ≤ 2 ^ 34 }
    requires sized { All (IsOver (place.now.kept + place.now.parameters)) place.now.loops.items }
    ensures loops { IfOk result (λ p. p.loops.items
        ≡ inside place.now.parameters place.now.kept place.now.loops.items) }
    ensures forms { IfOk result (λ p. p.forms.items
        ≡ p.loops.items
        ++ variables (place.now.kept + 1 + place.now.parameters) (place.now.kept + 1) place.now.parameters) }
    ensures kept { IfOk result (λ p. p.kept ≡ place.now.kept + 1) }
    ensures parameters { IfOk result (λ p. p.parameters ≡ place.now.parameters) }
{
    let kept = place.kept + 1;
    let mut loops = widen_all(alloc, place.loops.as_slice(), place.kept)?;
    push(
        &mut loops,
        variable_form(alloc, kept + place.parameters, place.kept)?,
    )?;
    place_of(alloc, loops, kept, place.parameters, parallel)
}

/// The place within a loop that stands for none of the old ones.
pub fn within_block(alloc: Global, place: &Place) -> Result<Place, AllocError>
    requires few { place.now.kept + 1 + place.now.parameters ≤ 2 ^ 34 }
    requires sized { All (IsOver (place.now.kept + place.now.parameters)) place.now.loops.items }
    ensures loops { IfOk result (λ p. p.loops.items ≡ map (widened place.now.kept) place.now.loops.items) }
    ensures forms { IfOk result (λ p. p.forms.items
        ≡ p.loops.items
        ++ variables (place.now.kept + 1 + place.now.parameters) (place.now.kept + 1) place.now.parameters) }
    ensures kept { IfOk result (λ p. p.kept ≡ place.now.kept + 1) }
    ensures parameters { IfOk result (λ p. p.parameters ≡ place.now.parameters) }
{
    let loops = widen_all(alloc, place.loops.as_slice(), place.kept)?;
    place_of(alloc, loops, place.kept + 1, place.parameters, false)
}

/// The place within a loop that runs at most once, where a form gives its value.
pub fn within_once(alloc: Global, place: &Place, form: &Form) -> Result<Place, AllocError>
    requires few { place.now.kept + place.now.parameters ≤ 2 ^ 34 }
    ensures loops { IfOk result (λ p. p.loops.items ≡ place.now.loops.items ++ form.now ∷ []) }
    ensures forms { IfOk result (λ p. p.forms.items
        ≡ p.loops.items ++ variables (place.now.kept + place.now.parameters) place.now.kept place.now.parameters) }
    ensures kept { IfOk result (λ p. p.kept ≡ place.now.kept) }
    ensures parameters { IfOk result (λ p. p.parameters ≡ place.now.parameters) }
{
    let mut loops = copies(alloc, place.loops.as_slice())?;
    push_copy(&mut loops, form)?;
    place_of(alloc, loops, place.kept, place.parameters, false)
}
