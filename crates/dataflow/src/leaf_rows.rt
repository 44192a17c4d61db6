//! The rows of a leaf: what is passed on the way to it, and that the writer's turns are its forms, over the turns of both
//! instances, what is bound on the way, and the parameters.
ghost use Rattle.std.specs.Prelude.{◌≡◌, ◌+◌, ◌<◌, ◌≤◌, ◌++◌, ◌∷◌, [], All, IfOk, OnOk, length, negsuc, pos, set};
ghost use Rattle.std.specs.Prelude.{◌≤ℤ◌};
ghost use Rattle.whole_numbers.specs.Affine.{complement, form_of};
ghost use Rattle.whole_numbers.specs.Lists.{multiples};
ghost use Rattle.quast_trees.specs.Paths.{AreOver, binds_in};
ghost use Rattle.quast_trees.specs.Paths as passed;
ghost use Rattle.quast_trees.specs.PathView.{turn_held, turns_held};
ghost use Rattle.dataflow.specs.LeafRows.{bind_begins, bind_ends, path_rows, placed, placed_numbers};
ghost use Rattle.dataflow.specs.LeafRows.{turn_equalities, turn_equality, width};
ghost use Rattle.dataflow.specs.steps.LeafSteps.{AreFree, CanPlace, HoldOpposites, HoldsOpposite, HoldsRows, IsSmall};

use affine_forms::{Form, push};
use iteration_domains::{Numbers, form_from, push_zeros};
use quast_trees::Turn;
use std::alloc::{AllocError, Global};

/// How many variables stand where: before the reader's turns, its turns, behind them, what is bound on the way to the
/// leaf, and the parameters. Of those before and behind one are the writer's turns, and there are none of the other.
#[derive(Clone, Copy)]
pub struct Layout {
    pub before: usize,
    pub turns: usize,
    pub behind: usize,
    pub binds: usize,
    pub parameters: usize,
}

// The opposites of numbers.
fn opposites(alloc: Global, numbers: &[i128]) -> Result<Numbers, AllocError>
    requires { HoldOpposites numbers.now }
    ensures { IfOk result (λ all. all.items ≡ multiples (negsuc 0) numbers.now) }
{
    let mut all = Numbers::new(alloc);
    for number in numbers {
        all.push(-*number)?;
    }
    Ok(all)
}

// The numbers of a form of a quast, each at its variable.
fn placed_numbers(alloc: Global, layout: Layout, numbers: &[i128]) -> Result<Numbers, AllocError>
    requires { CanPlace layout numbers.now }
    ensures { IfOk result (λ all. all.items ≡ placed_numbers layout numbers.now) }
{
    let quotients = layout.parameters + layout.turns;
    let bound = numbers.len() - quotients;
    let mut all = Numbers::new(alloc);
    push_zeros(&mut all, layout.before)?;
    all.extend_from_slice(&numbers[layout.parameters..quotients])?;
    push_zeros(&mut all, layout.behind)?;
    all.extend_from_slice(&numbers[quotients..])?;
    push_zeros(&mut all, layout.binds - bound)?;
    all.extend_from_slice(&numbers[..layout.parameters])?;
    Ok(all)
}

// Appends the form with these numbers at their variables.
fn push_placed(
    alloc: Global,
    out: &mut Vec<Form>,
    layout: Layout,
    numbers: &[i128],
    constant: i128,
) -> Result<(), AllocError>
    requires { CanPlace layout numbers.now }
    ensures { OnOk result
        (out.new.items ≡ out.old.items ++ form_of (placed_numbers layout numbers.now) constant ∷ []) }
{
    let all = placed_numbers(alloc, layout, numbers)?;
    let row = form_from(alloc, all.as_slice(), constant)?;
    push(out, row)
}

// The numbers of a form of a quast, each at its variable, and a factor at one more.
fn tied_numbers(
    alloc: Global,
    layout: Layout,
    numbers: &[i128],
    at: usize,
    factor: i128,
) -> Result<Numbers, AllocError>
    requires numbers { CanPlace layout numbers.now }
    requires at { at < width layout }
    ensures { IfOk result (λ all. all.items ≡ set (placed_numbers layout numbers.now) at factor) }
{
    let mut all = placed_numbers(alloc, layout, numbers)?;
    all[at] = factor;
    Ok(all)
}

// Appends the form with these numbers at their variables, and a factor at one more.
fn push_tied(
    alloc: Global,
    out: &mut Vec<Form>,
    layout: Layout,
    numbers: &[i128],
    at: usize,
    factor: i128,
    constant: i128,
) -> Result<(), AllocError>
    requires numbers { CanPlace layout numbers.now }
    requires at { at < width layout }
    ensures { OnOk result
        (out.new.items ≡ out.old.items ++ form_of (set (placed_numbers layout numbers.now) at factor) constant ∷ []) }
{
    let all = tied_numbers(alloc, layout, numbers, at, factor)?;
    let row = form_from(alloc, all.as_slice(), constant)?;
    push(out, row)
}

// Appends that a test is passed on its second side.
fn push_complement(
    alloc: Global,
    out: &mut Vec<Form>,
    layout: Layout,
    form: &Form,
) -> Result<(), AllocError>
    requires form { CanPlace layout form.now.coefficients }
    requires held { HoldOpposites form.now.coefficients }
    ensures { OnOk result (out.new.items ≡ out.old.items ++ complement (placed layout form.now) ∷ []) }
{
    let opposite = opposites(alloc, form.coefficients())?;
    push_placed(
        alloc,
        out,
        layout,
        opposite.as_slice(),
        -1 - form.constant(),
    )
}

// Appends that a quotient, bound behind so many, times its divisor is at most the form.
fn push_begin(
    alloc: Global,
    out: &mut Vec<Form>,
    layout: Layout,
    bound: usize,
    form: &Form,
    divisor: i128,
) -> Result<(), AllocError>
    requires form { CanPlace layout form.now.coefficients }
    requires bound { length form.now.coefficients ≡ layout.parameters + layout.turns + bound }
    requires more { bound < layout.binds }
    requires held { HoldsRows (passed.bound form.now divisor) }
    ensures { OnOk result (out.new.items ≡ out.old.items ++ bind_begins layout bound form.now divisor ∷ []) }
{
    let at = layout.before + (layout.turns + (layout.behind + bound));
    push_tied(
        alloc,
        out,
        layout,
        form.coefficients(),
        at,
        -divisor,
        form.constant(),
    )
}

// Appends that the form is less than the next multiple.
fn push_end(
    alloc: Global,
    out: &mut Vec<Form>,
    layout: Layout,
    bound: usize,
    form: &Form,
    divisor: i128,
) -> Result<(), AllocError>
    requires form { CanPlace layout form.now.coefficients }
    requires bound { length form.now.coefficients ≡ layout.parameters + layout.turns + bound }
    requires more { bound < layout.binds }
    requires divisor { pos 1 ≤ℤ divisor }
    requires held { HoldsRows (passed.bound form.now divisor) }
    ensures { OnOk result (out.new.items ≡ out.old.items ++ bind_ends layout bound form.now divisor ∷ []) }
{
    let at = layout.before + (layout.turns + (layout.behind + bound));
    let opposite = opposites(alloc, form.coefficients())?;
    let constant = divisor - 1 - form.constant();
    push_tied(
        alloc,
        out,
        layout,
        opposite.as_slice(),
        at,
        divisor,
        constant,
    )
}

// Appends both.
fn push_bound(
    alloc: Global,
    out: &mut Vec<Form>,
    layout: Layout,
    bound: usize,
    form: &Form,
    divisor: i128,
) -> Result<(), AllocError>
    requires form { CanPlace layout form.now.coefficients }
    requires bound { length form.now.coefficients ≡ layout.parameters + layout.turns + bound }
    requires more { bound < layout.binds }
    requires divisor { pos 1 ≤ℤ divisor }
    requires held { HoldsRows (passed.bound form.now divisor) }
    ensures { OnOk result (out.new.items
        ≡ out.old.items ++ bind_begins layout bound form.now divisor ∷ bind_ends layout bound form.now divisor ∷ []) }
{
    push_begin(alloc, out, layout, bound, form, divisor)?;
    push_end(alloc, out, layout, bound, form, divisor)
}

// Appends the rows of something passed, behind so many binds.
fn push_turn(
    alloc: Global,
    out: &mut Vec<Form>,
    layout: Layout,
    bound: usize,
    turn: &Turn,
) -> Result<(), AllocError>
    requires small { IsSmall layout }
    requires over { AreOver (layout.parameters + layout.turns + bound) ((turn_held turn.now) ∷ []) }
    requires more { bound + binds_in ((turn_held turn.now) ∷ []) ≤ layout.binds }
    requires held { HoldsRows (turn_held turn.now) }
    ensures { OnOk result (out.new.items ≡ out.old.items ++ path_rows layout bound ((turn_held turn.now) ∷ [])) }
{
    match turn {
        Turn::Up(form) => push_placed(alloc, out, layout, form.coefficients(), form.constant()),
        Turn::Down(form) => push_complement(alloc, out, layout, form),
        Turn::Bound { form, divisor } => push_bound(alloc, out, layout, bound, form, *divisor),
    }
}

// How many binds something passed is.
fn binds_of(turn: &Turn) -> usize
    ensures { result ≡ binds_in ((turn_held turn.now) ∷ []) }
{
    match turn {
        Turn::Bound { .. } => 1,
        _ => 0,
    }
}

/// How many binds are passed.
pub fn binds_in(turns: &[Turn]) -> usize
    requires { length turns.now ≤ 4096 }
    ensures { result ≡ binds_in (turns_held turns.now) }
{
    let mut count = 0;
    for turn in turns {
        count += binds_of(turn);
    }
    count
}

/// Appends the rows of what is passed.
pub fn push_path(
    alloc: Global,
    out: &mut Vec<Form>,
    layout: Layout,
    turns: &[Turn],
) -> Result<(), AllocError>
    requires small { IsSmall layout }
    requires over { AreOver (layout.parameters + layout.turns) (turns_held turns.now) }
    requires binds { binds_in (turns_held turns.now) ≡ layout.binds }
    requires held { All HoldsRows (turns_held turns.now) }
    ensures { OnOk result (out.new.items ≡ out.old.items ++ path_rows layout 0 (turns_held turns.now)) }
{
    let mut bound = 0;
    for turn in turns {
        push_turn(alloc, out, layout, bound, turn)?;
        bound += binds_of(turn);
    }
    Ok(())
}

// Appends that a turn of the writer, the variable `at`, is a form.
fn push_turn_equality(
    alloc: Global,
    out: &mut Vec<Form>,
    layout: Layout,
    at: usize,
    form: &Form,
) -> Result<(), AllocError>
    requires form { CanPlace layout form.now.coefficients }
    requires at { at < width layout }
    requires free { AreFree layout at 1 }
    requires held { HoldsOpposite form.now }
    ensures { OnOk result (out.new.items ≡ out.old.items ++ turn_equality layout at form.now ∷ []) }
{
    let opposite = opposites(alloc, form.coefficients())?;
    push_tied(
        alloc,
        out,
        layout,
        opposite.as_slice(),
        at,
        1,
        -form.constant(),
    )
}

/// Appends that the turns of the writer, from the variable `from` on, are the forms.
pub fn push_turn_equalities(
    alloc: Global,
    out: &mut Vec<Form>,
    layout: Layout,
    from: usize,
    forms: &[Form],
) -> Result<(), AllocError>
    requires small { IsSmall layout }
    requires forms { All (λ f. length f.coefficients ≡ layout.parameters + layout.turns + layout.binds) forms.now }
    requires from { from + length forms.now ≤ width layout }
    requires free { AreFree layout from (length forms.now) }
    requires held { All HoldsOpposite forms.now }
    ensures { OnOk result (out.new.items ≡ out.old.items ++ turn_equalities layout from forms.now) }
{
    for step in 0..forms.len() {
        push_turn_equality(alloc, out, layout, from + step, &forms[step])?;
    }
    Ok(())
}
