//! The questions of a node: whether its context has a point, and whether a row's part is at most -1, at least 0, or no
//! multiple of the row's denominator at some point of it. Where no parameter stands in a part it is read off; else a
//! question over the parameters is run, in the same count of moves.
ghost use Rattle.std.specs.Prelude.{◌≡◌, ◌+◌, [], ◌∷◌, ◌++◌, ◌≤◌, map, None, All};
ghost use Rattle.affine_forms.specs.Parts.{variables_of};
ghost use Rattle.tableau_rows.specs.Problem.{Speaks};
ghost use Rattle.tableau_rows.specs.Moves.{row_at};
ghost use Rattle.checked_tableau.specs.Nodes.{ask, context_holds, below_somewhere, above_somewhere, broken_somewhere};
ghost use Rattle.checked_tableau.specs.Nodes.{none_below, part_of, longer_form, formed};
ghost use Rattle.checked_tableau.specs.Nodes.{opposite_run, above_run, under_run};
ghost use Rattle.pip_solver.specs.Node.{node_of};
ghost use Rattle.pip_solver.specs.steps.Promises.{Tells, AsksOf};

use crate::forms::{above, opposite, under};
use crate::leaf::longer_with;
use crate::node::Tableau;
use crate::parts::{constant_of, is_constant, part_of};
use crate::question::{QuestionStop, question};
use affine_forms::{Form, FormStop};
use checked_tableau::{Rows, remainder_of};
use std::alloc::Global;
use std::slice;

/// Whether forms, in two parts, have a whole point that is not negative.
pub fn ask(
    alloc: Global,
    unknowns: usize,
    forms: &[Form],
    more: &[Form],
    left: &mut u64,
) -> Result<bool, QuestionStop>
    requires forms { All (λ f. variables_of f ≡ unknowns) forms.now }
    requires more { All (λ f. variables_of f ≡ unknowns) more.now }
    ensures run { Tells result left.new (ask left.old unknowns (forms.now ++ more.now)) }
    ensures less { left.new ≤ left.old }
{
    let mut rows = match Rows::of(alloc, unknowns, 0, forms, more) {
        Err(_) => return Err(QuestionStop::NoMemory),
        Ok(rows) => rows,
    };
    question(&mut rows, left)
}

/// Whether no form's constant is below 0.
fn none_below(forms: &[Form]) -> bool
    ensures { result ≡ none_below forms.now }
{
    for form in forms {
        if form.constant() < 0 {
            return false;
        }
    }
    true
}

/// Whether the context has a point.
pub fn context_holds(alloc: Global, node: &Tableau, left: &mut u64) -> Result<bool, QuestionStop>
    requires { Speaks node.now.rows.parameters node.now.context.items }
    ensures run { Tells result left.new (context_holds left.old node.now.rows.parameters node.now.context.items) }
    ensures less { left.new ≤ left.old }
{
    let parameters = node.rows.parameters();
    if parameters == 0 {
        return Ok(none_below(&node.context));
    }
    ask(alloc, parameters, &node.context, &[], left)
}

/// Whether a row's part is at most -1 somewhere in the context.
pub fn below_somewhere(
    alloc: Global,
    node: &Tableau,
    row: usize,
    left: &mut u64,
) -> Result<bool, QuestionStop>
    requires { AsksOf node.now row }
    ensures run { Tells result left.new
        (below_somewhere left.old (node_of node.now) (part_of node.now.rows.unknowns (row_at node.now.rows.rows row))) }
    ensures less { left.new ≤ left.old }
{
    if is_constant(&node.rows, row) {
        return Ok(constant_of(&node.rows, row) < 0);
    }
    match part_of(alloc, &node.rows, row) {
        Err(_) => Err(QuestionStop::NoMemory),
        Ok(part) => ask_opposite(alloc, node, &part, left),
    }
}

/// Whether a form is at most -1 somewhere in the context.
fn ask_opposite(
    alloc: Global,
    node: &Tableau,
    form: &Form,
    left: &mut u64,
) -> Result<bool, QuestionStop>
    requires speaks { Speaks node.now.rows.parameters node.now.context.items }
    requires form { variables_of form.now ≡ node.now.rows.parameters }
    ensures run { Tells result left.new (formed left.old (opposite_run form.now)
        (λ g. ask left.old node.now.rows.parameters (node.now.context.items ++ g ∷ []))) }
    ensures less { left.new ≤ left.old }
{
    match opposite(alloc, form) {
        Err(FormStop::NoMemory) => Err(QuestionStop::NoMemory),
        Err(FormStop::Wide(_)) => Err(QuestionStop::Wide),
        Ok(opposite) => ask(
            alloc,
            node.rows.parameters(),
            &node.context,
            slice::from_ref(&opposite),
            left,
        ),
    }
}

/// Whether a row's part is at least 0 somewhere in the context.
pub fn above_somewhere(
    alloc: Global,
    node: &Tableau,
    row: usize,
    left: &mut u64,
) -> Result<bool, QuestionStop>
    requires { AsksOf node.now row }
    ensures run { Tells result left.new
        (above_somewhere left.old (node_of node.now) (part_of node.now.rows.unknowns (row_at node.now.rows.rows row))) }
    ensures less { left.new ≤ left.old }
{
    if is_constant(&node.rows, row) {
        return Ok(constant_of(&node.rows, row) >= 0);
    }
    match part_of(alloc, &node.rows, row) {
        Err(_) => Err(QuestionStop::NoMemory),
        Ok(part) => ask(
            alloc,
            node.rows.parameters(),
            &node.context,
            slice::from_ref(&part),
            left,
        ),
    }
}

/// Whether a row's denominator does not divide its part somewhere in the context.
pub fn broken_somewhere(
    alloc: Global,
    node: &Tableau,
    row: usize,
    left: &mut u64,
) -> Result<bool, QuestionStop>
    requires asks { AsksOf node.now row }
    requires going { node.now.rows.stopped ≡ None }
    ensures run { Tells result left.new (broken_somewhere left.old (node_of node.now)
        (row_at node.now.rows.rows row).denominator
        (part_of node.now.rows.unknowns (row_at node.now.rows.rows row))) }
    ensures less { left.new ≤ left.old }
{
    let divisor = node.rows.line(row)[0];
    if is_constant(&node.rows, row) {
        return Ok(remainder_of(constant_of(&node.rows, row), divisor) > 0);
    }
    match part_of(alloc, &node.rows, row) {
        Err(_) => Err(QuestionStop::NoMemory),
        Ok(part) => ask_between(alloc, node, divisor, &part, left),
    }
}

/// Whether a form lies between two multiples of a divisor somewhere in the context.
fn ask_between(
    alloc: Global,
    node: &Tableau,
    divisor: i128,
    form: &Form,
    left: &mut u64,
) -> Result<bool, QuestionStop>
    requires speaks { Speaks node.now.rows.parameters node.now.context.items }
    requires form { variables_of form.now ≡ node.now.rows.parameters }
    ensures run { Tells result left.new (formed left.old (above_run divisor form.now)
        (λ g. formed left.old (under_run divisor form.now) (λ h. ask left.old (node.now.rows.parameters + 1)
        (map longer_form node.now.context.items ++ g ∷ h ∷ [])))) }
    ensures less { left.new ≤ left.old }
{
    match above(alloc, divisor, form) {
        Err(FormStop::NoMemory) => Err(QuestionStop::NoMemory),
        Err(FormStop::Wide(_)) => Err(QuestionStop::Wide),
        Ok(first) => ask_under(alloc, node, divisor, form, first, left),
    }
}

/// The same with the form of the lower multiple in hand.
fn ask_under(
    alloc: Global,
    node: &Tableau,
    divisor: i128,
    form: &Form,
    first: Form,
    left: &mut u64,
) -> Result<bool, QuestionStop>
    requires speaks { Speaks node.now.rows.parameters node.now.context.items }
    requires form { variables_of form.now ≡ node.now.rows.parameters }
    requires first { variables_of first ≡ node.now.rows.parameters + 1 }
    ensures run { Tells result left.new (formed left.old (under_run divisor form.now)
        (λ h. ask left.old (node.now.rows.parameters + 1)
        (map longer_form node.now.context.items ++ first ∷ h ∷ []))) }
    ensures less { left.new ≤ left.old }
{
    match longer_with(alloc, &node.context, first) {
        Err(_) => Err(QuestionStop::NoMemory),
        Ok(rows) => match node.rows.parameters().checked_add(1) {
            None => Err(QuestionStop::NoMemory),
            Some(unknowns) => ask_with_under(alloc, unknowns, &rows, divisor, form, left),
        },
    }
}

/// Whether forms, and the form of the upper multiple, have a whole point that is not negative.
fn ask_with_under(
    alloc: Global,
    unknowns: usize,
    forms: &[Form],
    divisor: i128,
    form: &Form,
    left: &mut u64,
) -> Result<bool, QuestionStop>
    requires forms { All (λ f. variables_of f ≡ unknowns) forms.now }
    requires form { variables_of form.now + 1 ≡ unknowns }
    ensures run { Tells result left.new (formed left.old (under_run divisor form.now)
        (λ h. ask left.old unknowns (forms.now ++ h ∷ []))) }
    ensures less { left.new ≤ left.old }
{
    match under(alloc, divisor, form) {
        Err(FormStop::NoMemory) => Err(QuestionStop::NoMemory),
        Err(FormStop::Wide(_)) => Err(QuestionStop::Wide),
        Ok(second) => ask(alloc, unknowns, forms, slice::from_ref(&second), left),
    }
}
