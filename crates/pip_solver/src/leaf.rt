//! A leaf: the unknowns' parts over their denominators. Where a denominator does not divide every number of a part, the
//! part's floor is bound round the leaf, by a frame.
ghost use Rattle.std.specs.Prelude.{◌≡◌, ℕ, suc, List, [], ◌∷◌, ◌+◌, ◌++◌, ◌<◌, ◌≤◌, ◌≤ℤ◌, pos};
ghost use Rattle.std.specs.Prelude.{length, map, take, drop};
ghost use Rattle.std.specs.Prelude.{None, Ok, IfOk, OnOk};
ghost use Rattle.whole_numbers.specs.Floor.{floor};
ghost use Rattle.whole_numbers.specs.Lists.{zeros};
ghost use Rattle.whole_numbers.specs.Affine.{form_of};
ghost use Rattle.tableau_rows.specs.Rows.{Row, entry};
ghost use Rattle.tableau_rows.specs.Moves.{row_at};
ghost use Rattle.quast_trees.specs.Tree.{Tree, bind};
ghost use Rattle.quast_trees.specs.Postfix.{standing, top};
ghost use Rattle.checked_tableau.specs.Nodes.{all_divided, divided, padded, part_of, leaf_tree, longer_form};
ghost use Rattle.pip_solver.specs.steps.Frames.{under, KeepsSides};

use crate::forms::longer_forms;
use crate::frames::{Frame, put};
use affine_forms::{Form, push};
use checked_tableau::{Rows, remainder_of};
use quast_trees::Builder;
use std::alloc::{AllocError, Global};
use std::mem;

/// Whether a divisor divides each number.
fn all_divided(numbers: &[i128], divisor: i128) -> bool
    requires { pos 1 ≤ℤ divisor }
    ensures { result ≡ all_divided divisor numbers.now }
{
    for number in numbers {
        if remainder_of(*number, divisor) != 0 {
            return false;
        }
    }
    true
}

/// `a` by `divisor`, rounded down.
fn floor_of(a: i128, divisor: i128) -> i128
    requires { pos 1 ≤ℤ divisor }
    ensures { result ≡ floor a divisor }
{
    a.div_euclid(divisor)
}

/// So many zeros.
fn zeros(alloc: Global, count: usize) -> Result<Vec<i128>, AllocError>
    ensures { IfOk result (λ v. v.items ≡ zeros count) }
{
    Vec::from_elem(alloc, 0i128, count)
}

/// The form of these coefficients, with zeros behind them, and a constant.
fn padded(
    alloc: Global,
    coefficients: &[i128],
    count: usize,
    constant: i128,
) -> Result<Form, AllocError>
    ensures { IfOk result (λ f. f ≡ padded count (form_of coefficients.now constant)) }
{
    let behind = match zeros(alloc, count) {
        Err(error) => return Err(error),
        Ok(behind) => behind,
    };
    let mut all = match Vec::from_slice(alloc, coefficients) {
        Err(error) => return Err(error),
        Ok(all) => all,
    };
    match all.extend_from_slice(&behind) {
        Err(error) => return Err(error),
        Ok(()) => {}
    }
    match Form::of(alloc, &all, constant) {
        Err(_) => Err(AllocError),
        Ok(form) => Ok(form),
    }
}

/// Each number by the divisor, rounded down.
fn floors(alloc: Global, numbers: &[i128], divisor: i128) -> Result<Vec<i128>, AllocError>
    requires { pos 1 ≤ℤ divisor }
    ensures { IfOk result (λ v. v.items ≡ map (λ z. floor z divisor) numbers.now) }
{
    numbers
        .iter()
        .map(|number| floor_of(*number, divisor))
        .collect(alloc)
}

/// The form of the last of so many variables and one more.
fn last_variable(alloc: Global, before: usize) -> Result<Form, AllocError>
    ensures { IfOk result (λ f. f ≡ form_of (zeros before ++ pos 1 ∷ []) (pos 0)) }
{
    let mut all = match zeros(alloc, before) {
        Err(error) => return Err(error),
        Ok(all) => all,
    };
    match all.push(1) {
        Err(_) => return Err(AllocError),
        Ok(()) => {}
    }
    match Form::of(alloc, &all, 0) {
        Err(_) => Err(AllocError),
        Ok(form) => Ok(form),
    }
}

/// Whether a row's denominator divides each number of its part.
fn is_divided(rows: &Rows, row: usize) -> bool
    requires row { row < length rows.now.rows }
    requires going { rows.now.stopped ≡ None }
    ensures { result ≡ all_divided (row_at rows.now.rows row).denominator
        (entry (row_at rows.now.rows row) rows.now.unknowns
        ∷ drop (rows.now.unknowns + 1) (row_at rows.now.rows row).entries) }
{
    let line = rows.line(row);
    let (_, part) = line.split_at(rows.unknowns() + 1);
    all_divided(part, line[0])
}

/// A row's part over its denominator, with zeros behind it.
fn divided_part(alloc: Global, rows: &Rows, row: usize, bound: usize) -> Result<Form, AllocError>
    requires row { row < length rows.now.rows }
    requires going { rows.now.stopped ≡ None }
    ensures { IfOk result (λ f. f ≡ padded bound
        (divided (row_at rows.now.rows row).denominator (part_of rows.now.unknowns (row_at rows.now.rows row)))) }
{
    let line = rows.line(row);
    let at = rows.unknowns() + 1;
    let (_, parameters) = line.split_at(at + 1);
    match floors(alloc, parameters, line[0]) {
        Err(error) => Err(error),
        Ok(coefficients) => padded(alloc, &coefficients, bound, floor_of(line[at], line[0])),
    }
}

/// A row's part, with zeros behind it.
fn padded_part(alloc: Global, rows: &Rows, row: usize, bound: usize) -> Result<Form, AllocError>
    requires { row < length rows.now.rows }
    ensures { IfOk result (λ f. f ≡ padded bound (part_of rows.now.unknowns (row_at rows.now.rows row))) }
{
    let line = rows.line(row);
    let at = rows.unknowns() + 1;
    let (_, parameters) = line.split_at(at + 1);
    padded(alloc, parameters, bound, line[at])
}

/// What is known of a leaf on the way: its forms, over the parameters and the `bound` ones that stand.
#[derive(Drop)]
struct Unfinished {
    bound: usize,
    forms: Vec<Form>,
}

/// Puts the part of one unknown more behind the forms; where its denominator does not divide it, its floor is bound.
fn place(
    alloc: Global,
    rows: &Rows,
    row: usize,
    leaf: &mut Unfinished,
    frames: &mut Vec<Frame>,
) -> Result<(), AllocError>
    requires row { row < length rows.now.rows }
    requires going { rows.now.stopped ≡ None }
    ensures tree { OnOk result ((rest : List Row) (trees : List Tree) (n left : ℕ) → under n frames.new.items trees
        (Ok (
          leaf_tree rows.now.unknowns (rows.now.parameters + leaf.new.bound) leaf.new.bound rest
              leaf.new.forms.items,
          left,
        ))
        ≡ under n frames.old.items trees (Ok (
          leaf_tree rows.now.unknowns (rows.now.parameters + leaf.old.bound) leaf.old.bound
              (row_at rows.now.rows row ∷ rest) leaf.old.forms.items,
          left,
        ))) }
    ensures sides { OnOk result (KeepsSides frames.old.items frames.new.items) }
{
    if is_divided(rows, row) {
        return match divided_part(alloc, rows, row, leaf.bound) {
            Err(error) => Err(error),
            Ok(form) => push(&mut leaf.forms, form),
        };
    }
    bind_part(alloc, rows, row, leaf, frames)
}

/// Binds the floor of a row's part by a frame, and puts the new variable behind the forms.
fn bind_part(
    alloc: Global,
    rows: &Rows,
    row: usize,
    leaf: &mut Unfinished,
    frames: &mut Vec<Frame>,
) -> Result<(), AllocError>
    requires row { row < length rows.now.rows }
    requires going { rows.now.stopped ≡ None }
    ensures tree { OnOk result ((rest : List Row) (trees : List Tree) (n left : ℕ) → under n frames.new.items trees
        (Ok (
          leaf_tree rows.now.unknowns (rows.now.parameters + leaf.new.bound) leaf.new.bound rest
              leaf.new.forms.items,
          left,
        ))
        ≡ under n frames.old.items trees (Ok (
          bind (padded leaf.old.bound (part_of rows.now.unknowns (row_at rows.now.rows row)))
              (row_at rows.now.rows row).denominator
              (leaf_tree rows.now.unknowns (suc (rows.now.parameters + leaf.old.bound)) (suc leaf.old.bound) rest
              (map longer_form leaf.old.forms.items
              ++ form_of (zeros (rows.now.parameters + leaf.old.bound) ++ pos 1 ∷ []) (pos 0) ∷ [])),
          left,
        ))) }
    ensures sides { OnOk result (KeepsSides frames.old.items frames.new.items) }
{
    let form = match padded_part(alloc, rows, row, leaf.bound) {
        Err(error) => return Err(error),
        Ok(form) => form,
    };
    let divisor = rows.line(row)[0];
    match put(frames, Frame::Binding { form, divisor }) {
        Err(error) => Err(error),
        Ok(()) => add_variable(alloc, rows.parameters(), leaf),
    }
}

/// Puts the form of one variable more behind the forms, over it too.
fn add_variable(alloc: Global, parameters: usize, leaf: &mut Unfinished) -> Result<(), AllocError>
    ensures bound { OnOk result (leaf.new.bound ≡ leaf.old.bound + 1) }
    ensures forms { OnOk result (leaf.new.forms.items ≡ map longer_form leaf.old.forms.items
        ++ form_of (zeros (parameters + leaf.old.bound) ++ pos 1 ∷ []) (pos 0) ∷ []) }
{
    let variables = match parameters.checked_add(leaf.bound) {
        None => return Err(AllocError),
        Some(variables) => variables,
    };
    let bound = match leaf.bound.checked_add(1) {
        None => return Err(AllocError),
        Some(bound) => bound,
    };
    match with_last(alloc, &leaf.forms, variables) {
        Err(error) => Err(error),
        Ok(forms) => {
            leaf.bound = bound;
            drop(mem::replace(&mut leaf.forms, forms));
            Ok(())
        }
    }
}

/// The forms over one variable more, and behind them the form of that variable.
fn with_last(alloc: Global, forms: &[Form], variables: usize) -> Result<Vec<Form>, AllocError>
    ensures { IfOk result (λ v. v.items ≡ map longer_form forms.now ++ form_of (zeros variables ++ pos 1 ∷ []) (pos 0)
        ∷ []) }
{
    match last_variable(alloc, variables) {
        Err(error) => Err(error),
        Ok(last) => longer_with(alloc, forms, last),
    }
}

/// The forms over one variable more, and another behind them.
pub fn longer_with(alloc: Global, forms: &[Form], last: Form) -> Result<Vec<Form>, AllocError>
    ensures { IfOk result (λ v. v.items ≡ map longer_form forms.now ++ last ∷ []) }
{
    let mut all = match longer_forms(alloc, forms) {
        Err(error) => return Err(error),
        Ok(all) => all,
    };
    match push(&mut all, last) {
        Err(error) => Err(error),
        Ok(()) => Ok(all),
    }
}

/// Puts the leaf of a node on top, and a frame for each bind round it.
pub fn leaf(
    alloc: Global,
    rows: &Rows,
    frames: &mut Vec<Frame>,
    builder: &mut Builder,
) -> Result<(), AllocError>
    requires many { rows.now.unknowns ≤ length rows.now.rows }
    requires going { rows.now.stopped ≡ None }
    ensures tree { OnOk result ((n left : ℕ) → under n frames.new.items (drop 1 (standing builder.new))
        (Ok (top (standing builder.new), left))
        ≡ under n frames.old.items (standing builder.old)
        (Ok (leaf_tree rows.now.unknowns rows.now.parameters 0 (take rows.now.unknowns rows.now.rows) [], left))) }
    ensures stands { OnOk result (length (standing builder.new) ≡ length (standing builder.old) + 1) }
    ensures sides { OnOk result (KeepsSides frames.old.items frames.new.items) }
{
    let mut leaf = Unfinished {
        bound: 0,
        forms: Vec::new(alloc),
    };
    for row in 0..rows.unknowns() {
        match place(alloc, rows, row, &mut leaf, frames) {
            Err(error) => return Err(error),
            Ok(()) => {}
        }
    }
    let Unfinished { bound, forms } = leaf;
    match rows.parameters().checked_add(bound) {
        None => Err(AllocError),
        Some(variables) => builder.leaf(variables, forms),
    }
}
