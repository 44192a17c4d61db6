//! The leaf of a quast at a point, found from the root down by the places of the nodes.
ghost use Rattle.std.specs.Prelude.{◌≡◌, ◌+◌, ◌-◌, ◌<◌, ◌≤◌, pos, ◌≤ℤ◌, length, IfOk, All};
ghost use Rattle.affine_forms.specs.Gives.{Gives};
ghost use Rattle.quast_trees.specs.Postfix.{tree_of};
ghost use Rattle.quast_trees.specs.Leaf.{leaf_of};
ghost use Rattle.quast_trees.specs.Value.{by_sign, value, value_run, values_run, leaf_run, bound_run};

use crate::leaf::Leaf;
use crate::naming::copied_source;
use crate::node::{Forms, Node};
use crate::quast::Quast;
use affine_forms::{Form, FormStop};
use std::alloc::Global;
use wide_math::floor_div;

impl Quast {
    /// The leaf at a point, which has a value for each parameter.
    ///
    /// # Errors
    /// `Wide` exactly where a number on the point's way does not fit 128 bits: the first of them, the
    /// tests and the bound forms from the root down, then the leaf's forms in order.
    pub fn value_at(&self, point: &[i128]) -> Result<Leaf, FormStop>
        requires { length point.now ≡ self.now.parameters }
        ensures run { Gives leaf_of result (value_run (tree_of self.now) point.now) }
        ensures value { IfOk result (λ leaf. leaf_of leaf ≡ value (tree_of self.now) point.now) }
    {
        let alloc = self.allocator();
        let mut values = match Vec::from_slice(alloc, point) {
            Err(_) => return Err(FormStop::NoMemory),
            Ok(values) => values,
        };
        let nodes = self.nodes();
        // The root stands last, and each side before its node.
        let mut at = nodes.len() - 1;
        loop {
            match &nodes[at] {
                Node::Initial => return Ok(Leaf::Initial),
                Node::Forms(forms) => return leaf_at(alloc, forms, &values),
                Node::Branch { test, second } => match test.value_at(&values) {
                    Err(stop) => return Err(stop),
                    Ok(value) => at = side_at(at, value, *second),
                },
                Node::Bind { form, divisor } => match push_quotient(form, *divisor, &mut values) {
                    Err(stop) => return Err(stop),
                    Ok(()) => at -= 1,
                },
            }
        }
    }
}

// The place of the side that a number chooses of a branch at a place.
fn side_at(at: usize, value: i128, second: usize) -> usize
    requires { second + 1 ≤ at }
    ensures place { result ≡ at - by_sign value (second + 1) 1 }
    ensures falls { result < at }
{
    if value >= 0 {
        at - (second + 1)
    } else {
        at - 1
    }
}

// The values of the leaf's forms, with its source.
fn leaf_at(alloc: Global, leaf: &Forms, point: &[i128]) -> Result<Leaf, FormStop>
    requires { All (λ f. length f.coefficients ≡ length point.now) leaf.now.forms }
    ensures { Gives leaf_of result (leaf_run leaf.now point.now) }
{
    let values = match values_at(alloc, &leaf.forms, point) {
        Err(stop) => return Err(stop),
        Ok(values) => values,
    };
    match copied_source(alloc, &leaf.source) {
        Err(_) => Err(FormStop::NoMemory),
        Ok(source) => Ok(Leaf::Found { source, values }),
    }
}

// The value of each form at a point.
fn values_at(alloc: Global, forms: &[Form], point: &[i128]) -> Result<Vec<i128>, FormStop>
    requires { All (λ f. length f.coefficients ≡ length point.now) forms.now }
    ensures { Gives (λ v. v.items) result (values_run forms.now point.now) }
{
    let mut values = match Vec::with_capacity(alloc, forms.len()) {
        Err(_) => return Err(FormStop::NoMemory),
        Ok(values) => values,
    };
    for form in forms {
        match form.value_at(point) {
            Err(stop) => return Err(stop),
            Ok(value) => match values.push(value) {
                Err(_) => return Err(FormStop::NoMemory),
                Ok(()) => {}
            },
        }
    }
    Ok(values)
}

// Puts the quotient of a form's value by the divisor, rounded down, behind the point.
fn push_quotient(form: &Form, divisor: i128, point: &mut Vec<i128>) -> Result<(), FormStop>
    requires variables { length form.now.coefficients ≡ length point.old.items }
    requires divisor { pos 1 ≤ℤ divisor }
    ensures { Gives (λ _. point.new.items) result (bound_run form.now divisor point.old.items) }
{
    let value = match form.value_at(point) {
        Err(stop) => return Err(stop),
        Ok(value) => value,
    };
    let quotient = match floor_div(value, divisor) {
        Err(wide) => return Err(FormStop::Wide(wide)),
        Ok(quotient) => quotient,
    };
    match point.push(quotient) {
        Err(_) => Err(FormStop::NoMemory),
        Ok(()) => Ok(()),
    }
}
