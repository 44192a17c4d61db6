//! The parts of a kernel, made from plain numbers and texts.

ghost use Rattle.std.specs.Prelude.{◌≡◌, [], ◌∷◌, IfOk, false, map};
ghost use Rattle.whole_numbers.specs.Affine.{form_of};
ghost use Rattle.scop_syntax.specs.Tree.{binary, read};
ghost use Rattle.scop_syntax.specs.View.{expression_of, items_of, operator_of, program_of, right_of, tree_of};
ghost use Rattle.kernel_gen.specs.Programs.{arrays_of, counted, only, place, store, upwards};

use scop_syntax::{Access, Aff, Array, Expr, Item, Kernel, Loop, Name, Operator, Right, Stmt};
use std::alloc::{AllocError, Global};

/// A form as plain numbers: its coefficients and its constant.
pub(crate) type Plain<'a> = (&'a [i64], i64);

/// A list of one.
pub(crate) fn one<T: Drop>(alloc: Global, value: T) -> Result<Vec<T>, AllocError>
    ensures { IfOk result (λ list. list.items ≡ value ∷ []) }
{
    let mut list = Vec::new(alloc);
    list.push(value)?;
    Ok(list)
}

/// A form.
fn form(alloc: Global, plain: Plain) -> Result<Aff, AllocError>
    ensures { IfOk result (λ form. form ≡ form_of plain.entry.0.now plain.entry.1) }
{
    let coefficients = Vec::from_slice(alloc, plain.0)?;
    Ok(Aff {
        coefficients,
        constant: plain.1,
    })
}

/// Forms.
fn forms(alloc: Global, plain: &[Plain]) -> Result<Vec<Aff>, AllocError>
    ensures { IfOk result (λ forms. forms.items ≡ map (λ f. form_of f.0.now f.1) plain.now) }
{
    let mut forms = Vec::with_capacity(alloc, plain.len())?;
    for at in 0..plain.len() {
        forms.push(form(alloc, plain[at])?)?;
    }
    Ok(forms)
}

/// An array's cell by its subscripts.
pub(crate) fn access(
    alloc: Global,
    array: usize,
    subscripts: &[Plain],
) -> Result<Access, AllocError>
    ensures { IfOk result (λ access. access ≡ place array (map (λ f. form_of f.0.now f.1) subscripts.now)) }
{
    let subscripts = forms(alloc, subscripts)?;
    Ok(Access { array, subscripts })
}

/// The value of a cell.
pub(crate) fn read(access: Access) -> Expr
    ensures { expression_of result ≡ read access }
{
    Expr::Read(access)
}

/// What an operator makes of two values.
pub(crate) fn binary(
    alloc: Global,
    operator: Operator,
    left: Expr,
    right: Expr,
) -> Result<Expr, AllocError>
    ensures { IfOk result (λ value. expression_of value
        ≡ binary (operator_of operator) (expression_of left) (expression_of right)) }
{
    let left = Box::new(alloc, left)?;
    let right = Box::new(alloc, right)?;
    Ok(Expr::Binary(operator, left, right))
}

/// A statement.
pub(crate) fn store(place: Access, right: Right) -> Item
    ensures { tree_of result ≡ store place (right_of right) }
{
    Item::Stmt(Stmt { place, right })
}

/// The head of a loop upwards.
fn head(alloc: Global, iterator: &[u8], first: Plain, condition: Plain) -> Result<Loop, AllocError>
    ensures { IfOk result (λ head. head ≡ upwards iterator.now (form_of first.entry.0.now first.entry.1)
        (form_of condition.entry.0.now condition.entry.1)) }
{
    let iterator = Vec::from_slice(alloc, iterator)?;
    let first = form(alloc, first)?;
    let condition = form(alloc, condition)?;
    Ok(Loop {
        iterator,
        first,
        stride: 1,
        condition,
    })
}

/// A loop upwards round some items.
pub(crate) fn counted_all(
    alloc: Global,
    iterator: &[u8],
    first: Plain,
    condition: Plain,
    body: Vec<Item>,
) -> Result<Item, AllocError>
    ensures { IfOk result (λ item. tree_of item ≡ counted iterator.now (form_of first.entry.0.now first.entry.1)
        (form_of condition.entry.0.now condition.entry.1) (items_of body.items)) }
{
    let head = head(alloc, iterator, first, condition)?;
    Ok(Item::Loop(head, body))
}

/// A loop upwards round one item.
pub(crate) fn counted(
    alloc: Global,
    iterator: &[u8],
    first: Plain,
    condition: Plain,
    item: Item,
) -> Result<Item, AllocError>
    ensures { IfOk result (λ loop. tree_of loop ≡ counted iterator.now (form_of first.entry.0.now first.entry.1)
        (form_of condition.entry.0.now condition.entry.1) (only (tree_of item))) }
{
    let body = one(alloc, item)?;
    counted_all(alloc, iterator, first, condition, body)
}

/// An array.
fn array(
    alloc: Global,
    name: &[u8],
    parameters_before: usize,
    extents: &[Plain],
) -> Result<Array, AllocError>
    ensures { IfOk result (λ array. array ≡ record {
      name = name.now;
      parameters_before = parameters_before;
      narrow = false;
      extents = map (λ f. form_of f.0.now f.1) extents.now;
    }) }
{
    let name = Vec::from_slice(alloc, name)?;
    let extents = forms(alloc, extents)?;
    Ok(Array {
        name,
        parameters_before,
        narrow: false,
        extents,
    })
}

/// Arrays with the same extents.
pub(crate) fn arrays(
    alloc: Global,
    names: &[&[u8]],
    parameters_before: usize,
    extents: &[Plain],
) -> Result<Vec<Array>, AllocError>
    ensures { IfOk result (λ arrays. arrays.items ≡ arrays_of (map (λ n. n.now) names.now) parameters_before
        (map (λ f. form_of f.0.now f.1) extents.now)) }
{
    let mut arrays = Vec::with_capacity(alloc, names.len())?;
    for at in 0..names.len() {
        arrays.push(array(alloc, names[at], parameters_before, extents)?)?;
    }
    Ok(arrays)
}

/// Names.
fn names(alloc: Global, texts: &[&[u8]]) -> Result<Vec<Name>, AllocError>
    ensures { IfOk result (λ names. map (λ n. n.items) names.items ≡ map (λ t. t.now) texts.now) }
{
    let mut names = Vec::with_capacity(alloc, texts.len())?;
    for at in 0..texts.len() {
        names.push(Vec::from_slice(alloc, texts[at])?)?;
    }
    Ok(names)
}

/// A kernel of one item.
pub(crate) fn kernel(
    alloc: Global,
    name: &[u8],
    parameters: &[&[u8]],
    arrays: Vec<Array>,
    item: Item,
) -> Result<Kernel, AllocError>
    ensures { IfOk result (λ kernel. program_of kernel ≡ record {
      name = name.now;
      parameters = map (λ t. t.now) parameters.now;
      arrays = arrays.items;
      body = only (tree_of item);
    }) }
{
    let items = one(alloc, item)?;
    let name = Vec::from_slice(alloc, name)?;
    let parameters = names(alloc, parameters)?;
    Ok(Kernel {
        name,
        parameters,
        arrays,
        items,
    })
}
