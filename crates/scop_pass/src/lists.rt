//! Lists that grow by one, or stay as they are for want of memory.

ghost use Rattle.std.specs.Prelude.{◌≡◌, ◌-◌, ◌++◌, ◌∷◌, [], OnOk, length, map, take};
ghost use Rattle.scop_syntax.specs.View.{tree_of};
ghost use Rattle.scop_roles.specs.Formula.{formula_of};

use scop_roles::Formula;
use scop_syntax::{Item, Name};
use std::alloc::AllocError;

pub(crate) fn push<T: Drop>(list: &mut Vec<T>, last: T) -> Result<(), AllocError>
    ensures { OnOk result (list.new.items ≡ list.old.items ++ last ∷ []) }
{
    list.push(last)?;
    Ok(())
}

pub(crate) fn push_tree(trees: &mut Vec<Item>, tree: Item) -> Result<(), AllocError>
    ensures { OnOk result (map tree_of trees.new.items ≡ map tree_of trees.old.items ++ tree_of tree ∷ []) }
{
    push(trees, tree)
}

pub(crate) fn push_formula(formulas: &mut Vec<Formula>, formula: Formula) -> Result<(), AllocError>
    ensures { OnOk result (map formula_of formulas.new.items
        ≡ map formula_of formulas.old.items ++ formula_of formula ∷ []) }
{
    push(formulas, formula)
}

pub(crate) fn push_name(names: &mut Vec<Name>, name: Name) -> Result<(), AllocError>
    ensures { OnOk result (map (λ n. n.items) names.new.items
        ≡ map (λ n. n.items) names.old.items ++ name.items ∷ []) }
{
    push(names, name)
}

pub(crate) fn pop_name(names: &mut Vec<Name>)
    ensures { map (λ n. n.items) names.new.items
        ≡ take (length (map (λ n. n.items) names.old.items) - 1) (map (λ n. n.items) names.old.items) }
{
    let _name = names.pop();
}
