//! Puts the text of a quast, from its front to its end and without recursion: what waits behind what is written lies on
//! a stack.

ghost use Rattle.std.specs.Prelude.{◌≡◌, ◌<◌, ◌+◌, ◌-◌, ◌++◌, [], ◌∷◌, suc, IfOk, OnOk, codes, length, true};
ghost use Rattle.std.specs.Prelude.{reverse};
ghost use Rattle.form_text.specs.Forms.{form_text};
ghost use Rattle.quast_trees.specs.Postfix.{tree_of};
ghost use Rattle.quast_trees.specs.Source.{source_held};
ghost use Rattle.quast_text.specs.Text.{bound_name, comma, forms_from, leaf_text, let_text, quast_text};
ghost use Rattle.quast_text.specs.Text.{statement_name, test_text, texts_of};
ghost use Rattle.quast_text.specs.steps.Waiting.{GoesOn, weight, weights};
ghost use Rattle.quast_text.specs.declared.writer.Rest.TheVariants as rest;

use form_text::{put_bytes, put_constant, put_form, put_numeral};
use quast_trees::{Form, Forms, Part, Place, Quast, Source};
use std::alloc::{AllocError, Global};

/// What waits, the nearest on top.
#[derive(Drop)]
pub(crate) enum Rest<'a> {
    /// A tree.
    Tree(Place<'a>),
    /// The second side of a branch, with what stands in front of it and behind it.
    Second(Place<'a>),
    /// The end of a branch.
    EndOfBranch,
    /// The end of a `let`: what it binds goes out of scope.
    EndOfLet,
}

/// Lays a part on the stack.
fn lay<'a>(stack: &mut Vec<Rest<'a>>, part: Rest<'a>) -> Result<(), AllocError>
    ensures { OnOk result (stack.new.items ≡ stack.old.items ++ part.entry ∷ []) }
{
    match stack.push(part) {
        Err(_) => Err(AllocError),
        Ok(()) => Ok(()),
    }
}

/// Puts a form over names.
fn put_named(out: &mut Vec<u8>, names: &[Vec<u8>], form: &Form) -> Result<(), AllocError>
    ensures { OnOk result (out.new.items ≡ out.old.items ++ form_text (texts_of names.now) form.now) }
{
    put_form(out, names, form.coefficients(), form.constant())
}

/// What stands in front of the entry at a place.
fn comma(at: usize) -> &'static [u8]
    ensures { result.now ≡ comma at }
{
    if at == 0 {
        return &[];
    }
    b", "
}

/// Puts a form of a leaf, and what stands in front of it.
fn put_entry(out: &mut Vec<u8>, names: &[Vec<u8>], at: usize, form: &Form) -> Result<(), AllocError>
    ensures { OnOk result
        (out.new.items ≡ out.old.items ++ (comma at ++ form_text (texts_of names.now) form.now)) }
{
    put_bytes(out, comma(at))?;
    put_named(out, names, form)?;
    Ok(())
}

/// Puts the forms of a leaf.
fn put_forms(out: &mut Vec<u8>, names: &[Vec<u8>], forms: &[Form]) -> Result<(), AllocError>
    ensures { OnOk result (out.new.items ≡ out.old.items ++ forms_from (texts_of names.now) 0 forms.now) }
{
    for at in 0..forms.len() {
        put_entry(out, names, at, &forms[at])?;
    }
    Ok(())
}

/// Puts the statement that a leaf is an instance of, where it is known.
fn put_statement(out: &mut Vec<u8>, source: &Option<Source>) -> Result<(), AllocError>
    ensures { OnOk result (out.new.items ≡ out.old.items ++ statement_name (source_held source.now)) }
{
    match source {
        None => Ok(()),
        Some(source) => {
            put_bytes(out, b"S")?;
            put_numeral(out, source.statement as u128 + 1)?;
            put_bytes(out, b" ")?;
            Ok(())
        }
    }
}

/// Puts a leaf.
fn put_leaf(out: &mut Vec<u8>, names: &[Vec<u8>], leaf: &Forms) -> Result<(), AllocError>
    ensures { OnOk result (out.new.items ≡ out.old.items ++ leaf_text (texts_of names.now) leaf.now) }
{
    put_statement(out, &leaf.source)?;
    put_bytes(out, b"(")?;
    put_forms(out, names, &leaf.forms)?;
    put_bytes(out, b")")?;
    Ok(())
}

/// Puts the head of a branch.
fn put_test(out: &mut Vec<u8>, names: &[Vec<u8>], test: &Form) -> Result<(), AllocError>
    ensures { OnOk result (out.new.items ≡ out.old.items ++ test_text (texts_of names.now) test.now) }
{
    put_bytes(out, b"if ")?;
    put_named(out, names, test)?;
    put_bytes(out, b" >= 0 { ")?;
    Ok(())
}

/// Puts `let ` and the name of what the `let` of this number binds.
fn put_bound(out: &mut Vec<u8>, number: u128) -> Result<(), AllocError>
    ensures { OnOk result (out.new.items ≡ out.old.items ++ (codes "let " ++ bound_name number)) }
{
    put_bytes(out, b"let #")?;
    put_numeral(out, number)?;
    Ok(())
}

/// Puts the head of a `let`.
fn put_let(
    out: &mut Vec<u8>,
    names: &[Vec<u8>],
    number: u128,
    form: &Form,
    divisor: i128,
) -> Result<(), AllocError>
    ensures { OnOk result
        (out.new.items ≡ out.old.items ++ let_text (texts_of names.now) number form.now divisor) }
{
    put_bound(out, number)?;
    put_bytes(out, b" = floor(")?;
    put_named(out, names, form)?;
    put_bytes(out, b" / ")?;
    put_constant(out, true, divisor)?;
    put_bytes(out, b") { ")?;
    Ok(())
}

/// The name of what the `let` of this number binds.
fn bound_name(alloc: Global, number: u128) -> Result<Vec<u8>, AllocError>
    ensures { IfOk result (λ name. name.items ≡ bound_name number) }
{
    let mut name = Vec::new(alloc);
    put_bytes(&mut name, b"#")?;
    put_numeral(&mut name, number)?;
    Ok(name)
}

/// Brings into scope what the `let` of this number binds.
fn bring(names: &mut Vec<Vec<u8>>, number: u128) -> Result<(), AllocError>
    ensures { OnOk result (texts_of names.new.items ≡ texts_of names.old.items ++ bound_name number ∷ []) }
{
    let name = bound_name(*names.allocator(), number)?;
    match names.push(name) {
        Err(_) => Err(AllocError),
        Ok(()) => Ok(()),
    }
}

/// The number of the next `let`.
fn next_let(names: &[Vec<u8>], outer: usize) -> u128
    ensures { result ≡ suc (length names.now - outer) }
{
    names.len().saturating_sub(outer) as u128 + 1
}

/// Puts the head of a `let`, and leaves its body on the stack and its end below.
fn put_bind<'a>(
    out: &mut Vec<u8>,
    names: &mut Vec<Vec<u8>>,
    outer: usize,
    stack: &mut Vec<Rest<'a>>,
    form: &Form,
    divisor: i128,
    body: Place<'a>,
) -> Result<(), AllocError>
    ensures text { OnOk result (out.new.items ≡ out.old.items
        ++ let_text (texts_of names.old.items) (suc (length names.old.items - outer)) form.now divisor) }
    ensures names { OnOk result (texts_of names.new.items
        ≡ texts_of names.old.items ++ bound_name (suc (length names.old.items - outer)) ∷ []) }
    ensures stack { OnOk result
        (stack.new.items ≡ (stack.old.items ++ rest.EndOfLet ∷ []) ++ rest.Tree body.entry ∷ []) }
{
    let number = next_let(names, outer);
    put_let(out, names, number, form, divisor)?;
    bring(names, number)?;
    lay(stack, Rest::EndOfLet)?;
    lay(stack, Rest::Tree(body))?;
    Ok(())
}

/// Puts the head of a branch, and leaves its sides on the stack.
fn put_branch<'a>(
    out: &mut Vec<u8>,
    names: &[Vec<u8>],
    stack: &mut Vec<Rest<'a>>,
    test: &Form,
    first: Place<'a>,
    second: Place<'a>,
) -> Result<(), AllocError>
    ensures text { OnOk result (out.new.items ≡ out.old.items ++ test_text (texts_of names.now) test.now) }
    ensures stack { OnOk result
        (stack.new.items ≡ (stack.old.items ++ rest.Second second.entry ∷ []) ++ rest.Tree first.entry ∷ []) }
{
    put_test(out, names, test)?;
    lay(stack, Rest::Second(second))?;
    lay(stack, Rest::Tree(first))?;
    Ok(())
}

/// Puts a tree's own node, and leaves its sides on the stack.
fn put_tree<'a>(
    out: &mut Vec<u8>,
    names: &mut Vec<Vec<u8>>,
    outer: usize,
    stack: &mut Vec<Rest<'a>>,
    place: Place<'a>,
) -> Result<(), AllocError>
    ensures text { OnOk result (GoesOn outer
        (rest.Tree place.entry ∷ reverse stack.old.items) names.old.items out.old.items
        (reverse stack.new.items) names.new.items out.new.items) }
    ensures less { OnOk result (weights stack.new.items < weights stack.old.items + weight (rest.Tree place.entry)) }
{
    match place.part() {
        Part::Initial => put_bytes(out, b"initial"),
        Part::Forms(leaf) => put_leaf(out, names, leaf),
        Part::Branch {
            test,
            first,
            second,
        } => put_branch(out, names, stack, test, first, second),
        Part::Bind {
            form,
            divisor,
            body,
        } => put_bind(out, names, outer, stack, form, divisor, body),
    }
}

/// Puts what stands in front of a second side, and leaves the side on the stack.
fn put_second<'a>(
    out: &mut Vec<u8>,
    stack: &mut Vec<Rest<'a>>,
    place: Place<'a>,
) -> Result<(), AllocError>
    ensures text { OnOk result (out.new.items ≡ out.old.items ++ codes " } else { ") }
    ensures stack { OnOk result
        (stack.new.items ≡ (stack.old.items ++ rest.EndOfBranch ∷ []) ++ rest.Tree place.entry ∷ []) }
{
    put_bytes(out, b" } else { ")?;
    lay(stack, Rest::EndOfBranch)?;
    lay(stack, Rest::Tree(place))?;
    Ok(())
}

/// Puts what lay on top of the stack, or its front.
fn put_part<'a>(
    out: &mut Vec<u8>,
    names: &mut Vec<Vec<u8>>,
    outer: usize,
    stack: &mut Vec<Rest<'a>>,
    part: Rest<'a>,
) -> Result<(), AllocError>
    ensures text { OnOk result (GoesOn outer (part.entry ∷ reverse stack.old.items) names.old.items out.old.items
        (reverse stack.new.items) names.new.items out.new.items) }
    ensures less { OnOk result (weights stack.new.items < weights stack.old.items + weight part.entry) }
{
    match part {
        Rest::Tree(place) => put_tree(out, names, outer, stack, place),
        Rest::Second(place) => put_second(out, stack, place),
        Rest::EndOfBranch => put_bytes(out, b" }"),
        Rest::EndOfLet => {
            let _name = names.pop();
            put_bytes(out, b" }")
        }
    }
}

/// Puts the text of a quast over names behind a text. Its time is that of the text's length and, for each form, of the
/// names in scope.
///
/// # Errors
/// Memory ran out; the names in scope may then stand behind the others.
pub fn put_quast(
    out: &mut Vec<u8>,
    names: &mut Vec<Vec<u8>>,
    quast: &Quast,
) -> Result<(), AllocError>
    ensures names { OnOk result (texts_of names.new.items ≡ texts_of names.old.items) }
    ensures text { OnOk result
        (out.new.items ≡ out.old.items ++ quast_text (texts_of names.old.items) 0 (tree_of quast.now)) }
{
    let outer = names.len();
    let mut stack = Vec::new(*out.allocator());
    lay(&mut stack, Rest::Tree(quast.root()))?;
    loop {
        match stack.pop() {
            None => return Ok(()),
            Some(part) => put_part(out, names, outer, &mut stack, part)?,
        }
    }
}
