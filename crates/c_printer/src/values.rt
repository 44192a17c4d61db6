//! Puts the statements of a kernel behind a text.

ghost use Rattle.std.specs.Prelude.{◌≡◌, ◌++◌, [], codes, map, slice_index_or, OnOk};
ghost use Rattle.form_text.specs.Forms.{form_text};
ghost use Rattle.scop_syntax.specs.Tree.{Declaration};
ghost use Rattle.scop_syntax.specs.View.{expression_of, operator_of, program_of, right_of, statement_of};
ghost use Rattle.c_printer.specs.Statements.{access_text, between, constant_value_text, operator_text, right_text};
ghost use Rattle.c_printer.specs.Statements.{signed_text, statement_text, subscripts_text, value_text};

use crate::forms::put_form;
use crate::texts::put_between;
use form_text::put_bytes;
use itoa::Buffer;
use scop_syntax::{Access, Aff, Expr, Kernel, Name, Narrowing, Operator, Right, Stmt};
use std::alloc::AllocError;

/// Puts an operator.
fn put_operator(
    out: &mut Vec<u8>,
    front: &[u8],
    operator: Operator,
    end: &[u8],
) -> Result<(), AllocError>
    ensures { OnOk result (out.new.items
        ≡ out.old.items ++ between front.now (operator_text (operator_of operator)) end.now) }
{
    let sign = match operator {
        Operator::Plus => b"+",
        Operator::Minus => b"-",
        Operator::Times => b"*",
        Operator::And => b"&",
        Operator::Or => b"|",
        Operator::Xor => b"^",
    };
    put_between(out, front, sign, end)
}

/// Puts a constant.
#[tactic(auto, using(crate::proofs::PutTexts::putting))]
fn put_number(out: &mut Vec<u8>, number: u64) -> Result<(), AllocError>
    ensures { OnOk result (out.new.items ≡ out.old.items ++ constant_value_text number) }
{
    put_bytes(out, Buffer::new().format(number).as_bytes())?;
    put_bytes(out, b"ULL")
}

/// Puts a form between two texts.
#[tactic(auto, using(crate::proofs::PutTexts::putting), unfolding(crate::specs::Statements::between))]
fn put_enclosed(
    out: &mut Vec<u8>,
    names: &[Name],
    front: &[u8],
    form: &Aff,
    end: &[u8],
) -> Result<(), AllocError>
    ensures { OnOk result (out.new.items
        ≡ out.old.items ++ between front.now (form_text (map (λ n. n.items) names.now) form.now) end.now) }
{
    put_bytes(out, front)?;
    put_form(out, names, &form.coefficients, form.constant)?;
    put_bytes(out, end)
}

/// Puts `[FORM]` for each form.
#[tactic(auto, using(crate::proofs::PutTexts::putting))]
pub fn put_subscripts(out: &mut Vec<u8>, names: &[Name], forms: &[Aff]) -> Result<(), AllocError>
    ensures { OnOk result (out.new.items
        ≡ out.old.items ++ subscripts_text (map (λ n. n.items) names.now) forms.now) }
{
    for form in forms {
        match put_enclosed(out, names, b"[", form, b"]") {
            Ok(()) => {}
            Err(_) => return Err(AllocError),
        }
    }
    Ok(())
}

/// Puts the name of an array.
fn put_array_name(out: &mut Vec<u8>, kernel: &Kernel, array: usize) -> Result<(), AllocError>
    ensures { OnOk result (out.new.items ≡ out.old.items
        ++ slice_index_or (map (λ (d : Declaration). d.name) (program_of kernel.now).arrays) array []) }
{
    match kernel.arrays.get(array) {
        Some(declared) => put_bytes(out, &declared.name),
        None => Ok(()),
    }
}

/// Puts a cell.
#[tactic(auto, using(crate::proofs::PutTexts::putting))]
fn put_access(
    out: &mut Vec<u8>,
    kernel: &Kernel,
    names: &[Name],
    access: &Access,
) -> Result<(), AllocError>
    ensures { OnOk result (out.new.items
        ≡ out.old.items ++ access_text (program_of kernel.now) (map (λ n. n.items) names.now) access.now) }
{
    put_array_name(out, kernel, access.array)?;
    put_subscripts(out, names, &access.subscripts)
}

/// Puts a value, each operator in parentheses with its operands.
#[cycle(writing)]
#[tactic(auto, using(crate::proofs::PutTexts::putting))]
fn put_value(
    value: &Expr,
    out: &mut Vec<u8>,
    kernel: &Kernel,
    names: &[Name],
) -> Result<(), AllocError>
    ensures { OnOk result (out.new.items ≡ out.old.items
        ++ value_text (program_of kernel.now) (map (λ n. n.items) names.now) (expression_of value.now)) }
{
    match value {
        Expr::Read(access) => put_access(out, kernel, names, access),
        Expr::Constant(number) => put_number(out, *number),
        Expr::Affine(form) => put_enclosed(out, names, b"(uint64_t)(", form, b")"),
        Expr::Negated(inner) => put_within(inner, out, kernel, names, b"(-", b")"),
        Expr::Complemented(inner) => put_within(inner, out, kernel, names, b"(~", b")"),
        Expr::Cast(inner) => put_behind(inner, out, kernel, names, b"(uint64_t)"),
        Expr::Binary(operator, left, right) => {
            put_behind(left, out, kernel, names, b"(")?;
            put_operand(right, out, kernel, names, *operator)
        }
        Expr::ShiftedLeft(inner, count) => put_shifted(inner, out, kernel, names, b" << ", *count),
        Expr::ShiftedRight(inner, count) => put_shifted(inner, out, kernel, names, b" >> ", *count),
        Expr::Narrowed(narrowing, inner) => match narrowing {
            Narrowing::Explicit => put_behind(inner, out, kernel, names, b"(uint32_t)"),
            Narrowing::Implied => put_value(inner, out, kernel, names),
            Narrowing::Converted => put_converted(inner, out, kernel, names),
        },
    }
}

/// Puts a value behind a cast to 32 bits, a signed part as the number that it is.
#[cycle(writing)]
#[tactic(auto, using(crate::proofs::PutTexts::putting))]
fn put_converted(
    value: &Expr,
    out: &mut Vec<u8>,
    kernel: &Kernel,
    names: &[Name],
) -> Result<(), AllocError>
    ensures { OnOk result (out.new.items ≡ out.old.items ++ (codes "(uint32_t)"
        ++ signed_text (map (λ n. n.items) names.now) (expression_of value.now)
        (value_text (program_of kernel.now) (map (λ n. n.items) names.now) (expression_of value.now)))) }
{
    put_bytes(out, b"(uint32_t)")?;
    match value {
        Expr::Constant(number) => {
            put_between(out, b"(", Buffer::new().format(*number).as_bytes(), b")")
        }
        Expr::Affine(form) => put_enclosed(out, names, b"(", form, b")"),
        Expr::Read(_)
        | Expr::Negated(_)
        | Expr::Complemented(_)
        | Expr::Cast(_)
        | Expr::Binary(..)
        | Expr::ShiftedLeft(..)
        | Expr::ShiftedRight(..)
        | Expr::Narrowed(..) => put_value(value, out, kernel, names),
    }
}

/// Puts a value behind a text.
#[cycle(writing)]
#[tactic(auto, using(crate::proofs::PutTexts::putting))]
fn put_behind(
    value: &Expr,
    out: &mut Vec<u8>,
    kernel: &Kernel,
    names: &[Name],
    front: &[u8],
) -> Result<(), AllocError>
    ensures { OnOk result (out.new.items ≡ out.old.items ++ (front.now
        ++ value_text (program_of kernel.now) (map (λ n. n.items) names.now) (expression_of value.now))) }
{
    put_bytes(out, front)?;
    put_value(value, out, kernel, names)
}

/// Puts a value between two texts.
#[cycle(writing)]
#[tactic(auto, using(crate::proofs::PutTexts::putting), unfolding(crate::specs::Statements::between))]
fn put_within(
    value: &Expr,
    out: &mut Vec<u8>,
    kernel: &Kernel,
    names: &[Name],
    front: &[u8],
    end: &[u8],
) -> Result<(), AllocError>
    ensures { OnOk result (out.new.items ≡ out.old.items ++ between front.now
        (value_text (program_of kernel.now) (map (λ n. n.items) names.now) (expression_of value.now)) end.now) }
{
    put_behind(value, out, kernel, names, front)?;
    put_bytes(out, end)
}

/// Puts an operator, its second operand and a closing parenthesis.
#[cycle(writing)]
#[tactic(auto, using(crate::proofs::PutTexts::putting))]
fn put_operand(
    value: &Expr,
    out: &mut Vec<u8>,
    kernel: &Kernel,
    names: &[Name],
    operator: Operator,
) -> Result<(), AllocError>
    ensures { OnOk result (out.new.items ≡ out.old.items
        ++ (between (codes " ") (operator_text (operator_of operator)) (codes " ")
        ++ (value_text (program_of kernel.now) (map (λ n. n.items) names.now) (expression_of value.now)
        ++ codes ")"))) }
{
    put_operator(out, b" ", operator, b" ")?;
    put_value(value, out, kernel, names)?;
    put_bytes(out, b")")
}

/// Puts a shifted value in parentheses.
#[cycle(writing)]
#[tactic(auto, using(crate::proofs::PutTexts::putting))]
fn put_shifted(
    value: &Expr,
    out: &mut Vec<u8>,
    kernel: &Kernel,
    names: &[Name],
    sign: &[u8],
    count: u8,
) -> Result<(), AllocError>
    ensures { OnOk result (out.new.items ≡ out.old.items ++ (codes "("
        ++ (value_text (program_of kernel.now) (map (λ n. n.items) names.now) (expression_of value.now)
        ++ between sign.now (constant_value_text count) (codes ")")))) }
{
    put_behind(value, out, kernel, names, b"(")?;
    put_shift(out, sign, count, b")")
}

/// Puts a shift's sign and count, and what stands behind.
#[tactic(auto, using(crate::proofs::PutTexts::putting), unfolding(crate::specs::Statements::between))]
fn put_shift(out: &mut Vec<u8>, sign: &[u8], count: u8, end: &[u8]) -> Result<(), AllocError>
    ensures { OnOk result (out.new.items ≡ out.old.items ++ between sign.now (constant_value_text count) end.now) }
{
    put_bytes(out, sign)?;
    put_number(out, u64::from(count))?;
    put_bytes(out, end)
}

/// Puts what stands behind a place.
#[tactic(auto, using(crate::proofs::PutTexts::putting))]
fn put_right(
    out: &mut Vec<u8>,
    kernel: &Kernel,
    names: &[Name],
    right: &Right,
) -> Result<(), AllocError>
    ensures { OnOk result (out.new.items ≡ out.old.items
        ++ right_text (program_of kernel.now) (map (λ n. n.items) names.now) (right_of right.now)) }
{
    match right {
        Right::Assigned(value) => put_behind(value, out, kernel, names, b" = "),
        Right::Combined(operator, value) | Right::CombinedNarrow(operator, value) => {
            put_operator(out, b" ", *operator, b"= ")?;
            put_value(value, out, kernel, names)
        }
        Right::ShiftedLeft(count) | Right::ShiftedLeftNarrow(count) => {
            put_bytes(out, b" <<= ")?;
            put_number(out, u64::from(*count))
        }
        Right::ShiftedRight(count) => {
            put_bytes(out, b" >>= ")?;
            put_number(out, u64::from(*count))
        }
    }
}

/// Puts a statement.
#[tactic(auto, using(crate::proofs::PutTexts::putting), unfolding(crate::specs::Statements::statement_text))]
pub fn put_statement(
    out: &mut Vec<u8>,
    kernel: &Kernel,
    names: &[Name],
    statement: &Stmt,
) -> Result<(), AllocError>
    ensures { OnOk result (out.new.items ≡ out.old.items
        ++ statement_text (program_of kernel.now) (map (λ n. n.items) names.now) (statement_of statement.now)) }
{
    put_access(out, kernel, names, &statement.place)?;
    put_right(out, kernel, names, &statement.right)
}
