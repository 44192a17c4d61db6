//! Outside values of forms, computed by Python's integers.

ghost use Rattle.std.specs.Prelude.{◌≡◌};
ghost use Rattle.affine_forms.specs.Parts.{variables_of};

use crate::made::{form, is_row};
use affine_forms::{Form, FormStop};
use std::alloc::{AllocError, Global};
use wide_math::{Op, Wide};

const MIN: i128 = i128::MIN;

const MAX: i128 = i128::MAX;

const TWO_63: i128 = 9223372036854775808;

const TWO_64: i128 = 18446744073709551616;

const TWO_126: i128 = 85070591730234615865843651857942052864;

/// A form over nine variables.
const NINE: &[i128] = &[3, -5, 7, -11, 13, -17, 19, -23, 29, -71];

/// Another.
const TEN: &[i128] = &[1, -2, 3, -4, 5, -6, 7, -8, 9, 10];

/// Forms, points, and the values there.
const VALUES: &[(&[i128], &[i128], Result<i128, Wide>)] = &[
    (NINE, &[31, 37, -41, 43, -47, 53, 59, -61, 67], Ok(2032)),
    (&[TWO_64, 0], &[-TWO_63], Ok(MIN)),
    (
        &[TWO_64, 0],
        &[TWO_63],
        Err(Wide {
            op: Op::Mul,
            a: TWO_64,
            b: TWO_63,
        }),
    ),
    (
        &[1, -1],
        &[MIN],
        Err(Wide {
            op: Op::Add,
            a: MIN,
            b: -1,
        }),
    ),
    (&[TWO_126, TWO_126, -1], &[1, 0], Ok(TWO_126 - 1)),
    (
        &[TWO_126, TWO_126, -1],
        &[1, 1],
        Err(Wide {
            op: Op::Add,
            a: TWO_126,
            b: TWO_126,
        }),
    ),
];

/// What is made of a form and another.
#[derive(Clone, Copy)]
enum Made {
    Sum,
    Multiple(i128),
    /// The other in place of a variable.
    Substitution(usize),
    /// The other in place of the only variable.
    Composition,
    SumOfMultiples(i128, i128),
    DifferenceOfMultiples(i128, i128),
}

/// What is made of two forms, and the form that this is.
const FORMS: &[(Made, &[i128], &[i128], Result<&[i128], Wide>)] = &[
    (
        Made::Sum,
        TEN,
        NINE,
        Ok(&[4, -7, 10, -15, 18, -23, 26, -31, 38, -61]),
    ),
    (
        Made::Sum,
        &[TWO_126, MAX, 5],
        &[TWO_126 - 1, 0, -6],
        Ok(&[MAX, MAX, -1]),
    ),
    (
        Made::Sum,
        &[TWO_126, MAX, 5],
        &[TWO_126 - 1, 1, -6],
        Err(Wide {
            op: Op::Add,
            a: MAX,
            b: 1,
        }),
    ),
    (
        Made::Multiple(-6),
        NINE,
        NINE,
        Ok(&[-18, 30, -42, 66, -78, 102, -114, 138, -174, 426]),
    ),
    (
        Made::Multiple(-TWO_63),
        &[TWO_64, -TWO_64, 3],
        NINE,
        Err(Wide {
            op: Op::Mul,
            a: -TWO_63,
            b: -TWO_64,
        }),
    ),
    (
        Made::Substitution(1),
        &[2, 3, -5, 7],
        &[11, -13, 17, -19],
        Ok(&[35, -39, 46, -50]),
    ),
    (
        Made::Substitution(8),
        NINE,
        TEN,
        Ok(&[32, -63, 94, -127, 158, -191, 222, -255, 261, 219]),
    ),
    (
        Made::Substitution(1),
        &[TWO_126, 2, 0],
        &[TWO_126, 0, 0],
        Err(Wide {
            op: Op::Mul,
            a: 2,
            b: TWO_126,
        }),
    ),
    (
        Made::Composition,
        &[-2, -71],
        &[3, -5, 7, -11, 13, -17, 19, -23, 29, 4],
        Ok(&[-6, 10, -14, 22, -26, 34, -38, 46, -58, -79]),
    ),
    (
        Made::Composition,
        &[TWO_64, 1],
        &[1, TWO_63],
        Err(Wide {
            op: Op::Mul,
            a: TWO_64,
            b: TWO_63,
        }),
    ),
    (
        Made::SumOfMultiples(3, 2),
        &[5, -1, 7],
        &[4, 6, 11],
        Ok(&[23, 9, 43]),
    ),
    (
        Made::DifferenceOfMultiples(3, 2),
        &[5, -1, 7],
        &[4, 6, 11],
        Ok(&[7, -15, -1]),
    ),
];

/// The form of a row.
fn form_of(alloc: Global, row: &[i128]) -> Result<Form, AllocError> {
    form(alloc, row.len().saturating_sub(1), row)
}

/// The value of a form at a point.
fn value(alloc: Global, row: &[i128], point: &[i128]) -> Result<i128, FormStop> {
    match form(alloc, point.len(), row) {
        Err(_) => Err(FormStop::NoMemory),
        Ok(form) => form.value_at(point),
    }
}

/// The composition of a form over one variable with a copy of the other.
fn composition(form: &Form, other: &Form) -> Result<Form, FormStop>
    requires { variables_of form.now ≡ 1 }
{
    match other.copy() {
        Err(stop) => Err(stop),
        Ok(inner) => form.compose(&[inner], other.variables()),
    }
}

/// The form with the other in place of a variable, where it has that.
fn substitution(form: &Form, variable: usize, other: &Form) -> Result<Form, FormStop>
    requires { variables_of other.now ≡ variables_of form.now }
{
    if variable < form.variables() {
        form.substitute(variable, other)
    } else {
        Err(FormStop::NoMemory)
    }
}

/// What is made of two forms; no memory where they do not go together.
fn made_of(made: Made, form: &Form, other: &Form) -> Result<Form, FormStop> {
    let is_one = form.variables() == 1;
    let are_alike = form.variables() == other.variables();
    match made {
        Made::Multiple(factor) => form.scaled(factor),
        Made::Composition if is_one => composition(form, other),
        Made::Sum if are_alike => form.plus(other),
        Made::SumOfMultiples(a, b) if are_alike => form.sum_of_multiples(a, b, other),
        Made::DifferenceOfMultiples(a, b) if are_alike => form.difference_of_multiples(a, b, other),
        Made::Substitution(variable) if are_alike => substitution(form, variable, other),
        _ => Err(FormStop::NoMemory),
    }
}

/// What is made of the forms of two rows.
fn made_of_rows(alloc: Global, made: Made, row: &[i128], other: &[i128]) -> Result<Form, FormStop> {
    match form_of(alloc, row) {
        Err(_) => Err(FormStop::NoMemory),
        Ok(form) => match form_of(alloc, other) {
            Err(_) => Err(FormStop::NoMemory),
            Ok(other) => made_of(made, &form, &other),
        },
    }
}

/// Whether the answer is the form of a row, or this number is too wide.
fn is_answer(answer: Result<Form, FormStop>, want: Result<&[i128], Wide>) -> bool {
    match answer {
        Ok(form) => match want {
            Ok(row) => is_row(&form, row),
            Err(_) => false,
        },
        Err(stop) => match want {
            Ok(_) => false,
            Err(wide) => stop == FormStop::Wide(wide),
        },
    }
}

/// Whether the answer is the value, or this number is too wide.
fn is_value(answer: Result<i128, FormStop>, want: Result<i128, Wide>) -> bool {
    match answer {
        Ok(value) => match want {
            Ok(wanted) => value == wanted,
            Err(_) => false,
        },
        Err(stop) => match want {
            Ok(_) => false,
            Err(wide) => stop == FormStop::Wide(wide),
        },
    }
}

#[test]
fn values_and_partial_sums(rt: HostRuntime) {
    for case in VALUES {
        let (row, point, want) = *case;
        assert!(rt;
            is_value(value(rt.alloc(), row, point), want),
            "{row:?} at {point:?}"
        );
    }
}

#[test]
fn forms_made_of_forms(rt: HostRuntime) {
    for case in FORMS {
        let (made, row, other, want) = *case;
        let answer = made_of_rows(rt.alloc(), made, row, other);
        assert!(rt; is_answer(answer, want), "{row:?} and {other:?}");
    }
}
