//! A quast as text, node by node, without recursion.

use affine_forms::{Form, push};
use quast_trees::{Part, Place, Quast};
use std::alloc::AllocError;
use std::io;

/// What is still to be printed.
#[derive(Drop)]
enum Piece<'a> {
    Tree(Place<'a>),
    Space,
    Close,
}

/// Prints a form's numbers in brackets.
fn print_form<R: Print + AllocGlobal>(rt: &R, form: &Form) -> io::Result<()> {
    print!(rt; "[")?;
    for coefficient in form.coefficients() {
        print!(rt; "{coefficient} ")?;
    }
    print!(rt; "{}]", form.constant())
}

/// Prints a leaf of forms.
fn print_leaf<R: Print + AllocGlobal>(rt: &R, forms: &[Form]) -> io::Result<()> {
    print!(rt; "(leaf")?;
    for form in forms {
        print!(rt; " ")?;
        print_form(rt, form)?;
    }
    print!(rt; ")")
}

/// Prints what stands in front of the sides of a branch.
fn print_test<R: Print + AllocGlobal>(rt: &R, test: &Form) -> io::Result<()> {
    print!(rt; "(if ")?;
    print_form(rt, test)?;
    print!(rt; " ")
}

/// Prints what stands in front of the body of a division.
fn print_division<R: Print + AllocGlobal>(rt: &R, form: &Form, divisor: i128) -> io::Result<()> {
    print!(rt; "(let ")?;
    print_form(rt, form)?;
    print!(rt; " {divisor} ")
}

/// Puts the sides of a branch on the pieces that are still to be printed, the first on top.
fn push_sides<'a>(
    pieces: &mut Vec<Piece<'a>>,
    first: Place<'a>,
    second: Place<'a>,
) -> Result<(), AllocError> {
    push(pieces, Piece::Close)?;
    push(pieces, Piece::Tree(second))?;
    push(pieces, Piece::Space)?;
    push(pieces, Piece::Tree(first))
}

/// Puts the body of a division there.
fn push_body<'a>(pieces: &mut Vec<Piece<'a>>, body: Place<'a>) -> Result<(), AllocError> {
    push(pieces, Piece::Close)?;
    push(pieces, Piece::Tree(body))
}

/// Prints a tree's own node, and puts the trees within on the pieces that are still to be printed.
fn print_part<'a, R: Print + AllocGlobal>(
    rt: &R,
    part: Part<'a>,
    pieces: &mut Vec<Piece<'a>>,
) -> io::Result<()> {
    match part {
        Part::Initial => print!(rt; "none"),
        Part::Forms(forms) => print_leaf(rt, &forms.forms),
        Part::Branch {
            test,
            first,
            second,
        } => {
            print_test(rt, test)?;
            Ok(push_sides(pieces, first, second)?)
        }
        Part::Bind {
            form,
            divisor,
            body,
        } => {
            print_division(rt, form, divisor)?;
            Ok(push_body(pieces, body)?)
        }
    }
}

/// Prints a piece.
fn print_piece<'a, R: Print + AllocGlobal>(
    rt: &R,
    piece: Piece<'a>,
    pieces: &mut Vec<Piece<'a>>,
) -> io::Result<()> {
    match piece {
        Piece::Tree(place) => print_part(rt, place.part(), pieces),
        Piece::Space => print!(rt; " "),
        Piece::Close => print!(rt; ")"),
    }
}

/// Prints a quast. Each node leaves at most four pieces.
pub fn print_quast<R: Print + AllocGlobal>(rt: &R, quast: &Quast) -> io::Result<()> {
    let mut pieces = Vec::new(rt.alloc());
    push(&mut pieces, Piece::Tree(quast.root()))?;
    for _ in 0..quast.count().saturating_mul(5) {
        match pieces.pop() {
            None => return Ok(()),
            Some(piece) => print_piece(rt, piece, &mut pieces)?,
        }
    }
    Ok(())
}
