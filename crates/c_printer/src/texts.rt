//! Bytes put behind a text: a text between two others, a text many times, decimals, names.

ghost use Rattle.std.specs.Prelude.{◌≡◌, ◌++◌, ◌∷◌, [], suc, decimal, map, IfOk, OnOk};
ghost use Rattle.std.specs.Fmt.{signed_decimal};
ghost use Rattle.c_printer.specs.Forms.{loop_name};
ghost use Rattle.c_printer.specs.Nodes.{repeated};
ghost use Rattle.c_printer.specs.Statements.{between};

use form_text::put_bytes;
use itoa::Buffer;
use scop_syntax::Name;
use std::alloc::{AllocError, Global};

/// Puts a text between two others.
#[tactic(auto, using(crate::proofs::PutTexts::putting), unfolding(crate::specs::Statements::between))]
pub fn put_between(
    out: &mut Vec<u8>,
    front: &[u8],
    middle: &[u8],
    end: &[u8],
) -> Result<(), AllocError>
    ensures { OnOk result (out.new.items ≡ out.old.items ++ between front.now middle.now end.now) }
{
    put_bytes(out, front)?;
    put_bytes(out, middle)?;
    put_bytes(out, end)
}

/// Puts a text so many times.
#[tactic(auto, using(crate::proofs::PutTexts::putting))]
pub fn put_repeated(out: &mut Vec<u8>, bytes: &[u8], count: usize) -> Result<(), AllocError>
    ensures { OnOk result (out.new.items ≡ out.old.items ++ repeated bytes.now count) }
{
    for at in 0..count {
        match put_bytes(out, bytes) {
            Ok(()) => {}
            Err(_) => return Err(AllocError),
        }
    }
    Ok(())
}

/// Puts the number behind `number`, between two texts.
pub fn put_next_number(
    out: &mut Vec<u8>,
    front: &[u8],
    number: usize,
    end: &[u8],
) -> Result<(), AllocError>
    ensures { OnOk result (out.new.items ≡ out.old.items ++ between front.now (decimal (suc number)) end.now) }
{
    let next = u128::from(number as u64) + 1;
    put_between(out, front, Buffer::new().format(next).as_bytes(), end)
}

/// Puts a number between two texts.
pub fn put_signed(
    out: &mut Vec<u8>,
    front: &[u8],
    number: i64,
    end: &[u8],
) -> Result<(), AllocError>
    ensures { OnOk result (out.new.items ≡ out.old.items ++ between front.now (signed_decimal number) end.now) }
{
    put_between(out, front, Buffer::new().format(number).as_bytes(), end)
}

/// The name of the iterator of a loop with so many loops round it.
#[tactic(auto, using(crate::proofs::PutTexts::putting))]
pub fn name_of_loop(alloc: Global, loops: usize) -> Result<Name, AllocError>
    ensures { IfOk result (λ name. name.items ≡ loop_name loops) }
{
    let next = u128::from(loops as u64) + 1;
    let mut name = Vec::from_slice(alloc, b"pp_")?;
    put_bytes(&mut name, Buffer::new().format(next).as_bytes())?;
    Ok(name)
}

/// Puts a copy of a name behind names.
pub fn push_name(alloc: Global, names: &mut Vec<Name>, name: &[u8]) -> Result<(), AllocError>
    ensures { OnOk result (map (λ n. n.items) names.new.items ≡ map (λ n. n.items) names.old.items ++ name.now ∷ []) }
{
    let copy = Vec::from_slice(alloc, name)?;
    match names.push(copy) {
        Ok(()) => Ok(()),
        Err(_) => Err(AllocError),
    }
}

/// Copies of names.
pub fn copies(alloc: Global, names: &[Name]) -> Result<Vec<Name>, AllocError>
    ensures { IfOk result (λ v. map (λ n. n.items) v.items ≡ map (λ n. n.items) names.now) }
{
    let mut copied = Vec::new(alloc);
    for at in 0..names.len() {
        match push_name(alloc, &mut copied, &names[at]) {
            Ok(()) => {}
            Err(_) => return Err(AllocError),
        }
    }
    Ok(copied)
}
