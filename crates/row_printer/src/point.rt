//! A row, and a point as a row of fractions.
ghost use Rattle.std.specs.Prelude.{◌≡◌, ◌↔◌, ◌<ℤ◌, ◌∷◌, IsTrue, pos};
ghost use Rattle.poly_io.specs.Written.{Prints};
ghost use Rattle.poly_num.specs.Fractions.{lowest};
ghost use Rattle.poly_model.specs.declared.kind.Kind.TheVariants.{H};
ghost use Rattle.poly_model.specs.ListingText.{row_text, point_text, coordinates_text};
ghost use Rattle.poly_model.specs.ListingText.{fraction_text, denominator_text};

use crate::vector::{write_entry, write_vector};
use poly_io::{Sink, WriteFault, write_all, write_num};
use poly_model::Kind;
use poly_num::{Frac, Num};

/// A row of the listing of a file of this kind.
#[tactic(auto, unfolding(poly_model::specs::ListingText::row_text))]
pub(crate) fn write_row<S: Sink>(kind: Kind, v: &[Num], out: &mut S) -> Result<(), WriteFault>
    ensures { Prints S.Sink out.old out.new result (row_text kind v.now) }
{
    match kind {
        Kind::H => write_point_or_ray(v, out),
        Kind::V => write_vector(v, out),
    }
}

/// A row of the listing of an H file.
fn write_point_or_ray<S: Sink>(v: &[Num], out: &mut S) -> Result<(), WriteFault>
    ensures { Prints S.Sink out.old out.new result (row_text H v.now) }
{
    let [first, rest @ ..] = v else {
        return write_vector(v, out);
    };
    if first.is_positive() {
        write_point(*first, rest, out)
    } else {
        write_vector(v, out)
    }
}

/// A point, whose entries are those of `rest` over `first`.
fn write_point<S: Sink>(first: Num, rest: &[Num], out: &mut S) -> Result<(), WriteFault>
    requires { pos 0 <ℤ first }
    ensures { Prints S.Sink out.old out.new result (point_text (first ∷ rest.now)) }
{
    write_all(out, b" 1")?;
    write_coordinates(first, rest, out)?;
    write_all(out, b"\n")
}

/// The entries of `rest` over `first`.
fn write_coordinates<S: Sink>(first: Num, rest: &[Num], out: &mut S) -> Result<(), WriteFault>
    requires { pos 0 <ℤ first }
    ensures { Prints S.Sink out.old out.new result (coordinates_text first rest.now) }
{
    for y in rest {
        write_coordinate(*y, first, out)?;
    }
    Ok(())
}

/// `y` over `first` in lowest terms, after one blank.
fn write_coordinate<S: Sink>(y: Num, first: Num, out: &mut S) -> Result<(), WriteFault>
    requires { pos 0 <ℤ first }
    ensures { Prints S.Sink out.old out.new result (fraction_text (lowest y first)) }
{
    let Some(fraction) = Frac::new(y, first) else {
        unreachable!();
    };
    let num = fraction.num();
    let den = fraction.den();
    write_entry(num, out)?;
    write_denominator(den, out)
}

/// What stands behind a numerator.
fn write_denominator<S: Sink>(den: Num, out: &mut S) -> Result<(), WriteFault>
    ensures { Prints S.Sink out.old out.new result (denominator_text den) }
{
    if is_one(den) {
        return Ok(());
    }
    write_all(out, b"/")?;
    write_num(den, out)
}

fn is_one(n: Num) -> bool
    ensures { IsTrue result ↔ (n ≡ pos 1) }
{
    n.get() == 1
}
