//! Labels and keys.
ghost use Rattle.std.specs.Prelude.{◌++◌, codes, decimal};
ghost use Rattle.poly_io.specs.Written.{Prints};
ghost use Rattle.poly_model.specs.LabelText.{label_text, labels_text, key_text};

use poly_io::{Sink, WriteFault, write_all, write_count};
use poly_model::{Key, Label};

/// Writes how many labels a key has, and its labels, each after a blank.
pub fn write_key<S: Sink>(key: &Key, out: &mut S) -> Result<(), WriteFault>
    ensures { Prints S.Sink out.old out.new result (key_text key.now) }
{
    let labels = key.labels();
    write_count(labels.len() as u64, out)?;
    write_labels(labels, out)
}

// The labels, each after a blank.
fn write_labels<S: Sink>(labels: &[Label], out: &mut S) -> Result<(), WriteFault>
    ensures { Prints S.Sink out.old out.new result (labels_text labels.now) }
{
    for label in labels {
        write_next_label(*label, out)?;
    }
    Ok(())
}

fn write_next_label<S: Sink>(label: Label, out: &mut S) -> Result<(), WriteFault>
    ensures { Prints S.Sink out.old out.new result (codes " " ++ label_text label) }
{
    write_all(out, b" ")?;
    write_label(label, out)
}

/// Writes a label: a row by its number, a coordinate by `x` and its column, the extra variable as `t`, the constant column
/// as `c`.
pub fn write_label<S: Sink>(label: Label, out: &mut S) -> Result<(), WriteFault>
    ensures { Prints S.Sink out.old out.new result (label_text label) }
{
    if label.is_same(Label::EXTRA) {
        write_all(out, b"t")
    } else if label.is_row() {
        write_count(u64::from(label.number()), out)
    } else if label.is_same(Label::CONSTANT) {
        write_all(out, b"c")
    } else {
        write_coordinate(label.coordinate_index(), out)
    }
}

fn write_coordinate<S: Sink>(j: u32, out: &mut S) -> Result<(), WriteFault>
    ensures { Prints S.Sink out.old out.new result (codes "x" ++ decimal j) }
{
    write_all(out, b"x")?;
    write_count(u64::from(j), out)
}
