//! Numbers set in columns.

ghost use Rattle.std.specs.Prelude.{◌≡◌, ◌++◌, string_bytes, OnOk};
ghost use Rattle.std.specs.Prelude.{◌-◌};
ghost use Rattle.statements.specs.Columns.{blanks, column_text, columns_text};

use std::alloc::AllocError;

/// A number and the places that its column has.
#[derive(Clone, Copy)]
pub(crate) struct Column {
    pub(crate) width: usize,
    pub(crate) value: u128,
}

/// Adds so many blanks less one for each of those that are taken.
fn push_blanks(text: &mut String, taken: usize, width: usize) -> Result<(), AllocError>
    ensures { OnOk result
        (string_bytes text.new ≡ string_bytes text.old ++ blanks (width - taken)) }
{
    for _blank in taken..width {
        text.push(' ')?;
    }
    Ok(())
}

/// Adds a number, set right in its column; a wider one takes its own width.
pub(crate) fn push_column(text: &mut String, column: &Column) -> Result<(), AllocError>
    ensures { OnOk result
        (string_bytes text.new ≡ string_bytes text.old ++ column_text column.now) }
{
    let mut buffer = itoa::Buffer::new();
    let digits = buffer.format(column.value);
    push_blanks(text, digits.len(), column.width)?;
    text.push_str(digits)?;
    Ok(())
}

/// Adds columns, each after a blank, and ends the line.
pub(crate) fn push_columns(text: &mut String, columns: &[Column]) -> Result<(), AllocError>
    ensures { OnOk result
        (string_bytes text.new ≡ string_bytes text.old ++ columns_text columns.now) }
{
    for column in columns {
        text.push(' ')?;
        push_column(text, column)?;
    }
    text.push('\n')?;
    Ok(())
}
