//! The generator, and its rows as comma-separated text.

ghost use Rattle.std.specs.Prelude.{◌≡◌, ◌≤◌, ◌<◌, ◌++◌, ◌%◌, ◌+◌, ◌*◌, IfOk, OnOk, codes, decimal, length};
ghost use Rattle.std.specs.Fmt.{signed_decimal};
ghost use Rattle.csv.specs.Writing.{default_writer, row_text};
ghost use Rattle.par_model.specs.Outcome.{most_rows};
ghost use Rattle.par_model.specs.Table.{table_text};
ghost use Rattle.gen_query.specs.Generator.{generated, next_of, record_of, value_of};

use std::alloc::{AllocError, Global};

/// The most bytes of a row: `k`, three digits, a comma, a sign, four digits and a line feed.
const ROW_BYTES: usize = 11;

/// The number after a number.
fn next_of(x: u64) -> u64
    ensures { result ≡ next_of x }
{
    let mut x = x;
    x ^= x << 13;
    x ^= x >> 7;
    x ^= x << 17;
    x
}

/// The value of a number, from -1,000 to 1,000.
fn value_of(x: u64) -> i64
    ensures { result ≡ value_of x }
{
    ((x >> 32) % 2_001) as i64 - 1_000
}

/// Appends the row of a number to a text.
fn put_row(text: &mut Vec<u8>, x: u64) -> Result<(), AllocError>
    ensures { OnOk result (text.new.items ≡ text.old.items ++ row_text default_writer (record_of x)) }
{
    let mut digits = itoa::Buffer::new();
    text.extend_from_slice(b"k")?;
    text.extend_from_slice(digits.format(x % 1_000).as_bytes())?;
    text.extend_from_slice(b",")?;
    text.extend_from_slice(digits.format(value_of(x)).as_bytes())?;
    text.extend_from_slice(b"\n")?;
    Ok(())
}

/// The header and the rows of the numbers after a seed. It takes 11 bytes a row, at once.
pub(crate) fn generated_text(alloc: Global, seed: u64, rows: u64) -> Result<Vec<u8>, AllocError>
    requires { rows ≤ most_rows }
    ensures { IfOk result (λ text. text.items ≡ table_text (generated seed rows)) }
{
    let mut text = Vec::with_capacity(alloc, 4 + rows as usize * ROW_BYTES)?;
    text.extend_from_slice(b"g,v\n")?;
    let mut x = seed;
    'rows: for _row in 0..rows {
        x = next_of(x);
        put_row(&mut text, x)?;
    }
    Ok(text)
}
