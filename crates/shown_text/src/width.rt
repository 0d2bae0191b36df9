//! What is said of a row that has not as many fields as the header.

ghost use Rattle.std.specs.Prelude.{◌≡◌, ◌++◌, IfOk, decimal, string_bytes};
ghost use Rattle.shown_text.specs.Width.{width_text};

use std::alloc::{AllocError, Global};

/// What a line says of a row of this many fields under a header of another number of them. It takes at most 80 bytes.
pub fn width_text(alloc: Global, fields: u32, header: u32) -> Result<String, AllocError>
    ensures { IfOk result (λ text. string_bytes text ≡ width_text fields header) }
{
    let mut text = String::from_str(alloc, "wrong number of fields: ")?;
    put_number(&mut text, fields)?;
    text.push_str(", the header has ")?;
    put_number(&mut text, header)?;
    Ok(text)
}

/// Puts a number.
pub(crate) fn put_number(text: &mut String, number: u32) -> Result<(), AllocError>
    ensures { IfOk result (λ _. string_bytes text.new ≡ string_bytes text.old ++ decimal number) }
{
    text.push_str(itoa::Buffer::new().format(number))
}
