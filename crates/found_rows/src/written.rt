//! A field that is written with quotes, copied without them, by the steps of csv's machine.

ghost use Rattle.std.specs.Prelude.{◌≡◌, ◌++◌, ◌∷◌, [], OnOk, false, if◌then◌else◌};
ghost use Rattle.csv.specs.Machine.{field_after, step as machine_step};
ghost use Rattle.csv.specs.Reading.{default_config};
ghost use Rattle.csv.specs.declared.parser.State.TheVariants as st;
ghost use Rattle.found_rows.specs.Inside.{state_of};
ghost use Rattle.found_rows.specs.Written.{EndsNoField, ends_field, read_as};

use std::alloc::AllocError;

/// Where a reader is in a field.
#[derive(Clone, Copy, PartialEq, Eq, Debug)]
pub(crate) enum Inside {
    Front,
    Quoted,
    AfterQuote,
    Bare,
}

/// Reads a field as it is written, and puts its bytes after others.
pub(crate) fn copy_field(copied: &mut Vec<u8>, written: &[u8]) -> Result<(), AllocError>
    requires { EndsNoField st.StartField written.now }
    ensures { OnOk result (copied.new.items ≡ copied.old.items ++ read_as written.now) }
{
    let mut inside = Inside::Front;
    for byte in written {
        let (next, is_of_field) = step(inside, *byte);
        push_if(copied, is_of_field, *byte)?;
        inside = next;
    }
    Ok(())
}

/// Puts a byte after others, if it is wanted.
fn push_if(copied: &mut Vec<u8>, is_wanted: bool, byte: u8) -> Result<(), AllocError>
    ensures { OnOk result (copied.new.items ≡ copied.old.items ++ (if is_wanted then byte ∷ [] else [])) }
{
    if is_wanted {
        copied.push(byte)?;
    }
    Ok(())
}

/// Where a reader is after a byte that ends no field, and whether that is a byte of the field.
fn step(inside: Inside, byte: u8) -> (Inside, bool)
    requires { ends_field (machine_step default_config (state_of inside) byte).1 ≡ false }
    ensures state { state_of result.0 ≡ (machine_step default_config (state_of inside) byte).0 }
    ensures byte { (if result.1 then byte ∷ [] else []) ≡ field_after (machine_step default_config (state_of inside) byte).1 byte [] }
{
    let is_quote = byte == b'"';
    match inside {
        Inside::Front if is_quote => (Inside::Quoted, false),
        Inside::Quoted if is_quote => (Inside::AfterQuote, false),
        Inside::AfterQuote if is_quote => (Inside::Quoted, true),
        Inside::Quoted => (Inside::Quoted, true),
        _ => (Inside::Bare, true),
    }
}
