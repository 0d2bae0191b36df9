//! What comes between two pieces.

ghost use Rattle.std.specs.Prelude.{◌≡◌, ◌++◌, OnOk};
ghost use Rattle.table_form.specs.Between.{lead};

use std::alloc::AllocError;

/// Puts what comes before the piece at a place: a separator, unless it is the first.
pub(crate) fn put_lead(out: &mut Vec<u8>, at: usize, separator: &[u8]) -> Result<(), AllocError>
    ensures { OnOk result (out.new.items ≡ out.old.items ++ lead at separator.now) }
{
    if at == 0 {
        return Ok(());
    }
    out.extend_from_slice(separator)?;
    Ok(())
}
