//! Places in a row, each with a token or with none.

ghost use Rattle.std.specs.Prelude.{◌≡◌, ◌≢◌, None, IfOk, true, false, replicate};
ghost use Rattle.std.specs.List.{list_any};
ghost use Rattle.par_exchange.specs.States.{cleared, who};

use std::alloc::{AllocError, Global};

/// The given number of places, with nothing in them.
pub(crate) fn empty_places<T: Drop>(alloc: Global, count: u32) -> Result<Vec<Option<T>>, AllocError>
    ensures { IfOk result (λ v. v.items ≡ replicate count None) }
{
    let mut places = Vec::new(alloc);
    for _ in 0..count {
        places.push(None)?;
    }
    Ok(places)
}

/// This many marks, all of them true.
pub(crate) fn all_marked(alloc: Global, count: u32) -> Result<Vec<bool>, AllocError>
    ensures { IfOk result (λ v. v.items ≡ replicate count true) }
{
    let mut marks = Vec::new(alloc);
    for _ in 0..count {
        marks.push(true)?;
    }
    Ok(marks)
}

/// Whether exactly the marked places have a token.
pub(crate) fn are_of<T>(places: &[Option<T>], marks: &[bool]) -> bool
    ensures yes { result ≡ true → who places.now ≡ marks.now }
    ensures no { result ≡ false → who places.now ≢ marks.now }
{
    if places.len() != marks.len() {
        return false;
    }
    for k in 0..places.len() {
        if places[k].is_some() != marks[k] {
            return false;
        }
    }
    true
}

/// Whether a mark is true.
pub(crate) fn any_marked(marks: &[bool]) -> bool
    ensures { result ≡ list_any (λ mark. mark) marks.now }
{
    marks.iter().any(|mark| *mark)
}

/// Drops the tokens of all places.
pub(crate) fn clear_all<T: Drop>(places: &mut [Option<T>])
    ensures { places.new ≡ cleared places.old }
{
    for place in places.iter_mut() {
        *place = None;
    }
}
