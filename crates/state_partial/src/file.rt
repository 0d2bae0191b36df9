//! The file of a part.

ghost use Rattle.std.specs.Prelude.{◌≡◌, ◌<◌, ◌≤◌, ◌^◌, ◌⊎◌, [], ℕ, List, Option, IfErr, IfOk, Some, false, true};
ghost use Rattle.state_head.specs.Cover.{AreRows, IsCover};
ghost use Rattle.state_head.specs.Head.{subject_of};
ghost use Rattle.state_head.specs.Words.{keys_of, words_of};
ghost use Rattle.state_plan.specs.FilePlans.{AskFor, IsPlanOf};
ghost use Rattle.state_partial.specs.Parts.{IsPartText};
ghost use Rattle.state_partial.specs.Places.{AreRead, IsCoverOf, IsFilled, IsWithin, text_by};
ghost use Rattle.state_partial.specs.Reads.{IsPartRead};
ghost use Rattle.state_partial.specs.TooLong.{IsLongPart};
ghost use Rattle.state_partial.specs.Words.{asked_in, asked_of};
ghost use Rattle.state_partial.specs.declared.no_part.NoPart.TheVariants as no_part;
ghost use Rattle.stream_groups.specs.declared.stop.Stop.TheVariants as stop;

use crate::fits::fits_head;
use crate::no_part::NoPart;
use crate::reading::Part;
use crate::words::PartWords;
use plan_spec::Plan;
use state_head::{Head, KeyRange, Place, Rows, Stretch, Whole};
use state_lanes::{kinds_of, lanes_of};
use state_law::groups_are_told;
use state_plan::{FilePlan, header_of};
use state_runs::push_all;
use state_save::{long_is_known, saved_is_read};
use state_writer::WriteError;
use std::alloc::{AllocError, Global};
use std::thread::Threads;
use stream_groups::{Stop, useful_workers};

/// The file of a part, which lies at this place of its source.
pub(crate) fn file_of<R: Threads + Sync>(
    rt: &R,
    alloc: Global,
    asked: &PartWords<'_>,
    plan: Plan,
    part: Part,
    place: Place,
) -> Result<Vec<u8>, NoPart>
    requires ask { AskFor (asked_of asked.now).words plan }
    requires read { (from : Option (List ℕ)) × IsPartRead plan from part }
    requires part { asked.now.part.source < asked.now.part.sources }
    requires place { IsWithin asked.now.part.source place }
    ensures file { IfOk result (λ file. (words : List (List ℕ)) (bytes read : List ℕ) → asked_in words ≡ Some (asked_of asked.now) → AreRead asked.now.part.source asked.now.extent (text_by plan bytes) place read
        → IsPartRead plan (Some read) part → IsPartText words bytes file.items) }
    ensures why { IfErr result (λ why. (why ≡ no_part.Long) ⊎ (why ≡ no_part.Stopped stop.Memory)) }
    ensures long { IfErr result (λ why. why ≡ no_part.Long → (bytes read : List ℕ) → AreRead asked.now.part.source asked.now.extent (text_by plan bytes) place read → IsPartRead plan (Some read) part → IsLongPart (asked_of asked.now) bytes) }
{
    let Part {
        header,
        rows,
        map,
        size: _,
    } = part;
    let whole = Whole {
        words: asked.plan_words(),
        header: header.as_slice(),
        sources: asked.part.sources,
    };
    let fits = fits_head(whole, rows);
    if !fits {
        return Err(NoPart::Long);
    }
    let Ok(plan) = file_plan(alloc, plan, whole) else {
        return Err(NoPart::Stopped(Stop::Memory));
    };
    let Ok(cover) = cover_of(alloc, place, asked.part.sources, rows) else {
        return Err(NoPart::Stopped(Stop::Memory));
    };
    let head = Head {
        whole,
        cover,
        range: all_keys(),
    };
    // Tell that a reader takes the file, and when it is too long. They do nothing.
    groups_are_told();
    saved_is_read();
    long_is_known();
    let mut file = Vec::new(alloc);
    let threads = useful_workers(rt, asked.workers) as usize + 1;
    match push_all(rt, alloc, &mut file, &head, map, &plan.shape(), threads) {
        Ok(()) => Ok(file),
        Err(WriteError::Memory) => Err(NoPart::Stopped(Stop::Memory)),
        Err(WriteError::Long) => Err(NoPart::Long),
    }
}

/// No bounds.
fn all_keys<'a>() -> KeyRange<'a>
    ensures { keys_of result ≡ record { low = []; high = [] } }
{
    KeyRange {
        low: b"",
        high: b"",
    }
}

/// The one stretch at a place; none if it has no bytes, unless its source has none.
fn cover_of(
    alloc: Global,
    place: Place,
    sources: u32,
    rows: Rows,
) -> Result<Vec<Stretch>, AllocError>
    requires below { place.source < sources }
    requires order { place.from ≤ place.to }
    requires within { place.to ≤ place.size }
    requires rows { AreRows rows }
    ensures is_cover { IfOk result (λ cover. IsCover sources cover.items) }
    ensures few { IfOk result (λ _. sources < 2 ^ 32) }
    ensures cover { IfOk result (λ cover. IsCoverOf place rows cover.items) }
{
    let _sources = sources;
    let mut cover = Vec::new(alloc);
    if is_empty(place) {
        return Ok(cover);
    }
    cover.push(Stretch { place, rows })?;
    Ok(cover)
}

/// Whether a place has no bytes, of a source that has some.
fn is_empty(place: Place) -> bool
    ensures yes { result ≡ true → (place.from ≡ place.to) × (0 < place.size) }
    ensures no { result ≡ false → place.from ≤ place.to → IsFilled place }
{
    place.from == place.to && place.size > 0
}

/// The plan over the columns of a header that it was read with, which is one record and has them.
fn file_plan(alloc: Global, plan: Plan, whole: Whole<'_>) -> Result<FilePlan, AllocError>
    requires { AskFor (words_of whole.words) plan }
    ensures plan { IfOk result (IsPlanOf (subject_of whole.entry)) }
    ensures same { IfOk result (λ made. made.plan ≡ plan) }
{
    let Ok(header) = header_of(alloc, &plan, whole.header) else {
        return Err(AllocError);
    };
    let Ok(bound) = plan.bind(&header) else {
        return Err(AllocError);
    };
    let lanes = lanes_of(alloc, bound.items())?;
    let kinds = kinds_of(alloc, lanes.as_slice())?;
    Ok(FilePlan {
        plan,
        bound,
        lanes,
        kinds,
    })
}
