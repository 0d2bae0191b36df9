//! Which bytes none of the files has.

ghost use Rattle.std.specs.Prelude.{◌≡◌, ◌≤◌, ℕ, IfNone, IfSome, Option, drop, length};
ghost use Rattle.state_cover.specs.Bytes.{AreFrom, AreWhole, BeginWhole, IsEndOf, IsGap, IsMissing};
ghost use Rattle.state_head.specs.Cover.{AreStretches, IsCover};
ghost use Rattle.state_head.specs.declared.cover.Place.{Place};

use state_head::{Place, Stretch};

/// Bytes of a source that none has: those from one place up to another, or all of it if no file says how long it is.
#[derive(Clone, Copy, Debug, PartialEq, Eq)]
pub struct Missing {
    pub source: u32,
    pub from: u64,
    pub to: Option<u64>,
}

/// The first bytes of this many sources that a cover lacks. It costs one step for each source.
pub fn missing_bytes(cover: &[Stretch], sources: u32) -> Option<Missing>
    requires { IsCover sources cover.now }
    ensures none { IfNone result (AreWhole sources cover.now) }
    ensures some { IfSome result (IsMissing sources cover.now) }
{
    let mut rest = cover;
    for source in 0..sources {
        match gap_of(rest, source) {
            Some(gap) => return Some(gap),
            None => rest = after_first(rest),
        }
    }
    None
}

/// The first bytes of a source that some stretches of a cover lack, none of which is of a source before it.
fn gap_of(stretches: &[Stretch], source: u32) -> Option<Missing>
    requires from { AreFrom source stretches.now }
    requires stretches { (sources : ℕ) × (before : Option Place) × AreStretches sources before stretches.now }
    ensures none { IfNone result (BeginWhole source stretches.now) }
    ensures some { IfSome result (IsGap source stretches.now) }
{
    let [first, ..] = stretches else {
        return Some(Missing {
            source,
            from: 0,
            to: None,
        });
    };
    let place = first.place;
    if place.source != source {
        return Some(Missing {
            source,
            from: 0,
            to: None,
        });
    }
    if place.from > 0 {
        return Some(Missing {
            source,
            from: 0,
            to: Some(place.from),
        });
    }
    if place.to == place.size {
        return None;
    }
    Some(Missing {
        source,
        from: place.to,
        to: Some(end_of(place, after_first(stretches))),
    })
}

/// All stretches but the first.
fn after_first(stretches: &[Stretch]) -> &[Stretch]
    requires { 1 ≤ length stretches.now }
    ensures { result.now ≡ drop 1 stretches.now }
{
    &stretches[1..]
}

/// Where the bytes after this place end that are not of the stretches after it: at the first one of its source, or with the source.
fn end_of(place: Place, more: &[Stretch]) -> u64
    ensures { IsEndOf place more.now result }
{
    match more {
        [next, ..] => {
            if next.place.source == place.source {
                next.place.from
            } else {
                place.size
            }
        }
        [] => place.size,
    }
}
