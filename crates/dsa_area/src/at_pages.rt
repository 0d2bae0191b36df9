//! The calls that a request makes at the pages, each one event of `free_pages`.

ghost use Rattle.std.specs.Prelude.{◌≡◌, ◌≤◌, [], ◌∷◌, IfOk, IfErr, is_some};
ghost use Rattle.free_pages.specs.Legal.{Take, Give, Look, Gets, Lacks, Accepts, HandsBack, Shows};
ghost use Rattle.free_pages.specs.PagesView.{IsRunOf, MayGive};
ghost use Rattle.dsa_area.specs.Shown.{Belongs, IsArea, first_of, number_of, pages_of};
ghost use Rattle.dsa_area.specs.Requests.{PageEvents};

use crate::area::{Area, AreaPass};
use crate::pages::{PagesAnswer, PagesAsk};
use free_pages::{NoRun, Usage};
use region_words::{Region, Run};
use std::sync::Wait;

/// A run of this many pages. It waits for the pages' lock.
pub(crate) fn take_run<R: Wait>(
    rt: &R,
    area: &Area,
    r: &Region,
    pass: &mut AreaPass,
    n: u32,
    control: bool,
) -> Result<Run, NoRun>
    requires area { IsArea r.now area.now }
    requires own { Belongs area.now pass.old }
    requires some { 1 ≤ n }
    ensures own { Belongs area.now pass.new }
    ensures caller { number_of pass.new ≡ number_of pass.old }
    ensures taken { IfOk result (λ run. PageEvents area.now pass.old pass.new ((Take n control, Gets run.at) ∷ [])) }
    ensures run { IfOk result (λ run. IsRunOf r.now (first_of area.now) (pages_of area.now) n control run.at run.pages run.words run.control) }
    ensures refused { IfErr result (λ lack. PageEvents area.now pass.old pass.new ((Take n control, Lacks lack.wanted lack.largest) ∷ [])) }
{
    match area
        .pages
        .call(rt, r, &mut pass.pages, 0, PagesAsk::TakeRun(n, control))
    {
        PagesAnswer::Granted(run) => Ok(run),
        PagesAnswer::Refused(lack) => Err(lack),
        _ => unreachable!(),
    }
}

/// Gives a run back, or gets it again. It waits for the pages' lock.
pub(crate) fn give_run<R: Wait>(
    rt: &R,
    area: &Area,
    r: &Region,
    pass: &mut AreaPass,
    run: Run,
) -> Result<(), Run>
    requires area { IsArea r.now area.now }
    requires own { Belongs area.now pass.old }
    requires run { MayGive r.now (first_of area.now) (pages_of area.now) run.at run.pages run.words run.control }
    ensures own { Belongs area.now pass.new }
    ensures caller { number_of pass.new ≡ number_of pass.old }
    ensures given { IfOk result (λ _. PageEvents area.now pass.old pass.new ((Give run.at run.pages (is_some run.control), Accepts) ∷ [])) }
    ensures refused { IfErr result (λ _. PageEvents area.now pass.old pass.new ((Give run.at run.pages (is_some run.control), HandsBack) ∷ [])) }
    ensures back { IfErr result (λ back. back ≡ run) }
{
    match area
        .pages
        .call(rt, r, &mut pass.pages, 0, PagesAsk::GiveRun(run))
    {
        PagesAnswer::Returned => Ok(()),
        PagesAnswer::Back(run) => Err(run),
        _ => unreachable!(),
    }
}

/// How the pages are used. It waits for the pages' lock.
pub(crate) fn look_at_pages<R: Wait>(rt: &R, area: &Area, r: &Region, pass: &mut AreaPass) -> Usage
    requires area { IsArea r.now area.now }
    requires own { Belongs area.now pass.old }
    ensures own { Belongs area.now pass.new }
    ensures caller { number_of pass.new ≡ number_of pass.old }
    ensures shown { PageEvents area.now pass.old pass.new ((Look, Shows result.used result.largest) ∷ []) }
{
    match area.pages.call(rt, r, &mut pass.pages, 0, PagesAsk::LookAt) {
        PagesAnswer::Seen(usage) => usage,
        _ => unreachable!(),
    }
}
