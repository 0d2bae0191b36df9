//! The pages of an area: which runs of them are granted, and the words of those that are not.
//!
//! `Pages` owns the 64 words at the head of the area and the run words for good, and the words and the control records
//! of each page that is not granted. Nobody else changes a run word. A granted run takes the words of its pages with
//! it, and its control records if they are asked for; `give` takes the same tokens back. What the parts own is
//! `IsPages` of `specs/PagesView.antt`: one equation for each word says whether it is kept. What the calls answer is
//! `IsLegal` of `specs/Legal.antt`.

ghost use Rattle.std.specs.Prelude.{◌≡◌, ℕ, ◌+◌, ◌*◌, ◌-◌, ◌/◌, ◌<◌, ◌≤◌, ◌^◌, [], ◌≢◌, MatchResult, IfOk, IfErr, Some, IfSome, IsSome, is_some};
ghost use Rattle.word_map.specs.WordMap.{at as word_at, HasJust};
ghost use Rattle.free_pages.specs.Area.{front, control_words, head_words, page_words};
ghost use Rattle.free_pages.specs.Legal.{IsLargest, IsLegal, Take, Give, Look, Gets, Lacks, Accepts, HandsBack, Shows, used_by};
ghost use Rattle.free_pages.specs.Runs.{IsRuns, granted_in};
ghost use Rattle.free_pages.specs.PagesView.{pages_view, IsRunOf, MayGive, SplitsOff, JoinsBack, MaySplit};

use crate::layout::{HEAD_WORDS, PAGE_WORDS, RECORD_WORDS, front};
use crate::walk::{find, grant, release, smaller};
use region_words::{Part, Region, Run};
use rel_pointer::RelPtr;
use std::marker::Model;

/// There are fewer free pages in a row than were wanted: the pages that were wanted, and those of the longest run that
/// is free.
#[derive(Drop)]
pub struct NoRun {
    /// The pages that were wanted.
    pub wanted: u32,
    /// The pages of the longest run that is free.
    pub largest: u32,
}

/// How the pages of an area are used.
#[derive(Clone, Copy)]
pub struct Usage {
    /// The pages of all granted runs.
    pub used: u32,
    /// The pages of the longest run that is free.
    pub largest: u32,
}

/// The pages of an area. Contracts see the region, the first word of page 0, how many pages there are, and the granted
/// runs.
#[derive(Drop)]
pub struct Pages {
    /// The first word of page 0.
    first: u64,
    /// How many pages there are.
    pages: u64,
    /// The first run word.
    heads: u64,
    /// A page before which every page is granted; a run begins there, or the pages end. A walk begins here.
    filled: u64,
    /// The pages of the longest free run, from the walk that found it until a run is granted or given back.
    longest: Option<u32>,
    /// The pages of all granted runs. It only repeats what the run words say, so that nobody has to look at each.
    used: u32,
    /// The words at the head and the run words.
    runs: Part,
    /// The words of the pages that are not granted.
    words: Part,
    /// The control records that are not out with a run.
    records: Part,
}

impl Model for Pages {
    ghost use Rattle.std.specs.Prelude.{◌≡◌};
    ghost use Rattle.free_pages.specs.Legal.{used_by};
    ghost use Rattle.free_pages.specs.Runs.{IsFilled, granted_in};
    ghost use Rattle.free_pages.specs.PagesView.{PagesView, pages_view_code, pages_view, IsPages, IsLongest};

    ghost Value = { PagesView };

    ghost coded = { pages_view_code };

    ghost view = { λ p. pages_view p.runs.region p.first p.pages (granted_in p.runs.words p.heads p.pages) };

    ghost invariant = { λ p. IsPages p.first p.pages p.heads p.runs p.words p.records × IsFilled p.runs.words p.heads p.pages p.filled × IsLongest p.pages (granted_in p.runs.words p.heads p.pages) p.longest × (p.used ≡ used_by (granted_in p.runs.words p.heads p.pages)) };
}

impl Pages {
    /// The pages of an area whose page 0 begins at `first`, all free. `words` is the pages' words; `control` is the
    /// first `HEAD_WORDS + control_words(pages)` words of the area, whatever they hold. Writes each run word once.
    pub fn new(r: &Region, first: RelPtr, pages: u32, words: Part, control: Part) -> Pages
        requires here { (words.region ≡ r.now) × (control.region ≡ r.now) }
        requires place { (head_words + front pages ≤ first) × (first + page_words * pages ≤ 2 ^ 26) }
        requires words { HasJust words.words first (page_words * pages) }
        requires control { HasJust control.words (first - front pages - head_words) (head_words + control_words pages) }
        ensures { result ≡ pages_view r.now first pages [] }
    {
        Pages::laid_out(r, first.word(), u64::from(pages), words, control)
    }

    fn laid_out(r: &Region, first: u64, pages: u64, words: Part, control: Part) -> Pages
        requires here { (words.region ≡ r.now) × (control.region ≡ r.now) }
        requires place { (head_words + front pages ≤ first) × (first + page_words * pages ≤ 2 ^ 26) }
        requires words { HasJust words.words first (page_words * pages) }
        requires control { HasJust control.words (first - front pages - head_words) (head_words + control_words pages) }
        ensures { result ≡ pages_view r.now first pages [] }
    {
        let heads = first - front(pages);
        let mut runs = control;
        let records = runs.split(r, heads + pages, RECORD_WORDS * pages);
        runs.store(r, heads - HEAD_WORDS, pages);
        blank(&mut runs, r, heads, pages);
        Pages {
            first,
            pages,
            heads,
            filled: 0,
            longest: None,
            used: 0,
            runs,
            words,
            records,
        }
    }

    /// Any `n` pages in a row that are free, with their control records if `control` is true. Walks from run to run,
    /// from the first free page to the first free run of `n` pages, and makes one of the free runs that touch on its
    /// way; a refusal walks over all runs. While the longest free run is known from that walk, a further refusal walks
    /// over none.
    pub fn take(&mut self, r: &Region, n: u32, control: bool) -> Result<Run, NoRun>
        requires here { self.old.region ≡ r.now }
        requires some { 1 ≤ n }
        ensures same { self.new ≡ record self.old { state = self.new.state } }
        ensures taken { IfOk result (λ run. IsLegal self.old.first self.old.state (Take n control) (Gets run.at) self.new.state) }
        ensures run { IfOk result (λ run. IsRunOf self.old.region self.old.first self.old.state.pages n control run.at run.pages run.words run.control) }
        ensures refused { IfErr result (λ no. IsLegal self.old.first self.old.state (Take n control) (Lacks no.wanted no.largest) self.new.state) }
    {
        match self.longest {
            Some(largest) if largest < n => Err(NoRun { wanted: n, largest }),
            _ => self.look_for(r, n, control),
        }
    }

    /// `take` by a walk, if no longest free run is known that is too short.
    fn look_for(&mut self, r: &Region, n: u32, control: bool) -> Result<Run, NoRun>
        requires here { self.old.region ≡ r.now }
        requires some { 1 ≤ n }
        ensures same { self.new ≡ record self.old { state = self.new.state } }
        ensures taken { IfOk result (λ run. IsLegal self.old.first self.old.state (Take n control) (Gets run.at) self.new.state) }
        ensures run { IfOk result (λ run. IsRunOf self.old.region self.old.first self.old.state.pages n control run.at run.pages run.words run.control) }
        ensures refused { IfErr result (λ no. IsLegal self.old.first self.old.state (Take n control) (Lacks no.wanted no.largest) self.new.state) }
    {
        let count = u64::from(n);
        let found = find(
            &mut self.runs,
            r,
            self.heads,
            self.pages,
            self.filled,
            count,
        );
        self.filled = found.filled;
        if found.at >= self.pages {
            let len = found.len as u32;
            self.longest = Some(len);
            return Err(NoRun {
                wanted: n,
                largest: len,
            });
        }
        self.longest = None;
        self.used += n;
        grant(
            &mut self.runs,
            r,
            self.heads,
            self.pages,
            found.at,
            count,
            found.len,
            control,
        );
        let place = self.first + PAGE_WORDS * found.at;
        let words = self.words.split(r, place, PAGE_WORDS * count);
        let from = self.heads + self.pages + RECORD_WORDS * found.at;
        let control = split_off(&mut self.records, r, from, RECORD_WORDS * count, control);
        Ok(Run {
            at: RelPtr::of(place),
            pages: n,
            words,
            control,
        })
    }

    /// Takes a granted run back. Hands it back if no granted run has its first page, its length and its records or lack
    /// of them. Looks at one run word.
    pub fn give(&mut self, r: &Region, run: Run) -> Result<(), Run>
        requires here { self.old.region ≡ r.now }
        requires run { MayGive self.old.region self.old.first self.old.state.pages run.at run.pages run.words run.control }
        ensures same { self.new ≡ record self.old { state = self.new.state } }
        ensures given { IfOk result (λ _. IsLegal self.old.first self.old.state (Give run.at run.pages (is_some run.control)) Accepts self.new.state) }
        ensures refused { IfErr result (λ back. IsLegal self.old.first self.old.state (Give run.at run.pages (is_some run.control)) HandsBack self.new.state) }
        ensures back { IfErr result (λ back. back ≡ run) }
    {
        let at = page_of(self.first, self.pages, run.at.word());
        if at >= self.pages {
            return Err(run);
        }
        let count = u64::from(run.pages);
        let control = run.control.is_some();
        if !release(
            &mut self.runs,
            r,
            self.heads,
            self.pages,
            at,
            count,
            control,
        ) {
            return Err(run);
        }
        self.filled = smaller(self.filled, at);
        self.longest = None;
        self.used -= run.pages;
        let Run {
            at: _,
            pages: _,
            words,
            control,
        } = run;
        self.words.join(r, words);
        join_back(&mut self.records, r, control);
        Ok(())
    }

    /// How many pages are granted, and the pages of the longest run that is free. Walks as `largest` does.
    pub fn usage(&mut self, r: &Region) -> Usage
        requires here { self.old.region ≡ r.now }
        ensures same { self.new ≡ self.old }
        ensures shown { IsLegal self.old.first self.old.state Look (Shows result.used result.largest) self.new.state }
    {
        let largest = self.largest(r);
        Usage {
            used: self.used(),
            largest,
        }
    }

    /// How many pages are granted. No step on the region.
    pub fn used(&self) -> u32
        ensures { result ≡ used_by self.now.state.granted }
    {
        self.used
    }

    /// The pages of the longest run that is free; 0 if no page is. Walks once over all runs from the first free page
    /// on, unless it is known from a walk since the last change.
    pub fn largest(&mut self, r: &Region) -> u32
        requires here { self.old.region ≡ r.now }
        ensures same { self.new ≡ self.old }
        ensures largest { IsLargest self.old.state.pages self.old.state.granted result }
    {
        match self.longest {
            Some(largest) => largest,
            None => self.look_over(r),
        }
    }

    /// `largest` by a walk, if it is not known.
    fn look_over(&mut self, r: &Region) -> u32
        requires here { self.old.region ≡ r.now }
        ensures same { self.new ≡ self.old }
        ensures largest { IsLargest self.old.state.pages self.old.state.granted result }
    {
        let found = find(
            &mut self.runs,
            r,
            self.heads,
            self.pages,
            self.filled,
            self.pages + 1,
        );
        let largest = found.len as u32;
        self.filled = found.filled;
        self.longest = Some(largest);
        largest
    }
}

/// One free run of all pages.
fn blank(runs: &mut Part, r: &Region, heads: u64, pages: u64)
    requires here { runs.old.region ≡ r.now }
    requires small { heads + pages < 2 ^ 27 }
    requires owns { (p : ℕ) → p < pages → IsSome (word_at runs.old.words (heads + p)) }
    ensures region { runs.new.region ≡ runs.old.region }
    ensures runs { IsRuns runs.new.words heads pages }
    ensures granted { granted_in runs.new.words heads pages ≡ [] }
{
    if pages == 0 {
        return;
    }
    for p in 0..pages {
        runs.store(r, heads + p, 0);
    }
    runs.store(r, heads, 4 * pages);
}

fn split_off(records: &mut Part, r: &Region, from: u64, len: u64, control: bool) -> Option<Part>
    requires here { records.old.region ≡ r.now }
    requires owns { MaySplit control records.old from len }
    ensures { SplitsOff control records.old records.new result from len }
{
    if control {
        Some(records.split(r, from, len))
    } else {
        None
    }
}

fn join_back(records: &mut Part, r: &Region, control: Option<Part>)
    requires here { records.old.region ≡ r.now }
    requires there { IfSome control (λ o. o.region ≡ r.now) }
    ensures { JoinsBack records.old records.new control }
{
    if let Some(control) = control {
        records.join(r, control);
    }
}

/// The page that begins at a place, or `pages`.
fn page_of(first: u64, pages: u64, place: u64) -> u64
    requires { first + page_words * pages < 2 ^ 64 }
    ensures found { result < pages → place ≡ first + page_words * result }
    ensures none { pages ≤ result → (from : ℕ) → from < pages → place ≢ first + page_words * from }
{
    if place < first {
        return pages;
    }
    let at = (place - first) / PAGE_WORDS;
    if at >= pages || place != first + PAGE_WORDS * at {
        return pages;
    }
    at
}
