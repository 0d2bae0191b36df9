//! A pool: the superblocks of one size class, and the objects of them that are free.
//!
//! The pool owns the words of its class's bits, the control records of its superblocks, and of the superblocks' words
//! those of no live object. Nobody else changes any of them. An object that goes out takes its words with it, and they
//! are live until they come back: so the words that the pool owns show which objects are live, and its record and its
//! list only say so again. What the parts own is `IsPool` of `specs/View.antt`; what the calls answer is `IsLegal` of
//! `specs/Legal.antt`.

ghost use Rattle.std.specs.Prelude.{◌≡◌, ◌≢◌, ℕ, ◌+◌, ◌*◌, ◌/◌, ◌<◌, ◌≤◌, ◌^◌, ◌⊎◌, [], None, Some, IfSome, IfNone, IfOk, IfErr, true, IsSome, is_some};
ghost use Rattle.word_map.specs.WordMap.{HasJust};
ghost use Rattle.size_classes.specs.Classes.{IsClass};
ghost use Rattle.free_pages.specs.Area.{front, head_words, mark_words, marks_at, page_words};
ghost use Rattle.span_pools.specs.Places.{IsLayout};
ghost use Rattle.span_pools.specs.Legal.{IsLegal, Alloc, Add, Free, Trim, Object, Full, Kept, Whole, Stranger};
ghost use Rattle.span_pools.specs.PoolView.{pool_view, layout_of, IsSuperblock};

use crate::find::{first_page, free_page, holder};
use crate::layout::{Layout, layout_for};
use crate::marks::{clear_mark, clear_marks, set_mark};
use crate::objects::{admit, hand_back, put_object, release, room, take_object};
use free_pages::{PAGE_WORDS, SUPERBLOCK_PAGES};
use region_words::{Chunk, Part, Region, Run};
use rel_pointer::RelPtr;
use std::marker::Model;

/// The superblocks of one size class. Contracts see the region, where the superblocks lie, the superblocks with their
/// live objects, and which of them is active.
#[derive(Drop)]
pub struct Pool {
    /// Where the words lie.
    layout: Layout,
    /// The page of the active superblock.
    active: Option<u64>,
    /// How many objects of all superblocks are free. It only repeats what the records say, so that nobody has to look
    /// at each.
    left: u64,
    /// The page of a superblock with a free object, if one is remembered: one to which an object came back that was not
    /// the active one. It is used if the active one is full, so that the bits need not be gone over.
    spare: Option<u64>,
    /// The words of the class's bits.
    marks: Part,
    /// The control records of the superblocks.
    records: Part,
    /// The words of the superblocks that no live object has.
    words: Part,
}

impl Model for Pool {
    ghost use Rattle.std.specs.Prelude.{◌≡◌};
    ghost use Rattle.span_pools.specs.View.{free_objects, state_of, IsPool, IsSpare};
    ghost use Rattle.span_pools.specs.PoolView.{PoolView, pool_view_code, pool_view};

    ghost Value = { PoolView };

    ghost coded = { pool_view_code };

    ghost view = { λ p. pool_view p.marks.region p.layout (state_of p.layout p.active p.marks.words p.words.words) };

    ghost invariant = { λ p. IsPool p.layout p.active p.marks p.records p.words × (p.left ≡ free_objects p.layout p.marks.words p.records.words) × IsSpare p.layout p.spare p.marks.words p.records.words };
}

impl Pool {
    /// The pool of a class, without a superblock. `marks` is the words of the class's bits in an area of this many
    /// pages whose page 0 begins at `first`, whatever they hold. Writes each of them once.
    pub fn new(r: &Region, class: u8, first: RelPtr, pages: u32, marks: Part) -> Pool
        requires here { marks.region ≡ r.now }
        requires class { IsClass class }
        requires place { (head_words + front pages ≤ first) × (first + page_words * pages ≤ 2 ^ 26) }
        requires marks { HasJust marks.words (marks_at first pages class) (mark_words pages) }
        ensures { result ≡ pool_view r.now (layout_of class first pages) (record { spans = []; active = None }) }
    {
        Pool::empty(r, layout_for(class, first.word(), u64::from(pages)), marks)
    }

    fn empty(r: &Region, layout: Layout, mut marks: Part) -> Pool
        requires here { marks.region ≡ r.now }
        requires layout { IsLayout layout }
        requires bits { HasJust marks.words layout.marks (mark_words layout.pages) }
        ensures { result ≡ pool_view r.now layout (record { spans = []; active = None }) }
    {
        let records = marks.split(r, 0, 0);
        let words = marks.split(r, 0, 0);
        clear_marks(&mut marks, r, layout);
        Pool {
            layout,
            active: None,
            left: 0,
            spare: None,
            marks,
            records,
            words,
        }
    }

    /// A free object, which is live then: of the active superblock, if that has one. Costs the same for every state
    /// while the active superblock has a free object, one that was not active got one back since, or none has; else it
    /// goes over the class's bits, a word at a time.
    pub fn alloc(&mut self, r: &Region) -> Option<Chunk>
        requires here { self.old.region ≡ r.now }
        ensures same { self.new ≡ record self.old { state = self.new.state } }
        ensures given { IfSome result (λ chunk. IsLegal self.old.layout self.old.state Alloc (Object chunk.at) self.new.state) }
        ensures chunk { IfSome result (λ chunk. (chunk.bytes ≡ 8 * self.old.layout.size) × (chunk.part.region ≡ self.old.region)) }
        ensures full { IfNone result (IsLegal self.old.layout self.old.state Alloc Full self.new.state) }
    {
        if self.left == 0 {
            return None;
        }
        let page = free_page(
            self.active,
            self.spare,
            &mut self.marks,
            &mut self.records,
            r,
            self.layout,
        )?;
        let (place, part) = take_object(&mut self.words, &mut self.records, r, self.layout, page);
        self.active = Some(page);
        self.spare = other_than(self.spare, page);
        self.left -= 1;
        Some(Chunk {
            at: RelPtr::of(place),
            bytes: 8 * self.layout.size,
            part,
        })
    }

    /// Takes in a superblock, which the pool owns from now on, and gives an object of it. Costs the same for every
    /// state.
    pub fn add(&mut self, r: &Region, run: Run) -> Chunk
        requires here { self.old.region ≡ r.now }
        requires run { IsSuperblock self.old.region self.old.layout run.at run.pages run.words run.control }
        ensures same { self.new ≡ record self.old { state = self.new.state } }
        ensures added { IsLegal self.old.layout self.old.state (Add run.at) (Object result.at) self.new.state }
        ensures chunk { (result.bytes ≡ 8 * self.old.layout.size) × (result.part.region ≡ self.old.region) }
    {
        let page = (run.at.word() - self.layout.first) / PAGE_WORDS;
        let Run {
            at,
            pages: _,
            words,
            control,
        } = run;
        let Some(control) = control else {
            unreachable!()
        };
        set_mark(&mut self.marks, r, self.layout, page);
        let part = admit(
            &mut self.words,
            &mut self.records,
            r,
            self.layout,
            page,
            words,
            control,
        );
        self.active = next_active(self.active, self.left, page);
        self.left += self.layout.objects - 1;
        Chunk {
            at,
            bytes: 8 * self.layout.size,
            part,
        }
    }

    /// Takes an object back. If it was the last live one of a superblock that is not the active one, gives the
    /// superblock back. Hands the object back if no superblock has an object at this place and of this size; then it
    /// has no word that is free, so it is not one that came back before. Looks at one bit if the active superblock has
    /// the object, and else at 16 at most.
    pub fn free(&mut self, r: &Region, object: Chunk) -> Result<Option<Run>, Chunk>
        requires here { (self.old.region ≡ r.now) × (object.part.region ≡ r.now) }
        ensures same { self.new ≡ record self.old { state = self.new.state } }
        ensures kept { IfOk result (λ out. IfNone out (IsLegal self.old.layout self.old.state (Free object.at object.bytes) Kept self.new.state)) }
        ensures whole { IfOk result (λ out. IfSome out (λ run. IsLegal self.old.layout self.old.state (Free object.at object.bytes) (Whole run.at) self.new.state)) }
        ensures run { IfOk result (λ out. IfSome out (λ run. IsSuperblock self.old.region self.old.layout run.at run.pages run.words run.control)) }
        ensures refused { IfErr result (λ back. IsLegal self.old.layout self.old.state (Free object.at object.bytes) Stranger self.new.state) }
        ensures back { IfErr result (λ back. back ≡ object) }
    {
        if object.bytes != 8 * self.layout.size {
            return Err(object);
        }
        let place = object.at.word();
        let Some(page) = holder(self.active, &mut self.marks, r, self.layout, place) else {
            return Err(hand_back(&mut self.words, r, object));
        };
        let Chunk {
            at: _,
            bytes: _,
            part,
        } = object;
        let free = room(&mut self.records, r, self.layout, page);
        if free + 1 == self.layout.objects && !is_page(self.active, page) {
            clear_mark(&mut self.marks, r, self.layout, page);
            let (words, control) = release(
                &mut self.words,
                &mut self.records,
                r,
                self.layout,
                page,
                part,
            );
            self.left -= free;
            self.spare = other_than(self.spare, page);
            return Ok(Some(Run {
                at: RelPtr::of(self.layout.first + PAGE_WORDS * page),
                pages: SUPERBLOCK_PAGES,
                words,
                control: Some(control),
            }));
        }
        put_object(
            &mut self.words,
            &mut self.records,
            r,
            self.layout,
            page,
            place,
            part,
        );
        self.left += 1;
        self.spare = spare_with(self.active, self.spare, page);
        Ok(None)
    }

    /// Gives the active superblock back if none of its objects is live; another one is the active one then, if there is
    /// one. Looks at one bit for each page before that.
    pub fn trim(&mut self, r: &Region) -> Option<Run>
        requires here { self.old.region ≡ r.now }
        ensures same { self.new ≡ record self.old { state = self.new.state } }
        ensures whole { IfSome result (λ run. IsLegal self.old.layout self.old.state Trim (Whole run.at) self.new.state) }
        ensures run { IfSome result (λ run. IsSuperblock self.old.region self.old.layout run.at run.pages run.words run.control) }
        ensures kept { IfNone result (IsLegal self.old.layout self.old.state Trim Kept self.new.state) }
    {
        let Some(page) = self.active else {
            return None;
        };
        let free = room(&mut self.records, r, self.layout, page);
        if free < self.layout.objects {
            return None;
        }
        // One object goes out, so that the superblock goes as it does with its last live one.
        let (_place, last) = take_object(&mut self.words, &mut self.records, r, self.layout, page);
        clear_mark(&mut self.marks, r, self.layout, page);
        let (words, control) = release(
            &mut self.words,
            &mut self.records,
            r,
            self.layout,
            page,
            last,
        );
        let next = first_page(&mut self.marks, r, self.layout);
        self.active = next;
        self.left -= free;
        self.spare = other_than(self.spare, page);
        Some(Run {
            at: RelPtr::of(self.layout.first + PAGE_WORDS * page),
            pages: SUPERBLOCK_PAGES,
            words,
            control: Some(control),
        })
    }
}

/// Whether this page is the active superblock's.
fn is_page(active: Option<u64>, page: u64) -> bool
    ensures yes { result ≡ true → active ≡ Some page }
    ensures no { active ≡ Some page → result ≡ true }
{
    match active {
        Some(other) => other == page,
        None => false,
    }
}

/// What is remembered as spare, if that is no longer to be this page.
fn other_than(spare: Option<u64>, page: u64) -> Option<u64>
    ensures { (p : ℕ) → result ≡ Some p → (spare ≡ Some p) × (p ≢ page) }
{
    match spare {
        Some(other) if other != page => Some(other),
        _ => None,
    }
}

/// What is remembered as spare, when an object came back to the superblock of a page: that one, if it is not active.
fn spare_with(active: Option<u64>, spare: Option<u64>, page: u64) -> Option<u64>
    ensures { (p : ℕ) → result ≡ Some p → (spare ≡ Some p) ⊎ (p ≡ page) }
{
    if is_page(active, page) {
        spare
    } else {
        Some(page)
    }
}

/// The active superblock's page, when a new superblock came in at a page and this many objects of the others are free.
fn next_active(active: Option<u64>, left: u64, page: u64) -> Option<u64>
    ensures none { left ≡ 0 → result ≡ Some page }
    ensures some { 0 < left → result ≡ active }
{
    if left == 0 { Some(page) } else { active }
}
