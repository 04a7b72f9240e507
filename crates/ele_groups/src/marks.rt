//! The marks of one group, and how long those between two moments hold.
//! A contract sees them as their list in order of making.
ghost use Rattle.std.specs.Prelude.{◌≡◌, vec_capacity, vec_len, ◌<◌, ◌≤◌, ◌==◌, ◌∷◌, ◌++◌, ℕ, [], not, false, filter, position, Some, if◌then◌else◌, IfOk, IfSome, IfNone, OnOk, OnErr};
ghost use Rattle.std.specs.BTreeMap.{get};
ghost use Rattle.std.specs.List.{list_any};
ghost use Rattle.std.specs.Ordering.{nat_cmp};
ghost use Rattle.std.specs.Option.{option_copied};
ghost use Rattle.ele_lists.specs.Lists.{remove_first};
ghost use Rattle.ele_model.specs.Cover.{cover_by};
ghost use Rattle.ele_model.specs.GroupRows.{is_mark};
ghost use Rattle.ele_groups.specs.Timed.{AreMarksApart, IsFirst};

use ele_model::{Cover, MarkRow};
use ele_moment::{Moment, NoMemory};
use std::alloc::Global;
use std::collections::BTreeMap;
use std::marker::Model;

/// The marks in order of making, and also by their seconds, in order of time.
#[derive(Drop)]
pub struct Marks {
    made: Vec<MarkRow>,
    times: BTreeMap<u64, MarkRow>,
}

impl Model for Marks {
    ghost use Rattle.std.specs.Prelude.{List};
    ghost use Rattle.ele_model.specs.declared.rows.MarkRow.{MarkRow};
    ghost use Rattle.ele_groups.specs.Timed.{AreTimed};

    ghost Value = { List MarkRow };

    ghost view = { λ marks. marks.made.items };

    ghost invariant = { λ marks. AreTimed marks.made.items marks.times };
}

impl Marks {
    /// Makes an empty list of marks. It takes no memory.
    pub fn new(alloc: Global) -> Marks
        ensures { result ≡ [] }
    {
        Marks {
            made: Vec::new(alloc),
            times: BTreeMap::new(alloc),
        }
    }

    /// Makes the list of these marks, no two of which are at one moment. `NoMemory` if memory is
    /// refused.
    pub fn from_rows(alloc: Global, rows: &[MarkRow]) -> Result<Marks, NoMemory>
        requires { AreMarksApart rows.now }
        ensures { IfOk result (λ marks. marks ≡ rows.now) }
    {
        let mut marks = Marks::new(alloc);
        for mark in rows {
            marks.add(mark)?;
        }
        Ok(marks)
    }

    /// Returns the marks in order of making.
    pub fn as_slice(&self) -> &[MarkRow]
        ensures { result.now ≡ self.now }
    {
        &self.made
    }

    /// Returns whether there is a mark at the moment.
    #[tactic(auto, using(crate::proofs::Times::any_is_found))]
    pub fn has(&self, moment: Moment) -> bool
        ensures { result ≡ list_any (is_mark moment) self.now }
    {
        self.times.contains_key(&moment.seconds())
    }

    /// Adds a mark at the end. If memory is refused, the marks stay as they were.
    pub fn add(&mut self, mark: &MarkRow) -> Result<(), NoMemory>
        requires { list_any (is_mark mark.now.at) self.old ≡ false }
        ensures ok { OnOk result (self.new ≡ self.old ++ mark.now ∷ []) }
        ensures err { OnErr result (self.new ≡ self.old) }
    {
        self.made.reserve(1)?;
        put_at(&mut self.times, mark)?;
        push_copy(&mut self.made, mark);
        Ok(())
    }

    /// Removes the mark at the moment, if there is one. It takes no memory.
    pub fn remove(&mut self, moment: Moment)
        ensures { self.new ≡ remove_first (is_mark moment) self.old }
    {
        take_at(&mut self.made, moment);
        let _was = self.times.remove(&moment.seconds());
    }

    /// Returns how long the marks hold what was current from `closed` until `ended`, or still is.
    /// It looks only at marks in that time.
    pub fn cover(&self, closed: Moment, ended: &Option<Moment>) -> Cover
        ensures { result ≡ cover_by closed ended.now self.now }
    {
        match ended {
            Some(ended) => self.cover_between(closed.seconds(), ended.seconds()),
            None => self.cover_from(closed.seconds()),
        }
    }

    /// Returns the same without the mark at `left`.
    #[tactic(auto, using(crate::proofs::Times::until_without, crate::proofs::Times::from_without))]
    pub fn cover_without(&self, left: Moment, closed: Moment, ended: &Option<Moment>) -> Cover
        ensures { result
            ≡ cover_by closed ended.now (filter (λ mark. not (mark.at == left)) self.now) }
    {
        let left = left.seconds();
        let closed = closed.seconds();
        match ended {
            Some(ended) => {
                let ended = ended.seconds();
                let before = self.cover_between(closed, left.min(ended));
                before.longer(self.cover_between(closed.max(left + 1), ended))
            }
            None => {
                let before = self.cover_between(closed, left);
                before.longer(self.cover_from(closed.max(left + 1)))
            }
        }
    }

    // How long the marks from the first seconds until before the last ones hold.
    #[tactic(auto, using(crate::proofs::Basics::nat_tests, crate::proofs::Times::between_more, crate::proofs::Times::between_done, crate::proofs::Times::none_before, crate::proofs::Times::always))]
    fn cover_between(&self, from: u64, until: u64) -> Cover
        ensures { result ≡ cover_by from (Some until) self.now }
    {
        let mut cover = Cover::Free;
        let mut next = from;
        while let Some(mark) = self.first_from(next) {
            let at = mark.at.seconds();
            if at >= until {
                return cover;
            }
            let Some(end) = mark.until else {
                return Cover::Always;
            };
            cover = cover.longer(Cover::Until(end));
            next = at + 1;
        }
        cover
    }

    // How long the marks at these seconds or later hold.
    #[tactic(auto, using(crate::proofs::Basics::nat_tests, crate::proofs::Times::between_more, crate::proofs::Times::from_done, crate::proofs::Times::none_before, crate::proofs::Times::always))]
    fn cover_from(&self, from: u64) -> Cover
        ensures { result ≡ cover_by from None self.now }
    {
        let mut cover = Cover::Free;
        let mut next = from;
        while let Some(mark) = self.first_from(next) {
            let at = mark.at.seconds();
            let Some(end) = mark.until else {
                return Cover::Always;
            };
            cover = cover.longer(Cover::Until(end));
            next = at + 1;
        }
        cover
    }

    // The first mark at these seconds or later.
    #[tactic(auto, using(crate::proofs::Basics::nat_tests, crate::proofs::Times::first_told))]
    fn first_from(&self, from: u64) -> Option<MarkRow>
        ensures apart { AreMarksApart self.now }
        ensures some { IfSome result (IsFirst self.now from) }
        ensures none { IfNone result ((time : ℕ) → from ≤ time
            → list_any (is_mark time) self.now ≡ false) }
    {
        match self.times.range(from..).next() {
            Some((_, mark)) => Some(*mark),
            None => None,
        }
    }
}

// Adds the item, in reserved memory.
fn push_copy<T: Copy>(items: &mut Vec<T>, item: &T)
    requires { vec_len items.old < vec_capacity items.old }
    ensures { items.new.items ≡ items.old.items ++ item.now ∷ [] }
{
    items.push_reserved(*item);
}

// Adds the mark under its seconds.
fn put_at(times: &mut BTreeMap<u64, MarkRow>, mark: &MarkRow) -> Result<(), NoMemory>
    ensures ok { OnOk result ((time : ℕ) → get nat_cmp times.new time
        ≡ (if mark.now.at == time then Some mark.now else get nat_cmp times.old time)) }
    ensures err { OnErr result ((time : ℕ) → get nat_cmp times.new time ≡ get nat_cmp times.old time) }
{
    let time = mark.at.seconds();
    let _new = times.insert(time, *mark)?;
    Ok(())
}

// Removes the mark at the moment, if there is one. The others keep their order.
#[tactic(auto, using(ele_lists::proofs::Places::first_places))]
fn take_at(marks: &mut Vec<MarkRow>, moment: Moment)
    ensures { marks.new.items ≡ remove_first (is_mark moment) marks.old.items }
{
    if let Some(place) = place_at(marks, moment) {
        let _mark = marks.remove(place);
    }
}

// The place of the first mark at the moment.
fn place_at(marks: &[MarkRow], moment: Moment) -> Option<usize>
    ensures { result ≡ position (is_mark moment) marks.now }
{
    marks.iter().position(|mark| mark.at == moment)
}
