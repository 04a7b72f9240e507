//! Rules of other tools. A contract sees a rule as its tool and its parts.
ghost use Rattle.std.specs.Prelude.{◌≡◌, ◌<◌, ◌^◌, ◌==◌, length, IfOk, if◌then◌else◌};
ghost use Rattle.ele_lists.specs.Ends.{last_of};
ghost use Rattle.ele_peer_rules.specs.Kept.{IsKept, after_others, after_rank, kept_by, of_newest, of_now, rank_of, since_of};
ghost use Rattle.ele_peer_rules.specs.Marks.{after_part};

use crate::limit::{Since, rank_of};
use crate::marking::mark_part;
use crate::tool::Tool;
use crate::ways::{Back, Take, Ways};
use arrayvec::ArrayVec;
use ele_btrbk_rules::scheduled;
use ele_moment::{Moment, NoMemory};
use ele_rule_parts::{Limit, Month, Part, Reason, Row, Span};
use std::alloc::Global;

/// So many parts can a rule have: one of each rank.
pub(crate) const MOST_PARTS: usize = 18;

/// A rule of another tool, by which it keeps some of a list of backups.
#[derive(Drop)]
pub struct PeerRule {
    pub tool: Tool,
    pub parts: ArrayVec<Part, MOST_PARTS>,
}

impl PeerRule {
    /// What keeps each row, if something does, as the tool would keep it at that moment. The rows are in order of
    /// time, the newest last. `NoMemory` if memory is refused.
    /// Cost: one pass over the rows for each part.
    pub fn kept(
        &self,
        alloc: Global,
        now: Moment,
        rows: &[Row],
    ) -> Result<Vec<Option<Reason>>, NoMemory>
        ensures { IfOk result (λ marks. IsKept self.now.tool self.now.parts.items now rows.now marks.items) }
    {
        match self.tool.ways() {
            Some(ways) => kept_by(alloc, ways, self.parts.as_slice(), now, rows),
            None => scheduled(alloc, self.parts.as_slice(), now, rows),
        }
    }
}

// What keeps each row by one part after another.
fn kept_by(
    alloc: Global,
    ways: Ways,
    parts: &[Part],
    now: Moment,
    rows: &[Row],
) -> Result<Vec<Option<Reason>>, NoMemory>
    ensures { IfOk result (λ marks. marks.items ≡ kept_by ways parts.now now rows.now) }
{
    let since = since_of(ways.back, now, rows);
    let mut marks = vec![in alloc; None; rows.len()]?;
    mark_others(ways, &since, rows, marks.as_mut_slice());
    for rank in 0..16 {
        mark_rank(ways, parts, rank, &since, rows, marks.as_mut_slice());
    }
    Ok(marks)
}

// Marks the rows that the tool never removes.
fn mark_others(ways: Ways, since: &Since, rows: &[Row], marks: &mut [Option<Reason>])
    requires same { length rows.now ≡ length marks.old }
    requires fits { length rows.now < 2 ^ 60 }
    ensures { marks.new ≡ after_others ways.take ways since.now rows.now marks.old }
{
    match ways.take {
        Take::Newest | Take::First => {}
        Take::Named => {
            let others = Part {
                span: Span::Each,
                limit: Limit::All,
            };
            mark_part(ways, since, others, rows, marks);
        }
    }
}

// Marks what the parts of a rank keep.
fn mark_rank(
    ways: Ways,
    parts: &[Part],
    rank: u8,
    since: &Since,
    rows: &[Row],
    marks: &mut [Option<Reason>],
)
    requires same { length rows.now ≡ length marks.old }
    requires fits { length rows.now < 2 ^ 60 }
    ensures { marks.new ≡ after_rank ways since.now rank parts.now rows.now marks.old }
{
    for part in parts {
        mark_if(ways, rank, since, *part, rows, marks);
    }
}

// Marks what a part keeps, if it is of the rank.
fn mark_if(
    ways: Ways,
    rank: u8,
    since: &Since,
    part: Part,
    rows: &[Row],
    marks: &mut [Option<Reason>],
)
    requires same { length rows.now ≡ length marks.old }
    requires fits { length rows.now < 2 ^ 60 }
    ensures { marks.new ≡ (if rank_of part == rank then after_part ways since.now part rows.now marks.old
        else marks.old) }
{
    if rank_of(part) == rank {
        mark_part(ways, since, part, rows, marks);
    }
}

// The moment from which a length of time reaches back.
fn since_of(back: Back, now: Moment, rows: &[Row]) -> Since
    ensures { result ≡ since_of back now rows.now }
{
    match back {
        Back::FromNewest => of_newest(rows),
        Back::FromNow => of_now(now),
    }
}

fn of_now(now: Moment) -> Since
    ensures { result ≡ of_now now }
{
    Since {
        moment: now,
        month: Month::FIRST,
    }
}

// The moment of the newest row.
#[tactic(auto, using(ele_rule_parts::proofs::Newest::newest_is))]
fn of_newest(rows: &[Row]) -> Since
    ensures { result ≡ of_newest (last_of rows.now) }
{
    match rows.last() {
        Some(row) => Since {
            moment: row.moment,
            month: row.month,
        },
        None => Since {
            moment: Moment::START,
            month: Month::FIRST,
        },
    }
}
