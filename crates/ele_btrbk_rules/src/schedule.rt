//! What btrbk keeps. A contract sees rows, options and reasons as lists, the oldest row first.
ghost use Rattle.std.specs.Prelude.{◌≡◌, ◌↔◌, ◌+◌, ◌-◌, ◌&&◌, true, IfOk, IfSome, IsSome, nat_le};
ghost use Rattle.ele_moment.specs.Last.{last_moment};
ghost use Rattle.ele_lists.specs.Ends.{last_of};
ghost use Rattle.ele_btrbk_rules.specs.Schedule.{IsNow, IsScheduled, is_last, kept_by};

use crate::begins::begins_of;
use crate::begun::{begun_after, depth, none_begun};
use crate::why::why;
use ele_moment::{Moment, NoMemory};
use ele_rule_parts::{Month, Part, Reason, Row, Span};
use std::alloc::Global;

/// Returns what keeps each row, if something does, as btrbk would keep it at that moment under the options. The rows are in
/// order of time, the newest last. The clock of the newest row shows the moment; if that row is later, its moment counts.
/// `NoMemory` if memory is refused.
/// Cost: one pass over the rows, and over the parts for each row.
#[tactic(auto, using(ele_rule_parts::proofs::Newest::newest_is))]
pub fn scheduled(
    alloc: Global,
    parts: &[Part],
    now: Moment,
    rows: &[Row],
) -> Result<Vec<Option<Reason>>, NoMemory>
    ensures { IfOk result (λ marks. IsScheduled parts.now now rows.now marks.items) }
{
    let Some(newest) = rows.last() else {
        return Ok(Vec::new(alloc));
    };
    kept_by(alloc, parts, &shown_now(now, newest), rows)
}

// The moment, as the clock of the newest row shows it.
fn shown_now(now: Moment, newest: &Row) -> Row
    ensures { IsNow now newest.now result }
{
    match local_now(now, newest) {
        Some(local) => Row {
            moment: now,
            local,
            month: Month::of_day((local.seconds() / 86_400) as u32),
            kind: Span::Each,
        },
        None => *newest,
    }
}

// What the clock of the newest row shows at the moment. None if that row is later, or the clock shows no moment.
fn local_now(now: Moment, newest: &Row) -> Option<Moment>
    ensures some { IsSome result ↔ ((nat_le newest.now.moment now
        && nat_le (newest.now.local + (now - newest.now.moment)) last_moment) ≡ true) }
    ensures value { IfSome result (λ local. local ≡ newest.now.local + (now - newest.now.moment)) }
{
    let apart = now.seconds().checked_sub(newest.moment.seconds())?;
    newest.local.plus(apart)
}

// What keeps each row.
fn kept_by(
    alloc: Global,
    parts: &[Part],
    present: &Row,
    rows: &[Row],
) -> Result<Vec<Option<Reason>>, NoMemory>
    ensures { IfOk result (λ marks. marks.items ≡ kept_by parts.now present.now rows.now) }
{
    let begins = begins_of(parts);
    let mut begun = none_begun();
    let mut marks = Vec::new(alloc);
    for at in 0..rows.len() {
        let row = &rows[at];
        let deep = depth(begins, &begun, row);
        let newest = is_last(rows.split_at(at + 1).1);
        marks.push(why(begins, parts, present, deep, newest, row))?;
        begun = begun_after(begins, &begun, deep, row);
    }
    Ok(marks)
}

// Whether no row is newer.
fn is_last(newer: &[Row]) -> bool
    ensures { result ≡ is_last newer.now }
{
    match newer {
        [] => true,
        [_, ..] => false,
    }
}
