//! What a path means, in numbers.
ghost use Rattle.std.specs.Prelude.{◌≡◌};
ghost use Rattle.std.specs.Option.{option_copied};
ghost use Rattle.ele_c_values.specs.Kept.{rung_in, rungs_of, stat_in};
ghost use Rattle.ele_c_values.specs.Numbers.{directory_numbers, file_numbers, policy_numbers};

use crate::codes::{NO_RESULT, NO_ROW, or_never};
use crate::numbers::{NONE, Numbers};
use ele_model::{DirectoryRow, FileStat, Policy, Reply};

/// What a path means.
pub(crate) fn stat_in(reply: Option<&Reply>) -> Result<Numbers, i32>
    ensures { result ≡ stat_in (option_copied reply.entry) }
{
    match reply {
        Some(Reply::FileStat(stat)) => Ok(file_numbers(stat.get())),
        Some(Reply::DirStat(row)) => Ok(directory_numbers(row.get())),
        _ => Err(NO_RESULT),
    }
}

// `elephant_stat_row`: is_directory, id, version, opened, closed, ended, length, policy, seconds, floor,
// rungs.
fn file_numbers(stat: &FileStat) -> Numbers
    ensures { result ≡ file_numbers stat.now }
{
    let (kind, seconds, floor, rungs) = policy_numbers(&stat.policy);
    Numbers {
        first: 0,
        second: stat.file.0,
        third: stat.info.number.0,
        fourth: stat.info.opened.seconds(),
        fifth: stat.info.closed.seconds(),
        sixth: or_never(stat.info.ended),
        seventh: stat.info.length,
        eighth: kind,
        ninth: seconds,
        tenth: floor,
        eleventh: rungs,
    }
}

fn directory_numbers(row: &DirectoryRow) -> Numbers
    ensures { result ≡ directory_numbers row.now }
{
    let (kind, seconds, floor, rungs) = policy_numbers(&row.default);
    Numbers {
        first: 1,
        second: row.id.0,
        eighth: kind,
        ninth: seconds,
        tenth: floor,
        eleventh: rungs,
        ..NONE
    }
}

// Its kind, its seconds, its floor, and how many rungs it has.
fn policy_numbers(policy: &Policy) -> (u64, u64, u64, u64)
    ensures { result ≡ policy_numbers policy.now }
{
    match policy {
        Policy::One => (0, 0, 0, 0),
        Policy::All => (1, 0, 0, 0),
        Policy::Safe(interval, floor) => (2, interval.seconds(), floor.number(), 0),
        Policy::Landmarks(ladder) => (3, 0, 0, ladder.pairs().len() as u64),
    }
}

fn rungs_of(policy: &Policy) -> &[(u64, u64)]
    ensures { result.now ≡ rungs_of policy.now }
{
    match policy {
        Policy::Landmarks(ladder) => ladder.pairs(),
        _ => &[],
    }
}

/// A rung: age, width.
pub(crate) fn rung_in(reply: Option<&Reply>, index: u64) -> Result<Numbers, i32>
    ensures { result ≡ rung_in (option_copied reply.entry) index }
{
    let rungs = match reply {
        Some(Reply::FileStat(stat)) => rungs_of(&stat.get().policy),
        Some(Reply::DirStat(row)) => rungs_of(&row.get().default),
        _ => return Err(NO_RESULT),
    };
    match rungs.get(index as usize) {
        Some(rung) => Ok(Numbers {
            first: rung.0,
            second: rung.1,
            ..NONE
        }),
        None => Err(NO_ROW),
    }
}
