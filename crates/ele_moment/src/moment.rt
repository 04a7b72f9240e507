//! Moments: seconds since 1970-01-01T00:00:00Z, up to the end of the year 9999.
//! A contract sees a moment as that number of seconds, and a word as its bytes.
ghost use Rattle.std.specs.Prelude.{◌≡◌, ◌≤◌, ◌+◌, ◌↔◌, ℕ, List, IsSome, IfSome, IfOk, Ok, Some, decimal};
ghost use Rattle.ele_moment.specs.Spelled.{last_moment, SpellsMoment, SpellsTimestamp, IsTimestamp, IsWorth};

use crate::calendar::{date_of, day_number};
use crate::number::read_number;
use crate::timestamp::{Fields, read_fields, text_of};
use std::fmt;
use std::marker::Model;
use thiserror::Error;

const SECONDS_PER_DAY: u64 = 86400;

/// The word spells no moment.
#[derive(Clone, Copy, Debug, PartialEq, Eq, Error)]
#[error("not a moment")]
pub struct BadMoment;

/// A whole number of seconds since 1970-01-01T00:00:00Z, from 0 to 253402300799, which is
/// 9999-12-31T23:59:59Z. It is displayed as that number; `text` returns the date.
#[derive(Clone, Copy, PartialEq, Eq, PartialOrd, Ord)]
pub struct Moment {
    seconds: u64,
}

impl Model for Moment {
    ghost use Rattle.std.specs.Prelude.{ℕ, ◌≤◌};
    ghost use Rattle.ele_moment.specs.Last.{last_moment};

    ghost Value = { ℕ };

    ghost view = { λ moment. moment.seconds };

    ghost invariant = { λ moment. moment.seconds ≤ last_moment };

    ghost inverse = { λ n. record { seconds = n } };
}

impl Moment {
    /// 1970-01-01T00:00:00Z, at which every clock starts.
    /// Cost: constant time.
    pub const START: Moment = Moment { seconds: 0 };

    const LAST: u64 = 253402300799;

    /// Returns the moment of that many seconds. None past the last moment.
    /// Cost: constant time.
    pub fn new(seconds: u64) -> Option<Moment>
        ensures some { IsSome result ↔ (seconds ≤ last_moment) }
        ensures value { IfSome result (λ m. m ≡ seconds) }
    {
        if seconds <= Self::LAST {
            Some(Moment { seconds })
        } else {
            None
        }
    }

    /// Returns the seconds since 1970-01-01T00:00:00Z.
    /// Cost: constant time.
    pub fn seconds(self) -> u64
        ensures value { result ≡ self }
        ensures bound { result ≤ last_moment }
    {
        self.seconds
    }

    /// Brings a proof the fact that the moment isn't past the last one.
    pub fn lemma_in_range(self)
        ensures { self ≤ last_moment }
    {}

    /// Returns the moment that many seconds later. None past the last moment.
    /// Cost: constant time.
    pub fn plus(self, seconds: u64) -> Option<Moment>
        ensures some { IsSome result ↔ (self + seconds ≤ last_moment) }
        ensures value { IfSome result (λ m. m ≡ self + seconds) }
    {
        Moment::new(self.seconds.checked_add(seconds)?)
    }

    /// Returns the moment that a word spells: its seconds in decimal digits without leading zeros,
    /// or `YYYY-MM-DDTHH:MM:SSZ` with a date of the calendar from 1970 to 9999. `BadMoment` for
    /// every other word. It takes no memory.
    /// Cost: constant time; it looks at no more than 21 bytes.
    pub fn read(word: &[u8]) -> Result<Moment, BadMoment>
        ensures found { IfOk result (SpellsMoment word.now) }
        ensures only { (m : ℕ) → SpellsMoment word.now m → result ≡ Ok m }
    {
        if word.len() == 20 {
            return read_timestamp(word).ok_or(BadMoment);
        }
        match read_number(word) {
            Some(seconds) => Moment::new(seconds).ok_or(BadMoment),
            None => Err(BadMoment),
        }
    }

    /// Returns the moment in the form `YYYY-MM-DDTHH:MM:SSZ`. It takes no memory.
    /// Cost: constant time.
    pub fn text(self) -> [u8; 20]
        ensures spells { SpellsTimestamp result self }
        ensures only { (word : List ℕ) → SpellsTimestamp word self → word ≡ result }
        ensures reads { SpellsMoment result self }
    {
        let (year, month, day) = date_of((self.seconds / SECONDS_PER_DAY) as u32);
        let second = self.seconds % SECONDS_PER_DAY;
        text_of(Fields {
            year,
            month,
            day,
            hour: (second / 3600) as u8,
            minute: (second / 60 % 60) as u8,
            second: (second % 60) as u8,
        })
    }

    /// Reads the moment's own text again. Its contract is the law that this returns the moment.
    /// Cost: constant time.
    pub fn read_back(self) -> Result<Moment, BadMoment>
        ensures { result ≡ Ok self }
    {
        Moment::read(&self.text())
    }
}

impl fmt::Display for Moment {
    ghost output = { λ moment. Some (decimal moment) };

    fn fmt<W: fmt::Write>(&self, f: &mut fmt::Formatter<W>) -> fmt::Result {
        let seconds = self.seconds;
        write!(f, "{seconds}")
    }
}

// The moment that a word of the form `YYYY-MM-DDTHH:MM:SSZ` spells.
fn read_timestamp(word: &[u8]) -> Option<Moment>
    ensures found { IfSome result (SpellsTimestamp word.now) }
    ensures only { (m : ℕ) → SpellsTimestamp word.now m → result ≡ Some m }
{
    moment_of(read_fields(word)?)
}

// The moment of a date and time, if the calendar and the clock have them.
fn moment_of(fields: Fields) -> Option<Moment>
    ensures found { IfSome result (IsWorth fields) }
    ensures valid { IsSome result → IsTimestamp fields }
    ensures only { IsTimestamp fields → IsSome result }
{
    if fields.hour > 23 || fields.minute > 59 || fields.second > 59 {
        return None;
    }
    let day = day_number(fields.year, fields.month, fields.day)?;
    let second = 3600 * fields.hour as u64 + 60 * fields.minute as u64 + fields.second as u64;
    Some(Moment {
        seconds: SECONDS_PER_DAY * day as u64 + second,
    })
}
