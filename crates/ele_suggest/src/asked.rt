//! What is asked of a list, and whether some of its versions are that. A contract sees versions as plain data, and those
//! that are kept as the list of their numbers.
ghost use Rattle.std.specs.Prelude.{◌≡◌, ◌<◌, ◌≤◌, None, true, false, IfSome, length};
ghost use Rattle.std.specs.List.{list_all, list_any};
ghost use Rattle.ele_suggest.specs.Asked.{bytes_at, bytes_of, is_covered, is_in_bound, keeps_asked, keeps_span, shares_period};

use crate::grain::{Grain, Span, is_within, same_period};
use crate::version::Version;
use arrayvec::ArrayVec;
use ele_moment::{Moment, VersionNo};

/// So many spans can be asked for.
pub const MOST_SPANS: usize = 8;

/// What is to be kept of a list: one version of each period of each span, and no more than the bounds.
#[derive(Drop)]
pub struct Asked {
    pub spans: ArrayVec<Span, MOST_SPANS>,
    /// The greatest number of versions, if there is a bound.
    pub most_versions: Option<u64>,
    /// The greatest number of bytes, if there is a bound.
    pub most_bytes: Option<u64>,
}

/// Whether the versions of these numbers are what is asked at the moment.
pub(crate) fn keeps_asked(
    asked: &Asked,
    at: Moment,
    versions: &[Version],
    numbers: &[VersionNo],
) -> bool
    ensures { result ≡ keeps_asked asked.now at versions.now numbers.now }
{
    is_in_bound(asked.most_versions, numbers.len() as u128)
        && is_in_bound(asked.most_bytes, bytes_of(versions, numbers))
        && keeps_spans(asked.spans.as_slice(), at, versions, numbers)
}

// Whether so many are no more than the bound.
fn is_in_bound(most: Option<u64>, number: u128) -> bool
    ensures { result ≡ is_in_bound most number }
{
    match most {
        Some(most) => number <= most as u128,
        None => true,
    }
}

/// The bytes of the versions of these numbers together.
pub(crate) fn bytes_of(versions: &[Version], numbers: &[VersionNo]) -> u128
    ensures { result ≡ bytes_of versions.now numbers.now }
{
    let mut bytes = 0;
    for number in numbers {
        bytes += bytes_at(versions, *number) as u128;
    }
    bytes
}

// The bytes of the version of that number.
fn bytes_at(versions: &[Version], number: VersionNo) -> u64
    ensures { result ≡ bytes_at versions.now number }
{
    match versions.get(number.before().0 as usize) {
        Some(version) => version.bytes,
        None => 0,
    }
}

// Whether one of each period of each span is kept.
fn keeps_spans(spans: &[Span], at: Moment, versions: &[Version], numbers: &[VersionNo]) -> bool
    ensures { result ≡ list_all (keeps_span at versions.now numbers.now) spans.now }
{
    spans
        .iter()
        .all(|span| keeps_span(span, at, versions, numbers))
}

// Whether one of each period of the span is kept. The search for a kept one begins at that of the version before.
fn keeps_span(span: &Span, at: Moment, versions: &[Version], numbers: &[VersionNo]) -> bool
    ensures { result ≡ keeps_span at versions.now numbers.now span.now }
{
    let mut place = 0;
    for version in versions {
        match covering(span, at, versions, numbers, place, version) {
            Some(found) => place = found,
            None => return false,
        }
    }
    true
}

// Where a kept version of the version's period is; the given place if the span asks nothing of it.
fn covering(
    span: &Span,
    at: Moment,
    versions: &[Version],
    numbers: &[VersionNo],
    place: usize,
    version: &Version,
) -> Option<usize>
    requires { place ≤ length numbers.now }
    ensures some { IfSome result (λ found. is_covered at versions.now numbers.now span.now version.now ≡ true) }
    ensures bound { IfSome result (λ found. found ≤ length numbers.now) }
    ensures none { result ≡ None → is_covered at versions.now numbers.now span.now version.now ≡ false }
{
    if !is_within(at, span, version) {
        return Some(place);
    }
    kept_beside(span.grain, versions, numbers, place, version)
}

// Where a kept version of the version's period is, looked for from the place on, and then before it.
fn kept_beside(
    grain: Grain,
    versions: &[Version],
    numbers: &[VersionNo],
    place: usize,
    version: &Version,
) -> Option<usize>
    requires { place ≤ length numbers.now }
    ensures some { IfSome result (λ found. list_any (shares_period grain versions.now version.now) numbers.now ≡ true) }
    ensures bound { IfSome result (λ found. found < length numbers.now) }
    ensures none { result ≡ None → list_any (shares_period grain versions.now version.now) numbers.now ≡ false }
{
    let (before, from) = numbers.split_at(place);
    match kept_in(grain, versions, from, version) {
        Some(found) => Some(place + found),
        None => kept_in(grain, versions, before, version),
    }
}

// The first of these that is of the version's period.
fn kept_in(
    grain: Grain,
    versions: &[Version],
    numbers: &[VersionNo],
    version: &Version,
) -> Option<usize>
    ensures some { IfSome result (λ found. list_any (shares_period grain versions.now version.now) numbers.now ≡ true) }
    ensures bound { IfSome result (λ found. found < length numbers.now) }
    ensures none { result ≡ None → list_any (shares_period grain versions.now version.now) numbers.now ≡ false }
{
    for place in 0..numbers.len() {
        if shares_period(grain, versions, version, numbers[place]) {
            return Some(place);
        }
    }
    None
}

// Whether the version of that number closed in the same period.
fn shares_period(grain: Grain, versions: &[Version], version: &Version, number: VersionNo) -> bool
    ensures { result ≡ shares_period grain versions.now version.now number }
{
    match versions.get(number.before().0 as usize) {
        Some(other) => same_period(grain, version, other),
        None => false,
    }
}
