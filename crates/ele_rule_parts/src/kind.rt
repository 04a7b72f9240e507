//! The kind of a snapshot, as its name tells it to sanoid. A contract sees a name as its bytes.
ghost use Rattle.std.specs.Prelude.{◌≡◌};
ghost use Rattle.ele_rule_parts.specs.Kinds.{kind_at_end, kind_of, kind_of_name, snapshot_name};

use crate::cut::cut_at;
use crate::span::Span;

/// The kind that the label of a snapshot tells, as `Day` for `autosnap_2026-01-31_00:00:01_daily`, also behind a file
/// system and an `@`. `Each` if sanoid didn't name it so. It takes no memory.
pub fn kind_of(label: &[u8]) -> Span
    ensures { result ≡ kind_of label.now }
{
    kind_of_name(snapshot_name(label))
}

// The name of the snapshot without that of its file system.
fn snapshot_name(label: &[u8]) -> &[u8]
    ensures { result.now ≡ snapshot_name label.now }
{
    match cut_at(b'@', label) {
        Some((_, name)) => name,
        None => label,
    }
}

// The kind of a name that sanoid gave.
fn kind_of_name(name: &[u8]) -> Span
    ensures { result ≡ kind_of_name name.now }
{
    if name.starts_with(b"autosnap") {
        kind_at_end(name)
    } else {
        Span::Each
    }
}

// The kind that the end of a name tells.
fn kind_at_end(name: &[u8]) -> Span
    ensures { result ≡ kind_at_end name.now }
{
    if name.ends_with(b"_frequently") {
        Span::Minute
    } else if name.ends_with(b"_hourly") {
        Span::Hour
    } else if name.ends_with(b"_daily") {
        Span::Day
    } else if name.ends_with(b"_weekly") {
        Span::Week
    } else if name.ends_with(b"_monthly") {
        Span::Month
    } else if name.ends_with(b"_yearly") {
        Span::Year
    } else {
        Span::Each
    }
}
