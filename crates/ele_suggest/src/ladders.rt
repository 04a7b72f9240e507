//! Ladders made of spans. A contract sees a ladder as the list of its rungs.
ghost use Rattle.std.specs.Prelude.{◌≡◌, ◌++◌, ◌∷◌, [], IfOk, OnOk};
ghost use Rattle.std.specs.List.{flat_map};
ghost use Rattle.ele_suggest.specs.Candidates.{is_tried, ladders_of, long_ladders, long_widths, narrowest, rung_for, rungs_from, short_widths, wider, widest_from, width_of};

use crate::grain::{Grain, Span};
use ele_moment::NoMemory;
use ele_policy::{Ladder, Policy};
use std::alloc::Global;

// The width past the last span, which no list exceeds: 8057 times 52 weeks.
const WHOLE: u64 = 253389427200;

/// The greatest widths of a ladder's rungs, in seconds.
#[derive(Clone, Copy)]
pub struct Widths {
    /// That of spans of hours and days.
    pub short: u64,
    /// That of spans of weeks, months and years.
    pub long: u64,
}

// The greatest widths that are tried for hours and days.
const SHORT_WIDTHS: [u64; 4] = [86_400, 43_200, 3_600, 900];

// The greatest widths that are tried for weeks, months and years.
const LONG_WIDTHS: [u64; 5] = [31_449_600, 2_419_200, 1_209_600, 604_800, 86_400];

// The least of these widths.
const NARROWEST: Widths = Widths {
    short: 900,
    long: 86_400,
};

/// Adds the ladders of the spans.
pub(crate) fn add_ladders(
    alloc: Global,
    spans: &[Span],
    policies: &mut Vec<Policy>,
) -> Result<(), NoMemory>
    ensures { OnOk result (policies.new.items ≡ policies.old.items ++ flat_map (long_ladders spans.now) short_widths) }
{
    for short in SHORT_WIDTHS.iter() {
        add_long_ladders(alloc, spans, *short, policies)?;
    }
    Ok(())
}

// Adds the ladders of the spans with that greatest width for hours and days.
fn add_long_ladders(
    alloc: Global,
    spans: &[Span],
    short: u64,
    policies: &mut Vec<Policy>,
) -> Result<(), NoMemory>
    ensures { OnOk result (policies.new.items ≡ policies.old.items ++ long_ladders spans.now short) }
{
    for long in LONG_WIDTHS.iter() {
        add_ladder(alloc, spans, Widths { short, long: *long }, policies)?;
    }
    Ok(())
}

// Adds the ladder of the spans with these widths, if they make one, and narrower ones don't make the same.
fn add_ladder(
    alloc: Global,
    spans: &[Span],
    widths: Widths,
    policies: &mut Vec<Policy>,
) -> Result<(), NoMemory>
    ensures { OnOk result (policies.new.items ≡ policies.old.items ++ ladders_of spans.now widths) }
{
    if !is_tried(spans, widths) {
        return Ok(());
    }
    let rungs = rungs_of(alloc, spans, widths)?;
    if let Ok(ladder) = Ladder::new(rungs.as_slice()) {
        policies.push(Policy::Landmarks(ladder))?;
    }
    Ok(())
}

// Whether the widths are no greater than those that the spans need. Greater ones make the same ladder.
fn is_tried(spans: &[Span], widths: Widths) -> bool
    ensures { result ≡ is_tried spans.now widths }
{
    let widest = widest_of(spans);
    widths.short <= widest.short && widths.long <= widest.long
}

// The greatest widths that the spans need, and no less than the least that are tried.
fn widest_of(spans: &[Span]) -> Widths
    ensures { result ≡ widest_from narrowest spans.now }
{
    let mut widest = NARROWEST;
    for span in spans {
        widest = wider(widest, span.grain);
    }
    widest
}

// The widths, made as great as those of the periods.
fn wider(widths: Widths, grain: Grain) -> Widths
    ensures { result ≡ wider widths grain }
{
    let Widths { short, long } = widths;
    match grain {
        Grain::Each => widths,
        Grain::Hour => Widths {
            short: short.max(3_600),
            long,
        },
        Grain::Day => Widths {
            short: short.max(86_400),
            long,
        },
        Grain::Week => Widths {
            short,
            long: long.max(604_800),
        },
        Grain::Month => Widths {
            short,
            long: long.max(2_419_200),
        },
        Grain::Year => Widths {
            short,
            long: long.max(31_449_600),
        },
    }
}

// The rungs of the spans.
fn rungs_of(alloc: Global, spans: &[Span], widths: Widths) -> Result<Vec<(u64, u64)>, NoMemory>
    ensures { IfOk result (λ rungs. rungs.items ≡ rungs_from widths 1 spans.now) }
{
    let mut rungs = Vec::new(alloc);
    let mut age = 1;
    for span in spans {
        add_rung(&mut rungs, widths, age, span.grain)?;
        age = span.age;
    }
    rungs.push((age, WHOLE))?;
    Ok(rungs)
}

// Adds the rung of a span that begins at that age, if it has one.
fn add_rung(
    rungs: &mut Vec<(u64, u64)>,
    widths: Widths,
    age: u64,
    grain: Grain,
) -> Result<(), NoMemory>
    ensures { OnOk result (rungs.new.items ≡ rungs.old.items ++ rung_for widths age grain) }
{
    if grain != Grain::Each {
        rungs.push((age, width_of(widths, grain)))?;
    }
    Ok(())
}

// The width of a rung for those periods.
fn width_of(widths: Widths, grain: Grain) -> u64
    ensures { result ≡ width_of widths grain }
{
    match grain {
        Grain::Each => 1,
        Grain::Hour => widths.short.min(3_600),
        Grain::Day => widths.short.min(86_400),
        Grain::Week => widths.long.min(604_800),
        Grain::Month => widths.long.min(2_419_200),
        Grain::Year => widths.long.min(31_449_600),
    }
}
