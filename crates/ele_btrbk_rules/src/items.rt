//! Options of btrbk in text. A contract sees a word as its bytes.
ghost use Rattle.std.specs.Prelude.{◌≡◌, Some, IfSome, codes};
ghost use Rattle.std.specs.Str.{bytes_eq};
ghost use Rattle.ele_rule_parts.specs.declared.part.Limit.{Limit};
ghost use Rattle.ele_rule_parts.specs.declared.part.Part.{Part};
ghost use Rattle.ele_btrbk_rules.specs.Items.{SpellsAgo, SpellsCountIf, SpellsHour, SpellsItem, SpellsKeep, SpellsValue, SpellsWeekday, any_unit_of, capital_of, item_named, item_of, plain_least, unit_of, value_of, weekday_of};

use ele_moment::read_number;
use ele_rule_parts::{Limit, Part, Span, cut_at};

/// What an option of btrbk is about.
#[derive(Clone, Copy)]
pub enum Item {
    /// Up to how many spans ago the first row of each is kept.
    Keep,
    /// What is kept at least.
    Least,
    /// On which day weeks begin.
    Weekday,
    /// At which hour days begin.
    HourOfDay,
}

/// Returns the part that a word of btrbk's options spells, as `snapshot_preserve_min=2d` or `20w`. None if it spells none.
/// It takes no memory.
pub fn read_item(word: &[u8]) -> Option<Part>
    ensures found { IfSome result (SpellsItem word.now) }
    ensures only { (part : Part) → SpellsItem word.now part → result ≡ Some part }
{
    let Some(item) = item_of(word) else {
        return None;
    };
    read_value(item, value_of(word))
}

/// Returns what a word of btrbk's options is about, by the name before its equals sign: one without an equals sign is a
/// word more of `snapshot_preserve`. None for another name. It takes no memory.
pub fn item_of(word: &[u8]) -> Option<Item>
    ensures { result ≡ item_of word.now }
{
    match cut_at(b'=', word) {
        Some((name, _)) => item_named(name),
        None => Some(Item::Keep),
    }
}

// The value in a word.
fn value_of(word: &[u8]) -> &[u8]
    ensures { result.now ≡ value_of word.now }
{
    match cut_at(b'=', word) {
        Some((_, value)) => value,
        None => word,
    }
}

// The option of a name.
fn item_named(name: &[u8]) -> Option<Item>
    ensures { result ≡ item_named name.now }
{
    if name == b"snapshot_preserve".as_slice() {
        Some(Item::Keep)
    } else if name == b"snapshot_preserve_min".as_slice() {
        Some(Item::Least)
    } else if name == b"preserve_day_of_week".as_slice() {
        Some(Item::Weekday)
    } else if name == b"preserve_hour_of_day".as_slice() {
        Some(Item::HourOfDay)
    } else {
        None
    }
}

// The part that a value spells.
fn read_value(item: Item, value: &[u8]) -> Option<Part>
    ensures found { IfSome result (SpellsValue item value.now) }
    ensures only { (part : Part) → SpellsValue item value.now part → result ≡ Some part }
{
    match item {
        Item::Keep => read_keep(value),
        Item::Least => match plain_least(value) {
            Some(part) => Some(part),
            None => read_ago(value),
        },
        Item::Weekday => read_weekday(value),
        Item::HourOfDay => read_hour(value),
    }
}

// The first rows of so many spans.
fn read_keep(value: &[u8]) -> Option<Part>
    ensures found { IfSome result (SpellsKeep value.now) }
    ensures only { (part : Part) → SpellsKeep value.now part → result ≡ Some part }
{
    let Some((letter, digits)) = value.split_last() else {
        return None;
    };
    let Some(span) = any_unit_of(*letter) else {
        return None;
    };
    let Some(limit) = read_count(digits) else {
        return None;
    };
    Some(Part { span, limit })
}

// How many spans: a number, or all by a star.
fn read_count(digits: &[u8]) -> Option<Limit>
    ensures found { IfSome result (SpellsCountIf (bytes_eq digits.now (codes "*")) digits.now) }
    ensures only { (limit : Limit) → SpellsCountIf (bytes_eq digits.now (codes "*")) digits.now limit → result ≡ Some limit }
{
    if digits == b"*".as_slice() {
        return Some(Limit::All);
    }
    match read_number(digits) {
        Some(number) => Some(Limit::Number(number)),
        None => None,
    }
}

// All rows, or the newest.
fn plain_least(value: &[u8]) -> Option<Part>
    ensures { result ≡ plain_least value.now }
{
    if value == b"all".as_slice() {
        Some(Part {
            span: Span::Each,
            limit: Limit::All,
        })
    } else if value == b"latest".as_slice() {
        Some(Part {
            span: Span::Each,
            limit: Limit::Number(1),
        })
    } else {
        None
    }
}

// All rows of the last spans.
fn read_ago(value: &[u8]) -> Option<Part>
    ensures found { IfSome result (SpellsAgo value.now) }
    ensures only { (part : Part) → SpellsAgo value.now part → result ≡ Some part }
{
    let Some((letter, digits)) = value.split_last() else {
        return None;
    };
    let Some(span) = unit_of(*letter) else {
        return None;
    };
    match read_number(digits) {
        Some(number) if number > 0 => Some(Part {
            span,
            limit: Limit::Ago(number),
        }),
        _ => None,
    }
}

// The span of a letter.
fn any_unit_of(letter: u8) -> Option<Span>
    ensures { result ≡ any_unit_of letter }
{
    unit_of(letter).or(capital_of(letter))
}

// The span of a small letter.
fn unit_of(letter: u8) -> Option<Span>
    ensures { result ≡ unit_of letter }
{
    match letter {
        b'h' => Some(Span::Hour),
        b'd' => Some(Span::Day),
        b'w' => Some(Span::Week),
        b'm' => Some(Span::Month),
        b'y' => Some(Span::Year),
        _ => None,
    }
}

// The span of a capital.
fn capital_of(letter: u8) -> Option<Span>
    ensures { result ≡ capital_of letter }
{
    match letter {
        b'H' => Some(Span::Hour),
        b'D' => Some(Span::Day),
        b'W' => Some(Span::Week),
        b'M' => Some(Span::Month),
        b'Y' => Some(Span::Year),
        _ => None,
    }
}

// The day on which weeks begin.
fn read_weekday(value: &[u8]) -> Option<Part>
    ensures found { IfSome result (SpellsWeekday value.now) }
    ensures only { (part : Part) → SpellsWeekday value.now part → result ≡ Some part }
{
    let Some(day) = weekday_of(value) else {
        return None;
    };
    Some(Part {
        span: Span::Week,
        limit: Limit::Begin(day),
    })
}

// The number of a day of the week.
fn weekday_of(value: &[u8]) -> Option<u64>
    ensures { result ≡ weekday_of value.now }
{
    if value == b"sunday".as_slice() {
        Some(0)
    } else if value == b"monday".as_slice() {
        Some(1)
    } else if value == b"tuesday".as_slice() {
        Some(2)
    } else if value == b"wednesday".as_slice() {
        Some(3)
    } else if value == b"thursday".as_slice() {
        Some(4)
    } else if value == b"friday".as_slice() {
        Some(5)
    } else if value == b"saturday".as_slice() {
        Some(6)
    } else {
        None
    }
}

// The hour at which days begin.
fn read_hour(value: &[u8]) -> Option<Part>
    ensures found { IfSome result (SpellsHour value.now) }
    ensures only { (part : Part) → SpellsHour value.now part → result ≡ Some part }
{
    match read_number(value) {
        Some(hour) if hour < 24 => Some(Part {
            span: Span::Day,
            limit: Limit::Begin(hour),
        }),
        _ => None,
    }
}
