//! What clap matched of an argument.
//! A contract sees a command's matches as their rows.
ghost use Rattle.std.specs.Prelude.{◌≡◌, ℕ, IfSome, Some, map, option_map, unwrap_or};
ghost use Rattle.ele_invocation.specs.Matches.{HasNumber, is_on, values_of};
ghost use Rattle.clap.specs.Words.{all_of, first_of, found_of, rows_of};

use clap::ArgMatches;
use ele_moment::read_number;

/// Returns the value of an option, by the words or by default.
pub(crate) fn value_of<'a>(matches: &ArgMatches<'a>, name: &str) -> Option<&'a str>
    ensures { option_map (λ value. value.now) result
        ≡ first_of name.now (rows_of (found_of matches.now)) }
{
    matches.get_str(name)
}

/// Returns each value of an option that may be used several times.
pub(crate) fn values_of<'m, 'a>(matches: &'m ArgMatches<'a>, name: &str) -> Option<&'m [&'a str]>
    ensures { option_map (λ values. map (λ value. value.now) values.now) result
        ≡ all_of name.now (rows_of (found_of matches.now)) }
{
    matches.get_strs(name)
}

/// Whether a flag was used. Clap gives each flag a value, `true` or `false`.
pub(crate) fn is_on(matches: &ArgMatches, name: &str) -> bool
    ensures { result ≡ is_on name.now (rows_of (found_of matches.now)) }
{
    match value_of(matches, name) {
        Some(value) => value == "true",
        None => false,
    }
}

/// Returns the number that the value of an option spells.
pub(crate) fn number_in(matches: &ArgMatches, name: &str) -> Option<u64>
    ensures found { IfSome result (HasNumber name.now (rows_of (found_of matches.now))) }
    ensures only { (n : ℕ) → HasNumber name.now (rows_of (found_of matches.now)) n
        → result ≡ Some n }
{
    match value_of(matches, name) {
        Some(value) => read_number(value.as_bytes()),
        None => None,
    }
}
