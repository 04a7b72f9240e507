//! Fractions of a second, which are ignored. A contract sees a word as its bytes.
ghost use Rattle.std.specs.Prelude.{◌≡◌};
ghost use Rattle.std.specs.Option.{option_map};
ghost use Rattle.ele_tool_words.specs.ReadParts.{after_digits, after_fraction, after_some_digits};

/// Returns the rest after a fraction, or all if there is none. None if no digit follows a point.
pub(crate) fn after_fraction(word: &[u8]) -> Option<&[u8]>
    ensures { option_map (λ rest. rest.now) result ≡ after_fraction word.now }
{
    match word {
        [b'.', digits @ ..] => after_some_digits(digits),
        _ => Some(word),
    }
}

// The rest after digits, at least one of which must be there.
fn after_some_digits(word: &[u8]) -> Option<&[u8]>
    ensures { option_map (λ rest. rest.now) result ≡ after_some_digits word.now }
{
    match word {
        [first, rest @ ..] if first.is_ascii_digit() => Some(after_digits(rest)),
        _ => None,
    }
}

// The rest after any number of digits.
fn after_digits(word: &[u8]) -> &[u8]
    ensures { result.now ≡ after_digits word.now }
{
    let mut rest = word;
    'digits: while let [first, more @ ..] = rest {
        if !first.is_ascii_digit() {
            break;
        }
        rest = more;
    }
    rest
}
