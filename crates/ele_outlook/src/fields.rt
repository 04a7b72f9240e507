//! The fields of a line, which tabs separate. A contract sees a line as its bytes.
ghost use Rattle.std.specs.Prelude.{◌≡◌, ◌≢◌, ◌↔◌, ◌&&◌, [], IfErr, IfNone, IfOk, IfSome, IsTrue};
ghost use Rattle.std.specs.List.{after_first, before_first};
ghost use Rattle.std.specs.Str.{IsUtf8};
ghost use Rattle.ele_outlook.specs.Input.{Asked, HasSize, LacksField, after_tab_if, before_tab_if, is_tab, label_of, size_word, time_of};
ghost use Rattle.ele_outlook.specs.Reading.{AreFields, IsSize};

use crate::fault::BadLine;
use crate::input::cut_line;
use crate::options::LineForm;
use ele_moment::read_number;
use memchr::memchr;

/// Returns the size and the label of a line, or the first of these that it must have and lacks. The size is 0 if
/// lines have none.
pub(crate) fn fields_of(form: LineForm, line: &[u8]) -> Result<(u64, &[u8]), BadLine>
    ensures ok { IfOk result (λ fields. AreFields form line.now fields.0 fields.1.now) }
    ensures err { IfErr result (LacksField form line.now) }
{
    let Some(size) = size_of(form, line) else {
        return Err(BadLine::NoSize);
    };
    let label = label_of(form, line);
    if !has_label(form, label) {
        return Err(BadLine::NoLabel);
    }
    if !has_text(form, label) {
        return Err(BadLine::NotUtf8);
    }
    Ok((size, label))
}

// Returns the size of a line, 0 if lines have none, or `None` if the line has none and must have one.
fn size_of(form: LineForm, line: &[u8]) -> Option<u64>
    ensures some { IfSome result (IsSize form line.now) }
    ensures none { IfNone result (¬ HasSize form line.now) }
{
    if !form.columns.sizes {
        return Some(0);
    }
    match read_number(size_word(form, line)) {
        Some(size) => Some(size),
        None => None,
    }
}

// Whether a label is one, if lines have labels.
fn has_label(form: LineForm, label: &[u8]) -> bool
    ensures { IsTrue result ↔ Asked form.columns.labels (label.now ≢ []) }
{
    !form.columns.labels || !label.is_empty()
}

// Whether a label is UTF-8, if labels must be.
fn has_text(form: LineForm, label: &[u8]) -> bool
    ensures { IsTrue result ↔ Asked (form.columns.labels && form.texts) (IsUtf8 label.now) }
{
    !(form.columns.labels && form.texts) || std::str::from_utf8(label).is_ok()
}

/// Returns the time of a line: the whole line, or the part before its first tab if lines have other
/// fields.
pub(crate) fn time_of(form: LineForm, line: &[u8]) -> &[u8]
    ensures { result.now ≡ time_of form line.now }
{
    before_tab_if(form.columns.labels || form.columns.sizes, line)
}

// Returns the size of a line: the part after its first tab, until the next one if lines have labels.
fn size_word(form: LineForm, line: &[u8]) -> &[u8]
    ensures { result.now ≡ size_word form line.now }
{
    before_tab_if(form.columns.labels, cut_at_tab(line).1)
}

/// Returns the label of a line: the part after its first tab, or after its second if lines have sizes.
pub(crate) fn label_of(form: LineForm, line: &[u8]) -> &[u8]
    ensures { result.now ≡ label_of form line.now }
{
    after_tab_if(form.columns.sizes, cut_at_tab(line).1)
}

// Returns the part of a text before its first tab if `has_tab` holds, otherwise the text.
fn before_tab_if(has_tab: bool, text: &[u8]) -> &[u8]
    ensures { result.now ≡ before_tab_if has_tab text.now }
{
    if has_tab { cut_at_tab(text).0 } else { text }
}

// Returns the part of a text after its first tab if `has_tab` holds, otherwise the text.
fn after_tab_if(has_tab: bool, text: &[u8]) -> &[u8]
    ensures { result.now ≡ after_tab_if has_tab text.now }
{
    if has_tab { cut_at_tab(text).1 } else { text }
}

// Returns the parts of a text before and after its first tab. Without a tab the second is empty.
fn cut_at_tab(text: &[u8]) -> (&[u8], &[u8])
    ensures before { result.0.now ≡ before_first is_tab text.now }
    ensures behind { result.1.now ≡ after_first is_tab text.now }
{
    match memchr(b'\t', text) {
        Some(at) => cut_line(text, at),
        None => (text, b""),
    }
}
