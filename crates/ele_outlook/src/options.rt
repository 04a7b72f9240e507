//! The options of a forecast. A contract sees them as plain data.
ghost use Rattle.std.specs.Prelude.{◌≡◌};
ghost use Rattle.ele_outlook.specs.Told.{clock_of, line_form};

use ele_forecast_text::{AskedPolicy, Columns};
use ele_moment::Moment;
use ele_rule_forecast::AskedRule;
use ele_suggest::Asked;
use ele_tool_words::Offset;

/// How an answer is written that has no other form.
#[derive(Clone, Copy, PartialEq, Eq)]
pub enum Layout {
    /// Lines of words.
    Table,
    /// One JSON object.
    Json,
    /// A heading, and a row for each version or policy.
    Csv,
}

/// The form of a forecast.
#[derive(Clone, Copy, PartialEq, Eq)]
pub enum Form {
    /// A line for each version, and one for each given moment.
    Table,
    /// An SVG drawing of how many versions stay, or of each version.
    Drawing,
    /// An SVG drawing of the bytes that stay.
    BytesDrawing,
    /// The names of the versions that are due at the first of the moments, one a line. A name is a
    /// label, or a number if there is none.
    Due,
    /// The names of the versions that are kept at the first of the moments.
    Kept,
    /// One JSON object.
    Json,
    /// A heading, and a row for each version.
    Csv,
    /// The number of versions that each policy keeps at moments from the first closing on. The moments
    /// are this many seconds apart, at most 400 of them. With sizes also the bytes that are kept, and those
    /// that the removals up to then free.
    Every(u64),
    /// The same as CSV.
    EveryCsv(u64),
    /// An SVG drawing of which versions are kept at the first of the moments, and which of them another tool keeps.
    AgainstDrawing,
    /// Which versions are kept at the first of the moments, and which of them another tool keeps: those
    /// that the first rule keeps, or without a rule the first policy.
    Against(Layout),
    /// Policies, and which of them keeps what is asked at the least cost, at the first of the moments or
    /// else a second after the last closing.
    Suggest(Layout),
}

/// The most policies that a forecast compares.
pub const MOST_POLICIES: usize = 16;

/// The options of a forecast: the policies and rules that it compares, the moments at which it lists
/// the versions that stay, the fields of its input and the form of its output, and what it compares or suggests.
#[derive(Drop)]
pub struct ForecastOptions {
    pub policies: Vec<AskedPolicy>,
    /// Whether the table of one policy begins with a line with its name.
    pub named: bool,
    pub moments: Vec<Moment>,
    /// The rules of other tools beside the policies. Only a table, JSON and CSV have these.
    pub rules: Vec<AskedRule>,
    /// The clock of each time that names no offset. None means that of UTC.
    pub clock: Option<Offset>,
    /// Whether each line has a label after its time.
    pub labels: bool,
    /// Whether each line has a size after its time and before its label.
    pub sizes: bool,
    /// The title of a drawing, in UTF-8. An empty one means no title.
    pub title: Vec<u8>,
    /// The labels of the versions that another tool keeps, one a line. Only `Against` and its drawing have these.
    pub others: Vec<u8>,
    /// What a suggested policy keeps. Only `Suggest` asks this.
    pub keep: Asked,
    /// The form of the output. The lists `Due` and `Kept` are those of the first policy.
    pub form: Form,
}

/// The fields that a line has besides its time.
#[derive(Clone, Copy, PartialEq, Eq)]
pub struct LineForm {
    pub columns: Columns,
    /// Whether a label must be UTF-8.
    pub texts: bool,
    /// The clock of a time that names no offset.
    pub clock: Offset,
}

/// Returns the fields that the lines of the input must have. Only JSON of versions needs labels in UTF-8.
pub(crate) fn line_form(options: &ForecastOptions) -> LineForm
    ensures { result ≡ line_form options.now }
{
    LineForm {
        columns: Columns {
            labels: options.labels,
            sizes: options.sizes,
        },
        texts: matches!(options.form, Form::Json),
        clock: clock_of(options),
    }
}

/// Returns the clock of a time that names no offset: that of UTC, if none is given.
pub(crate) fn clock_of(options: &ForecastOptions) -> Offset
    ensures { result ≡ clock_of options.now }
{
    options.clock.unwrap_or(Offset::Ahead(0))
}
