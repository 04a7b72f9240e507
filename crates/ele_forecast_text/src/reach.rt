//! From which moment on forecasts describe versions, and up to which. A contract sees moments as seconds.
ghost use Rattle.std.specs.Prelude.{◌≡◌, max};
ghost use Rattle.ele_forecast_text.specs.Reach.{first_of, last_of};

use ele_forecast::Forecast;
use ele_moment::Moment;

/// Returns the first closing of these versions, or the first moment if there is none.
pub fn first_of(forecasts: &[Forecast]) -> Moment
    ensures { result ≡ first_of forecasts.now }
{
    match forecasts.first() {
        Some(forecast) => forecast.closed,
        None => Moment::START,
    }
}

/// Returns the last moment at which one of these versions closes or becomes due, or `first` if that is later.
pub fn last_of(first: Moment, forecasts: &[Forecast]) -> Moment
    ensures { result ≡ last_of first forecasts.now }
{
    let mut last = first;
    for forecast in forecasts {
        last = later(last, forecast.ripe.unwrap_or(forecast.closed));
    }
    last
}

/// Returns the later of two moments.
pub fn later(a: Moment, b: Moment) -> Moment
    ensures { result ≡ max a b }
{
    if a.seconds() < b.seconds() { b } else { a }
}
