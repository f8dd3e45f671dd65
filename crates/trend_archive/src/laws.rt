//! What holds of trends and boards beyond their calls. The first functions do nothing; their contracts are laws.
ghost use Rattle.trend_archive.specs.Boards.{ShownIsSupported, ShownWhereSupported};
ghost use Rattle.trend_archive.specs.Trends.{EarlierStays};

use crate::board::TrendBoard;
use crate::trend::Trend;

/// What is executed later changes no answer.
pub fn earlier_stays()
    ensures { EarlierStays }
{}

/// Where more than f masters gave an answer, one is shown.
pub fn shown_where_supported()
    ensures { ShownWhereSupported }
{}

/// What is shown is an answer of more than f masters.
pub fn shown_is_supported()
    ensures { ShownIsSupported }
{}

fn moves<T: Send>(_value: &T) {}

fn lends<T: Sync>(_value: &T) {}

/// A trend and a board may be handed to another thread, and lent to several.
pub fn crosses_threads(trend: &Trend, board: &TrendBoard) {
    moves(trend);
    lends(trend);
    moves(board);
    lends(board);
}
