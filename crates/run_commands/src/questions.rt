ghost use Rattle.std.specs.Prelude.{◌≡◌, option_map};
ghost use Rattle.command_words.specs.Wanted.{wanted};
ghost use Rattle.run_commands.specs.Posed.{posed};

use command_words::Asked;

/// What is asked over a history.
#[derive(Clone, Copy, Debug, PartialEq, Eq)]
pub enum Question {
    /// The parts of a master's request: of which master, and of its requests which, counted from 1.
    Parts {
        originator: u32,
        number: u32,
    },
    /// Which masters contradicted themselves.
    Blame,
    /// A point's changes among the executions from one number to another, both included and counted from 1.
    Trend {
        point: u32,
        first: u32,
        last: u32,
    },
    /// How long updates took.
    Delays,
    /// The page that shows the history.
    Page,
    /// The picture of the entries, from one stamp to another where these are told, so many pixels wide.
    Picture {
        first: Option<u32>,
        last: Option<u32>,
        width: u32,
    },
    /// The plot of a point over the executions, so many pixels wide.
    Plot {
        point: u32,
        width: u32,
    },
    /// The chart of how long updates took, so many pixels wide.
    Chart {
        width: u32,
    },
}

/// How many pixels wide a picture is where no width is told.
const USUAL_WIDTH: u32 = 900;

/// The names of the scenario and the history that a question is asked over, where a question is asked.
pub fn posed<'a>(asked: &Asked<'a>) -> Option<(&'a str, &'a str, Question)>
    ensures { option_map (λ p. (p.0.now, p.1.now, p.2)) result ≡ posed (wanted asked.now) }
{
    match *asked {
        Asked::Parts {
            scenario,
            history,
            originator,
            number,
        } => Some((scenario, history, Question::Parts { originator, number })),
        Asked::Blame { scenario, history } => Some((scenario, history, Question::Blame)),
        Asked::Trend {
            scenario,
            history,
            point,
            first,
            last,
        } => Some((scenario, history, Question::Trend { point, first, last })),
        Asked::Delays { scenario, history } => Some((scenario, history, Question::Delays)),
        Asked::Page { scenario, history } => Some((scenario, history, Question::Page)),
        Asked::Picture {
            scenario,
            history,
            first,
            last,
            width,
        } => {
            let width = width.unwrap_or(USUAL_WIDTH);
            Some((scenario, history, Question::Picture { first, last, width }))
        }
        Asked::Plot {
            scenario,
            history,
            point,
            width,
        } => {
            let width = width.unwrap_or(USUAL_WIDTH);
            Some((scenario, history, Question::Plot { point, width }))
        }
        Asked::Chart {
            scenario,
            history,
            width,
        } => {
            let width = width.unwrap_or(USUAL_WIDTH);
            Some((scenario, history, Question::Chart { width }))
        }
        _ => None,
    }
}
