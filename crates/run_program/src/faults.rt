//! Why there is no run, or no answer over one, as the program tells it.
ghost use Rattle.std.specs.Prelude.{◌≡◌};
ghost use Rattle.run_program.specs.Asked.{parts_refusal, picture_refusal, request_refusal, trend_refusal};
ghost use Rattle.run_program.specs.Faults.{play_refusal, history_refusal};

use command_ends::{LineFault, NoAnswer, Refusal};
use history_picture::PictureRefusal;
use part_lines::RebuildRefusal;
use printed_history::HistoryRefusal;
use run_questions::parts::PartsRefusal;
use run_questions::trend::TrendRefusal;
use run_scripts::PlayAnswer;

/// A play that stops counts as its script's fault.
pub(crate) fn play_refusal(answer: PlayAnswer) -> Refusal
    ensures { result ≡ play_refusal answer }
{
    match answer {
        PlayAnswer::NoFrame { line } => Refusal::Script {
            fault: LineFault::NoFrame,
            line,
        },
        PlayAnswer::TooMany { line } => Refusal::Script {
            fault: LineFault::TooMany,
            line,
        },
        PlayAnswer::Want => Refusal::Memory,
    }
}

pub(crate) fn history_refusal(refusal: HistoryRefusal) -> Refusal
    ensures { result ≡ history_refusal refusal }
{
    match refusal {
        HistoryRefusal::BadLine { line } => Refusal::History {
            fault: LineFault::BadLine,
            number: line,
        },
        HistoryRefusal::NotLegal { stamp } => Refusal::History {
            fault: LineFault::NotLegal,
            number: stamp,
        },
        HistoryRefusal::Want => Refusal::Memory,
    }
}

pub(crate) fn trend_refusal(fault: TrendRefusal) -> Refusal
    ensures { result ≡ trend_refusal fault }
{
    let why = match fault {
        TrendRefusal::NoPoint => NoAnswer::NoPoint,
        TrendRefusal::BadRange => NoAnswer::BadRange,
        TrendRefusal::NotReached { executed } => NoAnswer::NotReached { executed },
        TrendRefusal::NoMatch => NoAnswer::NoMatch,
        TrendRefusal::Want => return Refusal::Memory,
    };
    Refusal::NoAnswer { why }
}

pub(crate) fn picture_refusal(fault: PictureRefusal) -> Refusal
    ensures { result ≡ picture_refusal fault }
{
    let why = match fault {
        PictureRefusal::BadRange => NoAnswer::BadPart,
        PictureRefusal::NotReached { last } => NoAnswer::NoSuchEntry { last },
        PictureRefusal::NoPoint => NoAnswer::NoPlot,
        PictureRefusal::Want => return Refusal::Memory,
    };
    Refusal::NoAnswer { why }
}

pub(crate) fn parts_refusal(fault: PartsRefusal) -> Refusal
    ensures { result ≡ parts_refusal fault }
{
    match fault {
        PartsRefusal::NotCertified => Refusal::NoAnswer {
            why: NoAnswer::NotCertified,
        },
        PartsRefusal::Want => Refusal::Memory,
    }
}

pub(crate) fn request_refusal(fault: RebuildRefusal) -> Refusal
    ensures { result ≡ request_refusal fault }
{
    match fault {
        RebuildRefusal::BadLine { line } => Refusal::Pieces { line },
        RebuildRefusal::NoText => Refusal::NoAnswer {
            why: NoAnswer::NoText,
        },
        RebuildRefusal::Want => Refusal::Memory,
    }
}
