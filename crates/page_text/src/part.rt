//! The parts of a page that are the same for every run.
ghost use Rattle.std.specs.Prelude.{◌≡◌, ◌++◌, OnOk};
ghost use Rattle.page_text.specs.Page.{part_text};

use crate::around::{BEFORE_DETAILS, BEFORE_PLANT, BEFORE_RUN, BEFORE_SCRIPT, BEHIND};
use crate::script::{causes, delays, head, line, page, plots, read, words};
use plain_lists::Want;

/// What stands around the texts, and the script's parts in between.
#[derive(Clone, Copy)]
pub(crate) enum Part {
    BeforePlant,
    BeforeRun,
    BeforeDetails,
    BeforeScript,
    Read,
    Words,
    Causes,
    Head,
    Line,
    Plots,
    Delays,
    Page,
    Behind,
}

impl Part {
    /// Appends the part.
    pub(crate) fn put(self, page: &mut Vec<u8>) -> Result<(), Want>
        ensures { OnOk result (page.new.items ≡ page.old.items ++ part_text self) }
    {
        page.extend_from_slice(self.text().as_bytes())?;
        Ok(())
    }

    #[tactic(auto, unfolding(crate::specs::Page::part_text))]
    fn text(self) -> &'static str
        ensures { result.now ≡ part_text self }
    {
        match self {
            Part::BeforePlant => BEFORE_PLANT,
            Part::BeforeRun => BEFORE_RUN,
            Part::BeforeDetails => BEFORE_DETAILS,
            Part::BeforeScript => BEFORE_SCRIPT,
            Part::Read => read::READ,
            Part::Words => words::WORDS,
            Part::Causes => causes::CAUSES,
            Part::Head => head::HEAD,
            Part::Line => line::LINE,
            Part::Plots => plots::PLOTS,
            Part::Delays => delays::DELAYS,
            Part::Page => page::PAGE,
            Part::Behind => BEHIND,
        }
    }
}
