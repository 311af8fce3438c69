//! What jobs promise beyond the calls that make and write them.
ghost use Rattle.rje_jobs.specs.Laws.{DeckJobsFit, FittingJobsAreCut};

use rje_text::cut_is_canonical;

/// The job of a deck without a fault can be sent.
pub fn deck_jobs_fit()
    ensures { DeckJobsFit }
{}

/// A job that can be sent has one canonical cut into blocks.
pub fn fitting_jobs_are_cut()
    ensures cut { FittingJobsAreCut }
{
    cut_is_canonical();
}
