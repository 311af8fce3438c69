//! What stations promise beyond their calls: laws of the definitions that the calls cite.
ghost use Rattle.rje_station.specs.Laws.{JoinsBlocks, JoinsOn, HearsJobs, TraceGoesOn, CountsBlocks};

/// Joining block by block gives the jobs of the blocks. So a receiving station that holds the jobs of the blocks accepted so far, as a new
/// one does, holds those of all of them after each hearing.
pub fn blocks_are_joined()
    ensures joins { JoinsBlocks }
    ensures on { JoinsOn }
    ensures hears { HearsJobs }
{}

/// A trace that is the last 64 of all events stays so with each event that is noted.
pub fn trace_goes_on()
    ensures { TraceGoesOn }
{}

/// A sending station's jobs counted are those that its blocks counted end, and the first block that isn't counted is outstanding: so it
/// is of a new station, and each hearing keeps it.
pub fn counted_blocks_end_counted_jobs()
    ensures { CountsBlocks }
{}
