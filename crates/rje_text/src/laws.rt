//! What the texts promise beyond the calls: laws of the definitions that the calls cite.
ghost use Rattle.rje_text.specs.Laws.{ActionCodesAreInverse, SpellingIsShort, CutReadsBack, CutIsCut, CutIsTheOnlyOne, OneFault, PackingIsTheCut, BlocksAreOfTheCut};

/// An action's code is of that action and of no other.
pub fn action_codes_are_inverse()
    ensures { ActionCodesAreInverse }
{}

/// No spelling of a record is longer than 147 bytes.
pub fn spelling_is_short()
    ensures { SpellingIsShort }
{}

/// A job that can be sent has one canonical cut.
pub fn cut_is_canonical()
    ensures is_cut { CutIsCut }
    ensures only { CutIsTheOnlyOne }
{}

/// Pushing a job's records into a new packer, with a close(false) and the same push again wherever the block in hand is full, and a
/// close(true) at the end, gives its canonical cut.
pub fn packing_is_the_cut()
    ensures { PackingIsTheCut }
{}

/// Where the records before a place are whole blocks of the canonical cut, the block that begins there is the cut's next one, and the
/// records before the place after it are whole blocks too.
pub fn blocks_are_of_the_cut()
    ensures { BlocksAreOfTheCut }
{}

/// Reading the blocks of a job's canonical cut, in order, gives the job; no block is refused for its mode.
pub fn cut_reads_back()
    ensures { CutReadsBack }
{}

/// At most one fault is reported for a block.
pub fn one_fault()
    ensures { OneFault }
{}
