//! What holds of answers beyond the calls.
ghost use Rattle.rje_answers.specs.Law.{ComesWhereAwaited, GivesOwnAnswers, TellsNoNumbers};

/// Whatever is said, comes and crosses, in whatever order: where each thing is answered at most once, in order, and with fewer than two
/// hearings that brought nothing since it was said, an answer that the station is given is that to the thing said last, and one comes only where one
/// is awaited.
pub fn answers_are_own()
    ensures own { GivesOwnAnswers }
    ensures awaited { ComesWhereAwaited }
{}

/// The law numbers the answers; what an end keeps and gives is the same without the numbers.
pub fn machine_tells_no_answers_apart()
    ensures { TellsNoNumbers }
{}
