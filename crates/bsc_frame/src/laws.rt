//! What the definitions of the line promise beyond the calls.
ghost use Rattle.bsc_frame.specs.Laws.{OneTransmission, OneHearing, EveryHearing, WrittenIsTransmission, NamedBytesHaveTheirCodes};

/// Of any bytes at most one prefix is a transmission, and of at most one frame.
pub fn one_transmission()
    ensures { OneTransmission }
{}

/// Of any bytes at most one thing is heard.
pub fn one_hearing()
    ensures { OneHearing }
{}

/// Of any bytes something is heard.
pub fn every_hearing()
    ensures { EveryHearing }
{}

/// What is written of a frame is a transmission of it, and one pad.
pub fn written_is_transmission()
    ensures { WrittenIsTransmission }
{}

/// The second bytes of the acknowledgements that DLE begins have the codes of the line, and the second pad is 55.
pub fn named_bytes_have_their_codes()
    ensures codes { NamedBytesHaveTheirCodes }
{}
