//! What the definitions of the adapter's form promise beyond the calls.
ghost use Rattle.bsc_adapter.specs.Laws.{SaidIsForm, FormIsMade, SaidComesBack, SameIsHeard, OneHearing, EveryHearing, OneMaking, NothingIsIdle};

/// What is said of a frame that is written is an adapter's form of it.
pub fn said_is_form()
    ensures { SaidIsForm }
{}

/// Of an adapter's form of a frame a transmission of that frame is made, with the body as it came; what comes behind the form is taken as if
/// nothing had come before.
pub fn form_is_made()
    ensures { FormIsMade }
{}

/// Of what is said of a frame just that is made which was written, except the pad.
pub fn said_comes_back()
    ensures { SaidComesBack }
{}

/// What a listener hears of what was made is what is heard of the bytes that came: a frame just where they begin with its adapter's form.
pub fn same_is_heard()
    ensures { SameIsHeard }
{}

/// Of any bytes that came at most one thing is heard.
pub fn one_hearing()
    ensures { OneHearing }
{}

/// Of any bytes that came something is heard.
pub fn every_hearing()
    ensures { EveryHearing }
{}

/// Of the same bytes the same is made, however they were cut.
pub fn one_making()
    ensures { OneMaking }
{}

/// Nothing is made of pads and SYN alone, and something of all else.
pub fn nothing_is_idle()
    ensures { NothingIsIdle }
{}
