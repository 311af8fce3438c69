//! When a station stops sending, and when it goes on.
use super::step::Step::{
    AllCome, Clear, Clock, Gives, GoesOut, HideFolder, PutDecks, Remove, Settles, Told, Untold,
};
use super::step::{BEGIN, play};
use rje_day::Disposition::{InDoubt, Sent};

/// After three files in doubt in a row nothing is sent for a minute, and then one file is tried; where that one is in doubt too, nothing is for two
/// minutes, and so on, up to an hour. That it stops is told once.
#[test]
fn a_station_stops_after_three_files_in_doubt(rt: HostRuntime) {
    play(
        &rt,
        &[PutDecks(12)],
        &[
            Gives(12),
            AllCome(3, InDoubt),
            Told(
                b"2026-11-28 13:05:09 DOUBT 00.deck may have arrived: doubt/00.deck
2026-11-28 13:05:09 DOUBT 01.deck may have arrived: doubt/01.deck
2026-11-28 13:05:09 DOUBT 02.deck may have arrived: doubt/02.deck
2026-11-28 13:05:09 STOPPED SENDING: three files in doubt in a row
",
            ),
            Clear,
            Clock(Some(BEGIN + 59)),
            Gives(0),
            Clock(Some(BEGIN + 60)),
            Gives(1),
            AllCome(1, InDoubt),
            Gives(0),
            Clock(Some(BEGIN + 179)),
            Gives(0),
            Clock(Some(BEGIN + 180)),
            Gives(1),
            AllCome(1, InDoubt),
            Gives(0),
            Clock(Some(BEGIN + 419)),
            Gives(0),
            Clock(Some(BEGIN + 420)),
            Gives(1),
            AllCome(1, InDoubt),
            Gives(0),
            Clock(Some(BEGIN + 899)),
            Gives(0),
            Clock(Some(BEGIN + 900)),
            Gives(1),
            AllCome(1, InDoubt),
            Gives(0),
            Clock(Some(BEGIN + 1859)),
            Gives(0),
            Clock(Some(BEGIN + 1860)),
            Gives(1),
            AllCome(1, InDoubt),
            Gives(0),
            Clock(Some(BEGIN + 3779)),
            Gives(0),
            Clock(Some(BEGIN + 3780)),
            Gives(1),
            AllCome(1, InDoubt),
            Gives(0),
            Clock(Some(BEGIN + 7379)),
            Gives(0),
            Clock(Some(BEGIN + 7380)),
            Gives(1),
            AllCome(1, InDoubt),
            Gives(0),
            Clock(Some(BEGIN + 10979)),
            Gives(0),
            Clock(Some(BEGIN + 10980)),
            Gives(1),
            AllCome(1, InDoubt),
            Gives(0),
            Untold(b"STOPPED"),
        ],
    );
}

/// Once doubt/ has no file any more all goes on, and three more files in doubt stop it for a minute again.
#[test]
fn a_stopped_station_goes_on_once_nothing_is_in_doubt(rt: HostRuntime) {
    play(
        &rt,
        &[PutDecks(9)],
        &[
            Gives(9),
            AllCome(3, InDoubt),
            Clock(Some(BEGIN + 60)),
            Gives(1),
            AllCome(1, InDoubt),
            Remove("s/doubt/00.deck"),
            Remove("s/doubt/01.deck"),
            Remove("s/doubt/02.deck"),
            Gives(0),
            Remove("s/doubt/03.deck"),
            Gives(5),
            AllCome(3, InDoubt),
            Clock(Some(BEGIN + 119)),
            Gives(0),
            Clock(Some(BEGIN + 120)),
            Gives(1),
        ],
    );
}

/// Once the file that is tried is counted all goes on, though files are in doubt/; the next wait is a minute again.
#[test]
fn a_stopped_station_goes_on_once_a_file_is_counted(rt: HostRuntime) {
    play(
        &rt,
        &[PutDecks(9)],
        &[
            Gives(9),
            AllCome(3, InDoubt),
            Clock(Some(BEGIN + 60)),
            Gives(1),
            AllCome(1, InDoubt),
            Clock(Some(BEGIN + 180)),
            Gives(1),
            AllCome(1, Sent),
            Gives(4),
            AllCome(3, InDoubt),
            Gives(0),
            Clock(Some(BEGIN + 240)),
            Gives(1),
        ],
    );
}

/// Files in doubt are counted in a row: one that was counted between them begins anew.
#[test]
fn two_files_in_doubt_stop_no_station(rt: HostRuntime) {
    play(
        &rt,
        &[PutDecks(6)],
        &[
            Gives(6),
            AllCome(2, InDoubt),
            GoesOut(2, true),
            Settles(2, Sent, true),
            GoesOut(3, true),
            Settles(3, InDoubt, true),
            GoesOut(4, true),
            Settles(4, InDoubt, true),
            Gives(1),
        ],
    );
}

/// Where the clock can't be read no file is tried.
#[test]
fn no_file_is_tried_without_a_clock(rt: HostRuntime) {
    play(
        &rt,
        &[PutDecks(5)],
        &[
            Gives(5),
            AllCome(3, InDoubt),
            Clock(None),
            Gives(0),
            Clock(Some(BEGIN + 60)),
            Gives(1),
            Clock(None),
            AllCome(1, InDoubt),
            Clock(Some(BEGIN + 86400)),
            Gives(0),
        ],
    );
}

/// Where it can't be seen whether doubt/ has a file, nothing is sent before its time.
#[test]
fn doubt_that_cannot_be_seen_is_not_empty(rt: HostRuntime) {
    play(
        &rt,
        &[PutDecks(5)],
        &[
            Gives(5),
            AllCome(3, InDoubt),
            HideFolder("s/doubt"),
            Gives(0),
            Clock(Some(BEGIN + 60)),
            Gives(1),
        ],
    );
}
