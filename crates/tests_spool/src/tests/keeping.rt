//! What is kept of jobs that came: names, papers, lines.
use super::step::Step::{
    CanReceive, Clock, Ends, FailNext, File, Keeps, KeepsCut, NewNames, Ready, SetRoom, Told,
};
use super::step::{BEGIN, play};
use rje_text::Mode::Normal;
use rje_text::Select::{Punch, Unset};

/// Each job and its paper have one number, and nothing else is left in the folders.
#[test]
fn a_job_and_its_paper_have_one_number(rt: HostRuntime) {
    play(
        &rt,
        &[],
        &[
            Keeps(b"ONE", Punch, true),
            Keeps(b"TWO", Punch, true),
            Ready(false),
            File("s/punch/20261128T130509Z-1.deck", b"ONE\n"),
            File("s/punch/20261128T130509Z-2.deck", b"TWO\n"),
            Told(
                b"2026-11-28 13:05:09 received in/20261128T130509Z-1.job punch whole 1 records
2026-11-28 13:05:09 received in/20261128T130509Z-2.job punch whole 1 records
",
            ),
            NewNames(4),
        ],
    );
}

/// What is kept in another second is numbered from 1 again, and a job that was cut has its own folder and line.
#[test]
fn each_second_has_its_own_numbers(rt: HostRuntime) {
    play(
        &rt,
        &[],
        &[
            Keeps(b"ONE", Unset, true),
            Clock(Some(BEGIN + 1)),
            KeepsCut(b"TWO", Unset, Normal),
            Keeps(b"THREE", Unset, true),
            Told(
                b"2026-11-28 13:05:09 received in/20261128T130509Z-1.job unset whole 1 records
2026-11-28 13:05:10 received cut/20261128T130510Z-1.job unset CUT 1 records
2026-11-28 13:05:10 received in/20261128T130510Z-2.job unset whole 1 records
",
            ),
        ],
    );
}

/// A job whose paper can't be made stays in in/, and that is told.
#[test]
fn a_job_without_paper_is_told(rt: HostRuntime) {
    play(
        &rt,
        &[],
        &[
            Keeps(b"ONE", Punch, true),
            FailNext,
            Ready(false),
            Told(
                b"2026-11-28 13:05:09 received in/20261128T130509Z-1.job punch whole 1 records
2026-11-28 13:05:09 no paper of s/in/20261128T130509Z-1.job: punch: no storage space
",
            ),
        ],
    );
}

/// After a job that can't be kept nothing is received until a file as long can be, which is tried each ten seconds and leaves nothing.
#[test]
fn a_job_that_cannot_be_kept_stops_a_station(rt: HostRuntime) {
    play(
        &rt,
        &[],
        &[
            CanReceive(true),
            FailNext,
            Keeps(b"ONE", Unset, false),
            FailNext,
            Clock(Some(BEGIN + 9)),
            CanReceive(false),
            Clock(Some(BEGIN + 10)),
            CanReceive(false),
            Clock(Some(BEGIN + 19)),
            CanReceive(false),
            Clock(Some(BEGIN + 20)),
            CanReceive(true),
            NewNames(0),
            Told(
                b"2026-11-28 13:05:09 STOPPED RECEIVING: a job can't be kept
2026-11-28 13:05:29 receiving again: a job can be kept
",
            ),
        ],
    );
}

/// Nothing is received as long as there is room for a short file, and none for one as long as the job's: 33 bytes, and for each record two and its data
/// (docs/FORMATS.md).
#[test]
fn room_for_a_shorter_file_is_none(rt: HostRuntime) {
    play(
        &rt,
        &[],
        &[
            SetRoom(37),
            Keeps(b"ONE", Unset, false),
            Clock(Some(BEGIN + 10)),
            CanReceive(false),
            SetRoom(38),
            Clock(Some(BEGIN + 20)),
            CanReceive(true),
            Keeps(b"ONE", Unset, true),
        ],
    );
}

/// A station that ends makes the printout of the job that came last.
#[test]
fn a_station_that_ends_leaves_no_job_without_paper(rt: HostRuntime) {
    play(
        &rt,
        &[],
        &[
            Keeps(b"ONE", Punch, true),
            Ends,
            File("s/punch/20261128T130509Z-1.deck", b"ONE\n"),
        ],
    );
}
