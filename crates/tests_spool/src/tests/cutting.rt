//! What is kept of jobs that were cut.
use super::step::Step::{File, KeepsCut, NewNames, Replace, Stands};
use super::step::play;
use rje_text::Mode::{Normal, Transparent};
use rje_text::Select::{Printer, Punch, Unset};

/// Of a job that is cut again and again the last file stays alone, whether more came of it then or less.
#[test]
fn of_a_job_that_is_cut_again_the_last_file_stays(rt: HostRuntime) {
    play(
        &rt,
        &[],
        &[
            KeepsCut(b"ONE\nTWO\n", Unset, Normal),
            KeepsCut(b"ONE\nTWO\nTHREE\n", Unset, Normal),
            KeepsCut(b"ONE\n", Unset, Normal),
            KeepsCut(b"ONE\n", Unset, Normal),
            NewNames(1),
            Stands("s/cut/20261128T130509Z-4.job"),
        ],
    );
}

/// Another job's file stays, and only the job that was cut last is known again.
#[test]
fn the_file_of_another_job_stays(rt: HostRuntime) {
    play(
        &rt,
        &[],
        &[
            KeepsCut(b"ONE\nTWO\n", Unset, Normal),
            KeepsCut(b"ONE\nTOO\n", Unset, Normal),
            KeepsCut(b"ONE\nTWO\nTHREE\n", Unset, Normal),
            KeepsCut(b"", Unset, Normal),
            KeepsCut(b"ONE\nTWO\nTHREE\n", Unset, Normal),
            Stands("s/cut/20261128T130509Z-1.job"),
            Stands("s/cut/20261128T130509Z-2.job"),
            Stands("s/cut/20261128T130509Z-3.job"),
            Stands("s/cut/20261128T130509Z-4.job"),
            Stands("s/cut/20261128T130509Z-5.job"),
        ],
    );
}

/// A job for another device, or of another mode, is another one.
#[test]
fn a_job_for_another_device_is_another_one(rt: HostRuntime) {
    play(
        &rt,
        &[],
        &[
            KeepsCut(b"ONE\n", Unset, Normal),
            KeepsCut(b"ONE\n", Printer, Normal),
            KeepsCut(b"ONE\n", Punch, Normal),
            KeepsCut(b"ONE\n", Punch, Transparent),
            Stands("s/cut/20261128T130509Z-1.job"),
            Stands("s/cut/20261128T130509Z-2.job"),
            Stands("s/cut/20261128T130509Z-3.job"),
            Stands("s/cut/20261128T130509Z-4.job"),
        ],
    );
}

/// A file that somebody put in the place of the earlier one stays.
#[test]
fn a_file_in_the_place_of_the_earlier_one_stays(rt: HostRuntime) {
    play(
        &rt,
        &[],
        &[
            KeepsCut(b"ONE\n", Unset, Normal),
            Replace("s/cut/20261128T130509Z-1.job", b"MINE"),
            KeepsCut(b"ONE\n", Unset, Normal),
            File("s/cut/20261128T130509Z-1.job", b"MINE"),
            Stands("s/cut/20261128T130509Z-2.job"),
        ],
    );
}
