//! What becomes of the files of a transmission: marks, folders, lines.
use super::Ground;
use super::page::Page;
use super::step::Step::{
    Absent, AllCome, Clear, Deny, DoubtsAll, FailNext, File, Gives, GoesOut, HideFolder, Put,
    Ready, Remove, Rename, Replace, Settles, Stands, Told,
};
use super::step::{given, play};
use rje_day::Disposition::{self, InDoubt, Sent};
use rje_session::Spool;
use rje_store::Disk;

/// A job file of two jobs of one record each, of which this many are sent.
fn two_jobs(sent: u8) -> [u8; 58] {
    let first = if sent > 0 { 1 } else { 0 };
    let second = if sent > 1 { 1 } else { 0 };
    [
        b'R', b'J', b'3', b'7', 0, 2, 0, 0, 0, 0, 0, 0, 0, 2, b' ', b' ', b' ', b' ', b' ', b' ',
        b' ', b' ', first, 0, 0, 0, 0, 0, 0, 0, 0, 0, 1, 0, 1, 0xC1, b' ', b' ', b' ', b' ', b' ',
        b' ', b' ', b' ', second, 1, 0, 0, 0, 0, 0, 0, 0, 0, 1, 0, 1, 0xC2,
    ]
}

/// The first job of a file is counted, and nobody knows of the second: the file in doubt/ has the first one marked, and that alone.
#[test]
fn a_counted_job_is_marked_in_its_own_place(rt: HostRuntime) {
    let marked = two_jobs(1);
    play(
        &rt,
        &[Put("s/out/a.job", &two_jobs(0))],
        &[
            Ready(true),
            Gives(2),
            GoesOut(0, true),
            Settles(0, Sent, true),
            File("s/out/a.job", &marked),
            GoesOut(1, true),
            Settles(1, InDoubt, true),
            File("s/doubt/a.job", &marked),
            Told(
                b"2026-11-28 13:05:09 sent a.job job 1 of 2
2026-11-28 13:05:09 DOUBT a.job may have arrived: doubt/a.job
",
            ),
        ],
    );
}

/// Whoever takes a file back once its last block is out is told that it was too late.
#[test]
fn a_file_that_is_taken_back_too_late_is_told(rt: HostRuntime) {
    play(
        &rt,
        &[Put("s/out/a.deck", b"A\n")],
        &[
            Gives(1),
            GoesOut(0, true),
            File("s/doubt/a.deck", b"A\n"),
            Remove("s/out/a.deck"),
            Settles(0, Sent, true),
            File("s/sent/a.deck", b"A\n"),
            Absent("s/doubt/a.deck"),
            Told(
                b"2026-11-28 13:05:09 sent a.deck
2026-11-28 13:05:09 a.deck was taken out of out/ when its last block was out
",
            ),
        ],
    );
}

#[test]
fn a_file_that_is_taken_back_too_late_may_be_in_doubt(rt: HostRuntime) {
    play(
        &rt,
        &[Put("s/out/a.deck", b"A\n")],
        &[
            Gives(1),
            GoesOut(0, true),
            Remove("s/out/a.deck"),
            Settles(0, InDoubt, true),
            File("s/doubt/a.deck", b"A\n"),
            Told(
                b"2026-11-28 13:05:09 DOUBT a.deck may have arrived: doubt/a.deck
2026-11-28 13:05:09 a.deck was taken out of out/ when its last block was out
",
            ),
        ],
    );
}

/// One that was only renamed in out/ then isn't sent again under its new name, with another file under its old one too, as long as it is that file.
#[test]
fn a_file_that_is_renamed_too_late_is_not_sent_again(rt: HostRuntime) {
    play(
        &rt,
        &[Put("s/out/a.deck", b"A\n")],
        &[
            Gives(1),
            GoesOut(0, true),
            Rename("s/out/a.deck", "s/out/b.deck"),
            Settles(0, Sent, true),
            File("s/sent/a.deck", b"A\n"),
            Told(
                b"2026-11-28 13:05:09 sent a.deck
2026-11-28 13:05:09 a.deck was taken out of out/ when its last block was out
2026-11-28 13:05:09 out/b.deck was a.deck when its last block was out: it isn't sent again
",
            ),
            Gives(0),
            Put("s/out/a.deck", b"C\n"),
            Gives(1),
            GoesOut(0, true),
            Rename("s/out/a.deck", "s/out/c.deck"),
            Put("s/out/a.deck", b"D\n"),
            Clear,
            Settles(0, InDoubt, true),
            File("s/doubt/a.deck", b"C\n"),
            Told(
                b"2026-11-28 13:05:09 DOUBT a.deck may have arrived: doubt/a.deck
2026-11-28 13:05:09 out/c.deck was a.deck when its last block was out: it isn't sent again
",
            ),
            Gives(1),
            AllCome(1, Sent),
            Replace("s/out/b.deck", b"B\n"),
            Gives(1),
        ],
    );
}

/// A file that has taken the name meanwhile stays, lies ready, and nothing is told of it.
#[test]
fn a_file_that_takes_the_name_lies_ready(rt: HostRuntime) {
    for (what, path, told) in [
        (
            Sent,
            "s/sent/a.deck",
            b"2026-11-28 13:05:09 sent a.deck\n".as_slice(),
        ),
        (
            InDoubt,
            "s/doubt/a.deck",
            b"2026-11-28 13:05:09 DOUBT a.deck may have arrived: doubt/a.deck\n".as_slice(),
        ),
    ] {
        play(
            &rt,
            &[Put("s/out/a.deck", b"A\n")],
            &[
                Gives(1),
                GoesOut(0, true),
                Replace("s/out/a.deck", b"B\n"),
                Settles(0, what, true),
                File(path, b"A\n"),
                File("s/out/a.deck", b"B\n"),
                Gives(1),
                Told(told),
            ],
        );
    }
}

/// A name in out/ that can't be taken away is told, and isn't sent again, also once its name in doubt/ is cleared; another file of that name is.
#[test]
fn a_name_that_cannot_be_taken_away_is_not_sent_again(rt: HostRuntime) {
    play(
        &rt,
        &[Put("s/out/a.deck", b"A\n")],
        &[
            Gives(1),
            GoesOut(0, true),
            FailNext,
            Settles(0, InDoubt, true),
            File("s/out/a.deck", b"A\n"),
            Told(
                b"2026-11-28 13:05:09 DOUBT a.deck may have arrived: doubt/a.deck
2026-11-28 13:05:09 out/a.deck can't be taken away and isn't sent again: no storage space
",
            ),
            Gives(0),
            Remove("s/doubt/a.deck"),
            Gives(0),
            Replace("s/out/a.deck", b"B\n"),
            Gives(1),
        ],
    );
}

/// Whichever call fails as a deck is counted: its name in out/ is gone, or that is told and it isn't sent again once the other names are cleared; and it
/// is told as sent or in doubt.
#[test]
fn what_was_counted_is_not_sent_again(rt: HostRuntime) {
    for failing in 1..12 {
        let ground = Ground::failing(rt.alloc(), failing);
        ground.put(&rt, "s/out/a.deck", b"A\n");
        let mut spool = ground.spool(&rt);
        if given(&rt, &mut spool) == 1 && spool.goes_out(0).is_ok() {
            let counted = spool.settle(0, Disposition::Sent);
            let page = Page::new(&ground.page);
            assert!(rt; page.has(b" sent a.deck\n") == counted.is_ok());
            assert!(rt; page.has(b" DOUBT a.deck ") == counted.is_err());
            assert!(rt; page.has(b" out/a.deck can't ") == ground.stands("s/out/a.deck"));
            let _ = ground.disk().remove("s/doubt/a.deck");
            let _ = ground.disk().remove("s/sent/a.deck");
            assert!(rt; given(&rt, &mut spool) == 0);
        }
    }
}

/// Two decks and a job file of two jobs were counted, and answers came out of step then: each file is in doubt, and told once.
#[test]
fn all_that_was_counted_may_be_in_doubt(rt: HostRuntime) {
    play(
        &rt,
        &[
            Put("s/out/a.job", &two_jobs(0)),
            Put("s/out/b.deck", b"B\n"),
            Put("s/out/c.deck", b"C\n"),
        ],
        &[
            Gives(4),
            AllCome(4, Sent),
            Clear,
            DoubtsAll(true),
            Stands("s/doubt/a.job"),
            Stands("s/doubt/b.deck"),
            Stands("s/doubt/c.deck"),
            Told(
                b"2026-11-28 13:05:09 DOUBT a.job may have arrived: doubt/a.job
2026-11-28 13:05:09 DOUBT b.deck may have arrived: doubt/b.deck
2026-11-28 13:05:09 DOUBT c.deck may have arrived: doubt/c.deck
2026-11-28 13:05:09 STOPPED SENDING: three files in doubt in a row
",
            ),
        ],
    );
}

/// The same where the last block of the third of them wasn't said: its file lies ready still.
#[test]
fn what_did_not_go_out_is_not_in_doubt(rt: HostRuntime) {
    play(
        &rt,
        &[
            Put("s/out/a.deck", b"A\n"),
            Put("s/out/b.deck", b"B\n"),
            Put("s/out/c.deck", b"C\n"),
        ],
        &[
            Gives(3),
            AllCome(1, Sent),
            GoesOut(1, true),
            Settles(1, InDoubt, true),
            Settles(2, Disposition::Ready, true),
            DoubtsAll(true),
            Stands("s/doubt/a.deck"),
            Stands("s/doubt/b.deck"),
            Stands("s/out/c.deck"),
            Absent("s/doubt/c.deck"),
        ],
    );
}

/// The same where none went out, after a transmission of which one did: what was counted there stays sent.
#[test]
fn what_was_sent_before_is_not_in_doubt(rt: HostRuntime) {
    play(
        &rt,
        &[Put("s/out/a.deck", b"A\n")],
        &[
            Gives(1),
            AllCome(1, Sent),
            Put("s/out/b.deck", b"B\n"),
            Gives(1),
            Settles(0, Disposition::Ready, true),
            DoubtsAll(true),
            Stands("s/sent/a.deck"),
            Stands("s/out/b.deck"),
            Absent("s/doubt/b.deck"),
        ],
    );
}

/// The same where the first file can't be put there: the others are.
#[test]
fn a_file_that_cannot_be_in_doubt_keeps_no_other_from_it(rt: HostRuntime) {
    play(
        &rt,
        &[
            Put("s/out/a.job", &two_jobs(0)),
            Put("s/out/b.deck", b"B\n"),
            Put("s/out/c.deck", b"C\n"),
        ],
        &[
            Gives(4),
            AllCome(4, Sent),
            Deny("s/sent/a.job"),
            DoubtsAll(false),
            Stands("s/sent/a.job"),
            Stands("s/doubt/b.deck"),
            Stands("s/doubt/c.deck"),
        ],
    );
}

/// A file of which can't be seen whether it is in doubt doesn't lie ready: it would be sent twice.
#[test]
fn a_file_that_may_be_in_doubt_does_not_lie_ready(rt: HostRuntime) {
    play(
        &rt,
        &[Put("s/out/a.deck", b"A\n")],
        &[Gives(1), GoesOut(0, true), HideFolder("s/doubt"), Gives(0)],
    );
}

/// A job file is taken back while the last block of its first job is out. That job is counted, and what is left can't lie ready any more: the file is
/// in doubt, as the operator is told.
#[test]
fn a_job_file_that_is_taken_back_too_late_is_told(rt: HostRuntime) {
    play(
        &rt,
        &[Put("s/out/a.job", &two_jobs(0))],
        &[
            Gives(2),
            GoesOut(0, true),
            Remove("s/out/a.job"),
            Settles(0, Sent, false),
            File("s/doubt/a.job", &two_jobs(1)),
            Told(
                b"2026-11-28 13:05:09 DOUBT a.job may have arrived: doubt/a.job
2026-11-28 13:05:09 a.job was taken out of out/ when its last block was out
",
            ),
        ],
    );
}

/// Where the name in doubt/ can't be had the last block isn't said, and why is told.
#[test]
fn why_a_last_block_is_not_said_is_told(rt: HostRuntime) {
    play(
        &rt,
        &[Put("s/out/a.deck", b"A\n")],
        &[
            Gives(1),
            FailNext,
            GoesOut(0, false),
            Told(b"2026-11-28 13:05:09 a.deck: doubt: no storage space\n"),
        ],
    );
}
