//! Which files are passed over, and how long.
use super::step::Step::{AllCome, FailNext, Gives, Put, PutHeldFast, Ready, Replace, Told, Write};
use super::step::play;
use rje_day::Disposition::{self, Sent};

/// A file that can't get a second name is told once, and passed over until it is written to or another one has its name.
#[test]
fn a_file_without_a_second_name_is_passed_over(rt: HostRuntime) {
    play(
        &rt,
        &[PutHeldFast("s/out/a.deck", b"A\n")],
        &[
            Ready(true),
            Gives(0),
            Ready(false),
            Ready(false),
            Ready(false),
            Write("s/out/a.deck", b'B'),
            Ready(true),
            Gives(0),
            Ready(false),
            Told(
                b"2026-11-28 13:05:09 a.deck: can't get a second name: permission denied
2026-11-28 13:05:09 a.deck: can't get a second name: permission denied
",
            ),
            Replace("s/out/a.deck", b"C\n"),
            Gives(1),
        ],
    );
}

/// Files beside one that is passed over go meanwhile.
#[test]
fn a_file_that_is_passed_over_keeps_no_other_back(rt: HostRuntime) {
    play(
        &rt,
        &[
            PutHeldFast("s/out/a.deck", b"A\n"),
            Put("s/out/b.deck", b"B\n"),
        ],
        &[
            Gives(1),
            AllCome(1, Sent),
            Ready(false),
            Put("s/out/c.deck", b"C\n"),
            Gives(1),
        ],
    );
}

/// A file for whose second name there is no room is passed over for one look, and told once until one is read.
#[test]
fn a_file_without_room_for_a_second_name_goes_later(rt: HostRuntime) {
    play(
        &rt,
        &[Put("s/out/a.deck", b"A\n")],
        &[
            Ready(true),
            FailNext,
            Gives(0),
            Ready(false),
            Ready(true),
            FailNext,
            Gives(0),
            Ready(false),
            Gives(1),
            AllCome(1, Disposition::Ready),
            Ready(true),
            FailNext,
            Gives(0),
            Ready(false),
            Ready(true),
            FailNext,
            Gives(0),
            Ready(false),
            Gives(1),
            AllCome(1, Disposition::Ready),
            Told(
                b"2026-11-28 13:05:09 out: can't get a second name: no storage space
2026-11-28 13:05:09 out: can't get a second name: no storage space
",
            ),
        ],
    );
}
