//! Which files a transmission is given, and when none is.
use super::Ground;
use super::step::Step::{
    Absent, AllCome, Clock, File, Gives, GoesOut, Put, PutDecks, PutHeldFast, PutOfAnother, Ready,
    Remove, Settles, Stands, Told, Write, WriteMeanwhile,
};
use super::step::{BEGIN, given, play, settled};
use rje_day::Disposition::{self, Sent};
use rje_session::Spool;

#[test]
fn nothing_is_sent_while_the_operator_holds_it(rt: HostRuntime) {
    let ground = Ground::new(rt.alloc());
    ground.put(&rt, "s/out/a.deck", b"A\n");
    let mut spool = ground.spool(&rt);
    ground.put(&rt, "s/hold", b"");
    let seen = spool.seen();
    assert!(rt; seen.held);
    assert!(rt; !seen.ready);
    ground.remove(&rt, "s/hold");
    ground.put(&rt, "s/drain", b"");
    let seen = spool.seen();
    assert!(rt; !seen.held);
    assert!(rt; seen.ready);
    assert!(rt; seen.drained);
}

/// What can't be read is taken for held. That is told once as long as it can't be, and again once it could.
#[test]
fn what_cannot_be_looked_at_is_taken_for_held(rt: HostRuntime) {
    let ground = Ground::new(rt.alloc());
    ground.put(&rt, "s/out/a.deck", b"A\n");
    let mut spool = ground.spool(&rt);
    for _ in 0..2 {
        if let Ok(_disk) = ground.disk.try_borrow_mut() {
            for _ in 0..2 {
                let seen = spool.seen();
                assert!(rt; seen.held && !seen.ready && !seen.drained);
            }
        }
        assert!(rt; given(&rt, &mut spool) == 1);
        settled(&rt, &mut spool, 1, Disposition::Ready);
    }
    ground.assert_told(
        &rt,
        b"2026-11-28 13:05:09 resource busy\n2026-11-28 13:05:09 resource busy\n",
    );
}

/// What can't be sent goes to refused/, and why is beside it.
#[test]
fn a_file_that_cannot_be_sent_is_put_aside(rt: HostRuntime) {
    play(
        &rt,
        &[Put("s/out/a.deck", b"A\tB\n"), Put("s/out/b.deck", b"B\n")],
        &[
            Gives(1),
            File("s/refused/a.deck", b"A\tB\n"),
            File(
                "s/refused/a.deck.why",
                b"deck line 1 column 2: no EBCDIC character\n",
            ),
            AllCome(1, Sent),
            File("s/sent/b.deck", b"B\n"),
            Told(
                b"2026-11-28 13:05:09 refused a.deck: deck line 1 column 2: no EBCDIC character
2026-11-28 13:05:09 sent b.deck
",
            ),
        ],
    );
}

/// A deck of another user is taken over, and goes at the next look.
#[test]
fn a_deck_of_another_user_goes_at_the_next_look(rt: HostRuntime) {
    play(
        &rt,
        &[PutOfAnother("s/out/a.deck", b"A\n")],
        &[
            Gives(0),
            Gives(1),
            AllCome(1, Sent),
            File("s/sent/a.deck", b"A\n"),
            Told(b"2026-11-28 13:05:09 sent a.deck\n"),
        ],
    );
}

/// One that was written to three seconds ago may be written to still, and waits: its bytes changed one second after 1970 there.
#[test]
fn a_deck_of_another_user_that_is_written_waits(rt: HostRuntime) {
    play(
        &rt,
        &[PutOfAnother("s/out/a.deck", b"A\n")],
        &[
            Clock(Some(4)),
            Gives(0),
            Ready(false),
            Gives(0),
            Ready(false),
            Clock(Some(5)),
            Ready(true),
            Gives(0),
            Told(b""),
            Gives(1),
            AllCome(1, Sent),
            File("s/sent/a.deck", b"A\n"),
        ],
    );
}

/// If it is written to while it is taken over that is reported, and it goes with all its bytes once it is at rest, at one of the looks that come each ten
/// seconds: its bytes changed 13 seconds after 1970 there.
#[test]
fn a_deck_that_is_written_while_it_is_taken_over_goes_later(rt: HostRuntime) {
    play(
        &rt,
        &[PutOfAnother("s/out/a.deck", b"A\n")],
        &[
            Clock(Some(5)),
            WriteMeanwhile("s/out/a.deck"),
            Gives(0),
            Told(b"1970-01-01 00:00:05 a.deck: being written, and sent once it is left alone\n"),
            Write("s/out/.a.deck.taken-0", b'X'),
            Write("s/out/.a.deck.taken-0", b'X'),
            Write("s/out/.a.deck.taken-0", b'X'),
            Write("s/out/.a.deck.taken-0", b'X'),
            Write("s/out/.a.deck.taken-0", b'X'),
            Write("s/out/.a.deck.taken-0", b'X'),
            Write("s/out/.a.deck.taken-0", b'X'),
            Write("s/out/.a.deck.taken-0", b'X'),
            Write("s/out/.a.deck.taken-0", b'X'),
            Write("s/out/.a.deck.taken-0", b'X'),
            Write("s/out/.a.deck.taken-0", b'X'),
            Clock(Some(5)),
            Gives(0),
            Absent("s/out/a.deck"),
            Clock(Some(14)),
            Gives(0),
            Absent("s/out/a.deck"),
            Clock(Some(15)),
            Gives(0),
            Absent("s/out/a.deck"),
            Clock(Some(24)),
            Gives(0),
            Absent("s/out/a.deck"),
            Clock(Some(25)),
            Gives(1),
            AllCome(1, Sent),
            File("s/sent/a.deck", b"X\n"),
            Ready(false),
        ],
    );
}

/// Where it can't be taken over it is told once, and stays.
#[test]
fn a_deck_that_cannot_be_taken_over_is_passed_over(rt: HostRuntime) {
    play(
        &rt,
        &[PutHeldFast("s/out/a.deck", b"A\n")],
        &[
            Gives(0),
            Ready(false),
            File("s/out/a.deck", b"A\n"),
            Told(b"2026-11-28 13:05:09 a.deck: can't get a second name: permission denied\n"),
        ],
    );
}

/// A transmission is given 64 jobs at first, and after one that took no time twice as many.
#[test]
fn a_fast_line_is_given_more(rt: HostRuntime) {
    let steps = [Gives(64), AllCome(64, Sent), Gives(86)];
    play(&rt, &[PutDecks(150)], &steps);
}

/// What wasn't sent after all comes before what was to be next.
#[test]
fn files_that_are_taken_back_come_first(rt: HostRuntime) {
    let steps = [Gives(64), AllCome(64, Disposition::Ready), Gives(64)];
    play(&rt, &[PutDecks(65)], &steps);
}

/// A file that is held back, or taken away, once its name was read isn't in the transmission.
#[test]
fn a_file_that_is_held_back_before_the_bid_is_left_alone(rt: HostRuntime) {
    play(
        &rt,
        &[
            PutDecks(3),
            Put("s/out/03.deck.hold", b"A\n"),
            Put("s/out/04.deck.part", b"A\n"),
            Put("s/out/.05.deck", b"A\n"),
        ],
        &[
            Ready(true),
            Remove("s/out/00.deck"),
            Put("s/out/00.deck.hold", b"A\n"),
            Remove("s/out/01.deck"),
            Gives(1),
            AllCome(1, Sent),
            File("s/sent/02.deck", b"A\n"),
            Gives(0),
            Told(b"2026-11-28 13:05:09 sent 02.deck\n"),
        ],
    );
}

/// What was put there while others lay ready comes after those; each look at the folder has its names in the order of their bytes.
#[test]
fn files_go_in_the_order_of_their_names(rt: HostRuntime) {
    play(
        &rt,
        &[
            Put("s/out/b.deck", b"A\n"),
            Put("s/out/B.deck", b"A\n"),
            Put("s/out/a.deck", b"A\n"),
        ],
        &[
            Ready(true),
            Put("s/out/0.deck", b"A\n"),
            Gives(3),
            AllCome(3, Sent),
            Gives(1),
            AllCome(1, Sent),
            Told(
                b"2026-11-28 13:05:09 sent B.deck
2026-11-28 13:05:09 sent a.deck
2026-11-28 13:05:09 sent b.deck
2026-11-28 13:05:09 sent 0.deck
",
            ),
        ],
    );
}

/// After a transmission that took a minute the next one has half as many jobs, and one that took less than that and more than a second as many; one
/// that might have had more changes nothing.
#[test]
fn a_slow_line_is_given_less(rt: HostRuntime) {
    // (it takes so long until the last job is counted)
    play(
        &rt,
        &[PutDecks(193)],
        &[
            Gives(64),
            AllCome(63, Sent),
            Clock(Some(BEGIN + 59)),
            GoesOut(63, true),
            Settles(63, Sent, true),
            Gives(64),
            AllCome(63, Sent),
            Clock(Some(BEGIN + 119)),
            GoesOut(63, true),
            Settles(63, Sent, true),
            Gives(32),
            AllCome(31, Sent),
            Clock(Some(BEGIN + 120)),
            GoesOut(31, true),
            Settles(31, Sent, true),
            Gives(32),
            AllCome(31, Sent),
            Clock(Some(BEGIN + 120)),
            GoesOut(31, true),
            Settles(31, Sent, true),
            Gives(1),
            Clock(Some(BEGIN + 120)),
            GoesOut(0, true),
            Settles(0, Sent, true),
            PutDecks(100),
            Gives(64),
        ],
    );
}

/// 6,400 cards fill the first transmission; the file with which it has so many is in it.
#[test]
fn a_transmission_has_so_many_cards(rt: HostRuntime) {
    let mut cards = Vec::new(rt.alloc());
    assert!(rt; cards.resize(6398, b'\n').is_ok());
    play(
        &rt,
        &[
            Put("s/out/0.deck", cards.as_slice()),
            Put("s/out/1.deck", b"A\n"),
            Put("s/out/2.deck", b"A\n"),
            Put("s/out/3.deck", b"A\n"),
        ],
        &[Gives(3)],
    );
}

/// A transmission that has as many cards as it may has as much as it may: after one that took no time the next one has twice as many jobs.
#[test]
fn a_transmission_of_many_cards_is_a_full_one(rt: HostRuntime) {
    let mut cards = Vec::new(rt.alloc());
    assert!(rt; cards.resize(6400, b'\n').is_ok());
    play(
        &rt,
        &[Put("s/out/many.deck", cards.as_slice())],
        &[Gives(1), AllCome(1, Sent), PutDecks(70), Gives(70)],
    );
}

/// A file of more bytes than are read is refused, and one of as many is no deck for its long lines alone.
#[test]
fn a_file_that_is_too_long_is_refused(rt: HostRuntime) {
    let mut bytes = Vec::new(rt.alloc());
    assert!(rt; bytes.resize(16_777_217, b'A').is_ok());
    let longest = bytes.get(..16_777_216).expect(&rt, "so many");
    play(
        &rt,
        &[
            Put("s/out/a.deck", longest),
            Put("s/out/b.deck", bytes.as_slice()),
        ],
        &[
            Gives(0),
            File("s/refused/b.deck.why", b"more than 16777216 bytes\n"),
            Told(
                b"2026-11-28 13:05:09 refused a.deck: deck line 1: more than 80 columns
2026-11-28 13:05:09 refused b.deck: more than 16777216 bytes
",
            ),
        ],
    );
}

/// A name that is taken again and again gets the next number each time.
#[test]
fn a_name_that_is_taken_gets_the_next_number(rt: HostRuntime) {
    play(
        &rt,
        &[],
        &[
            Put("s/out/a.printer.deck", b"A\n"),
            Gives(1),
            AllCome(1, Sent),
            Stands("s/sent/a.printer.deck"),
            Absent("s/out/a.printer.deck"),
            Put("s/out/a.printer.deck", b"A\n"),
            Gives(1),
            AllCome(1, Sent),
            Stands("s/sent/a.2.printer.deck"),
            Absent("s/out/a.printer.deck"),
            Put("s/out/a.printer.deck", b"A\n"),
            Gives(1),
            AllCome(1, Sent),
            Stands("s/sent/a.3.printer.deck"),
            Absent("s/out/a.printer.deck"),
            Put("s/out/a.printer.deck", b"A\n"),
            Gives(1),
            AllCome(1, Sent),
            Stands("s/sent/a.4.printer.deck"),
            Absent("s/out/a.printer.deck"),
            Put("s/out/a.printer.deck", b"A\n"),
            Gives(1),
            AllCome(1, Sent),
            Stands("s/sent/a.5.printer.deck"),
            Absent("s/out/a.printer.deck"),
        ],
    );
}
