//! The lines that a station tells.
use super::Ground;
use rje_files::NO_NAME;
use rje_folder::FolderFault;
use rje_spool::{FileJob, JobLabel, Notice, RefusedFile};
use rje_text::Select;
use std::io::ErrorKind;
use std::net::SocketAddr;

/// A job of so many records for this device.
fn label(select: Select, records: usize) -> JobLabel {
    JobLabel { select, records }
}

/// What is told of connections (docs/FORMATS.md).
#[test]
fn connections_are_told(rt: HostRuntime) {
    let ground = Ground::new(rt.alloc());
    ground.clock.set(None);
    let mut console = ground.console();
    let address = SocketAddr::from(([192, 0, 2, 7], 3780));
    for notice in [
        Notice::Began("/var/spool/rje"),
        Notice::Listening(address),
        Notice::CalledBy(address),
        Notice::HungUpOn(address),
        Notice::Calling("there.example:3780"),
        Notice::NotConnected(ErrorKind::ConnectionRefused),
        Notice::Connected,
        Notice::Bid,
        Notice::LineFailed("no answer"),
        Notice::OutOfStep,
        Notice::HungUp,
        Notice::Failed("can't take a call: out of memory"),
        Notice::Ended,
    ] {
        console.tell(notice);
    }
    ground.assert_told(
        &rt,
        b"station of /var/spool/rje
listening 192.0.2.7:3780
called by 192.0.2.7:3780
hung up on 192.0.2.7:3780
calling there.example:3780
can't connect: connection refused
connected
bid
line failed: no answer
line failed: answers out of step
hung up
can't take a call: out of memory
ended
",
    );
}

/// What is told of jobs that are sent (docs/FORMATS.md): which job of its file each is, and where a file went that didn't keep its name. Names of the
/// operator's have no control characters.
#[test]
fn jobs_are_told(rt: HostRuntime) {
    let ground = Ground::new(rt.alloc());
    ground.clock.set(None);
    let mut console = ground.console();
    let which = FileJob {
        number: 2,
        of: 3,
        name: *b"PAY2    ",
    };
    for notice in [
        Notice::Sending("a.deck", None, label(Select::Unset, 1)),
        Notice::Sending("b.printer.deck", None, label(Select::Printer, 22)),
        Notice::Sending(
            "c\n2026-11-28 sent c.punch.deck",
            None,
            label(Select::Punch, 0),
        ),
        Notice::Sending("d.job", Some(which), label(Select::Punch, 7)),
        Notice::Sent("a.deck", None, Some("/var/spool/rje/sent/a.deck")),
        Notice::Sent("a.deck", None, Some("/var/spool/rje/sent/a.2.deck")),
        Notice::Sent("d.job", Some(which), None),
        Notice::Sent(
            "d.job",
            Some(FileJob {
                name: NO_NAME,
                ..which
            }),
            Some("sent/dd.job"),
        ),
    ] {
        console.tell(notice);
    }
    ground.assert_told(
        &rt,
        b"sending a.deck unset 1 cards
sending b.printer.deck printer 22 cards
sending c?2026-11-28 sent c.punch.deck punch 0 cards
sending d.job job 2 of 3 PAY2 punch 7 cards
sent a.deck
sent a.deck: sent/a.2.deck
sent d.job job 2 of 3 PAY2
sent d.job job 2 of 3: sent/dd.job
",
    );
}

/// What is told of files (docs/FORMATS.md).
#[test]
fn files_are_told(rt: HostRuntime) {
    let ground = Ground::new(rt.alloc());
    ground.clock.set(None);
    let mut console = ground.console();
    for notice in [
        Notice::Doubt("a.deck", "/var/spool/rje/doubt/a.2.deck"),
        Notice::TakenBack("a.deck"),
        Notice::Left("a.deck", ErrorKind::PermissionDenied),
        Notice::Renamed(".a.deck.taken-0", "/var/spool/rje/out/a.2.deck"),
        Notice::StaysHidden(".a.deck.taken-0", FolderFault::OtherNames),
        Notice::Stopped,
        Notice::Refused("b.txt", RefusedFile::UnknownKind),
        Notice::Refused("b.deck", RefusedFile::TooLong),
        Notice::Refused("b.job", RefusedFile::BadJob(2)),
        Notice::Refused("b.job", RefusedFile::TooMuch),
        Notice::Refused("b.job", RefusedFile::NothingLeft),
        Notice::Receiving(2),
        Notice::ReceivingStill {
            job: 2,
            records: 30,
            blocks: 4,
        },
        Notice::Received("s/in/20261128T031502Z-1.job", label(Select::Printer, 22)),
        Notice::Cut("s/cut/20261128T031502Z-1.job", label(Select::Punch, 3)),
    ] {
        console.tell(notice);
    }
    ground.assert_told(
        &rt,
        b"DOUBT a.deck may have arrived: doubt/a.2.deck
a.deck was taken out of out/ when its last block was out
out/a.deck can't be taken away and isn't sent again: permission denied
out/.a.deck.taken-0 is out/a.2.deck now: another file has its name
out/.a.deck.taken-0: not given its name back: it has other names
STOPPED SENDING: three files in doubt in a row
refused b.txt: neither a deck nor a job file, by its name
refused b.deck: more than 16777216 bytes
refused b.job: job 2 can't be sent
refused b.job: a job is longer than a station can hold
refused b.job: no job is left to send
receiving job 2
receiving job 2: 30 records, 4 blocks
received in/20261128T031502Z-1.job printer whole 22 records
received cut/20261128T031502Z-1.job punch CUT 3 records
",
    );
}
