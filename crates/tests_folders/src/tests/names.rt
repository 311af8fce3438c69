//! Which file lies ready, and what it is.
use fake_disk::FailingDisk;
use rje_folder::{FileNames, ReadyFile, is_left_alone, keep, move_file, ready_names};
use std::alloc::Global;
use std::io;
use std::process::Abort;
use std::test::Fail;

/// Those of these names that lie ready.
fn ready_of(alloc: Global, names: &[&str]) -> io::Result<Vec<String>> {
    let mut all = Vec::new(alloc);
    for name in names {
        all.push(String::from_str(alloc, name)?)?;
    }
    Ok(ready_names(all)?)
}

#[test]
fn names_are_in_the_order_of_their_bytes(rt: HostRuntime) -> Result<(), Fail> {
    let names = [
        "b.deck",
        ".a.deck",
        "a.deck.part",
        "B.deck",
        "a.hold",
        "a.deck",
        "B.deck",
    ];
    let ready = ready_of(rt.alloc(), &names)?;
    assert!(rt; ready.len() == 3);
    for (place, name) in ["B.deck", "a.deck", "b.deck"].iter().enumerate() {
        assert!(rt;
            ready
                .get(place)
                .is_some_and(|found| found.as_str() == *name)
        );
    }
    assert!(rt; ready_of(rt.alloc(), &[".a", "b.part"])?.is_empty());
    Ok(())
}

#[test]
fn a_file_is_what_its_ending_says(rt: HostRuntime) {
    assert!(rt; ReadyFile::of_name("a.job") == Some(ReadyFile::JobFile));
    assert!(rt; ReadyFile::of_name("a.deck") != ReadyFile::of_name("a.printer.deck"));
    assert!(rt; ReadyFile::of_name("a.punch.deck") != ReadyFile::of_name("a.transparent.deck"));
    assert!(rt; ReadyFile::of_name("a.txt").is_none());
    assert!(rt; is_left_alone("a.job.hold") && !is_left_alone("hold.job"));
}

/// The path under which a file is found that has this name, once its name is taken where it goes to.
fn moved(rt: &impl Abort, alloc: Global, name: &str) -> io::Result<String> {
    let from = format!(in alloc; "s/out/{name}")?;
    let to = format!(in alloc; "s/sent/{name}")?;
    let mut disk = FailingDisk::new(alloc, 0, false);
    disk.put(from.as_str())?;
    disk.put(to.as_str())?;
    let moved = move_file(&mut disk, alloc, from.as_str(), FileNames::Of(to.as_str()));
    let moved = moved.expect(rt, "a path");
    assert!(rt; disk.file_of(moved.as_str()) == Some(1));
    Ok(moved)
}

#[test]
fn a_number_stands_before_the_ending(rt: HostRuntime) -> Result<(), Fail> {
    for (name, path) in [
        ("pay.deck", "s/sent/pay.2.deck"),
        ("pay.printer.deck", "s/sent/pay.2.printer.deck"),
        ("x.job", "s/sent/x.2.job"),
        ("b.c.txt", "s/sent/b.c.2.txt"),
        ("b", "s/sent/b.2"),
    ] {
        assert!(rt; moved(&rt, rt.alloc(), name)?.as_str() == path);
    }
    Ok(())
}

#[test]
fn a_long_name_is_shortened_before_its_number(rt: HostRuntime) -> Result<(), Fail> {
    let alloc = rt.alloc();
    let mut name = String::new(alloc);
    for _ in 0..125 {
        name.push_str("\u{e9}")?;
    }
    name.push_str(".deck")?;
    assert!(rt; name.len() == 255);
    let path = moved(&rt, alloc, name.as_str())?;
    assert!(rt; path.len() == "s/sent/".len() + 255);
    assert!(rt; path.as_str().ends_with("\u{e9}.2.deck"));
    name.push_str(".why")?;
    let why = format!(in alloc; "s/refused/{name}")?;
    let mut disk = FailingDisk::new(alloc, 0, false);
    let kept = keep(
        &mut disk,
        alloc,
        "s/refused",
        FileNames::Of(why.as_str()),
        b"long",
    );
    let kept = kept.expect(&rt, "a path");
    assert!(rt; kept.path.len() <= "s/refused/".len() + 255);
    assert!(rt; kept.path.as_str().ends_with(".1.why"));
    Ok(())
}
