//! Records, and the texts that carry them.
use super::{CARD, are_plain, block, is_one_record, is_record, prints, record};
use bsc_codes::Closing;
use rje_text::{
    Action, Counted, Mode, PackFault, Packer, Pushed, Records, Select, TextFault, count_records,
    unpack,
};
use std::process::Abort;
use std::test::Fail;

/// The text of the one block of a job of one record.
fn assert_spelled(rt: &impl Abort, bytes: &[u8], text: &[u8]) {
    let mut packer = Packer::new(Select::Unset, Mode::Normal);
    assert!(rt; packer.push(record(rt, Action::Plain, bytes)) == Ok(Pushed::Taken));
    let block = packer.close(true);
    assert!(rt; block.text.as_slice() == text);
    assert!(rt; block.closing == Closing::Etx);
    assert!(rt; !block.transparent);
}

#[test]
fn blanks_are_counted(rt: HostRuntime) {
    let mut spaced = [0x40; 80];
    spaced[0] = 0xC1;
    spaced[79] = 0xC2;
    assert_spelled(&rt, &spaced, b"\xC1\x1D\x7F\x1D\x4F\xC2\x1E");
    assert_spelled(&rt, &[0x40; 64], b"\x1D\x7F\x40\x1E");
    assert_spelled(&rt, &[0x40], b"\x40\x1E");
    assert_spelled(&rt, &[], b"\x1E");
}

/// Pushes six cards of 80 bytes, each of which is taken, and then a record of `length` bytes.
fn push_cards(rt: &impl Abort, packer: &mut Packer, length: usize) -> bool {
    for _ in 0..6 {
        assert!(rt; packer.push(record(rt, Action::Plain, &CARD)) == Ok(Pushed::Taken));
    }
    let last = record(rt, Action::Plain, &CARD[..length.min(80)]);
    packer.push(last) == Ok(Pushed::Taken)
}

#[test]
fn a_text_holds_510_bytes(rt: HostRuntime) {
    let mut packer = Packer::new(Select::Unset, Mode::Normal);
    assert!(rt; push_cards(&rt, &mut packer, 23));
    assert!(rt; packer.close(true).text.len() == 510);

    assert!(rt; !push_cards(&rt, &mut packer, 24));
    let first = packer.close(false);
    assert!(rt; first.text.len() == 486);
    assert!(rt; first.closing == Closing::Etb);
    assert!(rt; packer.push(record(&rt, Action::Plain, &CARD[..24])) == Ok(Pushed::Taken));
    let last = packer.close(true);
    assert!(rt; last.text.len() == 25);
    assert!(rt; last.closing == Closing::Etx);
}

#[test]
fn the_selection_counts_against_the_510(rt: HostRuntime) {
    let mut packer = Packer::new(Select::Printer, Mode::Normal);
    assert!(rt; !push_cards(&rt, &mut packer, 23));
    let first = packer.close(false);
    assert!(rt; first.text.len() == 487);
    assert!(rt; first.text.as_slice().first() == Some(&0x11));
    assert!(rt; packer.push(record(&rt, Action::Plain, &CARD[..23])) == Ok(Pushed::Taken));
    assert!(rt; packer.close(true).text.len() == 24);
}

#[test]
fn a_job_without_records_has_one_block(rt: HostRuntime) {
    let mut packer = Packer::new(Select::Printer, Mode::Normal);
    let block = packer.close(true);
    assert!(rt; block.text.as_slice() == b"\x11".as_slice());
    assert!(rt; block.closing == Closing::Etx);
}

#[test]
fn a_punch_job_without_records_has_one_block(rt: HostRuntime) {
    let mut packer = Packer::new(Select::Punch, Mode::Normal);
    let block = packer.close(true);
    assert!(rt; block.text.as_slice() == b"\x12".as_slice());
    assert!(rt; block.closing == Closing::Etx);
    assert!(rt; !block.transparent);
}

#[test]
fn two_bytes_select_the_punch_in_a_first_text(rt: HostRuntime) -> Result<(), Fail> {
    for first in [0x12, 0x13] {
        let text = block(&rt, &[first, 0xC1, 0x1E], false);
        let read = unpack(rt.alloc(), &text, None)?;
        assert!(rt; read.select == Select::Punch);
        assert!(rt; read.mode == Mode::Normal);
        assert!(rt; is_one_record(&read.records, Action::Plain, &[0xC1]));

        // After the first text both are data.
        let later = unpack(rt.alloc(), &text, Some(Mode::Normal))?;
        assert!(rt; later.select == Select::Unset);
        assert!(rt; is_one_record(&later.records, Action::Plain, &[first, 0xC1]));
    }
    Ok(())
}

#[test]
fn an_action_stands_behind_an_escape(rt: HostRuntime) -> Result<(), Fail> {
    let mut packer = Packer::new(Select::Printer, Mode::Normal);
    assert!(rt; packer.push(record(&rt, Action::Ch1, &[0xE7])) == Ok(Pushed::Taken));
    let printed = packer.close(true);
    assert!(rt; printed.text.as_slice() == b"\x11\x27\xC1\xE7\x1E".as_slice());

    let read = unpack(rt.alloc(), &printed, None)?;
    assert!(rt; read.select == Select::Printer);
    assert!(rt; read.mode == Mode::Normal);
    assert!(rt; is_one_record(&read.records, Action::Ch1, &[0xE7]));

    let unknown = unpack(rt.alloc(), &block(&rt, b"\x27\xF0\xE7\x1E", false), None)?;
    assert!(rt; is_one_record(&unknown.records, Action::Plain, &[0x27, 0xF0, 0xE7]));
    Ok(())
}

#[test]
fn actions_have_their_codes(rt: HostRuntime) {
    assert!(rt; Action::of(0x61) == Some(Action::Single));
    assert!(rt; Action::of(0xD3) == Some(Action::Ch12));
    assert!(rt; Action::of(0x00).is_none());
    assert!(rt; Action::Suppress.code() == Some(0xD4));
    assert!(rt; Action::Plain.code().is_none());
}

/// Whether a packer of a normal job refuses a record of this action and these bytes so.
fn is_refused(
    rt: &impl Abort,
    packer: &mut Packer,
    action: Action,
    bytes: &[u8],
    fault: PackFault,
) -> bool {
    packer.push(record(rt, action, bytes)) == Err(fault)
}

#[test]
fn records_that_cannot_be_sent_are_refused(rt: HostRuntime) {
    let mut punch = Packer::new(Select::Punch, Mode::Normal);
    let (plain, long) = (Action::Plain, PackFault::CardLength(81));
    assert!(rt; is_refused(&rt, &mut punch, plain, &[0xC1; 81], long));
    assert!(rt;
        is_refused(
            &rt,
            &mut punch,
            Action::Single,
            &[0xC1],
            PackFault::ActionHere
        )
    );
    let mut unset = Packer::new(Select::Unset, Mode::Normal);
    assert!(rt; is_refused(&rt, &mut unset, plain, &[0x27], PackFault::BadByte(0)));
    let cards = PackFault::of(
        &record(&rt, Action::Plain, &[0x00; 79]),
        Select::Punch,
        Mode::Transparent,
    );
    assert!(rt; cards == Some(PackFault::CardLength(79)));
}

/// The text of a job's first normal block is refused so.
fn assert_refused(rt: &(impl Abort + AllocGlobal), text: &[u8], fault: TextFault) {
    let read = unpack(rt.alloc(), &block(rt, text, false), None);
    assert!(rt; read.err() == Some(fault));
}

#[test]
fn texts_that_do_not_read_are_refused_with_their_place(rt: HostRuntime) {
    assert_refused(&rt, b"\x1D\x40\x1E", TextFault::BadCount(1));
    assert_refused(&rt, b"\xC1\x1D", TextFault::BadCount(2));
    assert_refused(&rt, b"\x1D\x80", TextFault::BadCount(1));
    assert_refused(&rt, &[0xC1; 145], TextFault::RecordTooLong(144));
    assert_refused(
        &rt,
        b"\x1D\x7F\x1D\x7F\x1D\x53",
        TextFault::RecordTooLong(4),
    );
}

/// The text of a job's first normal block is these records of plain data.
fn assert_reads(
    rt: &(impl Abort + AllocGlobal),
    text: &[u8],
    records: &[&[u8]],
) -> Result<(), Fail> {
    let read = unpack(rt.alloc(), &block(rt, text, false), None)?;
    assert!(rt; read.select == Select::Unset);
    assert!(rt; are_plain(&read.records, records));
    Ok(())
}

#[test]
fn texts_read(rt: HostRuntime) -> Result<(), Fail> {
    assert_reads(&rt, b"\xC1", &[&[0xC1]])?;
    assert_reads(&rt, b"\x1D\x41", &[&[0x40]])?;
    assert_reads(&rt, b"\x1D\x7F\x1D\x7F\x1D\x52", &[&[0x40; 144]])?;
    assert_reads(&rt, b"\x1E\xC1\x1E", &[&[], &[0xC1]])?;
    assert_reads(&rt, b"", &[])
}

#[test]
fn transparent_texts_are_cards(rt: HostRuntime) -> Result<(), Fail> {
    let alloc = rt.alloc();
    assert!(rt;
        unpack(alloc, &block(&rt, &[0x10], true), None).err() == Some(TextFault::CardsNot80)
    );
    let short = block(&rt, &[0xC1; 79], true);
    assert!(rt; unpack(alloc, &short, None).err() == Some(TextFault::CardsNot80));
    assert!(rt; unpack(alloc, &short, Some(Mode::Normal)).err() == Some(TextFault::CardsNot80));
    let one = block(&rt, &CARD, true);
    assert!(rt; unpack(alloc, &one, Some(Mode::Normal)).err() == Some(TextFault::MixedModes));

    let six = unpack(
        alloc,
        &block(&rt, &[0xC1; 480], true),
        Some(Mode::Transparent),
    )?;
    assert!(rt; six.select == Select::Punch);
    assert!(rt; six.records.len() == 6);
    assert!(rt;
        six.records
            .iter()
            .all(|card| card.bytes.as_slice() == CARD.as_slice())
    );
    Ok(())
}

#[test]
fn records_are_counted(rt: HostRuntime) {
    let read = count_records(&block(&rt, b"\x11\x1E\xC1\x1E\xC2", false), None);
    let printed = Counted {
        select: Select::Printer,
        mode: Mode::Normal,
        count: 3,
    };
    assert!(rt; read == Ok(printed));
    let read = count_records(&block(&rt, &[0xC1; 480], true), None);
    let cards = Counted {
        select: Select::Punch,
        mode: Mode::Transparent,
        count: 6,
    };
    assert!(rt; read == Ok(cards));
    let read = count_records(&block(&rt, b"\xC1\x1E\x1D\x40", false), None);
    assert!(rt; read == Err(TextFault::BadCount(3)));
}

/// A plain record of one byte, and an empty one.
fn two_records(rt: &(impl Abort + AllocGlobal)) -> Result<Records, Fail> {
    let mut records = Records::new(rt.alloc());
    assert!(rt; records.is_empty());
    records.push(record(rt, Action::Plain, &[0xC1]))?;
    records.push(record(rt, Action::Double, &[]))?;
    Ok(records)
}

#[test]
fn records_are_a_list(rt: HostRuntime) -> Result<(), Fail> {
    let records = two_records(&rt)?;
    assert!(rt; records.len() == 2);
    assert!(rt; records.iter().count() == 2);
    assert!(rt; records.iter_from(1).count() == 1);
    assert!(rt; records.iter_from(3).next().is_none());
    assert!(rt; is_record(&records.at(1), Action::Double, &[]));
    let items = records.to_vec()?;
    assert!(rt; items.len() == 2);
    assert!(rt; is_record(&items[0], Action::Plain, &[0xC1]));
    assert!(rt; is_record(&items[1], Action::Double, &[]));
    assert!(rt; Records::of(rt.alloc(), items.as_slice())?.len() == 2);
    Ok(())
}

#[test]
fn records_are_joined(rt: HostRuntime) -> Result<(), Fail> {
    let mut records = two_records(&rt)?;
    records.append(two_records(&rt)?)?;
    records.push_data(Action::Single, &[0xC2; 144])?;
    assert!(rt; records.len() == 5);
    assert!(rt; is_record(&records.at(2), Action::Plain, &[0xC1]));
    assert!(rt; is_record(&records.at(3), Action::Double, &[]));
    assert!(rt; is_record(&records.at(4), Action::Single, &[0xC2; 144]));
    assert!(rt; records.clone()?.iter().eq(records.iter()));
    Ok(())
}

const PACK_FAULTS: [(PackFault, &str); 3] = [
    (PackFault::BadByte(12), "no text byte at 12"),
    (PackFault::CardLength(81), "a card of 81 bytes"),
    (PackFault::ActionHere, "carriage control in a job of cards"),
];

const TEXT_FAULTS: [(TextFault, &str); 5] = [
    (TextFault::BadCount(3), "no count of blanks at 3"),
    (
        TextFault::RecordTooLong(144),
        "a record passes 144 bytes at 144",
    ),
    (
        TextFault::CardsNot80,
        "transparent text that is no cards of 80 bytes",
    ),
    (
        TextFault::MixedModes,
        "another mode than the job's earlier blocks",
    ),
    (TextFault::OutOfMemory, "out of memory"),
];

#[test]
fn faults_of_records_are_printed(rt: HostRuntime) -> Result<(), Fail> {
    for (fault, text) in &PACK_FAULTS {
        assert!(rt; prints(&rt, fault, text)?);
    }
    Ok(())
}

#[test]
fn faults_of_texts_are_printed(rt: HostRuntime) -> Result<(), Fail> {
    for (fault, text) in &TEXT_FAULTS {
        assert!(rt; prints(&rt, fault, text)?);
    }
    Ok(())
}
