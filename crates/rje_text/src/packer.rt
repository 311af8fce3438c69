//! Records into blocks.
ghost use Rattle.std.specs.Prelude.{◌≡◌, ◌≤◌, ◌++◌, [], length, nat_le, true, false, None, IfOk, if◌then◌else◌};

use crate::spelling::{TextInHand, append, spell};
use crate::{Action, Mode, PackFault, Pushed, Record, Select};
use arrayvec::ArrayVec;
use bsc_codes::{Block, Closing, DC1, DC2};
use std::marker::Model;

/// The most bytes that a text which is sent holds.
pub const MAX_TEXT_SENT: usize = 510;

/// Packs the records of jobs of one selection and mode into blocks. It takes no memory.
#[derive(Drop)]
pub struct Packer {
    select: Select,
    mode: Mode,
    text: TextInHand,
}

impl Model for Packer {
    ghost use Rattle.std.specs.Prelude.{◌≤◌, length};
    ghost use Rattle.rje_text.specs.Packing.{Packing};

    ghost Value = { Packing };

    ghost view = { λ p. record { select = p.select; mode = p.mode; text = p.text.items } };

    ghost invariant = { λ p. length p.text.items ≤ 510 };
}

impl Packer {
    ghost use Rattle.rje_text.specs.Packing.{new_packing, Pushes, block_in_hand, after_close, has_room, with_record};
    ghost use Rattle.rje_text.specs.Spelling.{spelling};
    ghost use Rattle.rje_text.specs.PackFault.{pack_fault};

    /// A packer for jobs of this selection and mode, at the beginning of a job.
    pub fn new(select: Select, mode: Mode) -> Self
        ensures { result ≡ new_packing select mode }
    {
        let mut text = ArrayVec::new();
        select_device(select, mode, &mut text);
        Packer { select, mode, text }
    }

    /// Puts a record into the block in hand, if it can be sent and there is room for it. A record that can't be sent is dropped,
    /// and the packer stays as it was.
    pub fn push(&mut self, item: Record) -> Result<Pushed, PackFault>
        ensures pushes { Pushes self.old item result self.new }

        // Into a text of at most 363 bytes goes every record that can be sent: no spelling is longer than 147.
        ensures room { length self.old.text ≤ 363 → IfOk result (λ pushed. pushed ≡ Pushed.Taken) }
    {
        if let Some(fault) = PackFault::of(&item, self.select, self.mode) {
            return Err(fault);
        }
        if self.take(&item) {
            Ok(Pushed::Taken)
        } else {
            Ok(Pushed::Full(item))
        }
    }

    /// Puts a record that can be sent into the block in hand, if there is room for it; else the packer stays as it was.
    pub fn push_sendable(&mut self, item: &Record) -> bool
        requires { pack_fault self.old.select self.old.mode item.now ≡ None }
        ensures room { result ≡ has_room self.old item.now }
        ensures taken { self.new ≡ (if result then with_record self.old item.now else self.old) }

        // Into a text of at most 363 bytes goes every record that can be sent.
        ensures short { length self.old.text ≤ 363 → result ≡ true }
    {
        self.take(item)
    }

    fn take(&mut self, item: &Record) -> bool
        ensures room { result ≡ has_room self.old item.now }
        ensures taken { self.new ≡ (if result then with_record self.old item.now else self.old) }
        ensures short { length (spelling self.old.mode item.now) ≤ 147 }
    {
        take_record(&mut self.text, self.mode, item)
    }

    /// The block of what was taken since the last one: a job's last block, or one that more blocks follow. After a last block the
    /// packer is as new.
    pub fn close(&mut self, last: bool) -> Block
        ensures block { result ≡ block_in_hand self.old last }
        ensures after { self.new ≡ after_close self.old last }
    {
        let mut text = ArrayVec::new();
        append(&mut text, self.text.as_slice());
        self.text.clear();
        if last {
            select_device(self.select, self.mode, &mut self.text);
        }
        Block {
            text,
            closing: closing_of(last),
            transparent: is_transparent(self.mode),
        }
    }
}

ghost use Rattle.bsc_codes.specs.declared.block.Closing.TheVariants.{Etb, Etx};
ghost use Rattle.rje_text.specs.Spelling.{selection, spelling};
ghost use Rattle.rje_text.specs.Records.{record_of_data};
ghost use Rattle.rje_text.specs.Cut.{is_transparent as transparent};

/// Appends a record of this action and these data to a text as it is there, if there is room for it; else the text stays as it was.
pub(crate) fn take(text: &mut TextInHand, mode: Mode, action: Action, items: &[u8]) -> bool
    requires room { length text.old.items ≤ 510 }
    requires limit { length items.now ≤ 144 }
    ensures room { result
        ≡ nat_le (length (text.old.items ++ spelling mode (record_of_data action items.now))) 510 }
    ensures taken { text.new.items ≡ (if result
        then text.old.items ++ spelling mode (record_of_data action items.now)
        else text.old.items) }
    ensures short { length (spelling mode (record_of_data action items.now)) ≤ 147 }
{
    let before = text.len();
    spell(action, items, mode, text);
    if MAX_TEXT_SENT < text.len() {
        text.truncate(before);
        return false;
    }
    true
}

/// Appends a record likewise.
pub(crate) fn take_record(text: &mut TextInHand, mode: Mode, item: &Record) -> bool
    requires { length text.old.items ≤ 510 }
    ensures room { result ≡ nat_le (length (text.old.items ++ spelling mode item.now)) 510 }
    ensures taken { text.new.items ≡ (if result then text.old.items ++ spelling mode item.now
        else text.old.items) }
    ensures short { length (spelling mode item.now) ≤ 147 }
{
    take(text, mode, item.action, item.bytes.as_slice())
}

/// Puts into an empty text what comes before a job's first one: the byte that selects the device.
pub(crate) fn select_device(select: Select, mode: Mode, text: &mut TextInHand)
    requires { text.old.items ≡ [] }
    ensures text { text.new.items ≡ selection select mode }
    ensures short { length text.new.items ≤ 1 }
{
    match (mode, select) {
        (Mode::Normal, Select::Printer) => text.push(DC1),
        (Mode::Normal, Select::Punch) => text.push(DC2),
        (Mode::Normal, Select::Unset) | (Mode::Transparent, _) => {}
    }
}

/// ETX ends a job's last block, and ETB each other.
pub(crate) fn closing_of(last: bool) -> Closing
    ensures { result ≡ (if last then Etx else Etb) }
{
    if last { Closing::Etx } else { Closing::Etb }
}

pub(crate) fn is_transparent(mode: Mode) -> bool
    ensures { result ≡ transparent mode }
{
    match mode {
        Mode::Normal => false,
        Mode::Transparent => true,
    }
}
