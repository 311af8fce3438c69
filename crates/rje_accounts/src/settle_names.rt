//! The names in settle/, each kind by itself.
ghost use Rattle.std.specs.Prelude.{◌≡◌, ◌∷◌, ◌++◌, [], List, OnOk, Option};
ghost use Rattle.rje_settle.specs.declared.settle_name.SettleName.{SettleName as Named};
ghost use Rattle.std.specs.Option.{option_to_list};
ghost use Rattle.rje_accounts.specs.Names.{AreSorted, IsRead};

use crate::accounts_fault::AccountsFault;
use rje_settle::{Promise, Receipt, SettleName};
use std::alloc::Global;

/// The names in settle/, each kind by itself.
#[derive(Debug, Drop)]
pub(crate) struct SettleNames {
    /// What the names say that was sent.
    pub(crate) sent: Vec<Receipt>,
    /// What the names say that was kept.
    pub(crate) kept: Vec<Receipt>,
    /// What is promised.
    pub(crate) promises: Vec<Promise>,
    /// The numbers of the jobs that came.
    pub(crate) come: Vec<u64>,
    /// How many names are none of these.
    pub(crate) others: usize,
}

impl SettleNames {
    /// No names.
    pub(crate) fn new(alloc: Global) -> SettleNames
        ensures { AreSorted [] result }
    {
        SettleNames {
            sent: Vec::new(alloc),
            kept: Vec::new(alloc),
            promises: Vec::new(alloc),
            come: Vec::new(alloc),
            others: 0,
        }
    }

    /// One name more.
    pub(crate) fn push(&mut self, name: SettleName) -> Result<(), AccountsFault>
        ensures { (all : List Named) → AreSorted all self.old
            → OnOk result (AreSorted (all ++ name ∷ []) self.new) }
    {
        match name {
            SettleName::Sent(receipt) => add(&mut self.sent, receipt),
            SettleName::Out(promise) => add(&mut self.promises, promise),
            SettleName::Kept(receipt) => add(&mut self.kept, receipt),
            SettleName::Come(number) => add(&mut self.come, number),
        }
    }

    /// What is there under one name more, whether it is one of these or not.
    pub(crate) fn push_text(&mut self, text: &str) -> Result<(), AccountsFault>
        ensures { (all : List Named) → AreSorted all self.old → OnOk result
            ((read : Option Named) × IsRead text.now read
            × AreSorted (all ++ option_to_list read) self.new) }
    {
        match SettleName::read(text.as_bytes()) {
            Some(name) => self.push(name),
            None => {
                self.others = self.others.saturating_add(1);
                Ok(())
            }
        }
    }
}

/// One item more, the last one.
fn add<T: Copy>(items: &mut Vec<T>, item: T) -> Result<(), AccountsFault>
    ensures { OnOk result (items.new.items ≡ items.old.items ++ item ∷ []) }
{
    match items.push(item) {
        Ok(()) => Ok(()),
        Err(_) => Err(AccountsFault::OutOfMemory),
    }
}
