//! The items of a text's line.
ghost use Rattle.std.specs.Prelude.{◌<◌, true, false, length, IfSome, MatchOption};
ghost use Rattle.rje_monitor.specs.Inside.Items.{IsItem, IsLineEnd};

use bsc_codes::{Closing, DLE, ETB, ETX, SYN, is_normal_text};

/// What stands next in a text's line.
#[derive(Clone, Copy)]
pub(crate) enum Item {
    /// A data byte.
    Data(u8),
    Fill,
    /// What closes the text.
    End(Closing),
    /// A byte that spoils the text, or an ENQ that ends it.
    Other,
}

/// The first item of a line of transparent or normal text, and what comes after it; `None` where the line ends before it is whole.
pub(crate) fn first_item(transparent: bool, line: &[u8]) -> Option<(Item, &[u8])>
    ensures item { MatchOption result (IsLineEnd transparent line.now)
        (λ p. IsItem transparent p.0 line.now p.1.now) }
    ensures shorter { IfSome result (λ p. length p.1.now < length line.now) }
{
    if transparent {
        transparent_item(line)
    } else {
        normal_item(line)
    }
}

fn normal_item(line: &[u8]) -> Option<(Item, &[u8])>
    ensures item { MatchOption result (IsLineEnd false line.now)
        (λ p. IsItem false p.0 line.now p.1.now) }
    ensures shorter { IfSome result (λ p. length p.1.now < length line.now) }
{
    let (byte, rest) = line.split_first()?;
    if is_normal_text(*byte) {
        return Some((Item::Data(*byte), rest));
    }
    match *byte {
        SYN => Some((Item::Fill, rest)),
        ETB => Some((Item::End(Closing::Etb), rest)),
        ETX => Some((Item::End(Closing::Etx), rest)),
        _ => Some((Item::Other, rest)),
    }
}

fn transparent_item(line: &[u8]) -> Option<(Item, &[u8])>
    ensures item { MatchOption result (IsLineEnd true line.now)
        (λ p. IsItem true p.0 line.now p.1.now) }
    ensures shorter { IfSome result (λ p. length p.1.now < length line.now) }
{
    let (byte, rest) = line.split_first()?;
    if *byte != DLE {
        return Some((Item::Data(*byte), rest));
    }
    let (second, rest) = rest.split_first()?;
    match *second {
        DLE => Some((Item::Data(DLE), rest)),
        SYN => Some((Item::Fill, rest)),
        ETB => Some((Item::End(Closing::Etb), rest)),
        ETX => Some((Item::End(Closing::Etx), rest)),
        _ => Some((Item::Other, rest)),
    }
}
