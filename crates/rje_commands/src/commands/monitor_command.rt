//! `monitor`: what is heard of bytes as they stood on a line.
ghost use Rattle.std.specs.Prelude.{◌≡◌, IfErr, IfOk, OnOk, false};
ghost use Rattle.rje_requests.specs.declared.order.FileOrder.{FileOrder};
ghost use Rattle.rje_commands.specs.Commands.{Does, IsCaptureText, IsFault};
ghost use Rattle.rje_commands.specs.CommandFault.{is_of_output};
ghost use Rattle.rje_commands.specs.Inside.Commands.{IsCaptureFault};
ghost use Rattle.rje_store.specs.Store.{Discloses, IsSame};

use crate::command_fault::CommandFault;
use crate::commands::inputs::read_deck;
use crate::commands::output::put;
use rje_monitor::{stream_text, turns_text};
use rje_requests::MonitorOrder;
use rje_store::Store;
use std::alloc::Global;
use std::io::{Read, Write};

/// Prints a line for each transmission that is heard in a capture.
pub fn monitor<'a, S: Store, I: Read, O: Write>(
    alloc: Global,
    order: MonitorOrder<'a>,
    store: &mut S,
    input: &mut I,
    out: &mut O,
) -> Result<(), CommandFault<'a>>
    ensures done { OnOk result (Does (FileOrder.Monitor order.entry)
        (S.files store.old) (S.files store.new)
        (I.remaining input.old) (O.contents out.old) (O.contents out.new)) }
    ensures fault { IfErr result (IsFault (FileOrder.Monitor order.entry)
        (S.files store.old) (I.remaining input.old)) }
    ensures same { Discloses (S.files store.old) (S.files store.new) IsSame }
    ensures silent { IfErr result (λ fault. is_of_output fault ≡ false → out.new ≡ out.old) }
{
    let capture = read_deck(alloc, order.capture, store, input)?;
    let text = text_of_capture(alloc, capture.as_slice(), order.hex)?;
    put(text.as_slice(), out)
}

/// What is heard of a capture: of a stream, or of turns in hexadecimal.
fn text_of_capture<'a>(
    alloc: Global,
    capture: &[u8],
    hex: bool,
) -> Result<Vec<u8>, CommandFault<'a>>
    ensures text { IfOk result (λ text. IsCaptureText hex capture.now text.items) }
    ensures fault { IfErr result (IsCaptureFault hex capture.now) }
{
    match hex {
        true => Ok(turns_text(alloc, capture)?),
        false => Ok(stream_text(alloc, capture)?),
    }
}
