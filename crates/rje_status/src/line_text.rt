//! What is printed of what a station is doing on its line.
use crate::age::Age;
use crate::line_state::{Activity, LineState, TransmissionState, Way};
use rje_names::PrintedName;
use std::io::{self, Write};

/// Prints what a station is doing on its line, and for how long it has at this time, in seconds since 1970.
pub(crate) fn put_line<O: Write>(
    line: &LineState,
    now: Option<u64>,
    out: &mut O,
) -> io::Result<()> {
    let address = PrintedName(line.address.as_str());
    match line.state {
        Activity::Listening => write!(out, "listening on {address}")?,
        Activity::Waiting => write!(out, "calls {address}")?,
        Activity::Calling => write!(out, "calling {address}")?,
        Activity::Connected => write!(out, "connected with {address}")?,
    }
    if let Some(now) = now {
        match line.next_call {
            Some(next) => write!(out, " in {}", Age(next.saturating_sub(now)))?,
            None => write!(out, " for {}", Age(now.saturating_sub(line.since)))?,
        }
    }
    writeln!(out)?;
    match &line.transmission {
        Some(transmission) => put_transmission(transmission, now, out),
        None => Ok(()),
    }
}

/// Prints how far a transmission is at this time, and how fast.
fn put_transmission<O: Write>(
    transmission: &TransmissionState,
    now: Option<u64>,
    out: &mut O,
) -> io::Result<()> {
    let way = match transmission.way {
        Way::Out => "sending",
        Way::In => "receiving",
    };
    write!(out, "{way} job {}", transmission.job)?;
    if let Some(jobs) = transmission.jobs {
        write!(out, " of {jobs}")?;
    }
    write!(out, ", {} records", transmission.records)?;
    if let Some(now) = now {
        let seconds = now.saturating_sub(transmission.since);
        let rate = transmission.records / seconds.max(1);
        write!(out, " in {}, {rate} a second", Age(seconds))?;
    }
    writeln!(out)
}
