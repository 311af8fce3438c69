//! What the words of `station` ask for.
ghost use Rattle.std.specs.Prelude.{◌≡◌, codes, true, IfOk, IfErr, IfNone, IfSome};
ghost use Rattle.clap.specs.Words.{found_of, one_of, rows_of};
ghost use Rattle.rje_cli.specs.Asking.{CanSettle, IsEveryOf, IsPartnerFaultIn, IsPartnerIn, IsProgressOf, IsSettlingFault, IsStationFaultOf, IsStationOrderOf, every_goes, station_rank_in};

use super::{callers_in, is_given, is_quiet, patience_of, timeout_of, value_of, word};
use crate::address::{address_of, is_host_address};
use crate::words_fault::WordsFault;
use bsc_link::Rank;
use clap::ArgMatches;
use rje_requests::{Partner, StationOrder};

pub(super) fn station_order<'a>(
    matches: &ArgMatches<'a>,
) -> Result<StationOrder<'a>, WordsFault<'a>>
    ensures asked { IfOk result (IsStationOrderOf (rows_of (found_of matches.now))) }
    ensures told { IfErr result (IsStationFaultOf (rows_of (found_of matches.now))) }
{
    let partner = partner_in(matches)?;
    if !every_goes(matches, partner) {
        return Err(WordsFault::EveryListens);
    }
    let Some(rank) = station_rank_in(matches, partner) else {
        return Err(WordsFault::TwoRanks);
    };
    let adapter = is_given(matches, "adapter");
    let patience = patience_of(matches);
    let settle = settle_in(is_given(matches, "settle"), partner, adapter, patience)?;
    Ok(StationOrder {
        folder: word(matches, "FOLDER"),
        partner,
        timeout: timeout_of(matches),
        patience,
        rank,
        adapter,
        every: every_of(matches),
        progress: progress_of(matches),
        once: is_given(matches, "once"),
        settle,
        quiet: is_quiet(matches),
    })
}

/// Whether doubt is settled by receipts, where that option was given or not.
fn settle_in<'a>(
    given: bool,
    partner: Partner,
    adapter: bool,
    patience: u32,
) -> Result<bool, WordsFault<'a>>
    ensures given { IfOk result (λ settle. settle ≡ given) }
    ensures can { IfOk result (λ settle.
        settle ≡ true → CanSettle partner.entry adapter patience) }
    ensures told { IfErr result (λ fault.
        (given ≡ true) × IsSettlingFault partner.entry adapter patience fault) }
{
    if !given {
        return Ok(false);
    }
    match settling_fault(partner, adapter, patience) {
        Some(fault) => Err(fault),
        None => Ok(true),
    }
}

/// Why a station with this partner, with a line adapter at the other end or none, and with this patience
/// can't settle doubt by receipts, if it can't.
fn settling_fault<'a>(partner: Partner, adapter: bool, patience: u32) -> Option<WordsFault<'a>>
    ensures fault { IfSome result (IsSettlingFault partner.entry adapter patience) }
    ensures none { IfNone result (CanSettle partner.entry adapter patience) }
{
    if adapter {
        Some(WordsFault::SettlesWithAdapter)
    } else if patience == 0 {
        Some(WordsFault::SettlesForEver)
    } else if partner.has_callers() {
        Some(WordsFault::SettlesWithCallers)
    } else {
        None
    }
}

/// How a station comes to its connections, by one of two options. A third one, for whose calls are
/// taken, goes with the second alone.
fn partner_in<'a>(matches: &ArgMatches<'a>) -> Result<Partner<'a>, WordsFault<'a>>
    ensures asked { IfOk result (IsPartnerIn (rows_of (found_of matches.now))) }
    ensures told { IfErr result (IsPartnerFaultIn (rows_of (found_of matches.now))) }
{
    match (value_of(matches, "to"), value_of(matches, "listen")) {
        (Some(to), None) => match (is_host_address(to), value_of(matches, "from")) {
            (false, _) => Err(WordsFault::BadHost(to)),
            (true, Some(_)) => Err(WordsFault::CallersCalled),
            (true, None) => Ok(Partner::Calls(to)),
        },
        (None, Some(listen)) => match address_of(listen) {
            None => Err(WordsFault::BadAddress(listen)),
            Some(address) => match callers_in(matches) {
                Ok(callers) => Ok(Partner::Listens(address, callers)),
                Err(word) => Err(WordsFault::BadCallers(word)),
            },
        },
        _ => Err(WordsFault::NoMeeting),
    }
}

/// Whether a time between calls, where one was given, goes with how a station comes to its
/// connections: one that listens has none.
fn every_goes(matches: &ArgMatches, partner: Partner) -> bool
    ensures { result ≡ every_goes partner.entry (rows_of (found_of matches.now)) }
{
    match partner {
        Partner::Calls(_) => true,
        Partner::Listens(..) => value_of(matches, "every").is_none(),
    }
}

/// Which of the two ends of its connections a station is; None where both of the options for it were
/// given.
fn station_rank_in(matches: &ArgMatches, partner: Partner) -> Option<Rank>
    ensures { result ≡ station_rank_in partner.entry (rows_of (found_of matches.now)) }
{
    partner.rank_chosen(is_given(matches, "primary"), is_given(matches, "secondary"))
}

/// How long a station waits before its next call, in seconds: clap tests the range.
fn every_of(matches: &ArgMatches) -> u32
    ensures { IsEveryOf (one_of (codes "every") (rows_of (found_of matches.now))) result }
{
    matches.get_one::<u32>("every").unwrap_or(60)
}

/// How long another end has the line while no job comes whole and none is counted, in seconds: clap tests
/// the range.
fn progress_of(matches: &ArgMatches) -> u32
    ensures { IsProgressOf (one_of (codes "progress") (rows_of (found_of matches.now))) result }
{
    matches.get_one::<u32>("progress").unwrap_or(21_600)
}
