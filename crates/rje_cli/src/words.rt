//! The arguments.
ghost use Rattle.std.specs.Prelude.{◌≡◌, Some, map, codes, IfOk, IfErr, option_map};
ghost use Rattle.clap.specs.Words.{first_of, found_of, one_of, rows_of};
ghost use Rattle.rje_cli.specs.CommandLine.{IsOneOf, command_names};
ghost use Rattle.rje_cli.specs.Address.{IsAddressOf};
ghost use Rattle.rje_cli.specs.Asking.{AsksFor, IsWordsFault, IsOrderOf, IsFaultOf, IsCardsOrderOf, IsCardsFaultOf};
ghost use Rattle.rje_cli.specs.Asking.{IsLoopOrderOf, IsSendOrderOf, IsReceiveOrderOf, IsReceiveFaultOf, IsExchangeOrderOf, IsExchangeFaultOf};
ghost use Rattle.rje_cli.specs.Asking.{IsTimeoutOf, IsPatienceOf, IsBadName, IsGivenName, IsNumberOf, word_in, is_on, existing_in, rank_in, waits_in};
ghost use Rattle.rje_cli.specs.Asking.{IsMonitorOrderOf, IsPrintOrderOf, IsShowOrderOf};
ghost use Rattle.rje_cli.specs.Asking.{AreNumbersIn, IsBadNumbersIn, IsMarkFaultOf, IsMarkOrderOf, IsTakeOrderOf};
ghost use Rattle.rje_cli.specs.Asking.{IsStationOrderOf, IsStationFaultOf, IsStatusOrderOf};
ghost use Rattle.rje_cli.specs.Asking.{IsBadCallers, IsCallersOf, IsConnectionOf, IsConnectionFault, IsMeetingIn};

mod app;
mod station;

use crate::address::address_of;
use crate::words_fault::WordsFault;
use app::program;
use bsc_link::Rank;
use clap::ArgMatches;
use rje_files::{JobName, NO_NAME, name_of};
use rje_jobs::Form;
use rje_requests::{
    Callers, CardsOrder, Choice, Connection, Destination, Device, Devices, ExchangeOrder, Existing,
    FileOrder, JobNumbers, LoopOrder, Mark, MarkOrder, Meeting, MonitorOrder, Order, PrintOrder,
    ReceiveOrder, STANDARD_INPUT, SendOrder, ShowOrder, SocketOrder, StatusOrder, TakeOrder,
    TryOrder,
};
use station::station_order;
use std::alloc::Global;

/// What these words, which are those after the program's name, ask for. No words ask for the
/// blocks of the deck on standard input.
pub fn parse<'a>(alloc: Global, words: &'a [&'a str]) -> Result<Order<'a>, WordsFault<'a>>
    ensures asked { IfOk result (AsksFor (map (λ word. word.now) words.entry.now)) }
    ensures told { IfErr result (IsWordsFault (map (λ word. word.now) words.entry.now)) }
{
    if words.is_empty() {
        return Ok(Order::Files(FileOrder::Blocks(STANDARD_INPUT)));
    }
    let matches = program(alloc)?.try_get_matches_from(words)?;
    let (command, inner) = matches.subcommand().unwrap();
    order_of(command, inner)
}

/// What the command of this name asks for, with what clap found for it.
fn order_of<'a>(command: &str, matches: &ArgMatches<'a>) -> Result<Order<'a>, WordsFault<'a>>
    requires known { IsOneOf command.now command_names }
    ensures asked { IfOk result (IsOrderOf command.now (rows_of (found_of matches.now))) }
    ensures told { IfErr result (IsFaultOf command.now (rows_of (found_of matches.now))) }
{
    match command {
        "blocks" => Ok(Order::Files(FileOrder::Blocks(word(matches, "DECK")))),
        "cards" => Ok(Order::Files(FileOrder::Cards(cards_order(matches)?))),
        "show" => Ok(Order::Files(FileOrder::Show(show_order(matches)))),
        "check" => Ok(Order::Files(FileOrder::Check(word(matches, "JOBS")))),
        "print" => Ok(Order::Files(FileOrder::Print(print_order(matches)))),
        "try" => Ok(Order::Files(FileOrder::Try(TryOrder {
            jobs: word(matches, "JOBS"),
            script: word(matches, "SCRIPT"),
        }))),
        "monitor" => Ok(Order::Files(FileOrder::Monitor(monitor_order(matches)))),
        "take" => Ok(Order::Files(FileOrder::Take(take_order(matches)?))),
        "mark" => Ok(Order::Files(FileOrder::Mark(mark_order(matches)?))),
        "loop" => Ok(Order::Sockets(SocketOrder::Loop(loop_order(matches)))),
        "send" => Ok(Order::Sockets(SocketOrder::Send(send_order(matches)?))),
        "receive" => Ok(Order::Sockets(SocketOrder::Receive(receive_order(matches)?))),
        "exchange" => Ok(Order::Sockets(SocketOrder::Exchange(exchange_order(matches)?))),
        "station" => Ok(Order::Station(station_order(matches)?)),
        "status" => Ok(Order::Status(status_order(matches))),
        _ => unreachable!(),
    }
}

fn cards_order<'a>(matches: &ArgMatches<'a>) -> Result<CardsOrder<'a>, WordsFault<'a>>
    ensures asked { IfOk result (IsCardsOrderOf (rows_of (found_of matches.now))) }
    ensures told { IfErr result (IsCardsFaultOf (rows_of (found_of matches.now))) }
{
    let deck = word(matches, "DECK");
    let jobs = word(matches, "JOBS");
    let printer = is_given(matches, "printer");
    let punch = is_given(matches, "punch");
    let transparent = is_given(matches, "transparent");
    let Some(device) = Device::chosen(printer, punch, transparent) else {
        return Err(WordsFault::TwoDevices);
    };
    let append = is_given(matches, "append");
    match name_in(matches) {
        Ok(name) => Ok(CardsOrder {
            deck,
            jobs,
            device,
            name,
            append,
        }),
        Err(word) => Err(WordsFault::BadName(word)),
    }
}

/// The name that was found for a job, which is blank where none was; the word where it is not a name.
fn name_in<'a>(matches: &ArgMatches<'a>) -> Result<JobName, &'a str>
    ensures name { IfOk result (λ name.
        IsGivenName (first_of (codes "name") (rows_of (found_of matches.now))) (Some name)) }
    ensures none { IfErr result (λ word.
        IsBadName (first_of (codes "name") (rows_of (found_of matches.now))) word.now) }
{
    match value_of(matches, "name") {
        Some(word) => match name_of(word) {
            Some(name) => Ok(name),
            None => Err(word),
        },
        None => Ok(NO_NAME),
    }
}

fn show_order<'a>(matches: &ArgMatches<'a>) -> ShowOrder<'a>
    ensures { IsShowOrderOf (rows_of (found_of matches.now)) result }
{
    ShowOrder {
        jobs: word(matches, "JOBS"),
        choice: Choice {
            job: number_in(matches),
            devices: Devices::All,
        },
        records: is_given(matches, "records"),
    }
}

fn print_order<'a>(matches: &ArgMatches<'a>) -> PrintOrder<'a>
    ensures { IsPrintOrderOf (rows_of (found_of matches.now)) result }
{
    PrintOrder {
        jobs: word(matches, "JOBS"),
        choice: Choice {
            job: number_in(matches),
            devices: Devices::chosen(is_given(matches, "printer"), is_given(matches, "punch")),
        },
        form: match is_given(matches, "raw") {
            true => Form::Raw,
            false => Form::Ascii,
        },
    }
}

/// The number of the one job, where one was found: clap tests the range.
fn number_in(matches: &ArgMatches) -> Option<u64>
    ensures { IsNumberOf (one_of (codes "job") (rows_of (found_of matches.now))) result }
{
    matches.get_one::<u64>("job")
}

fn monitor_order<'a>(matches: &ArgMatches<'a>) -> MonitorOrder<'a>
    ensures { IsMonitorOrderOf (rows_of (found_of matches.now)) result }
{
    MonitorOrder {
        capture: value_of(matches, "CAPTURE").unwrap_or(STANDARD_INPUT),
        hex: is_given(matches, "hex"),
    }
}

fn take_order<'a>(matches: &ArgMatches<'a>) -> Result<TakeOrder<'a>, WordsFault<'a>>
    ensures asked { IfOk result (IsTakeOrderOf (rows_of (found_of matches.now))) }
    ensures told { IfErr result (IsBadNumbersIn (rows_of (found_of matches.now))) }
{
    Ok(TakeOrder {
        jobs: word(matches, "JOBS"),
        new: word(matches, "NEW"),
        numbers: numbers_in(matches)?,
        append: is_given(matches, "append"),
    })
}

fn mark_order<'a>(matches: &ArgMatches<'a>) -> Result<MarkOrder<'a>, WordsFault<'a>>
    ensures asked { IfOk result (IsMarkOrderOf (rows_of (found_of matches.now))) }
    ensures told { IfErr result (IsMarkFaultOf (rows_of (found_of matches.now))) }
{
    let numbers = numbers_in(matches)?;
    let sent = is_given(matches, "sent");
    let waiting = is_given(matches, "waiting");
    match Mark::chosen(sent, waiting) {
        Some(mark) => Ok(MarkOrder {
            jobs: word(matches, "JOBS"),
            numbers,
            mark,
        }),
        None => Err(WordsFault::NoMark),
    }
}

/// The numbers of the jobs that a command is for.
fn numbers_in<'a>(matches: &ArgMatches<'a>) -> Result<JobNumbers<'a>, WordsFault<'a>>
    ensures asked { IfOk result (AreNumbersIn (rows_of (found_of matches.now))) }
    ensures told { IfErr result (IsBadNumbersIn (rows_of (found_of matches.now))) }
{
    let text = word(matches, "job");
    match JobNumbers::of(text) {
        Some(numbers) => Ok(numbers),
        None => Err(WordsFault::BadNumbers(text)),
    }
}

fn loop_order<'a>(matches: &ArgMatches<'a>) -> LoopOrder<'a>
    ensures { IsLoopOrderOf (rows_of (found_of matches.now)) result }
{
    LoopOrder {
        jobs: word(matches, "JOBS"),
        timeout: timeout_of(matches),
        trace: has_trace(matches),
        quiet: is_quiet(matches),
    }
}

fn send_order<'a>(matches: &ArgMatches<'a>) -> Result<SendOrder<'a>, WordsFault<'a>>
    ensures asked { IfOk result (IsSendOrderOf (rows_of (found_of matches.now))) }
    ensures told { IfErr result (IsConnectionFault (rows_of (found_of matches.now))) }
{
    Ok(SendOrder {
        jobs: word(matches, "JOBS"),
        connection: connection_in(matches)?,
    })
}

fn receive_order<'a>(matches: &ArgMatches<'a>) -> Result<ReceiveOrder<'a>, WordsFault<'a>>
    ensures asked { IfOk result (IsReceiveOrderOf (rows_of (found_of matches.now))) }
    ensures told { IfErr result (IsReceiveFaultOf (rows_of (found_of matches.now))) }
{
    let connection = connection_in(matches)?;
    let Some(waits) = waits_in(matches, connection.place) else {
        return Err(WordsFault::WaitCalled);
    };
    let Some(existing) = existing_in(matches) else {
        return Err(WordsFault::NewAndAppend);
    };
    Ok(ReceiveOrder {
        into: Destination {
            jobs: word(matches, "JOBS"),
            existing,
        },
        connection,
        waits,
        patience: patience_of(matches),
    })
}

/// Whether a call that brings nothing is followed by the next one; None where an end is to wait so that
/// calls.
fn waits_in(matches: &ArgMatches, place: Meeting) -> Option<bool>
    ensures { result ≡ waits_in place.entry (rows_of (found_of matches.now)) }
{
    match (place, is_given(matches, "wait")) {
        (Meeting::Calls(_), true) => None,
        (Meeting::Calls(_), false) => Some(false),
        (Meeting::Listens(..), waits) => Some(waits),
    }
}

fn exchange_order<'a>(matches: &ArgMatches<'a>) -> Result<ExchangeOrder<'a>, WordsFault<'a>>
    ensures asked { IfOk result (IsExchangeOrderOf (rows_of (found_of matches.now))) }
    ensures told { IfErr result (IsExchangeFaultOf (rows_of (found_of matches.now))) }
{
    let connection = connection_in(matches)?;
    let Some(rank) = rank_in(matches, connection.place) else {
        return Err(WordsFault::TwoRanks);
    };
    let Some(existing) = existing_in(matches) else {
        return Err(WordsFault::NewAndAppend);
    };
    Ok(ExchangeOrder {
        send: word(matches, "SEND"),
        received: Destination {
            jobs: word(matches, "RECEIVED"),
            existing,
        },
        connection,
        rank,
        patience: patience_of(matches),
    })
}

/// Which of the two ends of a connection that is come to so this one is; None where both of the
/// options for it were given.
fn rank_in(matches: &ArgMatches, place: Meeting) -> Option<Rank>
    ensures { result ≡ rank_in place.entry (rows_of (found_of matches.now)) }
{
    place.rank_chosen(is_given(matches, "primary"), is_given(matches, "secondary"))
}

/// What becomes of the jobs that the file which is received into holds already; None where both of
/// the options for them were given.
fn existing_in(matches: &ArgMatches) -> Option<Existing>
    ensures { result ≡ existing_in (rows_of (found_of matches.now)) }
{
    Existing::chosen(is_given(matches, "new"), is_given(matches, "append"))
}

fn status_order<'a>(matches: &ArgMatches<'a>) -> StatusOrder<'a>
    ensures { IsStatusOrderOf (rows_of (found_of matches.now)) result }
{
    StatusOrder {
        folder: word(matches, "FOLDER"),
        json: is_given(matches, "json"),
    }
}

/// How a command comes to its connection, and what it keeps to there.
fn connection_in<'a>(matches: &ArgMatches<'a>) -> Result<Connection<'a>, WordsFault<'a>>
    ensures asked { IfOk result (IsConnectionOf (rows_of (found_of matches.now))) }
    ensures told { IfErr result (IsConnectionFault (rows_of (found_of matches.now))) }
{
    Ok(Connection {
        place: meeting_in(matches)?,
        timeout: timeout_of(matches),
        adapter: is_given(matches, "adapter"),
        trace: has_trace(matches),
        quiet: is_quiet(matches),
    })
}

/// How the two ends come to a connection: by one of two options. A third one, for whose calls are
/// taken, goes with the second alone.
fn meeting_in<'a>(matches: &ArgMatches<'a>) -> Result<Meeting<'a>, WordsFault<'a>>
    ensures asked { IfOk result (IsMeetingIn (rows_of (found_of matches.now))) }
    ensures told { IfErr result (IsConnectionFault (rows_of (found_of matches.now))) }
{
    match (value_of(matches, "to"), value_of(matches, "listen")) {
        (Some(to), None) => match (address_of(to), value_of(matches, "from")) {
            (None, _) => Err(WordsFault::BadAddress(to)),
            (Some(_), Some(_)) => Err(WordsFault::CallersCalled),
            (Some(address), None) => Ok(Meeting::Calls(address)),
        },
        (None, Some(listen)) => match address_of(listen) {
            None => Err(WordsFault::BadAddress(listen)),
            Some(address) => match callers_in(matches) {
                Ok(callers) => Ok(Meeting::Listens(address, callers)),
                Err(word) => Err(WordsFault::BadCallers(word)),
            },
        },
        _ => Err(WordsFault::NoMeeting),
    }
}

/// Whose calls are taken, which are anyone's where no addresses were found; the word where it is not
/// addresses.
fn callers_in<'a>(matches: &ArgMatches<'a>) -> Result<Callers<'a>, &'a str>
    ensures callers { IfOk result (IsCallersOf
        (first_of (codes "from") (rows_of (found_of matches.now)))) }
    ensures none { IfErr result (λ word. IsBadCallers
        (first_of (codes "from") (rows_of (found_of matches.now))) word.now) }
{
    match value_of(matches, "from") {
        Some(word) => match Callers::of(word) {
            Some(callers) => Ok(callers),
            None => Err(word),
        },
        None => Ok(Callers::Anyone),
    }
}

/// The value that was found, where one was.
fn value_of<'a>(matches: &ArgMatches<'a>, id: &str) -> Option<&'a str>
    ensures { option_map (λ text. text.now) result
        ≡ first_of id.now (rows_of (found_of matches.now)) }
{
    matches.get_str(id)
}

/// How long a hearing waits, in milliseconds: clap tests the range.
fn timeout_of(matches: &ArgMatches) -> u16
    ensures { IsTimeoutOf (one_of (codes "timeout") (rows_of (found_of matches.now))) result }
{
    matches.get_one::<u16>("timeout").unwrap_or(3000)
}

/// After how many hearings in a row without a word it leaves: clap tests the range.
fn patience_of(matches: &ArgMatches) -> u32
    ensures { IsPatienceOf (one_of (codes "patience") (rows_of (found_of matches.now))) result }
{
    matches.get_one::<u32>("patience").unwrap_or(40)
}

/// Whether each turn is to be reported.
fn has_trace(matches: &ArgMatches) -> bool
    ensures { result ≡ is_on (codes "trace") (rows_of (found_of matches.now)) }
{
    is_given(matches, "trace")
}

/// Whether nothing is to be shown on a terminal of how far it is.
fn is_quiet(matches: &ArgMatches) -> bool
    ensures { result ≡ is_on (codes "quiet") (rows_of (found_of matches.now)) }
{
    is_given(matches, "quiet")
}

/// The value that was found, and no character where none was.
fn word<'a>(matches: &ArgMatches<'a>, id: &str) -> &'a str
    ensures { result.now ≡ word_in id.now (rows_of (found_of matches.now)) }
{
    matches.get_str(id).unwrap_or("")
}

fn is_given(matches: &ArgMatches, id: &str) -> bool
    ensures { result ≡ is_on id.now (rows_of (found_of matches.now)) }
{
    matches.get_one::<bool>(id).unwrap_or(false)
}
