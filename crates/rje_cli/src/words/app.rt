//! The command line that clap is given.
ghost use Rattle.std.specs.Prelude.{◌≡◌, codes, IfOk};
ghost use Rattle.clap.specs.Words.{App, Rule, with_rule, with_subcommand};
ghost use Rattle.rje_cli.specs.CommandLine.{IsArg, IsApp, file_rule, flag_rule, value_rule};
ghost use Rattle.rje_cli.specs.CommandLine.{timeout_rule, patience_rule, trace_rule, quiet_rule, file_app, blocks_app, cards_app};
ghost use Rattle.rje_cli.specs.CommandLine.{try_app, loop_app, send_app, receive_app, exchange_app, rje_app};
ghost use Rattle.rje_cli.specs.CommandLine.{capture_rule, monitor_app, number_rule, print_app, show_app, with_choice_rules};
ghost use Rattle.rje_cli.specs.CommandLine.{with_connection_rules, with_device_rules, with_existing_rules, with_meeting_rules, with_rank_rules};
ghost use Rattle.rje_cli.specs.CommandLine.{every_rule, progress_rule, station_app, status_app, with_partner_rules};
ghost use Rattle.rje_cli.specs.CommandLine.{mark_app, numbers_rule, take_app};
ghost use Rattle.rje_cli.specs.CommandLine.{with_deck_apps, with_file_apps, with_line_apps};

use clap::{Arg, ArgAction, Command, value_parser};
use std::alloc::{AllocError, Global};

/// The program's version.
const VERSION: &str = "1.10.0";

/// What stands after the commands where help is given.
const AFTER_HELP: &str = "\
No words do what `rje blocks -` does: they read a deck from standard input.
`rje COMMAND --help` tells the words of a command.

Exit status:
  0    done; help or the version was asked for
  1    an input was refused, or `status` found something to be seen to
  2    the command line is wrong
  3    a file, a read, a line or an output failed
  4    a transmission ended, but not by done
  5    there was no memory
  141  nobody reads the output any more";

/// The help of a deck's word.
const DECK_HELP: &str = "A text file with a card a line; - is standard input";

/// The help of the word of a job file that is read.
const JOBS_HELP: &str = "A job file";

/// The help of the word of a station's folder.
const FOLDER_HELP: &str = "The station's folder";

/// The help of the option for the address that is called.
const TO_HELP: &str = "Call the other end, which listens at 192.0.2.1:3780, say";

/// The program's command line.
pub fn program<'a>(alloc: Global) -> Result<Command<'a>, AllocError>
    ensures { IfOk result (IsApp rje_app) }
{
    let top = Command::new(alloc, "rje")
        .about("Jobs of cards and lines over a Binary Synchronous line.")
        .version(VERSION)
        .after_help(AFTER_HELP)
        .no_binary_name(true)
        .subcommand_required(true)
        .bin_name("rje")?;
    let top = with_deck_commands(alloc, top)?;
    let top = with_file_commands(alloc, top)?;
    with_line_commands(alloc, top)
}

fn with_deck_commands<'a>(alloc: Global, top: Command<'a>) -> Result<Command<'a>, AllocError>
    ensures { (app : App) → IsApp app top.entry → IfOk result (IsApp (with_deck_apps app)) }
{
    let top = with_command(top, cards(alloc))?;
    with_command(top, blocks(alloc))
}

fn with_file_commands<'a>(alloc: Global, top: Command<'a>) -> Result<Command<'a>, AllocError>
    ensures { (app : App) → IsApp app top.entry → IfOk result (IsApp (with_file_apps app)) }
{
    let top = with_command(top, show(alloc))?;
    let check = "Tell whether the jobs of a job file can be sent";
    let top = with_jobs(alloc, top, "check", check)?;
    let top = with_command(top, print(alloc))?;
    let top = with_command(top, attempt(alloc))?;
    let top = with_command(top, monitor(alloc))?;
    let top = with_command(top, take(alloc))?;
    with_command(top, mark(alloc))
}

/// The command line with one command more: this one, which reads a job file.
fn with_jobs<'a>(
    alloc: Global,
    top: Command<'a>,
    name: &'a str,
    about: &'a str,
) -> Result<Command<'a>, AllocError>
    ensures { (app : App) → IsApp app top.entry
        → IfOk result (IsApp (with_subcommand app (file_app name.entry.now (codes "JOBS")).top)) }
{
    with_command(top, of_jobs(alloc, name, about, JOBS_HELP))
}

fn with_line_commands<'a>(alloc: Global, top: Command<'a>) -> Result<Command<'a>, AllocError>
    ensures { (app : App) → IsApp app top.entry → IfOk result (IsApp (with_line_apps app)) }
{
    let top = with_command(top, loopback(alloc))?;
    let top = with_command(top, send(alloc))?;
    let top = with_command(top, receive(alloc))?;
    let top = with_command(top, exchange(alloc))?;
    let top = with_command(top, station(alloc))?;
    with_command(top, status(alloc))
}

fn show<'a>(alloc: Global) -> Result<Command<'a>, AllocError>
    ensures { IfOk result (IsApp show_app) }
{
    let about = "Print a line for each job of a job file";
    let command = of_jobs(alloc, "show", about, JOBS_HELP)?;
    let command = with_arg(command, number(alloc, "Show the job of this number alone"))?;
    let records = "Print the records of each job too, each with its number";
    with_arg(command, flag(alloc, "records", records))
}

fn print<'a>(alloc: Global) -> Result<Command<'a>, AllocError>
    ensures { IfOk result (IsApp print_app) }
{
    let about = "Print the listings and punched cards of a job file";
    let command = of_jobs(alloc, "print", about, JOBS_HELP)?;
    let command = with_choice(alloc, command)?;
    let raw = "Print cards as they are: 80 bytes of EBCDIC each, without line ends";
    with_arg(command, flag(alloc, "raw", raw))
}

/// The command with the options that choose jobs.
fn with_choice<'a>(alloc: Global, command: Command<'a>) -> Result<Command<'a>, AllocError>
    ensures { (app : App) → IsApp app command.entry → IfOk result (IsApp (with_choice_rules app)) }
{
    let command = with_arg(command, number(alloc, "Print the job of this number alone"))?;
    let printer = flag(alloc, "printer", "Print the listings alone");
    let command = with_arg(command, printer)?;
    with_arg(
        command,
        flag(alloc, "punch", "Print the punched cards alone"),
    )
}

fn attempt<'a>(alloc: Global) -> Result<Command<'a>, AllocError>
    ensures { IfOk result (IsApp try_app) }
{
    let command = of_jobs(
        alloc,
        "try",
        "Print what happens to the jobs of a job file on a line that loses and damages",
        JOBS_HELP,
    )?;
    with_arg(
        command,
        file(alloc, "SCRIPT", "What the line does, a turn a line"),
    )
}

fn monitor<'a>(alloc: Global) -> Result<Command<'a>, AllocError>
    ensures { IfOk result (IsApp monitor_app) }
{
    let command = Command::new(alloc, "monitor").about(
        "Print what is heard of bytes as they stood on a line",
    );
    let command = with_arg(command, capture(alloc))?;
    let hex = "CAPTURE is text in hexadecimal digits, a transmission a line";
    with_arg(command, flag(alloc, "hex", hex))
}

fn take<'a>(alloc: Global) -> Result<Command<'a>, AllocError>
    ensures { IfOk result (IsApp take_app) }
{
    let about = "Make a job file of some jobs of another one";
    let jobs = "The job file that has the jobs; it stays as it is";
    let command = of_jobs(alloc, "take", about, jobs)?;
    let new = "The job file to write; there is to be no such file, unless with --append";
    let command = with_arg(command, file(alloc, "NEW", new))?;
    let numbers = "Take the jobs of these numbers, as 1,4,5";
    let command = with_arg(command, numbers_of(alloc, numbers))?;
    let append =
        "Keep the jobs that NEW holds, where there is such a file, and add the jobs after them";
    with_arg(command, flag(alloc, "append", append))
}

fn mark<'a>(alloc: Global) -> Result<Command<'a>, AllocError>
    ensures { IfOk result (IsApp mark_app) }
{
    let about = "Mark some jobs of a job file as sent, or as waiting to be sent";
    let command = of_jobs(
        alloc,
        "mark",
        about,
        "The job file in which they are marked",
    )?;
    let numbers = "Mark the jobs of these numbers, as 1,4,5";
    let command = with_arg(command, numbers_of(alloc, numbers))?;
    let sent = "They are sent, and send passes over them";
    let command = with_arg(command, flag(alloc, "sent", sent))?;
    with_arg(command, flag(alloc, "waiting", "They wait to be sent"))
}

fn loopback<'a>(alloc: Global) -> Result<Command<'a>, AllocError>
    ensures { IfOk result (IsApp loop_app) }
{
    let command = of_jobs(
        alloc,
        "loop",
        "Send the jobs of a job file over a connection on this machine, both ends in one process",
        JOBS_HELP,
    )?;
    let command = with_arg(command, timeout(alloc))?;
    let command = with_arg(command, trace(alloc))?;
    with_arg(command, quiet(alloc))
}

fn send<'a>(alloc: Global) -> Result<Command<'a>, AllocError>
    ensures { IfOk result (IsApp send_app) }
{
    let command = of_jobs(
        alloc,
        "send",
        "Send the jobs of a job file to a receiver",
        "A job file; the jobs that are counted are marked in it as sent",
    )?;
    with_connection(alloc, command)
}

fn receive<'a>(alloc: Global) -> Result<Command<'a>, AllocError>
    ensures { IfOk result (IsApp receive_app) }
{
    let command = of_jobs(
        alloc,
        "receive",
        "Take one transmission over a connection, into a job file",
        "The job file to write, in place of one that is there",
    )?;
    let command = with_connection(alloc, command)?;
    let command = with_arg(command, patience(alloc))?;
    let wait = "With --listen: pass over callers that say nothing, until one speaks";
    let command = with_arg(command, flag(alloc, "wait", wait))?;
    with_existing(
        alloc,
        command,
        "Refuse JOBS where it holds jobs",
        "Keep the jobs that JOBS holds, and add those that come after them",
    )
}

fn exchange<'a>(alloc: Global) -> Result<Command<'a>, AllocError>
    ensures { IfOk result (IsApp exchange_app) }
{
    let command = Command::new(alloc, "exchange").about(
        "Send the jobs of a job file and receive those of the other end, over one connection",
    );
    let send = file(
        alloc,
        "SEND",
        "A job file; the jobs that are counted are marked in it as sent",
    );
    let command = with_arg(command, send)?;
    let received = file(
        alloc,
        "RECEIVED",
        "The job file to write, in place of one that is there",
    );
    let command = with_arg(command, received)?;
    let command = with_connection(alloc, command)?;
    let command = with_arg(command, patience(alloc))?;
    let command = with_rank(alloc, command)?;
    with_existing(
        alloc,
        command,
        "Refuse RECEIVED where it holds jobs",
        "Keep the jobs that RECEIVED holds, and add those that come after them",
    )
}

fn station<'a>(alloc: Global) -> Result<Command<'a>, AllocError>
    ensures { IfOk result (IsApp station_app) }
{
    let command = Command::new(alloc, "station").about(
        "Stay on the line: send what lies in a folder, and keep what comes",
    );
    let command = with_arg(command, file(alloc, "FOLDER", FOLDER_HELP))?;
    let command = with_partner(alloc, command)?;
    let command = with_arg(command, adapter(alloc))?;
    let once = flag(alloc, "once", "End after one connection");
    let command = with_arg(command, once)?;
    let command = with_arg(command, settle(alloc))?;
    with_arg(command, quiet(alloc))
}

fn status<'a>(alloc: Global) -> Result<Command<'a>, AllocError>
    ensures { IfOk result (IsApp status_app) }
{
    let command = Command::new(alloc, "status").about(
        "Tell what lies in a station's folder, and whether it asks for the operator",
    );
    let command = with_arg(command, file(alloc, "FOLDER", FOLDER_HELP))?;
    with_arg(command, flag(alloc, "json", "As JSON"))
}

/// The command with the options for how a station comes to its connections, and what it keeps to
/// there.
fn with_partner<'a>(alloc: Global, command: Command<'a>) -> Result<Command<'a>, AllocError>
    ensures { (app : App) → IsApp app command.entry
        → IfOk result (IsApp (with_partner_rules app)) }
{
    let to = "Call the other end, which listens at host.example:3780, say";
    let command = with_meeting(alloc, command, to)?;
    let command = with_arg(command, every(alloc))?;
    let command = with_arg(command, timeout(alloc))?;
    let command = with_arg(command, patience(alloc))?;
    let command = with_arg(command, progress(alloc))?;
    with_rank(alloc, command)
}

/// The command with the options for a connection.
fn with_connection<'a>(alloc: Global, command: Command<'a>) -> Result<Command<'a>, AllocError>
    ensures { (app : App) → IsApp app command.entry → IfOk result (IsApp (with_connection_rules app)) }
{
    let command = with_meeting(alloc, command, TO_HELP)?;
    let command = with_arg(command, timeout(alloc))?;
    let command = with_arg(command, adapter(alloc))?;
    let command = with_arg(command, trace(alloc))?;
    with_arg(command, quiet(alloc))
}

/// The command with the options for whom it calls, which has this help, for where it listens, and for
/// whose calls it takes.
fn with_meeting<'a>(
    alloc: Global,
    command: Command<'a>,
    to: &'a str,
) -> Result<Command<'a>, AllocError>
    ensures { (app : App) → IsApp app command.entry → IfOk result (IsApp (with_meeting_rules app)) }
{
    let command = with_arg(command, value(alloc, "to", "ADDR", to))?;
    let listen = "Wait for the other end's call, at 0.0.0.0:3780, say";
    let command = with_arg(command, value(alloc, "listen", "ADDR", listen))?;
    let from = "With --listen: take calls from these addresses alone, as 192.0.2.1,192.0.2.2";
    with_arg(command, value(alloc, "from", "ADDRS", from))
}

/// The command with the options for its rank.
fn with_rank<'a>(alloc: Global, command: Command<'a>) -> Result<Command<'a>, AllocError>
    ensures { (app : App) → IsApp app command.entry → IfOk result (IsApp (with_rank_rules app)) }
{
    let primary = "Where both ends bid at once, the other one gives way; usual with --to";
    let command = with_arg(command, flag(alloc, "primary", primary))?;
    let secondary = "Where both ends bid at once, this one gives way; usual with --listen";
    with_arg(command, flag(alloc, "secondary", secondary))
}

/// The command with the options for the jobs that the file which it receives into holds already, and
/// the helps of both.
fn with_existing<'a>(
    alloc: Global,
    command: Command<'a>,
    new: &'a str,
    append: &'a str,
) -> Result<Command<'a>, AllocError>
    ensures { (app : App) → IsApp app command.entry → IfOk result (IsApp (with_existing_rules app)) }
{
    let command = with_arg(command, flag(alloc, "new", new))?;
    with_arg(command, flag(alloc, "append", append))
}

fn blocks<'a>(alloc: Global) -> Result<Command<'a>, AllocError>
    ensures { IfOk result (IsApp blocks_app) }
{
    let command = Command::new(alloc, "blocks").about("Print the blocks of a deck's job");
    with_arg(command, file(alloc, "DECK", DECK_HELP))
}

fn cards<'a>(alloc: Global) -> Result<Command<'a>, AllocError>
    ensures { IfOk result (IsApp cards_app) }
{
    let command = Command::new(alloc, "cards").about("Make a job file of a deck");
    let command = with_arg(command, file(alloc, "DECK", DECK_HELP))?;
    let jobs = "The job file to write, in place of one that is there";
    let command = with_arg(command, file(alloc, "JOBS", jobs))?;
    let command = with_devices(alloc, command)?;
    let name = "The job's name: one to eight of A to Z and 0 to 9";
    let command = with_arg(command, value(alloc, "name", "NAME", name))?;
    let append = flag(
        alloc,
        "append",
        "Keep the jobs that JOBS holds, where there is such a file, and add the job behind them",
    );
    with_arg(command, append)
}

/// The command with the options that choose a job's device.
fn with_devices<'a>(alloc: Global, command: Command<'a>) -> Result<Command<'a>, AllocError>
    ensures { (app : App) → IsApp app command.entry → IfOk result (IsApp (with_device_rules app)) }
{
    let printer = flag(alloc, "printer", "The job is for the printer");
    let command = with_arg(command, printer)?;
    let punch = flag(alloc, "punch", "The job is for the punch");
    let command = with_arg(command, punch)?;
    let transparent = flag(
        alloc,
        "transparent",
        "The job is for the punch, its cards filled to 80 bytes and sent as they are",
    );
    with_arg(command, transparent)
}

/// A command over a job file; this help says what becomes of the file.
fn of_jobs<'a>(
    alloc: Global,
    name: &'a str,
    about: &'a str,
    jobs: &'a str,
) -> Result<Command<'a>, AllocError>
    ensures { IfOk result (IsApp (file_app name.entry.now (codes "JOBS"))) }
{
    let command = Command::new(alloc, name).about(about);
    with_arg(command, file(alloc, "JOBS", jobs))
}

fn file<'a>(alloc: Global, id: &'a str, help: &'a str) -> Arg<'a>
    ensures { IsArg (file_rule id.entry.now) result }
{
    Arg::new(alloc, id)
        .required(true)
        .action(ArgAction::Set)
        .help(help)
}

fn capture<'a>(alloc: Global) -> Arg<'a>
    ensures { IsArg capture_rule result }
{
    Arg::new(alloc, "CAPTURE").action(ArgAction::Set).help(
        "The bytes as they stood on the line; - or nothing is standard input",
    )
}

fn flag<'a>(alloc: Global, id: &'a str, help: &'a str) -> Arg<'a>
    ensures { IsArg (flag_rule id.entry.now) result }
{
    Arg::new(alloc, id)
        .long(id)
        .action(ArgAction::SetTrue)
        .help(help)
}

/// An option that is given a value, which the help calls so.
fn value<'a>(alloc: Global, id: &'a str, called: &'a str, help: &'a str) -> Arg<'a>
    ensures { IsArg (value_rule id.entry.now) result }
{
    Arg::new(alloc, id)
        .long(id)
        .value_name(called)
        .action(ArgAction::Set)
        .help(help)
}

/// The option for the number of the one job, with this help.
fn number<'a>(alloc: Global, help: &'a str) -> Arg<'a>
    ensures { IsArg number_rule result }
{
    Arg::new(alloc, "job")
        .long("job")
        .value_name("K")
        .action(ArgAction::Set)
        .value_parser(value_parser!(u64).range(1..))
        .help(help)
}

/// The option for the numbers of jobs, which must be given, with this help.
fn numbers_of<'a>(alloc: Global, help: &'a str) -> Arg<'a>
    ensures { IsArg numbers_rule result }
{
    Arg::new(alloc, "job")
        .long("job")
        .value_name("K,..")
        .required(true)
        .action(ArgAction::Set)
        .help(help)
}

fn timeout<'a>(alloc: Global) -> Arg<'a>
    ensures { IsArg timeout_rule result }
{
    Arg::new(alloc, "timeout")
        .long("timeout")
        .value_name("MS")
        .action(ArgAction::Set)
        .value_parser(value_parser!(u16).range(1..=60000))
        .default_value("3000")
        .help(
            "How long a hearing waits for more bytes, 1 to 60000 milliseconds; both ends take the same, longer than a round trip and a sync of the other end's disk",
        )
}

fn patience<'a>(alloc: Global) -> Arg<'a>
    ensures { IsArg patience_rule result }
{
    Arg::new(alloc, "patience")
        .long("patience")
        .value_name("N")
        .action(ArgAction::Set)
        .value_parser(value_parser!(u32).range(0..=1000000000))
        .default_value("40")
        .help("Leave after so many hearings in a row without a word, 0 to 1000000000; with 0 never")
}

fn every<'a>(alloc: Global) -> Arg<'a>
    ensures { IsArg every_rule result }
{
    Arg::new(alloc, "every")
        .long("every")
        .value_name("SECONDS")
        .action(ArgAction::Set)
        .value_parser(value_parser!(u32).range(1..=86400))
        .help("With --to: call again after so long, 1 to 86400 seconds; usual is 60")
}

fn progress<'a>(alloc: Global) -> Arg<'a>
    ensures { IsArg progress_rule result }
{
    Arg::new(alloc, "progress")
        .long("progress")
        .value_name("SECONDS")
        .action(ArgAction::Set)
        .value_parser(value_parser!(u32).range(0..=1000000))
        .default_value("21600")
        .help(
            "Leave where no job came whole and none was counted for so long, 0 to 1000000 seconds; with 0 never",
        )
}

fn adapter<'a>(alloc: Global) -> Arg<'a>
    ensures { IsArg (flag_rule (codes "adapter")) result }
{
    flag(
        alloc,
        "adapter",
        "The other end is a line adapter, such as a 2703, that makes and takes SYN, pads and checks itself",
    )
}

fn settle<'a>(alloc: Global) -> Arg<'a>
    ensures { IsArg (flag_rule (codes "settle")) result }
{
    flag(
        alloc,
        "settle",
        "Let receipts tell what may have arrived: the other end is a station with --settle too",
    )
}

fn trace<'a>(alloc: Global) -> Arg<'a>
    ensures { IsArg trace_rule result }
{
    flag(
        alloc,
        "trace",
        "Tell each turn on standard error as it happens",
    )
}

fn quiet<'a>(alloc: Global) -> Arg<'a>
    ensures { IsArg quiet_rule result }
{
    flag(
        alloc,
        "quiet",
        "Show nothing on a terminal of how far it is",
    )
}

fn with_arg<'a>(command: Command<'a>, arg: Arg<'a>) -> Result<Command<'a>, AllocError>
    ensures { (app : App) (rule : Rule) → IsApp app command.entry → IsArg rule arg.entry
        → IfOk result (IsApp (with_rule app rule)) }
{
    command.arg(arg)
}

fn with_command<'a>(
    top: Command<'a>,
    command: Result<Command<'a>, AllocError>,
) -> Result<Command<'a>, AllocError>
    ensures { (app under : App) → IsApp app top.entry → IfOk command.entry (IsApp under)
        → IfOk result (IsApp (with_subcommand app under.top)) }
{
    top.subcommand(command?)
}
