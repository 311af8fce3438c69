//! What words promise beyond the calls: laws of the definitions that `parse` cites.
ghost use Rattle.rje_cli.specs.Canonical.{BlocksAsked, ShowAsked, CheckAsked, PrintAsked};
ghost use Rattle.rje_cli.specs.Canonical.{TryAsked, MonitorAsked, CardsWithOptionsAsked, ReceiveAsked, SendAsked, StationAsked, StatusAsked};

/// A command's name and the files that it takes, in their order, ask for this command over these
/// files: they have no fault but out of memory. A file's word has no hyphen in front; a deck
/// may be `-`. After the files of `cards` its options may stand, each at most once and in any order:
/// for a device, for a name, and `--append`. After the file of `show` `--records` may stand, and after that of `print` `--printer`, `--punch`
/// and `--raw`; after that of `monitor`, or where it is left out, `--hex`. After the file of `send` stands the address
/// that is called, and after that of `receive` the one where it listens, and then `--new` or `--append` may stand. The one file of `status`
/// is a station's folder, and after it `--json` may stand.
pub fn words_ask_for_orders()
    ensures blocks { BlocksAsked }
    ensures show { ShowAsked }
    ensures check { CheckAsked }
    ensures print { PrintAsked }
    ensures attempt { TryAsked }
    ensures monitor { MonitorAsked }
    ensures cards { CardsWithOptionsAsked }
    ensures receive { ReceiveAsked }
    ensures send { SendAsked }
    ensures status { StatusAsked }
{}

/// `station`, its folder and `--to` with the host that is called ask for just this station, with all else as usual: they have no fault but out
/// of memory. The word of the folder, and that of the host, have no hyphen in front.
pub fn words_ask_for_a_station()
    ensures calling { StationAsked }
{}
