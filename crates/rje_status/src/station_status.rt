//! Whether a station has a folder, and what lies in it.
ghost use Rattle.std.specs.Prelude.{◌≡◌};
ghost use Rattle.rje_status.specs.Status.{asks_for_operator};

use crate::folders::Folders;
use crate::line_state::LineState;
use serde::Serialize;

/// Whether a station has a folder, and what lies in it.
#[derive(Debug, Drop, Serialize)]
pub struct StationStatus {
    /// Whether a station has the folder.
    pub running: bool,
    /// Whether the operator holds back what lies ready.
    pub hold: bool,
    /// Whether the operator drains the station.
    pub drain: bool,
    /// Whether something asks for the operator.
    pub asks: bool,
    /// What the station that has the folder is doing on its line, if it noted that.
    pub line: Option<LineState>,
    /// What lies in its folders.
    pub folders: Folders,
    /// The last lines of its log that ask for the operator.
    pub log: Vec<String>,
}

impl StationStatus {
    /// That of a folder with these files, a station of which is at this on its line, and with these lines in its log. It asks for the operator where no
    /// station has it, and where something is in doubt or refused.
    pub fn new(
        running: bool,
        hold: bool,
        drain: bool,
        line: Option<LineState>,
        folders: Folders,
        log: Vec<String>,
    ) -> StationStatus
        ensures running { result.running ≡ running }
        ensures hold { result.hold ≡ hold }
        ensures drain { result.drain ≡ drain }
        ensures asks { result.asks ≡ asks_for_operator running folders }
        ensures line { result.line ≡ line }
        ensures folders { result.folders ≡ folders }
        ensures log { result.log ≡ log }
    {
        StationStatus {
            running,
            hold,
            drain,
            asks: !running || !folders.doubt.is_empty() || !folders.refused.is_empty(),
            line,
            folders,
            log,
        }
    }
}
