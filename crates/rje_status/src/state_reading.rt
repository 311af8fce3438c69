//! What a station noted in its folder.
use crate::line_state::{LineState, STATE_FILE};
use rje_folder::FolderDisk;
use rje_store::{FileKind, read_all};
use std::alloc::Global;

/// What the station of this folder noted last of what it is doing; none if it noted nothing, or that can't be read.
pub(crate) fn noted_state<D: FolderDisk>(
    disk: &D,
    alloc: Global,
    station: &str,
) -> Option<LineState> {
    let path = format!(in alloc; "{station}/{STATE_FILE}").ok()?;
    if disk.status_of_name(path.as_str()).ok()?.kind != FileKind::Regular {
        return None;
    }
    let mut file = disk.open_to_read(path.as_str()).ok()?;
    let bytes = read_all(alloc, &mut file).ok()?;
    let text = str::from_utf8(bytes.as_slice()).ok()?;
    serde_json::from_str(alloc, text).ok()
}
