//! The folders of a station that stays on the line: which file is what, by the folder that it is in and by its name.
#![tactic(auto)]

mod clearing;
mod copying;
mod file_identity;
mod file_names;
mod finishing;
mod folder;
mod folder_disk;
mod folder_fault;
mod keeping;
mod kept_names;
mod linking;
mod marking;
mod moving;
mod naming;
mod opening;
mod probing;
mod promising;
mod reading;
mod ready_file;
mod ready_opening;
mod receiving;
mod settled;
mod station_folder;
mod taken_name;
mod taking_out;
mod taking_over;
mod tidying;
mod trying;

pub use file_identity::FileIdentity;
pub use file_names::FileNames;
pub use finishing::{Finished, OtherName};
pub use folder::Folder;
pub use folder_disk::FolderDisk;
pub use folder_fault::FolderFault;
pub use keeping::{Kept, keep};
pub use marking::set_mark;
pub use moving::{add_name, drop_name, move_file};
pub use naming::is_named_after;
pub use reading::FileRead;
pub use ready_file::{ReadyFile, is_left_alone, ready_names};
pub use settled::{OutName, Settled};
pub use station_folder::StationFolder;
