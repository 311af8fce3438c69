//! What no clause says of a station's folder: under which names a file is found, whichever call fails.
mod files;
mod names;
mod owners;
mod stations;
mod system;
