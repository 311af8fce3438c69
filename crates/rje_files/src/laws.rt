//! What job files promise beyond the calls that write and read them.
ghost use Rattle.rje_files.specs.Laws.{FileIsOfOneList, EntriesAreOfOneList, ReadAlike, NamesArePadded, OneFileFault, OneEntryFault, OneRefusal};

/// Bytes are the file of one list of jobs at most.
pub fn file_is_of_one_list()
    ensures one_list { FileIsOfOneList }
{}

/// Bytes are the file of one list of entries at most, and of one version.
pub fn entries_are_of_one_list()
    ensures one_list { EntriesAreOfOneList }
{}

/// A version 1 file that is read as entries gives the jobs that it gives read as jobs, without names, and Whole or Cut.
pub fn read_alike()
    ensures alike { ReadAlike }
{}

/// Eight bytes are a name exactly where they are up to eight characters and then blanks.
pub fn names_are_padded()
    ensures names { NamesArePadded }
{}

/// At most one fault is reported for bytes that are read as entries, and for entries that are not written.
pub fn one_entry_fault()
    ensures read { OneEntryFault }
    ensures written { OneRefusal }
{}

/// At most one fault is reported for bytes; out of memory, which is reported for a file alone, is not a second one.
pub fn one_file_fault()
    ensures one_fault { OneFileFault }
{}
