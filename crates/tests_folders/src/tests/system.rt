//! What the system's disk says of folders.
use rje_folder::FolderDisk;
use rje_store::SystemDisk;
use std::io::ErrorKind;
use std::test::Fail;

#[test]
fn a_folder_of_the_system_is_read(rt: HostRuntime) -> Result<(), Fail> {
    let disk = SystemDisk::new(&rt);
    let mut nulls: usize = 0;
    for name in disk.names_in(rt.alloc(), "/dev")? {
        if name.as_str() == "null" {
            nulls = nulls.saturating_add(1);
        }
    }
    assert!(rt; nulls == 1);
    let missing = disk.names_in(rt.alloc(), "/dev/none");
    assert!(rt; missing.err().map(|error| error.kind()) == Some(ErrorKind::NotFound));
    assert!(rt; disk.count_unreadable_names("/dev")? == 0);
    let missing = disk.count_unreadable_names("/dev/none");
    assert!(rt; missing.err().map(|error| error.kind()) == Some(ErrorKind::NotFound));
    Ok(())
}

#[test]
fn two_names_of_the_system_are_of_one_file(rt: HostRuntime) -> Result<(), Fail> {
    let disk = SystemDisk::new(&rt);
    assert!(rt; disk.is_one_file("/dev/null", "/dev/../dev/null")?);
    assert!(rt; !disk.is_one_file("/dev/null", "/dev/zero")?);
    assert!(rt; disk.is_one_file("/dev/null", "/dev/none").is_err());
    Ok(())
}

#[test]
fn a_folder_that_is_there_is_no_fault(rt: HostRuntime) {
    let mut disk = SystemDisk::new(&rt);
    assert!(rt; disk.make_folder("/dev").is_ok());
    assert!(rt; disk.make_folder("/dev/none/more").is_err());
}
