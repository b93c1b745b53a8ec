//! Files of the system.
use ec_edge::{FileFault, Files, HostFiles, read_whole};
use std::alloc::Global;
use std::test::Fail;
use std::{fs, process};

/// Whether a name that isn't there is told apart from a folder, which isn't read and isn't started.
fn refuses<F: Files>(files: &mut F) -> bool {
    let mut buf = [0u8; 8];
    files.piece("/no such file", 0, &mut buf) == Err(FileFault::Absent)
        && files.piece("/", 0, &mut buf) == Err(FileFault::Failed)
        && files.start("/") == Err(FileFault::Failed)
}

/// Whether what is appended to a name that was started is read from it, and no more.
fn keeps<F: Files>(alloc: Global, files: &mut F, name: &str) -> Result<bool, FileFault> {
    files.start(name)?;
    files.append(name, b"some ")?;
    files.append(name, b"text")?;
    let whole = read_whole(alloc, files, name, 9)?;
    Ok(whole.bytes.as_slice() == b"some text".as_slice() && !whole.past)
}

#[test]
fn files_of_the_system(rt: HostRuntime) -> Result<(), Fail> {
    let alloc = rt.alloc();
    let mut files = HostFiles::new(&rt);
    assert!(rt; refuses(&mut files));
    let id = process::id(rt.process());
    let path = format!(in alloc; "/tmp/edge_tables.{id}")?;
    let name = path.as_str();
    assert!(rt; keeps(alloc, &mut files, name)?);
    fs::remove_file(&rt, name)?;
    assert_eq!(rt; files.append(name, b"text"), Err(FileFault::Failed));
    Ok(())
}
