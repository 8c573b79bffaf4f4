//! A real file, in the folder in which the test runs. No test returns while it has a disk open, since a disk that is let go at each
//! way out makes it long to prove.

use crate::{FileDisk, OpenError};
use keri_outside::Failed;
use shelf_log::Disk;
use std::fs;
use std::test::Fail;

const FOLDER: &str = "disk_file_test";

const PATH: &str = "disk_file_test/a";

const READ_FOLDER: &str = "disk_file_read_test";

const READ_PATH: &str = "disk_file_read_test/a";

#[test]
fn is_written_cut_and_read_by_one_at_a_time(rt: HostRuntime) -> Result<(), Fail> {
    let _ = fs::remove_dir_all(&rt, FOLDER);
    fs::create_dir(&rt, FOLDER)?;
    assert!(rt; matches!(FileDisk::open_existing(&rt, PATH), Err(OpenError::Io(_))));
    assert!(rt; matches!(FileDisk::open_to_read(&rt, PATH), Err(OpenError::Io(_))));
    let mut disk = FileDisk::open(&rt, PATH)?;
    assert!(rt; matches!(FileDisk::open(&rt, PATH), Err(OpenError::Busy)));
    assert!(rt; matches!(FileDisk::open_to_read(&rt, PATH), Err(OpenError::Busy)));
    assert!(rt; matches!(FileDisk::open(&rt, FOLDER), Err(OpenError::NotAFile)));
    assert_eq!(rt; disk.write_at(0, b"abcdef"), Ok(()));
    assert_eq!(rt; disk.cut(5), Ok(()));
    assert_eq!(rt; disk.sync(), Ok(()));
    let mut back = [0; 3];
    assert_eq!(rt; disk.read(2, &mut back), Ok(()));
    assert_eq!(rt; back, *b"cde");
    for offset in [3, 5, (1 << 63) - 1, 1 << 63, u64::MAX] {
        assert_eq!(rt; disk.read(offset, &mut back), Err(Failed), "at {offset}");
    }
    for offset in [(1 << 63) - 1, 1 << 63, u64::MAX] {
        assert_eq!(rt; disk.write_at(offset, b"ab"), Err(Failed), "at {offset}");
        assert_eq!(rt; disk.cut(offset), Err(Failed), "at {offset}");
    }
    assert_eq!(rt; disk.size(), Ok(5));
    drop(disk);
    let mut disk = FileDisk::open_existing(&rt, PATH)?;
    assert_eq!(rt; disk.size(), Ok(5));
    drop(disk);
    fs::remove_dir_all(&rt, FOLDER)?;
    Ok(())
}

#[test]
fn is_read_without_the_right_to_write(rt: HostRuntime) -> Result<(), Fail> {
    let _ = fs::remove_dir_all(&rt, READ_FOLDER);
    fs::create_dir(&rt, READ_FOLDER)?;
    fs::write(&rt, READ_PATH, b"abc".as_slice())?;
    let mut disk = FileDisk::open_to_read(&rt, READ_PATH)?;
    assert!(rt; matches!(FileDisk::open(&rt, READ_PATH), Err(OpenError::Busy)));
    assert_eq!(rt; disk.sync(), Ok(()));
    assert_eq!(rt; disk.write_at(0, b"x"), Err(Failed));
    assert_eq!(rt; disk.cut(0), Err(Failed));
    let mut back = [0; 3];
    assert_eq!(rt; disk.read(0, &mut back), Ok(()));
    assert_eq!(rt; back, *b"abc");
    assert_eq!(rt; disk.size(), Ok(3));
    drop(disk);
    fs::remove_dir_all(&rt, READ_FOLDER)?;
    Ok(())
}
