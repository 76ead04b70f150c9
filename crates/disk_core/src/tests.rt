//! Disks in memory whose calls fail, are cut short or stop, with their images; and files of the operating system.
use super::*;
use poly_io::Failed;
use std::fs;
use std::test::Fail;

/// A table of calls, which calls succeed of those that `play` makes, and what they leave.
#[derive(Clone, Copy)]
struct PlayCase {
    name: &'static str,
    table: &'static [DiskCall],
    succeed: [bool; 6],
    bytes: &'static [u8],
    faults: u64,
}

const PLAYS: [PlayCase; 5] = [
    PlayCase {
        name: "each call is done",
        table: &[],
        succeed: [true; 6],
        bytes: b"abc\0\0",
        faults: 0,
    },
    PlayCase {
        name: "the write fails",
        table: &[DiskCall::Do, DiskCall::Fail],
        succeed: [true, false, true, true, true, true],
        bytes: b"\0\0\0\0\0",
        faults: 1,
    },
    PlayCase {
        name: "the write is torn",
        table: &[DiskCall::Do, DiskCall::Tear(2)],
        succeed: [true, false, true, true, true, true],
        bytes: b"ab\0\0\0",
        faults: 1,
    },
    PlayCase {
        name: "the cut is done and fails",
        table: &[DiskCall::Do, DiskCall::Do, DiskCall::Tear(0)],
        succeed: [true, true, false, true, true, true],
        bytes: b"abc\0\0",
        faults: 1,
    },
    PlayCase {
        name: "the program stops before the cut",
        table: &[DiskCall::Do, DiskCall::Do, DiskCall::Stop],
        succeed: [true, true, false, false, false, false],
        bytes: b"abc",
        faults: 4,
    },
];

/// Each call once: which succeed.
fn play<D: Disk>(disk: &mut D) -> [bool; 6] {
    let mut buf = [0; 2];
    [
        disk.attach("ledger").is_ok(),
        disk.write_at(0, b"abc").is_ok(),
        disk.cut(5).is_ok(),
        disk.sync().is_ok(),
        disk.len().is_ok(),
        disk.read(1, &mut buf).is_ok(),
    ]
}

#[test]
fn does_what_its_table_says(rt: HostRuntime) -> Result<(), Fail> {
    for case in PLAYS {
        let mut disk = MemDisk::new(rt.alloc(), b"", case.table)?;
        let found = (play(&mut disk), disk.bytes(), disk.faults());
        let want = (case.succeed, case.bytes, case.faults);
        assert_eq!(rt; found, want, "{}", case.name);
    }
    Ok(())
}

/// Listed images of the bytes `ab` after `xyz` was written at 1.
const IMAGES: [(u64, &[u8]); 10] = [
    (0, b"ab"),
    (1, b"axyz"),
    (2, b"a\0yz"),
    (257, b"a\xffyz"),
    (258, b"ax\0z"),
    (769, b"axy\xff"),
    (770, b"ax"),
    (771, b"axy"),
    (772, b"axyz"),
    (u64::MAX, b"axyz"),
];

#[test]
fn lists_what_a_crash_may_leave(rt: HostRuntime) -> Result<(), Fail> {
    let mut disk = MemDisk::new(rt.alloc(), b"ab", &[])?;
    let written = disk.write_at(1, b"xyz");
    for (number, bytes) in IMAGES {
        let image = disk.image(number)?;
        let found = (written, disk.image_count(), image.as_slice());
        assert_eq!(rt; found, (Ok(()), 772, bytes), "{}", number);
    }
    Ok(())
}

const NAME: &str = "tests_of_disk_core.ledger";

/// Attaches a disk and reads two bytes of its file from offset 1 on, and its length.
fn look<D: Disk>(disk: &mut D, name: &str) -> Result<([u8; 2], u64), Failed> {
    let mut buf = [0; 2];
    disk.attach(name)?;
    read_full(disk, 1, &mut buf)?;
    Ok((buf, file_len(disk)?))
}

#[test]
fn a_file_has_one_writer_and_readers_beside_it(rt: HostRuntime) -> Result<(), Fail> {
    let mut writer = FileDisk::writer(&rt);
    let mut reader = FileDisk::reader(&rt);
    let absent = look(&mut reader, NAME);
    let made = look(&mut writer, NAME);
    let written = write_synced(&mut writer, 0, b"abc").is_ok()
        && cut_synced(&mut writer, 4).is_ok();
    let read = look(&mut reader, NAME);
    let unwritten = reader.write_at(0, b"x").is_err() && reader.cut(0).is_err();
    let refused = look(&mut FileDisk::writer(&rt), NAME);
    let again = look(&mut writer, NAME);
    fs::remove_file(&rt, NAME)?;
    let empty = Ok(([0, 0], 0));
    let bytes = Ok((*b"bc", 4));
    assert_eq!(rt;
        ([absent, made, read, refused, again], written, unwritten),
        ([empty, empty, bytes, Err(Failed), bytes], true, true)
    );
    Ok(())
}

/// Names of what a disk cannot be: a folder, a device, a file in no folder, and a program that runs, which even its owner
/// may not write.
const REFUSED: [&str; 4] = [".", "/dev/null", "no folder/ledger", "/proc/self/exe"];

#[test]
fn only_a_file_that_may_be_written_is_attached(rt: HostRuntime) -> Result<(), Fail> {
    for name in REFUSED {
        let mut disk = FileDisk::writer(&rt);
        let attached = disk.attach(name);
        assert_eq!(rt; (attached, disk.faults()), (Err(Failed), 1), "{}", name);
    }
    Ok(())
}
