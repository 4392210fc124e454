use crate::Log;
use base_types::{Limits, StoreFault};
use disk_model::{Disk, FuseDisk, Image, MemDisk, Pick};
use std::alloc::Global;
use std::test::Fail;

const LIMITS: Limits = Limits {
    file_bytes: 64,
    headers: 1,
};

/// How many payloads the log of a file has.
fn count<D: Disk>(alloc: Global, disk: &mut D, file: u32) -> Result<usize, StoreFault> {
    let log = Log::open(alloc, disk, file, &LIMITS)?;
    Ok(log.places().len())
}

#[test]
fn bytes_stand_for_their_payloads(rt: HostRuntime) -> Result<(), Fail> {
    let none: &[u8] = &[];
    let open_gate: &[u8] = &[1];
    let one: &[u8] = &[1, 2, 0, 0, 0, 0xaa, 0xbb, 0];
    let closed: &[u8] = &[0, 2, 0, 0, 0, 0xaa, 0xbb, 0];
    let other: &[u8] = &[0x37, 2, 0, 0, 0, 0xaa, 0xbb, 0];
    let long: &[u8] = &[1, 5, 0, 0, 0, 0xaa, 0xbb, 0];
    let no_gate: &[u8] = &[1, 2, 0, 0, 0, 0xaa, 0xbb];
    let cut_short: &[u8] = &[1, 1, 0, 0, 0, 0xaa, 1, 1, 0];
    let rows: [(&[u8], Result<usize, StoreFault>); 8] = [
        (none, Ok(0)),
        (open_gate, Ok(0)),
        (one, Ok(1)),
        (closed, Ok(0)),
        (other, Ok(0)),
        (long, Err(StoreFault::Damaged { file: 3, at: 0 })),
        (no_gate, Err(StoreFault::Damaged { file: 3, at: 0 })),
        (cut_short, Err(StoreFault::Damaged { file: 3, at: 6 })),
    ];
    for (bytes, want) in rows {
        let mut image = Image::new(rt.alloc());
        image.put(3, bytes)?;
        let mut disk = MemDisk::from_image(rt.alloc(), &image)?;
        assert_eq!(rt; count(rt.alloc(), &mut disk, 3), want);
    }
    Ok(())
}

#[test]
fn a_payload_is_written_and_read(rt: HostRuntime) -> Result<(), Fail> {
    let mut disk = MemDisk::new(rt.alloc());
    let mut log = Log::open(rt.alloc(), &mut disk, 3, &LIMITS)?;
    log.append(&mut disk, &[0xaa, 0xbb])?;
    let mut framed = [9, 9, 9, 9, 0xcc, 9];
    log.append_in_place(&mut disk, &mut framed)?;
    let image = disk.image()?;
    assert_eq!(rt;
        image.get(3).unwrap_or(&[]),
        [1, 2, 0, 0, 0, 0xaa, 0xbb, 1, 1, 0, 0, 0, 0xcc, 0].as_slice()
    );

    // The thirteenth call fails, which is the first read.
    disk.fail_at(&[13])?;
    let places = log.places();
    assert!(rt; places.len() == 2);
    let place = places[0];
    assert!(rt; place.at == 0 && place.len == 2);
    let mut buf = [0; 2];
    assert_eq!(rt;
        log.read(&mut disk, place, &mut buf),
        Err(StoreFault::DiskFailed)
    );
    log.read(&mut disk, place, &mut buf)?;
    assert_eq!(rt; buf, [0xaa, 0xbb]);
    let mut last = [0; 1];
    log.read_part(&mut disk, place, 1, &mut last)?;
    assert_eq!(rt; last, [0xbb]);
    Ok(())
}

#[test]
fn room_ends_at_the_limit(rt: HostRuntime) -> Result<(), Fail> {
    let mut disk = MemDisk::new(rt.alloc());
    let mut log = Log::open(rt.alloc(), &mut disk, 3, &LIMITS)?;
    log.append(&mut disk, &[0xaa, 0xbb])?;
    assert_eq!(rt; log.room(2, 57), Err(StoreFault::Full { file: 3 }));
    assert_eq!(rt;
        log.append(&mut disk, &[7; 52]),
        Err(StoreFault::Full { file: 3 })
    );
    log.room(2, 56)?;
    log.append(&mut disk, &[7; 40])?;
    log.append(&mut disk, &[7; 6])?;
    assert_eq!(rt;
        log.append(&mut disk, &[]),
        Err(StoreFault::Full { file: 3 })
    );
    assert_eq!(rt; count(rt.alloc(), &mut disk, 3), Ok(3));
    Ok(())
}

#[test]
fn a_crash_leaves_each_log_with_or_without(rt: HostRuntime) -> Result<(), Fail> {
    let mut disk = MemDisk::new(rt.alloc());
    let mut first = Log::open(rt.alloc(), &mut disk, 1, &LIMITS)?;
    let mut second = Log::open(rt.alloc(), &mut disk, 2, &LIMITS)?;
    let opened = disk.clock();
    first.append(&mut disk, &[1])?;
    let one = disk.clock();
    second.append(&mut disk, &[1, 1])?;
    let two = disk.clock();
    first.append(&mut disk, &[])?;
    let three = disk.clock();
    let steps = [
        (0, opened, (0, 0), (0, 0)),
        (opened, one, (0, 0), (1, 0)),
        (one, two, (1, 0), (1, 1)),
        (two, three, (1, 1), (2, 1)),
    ];
    let end = disk.clock();
    for (from, until, without, with) in steps {
        for moment in from..=until {
            assert!(rt; moment <= end);
            for pick in [Pick::Old, Pick::New, Pick::Fill(1), Pick::Fill(255)] {
                let mut left = disk.after_crash(moment, pick)?;
                let found = (
                    count(rt.alloc(), &mut left, 1)?,
                    count(rt.alloc(), &mut left, 2)?,
                );
                assert!(rt; found == with || (moment < until && found == without));
            }
        }
    }
    Ok(())
}

fn open_and_append<D: Disk>(alloc: Global, disk: &mut D) -> Result<(), StoreFault> {
    let mut log = Log::open(alloc, disk, 1, &LIMITS)?;
    log.append(disk, &[0xaa, 0xbb])
}

#[test]
fn a_failed_call_leaves_a_log(rt: HostRuntime) -> Result<(), Fail> {
    for calls in 0..9 {
        let mut disk = FuseDisk::new(MemDisk::new(rt.alloc()), calls);
        let answer = open_and_append(rt.alloc(), &mut disk);
        let whole = calls == 8;
        assert_eq!(rt;
            answer,
            if whole {
                Ok(())
            } else {
                Err(StoreFault::DiskFailed)
            }
        );
        let found = count(rt.alloc(), &mut disk.into_inner(), 1)?;
        assert!(rt; found == 1 || (!whole && found == 0));
    }
    Ok(())
}
