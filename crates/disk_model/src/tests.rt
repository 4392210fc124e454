ghost use Rattle.std.specs.Prelude.{◌≡◌};

use crate::{Disk, DiskFailed, FuseDisk, Image, MemDisk, Pick, RawFiles, Requests, UntoldDisk};
use std::test::Fail;

/// Six calls on file 0: bytes, a sync, bytes over its end, a cut, a gap, and a sync.
fn run_script<D: Disk>(disk: &mut D) -> Result<(), DiskFailed> {
    disk.write_at(0, 0, &[1, 2, 3, 4])?;
    disk.sync(0)?;
    disk.write_at(0, 3, &[7, 8, 9])?;
    disk.cut(0, 2)?;
    disk.write_at(0, 4, &[5])?;
    disk.sync(0)
}

#[test]
fn each_moment_has_its_images(rt: HostRuntime) -> Result<(), Fail> {
    let four: &[u8] = &[1, 2, 3, 4];
    let five: &[u8] = &[1, 2, 0, 0, 5];
    let rows: [(u64, &[u8], &[u8], &[u8]); 7] = [
        (0, &[], &[], &[]),
        (1, &[], four, &[255, 255, 255, 255]),
        (2, four, four, four),
        (3, four, &[1, 2, 3, 7, 8, 9], &[1, 2, 3, 255, 255, 255]),
        (4, &[1, 2], &[1, 2], &[1, 2, 255, 255, 255, 255]),
        (5, &[1, 2], five, &[1, 2, 255, 255, 255, 255]),
        (6, five, five, five),
    ];
    let mut disk = MemDisk::new(rt.alloc());
    run_script(&mut disk)?;
    let clock = disk.clock();
    assert_eq!(rt; clock, 6);
    for (moment, old, new, filled) in rows {
        assert!(rt; moment <= clock);
        for (pick, want) in [
            (Pick::Old, old),
            (Pick::New, new),
            (Pick::Fill(255), filled),
        ] {
            let image = disk.after_crash(moment, pick)?.image()?;
            assert_eq!(rt; image.get(0).unwrap_or(&[]), want, "at {moment}");
        }
    }
    Ok(())
}

#[test]
fn an_image_is_held_durably(rt: HostRuntime) -> Result<(), Fail> {
    let mut image = Image::new(rt.alloc());
    image.put(3, &[1])?;
    image.put(3, &[1, 2])?;
    assert_eq!(rt; image.get(4), None);
    let disk = MemDisk::from_image(rt.alloc(), &image)?;
    let left = disk.after_crash(0, Pick::Fill(9))?.image()?;
    assert_eq!(rt; left.get(3).unwrap_or(&[]), [1, 2].as_slice());
    Ok(())
}

#[test]
fn a_call_fails_where_it_is_made_to(rt: HostRuntime) -> Result<(), Fail> {
    let mut disk = MemDisk::new(rt.alloc());
    disk.fail_at(&[3, 5])?;
    disk.write_at(1, 0, &[1, 2, 3])?;
    let mut buf = [0; 2];
    assert_eq!(rt; disk.read(1, 1, &mut buf), Ok(2));
    assert_eq!(rt; buf, [2, 3]);
    assert_eq!(rt; disk.cut(1, 1), Err(DiskFailed));
    assert_eq!(rt; disk.len(1), Ok(3));
    assert_eq!(rt; disk.read(1, 0, &mut buf), Err(DiskFailed));
    assert_eq!(rt; disk.read(1, 0, &mut buf), Ok(2));
    for call in disk.calls() {
        assert!(rt; call.done == (call.number != 3 && call.number != 5));
    }
    assert_eq!(rt; disk.calls().len(), 6);
    Ok(())
}

#[test]
fn a_fuse_passes_so_many_calls(rt: HostRuntime) -> Result<(), Fail> {
    for calls in 0..7 {
        let mut fuse = FuseDisk::new(MemDisk::new(rt.alloc()), calls);
        assert_eq!(rt; run_script(&mut fuse).is_ok(), calls == 6);
        let clock = fuse.clock();
        assert_eq!(rt; clock, if calls < 6 { calls + 1 } else { 6 });
        assert_eq!(rt; fuse.into_inner().calls().len() as u64, calls);
    }
    Ok(())
}

/// Files that fail at their last call, tell more bytes than fit, and keep what they were asked.
#[derive(Drop)]
struct Files {
    calls: u8,
    requests: Requests,
}

impl Files {
    fn answer(&mut self) -> Result<(), DiskFailed>
        ensures { self.new.requests ≡ self.old.requests }
    {
        if self.calls == 0 {
            return Err(DiskFailed);
        }
        self.calls -= 1;
        Ok(())
    }
}

impl RawFiles for Files {
    ghost requests = { λ f. f.requests.items };

    fn len(&mut self, file: u32) -> Result<u64, DiskFailed> {
        self.requests.add_len(file);
        self.answer()?;
        Ok(7)
    }

    fn read(&mut self, file: u32, at: u64, buf: &mut [u8]) -> Result<usize, DiskFailed> {
        self.requests.add_read(file, at, buf.len());
        self.answer()?;
        Ok(7)
    }

    fn write_at(&mut self, file: u32, at: u64, bytes: &[u8]) -> Result<(), DiskFailed> {
        self.requests.add_write(file, at, bytes);
        self.answer()
    }

    fn cut(&mut self, file: u32, length: u64) -> Result<(), DiskFailed> {
        self.requests.add_cut(file, length);
        self.answer()
    }

    fn sync(&mut self, file: u32) -> Result<(), DiskFailed> {
        self.requests.add_sync(file);
        self.answer()
    }
}

#[test]
fn a_disk_that_tells_nothing_passes_its_answers(rt: HostRuntime) -> Result<(), Fail> {
    let mut disk = UntoldDisk::new(Files {
        calls: 8,
        requests: Requests::new(),
    });
    run_script(&mut disk)?;
    assert_eq!(rt; disk.len(0), Ok(7));
    assert_eq!(rt; disk.read(0, 0, &mut [0; 3]), Ok(3));
    assert_eq!(rt; disk.sync(0), Err(DiskFailed));
    assert_eq!(rt; disk.clock(), 9);
    assert_eq!(rt; disk.into_inner().calls, 0);
    Ok(())
}
