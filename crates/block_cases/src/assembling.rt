//! Verdicts on a mirror of two disks of 4,096 sectors, A and B.
ghost use Rattle.std.specs.Prelude.{IfOk};
ghost use Rattle.container.specs.Seen.{IsSound};

use crate::mirror::serial;
use container::{
    AssembleFault, DiskRole, Lack, Missing, Opening, Seen, SeenAs, Verdict, VolumeVerdict, judge,
};
use generation_pick::PickFault;
use imsm_base::{get_u32, put_u32};
use imsm_buffer::MpbBuf;
use imsm_codec::check;
use mpb_store::StoreFault;
use std::alloc::Global;
use std::process::Abort;
use std::test::Fail;
use units::DiskNo;

type Bytes = [u8; 480];

/// The block of the mirror, with this family and generation.
fn mirror(family: u32, generation: u32) -> Bytes {
    let mut bytes = [0; 480];
    bytes[..30].copy_from_slice(b"Intel Raid ISM Cfg Sig. 1.3.00");
    put_u32(&mut bytes, 0x24, 480);
    put_u32(&mut bytes, 0x28, family);
    put_u32(&mut bytes, 0x2C, generation);
    bytes[0x38] = 2;
    bytes[0x39] = 1;
    for (at, letter) in [(216, b'A'), (264, b'B')] {
        bytes[at] = letter;
        put_u32(&mut bytes, at + 16, 4096);
        put_u32(&mut bytes, at + 24, 2);
    }
    // the volume has 1,024 sectors, and its map 1,024 rows in strips of 128
    put_u32(&mut bytes, 328, 1024);
    put_u32(&mut bytes, 428, 1024);
    put_u32(&mut bytes, 432, 8);
    bytes[436] = 128;
    bytes[439..444].copy_from_slice(&[1, 2, 2, 0xFF, 1]);
    bytes[476] = 1;
    let mut sum: u32 = 0;
    for word in 0..120 {
        sum = sum.wrapping_add(get_u32(&bytes, 4 * word));
    }
    put_u32(&mut bytes, 0x20, sum);
    bytes
}

/// A disk with a whole block.
fn whole(
    rt: &impl Abort,
    alloc: Global,
    disk: u8,
    letter: u8,
    sectors: u64,
    bytes: &Bytes,
) -> Result<Seen, Fail>
    ensures { IfOk result (λ s. IsSound s.holds) }
{
    let Ok(mpb) = check(bytes) else {
        panic!(rt; "whole");
    };
    let Ok(block) = MpbBuf::from_ref(alloc, &mpb, 8192) else {
        panic!(rt; "memory");
    };
    Ok(Seen {
        disk: DiskNo(disk),
        serial: serial(letter),
        sectors,
        holds: SeenAs::Whole(block),
    })
}

fn blank(disk: u8, letter: u8) -> Seen
    ensures { IsSound result.holds }
{
    Seen {
        disk: DiskNo(disk),
        serial: serial(letter),
        sectors: 4096,
        holds: SeenAs::Blank,
    }
}

fn opened(rt: &impl Abort, verdict: Result<Verdict, AssembleFault>) -> Opening {
    match verdict {
        Ok(Verdict::Ready(opening)) => opening,
        _ => panic!(rt; "not opened"),
    }
}

fn one_of(rt: &impl Abort, verdict: &Verdict) -> Missing {
    match verdict {
        Verdict::Waiting { list, .. } => {
            assert!(rt; list.len() == 1);
            list[0]
        }
        _ => panic!(rt; "not waiting"),
    }
}

/// The one disk that is waited for.
fn waited(rt: &impl Abort, verdict: Result<Verdict, AssembleFault>) -> Missing {
    match verdict {
        Ok(verdict) => one_of(rt, &verdict),
        Err(_) => panic!(rt; "memory"),
    }
}

/// How many disks are waited for.
fn waiting_count(rt: &impl Abort, verdict: Result<Verdict, AssembleFault>) -> usize {
    match &verdict {
        Ok(Verdict::Waiting { list, .. }) => list.len(),
        _ => panic!(rt; "not waiting"),
    }
}

#[test]
fn a_mirror_is_opened_by_its_newest_block(rt: HostRuntime) -> Result<(), Fail> {
    let alloc = rt.alloc();
    let old = mirror(7, 1);
    let new = mirror(7, 2);
    let seen = [
        blank(0, b'X'),
        whole(&rt, alloc, 3, b'B', 4096, &new)?,
        whole(&rt, alloc, 5, b'A', 4096, &old)?,
    ];
    let opening = opened(&rt, judge(alloc, &seen, false));
    assert_eq!(rt; opening.book.bytes(), new.as_slice());
    assert_eq!(rt; (opening.family, opening.generation), (7, 2));
    let volumes = [VolumeVerdict::Started(None)];
    assert_eq!(rt; opening.volumes.as_slice(), volumes.as_slice());
    let roles = [DiskRole::Blank, DiskRole::Member(1), DiskRole::Member(0)];
    assert_eq!(rt; opening.disks.as_slice(), roles.as_slice());
    Ok(())
}

#[test]
fn an_expected_disk_is_waited_for(rt: HostRuntime) -> Result<(), Fail> {
    let alloc = rt.alloc();
    let block = mirror(7, 1);
    let alone = [whole(&rt, alloc, 0, b'A', 4096, &block)?];
    let absent = waited(&rt, judge(alloc, &alone, false));
    assert_eq!(rt; (absent.serial, absent.cause), (serial(b'B'), Lack::Absent));
    let small = [
        whole(&rt, alloc, 0, b'A', 4096, &block)?,
        whole(&rt, alloc, 1, b'B', 2000, &block)?,
    ];
    let torn = waited(&rt, judge(alloc, &small, false));
    assert_eq!(rt; torn.cause, Lack::Torn(StoreFault::Small(4096, 2000)));
    Ok(())
}

#[test]
fn a_disk_that_lacks_is_done_without_where_that_is_asked(rt: HostRuntime) -> Result<(), Fail> {
    let alloc = rt.alloc();
    let block = mirror(7, 1);
    let alone = [whole(&rt, alloc, 0, b'A', 4096, &block)?];
    let opening = opened(&rt, judge(alloc, &alone, true));
    // its slot counts as out of sync and is still expected, so that a pass is wanted
    let volumes = [VolumeVerdict::Degraded(Some(0))];
    assert_eq!(rt; opening.volumes.as_slice(), volumes.as_slice());
    assert_eq!(rt; opening.disks.as_slice(), [DiskRole::Member(0)].as_slice());
    Ok(())
}

#[test]
fn where_no_volume_starts_all_disks_are_waited_for(rt: HostRuntime) -> Result<(), Fail> {
    let alloc = rt.alloc();
    let small = [whole(&rt, alloc, 0, b'A', 2000, &mirror(7, 1))?];
    assert_eq!(rt; waiting_count(&rt, judge(alloc, &small, true)), 2);
    Ok(())
}

#[test]
fn what_is_no_one_container_is_refused(rt: HostRuntime) -> Result<(), Fail> {
    let alloc = rt.alloc();
    let none = [blank(0, b'A')];
    match judge(alloc, &none, false) {
        Ok(Verdict::Refused(fault)) => assert_eq!(rt; fault, PickFault::None),
        _ => panic!(rt; "none"),
    }
    let two = [
        whole(&rt, alloc, 0, b'A', 4096, &mirror(7, 1))?,
        whole(&rt, alloc, 1, b'B', 4096, &mirror(8, 1))?,
    ];
    match judge(alloc, &two, false) {
        Ok(Verdict::Refused(fault)) => assert_eq!(rt; fault, PickFault::Families(7, 8)),
        _ => panic!(rt; "families"),
    }
    let last = mirror(7, 0xFF00_0000);
    let ended = [
        whole(&rt, alloc, 0, b'A', 4096, &last)?,
        whole(&rt, alloc, 1, b'B', 4096, &last)?,
    ];
    match judge(alloc, &ended, false) {
        Ok(Verdict::GenerationEnd { generation, .. }) => {
            assert_eq!(rt; generation, 0xFF00_0000);
        }
        _ => panic!(rt; "generation"),
    }
    Ok(())
}
