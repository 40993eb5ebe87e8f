//! Rows that read the block at hand.
ghost use Rattle.std.specs.Prelude.{◌<◌};
ghost use Rattle.imsm_base.specs.Layout.{volume_count_of, map_count_of};
ghost use Rattle.imsm_codec.specs.Mpb.{block_of, volume_at};

use crate::row::Row;
use examine::examine_text;
use imsm_codec::{MpbRef, check, is_first_form, is_whole_disk};
use imsm_view::{Volume, volume_of};
use std::io;
use units::{Slot, VolNo};

/// Prints whether so many first bytes begin with a whole block, and else what is wrong with them.
pub(crate) fn check_front(rt: &HostRuntime, row: &mut Row<'_>, bytes: &[u8]) -> io::Result<()> {
    let front = bytes.get(..row.number() as usize).unwrap_or(bytes);
    match check(front) {
        Ok(mpb) => println!(rt; "whole {}", mpb.size()),
        Err(fault) => println!(rt; "{fault:?}"),
    }
}

fn print_header(rt: &HostRuntime, mpb: &MpbRef<'_>) -> io::Result<()> {
    let (size, sum, tail) = (mpb.size(), mpb.checksum(), mpb.tail_size());
    let (family, orig) = (mpb.family(), mpb.orig_family());
    let (generation, attributes) = (mpb.generation(), mpb.attributes());
    let (disks, volumes) = (mpb.disks(), mpb.volumes());
    println!(rt; "size {size} checksum {sum:08x} family {family:08x} orig {orig:08x}")?;
    println!(rt;
        "generation {generation} attributes {attributes} disks {disks} volumes {volumes} tail {tail}"
    )
}

fn print_disks(rt: &HostRuntime, mpb: &MpbRef<'_>) -> io::Result<()> {
    for i in 0..mpb.disks() {
        let serial = mpb.disk_serial(i);
        let (blocks, status) = (mpb.disk_blocks(i), mpb.disk_status(i));
        println!(rt; "disk {i} {serial:?} blocks {blocks} status {status}")?;
    }
    Ok(())
}

fn print_map(rt: &HostRuntime, mpb: &MpbRef<'_>, v: VolNo, m: u8) -> io::Result<()>
    requires volume { v.0 < volume_count_of (block_of mpb.now) }
    requires map { m < map_count_of (volume_at v.0 (block_of mpb.now)) }
{
    let (pba, blocks, stripes) = (
        mpb.map_pba(v, m),
        mpb.map_blocks(v, m),
        mpb.map_stripes(v, m),
    );
    let (strip, state) = (mpb.map_strip(v, m), mpb.map_state(v, m));
    let (level, members) = (mpb.map_level(v, m), mpb.map_members(v, m));
    println!(rt;
        "map {m} pba {pba} blocks {blocks} stripes {stripes} strip {strip} state {state}"
    )?;
    println!(rt; "map {m} level {level} members {members}")?;
    for slot in 0..members {
        let ord = mpb.map_ord(v, m, Slot(slot));
        println!(rt; "map {m} slot {slot} {ord}")?;
    }
    Ok(())
}

fn print_volume(rt: &HostRuntime, mpb: &MpbRef<'_>, v: VolNo) -> io::Result<()>
    requires { v.0 < volume_count_of (block_of mpb.now) }
{
    let (name, size, policy) = (mpb.vol_name(v), mpb.vol_size(v), mpb.vol_policy(v));
    let (state, kind, dirty) = (mpb.migr_state(v), mpb.migr_type(v), mpb.dirty(v));
    let (unit, checkpoint, maps) = (mpb.unit(v), mpb.checkpoint(v), mpb.maps(v));
    println!(rt; "volume {name:?} size {size} policy {policy}")?;
    println!(rt;
        "migration {state} type {kind} unit {unit} checkpoint {checkpoint} dirty {dirty} maps {maps}"
    )?;
    for m in 0..maps {
        print_map(rt, mpb, v, m)?;
    }
    Ok(())
}

/// Prints each field of a block that has a reader.
pub(crate) fn read_block(rt: &HostRuntime, bytes: &[u8]) -> io::Result<()> {
    let Ok(mpb) = check(bytes) else {
        return println!(rt; "not whole");
    };
    print_header(rt, &mpb)?;
    print_disks(rt, &mpb)?;
    for v in 0..mpb.volumes() {
        print_volume(rt, &mpb, VolNo(v))?;
    }
    Ok(())
}

/// Prints whether a block is of the first form, and whether the disk of a serial and so many sectors is whole by it.
pub(crate) fn tell_form(rt: &HostRuntime, row: &mut Row<'_>, bytes: &[u8]) -> io::Result<()> {
    let Ok(mpb) = check(bytes) else {
        return println!(rt; "not whole");
    };
    let first = is_first_form(&mpb);
    let whole = is_whole_disk(&mpb, &row.serial(), row.number());
    println!(rt; "first form {first} whole disk {whole}")
}

fn print_view(rt: &HostRuntime, view: &Volume) -> io::Result<()> {
    let geometry = view.geometry;
    let (state, dirty, pass) = (view.state, view.dirty, view.pass);
    let (unit, checkpoint) = (view.unit, view.checkpoint);
    let (runs, unfinished) = (view.can_run(), view.unfinished());
    let (degraded, wants) = (view.degraded(), view.wants_pass());
    println!(rt; "{geometry:?}")?;
    println!(rt; "state {state} dirty {dirty} pass {pass:?} unit {unit} checkpoint {checkpoint}")?;
    for slot in view.slots.as_slice() {
        println!(rt; "{slot:?}")?;
    }
    println!(rt; "runs {runs} unfinished {unfinished} degraded {degraded} wants a pass {wants}")
}

/// Prints the view of a volume, or why there is none.
pub(crate) fn view_volume(rt: &HostRuntime, row: &mut Row<'_>, bytes: &[u8]) -> io::Result<()> {
    let Ok(mpb) = check(bytes) else {
        return println!(rt; "not whole");
    };
    let v = VolNo(row.number_of_8());
    if v.0 >= mpb.volumes() {
        return println!(rt; "no volume");
    }
    match volume_of(&mpb, v) {
        Ok(view) => print_view(rt, &view),
        Err(fault) => println!(rt; "{fault:?}"),
    }
}

/// Prints what a block says.
pub(crate) fn examine_block(rt: &HostRuntime, bytes: &[u8]) -> io::Result<()> {
    let Ok(mpb) = check(bytes) else {
        return println!(rt; "not whole");
    };
    let Ok(text) = examine_text(rt.alloc(), &mpb) else {
        return println!(rt; "memory");
    };
    match str::from_utf8(text.as_slice()) {
        Ok(text) => print!(rt; "{text}"),
        Err(_) => println!(rt; "no text"),
    }
}
