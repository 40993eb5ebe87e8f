//! The program: it hands the words of its command line to the top call, `image_main` of `image_run`, over files,
//! standard input and standard output, and ends with the status that is answered.
//!
//! It owes that its shelf, source and sink keep what the traits of `image_outside` ask: an opened file is the next
//! disk under its serial, a file that can't be opened changes nothing but the count of faults, and each failed call is
//! counted. What files hold no clause says. Nothing stands on it.
#![tactic(auto)]

mod shelf;
mod sink;
mod source;

use image_run::{Status, end_without_memory, image_main};
use shelf::FileShelf;
use sink::OutSink;
use source::InSource;
use std::alloc::AllocError;
use std::io::ErrorKind;
use std::process::ExitCode;
use std::rt::Env;
use std::{env, io};

/// The words after the program's name. A word that isn't UTF-8 makes the command line faulty: then no words are
/// answered, which are no command either.
fn words(rt: &(impl Env + AllocGlobal)) -> Result<Vec<String>, AllocError> {
    match env::args(rt) {
        Ok(args) => args.skip(1).collect(rt.alloc()),
        Err(error) if error.kind() == ErrorKind::OutOfMemory => Err(AllocError),
        Err(_) => Ok(Vec::new(rt.alloc())),
    }
}

fn main(rt: HostRuntime) -> ExitCode {
    let alloc = rt.alloc();
    let mut shelf = FileShelf::new(alloc, &rt);
    let mut source = InSource::new(rt.reader());
    let mut sink = OutSink::new(io::writer(&rt));
    let Status(number) = match words(&rt) {
        Ok(words) => image_main(alloc, words.as_slice(), &mut shelf, &mut source, &mut sink),
        Err(AllocError) => end_without_memory(&mut sink),
    };
    ExitCode::from(number)
}

#[cfg(test)]
mod tests {
    use super::*;
    use image_run::{Sink, SourceFault, read_all};
    use std::fs;
    use std::fs::File;
    use std::io::{Read, Write};
    use std::os::unix::fs::FileExt;
    use std::test::Fail;

    /// Makes a file with a metadata block, whose anchor begins at a byte, and one sector behind it. Bytes are put at
    /// these places of the block; all others are 0.
    fn write_block(
        rt: &HostRuntime,
        path: &str,
        anchor: u64,
        parts: &[(u64, &[u8])],
    ) -> io::Result<()> {
        let file = File::create(rt, path)?;
        file.write_all_at(&[0; 512], anchor.saturating_add(512))?;
        for (at, bytes) in parts {
            file.write_all_at(bytes, anchor.saturating_add(*at))?;
        }
        Ok(())
    }

    /// An image of 4,096 sectors with the metadata block of a new mirror of two disks, A and B.
    fn write_image(rt: &HostRuntime, path: &str) -> io::Result<()> {
        let disk = [0, 0x10, 0, 0, 0, 0, 0, 0, 2];
        write_block(
            rt,
            path,
            4094 * 512,
            &[
                (0, b"Intel Raid ISM Cfg Sig. 1.3.00"),
                (32, &[0x0b, 0x51, 0x70, 0x47, 0xe0, 1, 0, 0]),
                (40, &[0x59, 0x70, 0x25, 0x6d, 1]),
                (56, &[2, 1, 0, 0, 0, 0, 0, 0, 0x59, 0x70, 0x25, 0x6d]),
                (216, b"A"),
                (232, &disk),
                (264, b"B"),
                (280, &disk),
                (312, b"Volume0"),
                (329, &[4]),
                (429, &[4, 0, 0, 8, 0, 0, 0, 0x80, 0, 0, 1, 2, 2, 0xff, 1]),
                (476, &[1]),
            ],
        )
    }

    /// An image of 976,773,168 sectors, of which all but its last two are a hole, with the metadata block of a mirror
    /// of 927,989,760 rows over two such disks.
    fn write_large_image(rt: &HostRuntime, path: &str) -> io::Result<()> {
        write_block(
            rt,
            path,
            976_773_166 * 512,
            &[
                (0, b"Intel Raid ISM Cfg Sig. 1.1.00"),
                (32, &[0x26, 0x2e, 0x02, 0xcd, 0xe0, 1, 0, 0]),
                (40, &[0xc4, 0xb2, 0x31, 0x53, 0x73, 7]),
                (55, &[0x80, 2, 1, 0, 0, 0, 0, 0, 0, 0xc4, 0xb2, 0x31, 0x53]),
                (216, b"S2R6NX0H100001"),
                (232, &[0x30, 0x60, 0x38, 0x3a, 0, 0, 0, 0, 0x3a, 1]),
                (264, b"S2R6NX0H100002"),
                (280, &[0x30, 0x60, 0x38, 0x3a, 0, 0, 1, 0, 0x3a, 1]),
                (312, b"Main"),
                (328, &[0, 0, 0x50, 0x37]),
                (
                    428,
                    &[
                        0, 1, 0x50, 0x37, 0, 0x50, 0x37, 0, 0x80, 0, 0, 1, 2, 2, 0xff, 1,
                    ],
                ),
                (476, &[1]),
            ],
        )
    }

    fn run<K: Sink>(
        rt: &HostRuntime,
        words: &[&str],
        script: &str,
        sink: &mut K,
    ) -> Result<u8, AllocError> {
        let alloc = rt.alloc();
        let mut all = Vec::new(alloc);
        for word in words {
            all.push(String::from_str(alloc, word)?)?;
        }
        let mut shelf = FileShelf::new(alloc, rt);
        let mut source = InSource::new(script.as_bytes());
        let Status(number) = image_main(alloc, all.as_slice(), &mut shelf, &mut source, sink);
        Ok(number)
    }

    /// Whether a command ends since it can't open its image B.
    fn has_no_b(rt: &HostRuntime, words: &[&str], script: &str) -> Result<bool, AllocError> {
        let mut lines = Vec::new(rt.alloc());
        let status = run(rt, words, script, &mut OutSink::new(&mut lines))?;
        Ok(status == 7 && lines.as_slice() == b"open B\n".as_slice())
    }

    /// A writer that takes all bytes, and can't bring them on.
    #[derive(Drop)]
    struct Unflushed;

    impl Write for Unflushed {
        fn write(&mut self, from: &[u8]) -> io::Result<usize> {
            Ok(from.len())
        }

        fn flush(&mut self) -> io::Result<()> {
            Err(io::Error::from(ErrorKind::StorageFull))
        }
    }

    /// A reader that gives nothing, and doesn't end.
    #[derive(Drop)]
    struct Unread;

    impl Read for Unread {
        fn read(&mut self, _into: &mut [u8]) -> io::Result<usize> {
            Err(io::Error::from(ErrorKind::IsADirectory))
        }
    }

    #[test]
    fn input_is_read_to_its_end(rt: HostRuntime) -> Result<(), Fail> {
        let alloc = rt.alloc();
        let script = b"client 0 read 0 7\n";
        let mut input = InSource::new(script.as_slice());
        match read_all(alloc, &mut input) {
            Ok(bytes) => assert_eq!(rt; bytes.as_slice(), script.as_slice()),
            Err(fault) => assert_eq!(rt; Some(fault), None),
        }
        let mut input = InSource::new(Unread);
        assert_eq!(rt;
            read_all(alloc, &mut input).err(),
            Some(SourceFault::Failed)
        );
        Ok(())
    }

    #[test]
    fn a_mirror_starts_from_two_files(rt: HostRuntime) -> Result<(), Fail> {
        write_image(&rt, "a.img")?;
        write_image(&rt, "b.img")?;
        let both = ["assemble", "A=a.img", "B=b.img"];
        let mut lines = Vec::new(rt.alloc());
        assert_eq!(rt; run(&rt, &both, "", &mut OutSink::new(&mut lines))?, 0);
        let told =
            b"family 6d257059 generation 1\nvolume 0 started\ndisk A member\ndisk B member\n";
        assert_eq!(rt; lines.as_slice(), told.as_slice());
        assert_eq!(rt; run(&rt, &both, "", &mut OutSink::new(Unflushed))?, 6);
        fs::remove_file(&rt, "b.img")?;
        for missing in ["B=b.img", "B=.", "B=/dev/null"] {
            assert!(rt; has_no_b(&rt, &["assemble", "A=a.img", missing], "")?);
        }
        fs::remove_file(&rt, "a.img")?;
        Ok(())
    }

    #[test]
    fn a_mirror_of_realistic_size_starts_from_sparse_files(rt: HostRuntime) -> Result<(), Fail> {
        write_large_image(&rt, "g.img")?;
        write_large_image(&rt, "h.img")?;
        let both = ["assemble", "S2R6NX0H100001=g.img", "S2R6NX0H100002=h.img"];
        let mut lines = Vec::new(rt.alloc());
        assert_eq!(rt; run(&rt, &both, "", &mut OutSink::new(&mut lines))?, 0);
        let told =
            b"family 5331b2c4 generation 1907\nvolume 0 started\ndisk S2R6NX0H100001 member\n\
            disk S2R6NX0H100002 member\n";
        assert_eq!(rt; lines.as_slice(), told.as_slice());
        fs::remove_file(&rt, "g.img")?;
        fs::remove_file(&rt, "h.img")?;
        Ok(())
    }

    /// A replay runs once no other open of an image has a lock on it, also none of the same command.
    #[test]
    fn a_write_is_read_back_from_two_files(rt: HostRuntime) -> Result<(), Fail> {
        write_image(&rt, "c.img")?;
        write_image(&rt, "d.img")?;
        let words = ["replay", "A=c.img", "B=d.img"];
        let script = "client 0 write 0 5 1122334455667788\nclient 0 read 0 5\n";
        let unchanged = fs::read(&rt, "d.img")?;
        let reader = File::open(&rt, "d.img")?;
        reader.lock_shared()?;
        assert!(rt; has_no_b(&rt, &words, script)?);
        drop(reader);
        let twice = ["replay", "A=c.img", "B=./c.img"];
        assert!(rt; has_no_b(&rt, &twice, script)?);
        assert!(rt; fs::read(&rt, "c.img")? == unchanged && fs::read(&rt, "d.img")? == unchanged);
        let mut lines = Vec::new(rt.alloc());
        assert_eq!(rt; run(&rt, &words, script, &mut OutSink::new(&mut lines))?, 0);
        let told =
            b"0 begin 2\n4 end 2\n4 ready 0\n4 submit 0\n4 pending 0\n4 begin 3\n8 end 3\n8 active 0\n\
            12 ack 0 done\n12 submit 1\n13 ack 1 value 1122334455667788\n13 idle 0\n13 clean 0\n13 begin 4\n\
            17 end 4\ndone\n";
        assert_eq!(rt; lines.as_slice(), told.as_slice());
        let value = [0x11, 0x22, 0x33, 0x44, 0x55, 0x66, 0x77, 0x88];
        for path in ["c.img", "d.img"] {
            let file = File::open(&rt, path)?;
            let mut bytes = [0; 8];
            file.read_exact_at(&mut bytes, 5 * 512 + 504)?;
            assert_eq!(rt; bytes, value);
            fs::remove_file(&rt, path)?;
        }
        Ok(())
    }

    /// Two files of 64 MiB, of which one has other bytes in row 5.
    #[test]
    fn a_container_is_made_over_two_files(rt: HostRuntime) -> Result<(), Fail> {
        for path in ["e.img", "f.img"] {
            let file = File::create(&rt, path)?;
            file.set_len(131_072 * 512)?;
            file.write_all_at(b"old bytes", 5 * 512)?;
        }
        let made = ["create", "1", "128", "65536", "E=e.img", "F=f.img"];
        let mut lines = Vec::new(rt.alloc());
        assert_eq!(rt; run(&rt, &made, "", &mut OutSink::new(&mut lines))?, 0);
        assert_eq!(rt; lines.as_slice(), b"created 6d2b4a59\n".as_slice());
        let file = File::open(&rt, "f.img")?;
        let mut bytes = [0xee; 9];
        file.read_exact_at(&mut bytes, 5 * 512)?;
        assert_eq!(rt; bytes, [0; 9]);
        let examined = ["examine", "F=f.img"];
        let mut lines = Vec::new(rt.alloc());
        assert_eq!(rt; run(&rt, &examined, "", &mut OutSink::new(&mut lines))?, 0);
        let told =
            b"family 6d2b4a59\norig 6d2b4a59\ngeneration 1\nsize 480\nattributes 00000000\nchecksum 4781df0b\n\
            disk 0 E 131072 00000002\ndisk 1 F 131072 00000002\nvolume 0 Volume0 65536\ndirty 0\n\
            map 0 level 1 members 2 state 0 strip 128 pba 0 blocks 65536\nslot 0 0 in\nslot 1 1 in\n";
        assert_eq!(rt; lines.as_slice(), told.as_slice());
        fs::remove_file(&rt, "e.img")?;
        fs::remove_file(&rt, "f.img")?;
        Ok(())
    }
}
