use outside::{Files, LoadAnswer, PutAnswer, RealErr, RealFiles, RealOut, Sink, read_whole};
use std::alloc::{AllocError, Global};
use std::io::{Read, Write};
use std::test::Fail;
use std::{fs, io};

/// More than one piece of a reader, and many.
const LENGTHS: [u64; 3] = [4096, 4097, 100_000];

// So many bytes, of which no two that stand 4,096 apart are equal.
fn bytes_of(alloc: Global, length: u64) -> Result<Vec<u8>, AllocError> {
    let mut bytes = Vec::new(alloc);
    for place in 0..length {
        bytes.push((place % 251) as u8)?;
    }
    Ok(bytes)
}

#[test]
fn a_real_file_is_loaded_whole(rt: HostRuntime) -> Result<(), Fail> {
    let name = "outside_test_file.bin";
    let mut files = RealFiles::make(rt.alloc(), &rt);
    for length in LENGTHS {
        let content = bytes_of(rt.alloc(), length)?;
        fs::write(&rt, name, content.as_slice())?;
        let whole = files.load(name, length);
        let long = files.load(name, length.saturating_sub(1));
        fs::remove_file(&rt, name)?;
        assert_eq!(rt; whole?.as_slice(), content.as_slice());
        assert_eq!(rt; long.err(), Some(LoadAnswer::TooLong));
    }
    assert_eq!(rt; files.load(name, 9).err(), Some(LoadAnswer::Failed));
    Ok(())
}

/// A reader that fails once it has given its bytes.
#[derive(Drop)]
struct Failing<'a>(&'a [u8]);

impl Read for Failing<'_> {
    fn read(&mut self, buf: &mut [u8]) -> io::Result<usize> {
        if self.0.is_empty() {
            return Err(io::Error::from(io::ErrorKind::TimedOut));
        }
        self.0.read(buf)
    }
}

#[test]
fn a_reader_that_fails_in_mid_stream_gives_a_fault(rt: HostRuntime) -> Result<(), Fail> {
    let content = bytes_of(rt.alloc(), 4097)?;
    let loaded = read_whole(rt.alloc(), &mut Failing(&content), 9999);
    assert_eq!(rt; loaded.err(), Some(LoadAnswer::Failed));
    let loaded = read_whole(rt.alloc(), &mut content.as_slice(), 9999)?;
    assert_eq!(rt; loaded.as_slice(), content.as_slice());
    Ok(())
}

#[test]
fn real_output_takes_whole_pieces(rt: HostRuntime) -> Result<(), Fail> {
    for length in LENGTHS {
        let piece = bytes_of(rt.alloc(), length)?;
        let mut written = Vec::new(rt.alloc());
        RealOut::make(&mut written).put(&piece)?;
        RealErr::make(&mut written).put(&[7])?;
        assert!(rt; written.starts_with(piece.as_slice()));
        assert_eq!(rt; written.len(), piece.len() + 1);
        assert_eq!(rt; written.last(), Some(&7));
    }
    RealOut::make(io::writer(&rt)).put(b"to standard output\n")?;
    RealErr::make(rt.stderr()).put(b"to standard error\n")?;
    Ok(())
}

/// A writer that takes so many bytes at a time at most.
#[derive(Drop)]
struct Sipping<'a> {
    most: usize,
    taken: &'a mut Vec<u8>,
}

impl Write for Sipping<'_> {
    fn write(&mut self, buf: &[u8]) -> io::Result<usize> {
        let count = buf.len().min(self.most);
        self.taken.extend_from_slice(&buf[..count])?;
        Ok(count)
    }

    fn flush(&mut self) -> io::Result<()> {
        Ok(())
    }
}

#[test]
fn writers_may_take_a_byte_at_a_time_and_not_nothing(rt: HostRuntime) -> Result<(), Fail> {
    let piece = bytes_of(rt.alloc(), 4097)?;
    let mut taken = Vec::new(rt.alloc());
    let mut out = RealOut::make(Sipping {
        most: 1,
        taken: &mut taken,
    });
    out.put(&piece)?;
    assert_eq!(rt; taken.as_slice(), piece.as_slice());
    let mut err = RealErr::make(Sipping {
        most: 1,
        taken: &mut taken,
    });
    err.put(&[7, 8])?;
    assert!(rt; taken.starts_with(piece.as_slice()));
    assert!(rt; taken.ends_with([7, 8].as_slice()));
    let mut nothing = Vec::new(rt.alloc());
    let mut out = RealOut::make(Sipping {
        most: 0,
        taken: &mut nothing,
    });
    assert_eq!(rt; out.put(&piece), Err(PutAnswer::Failed));
    let mut err = RealErr::make(Sipping {
        most: 0,
        taken: &mut nothing,
    });
    assert_eq!(rt; err.put(&piece), Err(PutAnswer::Failed));
    assert!(rt; nothing.is_empty());
    Ok(())
}

/// A writer that takes all, and whose flush fails.
#[derive(Drop)]
struct Clogged<'a>(&'a mut Vec<u8>);

impl Write for Clogged<'_> {
    fn write(&mut self, buf: &[u8]) -> io::Result<usize> {
        self.0.extend_from_slice(buf)?;
        Ok(buf.len())
    }

    fn flush(&mut self) -> io::Result<()> {
        Err(io::Error::from(io::ErrorKind::TimedOut))
    }
}

#[test]
fn a_flush_that_fails_is_a_fault(rt: HostRuntime) -> Result<(), Fail> {
    let mut taken = Vec::new(rt.alloc());
    let mut out = RealOut::make(Clogged(&mut taken));
    assert_eq!(rt; out.put(b"all of it"), Err(PutAnswer::Failed));
    assert!(rt; taken.as_slice() == b"all of it".as_slice());
    Ok(())
}

#[test]
fn a_file_is_loaded_after_a_load_that_failed(rt: HostRuntime) -> Result<(), Fail> {
    let name = "outside_test_after.bin";
    let content = bytes_of(rt.alloc(), 4097)?;
    fs::write(&rt, name, content.as_slice())?;
    let mut files = RealFiles::make(rt.alloc(), &rt);
    let absent = files.load("outside_test_absent.bin", 9999);
    let long = files.load(name, 4096);
    let whole = files.load(name, 4097);
    fs::remove_file(&rt, name)?;
    assert_eq!(rt; absent.err(), Some(LoadAnswer::Failed));
    assert_eq!(rt; long.err(), Some(LoadAnswer::TooLong));
    assert_eq!(rt; whole?.as_slice(), content.as_slice());
    Ok(())
}
