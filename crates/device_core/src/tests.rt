//! What the devices do on small files and pieces, and that each call that wants memory succeeds.

ghost use Rattle.std.specs.Prelude.{◌<◌};

use crate::{
    DiskFiles, Files, LoadFault, MemoryFiles, MemorySink, Sink, SinkFault, StdSink, SureFiles,
    SureSink,
};
use std::alloc::{AllocError, Global};
use std::test::Fail;
use std::{fs, io};

fn one_file(alloc: Global) -> Result<Vec<(String, Vec<u8>)>, AllocError> {
    let file = (String::from_str(alloc, "words")?, b"hello".to_vec(alloc)?);
    Ok(vec![in alloc; file]?)
}

// The lines at the head of the crate.
#[test]
fn devices_in_memory(rt: HostRuntime) -> Result<(), Fail> {
    let alloc = rt.alloc();
    let mut files = SureFiles::new(one_file(alloc)?);
    let mut bytes = Vec::new(alloc);
    assert_eq!(rt; files.load("words", 3, &mut bytes), Ok(()));
    assert_eq!(rt; bytes.as_slice(), b"hell".as_slice());

    // The call of number 1 fails once it has kept 2 bytes.
    let mut sink = MemorySink::new(alloc, vec![in alloc; (1, 2)]?);
    assert_eq!(rt; sink.write(bytes.as_slice()), Ok(()));
    assert_eq!(rt; sink.write(b"ish"), Err(SinkFault::Failed));
    assert_eq!(rt; sink.bytes(), b"hellis".as_slice());
    Ok(())
}

#[test]
fn failing_and_sure_devices(rt: HostRuntime) -> Result<(), Fail> {
    let alloc = rt.alloc();
    let mut files = MemoryFiles::new(one_file(alloc)?, vec![in alloc; 0]?);
    let mut bytes = b"before".to_vec(alloc)?;
    assert_eq!(rt; files.load("words", 9, &mut bytes), Err(LoadFault::Failed));
    assert_eq!(rt; bytes.as_slice(), [].as_slice());
    assert_eq!(rt; files.load("words", 9, &mut bytes), Ok(()));
    assert_eq!(rt; files.load("word", 9, &mut bytes), Err(LoadFault::Failed));

    let mut sink = SureSink::new(alloc);
    assert_eq!(rt; sink.write(b"ab"), Ok(()));
    assert_eq!(rt; sink.flush(), Ok(()));
    assert_eq!(rt; sink.bytes(), b"ab".as_slice());
    Ok(())
}

// A writer that takes a byte at a time, and is full after so many.
#[derive(Drop)]
struct Narrow {
    taken: Vec<u8>,
    room: usize,
}

impl io::Write for Narrow {
    fn write(&mut self, buf: &[u8]) -> io::Result<usize> {
        match buf {
            [first, ..] if self.taken.len() < self.room => {
                self.taken.push(*first)?;
                Ok(1)
            }
            _ => Ok(0),
        }
    }

    fn flush(&mut self) -> io::Result<()> {
        if self.taken.len() < self.room {
            Ok(())
        } else {
            Err(io::ErrorKind::StorageFull.into())
        }
    }
}

#[test]
fn a_stream_writes_on_until_nothing_is_taken(rt: HostRuntime) -> Result<(), Fail> {
    let mut narrow = Narrow {
        taken: Vec::new(rt.alloc()),
        room: 4,
    };
    let mut sink = StdSink::new(&mut narrow);
    assert_eq!(rt; sink.write(b"abc"), Ok(()));
    assert_eq!(rt; sink.write(b""), Ok(()));
    assert_eq!(rt; sink.flush(), Ok(()));
    assert_eq!(rt; sink.write(b"de"), Err(SinkFault::Failed));
    assert_eq!(rt; sink.flush(), Err(SinkFault::Failed));
    assert_eq!(rt; narrow.taken.as_slice(), b"abcd".as_slice());
    Ok(())
}

fn write_file(rt: &HostRuntime, name: &str, count: usize) -> io::Result<()> {
    let bytes = vec![in rt.alloc(); b'x'; count]?;
    fs::write(rt, name, bytes.as_slice())
}

fn loaded_len(
    files: &mut impl Files,
    name: &str,
    limit: usize,
    into: &mut Vec<u8>,
) -> Result<usize, LoadFault>
    requires { limit < usize.MAX }
{
    files.load(name, limit, into)?;
    Ok(into.len())
}

#[test]
fn a_file_is_loaded_from_disk(rt: HostRuntime) -> Result<(), Fail> {
    let name = "device_core_test.txt";
    let mut into = b"before".to_vec(rt.alloc())?;
    write_file(&rt, name, 20_000)?;
    let mut files = DiskFiles::new(&rt);
    assert_eq!(rt; loaded_len(&mut files, name, 0, &mut into), Ok(1));
    assert_eq!(rt; loaded_len(&mut files, name, 8191, &mut into), Ok(8192));
    assert_eq!(rt; loaded_len(&mut files, name, 19_998, &mut into), Ok(19_999));
    assert_eq!(rt; loaded_len(&mut files, name, 50_000, &mut into), Ok(20_000));
    fs::remove_file(&rt, name)?;
    // It isn't there any more; a folder opens, and can't be read.
    assert_eq!(rt;
        loaded_len(&mut files, name, 9, &mut into),
        Err(LoadFault::Failed)
    );
    assert_eq!(rt;
        loaded_len(&mut files, ".", 9, &mut into),
        Err(LoadFault::Failed)
    );
    assert_eq!(rt; into.as_slice(), [].as_slice());
    Ok(())
}
