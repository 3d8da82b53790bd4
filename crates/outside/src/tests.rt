//! What no clause says: that calls succeed where there is memory, and worked values.

use crate::host::{HostFiles, HostSink};
use crate::memory::{MemFiles, MemSink};
use crate::steady::{SteadyFiles, SteadySink};
use crate::taking::{TakeFault, take_all};
use crate::traits::{Failed, Sink};
use std::alloc::{AllocError, Global};
use std::fs;
use std::test::Fail;

/// One file of that many bytes, all of them `x`.
fn file_of(alloc: Global, name: &str, length: usize) -> Result<Vec<(String, Vec<u8>)>, AllocError> {
    let bytes = vec![in alloc; b'x'; length]?;
    Ok(vec![in alloc; (String::from_str(alloc, name)?, bytes)]?)
}

#[test]
fn a_file_is_taken_whole_or_its_cause_is_answered(rt: HostRuntime) -> Result<(), Fail> {
    // the length of the file, the limit, the number of the call that fails, the length that is taken
    let rows = [
        (0, 0u32, 0, Ok(0)),
        (3, 3, 0, Ok(3)),
        (3, 2, 0, Err(TakeFault::TooLarge)),
        (65_536, 65_536, 0, Ok(65_536)),
        (65_537, 65_536, 0, Err(TakeFault::TooLarge)),
        (150_000, 200_000, 0, Ok(150_000)),
        (3, 3, 1, Err(TakeFault::ReadFault)),
        (3, 3, 2, Err(TakeFault::ReadFault)),
        (3, 3, 3, Err(TakeFault::ReadFault)),
        (3, 3, 4, Ok(3)),
        (150_000, 200_000, 3, Err(TakeFault::ReadFault)),
    ];
    for (length, limit, call, want) in rows {
        let files = file_of(rt.alloc(), "a", length)?;
        let fail = vec![in rt.alloc(); call]?;
        let mut files = MemFiles::new(files, fail);
        let taken = take_all(rt.alloc(), &mut files, "a", limit as usize);
        assert_eq!(rt;
            taken.map(|bytes| bytes.len()),
            want,
            "{length} {limit} {call}"
        );
    }
    Ok(())
}

#[test]
fn a_name_of_no_file_fails_and_is_counted(rt: HostRuntime) -> Result<(), Fail> {
    let mut files = MemFiles::new(file_of(rt.alloc(), "a", 1)?, Vec::new(rt.alloc()));
    let taken = take_all(rt.alloc(), &mut files, "b", 9);
    assert_eq!(rt; taken, Err(TakeFault::ReadFault));
    assert_eq!(rt; files.faults(), 1);

    let mut steady = SteadyFiles::new(file_of(rt.alloc(), "a", 1)?);
    let taken = take_all(rt.alloc(), &mut steady, "b", 9);
    assert_eq!(rt; taken.map(|bytes| bytes.len()), Ok(0));
    let taken = take_all(rt.alloc(), &mut steady, "a", 9);
    assert_eq!(rt; taken.map(|bytes| bytes.len()), Ok(1));
    Ok(())
}

#[test]
fn a_sink_takes_what_its_room_allows(rt: HostRuntime) -> Result<(), Fail> {
    let fail = vec![in rt.alloc(); 2]?;
    let Ok(mut sink) = MemSink::new(rt.alloc(), 4, 3, fail) else {
        return Err(Fail::from(AllocError));
    };
    let puts = [
        ("abcde", Ok(3)),
        ("de", Err(Failed)),
        ("de", Ok(1)),
        ("e", Err(Failed)),
        ("", Ok(0)),
    ];
    for (piece, want) in puts {
        assert_eq!(rt; sink.put(piece.as_bytes()), want, "{piece}");
    }
    assert_eq!(rt; sink.bytes(), b"abcd".as_slice());
    assert_eq!(rt; sink.faults(), 2);

    let mut steady = SteadySink::new();
    assert_eq!(rt; steady.put(b"abc"), Ok(3));
    assert_eq!(rt; steady.put(b"de"), Ok(2));
    assert_eq!(rt; steady.counted(), 5);
    Ok(())
}

#[test]
fn a_real_file_is_taken(rt: HostRuntime) -> Result<(), Fail> {
    let name = "/tmp/outside-a-real-file-is-taken";
    fs::write(&rt, name, "real")?;
    let mut files = HostFiles::new(&rt);
    let taken = take_all(rt.alloc(), &mut files, name, 4);
    fs::remove_file(&rt, name)?;
    let want = Vec::from_slice(rt.alloc(), b"real")?;
    assert_eq!(rt; taken, Ok(want));
    let taken = take_all(rt.alloc(), &mut files, name, 4);
    assert_eq!(rt; taken, Err(TakeFault::ReadFault));
    Ok(())
}

#[test]
fn a_write_that_takes_nothing_fails(rt: HostRuntime) {
    let mut room = [0u8; 3];
    let mut sink = HostSink::new(room.as_mut_slice());
    assert_eq!(rt; sink.put(b"ab"), Ok(2));
    assert_eq!(rt; sink.put(b"cd"), Ok(1));
    assert_eq!(rt; sink.put(b"d"), Err(Failed));
    assert_eq!(rt; sink.put(b""), Ok(0));
}
