mod typed;

use super::*;
use im_matrix::Which;
use plane_exact::PlaceList;
use std::io::{Read, Write};
use std::test::*;
use std::{fs, io, process};
use typed::Typed;

// Takes at most two bytes a call, nothing at its third call, and counts its flushes, of which the
// second fails.
#[derive(Drop)]
struct Narrow {
    calls: u8,
    flushes: u8,
}

impl Write for Narrow {
    fn write(&mut self, buf: &[u8]) -> io::Result<usize> {
        self.calls = self.calls.saturating_add(1);
        match self.calls {
            3 => Ok(0),
            4 => Err(io::Error::from(io::ErrorKind::BrokenPipe)),
            _ => Ok(buf.len().min(2)),
        }
    }

    fn flush(&mut self) -> io::Result<()> {
        self.flushes = self.flushes.saturating_add(1);
        match self.flushes {
            2 => Err(io::Error::from(io::ErrorKind::BrokenPipe)),
            _ => Ok(()),
        }
    }
}

#[test]
fn bytes_go_from_memory_to_memory(rt: HostRuntime) -> Result<(), Fail> {
    let alloc = rt.alloc();
    let mut files = NamedBytes::new(alloc);
    files.add("a.wkt", b"POINT EMPTY")?;
    files.add("a.wkt", b"POINT (0 0)")?;
    let mut inputs = MemInputs::new(files, PlaceList::new(alloc), 6);
    let name = Word::of(alloc, "a.wkt")?;
    assert!(rt; name.bytes() == b"a.wkt".as_slice());
    assert!(rt; inputs.start(Which::A, name).is_ok());
    assert!(rt; inputs.was_started(Which::A));

    let mut sink = MemSink::new(alloc, 8, PlaceList::new(alloc))?;
    let mut buf = [0u8; 64];
    assert!(rt; inputs.read(Which::A, &mut buf) == Ok(6));
    assert!(rt; sink.write(&buf[..6]) == Ok(6));
    assert!(rt; inputs.read(Which::A, &mut buf) == Ok(5));
    assert!(rt; offer_whole(&mut sink, &buf[..5]).is_err());
    assert!(rt; sink.bytes() == b"POINT EM".as_slice());
    assert!(rt; inputs.calls() == 3);
    Ok(())
}

#[test]
fn a_cut_sink_takes_little_at_a_time(rt: HostRuntime) -> Result<(), Fail> {
    let alloc = rt.alloc();
    let mut sink = MemSink::cut(alloc, 2, 6, PlaceList::new(alloc))?;
    assert!(rt; sink.write(b"POINT") == Ok(2));
    assert!(rt; offer_whole(&mut sink, b"INT").is_ok());
    assert!(rt; sink.write(b" EMPTY") == Ok(1));
    assert!(rt; sink.write(b"EMPTY") == Err(Failed));
    assert!(rt; sink.bytes() == b"POINT ".as_slice());
    Ok(())
}

#[test]
fn a_writer_that_fails_is_a_sink_that_fails(rt: HostRuntime) {
    let mut sink = StdSink::new(Narrow {
        calls: 0,
        flushes: 0,
    });
    let wanted = [Ok(2), Err(Failed), Err(Failed), Err(Failed), Ok(1)];
    for (at, want) in wanted.iter().enumerate() {
        let piece = if at == 4 {
            b"a".as_slice()
        } else {
            b"abc".as_slice()
        };
        assert!(rt; sink.write(piece) == *want);
    }
}

// The name of a file for one test of this process.
fn file_name(rt: &HostRuntime, test: &str) -> Result<String, Fail> {
    let id = process::id(rt.process());
    Ok(format!(in rt.alloc(); "/tmp/geosop_io_{test}_{id}")?)
}

#[test]
fn a_file_gives_its_bytes_and_ends(rt: HostRuntime) -> Result<(), Fail> {
    let path = file_name(&rt, "source")?;
    fs::write(&rt, path.as_str(), "POINT (0 0)")?;
    let name = Word::of(rt.alloc(), path.as_str())?;
    let mut inputs = FileInputs::new(&rt);
    let mut buf = [0u8; 8];
    assert!(rt; inputs.start(Which::B, name).is_ok());
    assert!(rt; inputs.read(Which::B, &mut buf) == Ok(8));
    assert!(rt; buf == *b"POINT (0");
    assert!(rt; inputs.read(Which::B, &mut buf) == Ok(3));
    assert!(rt; &buf[..3] == b" 0)".as_slice());
    assert!(rt; inputs.read(Which::B, &mut buf) == Ok(0));
    fs::remove_file(&rt, path.as_str())?;
    Ok(())
}

#[test]
fn standard_input_has_the_name_stdin(rt: HostRuntime) -> Result<(), Fail> {
    let typed = Typed { rt };
    let mut inputs = FileInputs::new(&typed);
    let mut buf = [0u8; 8];
    let name = Word::of(rt.alloc(), "stdin")?;
    assert!(rt; inputs.start(Which::A, name).is_ok());
    assert!(rt; inputs.read(Which::A, &mut buf) == Ok(5));
    assert!(rt; &buf[..5] == b"POINT".as_slice());
    assert!(rt; inputs.read(Which::A, &mut buf) == Ok(0));
    Ok(())
}

#[test]
fn a_file_gets_the_bytes_of_a_sink(rt: HostRuntime) -> Result<(), Fail> {
    let path = file_name(&rt, "sink")?;
    let mut sink = StdSink::new(fs::create(&rt, path.as_str())?);
    assert!(rt; offer_whole(&mut sink, b"FF0FFF0F2\n").is_ok());
    assert!(rt; offer_whole(&mut sink, b"0FFFFFFF2\n").is_ok());
    let text = fs::read_to_string(&rt, path.as_str())?;
    assert!(rt; text.as_str() == "FF0FFF0F2\n0FFFFFFF2\n");
    fs::remove_file(&rt, path.as_str())?;
    Ok(())
}

#[test]
fn a_pipe_gets_the_bytes_of_a_sink(rt: HostRuntime) -> Result<(), Fail> {
    let (mut reader, writer) = io::pipe(&rt)?;
    let mut sink = StdSink::new(writer);
    assert!(rt; sink.write(b"true\n") == Ok(5));
    let mut buf = [0u8; 8];
    assert_eq!(rt; reader.read(&mut buf)?, 5);
    assert!(rt; &buf[..5] == b"true\n".as_slice());
    drop(reader);
    assert!(rt; sink.write(b"true\n") == Err(Failed));
    Ok(())
}

#[test]
fn files_of_the_system(rt: HostRuntime) -> Result<(), Fail> {
    let alloc = rt.alloc();
    let zeros = Word::of(alloc, "/dev/zero")?;
    let missing = Word::of(alloc, "there is no file of this name")?;
    let mut inputs = FileInputs::new(&rt);
    assert!(rt; inputs.start(Which::A, zeros).is_ok());
    assert!(rt; inputs.start(Which::B, missing).is_err());
    let mut buf = [7u8; 4];
    assert!(rt; inputs.read(Which::A, &mut buf) == Ok(4));
    assert!(rt; buf == [0; 4]);
    Ok(())
}

#[test]
fn a_folder_is_no_file(rt: HostRuntime) -> Result<(), Fail> {
    let folder = Word::of(rt.alloc(), "/")?;
    let mut inputs = FileInputs::new(&rt);
    let is_refused = inputs.start(Which::A, folder).is_err()
        || inputs.read(Which::A, &mut [0; 4]).is_err();
    assert!(rt; is_refused);
    Ok(())
}
