//! What no clause says: how far an input is read, that calls succeed, that a stream which fails half-way is reported,
//! and that an interrupted call is tried again.
use super::run_through;
use failures::Failure;
use std::io::{self, Cursor, ErrorKind, Read, Write};
use std::test::Fail;

// Gives the letter T, one with each call, and then fails.
#[derive(Drop)]
struct Broken {
    left: usize,
}

impl Read for Broken {
    fn read(&mut self, buf: &mut [u8]) -> io::Result<usize> {
        if buf.is_empty() {
            return Ok(0);
        }
        if self.left == 0 {
            return Err(ErrorKind::Other.into());
        }
        self.left -= 1;
        buf[0] = b'T';
        Ok(1)
    }
}

// Takes bytes while there is room, and then fails.
#[derive(Drop)]
struct Narrow {
    taken: Vec<u8>,
    room: usize,
}

impl Write for Narrow {
    fn write(&mut self, buf: &[u8]) -> io::Result<usize> {
        if self.room == 0 {
            return Err(ErrorKind::Other.into());
        }
        let count = buf.len().min(self.room);
        self.taken.extend_from_slice(&buf[..count])?;
        self.room -= count;
        Ok(count)
    }

    fn flush(&mut self) -> io::Result<()> {
        Ok(())
    }
}

// Takes one byte with every second call, and is interrupted with the others.
#[derive(Drop)]
struct Interrupted {
    taken: Vec<u8>,
    ready: bool,
}

impl Write for Interrupted {
    fn write(&mut self, buf: &[u8]) -> io::Result<usize> {
        self.ready = !self.ready;
        if self.ready {
            return Err(ErrorKind::Interrupted.into());
        }
        let count = buf.len().min(1);
        self.taken.extend_from_slice(&buf[..count])?;
        Ok(count)
    }

    fn flush(&mut self) -> io::Result<()> {
        Ok(())
    }
}

// Every three of these bytes make a command that puts a glyph on the tray, which has room for 8,192.
#[test]
fn no_more_is_read_than_tells_that_a_job_is_too_long(rt: HostRuntime) -> Result<(), Fail> {
    let cases: [(usize, u64, &str); 6] = [
        (0, 0, ""),
        (3, 3, ""),
        (4, 4, "job stopped at 3\n"),
        (32_768, 32_768, "job stopped at 24576\n"),
        (32_769, 32_769, "job too long\n"),
        (40_000, 32_769, "job too long\n"),
    ];
    for (size, read, printed) in cases {
        let mut input = Cursor::new(vec![in rt.alloc(); b'C'; size]?);
        let mut output = Vec::new(rt.alloc());
        let outcome = run_through(rt.alloc(), &mut input, &mut output);
        assert!(rt; outcome.is_ok(), "at {size}");
        assert_eq!(rt; input.position(), read, "at {size}");
        assert_eq!(rt; output.as_slice(), printed.as_bytes(), "at {size}");
    }
    Ok(())
}

#[test]
fn an_input_without_end_is_too_long(rt: HostRuntime) {
    let mut output = Vec::new(rt.alloc());
    let outcome = run_through(rt.alloc(), io::repeat(b'T'), &mut output);
    assert!(rt; outcome.is_ok());
    assert_eq!(rt; output.as_slice(), b"job too long\n".as_slice());
}

#[test]
fn nothing_is_written_where_reading_fails(rt: HostRuntime) {
    let mut output = Vec::new(rt.alloc());
    let outcome = run_through(rt.alloc(), Broken { left: 3 }, &mut output);
    assert!(rt; matches!(outcome, Err(Failure::Read(_))));
    assert!(rt; output.is_empty());
}

#[test]
fn what_was_written_before_stays(rt: HostRuntime) {
    let mut output = Narrow {
        taken: Vec::new(rt.alloc()),
        room: 6,
    };
    let outcome = run_through(rt.alloc(), b"TT".as_slice(), &mut output);
    assert!(rt; matches!(outcome, Err(Failure::Write(_))));
    assert_eq!(rt; output.taken.as_slice(), b"T 0\nT ".as_slice());
}

#[test]
fn an_interrupted_call_is_tried_again(rt: HostRuntime) {
    let mut output = Interrupted {
        taken: Vec::new(rt.alloc()),
        ready: false,
    };
    let outcome = run_through(rt.alloc(), b"TT".as_slice(), &mut output);
    assert!(rt; outcome.is_ok());
    assert_eq!(rt; output.taken.as_slice(), b"T 0\nT 0\n".as_slice());
}

#[test]
fn an_output_that_takes_no_byte_fails(rt: HostRuntime) -> Result<(), Fail> {
    let mut space = [0u8; 6];
    let mut output = space.as_mut_slice();
    let outcome = run_through(rt.alloc(), b"TT".as_slice(), &mut output);
    assert!(rt;
        matches!(&outcome, Err(Failure::Write(error)) if error.kind() == ErrorKind::WriteZero)
    );
    let said = match outcome {
        Ok(()) => String::new(rt.alloc()),
        Err(failure) => format!(in rt.alloc(); "{failure}")?,
    };
    assert_eq!(rt;
        said.as_str(),
        "standard output could not be written: failed to write whole buffer"
    );
    assert_eq!(rt; space.as_slice(), b"T 0\nT ".as_slice());
    Ok(())
}
