//! Sources and sinks, in memory and over std.

use ncq_base::{Bytes, bytes_of};
use ncq_outside::{
    Calls, Failed, Sink, Source, StdSink, StdSource, memory_sink, memory_source, plain_sink,
    plain_source, repeat_source,
};
use std::alloc::{AllocError, Global};
use std::io;
use std::process::Abort;
use std::test::Fail;

fn calls(alloc: Global, numbers: &[u64]) -> Result<Calls, AllocError> {
    let mut all = Calls::new(alloc);
    for number in numbers {
        all.push(*number)?;
    }
    Ok(all)
}

/// Reads once into a buffer of 3 bytes. `None` is a failed call.
fn expect_read<S: Source>(rt: &impl Abort, source: &mut S, want: Option<&str>) {
    let mut buf = [0u8; 3];
    let got = source.read(&mut buf);
    let bytes = got.ok().map(|count| &buf[..count.min(3)]);
    assert_eq!(rt; bytes, want.map(|text| text.as_bytes()));
}

/// Reads once for each entry.
fn expect_reads<S: Source>(rt: &impl Abort, source: &mut S, wanted: &[Option<&str>]) {
    for want in wanted {
        expect_read(rt, source, *want);
    }
}

/// Writes the text once, and compares the count. `None` is a failed call.
fn expect_write<S: Sink>(rt: &impl Abort, sink: &mut S, text: &str, want: Option<usize>) {
    assert!(rt; !text.is_empty());
    assert_eq!(rt; sink.write(text.as_bytes()).ok(), want, "{text}");
}

/// Writes each text once.
fn expect_writes<S: Sink>(rt: &impl Abort, sink: &mut S, wanted: &[(&str, Option<usize>)]) {
    for (text, want) in wanted {
        expect_write(rt, sink, text, *want);
    }
}

#[test]
fn a_memory_source_gives_pieces_and_fails_where_told(rt: HostRuntime) -> Result<(), Fail> {
    let alloc = rt.alloc();
    let failing = calls(alloc, &[2, 4])?;
    let mut source = memory_source(bytes_of(alloc, b"abcde")?, 2, failing);
    let wanted = [
        Some("ab"),
        None,
        Some("cd"),
        None,
        Some("e"),
        Some(""),
        Some(""),
    ];
    expect_reads(&rt, &mut source, &wanted);
    assert_eq!(rt; source.faults(), 2);
    let mut wide = memory_source(bytes_of(alloc, b"abcde")?, 9, calls(alloc, &[])?);
    expect_reads(&rt, &mut wide, &[Some("abc"), Some("de"), Some("")]);
    Ok(())
}

#[test]
fn a_memory_sink_holds_what_has_room_and_fails_where_told(rt: HostRuntime) -> Result<(), Fail> {
    let alloc = rt.alloc();
    let mut sink = memory_sink(alloc, 5, calls(alloc, &[2])?)?;
    assert_eq!(rt; sink.held(), b"".as_slice());
    let wanted = [
        ("abc", Some(3)),
        ("de", None),
        ("def", Some(2)),
        ("f", None),
    ];
    expect_writes(&rt, &mut sink, &wanted);
    assert_eq!(rt; sink.held(), b"abcde".as_slice());
    assert_eq!(rt; sink.faults(), 2);
    let mut narrow = memory_sink(alloc, 0, calls(alloc, &[])?)?;
    expect_writes(&rt, &mut narrow, &[("a", None)]);
    Ok(())
}

#[test]
fn plain_ones_never_fail(rt: HostRuntime) -> Result<(), Fail> {
    let mut source = plain_source(bytes_of(rt.alloc(), b"abc")?, 2);
    expect_reads(
        &rt,
        &mut source,
        &[Some("ab"), Some("c"), Some(""), Some("")],
    );
    expect_writes(
        &rt,
        &mut plain_sink(),
        &[("abcde", Some(5)), ("a", Some(1))],
    );
    Ok(())
}

#[test]
fn a_line_that_is_given_again_goes_on_where_it_stopped(rt: HostRuntime) -> Result<(), Fail> {
    let line = bytes_of(rt.alloc(), b"abcd")?;
    assert!(rt; !line.as_slice().is_empty());
    let mut long = repeat_source(line, 10);
    let wanted = ["abc", "dab", "cda", "b", "", ""].map(Some);
    expect_reads(&rt, &mut long, &wanted);
    let line = bytes_of(rt.alloc(), b"x")?;
    assert!(rt; !line.as_slice().is_empty());
    expect_reads(
        &rt,
        &mut repeat_source(line, 4),
        &[Some("xxx"), Some("x"), Some("")],
    );
    Ok(())
}

/// A line of so many bytes, of which the last alone is LF, is given again and again: so many bytes
/// in all, into a buffer of so many. Each call gives so many bytes, and so many of them are LF.
struct Repeats<'a> {
    line: usize,
    total: u64,
    room: usize,
    calls: &'a [(usize, usize)],
}

const REPEATS: &[Repeats<'_>] = &[
    Repeats {
        line: 1,
        total: 0,
        room: 70_000,
        calls: &[(0, 0), (0, 0)],
    },
    Repeats {
        line: 1,
        total: 1,
        room: 70_000,
        calls: &[(1, 1), (0, 0)],
    },
    Repeats {
        line: 1,
        total: 65_536,
        room: 70_000,
        calls: &[(65_536, 65_536), (0, 0)],
    },
    Repeats {
        line: 1,
        total: 65_537,
        room: 70_000,
        calls: &[(65_536, 65_536), (1, 1), (0, 0)],
    },
    Repeats {
        line: 1_024,
        total: 0,
        room: 70_000,
        calls: &[(0, 0)],
    },
    Repeats {
        line: 1_024,
        total: 1,
        room: 70_000,
        calls: &[(1, 0), (0, 0)],
    },
    Repeats {
        line: 1_024,
        total: 65_536,
        room: 70_000,
        calls: &[(65_536, 64), (0, 0)],
    },
    Repeats {
        line: 1_024,
        total: 65_537,
        room: 70_000,
        calls: &[(65_536, 64), (1, 0), (0, 0)],
    },
    // The last byte of the 64th line is left to a call of its own.
    Repeats {
        line: 1_024,
        total: 65_536,
        room: 65_535,
        calls: &[(65_535, 63), (1, 1), (0, 0)],
    },
    Repeats {
        line: 1_024,
        total: 65_537,
        room: 65_536,
        calls: &[(65_536, 64), (1, 0), (0, 0)],
    },
    // The buffer is smaller than the line: LF is the 1,024th byte, the 2,048th and the 3,072nd.
    Repeats {
        line: 1_024,
        total: 3_073,
        room: 1_000,
        calls: &[(1_000, 0), (1_000, 1), (1_000, 1), (73, 1), (0, 0)],
    },
];

/// A line of so many bytes, 1 or more: the last is LF, and the others are `#`.
fn comment_line(alloc: Global, length: usize) -> Result<Bytes, AllocError> {
    let mut line = vec![in alloc; b'#'; length.saturating_sub(1)]?;
    line.push(b'\n')?;
    Ok(Bytes::from_vec(line))
}

/// Reads once for each entry, and compares how many bytes came, and how many of them are LF.
fn expect_calls(
    rt: &impl Abort,
    alloc: Global,
    source: &mut impl Source,
    room: usize,
    calls: &[(usize, usize)],
) -> Result<(), Fail> {
    let mut buf = vec![in alloc; 0u8; room]?;
    assert!(rt; !buf.is_empty());
    for (count, ends) in calls {
        let got = source.read(&mut buf).unwrap_or(0).min(room);
        assert_eq!(rt; got, *count);
        assert_eq!(rt; buf[..got].iter().filter(|b| **b == b'\n').count(), *ends);
    }
    Ok(())
}

#[test]
fn a_line_is_given_again_up_to_its_total(rt: HostRuntime) -> Result<(), Fail> {
    let alloc = rt.alloc();
    for repeats in REPEATS {
        let line = comment_line(alloc, repeats.line)?;
        assert!(rt; !line.as_slice().is_empty());
        let mut source = repeat_source(line, repeats.total);
        expect_calls(&rt, alloc, &mut source, repeats.room, repeats.calls)?;
    }
    Ok(())
}

/// Fails its second call, and gives one byte at every other.
#[derive(Drop)]
struct Shaky {
    calls: usize,
}

impl io::Read for Shaky {
    fn read(&mut self, buf: &mut [u8]) -> io::Result<usize> {
        self.calls = self.calls.saturating_add(1);
        if self.calls == 2 {
            return Err(io::Error::from(io::ErrorKind::TimedOut));
        }
        let count = buf.len().min(1);
        buf[..count].fill(b'x');
        Ok(count)
    }
}

#[test]
fn a_reader_gives_its_bytes_and_its_faults(rt: HostRuntime) {
    let mut whole = StdSource::new(b"abcd".as_slice());
    expect_reads(&rt, &mut whole, &[Some("abc"), Some("d"), Some("")]);
    let mut shaky = StdSource::new(Shaky { calls: 0 });
    expect_reads(&rt, &mut shaky, &[Some("x"), None, Some("x")]);
}

#[test]
fn a_writer_gets_the_bytes(rt: HostRuntime) {
    let mut held = Vec::new(rt.alloc());
    let mut sink = StdSink::new(&mut held);
    expect_writes(&rt, &mut sink, &[("ab", Some(2)), ("c", Some(1))]);
    assert_eq!(rt; held.as_slice(), b"abc".as_slice());
}

/// What the next write or flush does wrong.
#[derive(Clone, Copy, PartialEq, Eq)]
enum Fault {
    None,
    Write,
    Nothing,
    Flush,
}

/// Takes two bytes at a time and counts them; they are seen once they are flushed.
#[derive(Drop)]
struct Faulty {
    fault: Fault,
    taken: usize,
    seen: usize,
}

impl io::Write for Faulty {
    fn write(&mut self, buf: &[u8]) -> io::Result<usize> {
        match self.fault {
            Fault::Write => Err(io::Error::from(io::ErrorKind::TimedOut)),
            Fault::Nothing => Ok(0),
            Fault::None | Fault::Flush => {
                let count = buf.len().min(2);
                self.taken = self.taken.saturating_add(count);
                Ok(count)
            }
        }
    }

    fn flush(&mut self) -> io::Result<()> {
        if self.fault == Fault::Flush {
            return Err(io::Error::from(io::ErrorKind::TimedOut));
        }
        self.seen = self.taken;
        Ok(())
    }
}

#[test]
fn a_failed_write_or_flush_and_a_write_of_nothing_are_faults(rt: HostRuntime) {
    for (fault, want, seen) in [
        (Fault::None, Ok(2), 2),
        (Fault::Write, Err(Failed), 0),
        (Fault::Nothing, Err(Failed), 0),
        (Fault::Flush, Err(Failed), 0),
    ] {
        let mut writer = Faulty {
            fault,
            taken: 0,
            seen: 0,
        };
        let got = StdSink::new(&mut writer).write(b"abc");
        assert_eq!(rt; got, want);
        assert_eq!(rt; writer.seen, seen);
    }
}
