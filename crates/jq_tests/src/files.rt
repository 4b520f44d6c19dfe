// Files in memory that are read in short pieces, including one that does not exist and one whose reading fails.
ghost use Rattle.std.specs.Prelude.{◌≡◌, List, ℕ, [], Some, None, codes, bytes_eq, if◌then◌else◌};
ghost use Rattle.std.specs.declared.option.Option.{Option};

use crate::fakes::Compared;
use crate::starting::compile_under;
use jq_devices::{Opener, Read, StreamFault, UnnamedFiles};
use jq_starts::Starts;
use jq_stream::{Outputs, Streams, run_stream};
use std::alloc::Global;
use std::io::ErrorKind;
use std::test::Fail;
use std::{io, str};

// Bytes in memory.
#[derive(Drop)]
struct MemoryFile<'a> {
    bytes: &'a [u8],
    // The read after the last byte is an error.
    breaks: bool,
}

impl Read for MemoryFile<'_> {
    ghost remaining = { λ file. if file.breaks then None else Some file.bytes.now };

    fn read(&mut self, buf: &mut [u8]) -> io::Result<usize> {
        if self.breaks && self.bytes.is_empty() {
            return Err(io::Error::from(ErrorKind::Interrupted));
        }
        self.bytes.read(buf)
    }
}

// Three files, the third of which breaks. There is no file with another name.
#[derive(Drop)]
struct Memory<'a> {
    first: &'a [u8],
    second: &'a [u8],
    broken: &'a [u8],
}

impl<'a> Opener for Memory<'a> {
    type File = MemoryFile<'a>;

    ghost content = { λ m name. if bytes_eq name (codes "first") then Some m.first.now
        else (if bytes_eq name (codes "second") then Some m.second.now else None) };

    fn open(&self, name: &str) -> io::Result<MemoryFile<'a>> {
        let (bytes, breaks) = match name {
            "first" => (self.first, false),
            "second" => (self.second, false),
            "broken" => (self.broken, true),
            _ => return Err(io::Error::from(ErrorKind::NotFound)),
        };
        Ok(MemoryFile { bytes, breaks })
    }
}

// The words of a row.
fn words(alloc: Global, row: &str) -> Result<Vec<String>, Fail> {
    let mut words = Vec::new(alloc);
    for word in row.split(' ') {
        words.push(String::from_str(alloc, word)?)?;
    }
    Ok(words)
}

// The results of reads of at most this many bytes, with `!` for an error.
fn shown<R: Read>(
    alloc: Global,
    reader: &mut R,
    most: usize,
    reads: usize,
) -> Result<String, Fail> {
    let mut shown = String::new(alloc);
    let mut room = vec![in alloc; 0; most]?;
    for _ in 0..reads {
        match reader.read(&mut room) {
            Ok(len) => shown.push_str(str::from_utf8(&room[..len])?)?,
            Err(_) => shown.push('!')?,
        }
        shown.push('|')?;
    }
    Ok(shown)
}

static READS: [(&str, usize, usize, &str); 6] = [
    ("first second", 8, 4, "[1,|2] 3|||"),
    ("second first", 2, 6, "2]| 3|[1|,|||"),
    ("first broken second", 2, 6, "[1|,|4 |5|!|!|"),
    ("first missing second", 8, 4, "[1,|!|!|!|"),
    ("missing first", 8, 3, "!|!|!|"),
    ("first first", 0, 2, "||"),
];

#[test]
fn reads_files_one_after_the_other(rt: HostRuntime) -> Result<(), Fail> {
    let alloc = rt.alloc();
    let memory = Memory {
        first: b"[1,",
        second: b"2] 3",
        broken: b"4 5",
    };
    for row in &READS {
        let (row, most, reads, want) = *row;
        let names = words(alloc, row)?;
        let mut reader = UnnamedFiles::new(&memory).named(names);
        let given = shown(alloc, &mut reader, most, reads)?;
        assert_eq!(rt; given.as_str(), want, "{row}");
    }
    Ok(())
}

static RUNS: [(&str, &str, &str); 4] = [
    ("first second broken first", "[1,2]\n34\n", "[[1,2],34]\n"),
    ("first second missing", "[1,2]\n", "[[1,2]]\n"),
    ("missing first second", "", "[]\n"),
    ("broken", "4\n", "[4]\n"),
];

// The texts that are whole before a read or an opening fails are answered, in each way to run.
#[test]
fn runs_over_files_that_fail(rt: HostRuntime) -> Result<(), Fail> {
    let alloc = rt.alloc();
    let memory = Memory {
        first: b"[1,",
        second: b"2] 3",
        broken: b"4 5",
    };
    let mut starts = Starts::new(&rt);
    for row in &RUNS {
        let (row, lines, array) = *row;
        for (flag, filter, out) in [
            ("", ".", lines),
            ("-n", "[inputs]", array),
            ("-s", ".", array),
        ] {
            let compiled = compile_under(alloc, flag, filter)?;
            let files = UnnamedFiles::new(&memory).named(words(alloc, row)?);
            let outputs = Outputs::new(Compared::new(out), Compared::new(""));
            let mut streams = Streams::new(files, outputs);
            let result = run_stream(
                alloc,
                &compiled.runner(),
                compiled.settings(),
                &mut starts,
                &mut streams,
            );
            assert_eq!(rt; result, Err(StreamFault::Read), "{flag} {row}");
            assert!(rt; streams.outputs.output.device().is_whole(), "{flag} {row}");
            assert!(rt; streams.outputs.errors.device().is_whole(), "{flag} {row}");
        }
    }
    Ok(())
}
