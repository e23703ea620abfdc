// The objects in memory, and one call of each adapter.
use std::alloc::Global;
use std::io::{self, Read, Write};
use std::process::Abort;
use tool_io::{
    Failed, FileBytes, Folder, FolderFiles, IoFault, MemoryFolder, MemorySink, QuietSource, Sink,
    Source, StdFolder, StdSink, StdSource,
};
use tool_list::{Chars, List};

fn crosses_threads<T: Send + Sync>() {}

#[test]
fn crosses() {
    crosses_threads::<MemoryFolder>();
    crosses_threads::<MemorySink>();
    crosses_threads::<QuietSource>();
}

fn numbers(rt: &impl Abort, alloc: Global, items: &[u32]) -> List<u32> {
    List::from_vec(Vec::from_slice(alloc, items).expect(rt, "numbers"))
}

fn bytes_of(rt: &impl Abort, alloc: Global, text: &str) -> List<u8> {
    List::from_vec(Vec::from_slice(alloc, text.as_bytes()).expect(rt, text))
}

fn file_of(rt: &impl Abort, alloc: Global, name: &str, text: &str) -> FileBytes {
    FileBytes {
        name: Chars::from_str(alloc, name).expect(rt, name),
        bytes: bytes_of(rt, alloc, text),
    }
}

// The folder `w` with two files, which fails at the fourth call.
fn two_files(rt: &impl Abort, alloc: Global) -> MemoryFolder {
    let mut files = List::new(alloc);
    files
        .push(file_of(rt, alloc, "B.tla", "later"))
        .expect(rt, "B");
    files.push(file_of(rt, alloc, "A.tla", "")).expect(rt, "A");
    let path = Chars::from_str(alloc, "w").expect(rt, "w");
    let mut map = List::new(alloc);
    map.push(FolderFiles { path, files }).expect(rt, "w");
    MemoryFolder::new(map, numbers(rt, alloc, &[4]))
}

// The names under a path, each with a blank behind it, or that they are refused.
fn names_under(rt: &impl Abort, alloc: Global, folder: &mut impl Folder, path: &str) -> String {
    let mut shown = String::new(alloc);
    match folder.names(alloc, path) {
        Ok(names) => {
            for name in names.as_slice() {
                shown.push_str(name.as_str()).expect(rt, path);
                shown.push(' ').expect(rt, path);
            }
        }
        Err(_) => shown.push_str("refused").expect(rt, path),
    }
    shown
}

// Whether the first three bytes of a file are these, where it is there.
fn reads(
    alloc: Global,
    folder: &mut impl Folder,
    path: &str,
    file: &str,
    front: Option<&[u8]>,
) -> bool {
    match folder.read(alloc, path, file, 3) {
        Ok(Some(bytes)) => Some(bytes.as_slice()) == front,
        Ok(None) => front.is_none(),
        Err(_) => false,
    }
}

// What is asked of a folder, with its answer.
enum Asked {
    // The names under a path.
    Names(&'static str, &'static str),
    // The first bytes of a file under a path.
    Front(&'static str, &'static str, Option<&'static [u8]>),
}

use Asked::{Front, Names};

// Asks, and tells whether the answer is right.
fn answers(rt: &impl Abort, alloc: Global, folder: &mut impl Folder, asked: &Asked) -> bool {
    match asked {
        Names(path, names) => names_under(rt, alloc, folder, *path).as_str() == *names,
        Front(path, file, front) => reads(alloc, folder, *path, *file, *front),
    }
}

fn ask(rt: &impl Abort, alloc: Global, folder: &mut impl Folder, rows: &[Asked]) {
    for (place, asked) in rows.iter().enumerate() {
        assert!(rt; answers(rt, alloc, folder, asked), "row {place}");
    }
}

fn has_failed(rt: &impl Abort, faults: u64, times: u64) {
    assert!(rt; faults == times, "{faults} for {times}");
}

static FILES: [Asked; 5] = [
    Names("w", "A.tla B.tla "),
    Front("w", "B.tla", Some(b"lat")),
    Front("v", "B.tla", None),
    Names("w", "refused"),
    Names("v", "refused"),
];

#[test]
fn lists_and_reads_files(rt: HostRuntime) {
    let mut folder = two_files(&rt, rt.alloc());
    ask(&rt, rt.alloc(), &mut folder, &FILES);
    has_failed(&rt, folder.faults(), 2);
}

static NO_FILE: [Asked; 1] = [Front("no-such-folder", "A.tla", None)];

static NO_FOLDER: [Asked; 1] = [Names("no-such-folder", "refused")];

#[test]
fn counts_errors_of_folders(rt: HostRuntime) {
    let mut folder = StdFolder::new(&rt);
    ask(&rt, rt.alloc(), &mut folder, &NO_FILE);
    has_failed(&rt, folder.faults(), 0);
    ask(&rt, rt.alloc(), &mut folder, &NO_FOLDER);
    has_failed(&rt, folder.faults(), 1);
}

// Writes pieces, each of which has its answer.
fn writes(rt: &impl Abort, sink: &mut impl Sink, rows: &[(&str, Result<usize, IoFault>)]) {
    for (piece, answer) in rows {
        assert!(rt; sink.write(piece.as_bytes()) == *answer, "{piece}");
    }
}

static PIECES: [(&str, Result<usize, IoFault>); 5] = [
    ("abc", Ok(2)),
    ("c", Err(IoFault::Failed)),
    ("cde", Ok(2)),
    ("ef", Ok(1)),
    ("f", Err(IoFault::Failed)),
];

fn has_bytes(rt: &impl Abort, found: &[u8], bytes: &str) {
    assert!(rt; found == bytes.as_bytes(), "{bytes}");
}

#[test]
fn takes_pieces(rt: HostRuntime) {
    let fails = numbers(&rt, rt.alloc(), &[2]);
    let mut sink = MemorySink::new(rt.alloc(), 5, 2, fails).expect(&rt, "a sink");
    writes(&rt, &mut sink, &PIECES);
    has_bytes(&rt, sink.bytes(), "abcde");
    has_failed(&rt, sink.faults(), 2);
}

// Reads so often, each time with its answer.
fn gives(
    rt: &impl Abort,
    source: &mut impl Source,
    buf: &mut [u8],
    answers: &[Result<usize, Failed>],
) {
    for answer in answers {
        assert!(rt; source.read(buf) == *answer, "{answer:?}");
    }
}

static READS: [Result<usize, Failed>; 3] = [Ok(2), Ok(1), Ok(0)];

#[test]
fn gives_pieces(rt: HostRuntime) {
    let mut source = QuietSource::new(bytes_of(&rt, rt.alloc(), "abc"));
    let mut buf = [0u8; 2];
    gives(&rt, &mut source, &mut buf, &READS);
    has_bytes(&rt, &buf, "cb");
    has_failed(&rt, source.faults(), 0);
}

// Refuses each read and each flush.
#[derive(Drop)]
struct Refusing;

impl Read for Refusing {
    fn read(&mut self, _: &mut [u8]) -> io::Result<usize> {
        Err(io::ErrorKind::Other.into())
    }
}

impl Write for Refusing {
    fn write(&mut self, buf: &[u8]) -> io::Result<usize> {
        Ok(buf.len())
    }

    fn flush(&mut self) -> io::Result<()> {
        Err(io::ErrorKind::Other.into())
    }
}

static WHOLE_READ: [Result<usize, Failed>; 1] = [Ok(2)];

static REFUSED_READ: [Result<usize, Failed>; 1] = [Err(Failed)];

#[test]
fn counts_errors_of_readers(rt: HostRuntime) {
    let mut buf = [0u8; 4];
    let mut plain = StdSource::new(b"ab".as_slice());
    gives(&rt, &mut plain, &mut buf, &WHOLE_READ);
    has_failed(&rt, plain.faults(), 0);
    let mut source = StdSource::new(Refusing);
    gives(&rt, &mut source, &mut buf, &REFUSED_READ);
    has_failed(&rt, source.faults(), 1);
}

static WHOLE_WRITE: [(&str, Result<usize, IoFault>); 1] = [("ab", Ok(2))];

static REFUSED_WRITE: [(&str, Result<usize, IoFault>); 1] = [("ab", Err(IoFault::Failed))];

#[test]
fn counts_errors_of_writers(rt: HostRuntime) {
    let mut kept = StdSink::new(Vec::new(rt.alloc()));
    writes(&rt, &mut kept, &WHOLE_WRITE);
    let mut sink = StdSink::new(Refusing);
    writes(&rt, &mut sink, &REFUSED_WRITE);
    has_failed(&rt, sink.faults(), 1);
}
