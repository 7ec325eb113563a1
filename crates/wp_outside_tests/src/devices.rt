//! Files and sinks, in memory and over the system.
ghost use Rattle.std.specs.Prelude.{vec_len, ◌≡◌, ◌<◌, IfOk, refl};
ghost use Rattle.wp_outside.specs.InMemory.{sink_told};

use std::alloc::{AllocError, Global};
use std::process::id;
use std::test::Fail;
use std::{env, fs, io};
use wp_outside::{
    FileFault, Files, MOST_FILE_BYTES, MemFiles, MemSink, NeverFails, RealFiles, Sink, SinkFault,
    StdSink, SystemFiles, SystemWriter, Tells, write_text,
};

const TEXT: &[u8] = b"first\nsecond\n";

/// Lengths of files, and why they aren't read.
const LENGTHS: &[(usize, Option<FileFault>)] = &[
    (MOST_FILE_BYTES, None),
    (MOST_FILE_BYTES + 1, Some(FileFault::TooLong)),
];

/// Names, each with a content of its own.
#[derive(Drop)]
struct NamedFiles {
    names: Vec<String>,
    contents: Vec<Vec<u8>>,
    ghost as_many: { vec_len contents ≡ vec_len names },
}

fn three_names(alloc: Global) -> Result<Vec<String>, AllocError>
    ensures { IfOk result (λ names. vec_len names ≡ 3) }
{
    let names = vec![in alloc;
        String::from_str(alloc, "a")?,
        String::from_str(alloc, "b")?,
        String::from_str(alloc, "a")?,
    ]?;
    Ok(names)
}

fn three_contents(alloc: Global) -> Result<Vec<Vec<u8>>, AllocError>
    ensures { IfOk result (λ contents. vec_len contents ≡ 3) }
{
    let contents = vec![in alloc;
        b"first".to_vec(alloc)?,
        b"second".to_vec(alloc)?,
        b"third".to_vec(alloc)?,
    ]?;
    Ok(contents)
}

/// Two names and an equal one.
fn three_files(alloc: Global) -> Result<NamedFiles, AllocError> {
    let names = three_names(alloc)?;
    let contents = three_contents(alloc)?;
    Ok(NamedFiles { names, contents })
}

fn zeros(alloc: Global, len: usize) -> Result<Vec<u8>, AllocError> {
    vec![in alloc; 0u8; len]
}

/// One file of that many zeros.
fn long_file(alloc: Global, len: usize) -> Result<NamedFiles, AllocError> {
    let names = vec![in alloc; String::from_str(alloc, "long")?]?;
    let contents = vec![in alloc; zeros(alloc, len)?]?;
    Ok(NamedFiles { names, contents })
}

fn mem_files(named: NamedFiles, fails: Vec<u64>) -> MemFiles {
    let NamedFiles { names, contents } = named;
    MemFiles::of(names, contents, fails)
}

fn never_fails(alloc: Global, named: NamedFiles) -> NeverFails {
    let NamedFiles { names, contents } = named;
    NeverFails::of(alloc, names, contents)
}

/// A sink that takes one byte a call.
#[derive(Drop)]
struct OneByte {
    sink: MemSink,
}

impl Sink for OneByte {
    ghost told = { λ s. sink_told s.sink };

    fn write(&mut self, piece: &[u8]) -> Result<usize, SinkFault> {
        if piece.is_empty() {
            self.sink.write(piece)
        } else {
            self.sink.write(&piece[..1])
        }
    }
}

/// A device that doesn't take what it is given.
#[derive(Clone, Copy, Debug, PartialEq, Eq)]
enum Device {
    TakesNothing,
    Refuses,
    Keeps,
    WantsMemory,
}

/// It tells nothing.
impl Tells for Device {
    ghost alike = { λ _ _. refl };
}

/// A file of the system.
#[derive(Drop)]
struct SystemFile {
    file: fs::File,
}

/// It tells nothing.
impl Tells for SystemFile {
    ghost alike = { λ _ _. refl };
}

impl io::Write for SystemFile {
    fn write(&mut self, piece: &[u8]) -> io::Result<usize> {
        self.file.write(piece)
    }

    fn flush(&mut self) -> io::Result<()> {
        self.file.flush()
    }
}

impl io::Write for Device {
    fn write(&mut self, piece: &[u8]) -> io::Result<usize> {
        match self {
            Device::TakesNothing => Ok(0),
            Device::Refuses => Err(io::Error::from(io::ErrorKind::StorageFull)),
            Device::Keeps => Ok(piece.len()),
            Device::WantsMemory => Err(io::Error::from(io::ErrorKind::OutOfMemory)),
        }
    }

    fn flush(&mut self) -> io::Result<()> {
        match self {
            Device::Keeps => Err(io::Error::from(io::ErrorKind::StorageFull)),
            _ => Ok(()),
        }
    }
}

fn gives<F: Files>(files: &mut F, alloc: Global, name: &str, text: &str) -> bool {
    match files.read(alloc, name) {
        Ok(bytes) => bytes.as_slice() == text.as_bytes(),
        Err(_) => false,
    }
}

/// What each name of the three files gives.
const HELD: &[(&str, &str)] = &[("a", "first"), ("b", "second")];

fn misread_name<F: Files>(files: &mut F, alloc: Global) -> Option<&'static str> {
    for (name, text) in HELD {
        if !gives(files, alloc, name, text) {
            return Some(*name);
        }
    }
    None
}

#[test]
fn of_equal_names_the_first_holds_and_an_unknown_name_fails(rt: HostRuntime) -> Result<(), Fail> {
    let alloc = rt.alloc();
    let mut files = mem_files(three_files(alloc)?, Vec::new(alloc));
    assert_eq!(rt; misread_name(&mut files, alloc), None);
    assert_eq!(rt; files.read(alloc, "c").err(), Some(FileFault::Failed));
    Ok(())
}

fn takes_the_text(files: &mut NeverFails) -> bool {
    write_text(files, TEXT).is_ok() && files.taken() == TEXT
}

#[test]
fn files_that_never_fail_hold_no_bytes_under_an_unknown_name(rt: HostRuntime) -> Result<(), Fail> {
    let alloc = rt.alloc();
    let mut files = never_fails(alloc, three_files(alloc)?);
    assert_eq!(rt; misread_name(&mut files, alloc), None);
    assert!(rt; gives(&mut files, alloc, "c", "") && takes_the_text(&mut files));
    Ok(())
}

/// The three files, where the read with a number is to fail.
fn failing_files(alloc: Global, number: u64) -> Result<MemFiles, AllocError> {
    let fails = vec![in alloc; number]?;
    Ok(mem_files(three_files(alloc)?, fails))
}

/// The first of four reads that fails where another should, or gives bytes where it should fail.
fn misanswered_read(files: &mut MemFiles, alloc: Global, number: u64) -> Option<u64> {
    for call in 1..5u64 {
        if files.read(alloc, "b").is_err() != (call == number) {
            return Some(call);
        }
    }
    None
}

fn misanswered_number(alloc: Global) -> Result<Option<(u64, u64)>, AllocError> {
    for number in 1..4u64 {
        if let Some(call) = misanswered_read(&mut failing_files(alloc, number)?, alloc, number) {
            return Ok(Some((number, call)));
        }
    }
    Ok(None)
}

#[test]
fn each_numbered_read_fails_in_turn(rt: HostRuntime) {
    assert_eq!(rt; misanswered_number(rt.alloc()), Ok(None));
}

fn fault_in_memory(alloc: Global, len: usize) -> Result<Option<FileFault>, AllocError> {
    let mut files = mem_files(long_file(alloc, len)?, Vec::new(alloc));
    Ok(files.read(alloc, "long").err())
}

fn fault_where_none_fails(alloc: Global, len: usize) -> Result<Option<FileFault>, AllocError> {
    let mut files = never_fails(alloc, long_file(alloc, len)?);
    Ok(files.read(alloc, "long").err())
}

fn misjudged_length(alloc: Global) -> Result<Option<usize>, AllocError> {
    for (len, fault) in LENGTHS {
        if fault_in_memory(alloc, *len)? != *fault
            || fault_where_none_fails(alloc, *len)? != *fault
        {
            return Ok(Some(*len));
        }
    }
    Ok(None)
}

#[test]
fn a_file_may_have_the_most_bytes_and_not_one_more(rt: HostRuntime) {
    assert_eq!(rt; misjudged_length(rt.alloc()), Ok(None));
}

/// Pieces, and what a sink whose second call fails answers.
const PIECES: &[(&str, Result<usize, SinkFault>)] = &[
    ("one", Ok(3)),
    ("", Ok(0)),
    ("two", Err(SinkFault::Failed)),
    ("three", Ok(5)),
];

fn misanswered_piece(sink: &mut MemSink) -> Option<&'static str> {
    for (piece, answer) in PIECES {
        if sink.write(piece.as_bytes()) != *answer {
            return Some(*piece);
        }
    }
    None
}

#[test]
fn an_empty_piece_has_no_number(rt: HostRuntime) -> Result<(), Fail> {
    let alloc = rt.alloc();
    let mut sink = MemSink::of(alloc, vec![in alloc; 2]?);
    assert_eq!(rt; misanswered_piece(&mut sink), None);
    assert!(rt; sink.taken() == b"onethree".as_slice());
    Ok(())
}

/// A sink that takes so many bytes, one a call, and then fails.
fn failing_sink(alloc: Global, taken: u64) -> Result<OneByte, AllocError>
    requires { taken < 100 }
{
    Ok(OneByte {
        sink: MemSink::of(alloc, vec![in alloc; taken + 1]?),
    })
}

/// The first number of bytes after which a failing sink has taken something else of the text.
fn miswritten_number(alloc: Global) -> Result<Option<usize>, AllocError> {
    for taken in 0..TEXT.len() {
        let mut out = failing_sink(alloc, taken as u64)?;
        if write_text(&mut out, TEXT) != Err(SinkFault::Failed)
            || out.sink.taken() != &TEXT[..taken]
        {
            return Ok(Some(taken));
        }
    }
    Ok(None)
}

#[test]
fn a_text_is_written_byte_by_byte_up_to_each_fault(rt: HostRuntime) {
    assert_eq!(rt; miswritten_number(rt.alloc()), Ok(None));
}

#[test]
fn a_whole_text_is_written_byte_by_byte(rt: HostRuntime) {
    let sink = MemSink::of(rt.alloc(), Vec::new(rt.alloc()));
    let mut out = OneByte { sink };
    assert_eq!(rt; write_text(&mut out, TEXT), Ok(()));
    assert!(rt; out.sink.taken() == TEXT);
}

/// Devices, and why a sink over one fails.
const DEVICES: &[(Device, SinkFault)] = &[
    (Device::TakesNothing, SinkFault::Failed),
    (Device::Refuses, SinkFault::Failed),
    (Device::Keeps, SinkFault::Failed),
    (Device::WantsMemory, SinkFault::Memory),
];

fn fails_so(device: Device, fault: SinkFault) -> bool {
    let mut sink = StdSink::new(SystemWriter::of(device));
    write_text(&mut sink, TEXT) == Err(fault) && sink.write(b"") == Ok(0)
}

fn misjudged_device() -> Option<Device> {
    for (device, fault) in DEVICES {
        if !fails_so(*device, *fault) {
            return Some(*device);
        }
    }
    None
}

#[test]
fn a_device_that_takes_nothing_has_failed(rt: HostRuntime) {
    assert_eq!(rt; misjudged_device(), None);
}

/// The path of a file that no other process has. Its name begins and ends with a space.
fn own_path(rt: &HostRuntime) -> Result<String, Fail> {
    let folder = env::temp_dir(rt)?;
    let folder = folder.display();
    let number = id(rt.process());
    Ok(format!(in rt.alloc(); "{folder}/ wp_outside-{number} ")?)
}

fn write_real(rt: &HostRuntime, path: &str) -> Result<(), Fail> {
    let file = fs::create(rt, path)?;
    write_text(
        &mut StdSink::new(SystemWriter::of(SystemFile { file })),
        TEXT,
    )?;
    Ok(())
}

fn real_fault(rt: &HostRuntime, path: &str) -> Option<FileFault> {
    RealFiles::new(SystemFiles::of(rt))
        .read(rt.alloc(), path)
        .err()
}

/// Whether a file gives the text that is written to it, fails before, and is found under its very name alone.
fn gives_what_was_written(rt: &HostRuntime, path: &str) -> Result<bool, Fail> {
    if real_fault(rt, path) != Some(FileFault::Failed) {
        return Ok(false);
    }
    write_real(rt, path)?;
    if real_fault(rt, path.trim_end()) != Some(FileFault::Failed) {
        return Ok(false);
    }
    Ok(gives(
        &mut RealFiles::new(SystemFiles::of(rt)),
        rt.alloc(),
        path,
        "first\nsecond\n",
    ))
}

fn misjudged_real_length(rt: &HostRuntime, path: &str) -> Result<Option<usize>, Fail> {
    for (len, fault) in LENGTHS {
        fs::write(rt, path, &zeros(rt.alloc(), *len)?)?;
        if real_fault(rt, path) != *fault {
            return Ok(Some(*len));
        }
    }
    Ok(None)
}

#[test]
fn real_files_give_what_was_written(rt: HostRuntime) -> Result<(), Fail> {
    let path = own_path(&rt)?;
    let written = gives_what_was_written(&rt, path.as_str())?;
    let length = misjudged_real_length(&rt, path.as_str())?;
    fs::remove_file(&rt, path.as_str())?;
    assert_eq!(rt; (written, length), (true, None));
    Ok(())
}
