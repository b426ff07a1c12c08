//! Devices that fail, and what is told of them.
ghost use Rattle.std.specs.Prelude.{None};

use bank_program::{Device, Trouble, Watch};
use program_words::here;
use sb_checkpoint::{CheckpointStore, FileStore, FileWithSpare, StoreFault};
use sb_text::{ReadFault, read_all, write_whole};
use std::alloc::Global;
use std::io;
use std::io::{ErrorKind, Read, Write};
use std::process::Abort;

// The system's numbers of some errors.
const NO_FILE: i32 = 2;

const INTERRUPTED: i32 = 4;

const NO_RIGHT: i32 = 13;

const FOLDER: i32 = 21;

const FULL: i32 = 28;

// Fails with this error.
#[derive(Drop)]
struct Broken {
    error: i32,
}

impl Read for Broken {
    fn read(&mut self, _buf: &mut [u8]) -> io::Result<usize> {
        Err(io::Error::from_raw_os_error(self.error))
    }
}

impl Write for Broken {
    fn write(&mut self, _buf: &[u8]) -> io::Result<usize> {
        Err(io::Error::from_raw_os_error(self.error))
    }

    fn flush(&mut self) -> io::Result<()> {
        Ok(())
    }
}

// A folder that takes no file. There is no spare to be removed.
impl FileWithSpare for Broken {
    ghost content = { λ file. None };

    ghost spare = { λ file. None };

    ghost IsHonest = { λ file. ⊥ };

    fn write_spare(&mut self, _bytes: &[u8]) -> io::Result<()> {
        Err(io::Error::from_raw_os_error(self.error))
    }

    fn place_spare(&mut self) -> io::Result<()> {
        Ok(())
    }

    fn remove_spare(&mut self) -> io::Result<()> {
        Err(io::Error::from_raw_os_error(NO_FILE))
    }

    fn read(&mut self) -> Result<Option<Vec<u8>>, StoreFault> {
        Ok(None)
    }
}

// A device that fails with this error.
fn device_that_fails<'t, 'd>(
    error: i32,
    device: Device<'d>,
    trouble: &'t Trouble<'d>,
) -> Watch<'t, 'd, Broken> {
    Watch {
        inner: Broken { error },
        device,
        trouble,
    }
}

// This is told of what failed last, if anything is.
fn expect_cause(rt: &impl Abort, alloc: Global, trouble: &Trouble<'_>, wanted: Option<&str>) {
    match (trouble.cause(), wanted) {
        (Some(cause), Some(wanted)) => {
            let told = format!(in alloc; "{cause}").expect(rt, "memory for a text");
            assert!(rt; told.as_str() == wanted, "{told}");
        }
        (None, None) => {}
        _ => assert!(rt; false),
    }
}

#[test]
fn streams_that_fail(rt: HostRuntime) {
    let alloc = rt.alloc();
    let trouble = Trouble::new(alloc);
    expect_cause(&rt, alloc, &trouble, None);
    let mut input = device_that_fails(FOLDER, Device::Input, &trouble);
    assert!(&rt; read_all(alloc, &mut input).err() == Some(ReadFault::Device));
    let folder = "smallbank: standard input: Is a directory (os error 21)";
    expect_cause(&rt, alloc, &trouble, Some(folder));
    let mut output = device_that_fails(FULL, Device::Output, &trouble);
    assert!(&rt; write_whole(&mut output, b"total").is_err());
    let full = "smallbank: standard output: No space left on device (os error 28)";
    expect_cause(&rt, alloc, &trouble, Some(full));
}

#[test]
fn a_folder_that_takes_no_file(rt: HostRuntime) {
    let alloc = rt.alloc();
    let trouble = Trouble::new(alloc);
    let kept = Device::File {
        folder: "bank",
        name: "node0.ckpt",
    };
    let mut store = FileStore::new(device_that_fails(NO_RIGHT, kept, &trouble));
    assert!(&rt; store.probe() == Err(StoreFault::Device));
    let refused = "smallbank: bank/node0.ckpt.tmp: Permission denied (os error 13)";
    expect_cause(&rt, alloc, &trouble, Some(refused));
    assert!(&rt; store.put(b"rows") == Err(StoreFault::Device));
    expect_cause(&rt, alloc, &trouble, Some(refused));
}

#[test]
fn errors_without_the_words_of_the_system(rt: HostRuntime) {
    let alloc = rt.alloc();
    let trouble = Trouble::new(alloc);
    let interrupted = io::Error::from_raw_os_error(INTERRUPTED);
    trouble.note(Device::Output, &interrupted);
    expect_cause(&rt, alloc, &trouble, None);
    trouble.note(
        Device::Address(here(80)),
        &io::Error::from_raw_os_error(NO_RIGHT),
    );
    let refused = "smallbank: 127.0.0.1:80: Permission denied (os error 13)";
    expect_cause(&rt, alloc, &trouble, Some(refused));
    trouble.note(Device::Output, &io::Error::from(ErrorKind::WriteZero));
    expect_cause(&rt, alloc, &trouble, None);
}
