//! A store in a file, over a folder of the system.
use super::*;
use crate::checkpoints::limits::full_bank;
use crate::steps::is_so;
use faulty_files::{Call, Failing};
use sb_checkpoint::{FileStore, FileWithSpare, FolderFile, write_checkpoint};
use std::cell::Cell;
use std::path::PathBuf;
use std::rc::Rc;
use std::{env, fs};

const FAILED: Result<(), StoreFault> = Err(StoreFault::Device);

// A step on a store, with its answer.
#[derive(Clone, Copy)]
enum Step<'a> {
    // A put ends so, and the device has failed this often by then.
    Put(&'a [u8], Result<(), StoreFault>, u64),
    // A probe ends so, and the device has failed this often by then.
    Probe(Result<(), StoreFault>, u64),
    // The store holds these bytes, and no fewer, more or other ones.
    Holds(&'a [u8]),
    HoldsNothing,
    // A get fails, and so does a comparison; the device has failed this often by then.
    HoldsFails(u64),
}

fn holds_fails<S: CheckpointStore>(rt: &impl Abort, store: &mut S, failures: u64) {
    assert!(rt; store.get().err() == Some(StoreFault::Device));
    assert!(rt; store.has_content(b"some bytes") == Err(StoreFault::Device));
    assert!(rt; store.failures() == failures);
}

fn plays<P: FileWithSpare>(rt: &impl Abort, store: &mut FileStore<P>, steps: &[Step]) {
    for (place, step) in steps.iter().enumerate() {
        match *step {
            Step::Put(bytes, answer, failures) => puts(rt, store, bytes, answer, failures),
            Step::Probe(answer, failures) => {
                is_so(rt, place, store.probe() == answer);
                is_so(rt, place, store.failures() == failures);
            }
            Step::Holds(bytes) => has_content(rt, store, bytes),
            Step::HoldsNothing => holds_nothing(rt, store),
            Step::HoldsFails(failures) => holds_fails(rt, store, failures),
        }
    }
}

// A folder of this name, with nothing in it.
fn folder(rt: &impl Abort, files: &HostRuntime, name: &str) -> PathBuf {
    let place = env::temp_dir(files).expect(rt, "a folder for what passes");
    let path = place
        .join(files.alloc(), name)
        .expect(rt, "memory for a path");
    // It may have been left by a test that didn't end.
    let _ = fs::remove_dir_all(files, &path);
    fs::create_dir(files, &path).expect(rt, "a folder");
    path
}

fn has_one_file(rt: &impl Abort, files: &HostRuntime, folder: &PathBuf) {
    let found = fs::read_dir(files, folder).expect(rt, "a folder");
    assert!(rt; found.count() == 1);
}

// There is one file in the folder, which is removed with it.
fn removes(rt: &impl Abort, files: &HostRuntime, folder: &PathBuf) {
    has_one_file(rt, files, folder);
    fs::remove_dir_all(files, folder).expect(rt, "a folder");
}

// A store in this folder of the file system.
fn opened(
    rt: &impl Abort,
    files: &HostRuntime,
    folder: &PathBuf,
) -> Box<FileStore<FolderFile<HostRuntime>>> {
    let file = FolderFile::new(files.alloc(), *files, folder.as_str(), "node0.ckpt");
    let file = file.expect(rt, "memory for paths");
    Box::new(files.alloc(), FileStore::new(file)).expect(rt, "memory for a store")
}

// One of two stores in the same folder.
#[derive(Clone, Copy)]
enum Store {
    First,
    Second,
}

// Plays the steps on each of the stores in turn, in a folder of this name.
fn plays_on_two(rt: &impl Abort, files: &HostRuntime, name: &str, parts: &[(Store, &[Step])]) {
    let folder = folder(rt, files, name);
    let mut first = opened(rt, files, &folder);
    let mut second = opened(rt, files, &folder);
    for (store, steps) in parts {
        match store {
            Store::First => plays(rt, &mut *first, steps),
            Store::Second => plays(rt, &mut *second, steps),
        }
    }
    removes(rt, files, &folder);
}

// A store finds what another one has put, and replaces it.
#[test]
fn what_is_put_is_got(rt: HostRuntime) {
    plays_on_two(
        &rt,
        &rt,
        "replication_tests_put",
        &[
            (
                Store::First,
                &[
                    Step::HoldsNothing,
                    Step::Put(b"first", Ok(()), 0),
                    Step::Holds(b"first"),
                    Step::Put(b"second", Ok(()), 0),
                    Step::Holds(b"second"),
                    Step::Put(b"", Ok(()), 0),
                    Step::Holds(b""),
                ],
            ),
            (
                Store::Second,
                &[Step::Holds(b""), Step::Put(b"third", Ok(()), 0)],
            ),
            (Store::First, &[Step::Holds(b"third")]),
        ],
    );
}

#[test]
fn a_checkpoint_of_a_full_bank(rt: HostRuntime) {
    let bytes = write_checkpoint(rt.alloc(), &full_bank(&rt), 0, &[]).expect(
        &rt,
        "memory for bytes",
    );
    plays_on_two(
        &rt,
        &rt,
        "replication_tests_full",
        &[(
            Store::First,
            &[Step::Put(&bytes, Ok(()), 0), Step::Holds(&bytes)],
        )],
    );
}

// A store in this folder can't put anything.
fn is_nowhere(rt: &impl Abort, files: &HostRuntime, folder: &PathBuf) {
    plays(
        rt,
        &mut *opened(rt, files, folder),
        &[Step::Probe(FAILED, 1), Step::Put(b"some", FAILED, 2)],
    );
}

#[test]
fn a_folder_that_is_not_there(rt: HostRuntime) {
    let folder = folder(&rt, &rt, "replication_tests_gone");
    let file = folder
        .join(rt.alloc(), "file")
        .expect(&rt, "memory for a path");
    fs::write(&rt, &file, b"".as_slice()).expect(&rt, "a file");
    let gone = folder
        .join(rt.alloc(), "gone")
        .expect(&rt, "memory for a path");
    is_nowhere(&rt, &rt, &file);
    is_nowhere(&rt, &rt, &gone);
    // No folder has an empty name.
    is_nowhere(&rt, &rt, &PathBuf::new(rt.alloc()));
    removes(&rt, &rt, &folder);
}

// A store in a folder of its own; one of its calls may fail.
#[derive(Drop)]
struct Disk {
    call: Rc<Cell<Call>>,
    store: FileStore<FolderFile<Failing>>,
}

fn opened_disk(rt: &impl Abort, files: &HostRuntime, folder: &PathBuf) -> Box<Disk> {
    let call = Rc::new(files.alloc(), Cell::new(Call::None)).expect(rt, "memory for a cell");
    let failing = Failing {
        rt: *files,
        call: call.clone().expect(rt, "room for a count"),
    };
    let file = FolderFile::new(files.alloc(), failing, folder.as_str(), "node0.ckpt");
    let store = FileStore::new(file.expect(rt, "memory for paths"));
    Box::new(files.alloc(), Disk { call, store }).expect(rt, "memory for a disk")
}

// Plays the steps once for each of the calls that may fail, on one store in a folder of this name.
fn plays_failing(rt: &impl Abort, files: &HostRuntime, name: &str, steps: &[(Call, &[Step])]) {
    let folder = folder(rt, files, name);
    let mut disk = opened_disk(rt, files, &folder);
    for (call, steps) in steps {
        disk.call.set(*call);
        plays(rt, &mut disk.store, steps);
    }
    removes(rt, files, &folder);
}

// It leaves no spare either.
#[test]
fn a_put_that_fails_leaves_the_old_or_the_new(rt: HostRuntime) {
    for (call, left) in [
        (Call::Create, b"first".as_slice()),
        (Call::Write, b"first".as_slice()),
        (Call::Sync, b"first".as_slice()),
        (Call::OpenFolder, b"first".as_slice()),
        (Call::Rename, b"first".as_slice()),
        (Call::SyncFolder, b"second".as_slice()),
    ] {
        plays_failing(
            &rt,
            &rt,
            "replication_tests_fail",
            &[
                (Call::None, &[Step::Put(b"first", Ok(()), 0)]),
                (call, &[Step::Put(b"second", FAILED, 1)]),
            ],
        );
        plays_failing(
            &rt,
            &rt,
            "replication_tests_fail",
            &[
                (Call::None, &[Step::Put(b"first", Ok(()), 0)]),
                (call, &[Step::Put(b"second", FAILED, 1)]),
                (
                    Call::None,
                    &[
                        Step::Holds(left),
                        Step::Put(b"third", Ok(()), 1),
                        Step::Holds(b"third"),
                    ],
                ),
            ],
        );
    }
}

#[test]
fn a_get_that_fails(rt: HostRuntime) {
    plays_failing(
        &rt,
        &rt,
        "replication_tests_get",
        &[
            (Call::None, &[Step::Put(b"some bytes", Ok(()), 0)]),
            (Call::Open, &[Step::HoldsFails(2)]),
            (Call::Read, &[Step::HoldsFails(4)]),
            (Call::None, &[Step::Holds(b"some bytes")]),
        ],
    );
}

#[test]
fn a_folder_is_probed(rt: HostRuntime) {
    plays_failing(
        &rt,
        &rt,
        "replication_tests_probe",
        &[
            (Call::None, &[Step::Put(b"kept", Ok(()), 0)]),
            (Call::Create, &[Step::Probe(FAILED, 1)]),
            (Call::Sync, &[Step::Probe(FAILED, 2)]),
            (Call::OpenFolder, &[Step::Probe(FAILED, 3)]),
            (Call::SyncFolder, &[Step::Probe(FAILED, 4)]),
            (Call::Remove, &[Step::Probe(FAILED, 5)]),
            (Call::None, &[Step::Probe(Ok(()), 5), Step::Holds(b"kept")]),
        ],
    );
}
