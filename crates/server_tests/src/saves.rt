//! Saving a served bank.
use crate::bank::{expect, expect_bytes, opened, opened_over};
use crate::clients::ask_unflushed;
use crate::stores::{Habit, HabitualStore};
use crate::wire::{BALANCE, DEPOSIT, DONE, FLUSH, SHOWN, serve};
use bank_server::{Primary, SaveFault};
use cown_board::Runs;
use cown_workers::InlineCrew;
use sb_checkpoint::{
    CheckpointStore, FileStore, FileWithSpare, FolderFile, MemoryStore, StoreFault,
};
use std::alloc::Global;
use std::io::Read;
use std::path::PathBuf;
use std::process::Abort;
use std::{env, fs};

// The checkpoint of the three customers' bank after client 7's balance and its deposit for bob: its
// length, the number of customers, their savings and checking, the total, the opening total, and
// the two replies.
const SAVED: &[u8] = b"SBCKPT02\x00\x00\x00\x00\x00\x00\x00\x02\x00\x00\x00\x03\
\x00\x00\x00\x00\x00\x00\x27\x10\x00\x00\x00\x00\x00\x00\x00\x00\x00\x00\x00\x00\x00\x00\x03\xe8\
\x00\x00\x00\x00\x00\x00\x13\x88\x00\x00\x00\x00\x00\x00\x09\xc4\x00\x00\x00\x00\x00\x00\x00\x00\
\x00\x00\x00\x00\x00\x00\x48\x44\x00\x00\x00\x00\x00\x00\x46\x50\
\x00\x00\x00\x00\x00\x00\x00\x3a\x98\x01\x00\x00\x00\x00\x00\x00\x00\x00";

// Checks how a save ends.
fn expect_saved<S: CheckpointStore>(
    rt: &impl Abort,
    primary: &mut Primary<S>,
    wanted: Result<u64, SaveFault>,
    case: &str,
) {
    expect(rt, primary.save() == wanted, case);
}

// Serves a session to a bank that is saved into this file, before and after.
fn save_in<P: FileWithSpare>(rt: &impl Abort, alloc: Global, file: P) {
    let mut primary = opened_over(rt, alloc, FileStore::new(file));
    expect_saved(rt, &mut *primary, Ok(0), "before");
    let sent: &[&[u8]] = &[BALANCE, DEPOSIT, FLUSH, BALANCE, FLUSH];
    serve(rt, alloc, &mut *primary, sent, &[SHOWN, DONE, SHOWN]);
    expect_saved(rt, &mut *primary, Ok(2), "after");
}

// What the checkpoint's file holds.
fn held_in(rt: &impl Abort, host: &HostRuntime, folder: &PathBuf) -> Vec<u8> {
    let path = folder
        .join(host.alloc(), "node0.ckpt")
        .expect(rt, "memory for a path");
    let mut held = Vec::new(host.alloc());
    let mut file = fs::File::open(host, &path).expect(rt, "a checkpoint's file");
    file.read_to_end(&mut held).expect(rt, "a checkpoint");
    held
}

// An empty folder of temporary files.
fn empty_folder(rt: &impl Abort, host: &HostRuntime) -> PathBuf {
    let folder = env::temp_dir(host)
        .expect(rt, "a folder of temporary files")
        .join(host.alloc(), "server_tests_saves")
        .expect(rt, "memory for a path");
    let _ = fs::remove_dir_all(host, &folder);
    fs::create_dir(host, &folder).expect(rt, "a folder");
    folder
}

#[test]
fn a_file_has_what_was_put(rt: HostRuntime) {
    let folder = empty_folder(&rt, &rt);
    let file = FolderFile::new(rt.alloc(), rt, folder.as_str(), "node0.ckpt").expect(
        &rt,
        "memory for a file",
    );
    save_in(&rt, rt.alloc(), file);
    let held = held_in(&rt, &rt, &folder);
    fs::remove_dir_all(&rt, &folder).expect(&rt, "a folder to remove");
    assert!(&rt; held.len() == 102);
    expect_bytes(&rt, &held, SAVED, "what the file has");
}

#[test]
fn something_unfinished(rt: HostRuntime) {
    let mut primary = opened(&rt, rt.alloc());
    ask_unflushed(&rt, rt.alloc(), &mut primary, DEPOSIT);
    expect_saved(
        &rt,
        &mut *primary,
        Err(SaveFault::Busy),
        "a deposit that is not finished",
    );
    expect(
        &rt,
        primary.settle(&mut InlineCrew) == Ok(()),
        "all carried out",
    );
    expect_saved(&rt, &mut *primary, Ok(1), "a deposit");
}

// Checks how a save ends after a deposit, over a store with this habit. The log stays.
fn expect_saved_over(
    rt: &impl Abort,
    alloc: Global,
    habit: Habit,
    wanted: Result<u64, SaveFault>,
    case: &str,
) {
    let held = None;
    let mut primary = opened_over(rt, alloc, HabitualStore { alloc, held, habit });
    serve(rt, alloc, &mut *primary, &[DEPOSIT, FLUSH], &[DONE]);
    expect_saved(rt, &mut *primary, wanted, case);
    expect(rt, primary.log().length() == 1, "the log");
    expect(rt, primary.node().length() == 1, "the node");
}

#[test]
fn stores_that_lie(rt: HostRuntime) {
    let fault = Err(SaveFault::ReadBack);
    expect_saved_over(&rt, rt.alloc(), Habit::Honest, Ok(1), "an honest one");
    expect_saved_over(&rt, rt.alloc(), Habit::Adds, fault, "one that adds");
    expect_saved_over(&rt, rt.alloc(), Habit::Forgets, fault, "one that forgets");
}

#[test]
fn stores_that_fail(rt: HostRuntime) {
    for (fault, wanted) in [
        (StoreFault::Device, SaveFault::Device),
        (StoreFault::OutOfMemory, SaveFault::OutOfMemory),
    ] {
        let wanted = Err(wanted);
        expect_saved_over(&rt, rt.alloc(), Habit::FailsPuts(fault), wanted, "puts");
        expect_saved_over(&rt, rt.alloc(), Habit::FailsGets(fault), wanted, "gets");
    }
}
