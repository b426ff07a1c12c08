//! Directories, and copies of them.
use crate::fixtures::{expect, name};
use sb_rows::{CUSTOMERS, Directory};
use std::alloc::Global;
use std::process::Abort;

/// Checks that a directory has a name at this place.
pub(super) fn expect_name(rt: &impl Abort, directory: &Directory, place: u32, text: &str) {
    let name = name(rt, text);
    expect(rt, directory.name(place) == Some(name), text);
    expect(rt, directory.place(&name) == Some(place), text);
}

/// Checks that a directory has these names at their places, and no others.
pub(super) fn expect_names(rt: &impl Abort, directory: &Directory, names: &[&str]) {
    let mut place = 0u32;
    for text in names {
        expect_name(rt, directory, place, text);
        place = place.saturating_add(1);
    }
    expect(rt, directory.len() == names.len(), "how many names");
    expect(rt, directory.name(place).is_none(), "behind the last name");
}

/// Checks that a directory doesn't have a name.
pub(super) fn expect_no_name(rt: &impl Abort, directory: &Directory, text: &str) {
    expect(rt, directory.place(&name(rt, text)).is_none(), text);
}

// Appends a name, unless the directory has it.
fn add_name(rt: &impl Abort, directory: &mut Directory, text: &str) {
    let name = name(rt, text);
    if directory.place(&name).is_none() && directory.len() < CUSTOMERS {
        directory.push(name).expect(rt, "memory for a name");
    }
}

fn empty(rt: &impl Abort, alloc: Global) -> Box<Directory> {
    let directory = Directory::new(alloc);
    expect(rt, directory.is_empty(), "no names");
    Box::new(alloc, directory).expect(rt, "memory for a box")
}

/// A copy of a directory.
pub(super) fn copy_of(rt: &impl Abort, alloc: Global, directory: &Directory) -> Box<Directory> {
    let copy = directory.copy().expect(rt, "memory for a directory");
    Box::new(alloc, copy).expect(rt, "memory for a box")
}

#[test]
fn a_copy_stays(rt: HostRuntime) {
    let mut directory = empty(&rt, rt.alloc());
    add_name(&rt, &mut directory, "bob");
    add_name(&rt, &mut directory, "alice");
    add_name(&rt, &mut directory, "bob");
    let copy = copy_of(&rt, rt.alloc(), &directory);
    add_name(&rt, &mut directory, "carol");
    expect_names(&rt, &directory, &["bob", "alice", "carol"]);
    expect_names(&rt, &copy, &["bob", "alice"]);
    expect_no_name(&rt, &copy, "carol");
}
