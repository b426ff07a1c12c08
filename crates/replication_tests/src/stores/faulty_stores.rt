//! A store whose device fails at one call.
use super::*;
use sb_checkpoint::{FaultyStore, MemoryStore, Version};

// A device that fails at this call, and the version that a failed put leaves.
#[derive(Clone, Copy)]
struct Case {
    at: u64,
    leaves: Version,
    // How two puts end, and what the store holds after each.
    puts: [Result<(), StoreFault>; 2],
    gets: [Result<Option<&'static [u8]>, StoreFault>; 2],
    // How often the device has failed after each of the four calls.
    failures: [u64; 4],
}

fn gets(
    rt: &impl Abort,
    store: &mut FaultyStore,
    answer: Result<Option<&'static [u8]>, StoreFault>,
    failures: u64,
) {
    let held = store.get();
    match (&held, answer) {
        (Ok(Some(held)), Ok(Some(bytes))) => assert!(rt; held.as_slice() == bytes),
        (Ok(held), Ok(bytes)) => assert!(rt; held.is_none() && bytes.is_none()),
        (Err(fault), Err(wanted)) => assert!(rt; *fault == wanted),
        _ => panic!(rt; "a get ends otherwise"),
    }
    assert!(rt; store.failures() == failures);
}

fn plays(rt: &(impl Abort + AllocGlobal), case: &Case) {
    let inner = MemoryStore::new(rt.alloc());
    let mut store = FaultyStore::new(inner, case.at, case.leaves);
    puts(rt, &mut store, b"first", case.puts[0], case.failures[0]);
    gets(rt, &mut store, case.gets[0], case.failures[1]);
    puts(rt, &mut store, b"second", case.puts[1], case.failures[2]);
    gets(rt, &mut store, case.gets[1], case.failures[3]);
    assert!(rt; store.inner().failures() == case.failures[3]);
}

const FAULT: StoreFault = StoreFault::Device;

const CASES: [Case; 6] = [
    Case {
        at: 0,
        leaves: Version::Old,
        puts: [Ok(()), Ok(())],
        gets: [Ok(Some(b"first")), Ok(Some(b"second"))],
        failures: [0, 0, 0, 0],
    },
    Case {
        at: 1,
        leaves: Version::Old,
        puts: [Err(FAULT), Ok(())],
        gets: [Ok(None), Ok(Some(b"second"))],
        failures: [1, 1, 1, 1],
    },
    Case {
        at: 1,
        leaves: Version::New,
        puts: [Err(FAULT), Ok(())],
        gets: [Ok(Some(b"first")), Ok(Some(b"second"))],
        failures: [1, 1, 1, 1],
    },
    Case {
        at: 2,
        leaves: Version::New,
        puts: [Ok(()), Ok(())],
        gets: [Err(FAULT), Ok(Some(b"second"))],
        failures: [0, 1, 1, 1],
    },
    Case {
        at: 3,
        leaves: Version::Old,
        puts: [Ok(()), Err(FAULT)],
        gets: [Ok(Some(b"first")), Ok(Some(b"first"))],
        failures: [0, 0, 1, 1],
    },
    Case {
        at: 4,
        leaves: Version::Old,
        puts: [Ok(()), Ok(())],
        gets: [Ok(Some(b"first")), Err(FAULT)],
        failures: [0, 0, 0, 1],
    },
];

#[test]
fn one_call_fails(rt: HostRuntime) {
    for case in &CASES {
        plays(&rt, case);
    }
}
