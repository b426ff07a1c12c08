//! Bytes that are no checkpoint, or one of another bank.
use super::{OPENING, SECOND, expect_fault, listed, listed_as_opening, opened};
use checkpoint_text::{CheckpointListFault, CheckpointListing};
use sb_checkpoint::CheckpointFault;
use std::alloc::Global;
use std::process::Abort;

// Bytes of the second layout that are replaced: from where, how many, and by which; and the fault for
// any bank and for the bank of the opening, if there is one.
type Damage = (
    usize,
    usize,
    u8,
    Option<CheckpointFault>,
    Option<CheckpointFault>,
);

const DAMAGES: [Damage; 10] = [
    (
        7,
        1,
        b'3',
        Some(CheckpointFault::BadMagic),
        Some(CheckpointFault::BadMagic),
    ),
    (
        19,
        1,
        4,
        Some(CheckpointFault::Short),
        Some(CheckpointFault::Short),
    ),
    (
        15,
        1,
        6,
        Some(CheckpointFault::Short),
        Some(CheckpointFault::Short),
    ),
    (
        19,
        1,
        2,
        Some(CheckpointFault::WrongTotal),
        Some(CheckpointFault::WrongCustomers),
    ),
    (
        60,
        1,
        1,
        Some(CheckpointFault::OutOfRange),
        Some(CheckpointFault::OutOfRange),
    ),
    (
        20,
        8,
        255,
        Some(CheckpointFault::NegativeSavings),
        Some(CheckpointFault::NegativeSavings),
    ),
    (
        75,
        1,
        0,
        Some(CheckpointFault::WrongTotal),
        Some(CheckpointFault::WrongTotal),
    ),
    (83, 1, 0, None, Some(CheckpointFault::WrongOpening)),
    (
        84,
        1,
        8,
        Some(CheckpointFault::BadReply),
        Some(CheckpointFault::BadReply),
    ),
    (
        15,
        1,
        4,
        Some(CheckpointFault::Long),
        Some(CheckpointFault::Long),
    ),
];

// The bytes with this many of them replaced.
fn damaged(rt: &impl Abort, alloc: Global, from: usize, count: usize, byte: u8) -> Vec<u8> {
    let mut bytes = Vec::from_slice(alloc, SECOND).expect(rt, "memory for bytes");
    for damaged in bytes.iter_mut().skip(from).take(count) {
        *damaged = byte;
    }
    bytes
}

#[test]
fn each_fault_of_bytes(rt: HostRuntime) {
    let opening = opened(&rt, rt.alloc(), OPENING);
    for (from, count, byte, any, own) in DAMAGES {
        let bytes = damaged(&rt, rt.alloc(), from, count, byte);
        if let Some(fault) = any {
            let fault = CheckpointListFault::Checkpoint(fault);
            for listing in [CheckpointListing::Balances, CheckpointListing::Check] {
                let listing = listed(&rt, rt.alloc(), &bytes, listing);
                expect_fault(&rt, &listing, fault, "of any bank");
            }
        }
        if let Some(fault) = own {
            let fault = CheckpointListFault::Checkpoint(fault);
            let listing = listed_as_opening(&rt, rt.alloc(), &bytes, &opening);
            expect_fault(&rt, &listing, fault, "of this bank");
        }
    }
}

// Zeros, as many as a checkpoint of 65,537 customers has, less this many, and its head.
fn of_too_many(rt: &impl Abort, alloc: Global, less: usize) -> Vec<u8> {
    let mut bytes = Vec::from_slice(
        alloc,
        b"SBCKPT02\x00\x00\x00\x00\x00\x00\x00\x00\x00\x01\x00\x01",
    )
    .expect(rt, "memory for a head");
    bytes
        .resize(1_048_628 - less.min(1), 0)
        .expect(rt, "memory for zeros");
    bytes
}

#[test]
fn more_customers_than_a_bank_has(rt: HostRuntime) {
    let opening = opened(&rt, rt.alloc(), OPENING);
    for (less, fault) in [
        (0, CheckpointFault::WrongCustomers),
        (1, CheckpointFault::Short),
    ] {
        let fault = CheckpointListFault::Checkpoint(fault);
        let bytes = of_too_many(&rt, rt.alloc(), less);
        let listing = listed(&rt, rt.alloc(), &bytes, CheckpointListing::Check);
        expect_fault(&rt, &listing, fault, "of any bank");
        let listing = listed_as_opening(&rt, rt.alloc(), &bytes, &opening);
        expect_fault(&rt, &listing, fault, "of this bank");
    }
}

// Checks a fault's words.
fn expect_words(rt: &impl Abort, alloc: Global, fault: CheckpointListFault, words: &str) {
    let shown = fault.to_string(alloc).expect(rt, "memory for words");
    assert!(rt; shown.as_str() == words, "{words}");
}

#[test]
fn faults_in_words(rt: HostRuntime) {
    let wrong = CheckpointListFault::Checkpoint(CheckpointFault::WrongOpening);
    expect_words(&rt, rt.alloc(), wrong, "wrong opening");
    expect_words(&rt, rt.alloc(), CheckpointListFault::Device, "device");
    expect_words(
        &rt,
        rt.alloc(),
        CheckpointListFault::OutOfMemory,
        "out of memory",
    );
}
