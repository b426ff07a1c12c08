//! Checkpoints listed.
ghost use Rattle.std.specs.Prelude.{◌≡◌, ◌++◌, ◌∷◌, [], ℕ, List, IfErr, IfOk, MatchResult, None, OnOk, length};
ghost use Rattle.std.specs.Io.KnownBytes.{Appends};
ghost use Rattle.sb_rows.specs.Customer.{customers_of};
ghost use Rattle.sb_rows.specs.Opening.{opening_lines};
ghost use Rattle.sb_rows.specs.Rows.{SameCustomers};
ghost use Rattle.sb_checkpoint.specs.Checkpoint.{SpellsFor};
ghost use Rattle.sb_checkpoint.specs.Reading.{IsRefusedBy, first_fault};
ghost use Rattle.checkpoint_text.specs.Faults.{IsCheckpointListFault, LeavesCheckpointListing};
ghost use Rattle.checkpoint_text.specs.Listing.{IsCheckpointListing, IsOpeningListing, balance_lines};
ghost use Rattle.checkpoint_text.specs.Origins.{opening_origin, stated_origin};
ghost use Rattle.checkpoint_text.specs.inner.AddedLines.{AddsLines};
ghost use Rattle.checkpoint_text.specs.inner.StatedCheckpoint.{IsStatedCheckpoint};

use crate::fault::CheckpointListFault;
use crate::fields::StatedBank;
use crate::lines::{push_count, push_opening, push_places};
use lane_audit::bank_total;
use sb_checkpoint::{Checkpoint, CheckpointFault, read_checkpoint};
use sb_rows::{Columns, Directory, Opening};
use sb_text::{list_customers, push_total, write_whole};
use std::alloc::{AllocError, Global};
use std::io::Write;

/// What is listed of a checkpoint, if there is no opening with the names of its customers.
#[derive(Clone, Copy, Debug, PartialEq, Eq)]
pub enum CheckpointListing {
    /// Its length, the number of its customers, its totals, and all balances by place.
    Balances,
    /// Its length alone.
    Check,
}

/// Lists a checkpoint of any bank, in either layout: a line `checkpoint LENGTH`, the number of its
/// replies. With [`CheckpointListing::Balances`] lines `customers COUNT`, `total TOTAL` and, in the
/// second layout, `opening TOTAL` follow, and a line `PLACE SAVINGS CHECKING` for each customer. The
/// places count from 0, in opening order.
///
/// Fails, before anything is written unless writing fails, with
/// - [`CheckpointListFault::Checkpoint`] if the bytes are no checkpoint; if they state more customers
///   than a bank may have, the fault is `WrongCustomers` unless there is an earlier one,
/// - [`CheckpointListFault::Device`] if a write fails,
/// - [`CheckpointListFault::OutOfMemory`] if memory is refused, after the head was found right.
pub fn list_checkpoint<W: Write>(
    alloc: Global,
    bytes: &[u8],
    listing: CheckpointListing,
    writer: &mut W,
) -> Result<(), CheckpointListFault>
    ensures listed { OnOk result ((text : List ℕ) × IsCheckpointListing listing bytes.now text
        × Appends (W.contents writer.old) (W.contents writer.new) text) }
    ensures fault { let origin = stated_origin bytes.now in
        MatchResult result
        (λ _. first_fault bytes.now origin ≡ None) (IsCheckpointListFault bytes.now origin) }
    ensures unwritten { IfErr result
        (λ fault. LeavesCheckpointListing fault (W.contents writer.old) (W.contents writer.new)) }
{
    let text = listing_text(alloc, bytes, listing)?;
    match write_whole(writer, &text) {
        Ok(()) => Ok(()),
        Err(_) => Err(CheckpointListFault::Device),
    }
}

/// Lists a checkpoint of the bank of an opening, in either layout, as an opening: a line
/// `NAME SAVINGS CHECKING` for each customer, and the line `begin`.
///
/// Fails, before anything is written unless writing fails, with
/// - [`CheckpointListFault::Checkpoint`] if the bytes are no checkpoint of this bank; another number
///   of customers is `WrongCustomers`, another opening total, if the layout has one, `WrongOpening`,
/// - [`CheckpointListFault::Device`] if a write fails,
/// - [`CheckpointListFault::OutOfMemory`] if memory is refused, after the head was found right.
pub fn list_as_opening<W: Write>(
    alloc: Global,
    bytes: &[u8],
    opening: &Opening,
    writer: &mut W,
) -> Result<(), CheckpointListFault>
    ensures listed { OnOk result ((text : List ℕ) × IsOpeningListing opening.now bytes.now text
        × Appends (W.contents writer.old) (W.contents writer.new) text) }
    ensures fault { let origin = opening_origin opening.now.columns in
        MatchResult result
        (λ _. first_fault bytes.now origin ≡ None) (IsCheckpointListFault bytes.now origin) }
    ensures unwritten { IfErr result
        (λ fault. LeavesCheckpointListing fault (W.contents writer.old) (W.contents writer.new)) }
{
    let text = opening_text(alloc, bytes, opening)?;
    match write_whole(writer, &text) {
        Ok(()) => Ok(()),
        Err(_) => Err(CheckpointListFault::Device),
    }
}

// The listing of a checkpoint.
fn listing_text(
    alloc: Global,
    bytes: &[u8],
    listing: CheckpointListing,
) -> Result<Vec<u8>, CheckpointListFault>
    ensures listed { IfOk result (λ text. IsCheckpointListing listing bytes.now text.items) }
    ensures fault { let origin = stated_origin bytes.now in
        MatchResult result
        (λ _. first_fault bytes.now origin ≡ None) (IsCheckpointListFault bytes.now origin) }
{
    let (checkpoint, opening_total) = read_stated(alloc, bytes)?;
    let mut text = Vec::new(alloc);
    push_count(b"checkpoint ", checkpoint.replies().len(), &mut text)?;
    if listing == CheckpointListing::Balances {
        push_balances(checkpoint.columns(), opening_total, &mut text)?;
    }
    Ok(text)
}

// Reads a checkpoint of the bank that its bytes state, and the opening total if its layout has one.
fn read_stated(alloc: Global, bytes: &[u8]) -> Result<(Checkpoint, Option<i64>), CheckpointFault>
    ensures checkpoint { IfOk result (λ read. IsStatedCheckpoint bytes.now read.0 read.1) }
    ensures fault { let origin = stated_origin bytes.now in
        MatchResult result (λ _. first_fault bytes.now origin ≡ None) (IsRefusedBy bytes.now origin) }
{
    let bank = StatedBank::of(bytes);
    // A layout without an opening total fits any.
    let opening_total = bank.opening_total.unwrap_or(0);
    let checkpoint = read_checkpoint(alloc, bytes, bank.customers, opening_total)?;
    Ok((checkpoint, bank.opening_total))
}

// Appends the lines of all balances.
fn push_balances(
    columns: &Columns,
    opening_total: Option<i64>,
    out: &mut Vec<u8>,
) -> Result<(), AllocError>
    ensures { OnOk result (AddsLines out.old.items (balance_lines opening_total columns.now) out.new.items) }
{
    push_count(b"customers ", columns.customers(), out)?;
    push_total(b"total ", bank_total(columns), out)?;
    push_opening(opening_total, out)?;
    push_places(columns, out)
}

// The opening with the balances of a checkpoint.
fn opening_text(
    alloc: Global,
    bytes: &[u8],
    opening: &Opening,
) -> Result<Vec<u8>, CheckpointListFault>
    ensures listed { IfOk result (λ text. IsOpeningListing opening.now bytes.now text.items) }
    ensures fault { let origin = opening_origin opening.now.columns in
        MatchResult result
        (λ _. first_fault bytes.now origin ≡ None) (IsCheckpointListFault bytes.now origin) }
{
    let checkpoint = read_of(alloc, bytes, &opening.columns)?;
    let mut text = Vec::new(alloc);
    push_opening_lines(&opening.directory, checkpoint.columns(), &mut text)?;
    Ok(text)
}

// Reads a checkpoint of the bank with these opening balances.
fn read_of(alloc: Global, bytes: &[u8], opening: &Columns) -> Result<Checkpoint, CheckpointFault>
    ensures checkpoint { IfOk result (λ checkpoint. SpellsFor (opening_origin opening.now) checkpoint bytes.now) }
    ensures fault { let origin = opening_origin opening.now in
        MatchResult result (λ _. first_fault bytes.now origin ≡ None) (IsRefusedBy bytes.now origin) }
{
    read_checkpoint(alloc, bytes, opening.customers(), bank_total(opening))
}

// Appends the lines of an opening.
fn push_opening_lines(
    directory: &Directory,
    columns: &Columns,
    out: &mut Vec<u8>,
) -> Result<(), AllocError>
    requires { SameCustomers directory.now columns.now }
    ensures { let customers = customers_of directory.now columns.now in
        OnOk result (AddsLines out.old.items (opening_lines customers) out.new.items) }
{
    list_customers(directory, columns, out)?;
    out.extend_from_slice(b"begin\n")
}
