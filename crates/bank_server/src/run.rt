//! A whole run: its output is a stated function of its input.
ghost use Rattle.std.specs.Prelude.{◌≡◌, ◌≤◌, Ok, IfSome, IfOk, IfErr, OnOk};
ghost use Rattle.bank_server.specs.Faults.{Writes, IsFirstInputFault, LosesWorkers, IsNodesFault, StraysAmong, LeavesOutput};
ghost use Rattle.bank_server.specs.Output.{output_of};
ghost use Rattle.bank_server.specs.PreparedInput.{IsPreparedInputOf};

use crate::answers::push_output;
use crate::fault::RunFault;
use crate::followers::ReadyFollowers;
use crate::input::{PreparedInput, prepare};
use crate::node0::carry_out_log;
use cown_workers::Gate;
use sb_calls::{REPLICAS, WORKERS};
use sb_text::{read_all, write_whole};
use std::alloc::Global;
use std::io::{Read, Write};
use std::sync::Wait;
use std::thread::Threads;
use std::time::Clock;

/// Reads an opening text and asking lines, and writes the answers, the rows and the total.
///
/// The whole input is read and checked before anything is written. Node 0 executes the log, and so
/// does each of the other nodes, the followers, in a thread of its own. Node 0 is compared with
/// them before anything is written. With workers, each of node 0's calls is executed between two
/// calls of the gate, by a worker or, if the gate admits it, by the thread that waits for them.
/// Without any, calls are executed in place. The output is the same for every number of nodes and
/// of workers.
///
/// Fails with
/// - [`RunFault::Input`] at the first line at fault,
/// - [`RunFault::Strayed`] if a follower can't be started, or differs from node 0,
/// - [`RunFault::CrewGone`] if a worker can't be started, or the workers left something unfinished,
/// - [`RunFault::OutOfMemory`] if memory is refused,
/// - [`RunFault::Device`] if a read or a write fails, or the input takes more than
///   [`sb_text::READS`] reads.
///
/// After [`RunFault::Device`] part of the output may be written, after all others nothing.
pub fn run_text<H: Threads + Wait + Clock + Sync, R: Read, W: Write, G: Gate + Sync>(
    rt: &H,
    alloc: Global,
    reader: &mut R,
    writer: &mut W,
    nodes: usize,
    workers: usize,
    gate: &G,
) -> Result<(), RunFault>
    requires nodes { (1 ≤ nodes) × (nodes ≤ REPLICAS) }
    requires workers { workers ≤ WORKERS }
    // No line was at fault, and the output for the whole input is written.
    ensures done { OnOk result (IfSome (R.remaining reader.old) (λ input.
        Writes (output_of input) (W.contents writer.old) (W.contents writer.new))) }
    // A fault of the input is its first one.
    ensures first { IfErr result (λ fault. IfSome (R.remaining reader.old) (λ input.
        IsFirstInputFault fault (output_of input))) }
    // Nothing was written, unless a device failed.
    ensures unwritten { IfErr result (λ fault.
        LeavesOutput fault (W.contents writer.old) (W.contents writer.new)) }
    // Only a follower strays.
    ensures strayed { IfErr result (StraysAmong nodes) }
    // Without workers `CrewGone` never comes.
    ensures crew_lost { IfErr result (LosesWorkers workers) }
{
    let input = read_all(alloc, reader)?;
    let prepared = prepare(alloc, &input)?;
    let output = output_text(rt, alloc, prepared, input, nodes, workers, gate)?;
    match write_whole(writer, &output) {
        Ok(()) => Ok(()),
        Err(_) => Err(RunFault::Device),
    }
}

// The output for a prepared input, made by this many nodes and workers.
fn output_text<H: Threads + Wait + Clock + Sync, G: Gate + Sync>(
    rt: &H,
    alloc: Global,
    prepared: PreparedInput,
    input: Vec<u8>,
    nodes: usize,
    workers: usize,
    gate: &G,
) -> Result<Vec<u8>, RunFault>
    requires prepared { IsPreparedInputOf input.items prepared }
    requires nodes { nodes ≤ REPLICAS }
    requires workers { workers ≤ WORKERS }
    ensures value { IfOk result (λ output. output_of input.items ≡ Ok output.items) }
    ensures fault { IfErr result (IsNodesFault nodes workers) }
{
    let PreparedInput { primary, standings } = prepared;
    let entries = primary.log().length() as usize;
    let followers = ReadyFollowers::open(alloc, primary.node(), nodes, entries)?;
    let node = carry_out_log(rt, alloc, primary, followers, workers, gate)?;
    // The output takes the input's place in memory, whose pages are already mapped.
    let mut output = input;
    output.clear();
    match push_output(&standings, &node, &mut output) {
        Ok(()) => Ok(output),
        Err(_) => Err(RunFault::OutOfMemory),
    }
}
