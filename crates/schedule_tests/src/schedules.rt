//! Whole schedules worked by hand, and their outputs.
use crate::outputs::{expect_played, joined};
use schedule_text::push_numbered;
use std::alloc::Global;
use std::process::Abort;

// What a schedule shows, its head, its events, and its output.
const SCHEDULES: &[(&str, &[u8], &[u8], &[u8])] = &[
    (
        "two hands finish out of order",
        b"nodes 1 workers 2\n",
        b"ask 1 1 deposit alice 1.00\nask 1 2 deposit bob 1.00\n\
          ask 1 3 amalgamate alice bob\nask 1 4 balance alice\nsend 0 1\nsend 0 2\n\
          send 0 3\nsend 0 4\nto 0 1\nto 0 2\nto 0 3\nto 0 4\ntake 0 1 1\ntake 0 2 0\n\
          finish 0 1\ntake 0 1 0\nfinish 0 2\ntake 0 1 0\ntake 0 2 0\nfinish 0 1\n\
          take 0 1 0\nfinish 0 1\n",
        b"new 1\nnew 2\nnew 3\nnew 4\nsent 1\nsent 2\nsent 3\nsent 4\naccepted 1\n\
          accepted 2\naccepted 3\naccepted 4\ntook 2\ntook 1\nfinished 2 done\nnothing\n\
          finished 1 done\ntook 3\nnothing\nfinished 3 done\ntook 4\n\
          finished 4 shown 0.00\nreplica 0 length 4 idle\nalice 0.00 0.00\n\
          bob 0.00 172.00\ncarol 10.00 0.00\ntotal 182.00\n",
    ),
    (
        "frames are repeated and out of order",
        b"nodes 1 workers 2\n",
        b"ask 1 1 deposit alice 1.00\nask 1 2 deposit bob 1.00\nsend 0 1\nsend 0 2\n\
          to 0 2\nto 0 1\nto 0 1\nto 0 2\n",
        b"new 1\nnew 2\nsent 1\nsent 2\nheld 2\naccepted 1\nrepeat 1\naccepted 2\n\
          replica 0 length 2 busy\n",
    ),
    (
        "what is held is taken once it is next",
        b"nodes 1 workers 2\n",
        b"ask 1 1 deposit alice 1.00\nask 1 2 deposit bob 1.00\nsend 0 1\nsend 0 2\n\
          to 0 2\nnext 0\nto 0 1\nnext 0\nnext 0\n",
        b"new 1\nnew 2\nsent 1\nsent 2\nheld 2\nnothing\naccepted 1\naccepted 2\n\
          nothing\nreplica 0 length 2 busy\n",
    ),
    (
        "a job from before a restart is taken back while its number is out",
        b"nodes 1 workers 2\n",
        b"ask 1 1 deposit alice 1.00\nsend 0 1\nto 0 1\ntake 0 1 0\nrestart 0\nto 0 1\n\
          take 0 2 0\nfinish 0 1\nfinish 0 2\n",
        b"new 1\nsent 1\naccepted 1\ntook 1\nrestarted 0\naccepted 1\ntook 1\n\
          finished 1 done\nstranger 1\nreplica 0 length 1 idle\nalice 100.00 51.00\n\
          bob 0.00 20.00\ncarol 10.00 0.00\ntotal 181.00\n",
    ),
    (
        "a job from before a restart is a stranger while its number waits",
        b"nodes 1 workers 2\n",
        b"ask 1 1 deposit alice 1.00\nsend 0 1\nto 0 1\ntake 0 1 0\nrestart 0\nto 0 1\n\
          finish 0 1\ntake 0 2 0\nfinish 0 2\n",
        b"new 1\nsent 1\naccepted 1\ntook 1\nrestarted 0\naccepted 1\nstranger 1\n\
          took 1\nfinished 1 done\nreplica 0 length 1 idle\nalice 100.00 51.00\n\
          bob 0.00 20.00\ncarol 10.00 0.00\ntotal 181.00\n",
    ),
    (
        "a mark fails and leaves the old bytes",
        b"nodes 1 workers 2\n",
        b"ask 1 1 deposit alice 1.00\nsend 0 1\nto 0 1\ntake 0 1 0\nmark 0 ok\n\
          finish 0 1\nmark 0 old\nrestart 0\nto 0 1\ntake 0 1 0\nfinish 0 1\n",
        b"new 1\nsent 1\naccepted 1\ntook 1\nbusy\nfinished 1 done\nstore fault\n\
          restarted 0\naccepted 1\ntook 1\nfinished 1 done\nreplica 0 length 1 idle\n\
          alice 100.00 51.00\nbob 0.00 20.00\ncarol 10.00 0.00\ntotal 181.00\n",
    ),
    (
        "a mark fails and leaves the new bytes",
        b"nodes 1 workers 2\n",
        b"ask 1 1 deposit alice 1.00\nsend 0 1\nto 0 1\ntake 0 1 0\nmark 0 ok\n\
          finish 0 1\nmark 0 new\nrestart 0\nto 0 1\n",
        b"new 1\nsent 1\naccepted 1\ntook 1\nbusy\nfinished 1 done\nstore fault\n\
          restarted 1\nrepeat 1\nreplica 0 length 1 idle\nalice 100.00 51.00\n\
          bob 0.00 20.00\ncarol 10.00 0.00\ntotal 181.00\n",
    ),
    (
        "a cut is marked while later entries run",
        b"nodes 1 workers 2\n",
        b"ask 1 1 deposit alice 1.00\nask 1 2 deposit alice 2.00\nsend 0 1\nsend 0 2\n\
          to 0 1\ncut 0\ncut 0\nmark 0 ok\nto 0 2\ntake 0 1 0\nfinish 0 1\ntake 0 1 0\n\
          mark 0 ok\nfinish 0 1\nrestart 0\n",
        b"new 1\nnew 2\nsent 1\nsent 2\naccepted 1\ncut 1\npending 1\nbusy\n\
          accepted 2\ntook 1\nfinished 1 done\ntook 2\nmarked 1\nfinished 2 done\n\
          restarted 1\nreplica 0 length 1 idle\nalice 100.00 51.00\nbob 0.00 20.00\n\
          carol 10.00 0.00\ntotal 181.00\n",
    ),
    (
        "two replicas are audited",
        b"nodes 2 workers 1\n",
        b"ask 1 1 deposit alice 1.00\nsend 0 1\nsend 1 1\nto 0 1\naudit 0 1\n\
          take 0 1 0\nfinish 0 1\naudit 0 1\nto 1 1\ntake 1 1 0\nfinish 1 1\naudit 0 1\n",
        b"new 1\nsent 1\nsent 1\naccepted 1\nbusy 0\ntook 1\nfinished 1 done\n\
          apart 1 0\naccepted 1\ntook 1\nfinished 1 done\nsame 181.00 0\n\
          replica 0 length 1 idle\nalice 100.00 51.00\nbob 0.00 20.00\n\
          carol 10.00 0.00\ntotal 181.00\nreplica 1 length 1 idle\nalice 100.00 51.00\n\
          bob 0.00 20.00\ncarol 10.00 0.00\ntotal 181.00\n",
    ),
    (
        "what is not there is noted as nothing",
        b"nodes 1 workers 1\n",
        b"send 0 1\nsend 1 1\nresend 1\nresend 0\nto 0 1\nto 0 0\nack 7\nanswer 0 1\n\
          from 0 1\ntake 0 2 0\ntake 0 0 0\nfinish 0 17\nmark 1 ok\nrestart 4294967295\n\
          next 0\nnext 1\naudit 0 1\nask 0 0 balance zed\n",
        b"nothing\nnothing\nnothing\nresent 0\nnothing\nnothing\nnothing\nnothing\n\
          nothing\nnothing\nnothing\nnothing\nnothing\nnothing\nnothing\nnothing\nnothing\n\
          new 1\nreplica 0 length 0 idle\nalice 100.00 50.00\nbob 0.00 20.00\n\
          carol 10.00 0.00\ntotal 180.00\n",
    ),
    (
        "a length and an answer are heard",
        b"nodes 1 workers 1\n",
        b"ask 1 1 deposit alice 1.00\nresend 0\nto 0 1\nanswer 0 1\ntake 0 1 0\n\
          finish 0 1\nack 0\nanswer 0 1\nfrom 0 1\nfrom 0 2\nfrom 0 2\nresend 0\n",
        b"new 1\nresent 1\naccepted 1\nnothing\ntook 1\nfinished 1 done\nsent 1\n\
          sent 2\nrecorded 1\nkept 1\nrepeat 1\nresent 0\n\
          replica 0 length 1 idle\nalice 100.00 51.00\nbob 0.00 20.00\n\
          carol 10.00 0.00\ntotal 181.00\n",
    ),
    (
        "the sequencer hears of lengths and replies, some of them late",
        b"nodes 2 workers 1\n",
        b"ask 1 1 balance alice\nask 1 1 balance alice\nask 1 1 balance bob\nresend 0\n\
          to 0 1\nack 0\nfrom 0 1\nresend 0\nresend 1\ntake 0 1 0\nfinish 0 1\n\
          answer 0 1\nfrom 0 2\nfrom 0 2\nrestart 0\nack 0\nfrom 0 3\nfrom 0 1\n\
          from 0 3\nresend 0\n",
        b"new 1\nrepeat 1\nmismatch 1\nresent 1\naccepted 1\nsent 1\nrecorded 1\n\
          resent 0\nresent 1\ntook 1\nfinished 1 shown 150.00\nsent 2\nkept 1\n\
          repeat 1\nrestarted 0\nsent 3\nrecorded 0\nrecorded 1\nrecorded 0\nresent 1\n\
          replica 0 length 0 idle\nalice 100.00 50.00\nbob 0.00 20.00\n\
          carol 10.00 0.00\ntotal 180.00\nreplica 1 length 0 idle\nalice 100.00 50.00\n\
          bob 0.00 20.00\ncarol 10.00 0.00\ntotal 180.00\n",
    ),
    (
        "a state goes from one replica to the other",
        b"nodes 2 workers 1\n",
        b"ask 1 1 deposit alice 1.00\nsend 0 1\nto 0 1\ntake 0 1 0\nfinish 0 1\n\
          mark 0 ok\nhave 0\nfrom 0 1\ndonor 1\ngive 0 1\nadopt 1 1\nadopt 1 1\naudit 0 1\n\
          restart 1\n",
        b"new 1\nsent 1\naccepted 1\ntook 1\nfinished 1 done\nmarked 1\nsent 1\nhas 1\n\
          donor 0 1\ngave 1\nadopted 1\nbehind 1\nsame 181.00 0\nrestarted 0\n\
          replica 0 length 1 idle\nalice 100.00 51.00\nbob 0.00 20.00\ncarol 10.00 0.00\n\
          total 181.00\nreplica 1 length 0 idle\nalice 100.00 50.00\nbob 0.00 20.00\n\
          carol 10.00 0.00\ntotal 180.00\n",
    ),
    (
        "the sequencer crashes: a lost ask gets another number",
        b"nodes 1 workers 1\n",
        b"ask 1 1 deposit alice 1.00\nappend 1 2 deposit alice 2.00\nsend 0 2\nsend 0 1\n\
          crash 1\nask 1 3 deposit bob 3.00\nappend 1 2 deposit alice 2.00\n\
          ask 1 1 deposit alice 1.00\nsync\nresend 0\nto 0 1\nto 0 2\nto 0 3\nto 0 4\n",
        b"new 1\nnew 2\nnothing\nsent 1\ncrashed 1\nnew 2\nnew 3\nrepeat 1\nsynced 3\n\
          resent 3\naccepted 1\nrepeat 1\naccepted 2\naccepted 3\nreplica 0 length 3 busy\n",
    ),
    (
        "the sequencer crashes: it forgets what was reported",
        b"nodes 1 workers 1\n",
        b"append 1 1 deposit alice 1.00\ncrash 0\nappend 1 1 deposit alice 2.00\nsync\n\
          send 0 1\nto 0 1\ntake 0 1 0\nfinish 0 1\nack 0\nanswer 0 1\nfrom 0 1\nfrom 0 2\n\
          crash 0\nappend 1 1 deposit alice 2.00\nresend 0\nfrom 0 2\nfrom 0 1\nresend 0\n",
        b"new 1\ncrashed 0\nnew 1\nsynced 1\nsent 1\naccepted 1\ntook 1\n\
          finished 1 done\nsent 1\nsent 2\nrecorded 1\nkept 1\ncrashed 1\nrepeat 1\nresent 1\n\
          kept 1\nrecorded 1\nresent 0\nreplica 0 length 1 idle\nalice 100.00 52.00\n\
          bob 0.00 20.00\ncarol 10.00 0.00\ntotal 182.00\n",
    ),
];

#[test]
fn schedules_worked_by_hand(rt: HostRuntime) {
    for (case, head, events, output) in SCHEDULES {
        expect_played(&rt, rt.alloc(), case, head, events, output);
    }
}

// This many lines, each with its number, counted from 1.
fn push_lines(rt: &impl Abort, out: &mut Vec<u8>, before: &[u8], count: u64, after: &[u8]) {
    for number in 1..=count {
        push_numbered(before, number, out).expect(rt, "memory");
        out.extend_from_slice(after).expect(rt, "memory");
    }
}

// Asks for this many deposits to alice and sends them; each text goes on with what follows the
// notes of these.
fn expect_played_after_deposits(
    rt: &impl Abort,
    alloc: Global,
    count: u64,
    events: &[u8],
    output: &[u8],
) {
    let mut all_events = Vec::new(alloc);
    push_lines(
        rt,
        &mut all_events,
        b"ask 1 ",
        count,
        b" deposit alice 0.01\n",
    );
    push_lines(rt, &mut all_events, b"send 0 ", count, b"\n");
    all_events.extend_from_slice(events).expect(rt, "memory");
    let mut all_output = Vec::new(alloc);
    push_lines(rt, &mut all_output, b"new ", count, b"\n");
    push_lines(rt, &mut all_output, b"sent ", count, b"\n");
    all_output.extend_from_slice(output).expect(rt, "memory");
    let head = b"nodes 1 workers 2\n";
    expect_played(rt, alloc, "deposits", head, &all_events, &all_output);
}

#[test]
fn entries_as_early_as_may_be(rt: HostRuntime) {
    let events = b"to 0 65\nto 0 64\nto 0 1\nto 0 65\n";
    let output = b"gap 0\nheld 64\naccepted 1\nheld 65\nreplica 0 length 1 busy\n";
    expect_played_after_deposits(&rt, rt.alloc(), 65, events, output);
}

#[test]
fn as_many_unfinished_as_may_be(rt: HostRuntime) {
    let alloc = rt.alloc();
    let mut events = Vec::new(alloc);
    push_lines(&rt, &mut events, b"to 0 ", 1_025, b"\n");
    let events = joined(
        &rt,
        alloc,
        &[&events, b"take 0 1 0\nfinish 0 1\nto 0 1025\n"],
    );
    let mut output = Vec::new(alloc);
    push_lines(&rt, &mut output, b"accepted ", 1_024, b"\n");
    let last = b"busy 1024\ntook 1\nfinished 1 done\naccepted 1025\nreplica 0 length 1025 busy\n";
    let output = joined(&rt, alloc, &[&output, last]);
    expect_played_after_deposits(&rt, alloc, 1_025, &events, &output);
}
