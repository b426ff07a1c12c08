//! The stories in the folder examples/, with their outputs.
use crate::outputs::expect_output;

const STORIES: &[(&str, &[u8], &[u8])] = &[
    (
        "lost and repeated",
        b"nodes 1 workers 2\nann 200.00 30.00\nben 0.00 15.50\nbegin\n\
          ask 1 1 deposit ben 20.00\nask 2 1 check ann 180.00\nask 1 2 amalgamate ben ann\n\
          send 0 1\nsend 0 2\nsend 0 3\nto 0 3\nto 0 1\nto 0 1\nto 0 3\n\
          ask 1 1 deposit ben 20.00\nask 1 1 deposit ben 25.00\nack 0\nfrom 0 1\nresend 0\n\
          to 0 5\nto 0 4\nnext 0\nto 0 2\nack 0\nfrom 0 2\nfrom 0 1\nresend 0\ntake 0 1 0\n\
          take 0 2 0\nfinish 0 2\ntake 0 2 0\nfinish 0 1\ntake 0 1 0\nfinish 0 1\nanswer 0 1\n\
          answer 0 3\nfrom 0 4\nfrom 0 3\nfrom 0 3\n",
        b"new 1\nnew 2\nnew 3\nsent 1\nsent 2\nsent 3\nheld 3\naccepted 1\nrepeat 1\nheld 3\n\
          repeat 1\nmismatch 1\nsent 1\nrecorded 1\nresent 2\nheld 3\naccepted 2\naccepted 3\n\
          repeat 2\nsent 2\nrecorded 3\nrecorded 1\nresent 2\ntook 1\ntook 2\n\
          finished 2 done\nnothing\nfinished 1 done\ntook 3\nfinished 3 done\nsent 3\nsent 4\n\
          kept 3\nkept 1\nrepeat 1\nreplica 0 length 3 idle\nann 200.00 -114.50\n\
          ben 0.00 0.00\ntotal 85.50\n",
    ),
    (
        "a job outlives its replica",
        b"nodes 1 workers 2\nann 200.00 30.00\nben 0.00 15.50\nbegin\n\
          ask 1 1 check ben 20.00\nask 1 2 deposit ben 5.50\nresend 0\nto 0 1\ntake 0 1 0\n\
          restart 0\nto 0 1\ntake 0 2 0\nfinish 0 1\nfinish 0 2\nto 0 2\ntake 0 1 0\n\
          mark 0 ok\nrestart 0\nto 0 1\nto 0 2\nfinish 0 1\ntake 0 1 1\ntake 0 1 0\n\
          finish 0 1\ntake 0 1 0\nfinish 0 1\nmark 0 ok\nanswer 0 2\nrestart 0\nto 0 1\n\
          answer 0 1\nfrom 0 2\nfrom 0 1\naudit 0 0\n",
        b"new 1\nnew 2\nresent 2\naccepted 1\ntook 1\nrestarted 0\naccepted 1\ntook 1\n\
          finished 1 penalised\nstranger 1\naccepted 2\ntook 2\nbusy\nrestarted 0\n\
          accepted 1\naccepted 2\nstranger 2\nnothing\ntook 1\nfinished 1 penalised\ntook 2\n\
          finished 2 done\nmarked 2\nsent 1\nrestarted 2\nrepeat 1\nsent 2\nkept 1\nkept 2\n\
          same 230.00 0\nreplica 0 length 2 idle\nann 200.00 30.00\nben 0.00 0.00\n\
          total 230.00\n",
    ),
    (
        "marks that fail",
        b"nodes 2 workers 1\nann 200.00 30.00\nben 0.00 15.50\nbegin\n\
          ask 1 1 savings ann -50.00\nask 1 2 check ben 40.00\nresend 0\nresend 1\nto 0 1\n\
          take 0 1 0\nmark 0 ok\nfinish 0 1\nmark 0 ok\nto 0 2\ntake 0 1 0\nfinish 0 1\n\
          mark 0 old\nrestart 0\nanswer 0 2\nto 0 2\ntake 0 1 0\nfinish 0 1\nmark 0 new\n\
          restart 0\nanswer 0 2\nto 1 1\nto 1 2\naudit 0 1\ntake 1 1 1\nfinish 1 1\n\
          take 1 1 0\nfinish 1 1\naudit 0 1\nmark 1 old\nrestart 1\naudit 0 1\n",
        b"new 1\nnew 2\nresent 2\nresent 2\naccepted 1\ntook 1\nbusy\nfinished 1 done\n\
          marked 1\naccepted 2\ntook 2\nfinished 2 penalised\nstore fault\nrestarted 1\n\
          nothing\naccepted 2\ntook 2\nfinished 2 penalised\nstore fault\nrestarted 2\n\
          sent 1\naccepted 1\naccepted 2\nbusy 1\ntook 2\nfinished 2 penalised\ntook 1\n\
          finished 1 done\nsame 154.50 1\nstore fault\nrestarted 0\napart 2 0\n\
          replica 0 length 2 idle\nann 150.00 30.00\nben 0.00 -25.50\ntotal 154.50\n\
          replica 1 length 0 idle\nann 200.00 30.00\nben 0.00 15.50\ntotal 245.50\n",
    ),
    (
        "a sequencer restarts",
        b"nodes 2 workers 1\nann 200.00 30.00\nben 0.00 15.50\nbegin\n\
          ask 1 1 deposit ben 4.50\nappend 1 2 check ann 250.00\n\
          append 2 1 savings ann 20.00\nsend 0 2\nresend 0\nto 0 1\ntake 0 1 0\nack 0\n\
          from 0 1\ncrash 0\nfinish 0 1\nappend 2 1 savings ann 20.00\nsync\n\
          append 1 2 check ann 250.00\nappend 3 1 pay ben ann 10.00\ncrash 3\n\
          ask 1 2 check ann 250.00\nresend 0\nresend 1\nto 0 2\nto 0 3\ntake 0 1 0\n\
          to 0 4\nfinish 0 1\nto 1 3\nto 1 1\nto 1 2\nnext 1\ntake 0 1 0\nfinish 0 1\n\
          take 1 1 1\nfinish 1 1\ntake 1 1 0\nfinish 1 1\ntake 1 1 0\nfinish 1 1\n\
          answer 1 3\nfrom 1 1\naudit 0 1\n",
        b"new 1\nnew 2\nnew 3\nnothing\nresent 1\naccepted 1\ntook 1\nsent 1\n\
          recorded 1\ncrashed 1\nfinished 1 done\nnew 2\nsynced 2\nnew 3\nnew 4\n\
          crashed 3\nrepeat 3\nresent 3\nresent 3\nrepeat 1\naccepted 2\ntook 2\n\
          accepted 3\nfinished 2 done\nheld 3\naccepted 1\naccepted 2\naccepted 3\n\
          took 3\nfinished 3 done\ntook 2\nfinished 2 done\ntook 1\nfinished 1 done\n\
          took 3\nfinished 3 done\nsent 1\nkept 3\nsame 20.00 1\n\
          replica 0 length 3 idle\nann 220.00 -220.00\nben 0.00 20.00\ntotal 20.00\n\
          replica 1 length 3 idle\nann 220.00 -220.00\nben 0.00 20.00\ntotal 20.00\n",
    ),
];

#[test]
fn stories_of_the_examples(rt: HostRuntime) {
    for (case, schedule, output) in STORIES {
        expect_output(&rt, rt.alloc(), case, schedule, output);
    }
}
