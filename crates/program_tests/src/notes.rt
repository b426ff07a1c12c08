//! What is told of a session that is over.
use bank_clients::Traffic;
use bank_program::SessionNote;
use bank_server::AskCounts;
use std::net::{IpAddr, Ipv4Addr, SocketAddr};
use std::time::Duration;

#[test]
fn notes_of_sessions(rt: HostRuntime) {
    let traffic = Traffic {
        peer: Some(SocketAddr::new(IpAddr::V4(Ipv4Addr::LOCALHOST), 4000)),
        read: 9,
        written: 6,
        lasted: Duration::from_millis(12_034),
    };
    let counts = AskCounts {
        entries: 2,
        repeats: 30,
        refusals: 400,
    };
    let unknown = Traffic {
        peer: None,
        lasted: Duration::from_millis(0),
        ..traffic
    };
    for (second, traffic, wanted) in [
        (
            Some(86_400),
            traffic,
            "smallbank: 1970-01-02T00:00:00Z 127.0.0.1:4000 asks 432 new 2 repeats 30 read 9 written 6 seconds 12.034",
        ),
        (
            None,
            unknown,
            "smallbank: asks 432 new 2 repeats 30 read 9 written 6 seconds 0.000",
        ),
    ] {
        let note = SessionNote {
            second,
            counts,
            traffic,
        };
        let told = format!(in rt.alloc(); "{note}").expect(&rt, "memory for a text");
        assert!(&rt; told.as_str() == wanted, "{told}");
    }
}
