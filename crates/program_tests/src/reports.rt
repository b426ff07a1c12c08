//! How faults are reported.
use bank_program::{ProgramFault, told};
use bank_server::{InputFault, RunFault, StrayReason};
use bank_service::{ListFault, ServeFault};
use sb_calls::CallFault;
use sb_log::LogFault;
use schedule_player::ScheduleFault;
use std::alloc::Global;
use std::process::Abort;

// Reports a fault, and compares the status and the text.
fn expect_told(rt: &impl Abort, alloc: Global, fault: ProgramFault, status: u8, text: &str) {
    let report = told(fault);
    assert!(rt; report.status == status);
    let told = format!(in alloc; "{report}").expect(rt, "memory for a text");
    assert!(rt; told.as_str() == text);
}

#[test]
fn faults_told(rt: HostRuntime) {
    let fault = InputFault::Call(CallFault::BadName);
    let refused = RunFault::Input { line: 7, fault };
    let strayed = RunFault::Strayed(5, StrayReason::Entry(17));
    for (fault, status, text) in [
        (ProgramFault::Run(refused), 1, "smallbank: line 7: bad name"),
        (
            ProgramFault::Run(strayed),
            3,
            "smallbank: node 5 strayed\nsmallbank: node 5: differs at entry 17",
        ),
        (
            ProgramFault::Run(RunFault::CrewGone),
            3,
            "smallbank: crew gone",
        ),
        (ProgramFault::Run(RunFault::Device), 3, "smallbank: device"),
        (
            ProgramFault::Play(ScheduleFault::OutOfMemory),
            3,
            "smallbank: out of memory",
        ),
    ] {
        expect_told(&rt, rt.alloc(), fault, status, text);
    }
}

#[test]
fn faults_of_a_server_told(rt: HostRuntime) {
    let fault = InputFault::Call(CallFault::BadName);
    let refused = RunFault::Input { line: 7, fault };
    let strayed = RunFault::Strayed(5, StrayReason::Entry(17));
    for (fault, status, text) in [
        (ServeFault::Run(refused), 1, "smallbank: line 7: bad name"),
        (
            ServeFault::Run(strayed),
            3,
            "smallbank: node 5 strayed\nsmallbank: node 5: differs at entry 17",
        ),
        (ServeFault::ReadBack, 3, "smallbank: read back"),
        (
            ServeFault::Store,
            3,
            "smallbank: the store's folder takes no file",
        ),
        (ServeFault::StoreInUse, 3, "smallbank: store: in use"),
        (
            ServeFault::PortTaken(4000),
            3,
            "smallbank: port 4000 is taken",
        ),
        (
            ServeFault::Log(LogFault::InUse),
            3,
            "smallbank: log: in use",
        ),
        (
            ServeFault::AnotherOpening,
            3,
            "smallbank: log: another opening",
        ),
    ] {
        expect_told(&rt, rt.alloc(), ProgramFault::Serve(fault), status, text);
    }
}

#[test]
fn faults_of_a_log_told(rt: HostRuntime) {
    let damaged = LogFault::Damaged {
        byte: 105,
        behind: 82,
    };
    for (fault, status, text) in [
        (
            ListFault::Log(damaged),
            1,
            "smallbank: log: damaged at byte 105",
        ),
        (ListFault::NoLog, 1, "smallbank: log: no log"),
        (
            ListFault::Log(LogFault::Device),
            3,
            "smallbank: log: device",
        ),
        (
            ListFault::Rest,
            3,
            "smallbank: log: the rest can't be written",
        ),
        (ListFault::Device, 3, "smallbank: device"),
    ] {
        expect_told(&rt, rt.alloc(), ProgramFault::Log(fault), status, text);
    }
}
