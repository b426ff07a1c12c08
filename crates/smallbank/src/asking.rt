//! Asking a served bank the calls of standard input.
use ask_client::{AskPlan, SocketDialer, ask_all};
use bank_program::{
    AskWatch, Device, ProgramFault, RunFault, Trouble, Watch, are_open, input, output,
};
use program_words::{AskWords, here};
use std::io;
use std::net::Net;
use std::random::RandomSource;
use std::time::Clock;

/// Asks the bank that is served at a port of this machine the calls of standard input, and prints their
/// outcomes. Without a client's number it takes one at random, and tells it on standard error. At the end
/// it tells there how many of the outcomes were no replies, if some were. An error of a stream or a
/// connection is noted.
///
/// A connection would take the place of a standard stream that is closed, so all of them must be open.
pub(crate) fn obey_ask<H: Net + Clock>(
    rt: &HostRuntime,
    net: &H,
    words: AskWords,
    trouble: &Trouble<'_>,
) -> Result<(), ProgramFault> {
    if !are_open(rt, trouble) {
        return Err(ProgramFault::Run(RunFault::Device));
    }
    let plan = AskPlan {
        client: client_of(rt, words.client)?,
        first: words.from,
        batch: words.flush,
    };
    let address = here(words.port);
    let mut dialer = Watch {
        inner: SocketDialer::new(net, address, None),
        device: Device::Address(address),
        trouble,
    };
    let (mut reader, mut writer) = (input(rt, trouble), AskWatch::new(output(rt, trouble)));
    ask_all(rt.alloc(), plan, &mut reader, &mut dialer, &mut writer)?;
    writer.counts().print_to_stderr(rt);
    Ok(())
}

// The client's number, if one is given, or one that no client has had, as far as chance has it. That is told, so
// that what has no outcome can be asked again.
fn client_of(rt: &HostRuntime, given: Option<u32>) -> Result<u32, RunFault> {
    if let Some(client) = given {
        return Ok(client);
    }
    let Ok(number) = random_number(rt) else {
        return Err(RunFault::Device);
    };
    // No client is 0.
    let client = number.max(1);
    let _ = eprintln!(rt; "smallbank: asks as client {client}");
    Ok(client)
}

fn random_number(rt: &HostRuntime) -> io::Result<u32> {
    let mut bytes = [0u8; 4];
    rt.fill_bytes(&mut bytes)?;
    Ok(u32::from_be_bytes(bytes))
}
