//! The standard streams.
use crate::device::Device;
use crate::trouble::Trouble;
use crate::watch::Watch;
use std::io::{Stdin, Stdout};
use std::os::fd::AsRawFd;
use std::{fs, io};

/// Standard input, watched.
pub fn input<'t, 'd>(rt: &HostRuntime, trouble: &'t Trouble<'d>) -> Watch<'t, 'd, Stdin> {
    Watch {
        inner: rt.stdin(),
        device: Device::Input,
        trouble,
    }
}

/// Standard output, watched.
pub fn output<'t, 'd>(rt: &HostRuntime, trouble: &'t Trouble<'d>) -> Watch<'t, 'd, Stdout> {
    Watch {
        inner: rt.stdout(),
        device: Device::Output,
        trouble,
    }
}

// How many standard streams there are. They have the lowest numbers.
const STREAMS: i32 = 3;

// The system's number for the error that a closed stream gives.
const BAD_FILE: i32 = 9;

/// Whether standard input, output and error are open, as far as the system says. If not, the first one
/// that isn't is noted.
///
/// A file that is opened takes the lowest number that is free. In the place of a standard stream that was
/// closed, a log would get what is printed.
pub fn are_open(rt: &HostRuntime, trouble: &Trouble<'_>) -> bool {
    match fs::open(rt, "/") {
        Ok(file) => {
            let lowest = file.as_raw_fd();
            if lowest < STREAMS {
                trouble.note(stream_of(lowest), &io::Error::from_raw_os_error(BAD_FILE));
            }
            lowest >= STREAMS
        }
        Err(error) => {
            let (folder, name) = ("", "");
            trouble.note(Device::File { folder, name }, &error);
            false
        }
    }
}

// The standard stream of this number. If it is that of errors, nothing can be told.
fn stream_of<'a>(number: i32) -> Device<'a> {
    if number == 0 {
        Device::Input
    } else {
        Device::Output
    }
}
