//! The sockets of clients, which one thread polls.
ghost use Rattle.std.specs.Prelude.{◌≤◌, length, None, true};

use crate::client_errors::is_of_a_client;
use crate::connections::Connections;
use crate::session_notes::SessionNotes;
use crate::slot::Slot;
use crate::socket_places::{Sign, SocketPlaces, earlier, has_come};
use bank_server::{Arrival, Arrivals, AskCounts};
use mio::net::{TcpListener, TcpStream};
use mio::{Events, Interest, Poll, Token};
use std::alloc::Global;
use std::io;
use std::io::ErrorKind;
use std::net::{Net, SocketAddr};
use std::time::{Clock, Duration, Instant};

// How many signs of the system are taken at once.
const SIGNS: usize = 1_024;

// How many are accepted before others are served again.
const GUESTS: usize = 64;

// After how long accepting is tried again, in milliseconds, if the system can't.
const RETRY: u64 = 100;

/// How many clients are served at once, how many in all, and for how long each may be silent.
#[derive(Clone, Copy, Debug, PartialEq, Eq)]
pub struct Limits {
    /// So many at once. One more is closed as it comes.
    pub at_once: usize,
    /// So many in all. Later ones aren't accepted.
    pub in_all: usize,
    /// So long. A client is silent until a whole frame has come from it, or bytes went to it.
    pub patience: Option<Duration>,
}

/// The sockets of clients, and the one where they come. All of them are polled by the thread that
/// serves, and none is waited for alone. Who closes its connection before it sends something isn't a client, as
/// health checks do. It isn't known what arrives there, or what they take.
#[derive(Drop)]
pub struct ClientSockets<'a, H: Clock, N> {
    rt: &'a H,
    notes: N,
    poll: Poll,
    events: Events<Global>,
    listener: TcpListener,
    // The token of the listener: the number of places.
    door: usize,
    // Whether someone may have come, and when that is found out if accepting failed.
    has_guests: bool,
    retry: Option<Instant>,
    // How many may come yet. Who came and sent nothing doesn't count.
    left: usize,
    places: SocketPlaces,
    now: Instant,
}

impl<'a, H: Clock, N: SessionNotes> ClientSockets<'a, H, N> {
    /// The sockets of the clients who will come to this one, each of which is noted as it is left.
    ///
    /// Fails if the device fails, or memory is refused.
    pub fn new(
        rt: &'a H,
        net: &impl Net,
        alloc: Global,
        listener: TcpListener,
        limits: Limits,
        notes: N,
    ) -> io::Result<ClientSockets<'a, H, N>>
    where
        N: Drop,
    {
        let poll = Poll::new(net)?;
        let mut listener = listener;
        let door = limits.at_once;
        poll.registry()
            .register(&mut listener, Token(door), Interest::READABLE)?;
        Ok(ClientSockets {
            rt,
            notes,
            poll,
            events: Events::with_capacity(alloc, SIGNS)?,
            listener,
            door,
            has_guests: true,
            retry: None,
            left: limits.in_all,
            places: SocketPlaces::new(alloc, limits.at_once, limits.patience)?,
            now: Instant::now(rt)?,
        })
    }

    /// The port where clients are accepted.
    pub fn port(&self) -> io::Result<u16> {
        Ok(self.listener.local_addr()?.port())
    }

    // For how long the system is asked at most.
    fn timeout(&self) -> Option<Duration> {
        if self.places.is_busy() || self.is_open() {
            return Some(Duration::from_millis(0));
        }
        let until = earlier(self.retry, self.places.look())?;
        Some(until.duration_since(self.now))
    }

    // Takes what the system said.
    fn take_signs(&mut self) {
        for event in &self.events {
            let place = event.token().0;
            if place == self.door {
                self.has_guests = true;
                continue;
            }
            let sign = Sign {
                is_readable: event.is_readable() || event.is_error(),
                is_closing: event.is_read_closed() || event.is_error(),
                is_writable: event.is_writable(),
            };
            self.places.take_sign(place, sign);
        }
    }

    // A guest that came gets a place, or is closed if there is none.
    fn seat(&mut self, stream: TcpStream, peer: SocketAddr) {
        let Some(place) = self.places.take_free() else {
            return;
        };
        match self.register(stream, peer, place) {
            Ok(slot) => {
                self.places.occupy(place, slot);
                self.left = self.left.saturating_sub(1);
            }
            Err(_) => self.places.give_back(place),
        }
    }

    // Has the system tell of a socket.
    fn register(&self, stream: TcpStream, peer: SocketAddr, place: usize) -> io::Result<Slot> {
        let mut stream = stream;
        // What is written is sent at once.
        stream.set_nodelay(true)?;
        let both = Interest::READABLE | Interest::WRITABLE;
        self.poll
            .registry()
            .register(&mut stream, Token(place), both)?;
        Ok(Slot::new(stream, peer, self.now))
    }

    // The next one who came, if it is known that there is one.
    fn accept(&mut self) -> Option<(TcpStream, SocketAddr)> {
        match self.listener.accept() {
            Ok(guest) => Some(guest),
            Err(error) => {
                match error.kind() {
                    ErrorKind::WouldBlock => self.has_guests = false,
                    kind if is_of_a_client(kind) => {}
                    // No descriptor is left, say. It is tried again.
                    _ => self.retry = self.now.checked_add(Duration::from_millis(RETRY)),
                }
                None
            }
        }
    }

    // Gives places to those who came. One of them is a client once it has sent something.
    fn admit(&mut self) {
        for _ in 0..GUESTS {
            if !self.is_open() {
                break;
            }
            if let Some((stream, peer)) = self.accept() {
                self.seat(stream, peer);
            }
        }
        let closed = self.places.look_at_guests(self.now);
        self.left = self.left.saturating_add(closed);
    }

    // Whether clients are accepted now.
    fn is_open(&self) -> bool {
        self.has_guests && self.left > 0 && self.retry.is_none()
    }
}

impl<'a, H: Clock, N: SessionNotes> Arrivals for ClientSockets<'a, H, N> {
    ghost coming = { λ sockets. None };

    ghost here = { λ sockets. None };

    ghost outgoing = { λ sockets. record { sent = None; full = λ place. true } };

    fn next(&mut self, chunk: &mut [u8]) -> Option<Arrival> {
        self.places.next(chunk, self.now)
    }

    fn heard(&mut self, client: usize) {
        self.places.hear_place(client, self.now);
    }
}

impl<'a, H: Clock, N: SessionNotes> Connections for ClientSockets<'a, H, N> {
    ghost writable_places = { λ sockets. sockets.places.writable.items };

    fn wait(&mut self) -> io::Result<()> {
        self.places.forget_writable();
        self.now = Instant::now(self.rt)?;
        let timeout = self.timeout();
        self.poll.poll(&mut self.events, timeout)?;
        self.now = Instant::now(self.rt)?;
        self.take_signs();
        if has_come(self.retry, self.now) {
            self.retry = None;
        }
        self.places.find_silent(self.now);
        self.places.begin();
        self.admit();
        Ok(())
    }

    fn writable(&self) -> &[usize] {
        self.places.writable()
    }

    fn send(&mut self, place: usize, bytes: &[u8]) -> usize {
        self.places.write_place(place, bytes, self.now)
    }

    fn leave(&mut self, place: usize, is_at_fault: bool, counts: AskCounts) {
        if let Some(traffic) = self.places.traffic_at(place, self.now) {
            self.notes.note_session(counts, traffic);
        }
        self.places.leave_place(place, is_at_fault, self.now);
    }
}
