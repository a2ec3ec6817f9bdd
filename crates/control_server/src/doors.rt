//! The listeners: the control socket, and the address of the metrics.
ghost use Rattle.std.specs.Io.{ReadsAtMost, WritesAtMost};
ghost use Rattle.std.specs.Prelude.{◌≡◌};

use crate::socket_file;
use crate::socket_file::SocketFile;
use mio::net::{TcpListener, TcpStream, UnixListener, UnixStream};
use mio::{Interest, Registry, Token};
use std::alloc::Global;
use std::fs::Files;
use std::io;
use std::io::{ErrorKind, Read, Write};
use std::net::{Net, Shutdown, SocketAddr};
use std::random::RandomSource;

/// The listener of a client.
#[derive(Clone, Copy)]
pub enum Door {
    /// The control socket, which accepts orders.
    Control,
    /// The address of the metrics, which accepts none.
    Metrics,
}

/// A connection to either listener.
#[derive(Drop)]
pub enum Stream {
    Unix(UnixStream),
    Tcp(TcpStream),
}

impl Stream {
    /// Registers it with the poll for reads and writes.
    pub fn register(&mut self, registry: &Registry) -> io::Result<()> {
        let both = Interest::READABLE | Interest::WRITABLE;
        match self {
            Stream::Unix(stream) => registry.register(stream, Token(1), both),
            Stream::Tcp(stream) => registry.register(stream, Token(1), both),
        }
    }

    /// Reads the available octets, at most the length of `octets`.
    pub fn read_some(&mut self, octets: &mut [u8]) -> io::Result<usize>
        ensures bound { ReadsAtMost result octets.new }
        ensures same { self.new ≡ self.old }
    {
        match self {
            Stream::Unix(stream) => stream.read(octets),
            Stream::Tcp(stream) => stream.read(octets),
        }
    }

    /// Writes as many octets as the system takes.
    pub fn write_some(&mut self, octets: &[u8]) -> io::Result<usize>
        ensures bound { WritesAtMost result octets.now }
        ensures same { self.new ≡ self.old }
    {
        match self {
            Stream::Unix(stream) => stream.write(octets),
            Stream::Tcp(stream) => stream.write(octets),
        }
    }

    /// Ends the output, which the client sees as the end of its input.
    pub fn end_output(&self) -> io::Result<()> {
        match self {
            Stream::Unix(stream) => stream.shutdown(Shutdown::Write),
            Stream::Tcp(stream) => stream.shutdown(Shutdown::Write),
        }
    }
}

// The system's number of the error "File name too long".
const NAME_TOO_LONG: i32 = 36;

/// The reason why a listener isn't bound: the name of the refusal, and the system's error number if there is one.
#[derive(Clone, Copy, Debug, PartialEq, Eq)]
pub struct NotBound {
    pub name: &'static str,
    pub code: Option<i32>,
}

impl NotBound {
    /// Returns the refusal of this name for an error of the system, or `Memory` if there is no memory.
    pub fn of(error: &io::Error, name: &'static str) -> NotBound {
        let name = match error.kind() {
            ErrorKind::OutOfMemory => "Memory",
            _ => name,
        };
        // A path that is too long for a socket's address is refused before the system sees it.
        let code = match error.kind() {
            ErrorKind::InvalidInput => Some(NAME_TOO_LONG),
            _ => error.raw_os_error(),
        };
        NotBound { name, code }
    }
}

/// The listeners that are bound.
#[derive(Drop)]
pub struct Doors {
    pub control: Option<UnixListener>,
    pub metrics: Option<TcpListener>,
    // The identity of the control socket's file.
    file: Option<SocketFile>,
}

impl Doors {
    /// Returns a value without listeners.
    pub fn none() -> Doors {
        Doors {
            control: None,
            metrics: None,
            file: None,
        }
    }

    /// Binds the control socket at its path, if one is wanted.
    pub fn bind_control<R: Files + Net + RandomSource>(
        &mut self,
        rt: &R,
        alloc: Global,
        path: Option<&str>,
    ) -> Result<(), NotBound> {
        let Some(path) = path else {
            return Ok(());
        };
        match socket_file::bind(rt, alloc, path) {
            Ok((listener, file)) => {
                self.control = Some(listener);
                self.file = Some(file);
                Ok(())
            }
            Err(error) => Err(NotBound::of(&error, "Control")),
        }
    }

    /// Removes the file of the control socket at its path, if it is still there.
    pub fn unbind_control<R: Files>(&mut self, rt: &R, path: &str) {
        if let Some(file) = self.file.take() {
            socket_file::unbind(rt, path, file);
        }
    }

    /// Binds the listener of the metrics, if one is wanted.
    pub fn bind_metrics<R: Net>(
        &mut self,
        rt: &R,
        address: Option<SocketAddr>,
    ) -> Result<(), NotBound> {
        let Some(address) = address else {
            return Ok(());
        };
        match TcpListener::bind(rt, address) {
            Ok(listener) => self.metrics = Some(listener),
            Err(error) => return Err(NotBound::of(&error, "Metrics")),
        }
        Ok(())
    }

    /// Registers the listeners with the poll.
    pub fn register(&mut self, registry: &Registry) -> io::Result<()> {
        if let Some(listener) = &mut self.control {
            registry.register(listener, Token(0), Interest::READABLE)?;
        }
        match &mut self.metrics {
            Some(listener) => registry.register(listener, Token(0), Interest::READABLE),
            None => Ok(()),
        }
    }

    /// Returns the next connection of this listener, or `WouldBlock` if none waits.
    pub fn accept(&self, door: Door) -> io::Result<Stream> {
        match (door, &self.control, &self.metrics) {
            (Door::Control, Some(listener), _) => match listener.accept() {
                Ok((stream, _)) => Ok(Stream::Unix(stream)),
                Err(error) => Err(error),
            },
            (Door::Metrics, _, Some(listener)) => match listener.accept() {
                Ok((stream, _)) => Ok(Stream::Tcp(stream)),
                Err(error) => Err(error),
            },
            _ => Err(io::Error::from(ErrorKind::WouldBlock)),
        }
    }
}
