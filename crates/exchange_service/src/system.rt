//! The parts of the system that a service uses.
use call_files::Disk;
use std::net::Net;
use std::random::RandomSource;
use std::sync::Wait;
use std::thread::Threads;
use std::time::Clock;
use trace_writer::Folder;

/// The system of a service: clocks, sockets, random octets, threads, and standard error for its log.
pub trait ServiceSystem: Clock + Eprint + Net + RandomSource + Threads + Wait + Sync {}

impl<R: Clock + Eprint + Net + RandomSource + Threads + Wait + Sync> ServiceSystem for R {}

/// The disk of a service: the file of its call records, and the folder of its trace.
pub trait ServiceDisk: Disk + Folder + Sync {}

impl<D: Disk + Folder + Sync> ServiceDisk for D {}
