//! The context of a service.
use crate::journal::Journal;
use crate::running::Settings;
use std::alloc::Global;
use std::sync::atomic::AtomicU64;

/// The context of a service: the system that it runs on, and what its operator asked for.
#[derive(Drop)]
pub struct ServiceContext<'s, R, D> {
    pub(crate) rt: &'s R,
    pub(crate) disk: &'s D,
    pub(crate) alloc: Global,
    pub(crate) settings: &'s Settings<'s>,
    // The number of log lines that were lost since the last one was written.
    lost_lines: AtomicU64,
}

impl<'s, R, D> ServiceContext<'s, R, D> {
    /// Returns the context of a service on this system and this disk, with these settings.
    pub fn new(
        rt: &'s R,
        disk: &'s D,
        alloc: Global,
        settings: &'s Settings<'s>,
    ) -> ServiceContext<'s, R, D> {
        ServiceContext {
            rt,
            disk,
            alloc,
            settings,
            lost_lines: AtomicU64::new(0),
        }
    }

    /// Returns a log of the lines that the settings ask for. All logs of a context count lost lines together.
    pub(crate) fn journal(&self) -> Journal<'_, R> {
        Journal::new(self.rt, self.alloc, self.settings.level, &self.lost_lines)
    }
}
