//! The context of a run: its moments, its challenges and its observer.
/// The context of a run: the sources of its moments and its challenges, and the observer of its turns.
#[derive(Drop)]
pub struct RunContext<'r, M, C, O> {
    pub moments: &'r mut M,
    pub challenges: &'r mut C,
    pub observer: &'r mut O,
}
