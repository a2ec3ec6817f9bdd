//! The notes made under a pass, for proofs.
ghost use Rattle.std.specs.Prelude.{◌≡◌, ℕ, List, [], ◌∷◌, ◌++◌};
ghost use Rattle.std.specs.Borrow.{ftrue};
ghost use Rattle.step_log.specs.declared.made.Made.{Made as MadeValue};

use crate::made::Made;
use std::marker::Model;

/// The step credit with which a pass began, and the notes made under it since, in order. Contracts see them as `begun` and
/// `items`; at run time it is empty. The list has no Rust type, so an owner isn't proved with the types of all notes; that
/// costs proofs by hand.
#[derive(Drop)]
pub struct Trail {
    pub ghost begun: { ℕ },
    pub ghost items: { List MadeValue },
}

impl Model for Trail {
    ghost also_owns = { λ _. ftrue };
}

// It owns nothing.
unsafe impl Send for Trail {}

unsafe impl Sync for Trail {}

impl Trail {
    // Returns a trail without notes since this credit.
    pub(crate) fn new(_begun: &u64) -> Trail
        ensures { (result.begun ≡ _begun.now) × (result.items ≡ []) }
    {
        Trail {}
    }

    // Returns the trail with one more note.
    pub(crate) fn with(_before: &Trail, _made: &Made) -> Trail
        ensures { (result.begun ≡ _before.now.begun) × (result.items ≡ _before.now.items ++ _made.now ∷ []) }
    {
        Trail {}
    }
}

const _: () = prove!(std::mem::size_of::<Trail>() == 0);
