//! The watch of a run that nobody observes.
ghost use Rattle.std.specs.Prelude.{◌≡◌};

use exchange_core::{Event, Retired, ServiceStage, Watch};
use peer_plan::WorkerId;

/// Always serves, and ignores its events.
#[derive(Clone, Copy, Debug, Drop)]
pub struct Unwatched;

impl Watch for Unwatched {
    ghost use Rattle.exchange_core.specs.declared.watch.ServiceStage.TheVariants.{Serving};

    ghost answered = { λ _ stage. stage ≡ Serving };

    fn stage(&self) -> ServiceStage {
        ServiceStage::Serving
    }

    fn observe(&self, _event: Event) {}

    fn retire(&self, _worker: WorkerId, _leg: &Retired) {}

    fn no_thread(&self) {}

    fn wake(&self, _worker: WorkerId) {}
}
