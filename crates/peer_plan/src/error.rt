//! The reasons why a text is no plan.
ghost use Rattle.std.specs.Prelude.{◌≡◌};
ghost use Rattle.peer_plan.specs.declared.error.PlanError.TheVariants.{Memory};

use crate::key::Key;
use crate::key_name::KeyName;
use std::alloc::{AllocError, AllocFailed};
use std::fmt;

/// The first fault of a text: the keys are judged in the order of `Key`, table by table.
#[derive(Debug, Drop, PartialEq, Eq)]
pub enum PlanError {
    /// The text is no TOML document.
    NotToml,
    /// A key that has no default is absent, or a list of workers or peers is empty.
    Missing(Key),
    /// A value is of another kind or out of its range, or a list has too many entries.
    Range(Key),
    /// Two peers have one name.
    SameName,
    /// Two peers have one endpoint.
    SameEndpoint,
    /// No peer has a name that a route gives.
    UnknownPeer,
    /// Two routes have one prefix and one source, or none.
    SameRoute,
    /// A key that plan version 4 doesn't have. It is checked after all other faults: first the plan itself, then its
    /// workers, peers and routes, table by table. The keys of one table come in the order of their names.
    Unknown(KeyName),
    /// Memory ran out.
    Memory,
}

impl From<AllocError> for PlanError {
    ghost from_gives = { λ _ e. e ≡ Memory };

    fn from(_e: AllocError) -> PlanError {
        PlanError::Memory
    }
}

impl<T: Drop> From<AllocFailed<T>> for PlanError {
    ghost from_gives = { λ _ e. e ≡ Memory };

    fn from(_e: AllocFailed<T>) -> PlanError {
        PlanError::Memory
    }
}

impl fmt::Display for PlanError {
    ghost use Rattle.std.specs.Prelude.{Some};
    ghost use Rattle.peer_plan.specs.Errors.{error_text};

    ghost output = { λ error. Some (error_text error) };

    fn fmt<W: fmt::Write>(&self, f: &mut fmt::Formatter<W>) -> fmt::Result {
        match self {
            PlanError::NotToml => f.write_str("NotToml"),
            PlanError::Missing(key) => write!(f, "Missing {key}"),
            PlanError::Range(key) => write!(f, "Range {key}"),
            PlanError::SameName => f.write_str("SameName"),
            PlanError::SameEndpoint => f.write_str("SameEndpoint"),
            PlanError::UnknownPeer => f.write_str("UnknownPeer"),
            PlanError::SameRoute => f.write_str("SameRoute"),
            PlanError::Unknown(name) => write!(f, "Unknown {name}"),
            PlanError::Memory => f.write_str("Memory"),
        }
    }
}
