//! A visitor that finds nothing.
use crate::visitor::{Member, Visit, Visitor};
use erd_tables::Fault;
use std::alloc::{AllocError, Global};

/// The visitor that has nothing to tell.
#[derive(Clone, Copy, Drop)]
pub(crate) struct Silent;

impl Visitor for Silent {
    ghost use Rattle.std.specs.Prelude.{[], false, ⊤};

    ghost tells = { λ _ outer want repeated value. [] };

    ghost Known = { λ _ _ _. ⊤ };

    ghost is_thorough = { λ _. false };

    fn passes_over(&self, alloc: Global, member: Member) -> Result<bool, AllocError> {
        Ok(true)
    }

    fn visit(&self, alloc: Global, visit: Visit, found: &mut Vec<Fault>) -> Result<(), AllocError> {
        Ok(())
    }
}
