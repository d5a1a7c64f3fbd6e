ghost use Rattle.std.specs.Prelude.{◌≡◌, true};
ghost use Rattle.design_core.specs.Wellformed.{is_design};

use crate::items::{ItemList, PowerUpList};
use crate::signals::{DScopes, SignalList};
use bits_core::{Duplicate, NoMemory};
use std::alloc::Global;

/// A design: its scopes, signals and items, and the power-up value of each register bit in the order of bits.
///
/// It keeps that its parts fit together: numbers name its own scopes, signals and bits; scope 0 is the root and each other scope stands in one of a lower
/// number; signals have as many bits as their bounds span; no two scopes, signals or bits print alike; expressions and statements are formed; each item
/// carries its weight, and signals and items together weigh at most 2^22.
#[derive(Drop)]
pub struct Design {
    pub scopes: DScopes,
    pub signals: SignalList,
    pub items: ItemList,
    pub powerup: PowerUpList,
    pub ghost kept: { is_design scopes signals items powerup ≡ true },
}

impl Duplicate for Design {
    fn copy(&self, alloc: Global) -> Result<Design, NoMemory> {
        let scopes = self.scopes.copy(alloc)?;
        let signals = self.signals.copy(alloc)?;
        let items = self.items.copy(alloc)?;
        let powerup = self.powerup.copy(alloc)?;
        Ok(Design {
            scopes,
            signals,
            items,
            powerup,
        })
    }
}
