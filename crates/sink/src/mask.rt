// The helpers and their mask.
ghost use Rattle.std.specs.Prelude.{◌≡◌, cond, ◌≤◌};
ghost use Rattle.sink.specs.Machine.{with_helper, mask_of};

use crate::Helpers;

// The helpers by document 01's order: S, X, E, W, K. They are numbers, since `helper` answers for any byte.
pub const SPREAD: u8 = 1;

pub const EXTENDS: u8 = 2;

pub const EMPTY: u8 = 3;

pub const WITHOUT: u8 = 4;

pub const KEY: u8 = 5;

impl Helpers {
    // A number that names no helper changes nothing.
    pub(crate) fn with(self, h: u8) -> Helpers
        ensures { result ≡ with_helper self h }
    {
        match h {
            SPREAD => Helpers {
                spread: true,
                ..self
            },
            EXTENDS => Helpers {
                extends: true,
                ..self
            },
            EMPTY => Helpers {
                empty: true,
                ..self
            },
            WITHOUT => Helpers {
                without: true,
                ..self
            },
            KEY => Helpers { key: true, ..self },
            _ => self,
        }
    }

    // Bit h - 1 for helper h.
    #[tactic(auto, unfolding(crate::specs::Machine::mask_of))]
    pub(crate) fn mask(self) -> u8
        ensures { result ≡ mask_of self }
    {
        u8::from(self.spread)
            + (2 * u8::from(self.extends)
                + (4 * u8::from(self.empty)
                    + (8 * u8::from(self.without) + 16 * u8::from(self.key))))
    }
}
