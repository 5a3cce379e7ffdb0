//! The count of steps.
ghost use Rattle.std.specs.Prelude.{◌≡◌, ℕ};
ghost use Rattle.iv_ledger.specs.Steps.{ticked};

use std::marker::Model;

/// The count of steps: how many calls of ledgers and of their walks were made with it.
///
/// Whoever wants to know how many steps a method takes makes a meter, lends it, and reads it afterwards. The methods of
/// a `Track` say in their contracts how many they take at most. Nothing sets a meter back.
#[derive(Drop)]
pub struct Meter {
    steps: u64,
}

impl Model for Meter {
    ghost Value = { ℕ };

    ghost view = { λ m. m.steps };
}

impl Meter {
    /// A meter of no step.
    pub fn new() -> Self
        ensures { result ≡ 0 }
    {
        Meter { steps: 0 }
    }

    /// How many steps were taken. A count that has come to the greatest `u64` stays there.
    pub fn steps(&self) -> u64
        ensures { result ≡ self.now }
    {
        self.steps
    }

    /// One more step. The count stays at the greatest `u64`.
    pub fn tick(&mut self)
        ensures { self.new ≡ ticked self.old }
    {
        self.steps = self.steps.saturating_add(1);
    }
}
