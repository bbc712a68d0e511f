ghost use Rattle.std.specs.Prelude.{◌≡◌, ℕ, ◌+◌, ◌<◌, OnOk, OnErr, IsErr, ◌↔◌};

use std::marker::Model;

/// The steps that are left to calls which walk a term or bind variables. A clause sees the number.
#[derive(Drop)]
pub struct Fuel {
    left: u64,
}

/// Fewer steps were left than the call takes.
#[derive(Clone, Copy, Debug, PartialEq, Eq)]
pub struct Spent;

impl Model for Fuel {
    ghost Value = { ℕ };

    ghost view = { λ f. f.left };
}

impl Fuel {
    /// So many steps.
    pub fn new(left: u64) -> Fuel
        ensures { result ≡ left }
    {
        Fuel { left }
    }

    /// The steps that are left.
    pub fn left(&self) -> u64
        ensures { result ≡ self.now }
    {
        self.left
    }

    /// Takes `n` steps, or none where fewer are left.
    pub fn spend(&mut self, n: u64) -> Result<(), Spent>
        ensures ok { OnOk result (self.old ≡ self.new + n) }
        ensures spent { IsErr result ↔ (self.old < n) }
        ensures err { OnErr result (self.new ≡ self.old) }
    {
        if n > self.left {
            return Err(Spent);
        }
        self.left -= n;
        Ok(())
    }
}
