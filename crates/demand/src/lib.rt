// What a bidder demands at prices: payoffs, the greatest payoff, the demand set, keenness. Worths and prices are tables
// of sixteen numbers to a bidder, prices any; bundles are at most 16. Payoffs are kept 65,535 higher, so that none is
// negative.
#![tactic(auto)]

ghost use Rattle.std.specs.Prelude.{◌≡◌, ◌≤◌, ◌<◌};
ghost use Rattle.numbers.specs.Numbers.{Is};
ghost use Rattle.owners.specs.Prices.{entry, layout, payoff, best, demand_set};
ghost use Rattle.demand.specs.Demands.{quoted, Covers};

use numbers::power;
use tables::entry;

// Worths and prices, lent, and how many bundles there are.
#[derive(Clone, Copy)]
pub struct Quotes<'a> {
    pub worths: &'a [u16],
    pub prices: &'a [u16],
    pub bundles: usize,
    pub ghost few: { bundles ≤ 16 },
}

impl Quotes<'_> {
    // A bidder's payoff from a bundle, 65,535 higher (rule 4.1).
    pub fn payoff_of(&self, i: usize, s: usize) -> u32
        requires { Covers i self.now.worths.now self.now.prices.now × (s < 16) }
        ensures { Is (payoff (layout 0 6) (entry self.now.worths.now) self.now.prices.now i s) result 131070 }
    {
        entry(self.worths, i, s) + 65535 - entry(self.prices, i, s)
    }

    // The greatest payoff.
    pub fn best_of(&self, i: usize) -> u32
        requires { Covers i self.now.worths.now self.now.prices.now }
        ensures { Is (best (layout 0 6) self.now.bundles (entry self.now.worths.now) self.now.prices.now i)
            result 131070 }
    {
        let mut top: u32 = 0;
        for bundle in 0..self.bundles {
            top = top.max(self.payoff_of(i, bundle));
        }
        top
    }

    // Whether a bundle is one of greatest payoff.
    pub fn wants(&self, i: usize, s: usize) -> bool
        requires { Covers i self.now.worths.now self.now.prices.now × (s < 16) }
        ensures { result ≡ (quoted self.now.bundles self.now.worths.now self.now.prices.now).wants i s }
    {
        self.payoff_of(i, s) == self.best_of(i)
    }

    // Whether a bidder is keen (rule 4.3).
    pub fn is_keen(&self, i: usize) -> bool
        requires { Covers i self.now.worths.now self.now.prices.now }
        ensures { result ≡ (quoted self.now.bundles self.now.worths.now self.now.prices.now).keen i }
    {
        65535 < self.best_of(i)
    }

    // The demand set as one number (rule 4.2).
    pub fn demand_set(&self, i: usize) -> u16
        requires { Covers i self.now.worths.now self.now.prices.now }
        ensures { result ≡ demand_set self.now.bundles
            (quoted self.now.bundles self.now.worths.now self.now.prices.now) i }
    {
        let mut set = 0;
        for s in 0..self.bundles {
            if self.wants(i, s) {
                set += power(s);
            }
        }
        set as u16
    }
}
