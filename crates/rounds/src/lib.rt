// The rounds of a sale, by the values of the sets of buyers. What each buyer has left, the gains of the sets and the
// revenues of the economies are kept from round to round.
#![tactic(auto)]

ghost use Rattle.std.specs.Prelude.{◌≡◌, ◌-◌, ◌≤◌, ◌<◌, length, set};
ghost use Rattle.owners.specs.Singles.{AtMost};
ghost use Rattle.offers.specs.Offers.{Offer};
ghost use Rattle.lists.specs.Words.{Lent};
ghost use Rattle.raising.specs.Raising.{Rows};
ghost use Rattle.rounds.specs.Rounds.{KeptAt, Small, TurnAt, Opens, OwnPrices, Sold};

use raising::Valuations;
use supply::Economies;
use tables::{Bidders, Table};

// What is kept from round to round: what each buyer has left, the gains of the sets, the revenues of the economies.
#[derive(Drop)]
struct Tables {
    payoffs: [u32; 6],
    gains: [u32; 64],
    revenues: [u32; 7],
}

// What is the same in all rounds.
#[derive(Clone, Copy)]
struct Terms<'a> {
    valuations: Valuations<'a>,
    economies: Economies,
    ghost two: { 2 ≤ valuations.bundles },
}

// Writes a set's number to the next byte of the record, the first of the rest (rule 4.12).
fn note(rest: &mut [u8], number: usize)
    requires { (0 < length rest.old) × (number < 64) }
    ensures { rest.new ≡ set rest.old 0 number }
{
    rest[0] = number as u8;
}

impl Terms<'_> {
    // What is kept at the first prices, by the values of the sets.
    fn tables(&self, values: &[u32; 64], prices: &[u16]) -> Tables
        requires { AtMost 9999 self.now.valuations.worths.now × AtMost 59994 values.now × Rows prices.now }
        ensures { KeptAt self.now.economies.buyers self.now.economies.last (self.now.valuations.bundles - 1)
            self.now.valuations.worths.now
            values.now prices.now result }
    {
        let buyers = self.economies.buyers;
        let payoffs = self.valuations.payoffs(prices, buyers);
        let gains = supply::gains(values, &payoffs, buyers);
        let revenues = self.economies.revenues(&gains);
        Tables {
            payoffs,
            gains,
            revenues,
        }
    }

    // A round, with the rest of the record (rule 4.12): the set's number is its next byte. Where no set is
    // undersupplied nothing changes, and the answer is yes.
    fn round(&self, prices: &mut [u16], kept: &mut Tables, rest: &mut [u8]) -> bool
        requires { Rows prices.old × AtMost 60000 prices.old
            × Small self.now.economies.buyers self.now.economies.last kept.old
            × (0 < length rest.old) }
        ensures { TurnAt self.now.economies.buyers self.now.economies.last self.now.valuations.bundles
            self.now.valuations.worths.now
            prices.old kept.old rest.old prices.new kept.new rest.new result }
    {
        let buyers = self.economies.buyers;
        let words = self.economies.supplied(&kept.gains, &kept.revenues);
        let Some(set) = self.economies.lowest(&words, &kept.payoffs) else {
            return true;
        };
        note(rest, set);
        self.valuations.raise(&kept.payoffs, prices, buyers, set);
        raising::lower_payoffs(&mut kept.payoffs, buyers, set);
        raising::raise_gains(&mut kept.gains, buyers, set);
        raising::raise_revenues(&mut kept.revenues, &words, self.economies, set);
        false
    }
}

// At most `limit` rounds from these prices on, judged in the economies up to that of number `last`, by the words of all
// allocations. Each writes its set's number to the record's next byte. The answer is how many there were. (Its eight
// parameters are what `Opens` and `Sold` relate; the one caller has them apart.)
pub fn run_rounds(
    list: &[u64],
    worths: &[u16],
    prices: &mut [u16],
    buyers: usize,
    last: usize,
    bundles: usize,
    log: &mut [u8],
    limit: u32,
) -> u32
    requires { Opens buyers last bundles worths.now prices.old limit log.old }
    ensures { (O : Offer) → Lent O list.now worths.now 1 buyers bundles →
        OwnPrices O prices.old → Sold O last prices.old limit log.old
        prices.new log.new result }
{
    let table = Table {
        bidders: Bidders { low: 1, buyers },
        numbers: worths,
    };
    let values = totals::values(list, &table);
    let terms = Terms {
        valuations: Valuations { worths, bundles },
        economies: Economies { buyers, last },
    };
    let mut kept = terms.tables(&values, prices);
    for n in 0..limit {
        let at = n as usize;
        if terms.round(prices, &mut kept, &mut log[at..]) {
            return n;
        }
    }
    limit
}
