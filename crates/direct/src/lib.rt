// The direct way of reckoning the sale of a lot sheet (Vickrey, Clarke and Groves), from the worths alone: the first
// owner list of greatest total, and what each buyer pays.
#![tactic(auto)]

ghost use Rattle.std.specs.Prelude.{◌≡◌, ℕ};
ghost use Rattle.sheet.specs.Refusals.{fault_of, told};
ghost use Rattle.offers.specs.Offers.{Offer};
ghost use Rattle.lists.specs.Words.{Lent};
ghost use Rattle.direct.specs.Answers.{refused_direct, reckoned, direct_answer};

use sheet::{Fault, Refusal};
use tables::{Bidders, Table};

// A refusal, or the greatest total worth, its first owner list, and the payments. C takes it, so it has a number and is
// no Result.
#[repr(C)]
#[derive(Drop)]
pub struct Direct {
    pub number: u8,
    pub place: u32,
    pub total: u32,
    pub owners: [u8; 4],
    pub payments: [u32; 6],
}

impl From<Refusal> for Direct {
    ghost from_gives = { λ refusal direct. direct ≡ refused_direct (fault_of refusal) };

    fn from(refusal: Refusal) -> Self {
        let fault = Fault::from(refusal);
        Direct {
            number: fault.number,
            place: fault.place,
            total: 0,
            owners: [0; 4],
            payments: [0; 6],
        }
    }
}

// The direct way by the words of all allocations, with the worths.
fn reckon(list: &[u64], worths: &Table<'_>) -> Direct
    ensures { (O : Offer) → (all : ℕ) →
        Lent O list.now worths.now.numbers.now worths.now.bidders.low worths.now.bidders.buyers all →
        result ≡ reckoned O }
{
    let greatest = totals::greatest_totals(list, worths);
    let word = totals::first_of_total(list, worths, greatest[0]).unwrap_or(0);
    let owners = lists::owners_of(word);
    let payments = totals::payments(greatest, worths, word);
    Direct {
        number: 0,
        place: 0,
        total: greatest[0],
        owners,
        payments,
    }
}

// The direct way, or why the sheet is refused.
fn try_reckon(sheet: &[u8]) -> Result<Direct, Refusal>
    ensures { told refused_direct result ≡ direct_answer sheet.now }
{
    let sheet = reading::read(sheet)?;
    let bidders = Bidders {
        low: 1,
        buyers: sheet.size.buyers,
    };
    let worths = Table {
        bidders,
        numbers: &sheet.worths,
    };
    let mut words = [0; 2401];
    let list = lists::listed(sheet.size.buyers, sheet.size.lots, &mut words);
    Ok(reckon(list, &worths))
}

// Reckons the sale of a sheet directly. There are no prices and no record.
pub fn direct_way(sheet: &[u8]) -> Direct
    ensures { result ≡ direct_answer sheet.now }
{
    try_reckon(sheet).unwrap_or_else(Direct::from)
}
