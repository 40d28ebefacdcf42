// Sales by rounds of a lot sheet, demand answers, and whether prices are settled.
#![tactic(auto)]

ghost use Rattle.std.specs.Prelude.{◌≡◌, ◌≤◌, length, IfOk};
ghost use Rattle.theory.specs.Lists.{over};
ghost use Rattle.offers.specs.Offers.{lots_among};
ghost use Rattle.offers.specs.Rounds.{round_limit, sale_sets};
ghost use Rattle.lists.specs.Words.{lot_words};
ghost use Rattle.sheet.specs.Refusals.{told};
ghost use Rattle.sale.specs.Answers.{refused_demand, refused_settled, refused_sale};
ghost use Rattle.sale.specs.Answers.{settled_sale, demand_answer, settled_answer, SaleSays};
ghost use Rattle.selling.specs.Selling.{Sells};

use closing::Market;
use demand::Quotes;
use lines::bundles;
use sale::{Demand, Sale, Settled};
use sheet::{LotSheet, Refusal};
use tables::{Bidders, Table};

// A buyer's demand, or why it is refused.
fn try_demand(sheet: &[u8], buyer: u32, prices: &[u16; 96]) -> Result<Demand, Refusal>
    ensures { told refused_demand result ≡ demand_answer sheet.now buyer prices.now }
{
    let sheet = reading::read(sheet)?;
    let i = buyer as usize;
    if !reading::is_between(sheet.size.buyers, i) {
        return Err(Refusal::Buyer);
    }
    let quotes = Quotes {
        worths: &sheet.worths,
        prices,
        bundles: bundles(sheet.size.lots),
    };
    Ok(Demand {
        number: 0,
        place: 0,
        bundles: quotes.demand_set(i),
        keen: quotes.is_keen(i),
    })
}

// What a buyer demands at prices brought from outside, sixteen to a buyer.
pub fn buyer_demand(sheet: &[u8], buyer: u32, prices: [u16; 96]) -> Demand
    ensures { result ≡ demand_answer sheet.now buyer prices }
{
    try_demand(sheet, buyer, &prices).unwrap_or_else(Demand::from)
}

// Whether prices are settled, or why the sheet is refused.
fn try_settled(sheet: &[u8], prices: &[u16; 96]) -> Result<Settled, Refusal>
    ensures { told refused_settled result ≡ settled_answer sheet.now prices.now }
{
    let sheet = reading::read(sheet)?;
    let bidders = Bidders {
        low: 1,
        buyers: sheet.size.buyers,
    };
    let quotes = Quotes {
        worths: &sheet.worths,
        prices,
        bundles: bundles(sheet.size.lots),
    };
    let mut words = [0; 2401];
    let list = lists::listed(sheet.size.buyers, sheet.size.lots, &mut words);
    let settled = closing::are_settled(list, &Market { bidders, quotes });
    Ok(Settled {
        number: 0,
        place: 0,
        settled,
    })
}

// Whether prices brought from outside, sixteen to a buyer, are settled (a universal competitive equilibrium).
pub fn settled_at(sheet: &[u8], prices: [u16; 96]) -> Settled
    ensures { result ≡ settled_answer sheet.now prices }
{
    try_settled(sheet, &prices).unwrap_or_else(Settled::from)
}

// The rounds of a sale, from zeros on (rule 1.6), and its closing, by the words of all allocations.
fn sell(list: &[u64], sheet: &LotSheet, log: &mut [u8], limit: u32) -> Sale
    requires { Sells sheet.now.size.buyers sheet.now.size.lots sheet.now.worths
        × (list.now ≡ lot_words sheet.now.size.buyers sheet.now.size.lots)
        × (limit ≡ round_limit (lots_among sheet.now.size.buyers sheet.now.size.lots sheet.now.worths))
        × (limit ≤ length log.old) }
    ensures { (result ≡ settled_sale (lots_among sheet.now.size.buyers sheet.now.size.lots sheet.now.worths))
        × (log.new
        ≡ over (sale_sets (lots_among sheet.now.size.buyers sheet.now.size.lots sheet.now.worths)) log.old) }
{
    let m = sheet.size.buyers;
    let all = bundles(sheet.size.lots);
    let worths = &sheet.worths;
    let mut last = [0; 96];
    let rounds = rounds::run_rounds(list, worths, &mut last, m, m, all, log, limit);
    let bidders = Bidders { low: 1, buyers: m };
    let quotes = Quotes {
        worths,
        prices: &last,
        bundles: all,
    };
    let closing = closing::close_sale(list, &Market { bidders, quotes });
    let owners = closing.owners;
    let discounts = closing.discounts;
    let payments = closing.payments;
    Sale {
        number: 0,
        place: 0,
        buyers: m as u8,
        lots: sheet.size.lots as u8,
        rounds,
        prices: last,
        owners,
        discounts,
        payments,
    }
}

// The settled sale of a sheet, or why it is refused; the record has the rounds, or is as it was.
pub fn try_sell(sheet: &[u8], log: &mut [u8]) -> Result<Sale, Refusal>
    ensures says { SaleSays sheet.now log.old log.new (told refused_sale result) }
    ensures settled { IfOk result (λ sale. sale.number ≡ 0) }
{
    let sheet = reading::read(sheet)?;
    let bidders = Bidders {
        low: 1,
        buyers: sheet.size.buyers,
    };
    let worths = Table {
        bidders,
        numbers: &sheet.worths,
    };
    let limit = totals::limit_of(&worths, bundles(sheet.size.lots));
    if log.len() < limit as usize {
        return Err(Refusal::Record);
    }
    let mut words = [0; 2401];
    let list = lists::listed(sheet.size.buyers, sheet.size.lots, &mut words);
    Ok(sell(list, &sheet, log, limit))
}

// Runs the sale of a sheet. Each round writes its set's number to the record's next byte.
pub fn run_sale(sheet: &[u8], log: &mut [u8]) -> Sale
    ensures { SaleSays sheet.now log.old log.new result }
{
    try_sell(sheet, log).unwrap_or_else(Sale::from)
}
