// What sales, demand answers and the question whether prices are settled answer, and their refusals. C takes these
// answers, so each has a refusal's number and place, 0 and 0 for none, and is no Result. The meaning is in specs/, the
// theorems in proofs/.
#![tactic(auto)]

ghost use Rattle.std.specs.Prelude.{◌≡◌};
ghost use Rattle.sheet.specs.Questions.{fault};
ghost use Rattle.sheet.specs.Refusals.{fault_of};
ghost use Rattle.offers.specs.House.{HouseSales};
ghost use Rattle.sale.specs.Answers.{refused_demand, refused_settled, refused_sale};
ghost use Rattle.sale.specs.Answers.{OneAnswer, Sales, SettledAnswers};

use sheet::{Fault, Refusal};

// A refusal, or a buyer's demand set and whether it is keen.
#[repr(C)]
#[derive(Drop)]
pub struct Demand {
    pub number: u8,
    pub place: u32,
    pub bundles: u16,
    pub keen: bool,
}

// A refusal, or whether prices are settled.
#[repr(C)]
#[derive(Drop)]
pub struct Settled {
    pub number: u8,
    pub place: u32,
    pub settled: bool,
}

// A refusal, or a settled sale.
#[repr(C)]
#[derive(Drop)]
pub struct Sale {
    pub number: u8,
    pub place: u32,
    pub buyers: u8,
    pub lots: u8,
    pub rounds: u32,
    pub prices: [u16; 96],
    pub owners: [u8; 4],
    pub discounts: [u32; 6],
    pub payments: [u32; 6],
}

// What a refusal's number and place make of each answer: all else is 0, or false.
pub fn refused_demand(number: u8, place: u32) -> Demand
    ensures { result ≡ refused_demand (fault number place) }
{
    Demand {
        number,
        place,
        bundles: 0,
        keen: false,
    }
}

pub fn refused_settled(number: u8, place: u32) -> Settled
    ensures { result ≡ refused_settled (fault number place) }
{
    Settled {
        number,
        place,
        settled: false,
    }
}

pub fn refused_sale(number: u8, place: u32) -> Sale
    ensures { result ≡ refused_sale (fault number place) }
{
    Sale {
        number,
        place,
        buyers: 0,
        lots: 0,
        rounds: 0,
        prices: [0; 96],
        owners: [0; 4],
        discounts: [0; 6],
        payments: [0; 6],
    }
}

impl From<Refusal> for Demand {
    ghost from_gives = { λ refusal demand. demand ≡ refused_demand (fault_of refusal) };

    fn from(refusal: Refusal) -> Self {
        let fault = Fault::from(refusal);
        refused_demand(fault.number, fault.place)
    }
}

impl From<Refusal> for Settled {
    ghost from_gives = { λ refusal settled. settled ≡ refused_settled (fault_of refusal) };

    fn from(refusal: Refusal) -> Self {
        let fault = Fault::from(refusal);
        refused_settled(fault.number, fault.place)
    }
}

impl From<Refusal> for Sale {
    ghost from_gives = { λ refusal sale. sale ≡ refused_sale (fault_of refusal) };

    fn from(refusal: Refusal) -> Self {
        let fault = Fault::from(refusal);
        refused_sale(fault.number, fault.place)
    }
}

// Does nothing. Its contract has the theorems about sales, demand 2 among them, those about settled prices, and the
// worked sales with a house, so that none can be dropped unseen.
pub fn sales_hold()
    ensures { Sales × OneAnswer × SettledAnswers × HouseSales }
{}
