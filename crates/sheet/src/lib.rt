// What is read of a lot sheet. The meaning is in specs/, the theorems in proofs/; `lines` and `reading` have the code.
#![tactic(auto)]

ghost use Rattle.std.specs.Prelude.{◌≡◌};
ghost use Rattle.sheet.specs.Answers.{refused_read, refused_worths};
ghost use Rattle.sheet.specs.Claims.{Sheets};
ghost use Rattle.sheet.specs.Refusals.{fault_of};

mod size;

pub use size::Size;

// A refusal's number and place, as C's answers have them; 0 and 0 for none.
#[derive(Drop)]
pub struct Fault {
    pub number: u8,
    pub place: u32,
}

// Why something is refused: the question that gets the first no, with the place of what is wrong. The questions are
// numbered from 1 on, in this order.
#[derive(Clone, Copy, Debug, PartialEq, Eq)]
pub enum Refusal {
    // A sheet too short for a first line.
    Short,
    // A first line that is not two numbers and a line end.
    Head,
    // Not 1 to 6 buyers.
    Buyers,
    // Not 1 to 4 lots.
    Lots,
    // Not as many bytes, or numbers, as these buyers and lots have.
    Length,
    // A field that is no number, or a line end that is none.
    Malformed(u32),
    // A worth above 9,999.
    TooLarge(u32),
    // A bundle worth less than one with a lot fewer.
    Falls(u32),
    // A record too short for all rounds that there may be.
    Record,
    // A buyer who is not there.
    Buyer,
    // A buffer too short for what is written.
    Room,
}

// An accepted sheet, with its worths sixteen to a buyer.
#[derive(Drop)]
pub struct LotSheet {
    pub size: Size,
    pub worths: [u16; 96],
}

// A refusal, or an accepted sheet's buyers and lots. C takes it, so it has a number and is no Result.
#[repr(C)]
#[derive(Drop)]
pub struct Read {
    pub number: u8,
    pub place: u32,
    pub buyers: u8,
    pub lots: u8,
}

// The same with its worths, sixteen to a buyer.
#[repr(C)]
#[derive(Drop)]
pub struct Worths {
    pub number: u8,
    pub place: u32,
    pub buyers: u8,
    pub lots: u8,
    pub worths: [u16; 96],
}

impl From<Refusal> for Fault {
    ghost from_gives = { λ r f. f ≡ fault_of r };

    fn from(refusal: Refusal) -> Fault {
        let (number, place) = match refusal {
            Refusal::Short => (1, 0),
            Refusal::Head => (2, 0),
            Refusal::Buyers => (3, 0),
            Refusal::Lots => (4, 0),
            Refusal::Length => (5, 0),
            Refusal::Malformed(place) => (6, place),
            Refusal::TooLarge(place) => (7, place),
            Refusal::Falls(place) => (8, place),
            Refusal::Record => (9, 0),
            Refusal::Buyer => (10, 0),
            Refusal::Room => (11, 0),
        };
        Fault { number, place }
    }
}

impl From<Refusal> for Worths {
    ghost from_gives = { λ r w. w ≡ refused_worths r };

    fn from(refusal: Refusal) -> Worths {
        let fault = Fault::from(refusal);
        Worths {
            number: fault.number,
            place: fault.place,
            buyers: 0,
            lots: 0,
            worths: [0; 96],
        }
    }
}

impl From<Refusal> for Read {
    ghost from_gives = { λ r a. a ≡ refused_read r };

    fn from(refusal: Refusal) -> Read {
        let fault = Fault::from(refusal);
        Read {
            number: fault.number,
            place: fault.place,
            buyers: 0,
            lots: 0,
        }
    }
}

// Does nothing. Its contract has the theorems about sheets, so that none can be dropped unseen.
pub fn sheets_hold()
    ensures { Sheets }
{}
