// What crosses the C boundary: slices as a pointer and a length, structs by value, no enum. `hokewhuni_c` exports it.
#![tactic(auto)]

ghost use Rattle.std.specs.Prelude.{◌≡◌};
ghost use Rattle.sheet.specs.Answers.{sheet_read, worths_read};
ghost use Rattle.sale.specs.Answers.{demand_answer, settled_answer, SaleSays};
ghost use Rattle.direct.specs.Answers.{direct_answer};
ghost use Rattle.printed.specs.Printed.{PrintSays};
ghost use Rattle.writing.specs.Answers.{WriteSays};
ghost use Rattle.trial.specs.Answers.{TrialSays};
ghost use Rattle.hokewhuni.specs.Boundary.{field_answer};

use direct::Direct;
use sale::{Demand, Sale, Settled};
use sheet::{Read, Worths};
use writing::Wrote;

// One field's answer as numbers, since C has no Result: 0 and the field's number, or 6 and the faulty offset; and the
// next column.
#[repr(C)]
#[derive(Drop)]
pub struct FieldAnswer {
    pub next: usize,
    pub number: u8,
    pub value: usize,
}

pub fn hokewhuni_read_field(sheet: &[u8], at: usize) -> FieldAnswer
    ensures { result ≡ field_answer sheet.now at }
{
    let r = fields::read_field(sheet, at);
    let (number, value) = match r.field {
        Ok(v) => (0, v as usize),
        Err(c) => (6, c),
    };
    FieldAnswer {
        next: r.next,
        number,
        value,
    }
}

pub fn hokewhuni_read_sheet(sheet: &[u8]) -> Read
    ensures { result ≡ sheet_read sheet.now }
{
    reading::read_sheet(sheet)
}

pub fn hokewhuni_read_worths(sheet: &[u8]) -> Worths
    ensures { result ≡ worths_read sheet.now }
{
    reading::read_worths(sheet)
}

// An array cannot cross by value, so prices are lent.
pub fn hokewhuni_buyer_demand(sheet: &[u8], buyer: u32, prices: &[u16; 96]) -> Demand
    ensures { result ≡ demand_answer sheet.now buyer prices.now }
{
    selling::buyer_demand(sheet, buyer, *prices)
}

pub fn hokewhuni_settled_at(sheet: &[u8], prices: &[u16; 96]) -> Settled
    ensures { result ≡ settled_answer sheet.now prices.now }
{
    selling::settled_at(sheet, *prices)
}

pub fn hokewhuni_run_sale(sheet: &[u8], log: &mut [u8]) -> Sale
    ensures { SaleSays sheet.now log.old log.new result }
{
    selling::run_sale(sheet, log)
}

pub fn hokewhuni_direct_way(sheet: &[u8]) -> Direct
    ensures { result ≡ direct_answer sheet.now }
{
    direct::direct_way(sheet)
}

// The length of the printed sale in `out`, or 0 where it has no room, since C has no Option.
pub fn hokewhuni_print_sale(sheet: &[u8], log: &mut [u8], out: &mut [u8]) -> usize
    ensures { PrintSays sheet.now log.old log.new out.old out.new result }
{
    printed::print_sale(sheet, log, out)
}

// Writes nothing where a question gets a no.
pub fn hokewhuni_write_sheet(buyers: u32, lots: u32, worths: &[u32], out: &mut [u8]) -> Wrote
    ensures { WriteSays buyers lots worths.now out.old out.new result }
{
    writing::write_sheet(buyers, lots, worths, out)
}

// Starts the generator anew in each call.
pub fn hokewhuni_trial_sheet(number: u16, buyers: u32, lots: u32, top: u32, out: &mut [u8]) -> Wrote
    ensures { TrialSays number buyers lots top out.old out.new result }
{
    trial::trial_sheet(number, buyers, lots, top, out)
}
