// The C library: each function of `hokewhuni`, by the same name as a C symbol and with the same contract. Signatures
// stand twice, here and there, since the symbols belong to this library alone.
#![tactic(auto)]

ghost use Rattle.std.specs.Prelude.{◌≡◌};
ghost use Rattle.sheet.specs.Answers.{sheet_read, worths_read};
ghost use Rattle.sale.specs.Answers.{demand_answer, settled_answer, SaleSays};
ghost use Rattle.direct.specs.Answers.{direct_answer};
ghost use Rattle.printed.specs.Printed.{PrintSays};
ghost use Rattle.writing.specs.Answers.{WriteSays};
ghost use Rattle.trial.specs.Answers.{TrialSays};
ghost use Rattle.hokewhuni.specs.Boundary.{field_answer};

use direct::Direct;
use hokewhuni::FieldAnswer;
use sale::{Demand, Sale, Settled};
use sheet::{Read, Worths};
use writing::Wrote;

#[unsafe(no_mangle)]
pub extern "C" fn hokewhuni_read_field(sheet: &[u8], at: usize) -> FieldAnswer
    ensures { result ≡ field_answer sheet.now at }
{
    hokewhuni::hokewhuni_read_field(sheet, at)
}

#[unsafe(no_mangle)]
pub extern "C" fn hokewhuni_read_sheet(sheet: &[u8]) -> Read
    ensures { result ≡ sheet_read sheet.now }
{
    hokewhuni::hokewhuni_read_sheet(sheet)
}

#[unsafe(no_mangle)]
pub extern "C" fn hokewhuni_read_worths(sheet: &[u8]) -> Worths
    ensures { result ≡ worths_read sheet.now }
{
    hokewhuni::hokewhuni_read_worths(sheet)
}

#[unsafe(no_mangle)]
pub extern "C" fn hokewhuni_buyer_demand(sheet: &[u8], buyer: u32, prices: &[u16; 96]) -> Demand
    ensures { result ≡ demand_answer sheet.now buyer prices.now }
{
    hokewhuni::hokewhuni_buyer_demand(sheet, buyer, prices)
}

#[unsafe(no_mangle)]
pub extern "C" fn hokewhuni_settled_at(sheet: &[u8], prices: &[u16; 96]) -> Settled
    ensures { result ≡ settled_answer sheet.now prices.now }
{
    hokewhuni::hokewhuni_settled_at(sheet, prices)
}

#[unsafe(no_mangle)]
pub extern "C" fn hokewhuni_run_sale(sheet: &[u8], log: &mut [u8]) -> Sale
    ensures { SaleSays sheet.now log.old log.new result }
{
    hokewhuni::hokewhuni_run_sale(sheet, log)
}

#[unsafe(no_mangle)]
pub extern "C" fn hokewhuni_direct_way(sheet: &[u8]) -> Direct
    ensures { result ≡ direct_answer sheet.now }
{
    hokewhuni::hokewhuni_direct_way(sheet)
}

#[unsafe(no_mangle)]
pub extern "C" fn hokewhuni_print_sale(sheet: &[u8], log: &mut [u8], out: &mut [u8]) -> usize
    ensures { PrintSays sheet.now log.old log.new out.old out.new result }
{
    hokewhuni::hokewhuni_print_sale(sheet, log, out)
}

#[unsafe(no_mangle)]
pub extern "C" fn hokewhuni_write_sheet(
    buyers: u32,
    lots: u32,
    worths: &[u32],
    out: &mut [u8],
) -> Wrote
    ensures { WriteSays buyers lots worths.now out.old out.new result }
{
    hokewhuni::hokewhuni_write_sheet(buyers, lots, worths, out)
}

#[unsafe(no_mangle)]
pub extern "C" fn hokewhuni_trial_sheet(
    number: u16,
    buyers: u32,
    lots: u32,
    top: u32,
    out: &mut [u8],
) -> Wrote
    ensures { TrialSays number buyers lots top out.old out.new result }
{
    hokewhuni::hokewhuni_trial_sheet(number, buyers, lots, top, out)
}
