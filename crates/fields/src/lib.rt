// Reads one field of a lot sheet: a number right-justified in six columns.
#![tactic(auto)]

ghost use Rattle.std.specs.Prelude.{◌≡◌, ◌+◌, ◌≤◌, length, take, drop, get_or};
ghost use Rattle.fields.specs.Claims.{Fields};
ghost use Rattle.fields.specs.Fields.{field_from, field_at, field_read, good, number_at, running_at, running_value};

// What the reader of a field answers (rule 2.4): the next column, and the field's number or the faulty offset, that of
// the field's first byte.
#[derive(Drop)]
pub struct FieldRead {
    pub next: usize,
    pub field: Result<u32, usize>,
}

// The first `count` of a field's six columns: the faulty offset if one of them breaks rule 2.2; else the number so far,
// if there is a digit among them. At each digit the number becomes ten times itself plus the digit.
fn read_columns(sheet: &[u8], at: usize, count: usize) -> Result<Option<u32>, usize>
    requires { (at + 6 ≤ length sheet.now) × (count ≤ 6) }
    ensures { (result ≡ running_at at count (take 6 (drop at sheet.now))) × (running_value result ≤ 999999) }
{
    let mut number: Option<u32> = None;
    for k in 0..count {
        let b = sheet[at + k];
        let breaks = match b {
            b' ' => number.is_some(),
            b'0' => number.is_none() && k + 1 < 6,
            b'1'..=b'9' => false,
            _ => true,
        };
        if breaks {
            return Err(at);
        }
        if b != b' ' {
            let digit = u32::from(b - b'0');
            number = Some(10 * number.unwrap_or(0) + digit);
        }
    }
    Ok(number)
}

// The six columns of a field.
fn scan_columns(sheet: &[u8], at: usize) -> Result<u32, usize>
    requires { at + 6 ≤ length sheet.now }
    ensures { result ≡ field_from at (take 6 (drop at sheet.now)) }
{
    read_columns(sheet, at, 6)?.ok_or(at)
}

// Reads one field (rules 2.4 and 2.5). Any column may be asked.
pub fn read_field(sheet: &[u8], at: usize) -> FieldRead
    ensures { result ≡ field_read sheet.now at }
{
    let len = sheet.len();
    if 6 <= len && at <= len - 6 {
        FieldRead {
            next: at + 6,
            field: scan_columns(sheet, at),
        }
    } else {
        FieldRead {
            next: len,
            field: Err(at),
        }
    }
}

// The number of a field; 0 for a fault, as `number_at` says, which contracts above go by.
pub fn field_number(sheet: &[u8], at: usize) -> u32
    ensures { result ≡ number_at at sheet.now }
{
    read_field(sheet, at).field.unwrap_or(0)
}

// Whether a field is a number.
pub fn field_good(sheet: &[u8], at: usize) -> bool
    ensures { result ≡ good (field_at at sheet.now) }
{
    read_field(sheet, at).field.is_ok()
}

// The byte at an offset; 0 past the end.
pub fn byte_at(sheet: &[u8], at: usize) -> u8
    ensures { result ≡ get_or sheet.now at 0 }
{
    sheet.get(at).copied().unwrap_or(0)
}

// Does nothing. Its contract has what is claimed of fields, so that none of it can be dropped unseen.
pub fn fields_hold()
    ensures { Fields }
{}
