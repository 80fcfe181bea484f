// Exponents as written: a sign and four limbs, exact from -2^127 to 2^127-1, and what steps 5 to 10 need of them.
ghost use Rattle.std.specs.Prelude.{◌≡◌, ℕ, ◌+◌, ◌-◌, ◌^◌, ◌<◌};
ghost use Rattle.meaning.specs.Reading.{Written, origin, exponent};
ghost use Rattle.limbs.specs.Value.{value};
ghost use Rattle.limbs.specs.Wide.{Signed, Spells, WrittenAs, signed, in_range, Stands, Raised, Narrowed, Lowered, stand_at};

// Why an exponent can't be used.
#[derive(Clone, Copy, Debug, PartialEq, Eq)]
pub enum ExponentError {
    // It is no whole number from -2^127 to 2^127-1.
    Invalid,
    // Less the digits after the point it is below -2^127.
    Underflow,
}

// An exponent: its sign, and its size in four limbs or in 64 bits.
#[derive(Clone, Copy)]
pub struct Exponent<T> {
    pub negative: bool,
    pub size: T,
}

// An exponent as steps 7 to 10 need it.
pub type Shift = Exponent<u64>;

// Where an exponent stands: the field, and by how much it is below -6176 or above 6111, up to 35. Steps 9 and 10 cut and append as
// many digits as these say, none where it is 0, and so ask for no case.
#[derive(Clone, Copy)]
pub struct Stand {
    pub field: u32,
    pub below: u32,
    pub above: u32,
}

// ---- step 5

// The number of the digits, after those that wrote start, where all are digits and it is below 2^128.
fn digits_on(digits: &[u8], start: [u32; 4]) -> Option<[u32; 4]>
    ensures { Spells (value start) digits.now result }
{
    let mut number = start;
    for &b in digits {
        if !b.is_ascii_digit() {
            return None;
        }
        number = crate::checked_multiply(number, 10, (b - b'0') as u32)?;
    }
    Some(number)
}

// So many digits fit 64 bits, and more than these are rare. By `digits_on` alone a text with an exponent takes 48 instructions more.
const FEW: usize = 18;

// The number of the digits, where all are digits and it is below 2^128.
fn digits(s: &[u8]) -> Option<[u32; 4]>
    ensures { Spells 0 s.now result }
{
    let few = s.len().min(FEW);
    let mut number: u64 = 0;
    for &b in &s[..few] {
        if !b.is_ascii_digit() {
            return None;
        }
        number = number * 10 + (b - b'0') as u64;
    }
    digits_on(&s[few..], crate::of_u64(number))
}

// 2^127.
const ORIGIN: [u32; 4] = [0, 0, 0, 0x8000_0000];

// The size is below 2^127, or is 2^127 where the sign is minus.
fn in_range(negative: bool, size: [u32; 4]) -> bool
    ensures { result ≡ in_range negative (value size) }
{
    if negative {
        !crate::less(ORIGIN, size)
    } else {
        crate::less(size, ORIGIN)
    }
}

// What is written after the sign.
fn unsigned(s: &[u8], negative: bool) -> Option<Exponent<[u32; 4]>>
    ensures { WrittenAs (signed negative s.now) result }
{
    if s.is_empty() {
        return None;
    }
    let size = digits(s)?;
    if in_range(negative, size) {
        Some(Exponent { negative, size })
    } else {
        None
    }
}

// The exponent that is written, where it is one.
fn written(s: &[u8]) -> Option<Exponent<[u32; 4]>>
    ensures { WrittenAs (exponent s.now) result }
{
    match *s.first()? {
        b'-' => unsigned(&s[1..], true),
        b'+' => unsigned(&s[1..], false),
        _ => unsigned(s, false),
    }
}

// ---- step 6

// A size above 64 bits becomes the largest of 64 bits.
fn narrow(negative: bool, size: [u32; 4]) -> Shift
    ensures { Narrowed negative (value size) result }
{
    Exponent {
        negative,
        size: crate::to_u64(size).unwrap_or(u64::MAX),
    }
}

// E less f.
fn lowered(e: Exponent<[u32; 4]>, f: u64) -> Result<Shift, ExponentError>
    requires { f < 2 ^ 63 }
    ensures { (n : ℕ) → Signed e.negative (value e.size) n → Lowered (Written.written n) f result }
{
    let size = e.size;
    let by = crate::of_u64(f);
    if e.negative {
        let Some(total) = crate::checked_add(size, by) else {
            return Err(ExponentError::Underflow);
        };
        if !in_range(true, total) {
            return Err(ExponentError::Underflow);
        }
        return Ok(narrow(true, total));
    }
    if crate::less(size, by) {
        Ok(narrow(true, crate::subtract(by, size)))
    } else {
        Ok(narrow(false, crate::subtract(size, by)))
    }
}

// Minus f: what step 6 gives where no exponent is written.
pub fn minus(f: u64) -> Shift
    requires { f < 2 ^ 63 }
    ensures { Stands (origin - f) result }
{
    Exponent {
        negative: true,
        size: f,
    }
}

// Steps 5 and 6: the exponent part, less f.
pub fn exponent_less(part: &[u8], f: u64) -> Result<Shift, ExponentError>
    requires { f < 2 ^ 63 }
    ensures { Lowered (exponent part.now) f result }
{
    match written(part) {
        Some(e) => lowered(e, f),
        None => Err(ExponentError::Invalid),
    }
}

// ---- steps 7 to 10

// Step 8: x and the count of bytes cut.
pub fn raised(x: Shift, cut: u64) -> Shift
    requires { cut < 2 ^ 63 }
    ensures { (n : ℕ) → Stands n x → Raised (n + cut) result }
{
    let size = x.size;
    if x.negative {
        if cut <= size {
            return Exponent {
                negative: true,
                size: size - cut,
            };
        }
        return Exponent {
            negative: false,
            size: cut - size,
        };
    }
    if 0x8000_0000_0000_0000 <= size {
        return x;
    }
    Exponent {
        negative: false,
        size: size + cut,
    }
}
// More than 34 digits are never cut or padded, so no more is told.
const MOST: u64 = 35;

// Steps 7, 9 and 10: where x stands.
pub fn place(x: Shift) -> Stand
    ensures { (n : ℕ) → Raised n x → result ≡ stand_at n }
{
    let n = x.size;
    if x.negative {
        if n <= 6176 {
            return Stand {
                field: 6176 - n as u32,
                below: 0,
                above: 0,
            };
        }
        return Stand {
            field: 0,
            below: (n - 6176).min(MOST) as u32,
            above: 0,
        };
    }
    if n <= 6111 {
        return Stand {
            field: 6176 + n as u32,
            below: 0,
            above: 0,
        };
    }
    Stand {
        field: 12287,
        below: 0,
        above: (n - 6111).min(MOST) as u32,
    }
}
