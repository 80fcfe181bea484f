// The public operations for C and Rust: include/decimal128.h says what each gives and what it leaves alone. That of `larger` is
// in its own crate. C has the number of an answer as its result, and the rest through pointers.
ghost use Rattle.meaning.specs.Layout.{stored, decode};
ghost use Rattle.meaning.specs.Writing.{write_text, debug_text};
ghost use Rattle.decimal128.specs.Operations.{PutGives, ReadGives, ParseGives, CompareGives, put_number, put_length};
ghost use Rattle.std.specs.Prelude.{◌≡◌};

use crate::{Decimal128, NO_ORDER, NotOrdered};
use writing::NoRoom;

const ACCEPTED: u32 = 0;

const NO_ROOM: u32 = 9;

// The number, and the length in its place.
fn give_length(put: Result<usize, NoRoom>, len: &mut usize) -> u32
    ensures number { result ≡ put_number put }
    ensures length { len.new ≡ put_length put }
{
    match put {
        Ok(n) => {
            *len = n;
            ACCEPTED
        }
        Err(NoRoom) => {
            *len = 0;
            NO_ROOM
        }
    }
}

pub fn decimal128_read(text: &[u8], out: &mut [u8; 16], place: &mut usize) -> u32
    ensures { ReadGives text.now result out.new place.new }
{
    // Packed here: a `Decimal128` in between costs every reading thirteen instructions. The bytes go through a name, since the check
    // does not cover a call whose array is stored through a reference.
    match reading::read(text) {
        Ok(value) => {
            let stored = layout::pack(value.fields);
            *out = stored;
            *place = 0;
            ACCEPTED
        }
        Err(refused) => {
            *out = [0; 16];
            *place = refused.place;
            refused.refusal.number()
        }
    }
}

pub fn decimal128_write(bytes: &[u8; 16], buf: &mut [u8], len: &mut usize) -> u32
    ensures { PutGives (write_text (decode (stored bytes.now))) buf.old result len.new buf.new }
{
    let put = Decimal128::from_bytes(*bytes).write(buf);
    give_length(put, len)
}

pub fn decimal128_debug(bytes: &[u8; 16], buf: &mut [u8], len: &mut usize) -> u32
    ensures { PutGives (debug_text bytes.now) buf.old result len.new buf.new }
{
    let put = Decimal128::from_bytes(*bytes).debug(buf);
    give_length(put, len)
}

pub fn decimal128_parse(bytes: &[u8], out: &mut [u8; 16]) -> u32
    ensures { ParseGives bytes.now result out.new }
{
    match crate::parse(bytes) {
        Ok(value) => {
            let stored = value.bytes;
            *out = stored;
            ACCEPTED
        }
        Err(refusal) => {
            *out = [0; 16];
            refusal.number()
        }
    }
}

pub fn decimal128_compare(a: &[u8; 16], b: &[u8; 16], order: &mut i32) -> u32
    ensures { CompareGives a.now b.now result order.new }
{
    let Some(ordering) = comparing::compare(a, b) else {
        *order = NO_ORDER;
        return NotOrdered.number();
    };
    *order = ordering as i32;
    ACCEPTED
}
