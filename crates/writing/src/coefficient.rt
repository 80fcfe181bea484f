// A coefficient with the count of its digits, and its digits in a lent buffer.
ghost use Rattle.limbs.specs.Value.{value};
ghost use Rattle.writing.specs.Pieces.{Sized};

use crate::{digits, pieces};

// A number below 10^34 and how many decimal digits it has: 1 to 34.
#[derive(Clone, Copy)]
pub struct Coefficient {
    pub limbs: [u32; 4],
    pub digits: usize,
    pub ghost sized: { Sized (value limbs) digits },
}

impl Coefficient {
    ghost use Rattle.std.specs.Prelude.{◌≡◌, ◌+◌, ◌^◌, ◌<◌, ◌≤◌, length};
    ghost use Rattle.limbs.specs.Value.{value};
    ghost use Rattle.meaning.specs.Writing.{decimal};
    ghost use Rattle.writing.specs.Pieces.{point_at, head, head_length};
    ghost use Rattle.writing.specs.Written.{written};

    // The same number with its digits counted.
    pub fn new(limbs: [u32; 4]) -> Self
        requires { value limbs < 10 ^ 34 }
        ensures { result.limbs ≡ limbs }
    {
        Coefficient {
            limbs,
            digits: limbs::count::digits(limbs),
        }
    }

    // The digits, from `at` on.
    pub fn put(self, buf: &mut [u8], at: usize)
        requires { at + self.digits ≤ length buf.old }
        ensures { buf.new ≡ written at (decimal (value self.limbs)) buf.old }
    {
        digits::put_digits(buf, at, self.digits, self.limbs);
    }

    // The digits with a point after the first `before`, from `at` on. Of many, those before the point are put one byte too
    // far on and moved back.
    pub fn put_pointed(self, buf: &mut [u8], at: usize, before: usize)
        requires some { 0 < before }
        requires within { before ≤ self.digits }
        requires room { at + self.digits < length buf.old }
        ensures { buf.new ≡ written at (point_at before (decimal (value self.limbs))) buf.old }
    {
        if self.digits <= 9 {
            digits::put_around(buf, at, self.digits, before, self.limbs[0]);
        } else {
            digits::put_digits(buf, at + 1, self.digits, self.limbs);
            pieces::put_point(buf, at, before);
        }
    }

    // How many bytes the digits take in exponential notation.
    pub(crate) fn head_len(self) -> usize
        ensures value { result ≡ head_length self.digits }
        ensures few { result ≤ 35 }
    {
        if 1 < self.digits { self.digits + 1 } else { 1 }
    }

    // The first digit, and where there are more a point and the rest.
    pub(crate) fn put_head(self, buf: &mut [u8], at: usize)
        requires { at + head_length self.digits ≤ length buf.old }
        ensures { buf.new ≡ written at (head (decimal (value self.limbs))) buf.old }
    {
        if 1 < self.digits {
            self.put_pointed(buf, at, 1);
        } else {
            self.put(buf, at);
        }
    }
}
