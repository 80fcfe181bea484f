// The powers of ten from 10^0 to 10^34, as rows of four limbs. A row by its name costs nothing, a row by a variable index
// is copied, so the rows have names and the table is made of them.
ghost use Rattle.std.specs.Prelude.{◌≡◌, ◌*◌, ◌^◌, ◌≤◌, ◌<◌, nat_lt};
ghost use Rattle.limbs.specs.Value.{value};

pub const TEN_0: [u32; 4] = [1, 0, 0, 0];

pub const TEN_1: [u32; 4] = [10, 0, 0, 0];

pub const TEN_2: [u32; 4] = [100, 0, 0, 0];

pub const TEN_3: [u32; 4] = [1000, 0, 0, 0];

pub const TEN_4: [u32; 4] = [10000, 0, 0, 0];

pub const TEN_5: [u32; 4] = [100000, 0, 0, 0];

pub const TEN_6: [u32; 4] = [1000000, 0, 0, 0];

pub const TEN_7: [u32; 4] = [10000000, 0, 0, 0];

pub const TEN_8: [u32; 4] = [100000000, 0, 0, 0];

pub const TEN_9: [u32; 4] = [1000000000, 0, 0, 0];

pub const TEN_10: [u32; 4] = [1410065408, 2, 0, 0];

pub const TEN_11: [u32; 4] = [1215752192, 23, 0, 0];

pub const TEN_12: [u32; 4] = [3567587328, 232, 0, 0];

pub const TEN_13: [u32; 4] = [1316134912, 2328, 0, 0];

pub const TEN_14: [u32; 4] = [276447232, 23283, 0, 0];

pub const TEN_15: [u32; 4] = [2764472320, 232830, 0, 0];

pub const TEN_16: [u32; 4] = [1874919424, 2328306, 0, 0];

pub const TEN_17: [u32; 4] = [1569325056, 23283064, 0, 0];

pub const TEN_18: [u32; 4] = [2808348672, 232830643, 0, 0];

pub const TEN_19: [u32; 4] = [2313682944, 2328306436, 0, 0];

pub const TEN_20: [u32; 4] = [1661992960, 1808227885, 5, 0];

pub const TEN_21: [u32; 4] = [3735027712, 902409669, 54, 0];

pub const TEN_22: [u32; 4] = [2990538752, 434162106, 542, 0];

pub const TEN_23: [u32; 4] = [4135583744, 46653770, 5421, 0];

pub const TEN_24: [u32; 4] = [2701131776, 466537709, 54210, 0];

pub const TEN_25: [u32; 4] = [1241513984, 370409800, 542101, 0];

pub const TEN_26: [u32; 4] = [3825205248, 3704098002, 5421010, 0];

pub const TEN_27: [u32; 4] = [3892314112, 2681241660, 54210108, 0];

pub const TEN_28: [u32; 4] = [268435456, 1042612833, 542101086, 0];

pub const TEN_29: [u32; 4] = [2684354560, 1836193738, 1126043566, 1];

pub const TEN_30: [u32; 4] = [1073741824, 1182068202, 2670501072, 12];

pub const TEN_31: [u32; 4] = [2147483648, 3230747430, 935206946, 126];

pub const TEN_32: [u32; 4] = [0, 2242703233, 762134875, 1262];

pub const TEN_33: [u32; 4] = [0, 952195850, 3326381459, 12621];

pub const TEN_34: [u32; 4] = [0, 932023908, 3199043520, 126217];

const POWERS: [[u32; 4]; 35] = [
    TEN_0, TEN_1, TEN_2, TEN_3, TEN_4, TEN_5, TEN_6, TEN_7, TEN_8, TEN_9, TEN_10, TEN_11, TEN_12,
    TEN_13, TEN_14, TEN_15, TEN_16, TEN_17, TEN_18, TEN_19, TEN_20, TEN_21, TEN_22, TEN_23, TEN_24,
    TEN_25, TEN_26, TEN_27, TEN_28, TEN_29, TEN_30, TEN_31, TEN_32, TEN_33, TEN_34,
];

// 10^k.
pub fn power(k: usize) -> [u32; 4]
    requires { k ≤ 34 }
    ensures { value result ≡ 10 ^ k }
{
    POWERS[k]
}

// c is a coefficient: at most 10^34 - 1.
pub fn within(c: [u32; 4]) -> bool
    ensures { result ≡ nat_lt (value c) (10 ^ 34) }
{
    crate::less(c, TEN_34)
}

// c with d zeros behind it.
pub fn padded(c: [u32; 4], d: usize) -> [u32; 4]
    requires { (d ≤ 34) × (value c * 10 ^ d < 10 ^ 34) }
    ensures { value result ≡ value c * 10 ^ d }
{
    if d == 0 {
        return c;
    }
    crate::times(c, power(d))
}
