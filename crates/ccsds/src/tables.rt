// Table 4-1, and tables 4-2, 4-3, 4-5, 4-6, 4-8 and 4-9, as constant data. Internal: the crates of this repository call what is here, and a user of the layer has no
// need to.
ghost use Rattle.std.specs.Prelude.{◌≡◌, [], ◌<◌, ◌≤◌, length, get_or};
ghost use Rattle.ccsds.specs.Tables.{code_of, is_code};
ghost use Rattle.ccsds.specs.inner.Layout.{LayoutOf, FrontIs, joined, start_in, max_rows, max_degree, max_addresses};

use crate::code::Code;

// Table 4-2, row by row.
const C1: [u16; 80] = [
    41, 60, 72, 98, 222, 33, 112, 163, 197, 255, 2, 46, 67, 116, 248, 90, 117, 129, 151, 243, 156,
    162, 198, 208, 213, 15, 113, 155, 196, 245, 55, 68, 86, 136, 234, 33, 46, 149, 203, 231, 2, 76,
    120, 225, 254, 95, 112, 133, 179, 185, 54, 76, 146, 232, 251, 107, 159, 177, 245, 250, 116,
    146, 157, 198, 240, 28, 93, 113, 159, 195, 15, 144, 186, 188, 246, 15, 27, 41, 69, 150,
];

// Table 4-3, row by row.
const C2: [u16; 72] = [
    33, 204, 222, 645, 730, 760, 80, 243, 481, 541, 639, 900, 251, 464, 697, 710, 754, 980, 43,
    229, 288, 505, 671, 1002, 59, 162, 582, 744, 67, 738, 935, 961, 36, 146, 310, 736, 211, 413,
    609, 1023, 6, 124, 666, 768, 91, 121, 565, 943, 506, 576, 812, 902, 385, 495, 619, 645, 368,
    468, 498, 870, 59, 253, 737, 1023, 810, 832, 860, 934, 129, 339, 447, 613,
];

// Table 4-5, row by row.
const C4: [u16; 160] = [
    54, 65, 72, 116, 122, 25, 72, 95, 99, 109, 46, 76, 96, 114, 123, 3, 47, 82, 113, 117, 16, 37,
    66, 78, 108, 17, 44, 61, 119, 123, 30, 52, 64, 74, 103, 33, 93, 103, 115, 126, 12, 26, 32, 46,
    113, 8, 75, 77, 89, 119, 34, 48, 83, 100, 102, 19, 49, 90, 111, 125, 10, 30, 61, 80, 92, 25,
    51, 100, 109, 127, 26, 39, 64, 78, 84, 49, 61, 63, 67, 86, 58, 60, 78, 80, 97, 21, 27, 41, 79,
    96, 12, 78, 83, 104, 114, 9, 34, 71, 101, 115, 32, 34, 44, 53, 94, 11, 13, 33, 63, 84, 18, 47,
    88, 94, 108, 39, 53, 65, 99, 110, 28, 54, 72, 90, 97, 7, 41, 91, 96, 109, 10, 14, 32, 59, 116,
    37, 50, 65, 71, 99, 13, 22, 26, 84, 112, 29, 39, 44, 65, 99, 8, 34, 62, 95, 108, 5, 17, 39, 83,
    110,
];

// Table 4-6, row by row.
const C5: [u16; 144] = [
    10, 49, 116, 168, 494, 24, 221, 359, 369, 459, 6, 210, 259, 400, 420, 139, 146, 277, 343, 457,
    37, 136, 222, 260, 306, 65, 199, 243, 349, 364, 130, 207, 324, 368, 430, 67, 247, 454, 505,
    509, 152, 162, 169, 326, 436, 125, 208, 249, 303, 411, 10, 120, 155, 486, 508, 74, 79, 177,
    325, 363, 240, 290, 341, 382, 428, 85, 131, 140, 199, 433, 0, 30, 108, 191, 338, 167, 293, 411,
    438, 497, 126, 218, 240, 396, 87, 323, 381, 385, 12, 130, 184, 366, 239, 395, 449, 493, 94,
    100, 112, 234, 71, 193, 229, 419, 186, 230, 444, 448, 69, 95, 267, 289, 270, 274, 424, 476, 11,
    57, 231, 461, 126, 264, 436, 458, 25, 123, 367, 461, 66, 352, 492, 502, 131, 143, 393, 501, 88,
    222, 396, 506, 173, 283, 457, 471,
];

// Table 4-8, row by row.
const C7: [u16; 432] = [
    2, 6, 9, 19, 45, 48, 60, 0, 5, 10, 19, 28, 39, 49, 5, 10, 14, 16, 23, 43, 60, 1, 4, 21, 35, 47,
    54, 58, 5, 7, 9, 12, 16, 30, 42, 3, 9, 29, 31, 38, 44, 48, 1, 16, 18, 35, 39, 46, 52, 3, 6, 10,
    21, 23, 33, 56, 4, 16, 18, 35, 45, 49, 54, 8, 21, 28, 35, 39, 41, 58, 5, 38, 42, 44, 56, 59,
    63, 3, 7, 33, 45, 50, 54, 60, 9, 15, 26, 29, 40, 52, 62, 9, 16, 20, 30, 43, 45, 47, 3, 8, 20,
    30, 47, 49, 58, 1, 38, 43, 48, 50, 53, 55, 2, 28, 30, 37, 40, 43, 57, 15, 18, 28, 37, 48, 57,
    59, 3, 26, 28, 31, 37, 56, 62, 12, 14, 18, 21, 27, 47, 57, 0, 26, 46, 49, 53, 55, 60, 24, 35,
    37, 44, 47, 57, 62, 10, 16, 22, 36, 49, 55, 59, 3, 14, 23, 25, 45, 50, 56, 0, 27, 29, 42, 44,
    54, 57, 1, 27, 34, 40, 44, 47, 61, 12, 16, 19, 45, 54, 58, 63, 2, 6, 17, 27, 52, 55, 61, 0, 6,
    20, 25, 39, 45, 50, 1, 4, 22, 32, 43, 45, 55, 3, 12, 16, 30, 33, 58, 63, 0, 11, 15, 17, 21, 34,
    54, 6, 21, 27, 34, 36, 41, 56, 8, 13, 23, 33, 36, 42, 51, 13, 24, 28, 30, 34, 39, 51, 25, 28,
    39, 42, 46, 59, 61, 1, 26, 28, 40, 45, 54, 63, 17, 28, 32, 38, 45, 51, 63, 1, 20, 32, 34, 47,
    59, 62, 10, 15, 29, 32, 38, 57, 59, 17, 19, 21, 42, 44, 46, 48, 4, 10, 21, 33, 48, 51, 55, 8,
    20, 35, 38, 47, 50, 61, 2, 5, 30, 36, 43, 55, 57, 1, 28, 31, 38, 42, 56, 61, 24, 41, 43, 47,
    52, 54, 61, 1, 15, 34, 48, 51, 54, 60, 13, 16, 23, 42, 54, 57, 59, 6, 10, 13, 44, 56, 59, 2,
    11, 13, 23, 44, 49, 2, 6, 12, 24, 31, 45, 4, 9, 27, 29, 55, 62, 10, 24, 38, 41, 47, 52, 3, 13,
    15, 40, 57, 62, 0, 3, 10, 28, 57, 62, 17, 29, 32, 35, 55, 58, 2, 8, 11, 13, 22, 28, 11, 26, 31,
    44, 49, 61, 4, 24, 31, 38, 42, 45, 9, 19, 44, 46, 53, 63, 16, 20, 39, 49, 58, 62, 25, 40, 46,
    59, 61, 63, 1, 40, 43, 50, 60, 62, 2, 23, 29, 33, 48, 59,
];

// Table 4-9, row by row. Corrigendum 1 restored a row: there are 64.
const C8: [u16; 388] = [
    31, 80, 100, 138, 161, 198, 213, 40, 62, 67, 124, 191, 213, 225, 8, 17, 62, 75, 122, 156, 207,
    3, 29, 54, 88, 130, 137, 167, 1, 10, 28, 51, 232, 238, 47, 72, 85, 211, 226, 241, 14, 52, 93,
    162, 187, 208, 65, 76, 125, 179, 223, 242, 63, 125, 146, 176, 212, 246, 1, 54, 85, 108, 207,
    235, 30, 39, 41, 60, 104, 114, 102, 104, 123, 157, 223, 249, 84, 130, 136, 174, 249, 251, 25,
    40, 51, 58, 61, 71, 112, 114, 147, 156, 206, 213, 19, 74, 84, 103, 205, 241, 61, 108, 128, 179,
    214, 250, 11, 97, 148, 165, 178, 183, 64, 101, 110, 130, 191, 252, 93, 135, 150, 172, 209, 251,
    0, 39, 57, 92, 170, 246, 19, 127, 166, 209, 213, 216, 38, 65, 82, 120, 236, 251, 2, 33, 139,
    152, 167, 213, 21, 56, 59, 70, 84, 242, 52, 99, 117, 167, 177, 202, 72, 143, 170, 197, 228,
    238, 45, 84, 89, 159, 179, 206, 148, 152, 169, 175, 230, 234, 75, 78, 120, 165, 185, 207, 2,
    75, 80, 129, 158, 164, 3, 50, 117, 121, 160, 175, 42, 62, 67, 93, 140, 240, 29, 42, 59, 103,
    153, 196, 22, 61, 103, 192, 210, 220, 33, 60, 147, 149, 238, 255, 8, 84, 121, 134, 143, 250, 7,
    9, 128, 142, 149, 235, 56, 137, 164, 198, 234, 251, 15, 66, 184, 189, 201, 235, 38, 92, 109,
    130, 184, 251, 11, 44, 103, 105, 162, 221, 40, 45, 70, 90, 167, 220, 29, 38, 44, 75, 127, 209,
    1, 152, 178, 212, 231, 238, 16, 21, 102, 139, 153, 175, 44, 46, 80, 83, 202, 217, 17, 67, 120,
    122, 125, 191, 24, 29, 102, 116, 146, 227, 10, 39, 68, 109, 233, 235, 5, 28, 72, 135, 218, 222,
    36, 105, 117, 183, 211, 246, 60, 74, 112, 129, 174, 223, 8, 13, 25, 95, 118, 251, 80, 129, 202,
    204, 211, 230, 97, 128, 146, 149, 171, 183, 44, 69, 139, 154, 160, 222, 27, 89, 95, 124, 186,
    205, 13, 30, 55, 100, 202, 248, 68, 71, 118, 121, 243, 253, 23, 25, 146, 150, 180, 200, 0, 9,
    83, 135, 174, 189, 104, 156, 210, 233, 235, 246, 63, 66, 73, 93, 155, 168,
];

// The most rows of a table, and the most addresses of a row.
pub const MAX_ROWS: usize = 64;

pub const MAX_DEGREE: usize = 8;

// The most addresses of a table.
pub const MAX_ADDRESSES: usize = MAX_ROWS * MAX_DEGREE;

// A code's numbers in table 4-1, and how its table stands in its flat array: `rows` rows, of which the first `long` have `degree`
// addresses each and the others `rest`.
#[derive(Clone, Copy)]
pub struct Layout {
    pub k: usize,
    pub m: usize,
    pub q: usize,
    pub a: usize,
    pub rows: usize,
    pub long: usize,
    pub degree: usize,
    pub rest: usize,
}

// The layout of a code; all zero for a number that is no code's.
pub fn layout_of(number: usize) -> Layout
    ensures { LayoutOf (code_of number) result }
{
    match number {
        1 => Layout {
            k: Code::C1_K,
            m: Code::C1_M,
            q: 32,
            a: 8,
            rows: 16,
            long: 16,
            degree: 5,
            rest: 0,
        },
        2 => Layout {
            k: Code::C2_K,
            m: Code::C2_M,
            q: 128,
            a: 8,
            rows: 16,
            long: 4,
            degree: 6,
            rest: 4,
        },
        4 => Layout {
            k: Code::C4_K,
            m: Code::C4_M,
            q: 16,
            a: 8,
            rows: 32,
            long: 32,
            degree: 5,
            rest: 0,
        },
        5 => Layout {
            k: Code::C5_K,
            m: Code::C5_M,
            q: 64,
            a: 8,
            rows: 32,
            long: 16,
            degree: 5,
            rest: 4,
        },
        7 => Layout {
            k: Code::C7_K,
            m: Code::C7_M,
            q: 8,
            a: 8,
            rows: 64,
            long: 48,
            degree: 7,
            rest: 6,
        },
        8 => Layout {
            k: Code::C8_K,
            m: Code::C8_M,
            q: 32,
            a: 8,
            rows: 64, // of table 4-9
            long: 4,
            degree: 7,
            rest: 6,
        },
        _ => Layout {
            k: 0,
            m: 0,
            q: 0,
            a: 0,
            rows: 0,
            long: 0,
            degree: 0,
            rest: 0,
        },
    }
}

// A code's number with its layout.
#[derive(Clone, Copy)]
pub struct CodeLayout {
    pub number: usize,
    pub layout: Layout,
    pub ghost layout_of: { LayoutOf (code_of number) layout },
}

// Puts xs at the front of an array.
fn put_front(xs: &[u16], flat: &mut [u16; MAX_ADDRESSES])
    requires { (length xs.now ≤ max_addresses) × (length flat.old ≡ max_addresses) }
    ensures { FrontIs xs.now flat.new }
{
    for (i, x) in xs.iter().enumerate() {
        flat[i] = *x;
    }
}

// The addresses of a code's table, at the front of an array. Each table is read into a local first: copied from the constant itself it would be a call
// of memcpy, which nothing else in the archive needs (tests/header/symbols.sh).
pub fn put_addresses(number: usize, flat: &mut [u16; MAX_ADDRESSES])
    requires { length flat.old ≡ max_addresses }
    ensures { FrontIs (joined (code_of number).rows) flat.new }
{
    match number {
        1 => {
            let xs = C1;
            put_front(&xs, flat);
        }
        2 => {
            let xs = C2;
            put_front(&xs, flat);
        }
        4 => {
            let xs = C4;
            put_front(&xs, flat);
        }
        5 => {
            let xs = C5;
            put_front(&xs, flat);
        }
        7 => {
            let xs = C7;
            put_front(&xs, flat);
        }
        8 => {
            let xs = C8;
            put_front(&xs, flat);
        }
        _ => (),
    }
}

// Where a row's addresses start in the flat array.
fn start(row: usize, long: usize, degree: usize, rest: usize) -> usize
    requires { (row ≤ max_rows) × (long ≤ max_rows) × (degree ≤ max_degree) × (rest ≤ max_degree) }
    ensures value { result ≡ start_in row long degree rest }
    ensures room { result ≤ max_addresses }
{
    if row < long {
        row * degree
    } else {
        long * degree + (row - long) * rest
    }
}

impl CodeLayout {
    // Whether the number is a code's: a code has symbols.
    pub fn is_code(self) -> bool
        ensures { result ≡ is_code self.number }
    {
        self.layout.k + self.layout.m != 0
    }

    // How many addresses a table row has.
    fn degree(self, row: usize) -> usize
        requires { row < length (code_of self.number).rows }
        ensures { result ≡ length (get_or (code_of self.number).rows row []) }
    {
        let l = self.layout;
        if row < l.long { l.degree } else { l.rest }
    }

    // The addresses of a table row.
    pub fn row(self, flat: &[u16; MAX_ADDRESSES], row: usize) -> &[u16]
        requires front { FrontIs (joined (code_of self.number).rows) flat.now }
        requires row_in_bounds { row < length (code_of self.number).rows }
        ensures { result.now ≡ get_or (code_of self.number).rows row [] }
    {
        let l = self.layout;
        let at = start(row, l.long, l.degree, l.rest);
        &flat[at..at + self.degree(row)]
    }
}
