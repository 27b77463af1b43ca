// Packed decimal numbers of four digits, four bits each, the highest first.
#![tactic(auto)]

ghost use Rattle.std.specs.Prelude.{◌≡◌, true, ◌<◌};
ghost use Rattle.rules_decimal.specs.Packed.{pack, packed, unpack, sum};

// A number of four decimal digits, packed: a digit is worth 16 of the place below it, and not 10, which is 6 more.
pub fn pack_number(x: u16) -> u16
    requires { x < 10000 }
    ensures { result ≡ pack 4 x }
{
    let tens = x / 10;
    let hundreds = tens / 10;
    let thousands = hundreds / 10;
    x + (6 * tens + 96 * hundreds + 1536 * thousands)
}

// A digit of 1 at each of the four places.
const ONES: u32 = 0x1111;

// Whether each of the four digits is at most 9: none has the bit of 8 with that of 4 or of 2.
pub fn is_packed(x: u16) -> bool
    ensures { result ≡ packed 4 x }
{
    let digits = x as u32;
    (digits / 8 & (digits / 4 | digits / 2) & ONES) == 0
}

// The number of four packed digits: a digit is worth 10 of the place below it, and not 16, which is 6 less.
pub fn unpack_number(x: u16) -> u16
    ensures { result ≡ unpack 4 x }
{
    let tens = x / 16;
    let hundreds = tens / 16;
    let thousands = hundreds / 16;
    x - (6 * tens + 60 * hundreds + 600 * thousands)
}

// Two packed numbers are added all digits at once, with 6 more in each digit: so a digit carries in base 16 exactly if the decimal digit
// does. Where it does not, the 6 is taken away again; the carry out of the highest digit is lost.
pub fn add_packed(x: u16, y: u16) -> u16
    requires { (packed 4 x ≡ true) × (packed 4 y ≡ true) }
    ensures { result ≡ sum 4 x y }
{
    let p = x as u32;
    let q = y as u32;
    let total = p + q + 6 * ONES;
    // A carry changes the bit above its digit.
    let carries = ((total ^ p ^ q) & (16 * ONES)) / 16;
    ((total - 6 * (ONES - carries)) % 65536) as u16
}
