// Decimal numbers, and the program's words.
ghost use Rattle.std.specs.Prelude.{◌≡◌};
ghost use Rattle.plan.specs.Words.{first_digit, more_digit, number_in, is_check, ask_in};

// The digits of the largest number, 18,446,744,073,709,551,615.
pub const LONGEST: usize = 20;

// What the words ask for: the list for n bytes and a link of m, or a check of one.
#[derive(Clone, Copy, Drop)]
pub enum Ask {
    List(usize, usize),
    Check(usize, usize),
}

pub fn first_digit(c: u8) -> Option<u64>
    ensures { result ≡ first_digit c }
{
    if !c.is_ascii_digit() {
        return None;
    }
    Some(u64::from(c - b'0'))
}

// One digit more behind those of v. A number has no 0 before another digit: other programs read 010 as the octal number 8.
pub fn more_digit(v: u64, c: u8) -> Option<u64>
    ensures { result ≡ more_digit v c }
{
    if v == 0 {
        return None;
    }
    let d = first_digit(c)?;
    v.checked_mul(10)?.checked_add(d)
}

// A number, in decimal. Not words' read_number, which has bounds and 16 bits: numbers of 64 bits, and a byte at a time,
// as lines needs them. No parse: it takes +5 and 05, which are wrong here, and the words are bytes.
pub fn read_number(w: &[u8]) -> Option<u64>
    ensures { result ≡ number_in w.now }
{
    let (first, rest) = w.split_first()?;
    let mut number = first_digit(*first)?;
    for c in rest {
        number = more_digit(number, *c)?;
    }
    Some(number)
}

fn is_check(w: &[u8]) -> bool
    ensures { result ≡ is_check w.now }
{
    w == b"check".as_slice()
}

// The words after the program's name: two numbers, and where there is a third word it is check.
pub fn read_words(count: usize, n: &[u8], m: &[u8], third: &[u8]) -> Option<Ask>
    ensures { result ≡ ask_in count n.now m.now third.now }
{
    let n = read_number(n)?;
    let m = read_number(m)?;
    if count == 2 {
        return Some(Ask::List(n as usize, m as usize));
    }
    if count != 3 {
        return None;
    }
    if is_check(third) {
        Some(Ask::Check(n as usize, m as usize))
    } else {
        None
    }
}
