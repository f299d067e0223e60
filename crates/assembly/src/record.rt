// Total and floor: what a piece with this MF and end does to them. No methods of Rec: none reads its key or spoilt, and each promise
// is of these two alone.
ghost use Rattle.std.specs.Prelude.{◌≡◌, ◌<◌, ◌^◌};
ghost use Rattle.assembly.specs.Assembly.{end_clash, new_floor, new_total, total_fits, record_fits};

// Whether the end contradicts the total or the floor.
pub(crate) fn end_clash(total: Option<usize>, floor: usize, mf: bool, end: usize) -> bool
    ensures { result ≡ end_clash total floor mf end }
{
    match total {
        Some(t) => {
            if mf {
                t <= end
            } else {
                t != end || end < floor
            }
        }
        None => { if mf { false } else { end < floor } }
    }
}

// The floor after the piece.
pub(crate) fn new_floor(mf: bool, floor: usize, end: usize) -> usize
    requires { end < 2 ^ 63 }
    ensures { result ≡ new_floor mf floor end }
{
    if mf {
        if floor < end + 1 {
            return end + 1;
        }
    }
    floor
}

// The total after the piece.
pub(crate) fn new_total(mf: bool, total: Option<usize>, end: usize) -> Option<usize>
    ensures { result ≡ new_total mf total end }
{
    if mf {
        return total;
    }
    Some(end)
}

// Whether a payload of `cap` bytes has room for the total.
fn total_fits(total: Option<usize>, cap: usize) -> bool
    ensures { result ≡ total_fits cap total }
{
    match total {
        Some(t) => t <= cap,
        None => true,
    }
}

// Whether pieces within a payload of `cap` bytes can lead to this total and floor.
pub(crate) fn fits(total: Option<usize>, floor: usize, cap: usize) -> bool
    ensures { result ≡ record_fits cap total floor }
{
    if total_fits(total, cap) {
        return floor <= 8 * (cap / 8) + 1;
    }
    false
}
