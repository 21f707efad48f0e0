// The rows of planar surfaces in a lent area: scaled, put in order in place, and asked for the largest and the smallest. Internal: `qto`
// asks it.
// Stays here: the bound of an index (`Inside`) in each contract: two indices into one area are bounded at a time.
#![tactic(auto)]

ghost use Rattle.std.specs.Prelude.{◌≡◌, ◌+◌, ◌<◌, T, length, set, fold};
ghost use Rattle.rows.specs.Rows.{flatten, rows_of, Whole, then_by, precedes as precedes_of, sorted, scaled, scaled_row};
ghost use Rattle.rows.specs.Rows.{largest as largest_of, smallest as smallest_of, less_above};
ghost use Rattle.rows.specs.Plain.{all_plain};
ghost use Rattle.rows.specs.Sorting.{row_at};
ghost use Rattle.rows.specs.inner.Passes.{Inside, swapped, Keeps, Rising, AfterPass, least_four};

// One planar surface: the summed area of the triangles with one key, and the key's direction.
#[derive(Clone, Copy)]
pub struct PlanarSurface {
    pub area: f32,
    pub nx: f32,
    pub ny: f32,
    pub nz: f32,
}

// By the first, or where that is even by the rest.
fn then_by(less: bool, more: bool, rest: bool) -> bool
    ensures { result ≡ then_by less more rest }
{
    less | (!more & rest)
}

// Does r's row come before s's? Two areas are seldom equal.
// Stays: by `<`, since `precedes` of the specs goes past a NaN to the next number, and neither a tuple's order nor OrderedFloat does.
fn precedes(r: PlanarSurface, s: PlanarSurface) -> bool
    ensures { result ≡ precedes_of r s }
{
    let less = s.area < r.area;
    if less | (r.area < s.area) {
        return less;
    }
    let by_ny = then_by(r.ny < s.ny, s.ny < r.ny, r.nz < s.nz);
    then_by(r.nx < s.nx, s.nx < r.nx, by_ny)
}

// ---- one row
// Stays: in a flat slice, since C lends floats, and `as_chunks_mut` says nothing of what the slice holds in the end.

fn get(rows: &[f32], j: usize) -> PlanarSurface
    requires { Inside j rows.now }
    ensures { result ≡ row_at (rows_of rows.now) j }
{
    let [area, nx, ny, nz] = rows.as_chunks::<4>().0[j];
    PlanarSurface { area, nx, ny, nz }
}

// Stays: by index, since `copy_from_slice` of an array made the whole of `compute` a tenth slower where there are many rows.
fn put(rows: &mut [f32], j: usize, r: PlanarSurface)
    requires { Inside j rows.old }
    ensures { rows_of rows.new ≡ set (rows_of rows.old) j r }
{
    let at = 4 * j;
    rows[at] = r.area;
    rows[at + 1] = r.nx;
    rows[at + 2] = r.ny;
    rows[at + 3] = r.nz;
}

// Rows i and j change places.
fn swap(rows: &mut [f32], i: usize, j: usize)
    requires { Inside i rows.old × Inside j rows.old }
    ensures { rows_of rows.new ≡ swapped (rows_of rows.old) i j }
{
    let r = get(rows, i);
    let s = get(rows, j);
    put(rows, i, s);
    put(rows, j, r);
}

// Does row i precede row j?
fn ahead(rows: &[f32], i: usize, j: usize) -> bool
    requires { Inside i rows.now × Inside j rows.now }
    ensures { result ≡ precedes_of (row_at (rows_of rows.now) i) (row_at (rows_of rows.now) j) }
{
    precedes(get(rows, i), get(rows, j))
}

// ---- a quick sort, but for parts of 16 rows or fewer: proved to lose and to double no row, which is all that the last pass needs

// Of the rows at a quarter, at half and at three quarters of the way, where the one stands that comes between the other two. Not of the
// ends: what `divide` leaves of rows in order has its last one first.
fn middle(rows: &[f32]) -> usize
    requires { Inside 0 rows.now }
    ensures { Inside result rows.now }
{
    let first = rows.len() / 16;
    let half = first + first;
    let last = half + first;
    if ahead(rows, first, half) {
        if ahead(rows, half, last) {
            return half;
        }
        return if ahead(rows, first, last) {
            last
        } else {
            first
        };
    }
    if ahead(rows, first, last) {
        return first;
    }
    if ahead(rows, half, last) { last } else { half }
}

// The rows that precede the first one come next behind it: where the last of them stands, or 0. All change places, whether they precede
// it or not: a processor would guess a branch here wrongly every other time.
fn divide(rows: &mut [f32]) -> usize
    requires { Inside 0 rows.old }
    ensures { Inside result rows.old × Keeps rows.old rows.new }
{
    let p = get(rows, 0);
    let mut last = 0;
    for i in 1..rows.len() / 4 {
        let n = usize::from(precedes(get(rows, i), p));
        swap(rows, last + 1, i);
        last += n;
    }
    last
}

// The middle one goes to where it belongs, those that precede it in front of it: where that is.
fn split(rows: &mut [f32]) -> usize
    requires { Inside 0 rows.old }
    ensures { Inside result rows.old × Keeps rows.old rows.new }
{
    let m = middle(rows);
    swap(rows, 0, m);
    let last = divide(rows);
    swap(rows, 0, last);
    last
}

// Splits the rows, and what is in front and behind, until the parts are small. False where they are not after so many turns.
fn quick(rows: &mut [f32], turns: usize) -> bool
    ensures { Keeps rows.old rows.new }
{
    if rows.len() / 4 <= 16 {
        return true;
    }
    if turns == 0 {
        return false;
    }
    let p = 4 * split(rows);
    quick(&mut rows[..p], turns - 1) && quick(&mut rows[p + 4..], turns - 1)
}

// ---- passes by insertion: rows a gap apart are put in order. The last pass, with a gap of 1, is what proves the order

// Row i goes back by gaps, past the rows that it precedes; those in front of it are in order.
// Stays: a `while`, since it goes down by gaps to a place that the rows decide.
fn settle(rows: &mut [f32], i: usize, gap: usize)
    requires { Inside i rows.old × (0 < gap) × Rising gap i (rows_of rows.old) }
    ensures { AfterPass gap (i + 1) rows.old rows.new }
{
    let mut j = i;
    while j >= gap {
        if !ahead(rows, j, j - gap) {
            return;
        }
        swap(rows, j - gap, j);
        j -= gap;
    }
}

fn insertion(rows: &mut [f32], gap: usize)
    requires { 0 < gap }
    ensures { AfterPass gap (length (rows_of rows.old)) rows.old rows.new }
{
    for next in 0..rows.len() / 4 {
        settle(rows, next, gap);
    }
}

// Puts the rows in order, but for what the last pass does. Rows that are split badly every time are left to passes with smaller and
// smaller gaps, each a third of the one before, so that no rows take the square of their number.
fn presort(rows: &mut [f32])
    ensures { Keeps rows.old rows.new }
{
    if quick(rows, 32) {
        return;
    }
    for gap in [9841, 3280, 1093, 364, 121, 40, 13, 4] {
        insertion(rows, gap);
    }
}

pub fn sort(rows: &mut [f32])
    requires { Whole rows.old × T (all_plain (rows_of rows.old)) }
    ensures { rows.new ≡ flatten (sorted (rows_of rows.old)) }
{
    presort(rows);
    insertion(rows, 1);
}

// ---- areas

// Each area times `by`.
pub fn scale(rows: &mut [f32], by: f32)
    requires { Whole rows.old }
    ensures { rows.new ≡ flatten (scaled by (rows_of rows.old)) }
{
    for j in 0..rows.len() / 4 {
        rows[4 * j] *= by;
    }
}

pub fn largest(rows: &[f32]) -> f32
    requires { Whole rows.now }
    ensures { result ≡ largest_of (rows_of rows.now) }
{
    rows.first().copied().unwrap_or(0.0)
}

// The least of m and an area, if that is above 1e-6.
fn less_above(m: f32, a: f32) -> f32
    ensures { result ≡ less_above m a }
{
    if a > 1e-6 { floats::least(m, a) } else { m }
}

// The least of m and the areas above 1e-6.
fn least_above(rows: &[[f32; 4]], m: f32) -> f32
    ensures { result ≡ fold least_four m rows.now }
{
    rows.iter().fold(m, |m, row| less_above(m, row[0]))
}

pub fn smallest(rows: &[f32]) -> f32
    ensures { result ≡ smallest_of (rows_of rows.now) }
{
    let most = f32::from_bits(0x7f80_0000);
    let m = least_above(rows.as_chunks().0, most);
    if m < most { m } else { 0.0 }
}
