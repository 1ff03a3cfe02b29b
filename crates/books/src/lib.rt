// The vector quantiser over the seven books: vq_lookup and vq_search.
#![tactic(auto)]

ghost use Rattle.std.specs.Prelude.{◌≡◌, ◌||◌, ◌+◌, ◌*◌, ◌≤◌, ◌<◌, ◌^◌, pos, length, get_or};
ghost use Rattle.std.specs.Float.Ieee.{lt};
ghost use Rattle.std.specs.Float.{nan};
ghost use Rattle.levels.specs.Value.{q15};
ghost use Rattle.bits.specs.Bits.{splice};
ghost use Rattle.tables.specs.Tables.{vq_bits};
ghost use Rattle.books.specs.Books.{vectors_of, six_at, vq_lookup, exact_entry, exacts_at, vq_exact};
ghost use Rattle.books.specs.Books.{term_of, search_of, vq_search};
ghost use Rattle.books.specs.Fractions.{floats, FractionsOf};
ghost use Rattle.books.specs.Work.{NoNans, nearer_of, distance_in};

mod consts;

use answers::Refusal;

// The nearest vector so far and its distance.
#[derive(Clone, Copy)]
pub struct Nearest {
    pub best: usize,
    pub least: f32,
}

// How many vectors the book of the hebap has, 0 where there is none.
fn vectors_in(hebap: u8) -> usize
    ensures { result ≡ vectors_of hebap }
{
    match hebap {
        1 => 4,
        2 => 8,
        3 => 16,
        4 => 32,
        5 => 128,
        6 => 256,
        7 => 512,
        _ => 0,
    }
}

// ---- looking up

// The number at a place of a book, as a fraction.
fn fraction(b: &[i16], i: usize) -> f32
    requires { i < length b.now }
    ensures { result ≡ q15 (get_or b.now i (pos 0)) }
{
    levels::q15(b[i])
}

// The same number as an exact value.
fn exact_entry(b: &[i16], i: usize) -> i32
    requires { i < length b.now }
    ensures { result ≡ exact_entry (get_or b.now i (pos 0)) }
{
    i32::from(b[i]) * 32768
}

// The six numbers of a book from the place a on, as fractions.
fn six(b: &[i16], a: usize) -> [f32; 6]
    requires { (a + 6 ≤ length b.now) × (a < 65536) }
    ensures { result ≡ six_at b.now a }
{
    [
        fraction(b, a),
        fraction(b, a + 1),
        fraction(b, a + 2),
        fraction(b, a + 3),
        fraction(b, a + 4),
        fraction(b, a + 5),
    ]
}

// The same six as exact values. One function over both, with the conversion as a closure, is no plainer: its clause
// is six postconditions, each over an i16 that the proof converts there and back, and both callers restate them.
fn exact_six(b: &[i16], a: usize) -> [i32; 6]
    requires { (a + 6 ≤ length b.now) × (a < 65536) }
    ensures { result ≡ exacts_at b.now a }
{
    [
        exact_entry(b, a),
        exact_entry(b, a + 1),
        exact_entry(b, a + 2),
        exact_entry(b, a + 3),
        exact_entry(b, a + 4),
        exact_entry(b, a + 5),
    ]
}

// The vector at an index of the book of the hebap, modulo its number of vectors; zeros where there is no book.
pub fn vq_lookup(hebap: u8, index: usize) -> [f32; 6]
    ensures { result ≡ vq_lookup hebap index }
{
    let n = vectors_in(hebap);
    if n == 0 {
        return [0.0f32; 6];
    }
    six(tables::vq_book(hebap), index % n * 6)
}

// The vector at an index of the book of the hebap goes to six places from `at` on, as f32 and as exact values.
pub fn put_vector(hebap: u8, index: usize, at: usize, values: &mut [f32], exact: &mut [i32])
    requires le_hebap { (1 ≤ hebap) × (hebap ≤ 7) × (index < 2 ^ vq_bits hebap) }
    requires at_in_bounds { (at + 6 ≤ length values.old) × (at + 6 ≤ length exact.old) }
    ensures values_after { values.new ≡ splice values.old at (vq_lookup hebap index) }
    ensures exact_after { exact.new ≡ splice exact.old at (vq_exact hebap index) }
{
    let book = tables::vq_book(hebap);
    let a = index * 6;
    values[at..at + 6].copy_from_slice(&six(book, a));
    exact[at..at + 6].copy_from_slice(&exact_six(book, a));
}

// ---- searching

// The book of the hebap in component order, each number as the bit pattern of its fraction: so several vectors are
// taken at a time.
fn fractions(hebap: u8) -> &'static [u32]
    ensures { FractionsOf hebap result.now }
{
    match hebap {
        1 => &consts::VQ_HEBAP1,
        2 => &consts::VQ_HEBAP2,
        3 => &consts::VQ_HEBAP3,
        4 => &consts::VQ_HEBAP4,
        5 => &consts::VQ_HEBAP5,
        6 => &consts::VQ_HEBAP6,
        7 => &consts::VQ_HEBAP7,
        _ => &[],
    }
}

// d and the square of what x and the fraction at a place differ by.
fn term(d: f32, x: f32, t: &[u32], i: usize) -> f32
    requires { (i < length t.now) × NoNans t.now }
    ensures { result ≡ term_of d x (get_or (floats t.now) i nan) }
{
    let diff = x - f32::from_bits(t[i]);
    d + diff * diff
}

// A book in component order, and how many vectors it has.
#[derive(Clone, Copy)]
struct BookColumns<'a> {
    columns: &'a [u32],
    count: usize,
    ghost whole: { count * 6 ≤ length columns.now },
    ghost few: { count < 1024 },
    ghost no_nans: { NoNans columns.now },
}

impl BookColumns<'_> {
    // The book of the hebap; no vectors where there is none.
    fn of(hebap: u8) -> BookColumns<'static>
        ensures columns { FractionsOf hebap result.columns.now }
        ensures count { result.count ≡ vectors_of hebap }
    {
        BookColumns {
            columns: fractions(hebap),
            count: vectors_in(hebap),
        }
    }

    // The distance of six numbers from vector k.
    fn distance(self, k: usize, x: &[f32; 6]) -> f32
        requires { k < self.count }
        ensures { result ≡ distance_in x.now (floats self.entry.columns.now) self.entry.count k }
    {
        let t = self.columns;
        let n = self.count;
        let a = term(0.0f32, x[0], t, k);
        let b = term(a, x[1], t, k + n);
        let c = term(b, x[2], t, k + 2 * n);
        let d = term(c, x[3], t, k + 3 * n);
        let e = term(d, x[4], t, k + 4 * n);
        term(e, x[5], t, k + 5 * n)
    }
}

// Whether one of four is less.
fn any_less(a: f32, b: f32, c: f32, d: f32, least: f32) -> bool
    ensures { result ≡ (lt a least || (lt b least || (lt c least || lt d least))) }
{
    a < least || b < least || c < least || d < least
}

// Vector k takes the place of the nearest so far where its distance d is less.
fn nearer(s: Nearest, d: f32, k: usize) -> Nearest
    ensures { result ≡ nearer_of s d k }
{
    if d < s.least {
        Nearest { best: k, least: d }
    } else {
        s
    }
}

// The first of the vectors nearest to x in the book of the hebap. Four at a time, which the machine does together; only
// where one of them is nearer than all before are they compared one by one. With step_by(4) the bounds of k + 1 to
// k + 3 need what `k` brings here, said once more, so it is no plainer.
pub fn search(hebap: u8, x: &[f32; 6]) -> usize
    requires { (1 ≤ hebap) × (hebap ≤ 7) }
    ensures { result ≡ search_of hebap x.now }
{
    let book = BookColumns::of(hebap);
    let mut s = Nearest {
        best: 0,
        least: f32::INFINITY,
    };
    let mut k: usize = 0;
    while k < book.count {
        let a = book.distance(k, x);
        let b = book.distance(k + 1, x);
        let c = book.distance(k + 2, x);
        let d = book.distance(k + 3, x);
        if any_less(a, b, c, d, s.least) {
            s = nearer(
                nearer(nearer(nearer(s, a, k), b, k + 1), c, k + 2),
                d,
                k + 3,
            );
        }
        k += 4;
    }
    s.best
}

// The first index of least distance from x in the book of the hebap, 0 where it has none. Refusal 5, where it has one.
pub fn vq_search(hebap: u8, x: &[f32; 6]) -> Result<usize, Refusal>
    ensures { result ≡ vq_search hebap x.now }
{
    if vectors_in(hebap) == 0 {
        return Ok(0);
    }
    if levels::any_too_large(x) {
        return Err(Refusal::Component);
    }
    Ok(search(hebap, x))
}
