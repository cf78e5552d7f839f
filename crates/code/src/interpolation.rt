// The values of polynomials of degree below k at a point, from their values at k points. Rows lie one after another in one buffer of a fixed size, each
// `block` symbols long: no call allocates (a rule of the project). Loops write by place, since a zip with iter_mut lends what it writes to, and of
// lent elements a proof knows nothing.
ghost use Rattle.std.specs.Prelude.{◌≡◌, ℕ, ◌*◌, ◌<◌, ◌≤◌, length, All, slice_index};
ghost use Rattle.code.specs.Lagrange.{entry, others, weight, value_at};

use field::Field;

// The points of the shares with these numbers.
pub(crate) fn points_of<F: Field>(shares: &[usize]) -> [F::Symbol; 16]
    requires few { length shares.now ≤ 16 }
    requires known { All (λ j. j < 32) shares.now }
    ensures size { length result ≡ 16 }
    ensures points { (i : ℕ) → i < length shares.now → entry F.Field result i ≡ F.model.point (slice_index shares.now i) }
{
    let mut points = [F::zero(); 16];
    for (i, &share) in shares.iter().enumerate() {
        points[i] = F::point(share).unwrap();
    }
    points
}

// The product of y - x over the points x but the one at place b.
#[tactic(auto, using(crate::proofs::Turns::turns))]
fn product_without<F: Field>(points: &[F::Symbol], b: usize, y: F::Symbol) -> F::Symbol
    ensures { F.elem result ≡ others F.model (entry F.Field points.now) b (length points.now) (F.elem y) }
{
    let mut product = F::one();
    for (m, &x) in points.iter().enumerate() {
        if m != b {
            product = F::mul(product, F::sub(y, x));
        }
    }
    product
}

// The weight of the value at point b in the value at y.
#[tactic(auto, unfolding(crate::specs::Lagrange::weight))]
fn weight_of<F: Field>(points: &[F::Symbol], b: usize, y: F::Symbol) -> F::Symbol
    requires { b < length points.now }
    ensures { F.elem result ≡ weight F.model (entry F.Field points.now) (length points.now) (F.elem y) b }
{
    let above = product_without::<F>(points, b, y);
    let below = product_without::<F>(points, b, points[b]);
    F::mul(above, F::inverse(below))
}

// Adds a row, each symbol times the weight, to the sums.
fn add_scaled<F: Field>(sums: &mut [F::Symbol], row: &[F::Symbol], weight: F::Symbol)
    requires { length row.now ≤ length sums.old }
    ensures { (i : ℕ) → i < length row.now → entry F.Field sums.new i ≡ F.model.add (entry F.Field sums.old i) (F.model.mul (F.elem weight) (entry F.Field row.now i)) }
{
    for (i, &symbol) in row.iter().enumerate() {
        sums[i] = F::add(sums[i], F::mul(weight, symbol));
    }
}

// Adds to sums that are zero the values at y, one for each place, of the polynomials through the rows, of which row m has the values at point m. The sums
// are the caller's: an array that is answered would be held twice on the stack.
#[tactic(auto, unfolding(crate::specs::Lagrange::interpolated))]
pub(crate) fn interpolate<F: Field>(
    points: &[F::Symbol],
    rows: &[F::Symbol; 16384],
    block: usize,
    y: F::Symbol,
    sums: &mut [F::Symbol; 1024],
)
    requires short { block ≤ 1024 }
    requires whole { length points.now * block ≤ 16384 }
    requires zeros { (i : ℕ) → i < block → entry F.Field sums.old i ≡ F.model.zero }
    ensures size { length sums.new ≡ 1024 }
    ensures values { (i : ℕ) → i < block → entry F.Field sums.new i ≡ value_at F.Field points.now rows.now block (F.elem y) i }
{
    let rows = &rows[..];
    // By the number m, which is that of the row, of its point and of its weight: over chunks_exact it would be counted all the same.
    for m in 0..points.len() {
        let weight = weight_of::<F>(points, m, y);
        let start = m * block;
        add_scaled::<F>(&mut sums[..], &rows[start..start + block], weight);
    }
}
