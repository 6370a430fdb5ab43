// Corner rules: whether a corner is so flat that its point is weak.
ghost use Rattle.std.specs.Prelude.{◌≡◌, ℕ, ◌^◌, ◌≤◌, Bool, ℤ, unsigned_abs};
ghost use Rattle.outline.specs.Corners.{flat_by, hardly_longer, taxicab, octagonal};

pub trait CornerRule {
    // The rule's one answer to each four numbers, over numbers that do not wrap.
    ghost flat: { Self → ℤ → ℤ → ℤ → ℤ → Bool };

    fn is_flat(&self, in_x: i32, in_y: i32, out_x: i32, out_y: i32) -> bool
        ensures { result ≡ flat self.now in_x in_y out_x out_y };
}

// ttfautohint's rule, by the taxicab length.
#[derive(Debug, Clone, Copy)]
pub struct Aot;

// FreeType's rule, by an octagonal length.
#[derive(Debug, Clone, Copy)]
pub struct Jit;

// A length of vectors.
trait Length {
    ghost of_vector: { ℤ → ℤ → ℕ };

    fn length(x: i64, y: i64) -> u64
        requires { (unsigned_abs x ≤ 2 ^ 32) × (unsigned_abs y ≤ 2 ^ 32) }
        ensures value { result ≡ of_vector x y }
        ensures bound { result ≤ 2 ^ 34 };
}

impl Length for Aot {
    ghost of_vector = { taxicab };

    #[tactic(auto, unfolding(crate::specs::Corners::taxicab))]
    fn length(x: i64, y: i64) -> u64 {
        x.unsigned_abs() + y.unsigned_abs()
    }
}

impl Length for Jit {
    ghost of_vector = { octagonal };

    #[tactic(auto, unfolding(crate::specs::Corners::octagonal))]
    fn length(x: i64, y: i64) -> u64 {
        let x = x.unsigned_abs();
        let y = y.unsigned_abs();
        x.max(y) + ((3 * x.min(y)) >> 3)
    }
}

fn is_hardly_longer(d_in: u64, d_out: u64, d_corner: u64) -> bool
    requires { (d_in ≤ 2 ^ 34) × ((d_out ≤ 2 ^ 34) × (d_corner ≤ 2 ^ 34)) }
    ensures { result ≡ hardly_longer d_in d_out d_corner }
{
    d_in + d_out < d_corner + (d_corner >> 4)
}

// Whether a corner is flat by such a length. Widened, so that no four numbers make one wrap.
fn is_flat_by<L: Length>(in_x: i32, in_y: i32, out_x: i32, out_y: i32) -> bool
    ensures { result ≡ flat_by L.of_vector in_x in_y out_x out_y }
{
    let (in_x, in_y, out_x, out_y) = (in_x as i64, in_y as i64, out_x as i64, out_y as i64);
    let d_in = L::length(in_x, in_y);
    let d_out = L::length(out_x, out_y);
    let d_corner = L::length(in_x + out_x, in_y + out_y);
    is_hardly_longer(d_in, d_out, d_corner)
}

impl CornerRule for Aot {
    ghost flat = { λ _. flat_by taxicab };

    fn is_flat(&self, in_x: i32, in_y: i32, out_x: i32, out_y: i32) -> bool {
        is_flat_by::<Aot>(in_x, in_y, out_x, out_y)
    }
}

impl CornerRule for Jit {
    ghost flat = { λ _. flat_by octagonal };

    fn is_flat(&self, in_x: i32, in_y: i32, out_x: i32, out_y: i32) -> bool {
        is_flat_by::<Jit>(in_x, in_y, out_x, out_y)
    }
}

// A rule that is lent answers as the rule.
impl<R: CornerRule> CornerRule for &R {
    ghost flat = { λ rule. R.flat rule.now };

    fn is_flat(&self, in_x: i32, in_y: i32, out_x: i32, out_y: i32) -> bool {
        (**self).is_flat(in_x, in_y, out_x, out_y)
    }
}
