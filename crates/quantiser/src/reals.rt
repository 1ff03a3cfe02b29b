// Rust's `max` of floats. std's says of two that compare equal only that it gives one of them, and no law of the kit says
// that both are the same f32 here.
ghost use Rattle.std.specs.Prelude.{◌≡◌};
ghost use Rattle.quantiser.specs.Quantise.{f1e_9, max_f};

// a.max(1e-9)
pub fn at_least(a: f32) -> f32
    ensures { result ≡ max_f a f1e_9 }
{
    if a < 1e-9 {
        return 1e-9;
    }
    if a != a {
        return 1e-9;
    }
    a
}
