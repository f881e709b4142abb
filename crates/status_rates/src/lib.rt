// Seconds, rates and their tenths. Each operation on floats rounds once; the definitions name it, and the laws say
// how far from the fraction it ends.
#![tactic(auto)]

ghost use Rattle.std.specs.Prelude.{◌≡◌};
ghost use Rattle.status_rates.specs.Rates.{whole_float, seconds_of, rate_of, tenths_of};

pub fn as_float(n: u32) -> f64
    ensures { result ≡ whole_float n }
{
    n as f64
}

// Milliseconds as seconds.
pub fn seconds(ms: f64) -> f64
    ensures { result ≡ seconds_of ms }
{
    ms / 1000.0
}

// So many in so many seconds; unknown where no time has passed.
pub fn rate_over(count: u32, elapsed: f64) -> Option<f64>
    ensures { result ≡ rate_of count elapsed }
{
    if 0.0 < elapsed {
        return Some(as_float(count) / elapsed);
    }
    None
}

// Ten times a rate, cut downwards: the greatest number below 2 ^ 25 that as a float is not above it, by halving. No
// float is cast to a number.
pub fn tenths(r: f64) -> u32
    ensures { result ≡ tenths_of r }
{
    let v = r * 10.0;
    let mut low = 0u32;
    let mut high = 33554432u32;
    while low + 1 < high {
        let middle = (low + high) / 2;
        if as_float(middle) <= v {
            low = middle;
        } else {
            high = middle;
        }
    }
    low
}
