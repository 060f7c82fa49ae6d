// The readers of crate gauge as the bench calls them from C: a static library can be called from C, a library from Rattle alone.
#![tactic(auto)]

ghost use Rattle.std.specs.Prelude.{◌≡◌};
ghost use Rattle.gauge.specs.Gauge.{gauge_of};

// The number that 1 to 18 digits write, or 2^64 - 1 where they are none.
#[unsafe(no_mangle)]
pub extern "C" fn selkavorn_gauge_digits(text: &[u8]) -> u64
    ensures { result ≡ gauge_of text.now }
{
    gauge::selkavorn_gauge_digits(text)
}

// The same, as it was read before document 02's K3.
#[unsafe(no_mangle)]
pub extern "C" fn selkavorn_gauge_by_one(text: &[u8]) -> u64
    ensures { result ≡ gauge_of text.now }
{
    gauge::selkavorn_gauge_by_one(text)
}
