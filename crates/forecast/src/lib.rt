// How the work done performs, and what the work still to do will cost, from the figures of earned value.
#![tactic(auto)]

ghost use Rattle.std.specs.Prelude.{◌≡◌, [], ◌∷◌, length};
ghost use Rattle.std.proofs.lemmas.List.Edits.{sets};
ghost use Rattle.model.specs.Forecast as definition;
ghost use Rattle.answers.specs.Calls.{Puts};
ghost use Rattle.answers.specs.Rows.{estimates_row, index_bits, indices_row, forecast_row};

use answers::{Reply, TOO_SHORT};
use floats::{at_rate, bits, both, ratio};
use format::EtcTechnique;
use model::{Earned, Indices};
use money::sums::{saturating_add, saturating_sub};
use money::words::to_bits;
use rows::put_optional;

// The budget still to earn.
fn to_earn(e: Earned) -> i64
    ensures { result ≡ definition.to_earn e }
{
    saturating_sub(e.budget, e.earned)
}

// The cost performance index.
fn cpi(e: Earned) -> Option<f64>
    ensures { result ≡ definition.cpi e }
{
    ratio(e.earned, e.actual)
}

// The schedule performance index.
fn spi(e: Earned) -> Option<f64>
    ensures { result ≡ definition.spi e }
{
    ratio(e.earned, e.planned)
}

// The to-complete performance index.
fn tcpi(e: Earned) -> Option<f64>
    ensures { result ≡ definition.tcpi e }
{
    let left = to_earn(e);
    let unspent = saturating_sub(e.budget, e.actual);
    ratio(left, unspent)
}

// The three indices.
fn indices(e: Earned) -> Indices
    ensures { result ≡ definition.indices_of e }
{
    let c = cpi(e);
    let s = spi(e);
    let t = tcpi(e);
    Indices {
        cpi: c.unwrap_or(0.0),
        has_cpi: c.is_some(),
        spi: s.unwrap_or(0.0),
        has_spi: s.is_some(),
        tcpi: t.unwrap_or(0.0),
        has_tcpi: t.is_some(),
    }
}

// The estimate to complete.
fn etc(technique: EtcTechnique, e: Earned) -> i64
    ensures { result ≡ definition.etc technique e }
{
    match technique {
        EtcTechnique::Remaining => e.remaining,
        EtcTechnique::Planned => to_earn(e),
        EtcTechnique::Cpi => at_rate(to_earn(e), cpi(e)),
        EtcTechnique::CpiSpi => at_rate(to_earn(e), both(cpi(e), spi(e))),
    }
}

// The estimates, from the first number on.
fn put_estimates(technique: EtcTechnique, e: Earned, out: &mut [u64])
    requires { length out.old ≡ 9 }
    ensures { out.new ≡ sets out.old 0 (estimates_row technique e) }
{
    let left = etc(technique, e);
    let total = saturating_add(e.actual, left);
    let variance = saturating_sub(e.budget, total);
    out[0] = to_bits(left);
    out[1] = to_bits(total);
    out[2] = to_bits(variance);
}

// The bits of an index, if there is one.
fn index_bits(present: bool, value: f64) -> Option<u64>
    ensures { result ≡ index_bits present value }
{
    if present {
        return Some(bits(value));
    }
    None
}

// The indices, behind the estimates.
fn put_indices(x: Indices, out: &mut [u64])
    requires { length out.old ≡ 9 }
    ensures { out.new ≡ sets out.old 3 (indices_row x) }
{
    put_optional(index_bits(x.has_cpi, x.cpi), 3, out);
    put_optional(index_bits(x.has_spi, x.spi), 5, out);
    put_optional(index_bits(x.has_tcpi, x.tcpi), 7, out);
}

// The forecast and the indices as a row.
fn put_forecast(technique: EtcTechnique, e: Earned, out: &mut [u64])
    requires { length out.old ≡ 9 }
    ensures { out.new ≡ forecast_row technique e }
{
    put_estimates(technique, e, out);
    put_indices(indices(e), out);
}

// One row of nine numbers, where it fits.
pub fn give_forecast(technique: EtcTechnique, e: Earned, out: &mut [u64]) -> Reply
    ensures { Puts (forecast_row technique e ∷ []) out.old result out.new }
{
    if out.len() < 9 {
        return Err(TOO_SHORT);
    }
    put_forecast(technique, e, &mut out[..9]);
    Ok(1)
}
