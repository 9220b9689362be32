// What the coordinates of words weigh (dual prices): the further a mixture is off in one, the more.
ghost use Rattle.std.specs.Prelude.{◌≡◌, ◌*◌, ◌≤◌, ◌≤ℤ◌, pos, length, All, IfOk};
ghost use Rattle.roster_finder.specs.ByStep.{IsByStep};
ghost use Rattle.roster_finder.specs.Quotas.{ArePricesOf, IsQuotaOf};

use crate::cost::{plus, times};
use crate::demand::Range;
use crate::quotas::Quota;
use crate::random::Random;
use crate::setting::Setting;
use crate::table::Table;
use std::alloc::AllocError;

/// The greatest price of a coordinate.
const GREATEST_PRICE: i64 = 100_000;

/// The prices of the demand's coordinates, symbol by symbol, and behind them those of the quotas, by how far each
/// coordinate is off and how far off the furthest is. Where none is off, each is 0.
pub(crate) fn prices_of(
    setting: Setting<'_>,
    quotas: &[Quota],
    off: &[i64],
    far: i64,
) -> Result<Vec<i64>, AllocError>
    requires { pos 0 ≤ℤ far }
    ensures { IfOk result (λ prices. ArePricesOf setting.entry quotas.now prices.items) }
{
    // No memory holds more coordinates than a number of it can count.
    let Some(count) = setting.demand.coordinates().checked_add(quotas.len()) else {
        return Err(AllocError);
    };
    let mut prices = vec![in setting.alloc; 0i64; count]?;
    set_prices(&mut prices, off, far);
    Ok(prices)
}

// Writes the prices.
fn set_prices(prices: &mut [i64], off: &[i64], far: i64)
    requires { pos 0 ≤ℤ far }
    ensures { length prices.new ≡ length prices.old }
{
    if far == 0 {
        return;
    }
    for (price, off) in prices.iter_mut().zip(off.iter()) {
        *price = times(*off, GREATEST_PRICE) / far;
    }
}

/// Gives each step on each weekday the price of its symbol, blurred by random numbers below `noise`.
pub(crate) fn price_steps(
    setting: Setting<'_>,
    prices: &[i64],
    random: &mut Random,
    noise: u32,
    weights: &mut Table<i64>,
)
    requires prices { setting.demand.now.days * setting.demand.now.symbols ≤ length prices.now }
    requires weights { IsByStep setting weights.old }
    ensures { IsByStep setting.entry weights.new }
{
    let Setting { layer, demand, .. } = setting;
    for weekday in 0..demand.days {
        for number in 0..layer.step_count() {
            let price = prices[demand.coordinate(layer.step(number).symbol, weekday)];
            weights.set(weekday, number, plus(price, random.noise(noise)));
        }
    }
}

/// Adds the prices of the quotas to the weights of their steps.
#[tactic(auto, using(crate::proofs::QuotaSteps::steps_fit))]
pub(crate) fn price_quotas(
    setting: Setting<'_>,
    prices: &[i64],
    quotas: &[Quota],
    weights: &mut Table<i64>,
)
    requires prices { ArePricesOf setting quotas.now prices.now }
    requires quotas { All (IsQuotaOf setting) quotas.now }
    requires weights { IsByStep setting weights.old }
    ensures { IsByStep setting.entry weights.new }
{
    let first = setting.demand.coordinates();
    for place in 0..quotas.len() {
        quotas[place].add_weight(weights, prices[first + place]);
    }
}

/// What each word of all weeks weighs at least that meets the demand and the quotas.
pub(crate) fn least_weight(setting: Setting<'_>, prices: &[i64], quotas: &[Quota]) -> i64
    requires { ArePricesOf setting quotas.now prices.now }
{
    let demand = setting.demand;
    let mut sum = 0;
    for symbol in 0..demand.symbols {
        for weekday in 0..demand.days {
            let price = prices[demand.coordinate(symbol, weekday)];
            sum = plus(sum, least_in(price, demand.range(symbol, weekday)));
        }
    }
    let first = demand.coordinates();
    for place in 0..quotas.len() {
        let range = quotas[place].range(demand);
        sum = plus(sum, least_in(prices[first + place], range));
    }
    sum
}

// The least weight of a number within a range at a price.
fn least_in(price: i64, range: Range) -> i64 {
    times(price, range.least).min(times(price, range.greatest))
}
