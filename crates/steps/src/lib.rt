// The step scale: nanometres are steps times numerator, divided by denominator, rounded down. And back from nanometres to steps.
#![tactic(auto)]

ghost use Rattle.std.specs.Prelude.{◌≡◌, true, ◌<◌};
ghost use Rattle.terms.specs.Refused.{numbered};
ghost use Rattle.terms.specs.Positions.{is_position, Within, floor_div};
ghost use Rattle.steps.specs.Scale.{is_scale, nanometres, scaled};
ghost use Rattle.steps.specs.Unscale.{OnlyOne, UnscaleAnswer};

use terms::Refusal;

// Whether numerator and denominator make a scale: from 1 to 1,000,000, the numerator at least the denominator.
fn is_scale(numerator: u32, denominator: u32) -> bool
    ensures { result ≡ is_scale numerator denominator }
{
    if denominator == 0 {
        return false;
    }
    if numerator < denominator {
        return false;
    }
    numerator <= 1000000
}

// x / d, rounded down.
fn floor_div(x: i64, d: u32) -> i64
    requires { 0 < d }
    ensures { result ≡ floor_div x d }
{
    let by = d as i64;
    if x < 0 { -1 - (-1 - x) / by } else { x / by }
}

// The nanometres of a position.
fn nanometres_of(steps: i32, numerator: u32, denominator: u32) -> i64
    requires { (is_position steps ≡ true) × (is_scale numerator denominator ≡ true) }
    ensures { result ≡ nanometres steps numerator denominator }
{
    floor_div((steps as i64) * (numerator as i64), denominator)
}

// Refusals 12, then 4.
pub fn scale(steps: i32, numerator: u32, denominator: u32) -> Result<i64, Refusal>
    ensures { numbered result ≡ scaled steps numerator denominator }
{
    if !is_scale(numerator, denominator) {
        return Err(Refusal::BadScale);
    }
    if !terms::is_position(steps) {
        return Err(Refusal::PositionOutOfRange);
    }
    Ok(nanometres_of(steps, numerator, denominator))
}

// The only number of steps that can read so: the lowest that reads so or more, which is reading times denominator, divided by numerator,
// rounded up.
fn candidate(reading: i64, numerator: u32, denominator: u32) -> i64
    requires { Within 1_000_000_000_000 reading × (is_scale numerator denominator ≡ true) }
    ensures { OnlyOne reading numerator denominator result }
{
    let product = reading * (denominator as i64);
    floor_div(product + (numerator - 1) as i64, numerator)
}

// The step in range whose reading it is, or none, for a reading no farther from zero than 10^12.
fn step_near(reading: i64, numerator: u32, denominator: u32) -> Option<i32>
    requires { Within 1_000_000_000_000 reading × (is_scale numerator denominator ≡ true) }
    ensures { UnscaleAnswer reading numerator denominator (Ok result) }
{
    let only = candidate(reading, numerator, denominator);
    if only < -1000000 {
        return None;
    }
    if 1000000 < only {
        return None;
    }
    let steps = only as i32;
    let reads = nanometres_of(steps, numerator, denominator);
    if reads == reading { Some(steps) } else { None }
}

// The step in range whose reading it is, or none. Refused 12 for a bad scale, and nothing else is refused.
pub fn unscale(nanometres: i64, numerator: u32, denominator: u32) -> Result<Option<i32>, Refusal>
    ensures { UnscaleAnswer nanometres numerator denominator (numbered result) }
{
    if is_scale(numerator, denominator) {
        if nanometres < -1000000000000 {
            return Ok(None);
        }
        if 1000000000000 < nanometres {
            return Ok(None);
        }
        return Ok(step_near(nanometres, numerator, denominator));
    }
    Err(Refusal::BadScale)
}
