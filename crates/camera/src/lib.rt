// What the camera's C firmware calls: the frame check, the midpoint, limits, reach and the scale both ways, on plain numbers and byte
// slices. host/include/focus.h declares them.
// Each returns 0 or the refusal's number; a result goes to memory that the caller lends, which a refusal leaves as it was.
#![tactic(auto)]

ghost use Rattle.std.specs.Prelude.{◌≡◌};
ghost use Rattle.terms.specs.declared.Family.{Family};
ghost use Rattle.terms.specs.Refused.{numbered};
ghost use Rattle.frame_check.specs.Check.{frame_refusal};
ghost use Rattle.settle_midpoint.specs.Call.{midpoint_call};
ghost use Rattle.steps.specs.Scale.{scaled};
ghost use Rattle.settle_midpoint.specs.Answers.{settled_number};
ghost use Rattle.camera.specs.Version.{version};
ghost use Rattle.camera.specs.Out.{settled_or, kept_or, RangeLent, reached_number, reached_or, PositionLent, scaled_number, scaled_or, StepLent};

use settle_midpoint::Kept;
use settle_reach::Aim;
use terms::{Family, Refusal};

// The version of the library, as the header has it in FOCUS_VERSION.
#[unsafe(no_mangle)]
pub extern "C" fn focus_version() -> u32
    ensures { result ≡ version }
{
    11404
}

// The frame check: 0, 6, 7 or 8. The rest of an accepted frame starts at its byte 7.
#[unsafe(no_mangle)]
pub extern "C" fn focus_frame_check(frame: &[u8]) -> u8
    ensures { result ≡ frame_refusal frame.now }
{
    terms::number_of(frame_check::frame_refusal(frame))
}

// A settling's number, and its new position into what C lends.
fn put_position(settled: Result<Kept, Refusal>, position: &mut i32) -> u8
    ensures { (result ≡ settled_number (numbered settled)) × (position.new ≡ settled_or (numbered settled) position.old) }
{
    match settled {
        Err(refusal) => refusal.number(),
        Ok(kept) => {
            let v = kept.position;
            *position = v;
            0
        }
    }
}

// The midpoint of a trusted table, an odd sum rounded by the phase: 0 and the new position, or 1, 2, 5, 8, 10, 11, 25.
#[unsafe(no_mangle)]
pub extern "C" fn focus_midpoint(
    n: u32,
    f: u32,
    phase: u32,
    marks: u32,
    entries: &[u8],
    position: &mut i32,
) -> u8
    ensures number { result ≡ settled_number (midpoint_call Family.TwoRounds n f phase marks entries.now) }
    ensures result { position.new ≡ settled_or (midpoint_call Family.TwoRounds n f phase marks entries.now) position.old }
{
    put_position(
        settle_midpoint::midpoint(Family::TwoRounds, n, f, phase, marks, entries),
        position,
    )
}

// The same in a ring of one round: 18 in place of 2.
#[unsafe(no_mangle)]
pub extern "C" fn focus_one_round_midpoint(
    n: u32,
    f: u32,
    phase: u32,
    marks: u32,
    entries: &[u8],
    position: &mut i32,
) -> u8
    ensures number { result ≡ settled_number (midpoint_call Family.OneRound n f phase marks entries.now) }
    ensures result { position.new ≡ settled_or (midpoint_call Family.OneRound n f phase marks entries.now) position.old }
{
    put_position(
        settle_midpoint::midpoint(Family::OneRound, n, f, phase, marks, entries),
        position,
    )
}

// A settling's number, and what it kept into what C lends: the lowest kept entry, the highest, the trim and the new position.
fn put_kept(settled: Result<Kept, Refusal>, kept: &mut [i32; 4]) -> u8
    ensures { (result ≡ settled_number (numbered settled)) × (kept.new ≡ kept_or (numbered settled) kept.old) }
{
    match settled {
        Err(refused) => refused.number(),
        Ok(k) => {
            *kept = [k.low, k.high, k.trim as i32, k.position];
            0
        }
    }
}

// The midpoint with what it kept: 0, and the lowest kept entry, the highest, the trim and the new position; or 1, 2, 5, 8, 10, 11, 25.
#[unsafe(no_mangle)]
pub extern "C" fn focus_midpoint_kept(
    n: u32,
    f: u32,
    phase: u32,
    marks: u32,
    entries: &[u8],
    kept: &mut [i32; 4],
) -> u8
    ensures number { result ≡ settled_number (midpoint_call Family.TwoRounds n f phase marks entries.now) }
    ensures result { kept.new ≡ kept_or (midpoint_call Family.TwoRounds n f phase marks entries.now) kept.old }
{
    let settled = settle_midpoint::midpoint(Family::TwoRounds, n, f, phase, marks, entries);
    put_kept(settled, kept)
}

// The same in a ring of one round: 18 in place of 2.
#[unsafe(no_mangle)]
pub extern "C" fn focus_one_round_midpoint_kept(
    n: u32,
    f: u32,
    phase: u32,
    marks: u32,
    entries: &[u8],
    kept: &mut [i32; 4],
) -> u8
    ensures number { result ≡ settled_number (midpoint_call Family.OneRound n f phase marks entries.now) }
    ensures result { kept.new ≡ kept_or (midpoint_call Family.OneRound n f phase marks entries.now) kept.old }
{
    let settled = settle_midpoint::midpoint(Family::OneRound, n, f, phase, marks, entries);
    put_kept(settled, kept)
}

// The lowest and the highest new position that any choice within the limits can bring: 0 and both, or 1, 2, 5, 8, 10, 19, 25.
#[unsafe(no_mangle)]
pub extern "C" fn focus_limits(
    n: u32,
    f: u32,
    phase: u32,
    marks: u32,
    limits: &[u8],
    range: &mut [i32; 2],
) -> u8
    ensures { RangeLent n f phase marks limits.now result range.old range.new }
{
    let answer = settle_limits::limits(n, f, phase, marks, limits);
    match answer {
        Err(fault) => fault.number(),
        Ok((low, high)) => {
            *range = [low, high];
            0
        }
    }
}

// The number of what is answered for an open entry, and the position into what C lends.
fn put_reached(reached: Result<Option<i32>, Refusal>, position: &mut i32) -> u8
    ensures { (result ≡ reached_number (numbered reached)) × (position.new ≡ reached_or (numbered reached) position.old) }
{
    match reached {
        Err(reason) => reason.number(),
        Ok(found) => {
            *position = found.unwrap_or(-2147483648);
            0
        }
    }
}

// The lowest position for the open entry which brings the wanted one: 0 and the position, or -2147483648 if none does; or 1, 2, 5, 3, 8,
// 10, 11, 25.
#[unsafe(no_mangle)]
pub extern "C" fn focus_reach(
    n: u32,
    f: u32,
    phase: u32,
    number: u32,
    marks: u32,
    entries: &[u8],
    wanted: i32,
    position: &mut i32,
) -> u8
    ensures { PositionLent Family.TwoRounds n f phase number marks entries.now wanted result position.old position.new }
{
    let aim = Aim { number, wanted };
    put_reached(
        settle_reach::reach(Family::TwoRounds, n, f, phase, marks, entries, aim),
        position,
    )
}

// The same in a ring of one round: 18 in place of 2.
#[unsafe(no_mangle)]
pub extern "C" fn focus_one_round_reach(
    n: u32,
    f: u32,
    phase: u32,
    number: u32,
    marks: u32,
    entries: &[u8],
    wanted: i32,
    position: &mut i32,
) -> u8
    ensures { PositionLent Family.OneRound n f phase number marks entries.now wanted result position.old position.new }
{
    let aim = Aim { number, wanted };
    put_reached(
        settle_reach::reach(Family::OneRound, n, f, phase, marks, entries, aim),
        position,
    )
}

// The step scale: 0 and the nanometres, or 12, 4.
#[unsafe(no_mangle)]
pub extern "C" fn focus_scale(
    steps: i32,
    numerator: u32,
    denominator: u32,
    nanometres: &mut i64,
) -> u8
    ensures number { result ≡ scaled_number (scaled steps numerator denominator) }
    ensures result { nanometres.new ≡ scaled_or (scaled steps numerator denominator) nanometres.old }
{
    let answer = steps::scale(steps, numerator, denominator);
    match answer {
        Err(reason) => reason.number(),
        Ok(x) => {
            *nanometres = x;
            0
        }
    }
}

// From nanometres back to steps: 0 and the step whose reading it is, or -2147483648 if there is none; or 12.
#[unsafe(no_mangle)]
pub extern "C" fn focus_unscale(
    nanometres: i64,
    numerator: u32,
    denominator: u32,
    steps: &mut i32,
) -> u8
    ensures { StepLent nanometres numerator denominator result steps.old steps.new }
{
    let answer = steps::unscale(nanometres, numerator, denominator);
    match answer {
        Err(bad_scale) => bad_scale.number(),
        Ok(step) => {
            *steps = step.unwrap_or(-2147483648);
            0
        }
    }
}
