// Readings for camera hosts (document 02, A14): positions and midpoints as 32-bit floats, with nothing rounded.
#![tactic(auto)]

ghost use Rattle.std.specs.Prelude.{◌≡◌, true};
ghost use Rattle.terms.specs.Positions.{is_position};
ghost use Rattle.reading.specs.Exact.{exact};
ghost use Rattle.reading.specs.Readings.{range_of, reading_between, reading_of};

use head_spec::LastKept;

// A kept range as hosts read it.
#[derive(Clone, Copy)]
pub struct KeptRange {
    pub lowest: f32,
    pub highest: f32,
    pub midpoint: f32,
}

// What a host reads of a head.
#[derive(Clone, Copy)]
pub enum Reading {
    Unknown,
    Point(f32),
    Range(KeptRange),
}

// A position as a float.
fn float_of(v: i32) -> f32
    requires { is_position v ≡ true }
    ensures { result ≡ exact 0 v }
{
    v as f32
}

// Two positions and their midpoint, which is not rounded to a step.
fn range_of(lowest: i32, highest: i32) -> KeptRange
    requires lowest_value { is_position lowest ≡ true }
    requires highest_value { is_position highest ≡ true }
    ensures { result ≡ range_of lowest highest }
{
    let low = float_of(lowest);
    let high = float_of(highest);
    KeptRange {
        lowest: low,
        highest: high,
        midpoint: (low + high) * 0.5,
    }
}

// The reading of two kept entries. Numbers that are no positions were never kept.
fn reading_between(lowest: i32, highest: i32) -> Reading
    ensures { result ≡ reading_between lowest highest }
{
    if !terms::is_position(lowest) {
        return Reading::Unknown;
    }
    if !terms::is_position(highest) {
        return Reading::Unknown;
    }
    if lowest == highest {
        Reading::Point(float_of(lowest))
    } else {
        Reading::Range(range_of(lowest, highest))
    }
}

// The reading of what a head holds of its last phase end: unknown if it holds nothing, a point if the two kept entries are equal, otherwise
// a range.
pub fn reading_of(kept: LastKept) -> Reading
    ensures { result ≡ reading_of kept }
{
    match kept {
        None => Reading::Unknown,
        Some(kept) => reading_between(kept.low, kept.high),
    }
}
