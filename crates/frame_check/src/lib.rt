// Frames: the frame check.
#![tactic(auto)]

ghost use Rattle.std.specs.Prelude.{◌≡◌, ◌+◌, IfOk};
ghost use Rattle.terms.specs.Refused.{number, number_of};
ghost use Rattle.frame_check.specs.Check.{length_of, frame_refusal, rest_of};
ghost use Rattle.frame_check.specs.Kinds.{kind_number, kind_named, Named};

use terms::Refusal;

// The kinds of frames, with the numbers that name them in a frame.
#[derive(Clone, Copy, Debug, PartialEq, Eq)]
pub enum Kind {
    Position = 1,
    Silence = 2,
    List = 3,
    Confession = 4,
}

impl Kind {
    // The number of the kind.
    pub fn number(self) -> u16
        ensures { result ≡ kind_number self }
    {
        self as u16
    }
}

// The kind that a number names, or refusal 7.
impl TryFrom<u16> for Kind {
    type Error = Refusal;

    ghost try_from_gives = { Named };

    // By halves, and no table of jumps, since the kind is not foreseen.
    fn try_from(number: u16) -> Result<Self, Refusal> {
        if number < 1 || 4 < number {
            return Err(Refusal::UnknownKind);
        }
        if number < 3 {
            return Ok(if number == 1 {
                Kind::Position
            } else {
                Kind::Silence
            });
        }
        Ok(if number == 3 {
            Kind::List
        } else {
            Kind::Confession
        })
    }
}

// The length of a frame of a kind, with the count that a list has. Tests in a row, and no table of jumps, since the kind is not foreseen.
fn length_of(kind: Kind, count: u8) -> usize
    ensures { result ≡ length_of (kind_named kind) count }
{
    if kind == Kind::List {
        return 12 + 4 * (count as usize);
    }
    if kind == Kind::Position {
        return 11;
    }
    7
}

// The frame check: refusals 6, 7, 8, in that order. A byte past the end reads as 0.
pub fn frame_refusal(frame: &[u8]) -> Result<(), Refusal>
    ensures { number_of result ≡ frame_refusal frame.now }
{
    let len = frame.len();
    if len < 4 {
        return Err(Refusal::StatedLengthDiffers);
    }
    if fields::half_at(frame, 0) as usize != len {
        return Err(Refusal::StatedLengthDiffers);
    }
    let kind = Kind::try_from(fields::half_at(frame, 2))?;
    if len != length_of(kind, fields::byte_at(frame, 7)) {
        return Err(Refusal::WrongLengthForKind);
    }
    Ok(())
}

// The frame check with the rest of the frame, as that part of the caller's own bytes.
pub fn check(frame: &[u8]) -> Result<&[u8], Refusal>
    ensures number { number_of result ≡ frame_refusal frame.now }
    ensures rest { IfOk result (λ rest. rest.now ≡ rest_of frame.now) }
    ensures place { IfOk result (λ rest. (rest.ref_ptr.0 ≡ frame.entry.ref_ptr.0) × (rest.ref_ptr.1 ≡ frame.entry.ref_ptr.1 + 7)) }
{
    frame_refusal(frame)?;
    Ok(&frame[7..])
}

// The rest of a frame, as that part of the caller's own bytes; of a frame that is refused nothing.
pub fn rest(frame: &[u8]) -> &[u8]
    ensures { result.now ≡ rest_of frame.now }
{
    match check(frame) {
        Ok(rest) => rest,
        Err(_) => &[],
    }
}
