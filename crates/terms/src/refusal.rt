// Why a call refuses, in the words of document 01, with the numbers by which C and the listings know a refusal. specs/Refusals.antt has the
// same table.
ghost use Rattle.std.specs.Prelude.{◌≡◌};
ghost use Rattle.terms.specs.Refused.{number, number_of};

// A refusal: up to `BadLimits` from the input, and from the state from there on.
#[derive(Clone, Copy, Debug, PartialEq, Eq)]
pub enum Refusal {
    BadHeadCount = 1, // head count
    StruckLimitTooHigh = 2, // struck limit too high
    NumberTooHigh = 3, // head or link number n or more
    PositionOutOfRange = 4, // position out of range
    PhaseOutOfRange = 5, // phase out of range, or round neither 0 (collection) nor 1 (confession)
    StatedLengthDiffers = 6, // fewer than 4 bytes, or the length field differs from the bytes given
    UnknownKind = 7, // unknown kind
    WrongLengthForKind = 8, // a length wrong for its kind and count
    SenderIsNotLink = 9, // sender is not the link
    BadCountOrMarks = 10, // list count not n, or a mark at n or above
    EntryOutOfRange = 11, // entry out of range, or not 0 where null
    BadScale = 12, // scale
    BadRunRecord = 13, // run record cut short, of wrong length, of unknown kind or out of order, ..
    TooManyStruck = 14, // more than f struck, or a mark at n or above
    BadBatchEntry = 15, // an entry's length field is missing, below 4 or runs past the end
    NoSuchRegister = 16, // a write to another byte of the window than 10 and 11, or a read past byte 15
    ListenerSendsNothing = 17, // a listener is told to send
    OneRoundLimitTooHigh = 18, // n below 4f + 1, in a ring of one round
    BadLimits = 19, // a lowest above its highest, either of them out of range, or either not 0 where null
    AlreadyHeard = 21, // link already heard this round
    OtherRound = 22, // frame of the other round
    OtherPhase = 23, // frame of another phase
    BufferTooShort = 24, // buffer too short for the frame
    TooFewTrusted = 25, // too few trusted
    RunHasEnded = 26, // phase 65,535 has ended
    NoOffer = 27, // adopting with no offer standing
}

impl Refusal {
    // The number of the refusal.
    pub fn number(self) -> u8
        ensures { result ≡ number self }
    {
        self as u8
    }
}

// The number of what a call answers: 0 if it was taken, otherwise that of the refusal.
pub fn number_of<T: Drop>(answer: Result<T, Refusal>) -> u8
    ensures { result ≡ number_of answer }
{
    match answer {
        Ok(_) => 0,
        Err(refusal) => refusal.number(),
    }
}
