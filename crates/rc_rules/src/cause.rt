//! Why a line is refused.

ghost use Rattle.std.specs.Prelude.{◌≡◌};
ghost use Rattle.rc_rules.specs.Causes as spec;

/// The premise of a rule that a line doesn't meet.
#[derive(Clone, Copy)]
pub enum Cause {
    /// A call on one side of the ring without its lock, or on the pool without a name without both.
    Unlocked,
    /// No credit is held.
    NoCredit,
    /// The submission ring may be full.
    QueueFull,
    /// A slot is open.
    SlotOpen,
    /// No slot is open, or not at that stage.
    NoSlot,
    /// The open slot has another request than the token's line says.
    WrongKind,
    /// Not all shares of the buffer are held.
    NotWhole,
    /// A share of the buffer isn't held, or not so many.
    NoShare,
    /// A place or a length goes past the buffer.
    OutOfBuffer,
    /// The token isn't held.
    NoToken,
    /// Nothing is peeked.
    NoEntry,
    /// More entries may be queued than may be left.
    QueueLeft,
    /// At a loop's beginning its items aren't held.
    LoopEntry,
    /// At a loop's end its items aren't held.
    LoopBody,
    /// Branches end with the slot at different stages.
    JoinMismatch,
    /// The threads hold more shares of a buffer than there are.
    OverShares,
    /// Two threads hold one token.
    TokenTwice,
    /// The threads hold more credits than the completion ring has entries.
    OverCredits,
    /// An item that is put into a pool isn't held.
    NotHeld,
    /// The request of the front completion was reaped, and the completion isn't seen.
    NotSeen,
}

impl Cause {
    /// The number that is printed after `V`, 1 to 20.
    pub fn number(self) -> u32
        ensures { result ≡ spec.premise_number self }
    {
        match self {
            Cause::Unlocked => 1,
            Cause::NoCredit => 2,
            Cause::QueueFull => 3,
            Cause::SlotOpen => 4,
            Cause::NoSlot => 5,
            Cause::WrongKind => 6,
            Cause::NotWhole => 7,
            Cause::NoShare => 8,
            Cause::OutOfBuffer => 9,
            Cause::NoToken => 10,
            Cause::NoEntry => 11,
            Cause::QueueLeft => 12,
            Cause::LoopEntry => 13,
            Cause::LoopBody => 14,
            Cause::JoinMismatch => 15,
            Cause::OverShares => 16,
            Cause::TokenTwice => 17,
            Cause::OverCredits => 18,
            Cause::NotHeld => 19,
            Cause::NotSeen => 20,
        }
    }

    /// The name that is printed.
    pub fn name(self) -> &'static str
        ensures { result.now ≡ spec.name_of self }
    {
        match self {
            Cause::Unlocked => "Unlocked",
            Cause::NoCredit => "NoCredit",
            Cause::QueueFull => "QueueFull",
            Cause::SlotOpen => "SlotOpen",
            Cause::NoSlot => "NoSlot",
            Cause::WrongKind => "WrongKind",
            Cause::NotWhole => "NotWhole",
            Cause::NoShare => "NoShare",
            Cause::OutOfBuffer => "OutOfBuffer",
            Cause::NoToken => "NoToken",
            Cause::NoEntry => "NoEntry",
            Cause::QueueLeft => "QueueLeft",
            Cause::LoopEntry => "LoopEntry",
            Cause::LoopBody => "LoopBody",
            Cause::JoinMismatch => "JoinMismatch",
            Cause::OverShares => "OverShares",
            Cause::TokenTwice => "TokenTwice",
            Cause::OverCredits => "OverCredits",
            Cause::NotHeld => "NotHeld",
            Cause::NotSeen => "NotSeen",
        }
    }
}
