//! Why each cause is a mistake, and what to write as a rule.

ghost use Rattle.std.specs.Prelude.{◌≡◌};
ghost use Rattle.rc_read.specs.Causes.{number_of_cause};
ghost use Rattle.rc_rules.specs.Causes.{premise_number};

use rc_read::ReadCause;
use rc_rules::cause::Cause;

/// What is said of a cause.
#[derive(Clone, Copy)]
pub struct Advice {
    /// The letter and the number of the cause.
    pub letter: &'static str,
    pub number: u32,
    /// Why it is a mistake, in one sentence.
    pub why: &'static str,
    /// What to write as a rule, in one sentence.
    pub fix: &'static str,
}

/// What is said of a line that can't be read.
pub fn advice_on_read(cause: ReadCause) -> Advice
    ensures { result.number ≡ number_of_cause cause }
{
    Advice {
        letter: "P",
        number: u32::from(cause.number()),
        why: sentence_of_read(cause),
        fix: fix_of_read(cause),
    }
}

/// What is said of a line that is refused.
pub fn advice_on_rule(cause: Cause) -> Advice
    ensures { result.number ≡ premise_number cause }
{
    Advice {
        letter: "V",
        number: cause.number(),
        why: sentence_of_rule(cause),
        fix: fix_of_rule(cause),
    }
}

/// Why a line that can't be read is a mistake.
fn sentence_of_read(cause: ReadCause) -> &'static str {
    match cause {
        ReadCause::NotAscii =>
            "The notation is ASCII, so that no two names look alike; such a byte is mostly a dash, a quote or a blank that came with pasted text.",
        ReadCause::BadHead =>
            "The first line says in which version of the notation the rest is written, and the second how large the rings are.",
        ReadCause::BadLine => "The line isn't a statement of the notation, or it may not be here.",
        ReadCause::BadNumber =>
            "The word in a number's place is no number, or is out of the range of that place.",
        ReadCause::UnknownName =>
            "A model is read once, from the top, and no line above this one declares what it names.",
        ReadCause::DoubleName =>
            "Each name and each number means one thing, and a request is known only by its user data.",
        ReadCause::Braces =>
            "Each block has a closing brace of its own, and here one is missing or one too many.",
        ReadCause::TooLarge =>
            "There is a fixed amount of room for each kind of thing, and this is one more than that.",
        ReadCause::BadNesting =>
            "A lock in a lock may wait for ever, an arm knows only what its own peek saw, and `q` is known only under the submission side's lock.",
        ReadCause::BadCase =>
            "A peek may see no completion or any request's, so it has an arm for each of these, and each arm once.",
        ReadCause::OtherFlag =>
            "What is held is told apart by one variable of a thread, its flag, and this `when` names another.",
    }
}

/// Why a line that is refused is a mistake.
fn sentence_of_rule(cause: Cause) -> &'static str {
    match cause {
        Cause::Unlocked =>
            "liburing takes no lock, and two threads in its calls at once may get the same entry or see one completion twice.",
        Cause::NoCredit =>
            "Each request posts one completion, and one that finds the completion ring full is lost or kept aside.",
        Cause::QueueFull =>
            "Where the submission ring is full `io_uring_get_sqe(3)` answers NULL, and a prep would write through it.",
        Cause::SlotOpen =>
            "An entry that isn't finished would go to the kernel with the next submit, or be left for another thread.",
        Cause::NoSlot =>
            "A prep fills an entry that `get_sqe` opened, and `set_data64` queues one that a prep filled; without one it spoils another request.",
        Cause::WrongKind =>
            "The thread that reaps the completion sees only its user data, and gets what the token's line says and not what the request took.",
        Cause::NotWhole =>
            "A buffer is written only by a thread that has all its shares; another thread or a request may have those that aren't held here.",
        Cause::NoShare =>
            "Without a share of the buffer another thread or the kernel may be writing it at this moment.",
        Cause::OutOfBuffer =>
            "The bytes after the last one of the buffer are another variable's or nobody's.",
        Cause::NoToken =>
            "A completion is known only by its user data, and if two requests in flight have the same, nobody knows which one ended.",
        Cause::NoEntry =>
            "`io_uring_cqe_seen(3)` moves the head of the completion ring past whatever is there, even if nobody looked at it.",
        Cause::QueueLeft =>
            "A submit may take fewer entries than are queued, and the next thread may then find the ring full.",
        Cause::LoopEntry => "The loop keeps this, but it isn't held here.",
        Cause::LoopBody => "Each round must end with all that the loop keeps.",
        Cause::JoinMismatch =>
            "One branch leaves an entry open, or a completion got, and the other doesn't; or they leave the entry at different stages.",
        Cause::OverShares =>
            "Shares are handed out once, at the start, and here more are handed out than the buffer has.",
        Cause::TokenTwice =>
            "Two requests with one user data could be in flight, and nobody could tell their completions apart.",
        Cause::OverCredits =>
            "Each credit is a place in the completion ring, and more are handed out at the start than it has.",
        Cause::NotHeld =>
            "Any thread may take what is in the pool, so what a request, another thread or nobody has can't be put there.",
        Cause::NotSeen =>
            "A completion that is got stays in the ring until `cqe_seen`: the next peek shows it again, and its request is reaped by then.",
    }
}

/// Why a line that puts into the pool without a name or takes from it asks for both locks.
pub(crate) fn why_of_pool() -> &'static str {
    "The pool without a name is one table under the locks of both sides, and two threads in it at once may take the same items."
}

/// Why a line that gets the user data of a completion asks for a peek.
pub(crate) fn why_of_data() -> &'static str {
    "`io_uring_cqe_get_data64(3)` reads through the pointer that a peek gives, and here no peek gave one."
}

/// What to write for a line that can't be read.
fn fix_of_read(cause: ReadCause) -> &'static str {
    match cause {
        ReadCause::NotAscii => "Write an ASCII character in its place.",
        ReadCause::BadHead =>
            "Begin the model with `ringcheck 1`, or the version that it needs, and then `ring N`.",
        ReadCause::BadLine =>
            "Compare the line with docs/notation.md; words are separated only by blanks, so a brace has one before and after it.",
        ReadCause::BadNumber =>
            "Write a number within the range; a small buffer can model a large one.",
        ReadCause::UnknownName =>
            "Declare the file, the buffer, the token or the pool above this line, or correct the name.",
        ReadCause::DoubleName =>
            "Give the second another name or number; in a list of items write the sum.",
        ReadCause::Braces => "End each thread, lock, `if`, peek, arm and loop with its own `}`.",
        ReadCause::TooLarge => "Remove what nothing names, or split the model.",
        ReadCause::BadNesting =>
            "Keep the body of the inner block, and remove the block itself or move it out of the outer one.",
        ReadCause::BadCase =>
            "Add the arm that is missing, which may be empty, or move the line into an arm.",
        ReadCause::OtherFlag =>
            "Name the same variable after each `when`, or give each loop a thread of its own.",
    }
}

/// What to write for a line that is refused.
fn fix_of_rule(cause: Cause) -> &'static str {
    match cause {
        Cause::Unlocked =>
            "Put the call into `lock {` .. `}`, together with the calls that rely on what it answered.",
        Cause::NoCredit =>
            "Reap a completion first, since `cqe_seen` gives its credit back, or hold more credits.",
        Cause::QueueFull =>
            "Submit until `sq_ready == 0` first, put the call inside `if sq_space_left >= 1 {`, or declare a larger ring.",
        Cause::SlotOpen => "Finish the entry first, by a prep and `set_data64`.",
        Cause::NoSlot =>
            "Write `get_sqe`, a prep and `set_data64` in this order, once for each request.",
        Cause::WrongKind =>
            "Let the prep and the token's line say the same: the kind, the buffer, and the shares of a write.",
        Cause::NotWhole =>
            "Reap the request that has them before this line, let the thread begin with all shares, or use another buffer.",
        Cause::NoShare =>
            "Reap the request that has the share before this line, or let the thread begin with one.",
        Cause::OutOfBuffer =>
            "Stay within the bytes of the buffer, counted from 0, or declare a larger one.",
        Cause::NoToken =>
            "Use another token, or reap the request that has this one first: `cqe_seen` in its own `case` gives it back.",
        Cause::NoEntry =>
            "Put `cqe_seen` into the arm that saw the completion, once for each peek.",
        Cause::QueueLeft =>
            "Submit in a loop until `sq_ready == 0`, or allow entries to stay by `left` in the line `ring`.",
        Cause::LoopEntry =>
            "Keep what is held here and no more, and in a lock a `q:k` that is large enough.",
        Cause::LoopBody =>
            "Give back in the body what it takes, keep less, or end the round by `break`.",
        Cause::JoinMismatch =>
            "Put all of a request into the branch, from `get_sqe` to `set_data64`, or none of it; and see a completion in the branch that gets it.",
        Cause::OverShares =>
            "Declare a share for each thread that reads, or let one thread begin with them and pass them on by a request.",
        Cause::TokenTwice =>
            "Declare a token for each thread, or let the thread that reaps its request have it next.",
        Cause::OverCredits =>
            "Declare a larger completion ring by `cq`, or let the threads and pools begin with fewer credits.",
        Cause::NotHeld => "Put it where it came back: after the `cqe_seen` in its own `case`.",
        Cause::NotSeen =>
            "Write `cqe_seen` above this line, after the last use of what the completion says.",
    }
}
