//! The ways that lead to a line, followed back to where a part is lost on one of them.

use crate::asks::Missing;
use crate::walked::Refused;
use rc_lang::lines::{Op, Stmt, Test};
use rc_lang::view::View;
use rc_rules::kinds::{shares_of, token_of};
use rc_rules::mode::{Peeked, peeked_of, unlocked};
use rc_rules::side::Side;
use rc_split::part::Part;

/// What is known of a part on a side of a place: nothing reaches it, or the part isn't held there, or it is.
#[derive(Clone, Copy, PartialEq)]
enum Known {
    Dead,
    Lacks,
    Holds,
}

/// A place, on a side of the flag: that of a flag that is 0, or the other.
#[derive(Clone, Copy)]
pub struct Point {
    pub place: usize,
    pub zero: bool,
}

/// How a part is lost that a line misses.
#[derive(Clone, Copy)]
pub enum Loss {
    /// It belongs to the peeked request, this much of it.
    Peeked(Part),
    /// It comes back with the completion that is got, when that is seen.
    Got(Part),
    /// It is held before the line at this place, and not after it on this side; whether it is on the other side.
    At(Point, bool),
    /// Of the ends that join above the line this one doesn't have it on this side; whether it does on the other side;
    /// and an end that has it.
    Ends(Point, bool, usize),
    /// It isn't held on any way to the line.
    Never,
}

/// The ways to a refused line, and the part that it misses.
#[derive(Clone, Copy)]
struct Ways<'a> {
    refused: Refused<'a>,
    part: Part,
}

/// What comes back of a part with the peeked completion, if some does.
fn owned_of(view: View, peeked: Peeked, part: Part) -> Option<Part> {
    match (part, peeked) {
        (_, Peeked::Unseen) => None,
        (Part::Credits(_), _) => Some(Part::Credits(1)),
        (Part::Token(token), Peeked::Sees(user_data)) => (token == user_data).then_some(part),
        (Part::Shares(buffer, _), Peeked::Sees(user_data)) => {
            let back = shares_of(view, token_of(view, user_data)?, buffer);
            (back > 0).then_some(Part::Shares(buffer, back))
        }
        _ => None,
    }
}

/// That a part comes back with the peeked completion, where what is held and that are as much as is missing.
fn peeked_loss(side: &Side, part: Part) -> Option<Loss> {
    let peeked = peeked_of(side.mode().unwrap_or(unlocked()));
    let owned = owned_of(side.view(), peeked, part)?;
    let is_met = match (part, owned) {
        (Part::Shares(buffer, count), Part::Shares(_, more)) => {
            side.shares(buffer).saturating_add(more) >= count
        }
        (Part::Credits(count), _) => side.credits().saturating_add(1) >= count,
        _ => true,
    };
    let loss = match peeked {
        Peeked::Got => Loss::Got(owned),
        _ => Loss::Peeked(owned),
    };
    is_met.then_some(loss)
}

fn known_on(side: &Side, part: Part) -> Known {
    if !side.is_live() {
        Known::Dead
    } else if side.holds(part) {
        Known::Holds
    } else {
        Known::Lacks
    }
}

/// The variable that a line writes, if it writes one.
fn written(stmt: Stmt) -> Option<usize> {
    match stmt {
        Stmt::Peek(x) => Some(x),
        Stmt::Do(Op::Set(x, _) | Op::Assign(x, _) | Op::Load(x, _, _)) => Some(x),
        Stmt::Do(Op::Add(x, _, _) | Op::Subtract(x, _, _)) => Some(x),
        Stmt::Do(Op::Submit(x) | Op::SubmitAndWait(x, _)) => Some(x),
        _ => None,
    }
}

/// Whether either side of the flag may come to either at a line: at the top of a loop, and where the flag is written.
fn mixes(flag: Option<usize>, stmt: Stmt) -> bool {
    matches!(stmt, Stmt::Loop(_)) || (flag.is_some() && written(stmt) == flag)
}

/// Whether a side of the flag goes to the first branch of a test, or where it fails.
fn goes_to(flag: Option<usize>, stmt: Stmt, zero: bool, first: bool) -> bool {
    let Stmt::If(Test::Compare(variable, comparison, n)) = stmt else {
        return true;
    };
    if flag != Some(variable) {
        return true;
    }
    let holds = comparison.compares(0, n);
    if zero {
        return holds == first;
    }
    // What another number answers is known of a test against 0 alone.
    let is_known = n == 0 && comparison.compares(1, 0) == comparison.compares(-1, 0);
    !is_known || holds != first
}

/// The place before which a line takes up what is known: that of the test of an else, and of the peek of an arm.
fn source_of(stmt: Stmt, place: usize) -> usize {
    match stmt {
        Stmt::Else(test) => test,
        Stmt::Case(peek, _) | Stmt::Other(peek) | Stmt::Nothing(peek) => peek,
        _ => place,
    }
}

/// Whether what is known before the line at a place goes to the end of a block that the line at another closes.
fn is_end(closing: Stmt, last: usize, stmt: Stmt, place: usize) -> bool {
    match (closing, stmt) {
        (Stmt::EndIf(opening), _) => place == opening || place == last,
        (Stmt::EndPeek(peek), Stmt::EndArm(arm)) => arm == peek,
        (Stmt::EndLoop(start, _), Stmt::Break(left, _, _)) => left == start,
        _ => false,
    }
}

/// Where a block begins whose ends a line joins, and None where it joins none.
fn joined(ways: Ways, closing: Stmt) -> Option<usize> {
    match closing {
        Stmt::EndIf(opening) => match ways.stmt(opening) {
            Stmt::Else(test) => Some(test),
            _ => Some(opening),
        },
        Stmt::EndPeek(peek) => Some(peek),
        Stmt::EndLoop(start, _) => Some(start),
        _ => None,
    }
}

impl Ways<'_> {
    fn stmt(self, place: usize) -> Stmt {
        self.refused.stmt(place)
    }

    fn flag(self) -> Option<usize> {
        self.refused.walked.thread.flag
    }

    /// What is known of the part before the line at a place, on a side of the flag.
    fn at(self, place: usize, zero: bool) -> Known {
        match self.refused.walked.states.get(place) {
            Some(state) => known_on(state.on(zero), self.part),
            None => Known::Dead,
        }
    }

    /// A line joins the ends of the block that begins at a place. This is the first of these ends for which this is known on
    /// a side.
    fn end_of(
        self,
        start: usize,
        closing: Stmt,
        last: usize,
        zero: bool,
        wanted: Known,
    ) -> Option<usize> {
        for place in start..=last {
            let stmt = self.stmt(place);
            let goes = goes_to(self.flag(), stmt, zero, false);
            if is_end(closing, last, stmt, place) && goes && self.at(place, zero) == wanted {
                return Some(place);
            }
        }
        None
    }

    /// The side on which what is known before the line at a place comes to a side after it, where either may come there:
    /// the same one, or the other where nothing reaches that one. Where the flag is written both come, so it is the one
    /// on which the part isn't held.
    fn side_before(self, place: usize, zero: bool) -> bool {
        let is_loop = matches!(self.stmt(place), Stmt::Loop(_));
        if is_loop && self.at(place, zero) != Known::Dead {
            return zero;
        }
        if is_loop {
            return !zero;
        }
        self.at(place, true) == Known::Lacks
    }

    /// Whether the part is held on some side before the line at a place which writes the flag, or tests it so that no
    /// more than one side comes to a point.
    fn is_on_other(self, place: usize, point: Point) -> bool {
        let (stmt, flag) = (self.stmt(place), self.flag());
        let splits = self.at(point.place, !point.zero) == Known::Dead
            && goes_to(flag, stmt, true, true) != goes_to(flag, stmt, true, false);
        let writes = flag.is_some() && written(stmt) == flag;
        let holds = self.at(place, true) == Known::Holds || self.at(place, false) == Known::Holds;
        holds && (writes || splits)
    }

    /// Goes back over a line that joins no ends: to where the part isn't held either, or to its loss.
    fn back(self, point: Point, last: usize) -> Result<Point, Loss> {
        let place = source_of(self.stmt(last), last);
        let zero = if mixes(self.flag(), self.stmt(place)) {
            self.side_before(place, point.zero)
        } else {
            point.zero
        };
        if self.at(place, zero) == Known::Holds || self.is_on_other(place, point) {
            let by_flag = self.at(point.place, !point.zero) == Known::Holds;
            return Err(Loss::At(
                Point {
                    place,
                    zero: point.zero,
                },
                by_flag,
            ));
        }
        Ok(Point { place, zero })
    }

    /// How the part is lost on the way that leads to a point at which it isn't held.
    fn loss(self, missing: Point) -> Loss {
        let mut point = missing;
        let (mut found, mut opening) = (Loss::Never, 0);
        for _ in 0..=missing.place {
            if matches!(found, Loss::Ends(_, _, _)) && point.place <= opening {
                break;
            }
            let Some(last) = point.place.checked_sub(1) else {
                break;
            };
            let closing = self.stmt(last);
            if let Some(start) = joined(self, closing) {
                let zero = point.zero;
                let Some(lacking) = self.end_of(start, closing, last, zero, Known::Lacks) else {
                    break;
                };
                point = Point {
                    place: lacking,
                    zero,
                };
                if let Some(holding) = self.end_of(start, closing, last, zero, Known::Holds) {
                    let by_flag = self.at(lacking, !zero) == Known::Holds;
                    found = Loss::Ends(point, by_flag, holding);
                    opening = start;
                }
                continue;
            }
            match self.back(point, last) {
                Ok(earlier) => point = earlier,
                Err(loss) => return loss,
            }
        }
        found
    }
}

/// How a part is lost that a refused line misses.
pub fn loss_of(refused: Refused, missing: Missing) -> Loss {
    let Missing { part, zero, .. } = missing;
    if let Some(state) = refused.state() {
        if let Some(loss) = peeked_loss(state.on(zero), part) {
            return loss;
        }
    }
    let ways = Ways { refused, part };
    ways.loss(Point {
        place: refused.place,
        zero,
    })
}
