//! The worlds to which one line of a log leads.

ghost use Rattle.std.specs.Prelude.{◌≡◌, ◌<◌, [], length, All, IfOk, IfSome, true};
ghost use Rattle.rc_lang.specs.Program.{Program};
ghost use Rattle.rc_follow.specs.Ways.{Leads};
ghost use Rattle.rc_follow.specs.Searches.{AsksIn, Finds, Visits};

use crate::covered::drop_covered;
use crate::hidden::{Ground, Step, Way, go, way_on};
use crate::kept::{Found, keep, keep_made};
use crate::node::Node;
use crate::onward::{look_further, look_on};
use crate::rights::{Rights, is_right};
use crate::room::{Room, is_there};
use crate::spent::Purpose;
use crate::visible::{asks, holds_none, may_be_next};
use rc_lang::lines::Locks;
use rc_log::call::Call;
use rc_world::world::World;
use std::alloc::AllocError;

/// How many worlds a search begins from and sees, at most.
const MOST_WORLDS: usize = 1024;

/// How many worlds it looks at, at most.
const MOST_VISITS: usize = 1 << 20;

/// How many steps are made at once.
const MOST_STEPS: u32 = 64;

/// Whether there are worlds, and the line asks what is so in each of them: they stay as they are.
pub fn stay(ground: Ground<'_, '_>, rights: &mut Rights<'_>) -> Result<bool, AllocError>
    ensures same { rights.new ≡ rights.old }
    ensures some { IfOk result (λ is. is ≡ true → 0 < length ground.entry.begun.now.items) }
    ensures asks { IfOk result (λ is. is ≡ true → All (AsksIn rights.old ground.entry.noted.now ground.entry.thread ground.entry.call) ground.entry.begun.now.items) }
{
    for node in ground.begun {
        if !stays(ground, rights, node)? {
            return Ok(false);
        }
    }
    Ok(!ground.begun.is_empty() && ground.begun.len() <= MOST_WORLDS)
}

/// Whether the line asks what is so in the world. An unlock may come after hidden steps too.
fn stays(
    ground: Ground<'_, '_>,
    rights: &mut Rights<'_>,
    node: &Node<'_>,
) -> Result<bool, AllocError>
    ensures same { rights.new ≡ rights.old }
    ensures asks { IfOk result (λ is. is ≡ true → AsksIn rights.old ground.entry.noted.now ground.entry.thread ground.entry.call node.now) }
{
    match ground.call {
        Call::Unlock(_) => Ok(false),
        Call::Reads(_) | Call::Writes(_) => {
            let is = is_right(rights, node, ground.thread, ground.call)?;
            Ok(is)
        }
        _ => Ok(asks(ground.noted, node, ground.thread, ground.call)),
    }
}

/// Finds the worlds to which the line leads, by hidden steps of its thread and then the line. Answers false where there
/// are more worlds than are looked at.
pub fn search<'a>(
    ground: Ground<'_, 'a>,
    rights: &mut Rights<'_>,
    found: &mut Found<'a>,
    room: &mut Room<'a>,
) -> Result<bool, AllocError>
    ensures same { rights.new ≡ rights.old }
    ensures found { IfOk result (λ is. is ≡ true → Finds rights.old ground.entry.noted.now ground.entry.begun.now.items ground.entry.thread ground.entry.call found.new.worlds.items) }
{
    begin(found, room)?;
    if ground.begun.len() > MOST_WORLDS {
        return Ok(false);
    }
    for node in ground.begun {
        visit_first(ground, rights, node, found, room)?;
    }
    for _visit in 0..MOST_VISITS {
        if room.seen() > MOST_WORLDS - ground.begun.len() {
            return Ok(false);
        }
        let Some(node) = found.todo.pop() else {
            room.end_search(purpose_of(ground), found.worlds.len())?;
            drop_covered(ground, &mut found.worlds, room)?;
            return Ok(true);
        };
        visit(ground, rights, node, false, found, room)?;
    }
    Ok(false)
}

/// Nothing is found and nothing seen.
fn begin<'a>(found: &mut Found<'a>, room: &mut Room<'a>) -> Result<(), AllocError>
    ensures worlds { IfOk result (λ _. found.new.worlds.items ≡ []) }
    ensures todo { IfOk result (λ _. found.new.todo.items ≡ []) }
{
    found.is_step = false;
    room.give_all(&mut found.worlds)?;
    room.give_all(&mut found.todo)?;
    room.forget()
}

/// A world that the search begins from: an unlock leaves it as it is where the thread has let go of the locks.
fn visit_first<'a>(
    ground: Ground<'_, 'a>,
    rights: &mut Rights<'_>,
    node: &Node<'a>,
    found: &mut Found<'a>,
    room: &mut Room<'a>,
) -> Result<(), AllocError>
    ensures same { rights.new ≡ rights.old }
    ensures visits { IfOk result (λ _. Visits rights.old ground.entry.noted.now node.now ground.entry.thread ground.entry.call found.old found.new) }
{
    keep_unlocked(ground, node, found, room)?;
    if leads_nowhere(ground, node) {
        return Ok(());
    }
    let again = room.copy(ground.alloc, node)?;
    visit(ground, rights, again, true, found, room)?;
    Ok(())
}

/// Whether the line plainly leads nowhere from the world, so that no copy of it is made.
fn leads_nowhere(ground: Ground<'_, '_>, node: &Node<'_>) -> bool {
    let has_way = !matches!(way_on(ground, node.world()), Way::None);
    match ground.call {
        Call::Unlock(_) => !has_way,
        Call::Reads(_) | Call::Writes(_) => false,
        _ => {
            !has_way
                && !may_be_next(ground, node.world())
                && !asks(ground.noted, node, ground.thread, ground.call)
        }
    }
}

fn keep_unlocked<'a>(
    ground: Ground<'_, '_>,
    node: &Node<'a>,
    found: &mut Found<'a>,
    room: &mut Room<'a>,
) -> Result<(), AllocError>
    ensures { IfOk result (λ _. (P : Program) → Visits P ground.entry.noted.now node.now ground.entry.thread ground.entry.call found.old found.new) }
{
    match ground.call {
        Call::Unlock(_) => {
            keep_asked(ground, false, node, found, room)?;
            Ok(())
        }
        _ => Ok(()),
    }
}

/// Looks at a world before the line, and at those after it as long as there is one way on: keeps the worlds to which the
/// line leads from them, and leaves those after several ways to be looked at. `is_begun` says whether the search begins
/// from it.
fn visit<'a>(
    ground: Ground<'_, 'a>,
    rights: &mut Rights<'_>,
    mut node: Node<'a>,
    is_begun: bool,
    found: &mut Found<'a>,
    room: &mut Room<'a>,
) -> Result<(), AllocError>
    ensures same { rights.new ≡ rights.old }
    ensures visits { IfOk result (λ _. Visits rights.old ground.entry.noted.now node.entry ground.entry.thread ground.entry.call found.old found.new) }
{
    for step in 0..MOST_STEPS {
        match look_at(ground, rights, node, is_begun && step == 0, found, room)? {
            Some(next) => node = next,
            None => return Ok(()),
        }
    }
    look_further(ground, node, found, room)?;
    Ok(())
}

/// Looks at one world, and answers the world after the one way on from it. Where it has none, or the line leads on from
/// it, there is nothing more to look at. So a mark of a buffer leads to the first world on each way in which the thread has
/// the right.
fn look_at<'a>(
    ground: Ground<'_, 'a>,
    rights: &mut Rights<'_>,
    node: Node<'a>,
    is_begun: bool,
    found: &mut Found<'a>,
    room: &mut Room<'a>,
) -> Result<Option<Node<'a>>, AllocError>
    ensures same { rights.new ≡ rights.old }
    ensures visits { IfOk result (λ _. Visits rights.old ground.entry.noted.now node.entry ground.entry.thread ground.entry.call found.old found.new) }
    ensures leads { IfOk result (λ next. IfSome next (Leads ground.entry.noted.now node.entry)) }
{
    if stays(ground, rights, &node)? {
        keep(ground.reads, node, found, room)?;
        return Ok(None);
    }
    match ground.call {
        Call::Unlock(released) => look_at_unlock(ground, node, is_begun, released, found, room),
        Call::PeekNone | Call::SqReady(_) | Call::SqSpaceLeft | Call::Lock(_) => {
            room.give(node)?;
            Ok(None)
        }
        _ => look_at_call(ground, node, is_begun, found, room),
    }
}

/// An unlock leads to the worlds directly after a step by which the thread lets go of the locks.
fn look_at_unlock<'a>(
    ground: Ground<'_, 'a>,
    node: Node<'a>,
    is_begun: bool,
    released: Locks,
    found: &mut Found<'a>,
    room: &mut Room<'a>,
) -> Result<Option<Node<'a>>, AllocError>
    ensures visits { IfOk result (λ _. (P : Program) → Visits P ground.entry.noted.now node.entry ground.entry.thread ground.entry.call found.old found.new) }
    ensures leads { IfOk result (λ next. IfSome next (Leads ground.entry.noted.now node.entry)) }
{
    let was_free = holds_none(&node, ground.thread, released);
    let Some(next) = go_on(ground, node, is_begun, found, room)? else {
        return Ok(None);
    };
    if keep_asked(ground, was_free, &next, found, room)? {
        return Ok(Some(next));
    }
    room.give(next)?;
    Ok(None)
}

/// Looks for a call: if the thread can make it next, the world after it is found; if not, the search goes on from here. A
/// mark of a buffer isn't a call.
fn look_at_call<'a>(
    ground: Ground<'_, 'a>,
    node: Node<'a>,
    is_begun: bool,
    found: &mut Found<'a>,
    room: &mut Room<'a>,
) -> Result<Option<Node<'a>>, AllocError>
    ensures visits { IfOk result (λ _. (P : Program) → Visits P ground.entry.noted.now node.entry ground.entry.thread ground.entry.call found.old found.new) }
    ensures leads { IfOk result (λ next. IfSome next (Leads ground.entry.noted.now node.entry)) }
{
    if may_be_next(ground, node.world()) {
        visit_made(ground, node, is_begun, found, room)?;
        return Ok(None);
    }
    go_on(ground, node, is_begun, found, room)
}

/// Goes on from a world by the thread's one way, and answers the world after it. Those after several ways are left to be
/// looked at.
fn go_on<'a>(
    ground: Ground<'_, 'a>,
    mut node: Node<'a>,
    is_begun: bool,
    found: &mut Found<'a>,
    room: &mut Room<'a>,
) -> Result<Option<Node<'a>>, AllocError>
    ensures visits { IfOk result (λ _. (P : Program) → Visits P ground.entry.noted.now node.entry ground.entry.thread ground.entry.call found.old found.new) }
    ensures leads { IfOk result (λ next. IfSome next (Leads ground.entry.noted.now node.entry)) }
{
    let way = way_on(ground, node.world());
    let Way::On(step) = way else {
        look_on(ground, node, way, is_begun, found, room)?;
        return Ok(None);
    };
    if go(ground, &mut node, step)? {
        return Ok(Some(node));
    }
    room.give(node)?;
    Ok(None)
}

/// Keeps a world in which the line asks what is so, unless the world before it was one. Answers false where one that is
/// like it is there.
fn keep_asked<'a>(
    ground: Ground<'_, '_>,
    was_free: bool,
    node: &Node<'a>,
    found: &mut Found<'a>,
    room: &mut Room<'a>,
) -> Result<bool, AllocError>
    ensures { IfOk result (λ _. (P : Program) → Visits P ground.entry.noted.now node.now ground.entry.thread ground.entry.call found.old found.new) }
{
    if was_free {
        return Ok(true);
    }
    if !asks(ground.noted, node, ground.thread, ground.call) {
        return Ok(true);
    }
    if is_there(ground.reads, node, &found.worlds) {
        return Ok(false);
    }
    let again = room.copy(ground.alloc, node)?;
    found.worlds.push(again)?;
    Ok(true)
}

/// Makes the call in a world where the thread can make it next. The call may also come later, so the search goes on from
/// this world as well, unless an earlier search found nothing more from one like it. A world like one that the search began
/// from was looked at there.
fn visit_made<'a>(
    ground: Ground<'_, 'a>,
    node: Node<'a>,
    is_begun: bool,
    found: &mut Found<'a>,
    room: &mut Room<'a>,
) -> Result<(), AllocError>
    ensures { IfOk result (λ _. (P : Program) → Visits P ground.entry.noted.now node.entry ground.entry.thread ground.entry.call found.old found.new) }
{
    if !is_begun && is_there(ground.reads, &node, ground.begun) {
        room.give(node)?;
        return Ok(());
    }
    let way = way_besides(ground, node.world());
    if matches!(way, Way::None) || room.is_spent(ground.reads, purpose_of(ground), &node) {
        keep_made(ground, node, found, room)?;
        return Ok(());
    }
    let before = found.worlds.len();
    let again = room.copy(ground.alloc, &node)?;
    keep_made(ground, again, found, room)?;
    note_first(ground, &node, before, found.worlds.len(), room)?;
    look_on(ground, node, way, is_begun, found, room)?;
    Ok(())
}

/// What the search is for.
fn purpose_of(ground: Ground<'_, '_>) -> Purpose {
    Purpose::of(ground.noted, ground.thread, ground.call)
}

/// Notes the world from which the search found its first world, if the search began from a single one. The numbers are of
/// the worlds found before and after the call was made there.
fn note_first<'a>(
    ground: Ground<'_, 'a>,
    node: &Node<'a>,
    before: usize,
    now: usize,
    room: &mut Room<'a>,
) -> Result<(), AllocError> {
    let is_first = before == 0 && now == 1;
    if is_first && ground.begun.len() == 1 && purpose_of(ground).may_go_on() {
        return room.note_first(ground.alloc, node);
    }
    Ok(())
}

/// How the thread goes on besides from a world in which its next step is the call. A take that is hidden here and made at
/// another place may as well be made here and hidden there; so may a put, where no other thread waits for it.
fn way_besides(ground: Ground<'_, '_>, world: &World<'_>) -> Way {
    let way = way_on(ground, world);
    match (ground.call, way) {
        (Call::Take(_), Way::Both(past)) => Way::On(past),
        (Call::Take(_), Way::On(Step::Own)) => Way::None,
        (Call::Put(_), _) if world.program().threads().len() == 1 => Way::None,
        _ => way,
    }
}
