//! What a log says beside the world.

ghost use Rattle.std.specs.Prelude.{◌≡◌, ◌&&◌, IfOk, Some, false, nat_eq, position};
ghost use Rattle.rc_lang.specs.Program.{token_place};
ghost use Rattle.rc_world.specs.Controls.{held_by};
ghost use Rattle.rc_world.specs.Faults.{is_holder};
ghost use Rattle.rc_follow.specs.Followed as spec;
ghost use Rattle.rc_follow.specs.Searches.{wanted_res};
ghost use Rattle.rc_world.specs.Machine.{World};

use rc_lang::lines::{Line, Locks, Op, Stmt, Test};
use rc_lang::program::Program;
use rc_lang::request::Request;
use rc_log::call::Call;
use rc_world::controls::Holders;
use rc_world::event::{Action, Event};
use rc_world::world::World;
use rc_world::world::requests::largest;
use std::alloc::{AllocError, Global};
use std::marker::Model;

/// The largest of C's int.
const MOST_OF_INT: u64 = i32::MAX as u64;

/// Who has each mutex of the C program, whether the model has one thread and no mutex was locked yet, the largest result
/// that C's open entry can have, if it isn't a nop or an fsync, and that of the last request of each declared token.
#[derive(Drop)]
pub struct Noted {
    mutexes: Holders,
    is_alone: bool,
    entry: Option<u64>,
    lengths: Vec<Option<u64>>,
}

impl Model for Noted {
    ghost use Rattle.rc_follow.specs.Followed as spec;

    ghost Value = { spec.Noted };

    ghost view = { λ n. record { mutexes = n.mutexes; alone = n.is_alone; entry = n.entry; lengths = n.lengths.items } };
}

impl Noted {
    /// Before the first line: nobody has a mutex, and no length is known.
    pub fn start(alloc: Global, program: &Program) -> Result<Noted, AllocError>
        ensures { IfOk result (λ n. n ≡ spec.start_noted program.now) }
    {
        let mut lengths = Vec::new(alloc);
        lengths.resize(program.tokens().len(), None)?;
        Ok(Noted {
            mutexes: Holders { sq: None, cq: None },
            is_alone: program.threads().len() == 1,
            entry: None,
            lengths,
        })
    }

    /// Who has each mutex.
    pub fn mutexes(&self) -> Holders
        ensures { result ≡ self.now.mutexes }
    {
        self.mutexes
    }

    /// Whether the model has one thread and no mutex was locked yet.
    pub fn is_alone(&self) -> bool {
        self.is_alone
    }

    /// Whether the thread has all these mutexes.
    pub fn has_mutexes(&self, thread: u32, wanted: Locks) -> bool
        ensures { result ≡ spec.has_mutexes self.now thread wanted }
    {
        let sq = !wanted.sq || is_holder(self.mutexes.sq, thread);
        let cq = !wanted.cq || is_holder(self.mutexes.cq, thread);
        sq && cq
    }

    /// Whether the thread may take these locks of the model: it has the mutexes, or it is the model's only thread and none
    /// was locked yet.
    pub fn may_lock(&self, thread: u32, wanted: Locks) -> bool
        ensures { result ≡ spec.may_lock self.now thread wanted }
    {
        self.has_mutexes(thread, wanted) || self.is_alone
    }

    /// Notes what a call of a thread says.
    pub fn note(&mut self, program: &Program, thread: u32, call: Call)
        ensures { self.new ≡ spec.noted_call program.now self.old thread call }
    {
        match call {
            Call::PrepRead { len, .. } => self.entry = Some(len),
            Call::PrepWrite { len, .. } => self.entry = Some(len),
            Call::PrepFsync { .. } => self.entry = None,
            Call::PrepNop => self.entry = None,
            Call::PrepOther => self.entry = Some(MOST_OF_INT),
            Call::SetData64(user_data) => self.name_open(program.token_place(user_data)),
            Call::Lock(wanted) => self.lock(thread, wanted),
            Call::Unlock(released) => self.give(None, released),
            _ => {}
        }
    }

    // The open entry is one of the token at this place.
    fn name_open(&mut self, place: Option<usize>)
        ensures { self.new ≡ spec.names_open self.old place }
    {
        if let Some(place) = place
            && let Some(len) = self.lengths.get_mut(place)
        {
            *len = self.entry;
        }
    }

    // The thread locks these mutexes.
    fn lock(&mut self, thread: u32, wanted: Locks)
        ensures { self.new ≡ record self.old { mutexes = held_by (Some thread) wanted self.old.mutexes; alone = false } }
    {
        self.is_alone = false;
        self.give(Some(thread), wanted);
    }

    // These mutexes have another holder, or none.
    fn give(&mut self, holder: Option<u32>, mutexes: Locks)
        ensures { self.new ≡ record self.old { mutexes = held_by holder mutexes self.old.mutexes } }
    {
        if mutexes.sq {
            self.mutexes.sq = holder;
        }
        if mutexes.cq {
            self.mutexes.cq = holder;
        }
    }

    /// Whether a step by this event is hidden. `is_idle` says whether nothing was queued before it.
    pub fn is_hidden(&self, is_idle: bool, event: Event) -> bool
        ensures { (w : World) → is_idle ≡ spec.is_empty w.queued → result ≡ spec.is_hidden self.now w event }
    {
        match event {
            Event::ByThread { thread, action, .. } => self.hides(is_idle, thread, action),
            Event::ByKernel(_) => true,
        }
    }

    fn hides(&self, is_idle: bool, thread: u32, action: Action) -> bool
        ensures { (w : World) → is_idle ≡ spec.is_empty w.queued → result ≡ spec.is_hidden_action self.now w thread action }
    {
        match action {
            Action::Locked(wanted) => self.may_lock(thread, wanted),
            Action::Submitted(taken) => taken == 0 && is_idle,
            Action::EntryOpened => false,
            Action::ReadPrepared => false,
            Action::WritePrepared => false,
            Action::FsyncPrepared => false,
            Action::NopPrepared => false,
            Action::OtherPrepared => false,
            Action::DataSet(_) => false,
            Action::Peeked(_) => false,
            Action::Reaped(_) => false,
            Action::VariableSet(_) => true,
            Action::Loaded(_) => true,
            Action::Stored(_) => true,
            Action::Filled(_) => true,
            Action::Printed(_) => true,
            Action::Released(_) => true,
            Action::PeekedNone => true,
            Action::DataGot(_) => true,
            Action::Branched(_) => true,
            Action::Looped => true,
            Action::LoopLeft => true,
            Action::ItemsPut => true,
        }
    }

    /// The result that the text's peek finds in a world where C's is this call; 0 where the call is another.
    pub fn wanted(&self, world: &World<'_>, call: Call) -> i64
        ensures { result ≡ wanted_res self.now world.now call }
    {
        match call {
            Call::Peek { user_data, res } => {
                let most = most_of(user_data, world.completed());
                self.scaled(world.program(), user_data, most, res)
            }
            _ => 0,
        }
    }

    /// Whether this call of a thread is the step by this event. The thread had this line of the text next, and a peek is
    /// to find the wanted result.
    pub fn fits(
        &self,
        wanted: i64,
        thread: u32,
        call: Call,
        line: Option<Line>,
        event: Event,
    ) -> bool
        ensures { (w : World) → wanted ≡ wanted_res self.now w call → result ≡ spec.fits self.now w thread call line event }
    {
        match (line, event) {
            (
                Some(line),
                Event::ByThread {
                    thread: of,
                    action,
                    ..
                },
            ) => {
                thread == of
                    && self.may_come(call)
                    && self.fits_action(wanted, call, line.stmt, action)
            }
            _ => false,
        }
    }

    // Whether the call may come now: a call on the ring comes after a mutex was locked.
    fn may_come(&self, call: Call) -> bool
        ensures { result ≡ spec.may_come self.now call }
    {
        match call {
            Call::Put(_) => true,
            Call::Take(_) => true,
            _ => !self.is_alone,
        }
    }

    fn fits_action(&self, wanted: i64, call: Call, stmt: Stmt, action: Action) -> bool
        ensures { (w : World) → wanted ≡ wanted_res self.now w call → result ≡ spec.fits_action self.now w call stmt action }
    {
        match (call, action) {
            (Call::GetSqe, Action::EntryOpened) => true,
            (Call::PrepRead { file, buffer, .. }, Action::ReadPrepared) => {
                is_read_of(file, buffer, stmt)
            }
            (Call::PrepWrite { file, buffer, .. }, Action::WritePrepared) => {
                is_write_of(file, buffer, stmt)
            }
            (Call::PrepFsync { file, datasync }, Action::FsyncPrepared) => {
                is_fsync_of(file, datasync, stmt)
            }
            (Call::PrepNop, Action::NopPrepared) => true,
            (Call::PrepOther, Action::OtherPrepared) => true,
            (Call::SetData64(wanted), Action::DataSet(given)) => wanted == given,
            (Call::Submit(wanted), Action::Submitted(given)) => wanted == given,
            (Call::Peek { user_data, .. }, Action::Peeked(completion)) => {
                user_data == completion.user_data && wanted == i64::from(completion.res)
            }
            (Call::CqeSeen(wanted), Action::Reaped(given)) => wanted == given,
            (Call::Put(mark), Action::ItemsPut) => is_put_into(mark.pool, stmt),
            (Call::Take(mark), Action::Branched(true)) => is_take_from(mark.pool, stmt),
            _ => false,
        }
    }

    /// C's result of the request with this user data, scaled to the text's request, whose largest is `most`.
    pub fn scaled(&self, program: &Program, user_data: u64, most: u32, res: i32) -> i64
        ensures { result ≡ spec.scaled (spec.length_at self.now (token_place program.now.tokens user_data)) most res }
    {
        match self.length_of(program.token_place(user_data)) {
            Some(len) => scaled_by(len, most, res),
            None => i64::from(res),
        }
    }

    fn length_of(&self, place: Option<usize>) -> Option<u64>
        ensures { result ≡ spec.length_at self.now place }
    {
        self.lengths.get(place?).copied().flatten()
    }
}

fn is_holder(holder: Option<u32>, thread: u32) -> bool
    ensures { result ≡ is_holder holder thread }
{
    match holder {
        Some(holder) => holder == thread,
        None => false,
    }
}

// The model's count, at most `most`, for C's count, at most `len`.
fn scaled_count(len: u64, most: u32, count: u32) -> u32
    ensures value { result ≡ spec.scaled_count len most count }
{
    if count == 0 || len == u64::from(most) {
        count
    } else if u64::from(count) == len {
        most
    } else {
        count.min(most.saturating_sub(1))
    }
}

// The model's result for C's, whose largest is `len`.
fn scaled_by(len: u64, most: u32, res: i32) -> i64
    ensures { result ≡ spec.scaled (Some len) most res }
{
    match u32::try_from(res) {
        Ok(count) => i64::from(scaled_count(len, most, count)),
        Err(_) => i64::from(res),
    }
}

fn most_of(user_data: u64, requests: &[Request]) -> u32
    ensures { result ≡ spec.most_of user_data requests.now }
{
    match place_of(requests, user_data) {
        Some(place) => most_at(requests, place),
        None => 0,
    }
}

// The place of the first request with this user data.
fn place_of(requests: &[Request], user_data: u64) -> Option<usize>
    ensures { result ≡ position (λ r. nat_eq r.user_data user_data) requests.now }
{
    requests
        .iter()
        .position(|request| request.user_data == user_data)
}

fn most_at(requests: &[Request], place: usize) -> u32
    ensures { result ≡ spec.most_at requests.now (Some place) }
{
    match requests.get(place) {
        Some(request) => largest(*request),
        None => 0,
    }
}

fn is_read_of(file: u32, buffer: usize, stmt: Stmt) -> bool
    ensures { result ≡ spec.is_read_of file buffer stmt }
{
    match stmt {
        Stmt::Do(Op::PrepRead(of, into, _, _)) => of == file && into == buffer,
        _ => false,
    }
}

fn is_write_of(file: u32, buffer: usize, stmt: Stmt) -> bool
    ensures { result ≡ spec.is_write_of file buffer stmt }
{
    match stmt {
        Stmt::Do(Op::PrepWrite(of, from, _, _, _)) => of == file && from == buffer,
        _ => false,
    }
}

fn is_fsync_of(file: u32, datasync: bool, stmt: Stmt) -> bool
    ensures { result ≡ spec.is_fsync_of file datasync stmt }
{
    match stmt {
        Stmt::Do(Op::PrepFsync(of, data)) => of == file && data == datasync,
        _ => false,
    }
}

fn is_put_into(pool: usize, stmt: Stmt) -> bool
    ensures { result ≡ spec.is_put_into pool stmt }
{
    match stmt {
        Stmt::Put(Some(into), _) => into == pool,
        _ => false,
    }
}

fn is_take_from(pool: usize, stmt: Stmt) -> bool
    ensures { result ≡ spec.is_take_from pool stmt }
{
    match stmt {
        Stmt::If(Test::Take(Some(from), _)) => from == pool,
        _ => false,
    }
}
