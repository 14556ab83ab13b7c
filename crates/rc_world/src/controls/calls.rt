//! What statements without a block do to the controls.

ghost use Rattle.std.specs.Prelude.{◌≡◌, ◌<◌, ◌≤◌, length, ◌+ℤ◌, ◌-ℤ◌, Some, IsSome};
ghost use Rattle.rc_lang.specs.declared.lines.Stmt.TheVariants.{Do};
ghost use Rattle.rc_lang.specs.Resolved.{IsOperand};
ghost use Rattle.rc_world.specs.Changes.{Acts, CallIsSmall, standing_at};
ghost use Rattle.rc_world.specs.Controls as spec;

use super::{Answer, Controls, Look};
use crate::event::Action;
use rc_lang::lines::{Op, Operand};
use rc_lang::program::Program;

impl Controls {
    // The step of a statement without a block.
    pub(super) fn call(
        &mut self,
        program: &Program,
        thread: u32,
        place: usize,
        op: Op,
        answer: Answer,
    ) -> Action
        requires exists { thread < length self.old.threads }
        requires here { (standing_at self.old thread).place ≡ place }
        requires within { place ≤ 4096 }
        requires small { CallIsSmall program.now op }
        requires step { IsSome (spec.does self.old (standing_at self.old thread) op answer) }
        ensures { Acts program.now thread self.old (Do op) answer result self.new }
    {
        let action = match op {
            Op::Set(x, n) => return self.assign(program, thread, place, x, n),
            Op::Assign(x, y) => {
                return self.assign(program, thread, place, x, self.variable(thread, y));
            }
            Op::Add(x, a, b) => {
                let value = sum(self.operand(thread, a), self.operand(thread, b));
                return self.assign(program, thread, place, x, value);
            }
            Op::Subtract(x, a, b) => {
                let value = difference(self.operand(thread, a), self.operand(thread, b));
                return self.assign(program, thread, place, x, value);
            }
            Op::Load(x, _, _) => return self.load(program, thread, place, x, answer),
            Op::Submit(x) => return self.submit(program, thread, place, x, answer),
            Op::SubmitAndWait(x, _) => return self.submit(program, thread, place, x, answer),
            Op::Store(_, _, x) => Action::Stored(self.byte(thread, x)),
            Op::Fill(_, x) => Action::Filled(self.byte(thread, x)),
            Op::Print(x) => Action::Printed(self.variable(thread, x)),
            Op::GetSqe => Action::EntryOpened,
            Op::PrepRead(_, _, _, _) => Action::ReadPrepared,
            Op::PrepWrite(_, _, _, _, _) => Action::WritePrepared,
            Op::PrepFsync(_, _) => Action::FsyncPrepared,
            Op::PrepNop => Action::NopPrepared,
            Op::PrepOther => Action::OtherPrepared,
            Op::SetData64(user_data) => Action::DataSet(user_data),
            Op::CqeGetData64 => {
                self.look = Look::Got;
                Action::DataGot(user_data_in(answer))
            }
            Op::CqeSeen => {
                self.look = Look::Unseen;
                Action::Reaped(user_data_in(answer))
            }
        };
        self.pass(program, thread, place, action)
    }

    // The value of an operand.
    fn operand(&self, thread: u32, operand: Operand) -> i64
        requires exists { thread < length self.now.threads }
        requires within { IsOperand 64 operand }
        ensures { result ≡ spec.operand_value (standing_at self.now thread) operand }
    {
        match operand {
            Operand::Variable(x) => self.variable(thread, x),
            Operand::Number(n) => n,
        }
    }
}

// The user data of the front completion, which is the answer.
fn user_data_in(answer: Answer) -> u64
    requires { IsSome (spec.user_data_in answer) }
    ensures { spec.user_data_in answer ≡ Some result }
{
    match answer {
        Answer::Front(completion) => completion.user_data,
        _ => unreachable!(),
    }
}

// The sum, wrapped to 64 bits.
fn sum(a: i64, b: i64) -> i64
    ensures { result ≡ spec.wrapped (a +ℤ b) }
{
    a.wrapping_add(b)
}

// The difference, wrapped to 64 bits.
fn difference(a: i64, b: i64) -> i64
    ensures { result ≡ spec.wrapped (a -ℤ b) }
{
    a.wrapping_sub(b)
}
