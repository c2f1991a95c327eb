// The commands of a session.
ghost use Rattle.std.specs.Prelude.{◌≡◌, ◌≢◌, ◌≤◌};
ghost use Rattle.g5_machine.specs.Standing.{StandsFor};
ghost use Rattle.machine_runs.specs.Views.{view_of};
ghost use Rattle.program_model.specs.Debugger.{answer as answer_by, question};
ghost use Rattle.program_model.specs.Session.{Session as ModelSession};
ghost use Rattle.run_loop.specs.Making.{SoundAfter};
ghost use Rattle.run_model.specs.Runs.{Model};
ghost use Rattle.silicon.specs.Chip.{Chip};
ghost use Rattle.g5_debugger.specs.Answering.{TellsTurns};
ghost use Rattle.g5_debugger.specs.Making.{MakesNext};
ghost use Rattle.g5_debugger.specs.Order.{IsInOrder};
ghost use Rattle.g5_debugger.specs.Sessions.{Commands, HasBegun, IsSession, IsText, SaysAs, next_kinds, turns_asked};

use crate::answers::answer_of;
use crate::making::make_next;
use crate::reading::question_of;
use crate::session::{Answer, Session};
use program_model::questions::Question;
use silicon::Silicon;

// How many turns are asked for.
fn turns_of(asked: Question) -> u32
    ensures { result ≡ turns_asked asked }
{
    match asked {
        Question::Turns(count) => count,
        Question::Psw(_) => 0,
        Question::General(_) => 0,
        Question::Control(_) => 0,
        Question::Prefix(_) => 0,
        Question::Memory(_, _) => 0,
        Question::Key(_) => 0,
        Question::Cpu(_) => 0,
        Question::Console => 0,
        Question::Quit => 0,
    }
}

impl Session {
    // Makes the next so many turns, or those that are left.
    fn make<Z: Silicon>(&mut self, count: u32, z: &mut Z)
        requires begun { HasBegun self.old.reached.made.turns (Z.seen z.old) }
        requires few { count ≤ 1000000 }
        ensures makes { MakesNext count self.old.schedule self.old.reached self.new.reached
            (view_of self.old.engine (Z.seen z.old) (Z.tape z.old))
            (view_of self.new.engine (Z.seen z.new) (Z.tape z.new)) }
        ensures schedule { self.new.schedule ≡ self.old.schedule }
    {
        let reached = make_next(
            &mut self.engine,
            z,
            self.schedule.runs(),
            self.reached,
            count,
        );
        self.reached = reached;
    }

    // The answer, after the turns that are asked for.
    fn answer(&self, asked: Question) -> Answer
        requires order { IsInOrder self.now.engine.machine.config.cpus asked }
        ensures quit { asked ≡ Question.Quit → result ≡ Answer.Quit }
        ensures text { asked ≢ Question.Quit → IsText result
            (λ t. TellsTurns asked self.now.engine.machine.counts.turns t
            × ((z : Chip) (x : Model) → StandsFor self.now.engine.machine z x
            → t ≡ answer_by x.machine x.fate.cores asked)) }
    {
        match asked {
            Question::Quit => Answer::Quit,
            _ => Answer::Text(answer_of(self.engine.machine(), asked)),
        }
    }

    /// Carries out a command, a line without its line feed: makes the turns that it asks for, on this
    /// silicon, and answers it. A line that is no command changes nothing, and neither does `quit`.
    pub fn command<Z: Silicon>(&mut self, line: &[u8], z: &mut Z) -> Answer
        requires begun { HasBegun self.old.reached.made.turns (Z.seen z.old) }
        ensures commands { Commands (question self.old.engine.machine.config.cpus line.now)
            self.old self.new
            (view_of self.old.engine (Z.seen z.old) (Z.tape z.old))
            (view_of self.new.engine (Z.seen z.new) (Z.tape z.new)) result }
        ensures says { (d : ModelSession)
            → IsSession self.old (view_of self.old.engine (Z.seen z.old) (Z.tape z.old)) d
            → SoundAfter (view_of self.old.engine (Z.seen z.old) (Z.tape z.old)) d.model
            (next_kinds (question self.old.engine.machine.config.cpus line.now) d)
            → SaysAs (Z.seen z.old).lines self.old.engine.machine.config
            (question self.old.engine.machine.config.cpus line.now) d self.new
            (view_of self.new.engine (Z.seen z.new) (Z.tape z.new)) result }
        ensures script { (Z.seen z.new).lines ≡ (Z.seen z.old).lines }
        ensures begun { HasBegun self.new.reached.made.turns (Z.seen z.new) }
    {
        let Some(asked) = question_of(line, self.engine.config().cpus) else {
            return Answer::Unknown;
        };
        self.make(turns_of(asked), z);
        self.answer(asked)
    }
}
