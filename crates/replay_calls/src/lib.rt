// A replay line's call, on the front of the lent memory.
#![tactic(auto)]

ghost use Rattle.std.specs.Prelude.{◌≡◌, ◌≤◌};
ghost use Rattle.rules.specs.Replay.{freshes, sets, gets, deletes};
ghost use Rattle.lines.specs.Saying.{said, Fine};
ghost use Rattle.replay_calls.specs.Front.{Ready, ready_sole, come_to, in_use_check};
ghost use Rattle.replay_calls.specs.Ready.{Runs};

use lines::Call;
use rules::{Answer, Operation, Outcome};
use storing::Value;

// The lent memory: its words, its bytes, and how many cells at its front are in use, those of the last `fresh` done.
#[derive(Drop)]
pub struct Lent<'a> {
    pub dir: &'a mut [u64],
    pub pool: &'a mut [u8],
    pub cells: usize,
    pub ghost ready: { Ready cells dir.now pool.now } by { ready_sole cells dir.now pool.now },
}

impl Lent<'_> {
    ghost use Rattle.replay_calls.specs.Lent.{left, Same};

    // The pool's bytes, to be read.
    pub fn bytes(&self) -> &[u8]
        ensures { result.now ≡ self.now.pool.now }
    {
        &self.pool[..]
    }

    // Refuses where there is nothing to look in.
    fn check_in_use(&self) -> Result<(), Outcome>
        ensures { result ≡ in_use_check self.now.cells }
    {
        if self.cells == 0 {
            return Err(Outcome::NotSound); // no `fresh` yet
        }
        Ok(())
    }

    // get. The front is known to be sound: its soundness is not tested again.
    fn get(&mut self, clock: u64, key: &[u8]) -> Result<Answer, Outcome>
        ensures runs { Runs (gets clock key.now) (left self.old) (come_to result) (left self.new) }
        ensures same { Same self.old self.new }
    {
        self.check_in_use()?;
        checks::key_arguments(clock, key)?;
        Ok(reading::get_in(
            &mut self.dir[..2 + 6 * self.cells],
            &mut self.pool[..32 * self.cells],
            clock,
            key,
        ))
    }

    // delete.
    fn delete(&mut self, clock: u64, key: &[u8]) -> Result<Answer, Outcome>
        ensures runs { Runs (deletes clock key.now) (left self.old) (come_to result) (left self.new) }
        ensures same { Same self.old self.new }
    {
        self.check_in_use()?;
        checks::key_arguments(clock, key)?; // a delete checks its clock too
        Ok(upkeep::delete_in(
            &mut self.dir[..2 + 6 * self.cells],
            &mut self.pool[..32 * self.cells],
            clock,
            key,
        ))
    }

    // set.
    fn set(&mut self, clock: u64, key: &[u8], value: Value) -> Result<Answer, Outcome>
        ensures runs { Runs (sets clock key.now value.entry.kind value.entry.number value.entry.text.now value.entry.lifetime value.entry.flags) (left self.old) (come_to result) (left self.new) }
        ensures same { Same self.old self.new }
    {
        self.check_in_use()?;
        checks::store_arguments(Operation::Set, clock, key, value.kind, value.lifetime)?;
        Ok(storing::store_in(
            Operation::Set,
            &mut self.dir[..2 + 6 * self.cells],
            &mut self.pool[..32 * self.cells],
            clock,
            key,
            value,
        ))
    }

    // fresh: an empty memory of `count` cells at the front, where that much is lent.
    fn fresh(&mut self, count: usize) -> Result<Answer, Outcome>
        requires some { 1 ≤ count }
        requires few { count ≤ 1024 }
        ensures runs { Runs (freshes count) (left self.old) (come_to result) (left self.new) }
        ensures same { Same self.old self.new }
    {
        let words = 2 + 6 * count;
        let bytes = 32 * count;
        if self.dir.len() < words {
            return Err(Outcome::NotSound); // too few words are lent
        }
        if self.pool.len() < bytes {
            return Err(Outcome::NotSound);
        }
        let answer = memory::make_fresh(&mut self.dir[..words], &mut self.pool[..bytes]);
        self.cells = count;
        Ok(answer)
    }

    // The call that a line makes, or why it is refused.
    fn try_call(&mut self, call: Option<Call<'_>>) -> Result<Answer, Outcome>
        requires { Fine call }
        ensures runs { Runs (said call.entry) (left self.old) (come_to result) (left self.new) }
        ensures same { Same self.old self.new }
    {
        let Some(call) = call else {
            return Err(Outcome::LineUnreadable);
        };
        match call {
            Call::Fresh { cells } => self.fresh(cells),
            Call::Set {
                clock,
                key,
                kind,
                number,
                text,
                lifetime,
                flags,
            } => {
                let value = Value {
                    kind,
                    number,
                    text,
                    lifetime,
                    flags,
                };
                self.set(clock, key, value)
            }
            Call::Get { clock, key } => self.get(clock, key),
            Call::Delete { clock, key } => self.delete(clock, key),
        }
    }

    // What the line does that makes this call.
    pub fn do_call(&mut self, call: Option<Call<'_>>) -> Answer
        requires { Fine call }
        ensures runs { Runs (said call.entry) (left self.old) result (left self.new) }
        ensures same { Same self.old self.new }
    {
        match self.try_call(call) {
            Ok(answer) => answer,
            Err(refusal) => Answer::plain(refusal, 0),
        }
    }
}
